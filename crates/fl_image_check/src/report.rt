// The lines of a check, written to a sink.
ghost use Rattle.std.specs.Prelude.{◌≡◌, ◌+◌, ◌≤◌, ◌∷◌, ◌++◌, [], length, codes, decimal};
ghost use Rattle.fl_words.specs.Medium.{line_text};
ghost use Rattle.fl_base.specs.Causes.{HasCause};
ghost use Rattle.fl_script.specs.Written.{Written};
ghost use Rattle.fl_image_check.specs.Report.{ring_name, rule_name, finding_line, finding_text, findings_text, rules_text};
ghost use Rattle.fl_check.specs.Faults.{fault_of, ring_faults, table_faults};
ghost use Rattle.fl_check.specs.declared.finding.Finding.{Finding};
ghost use Rattle.fl_image_check.specs.declared.extent.Extent.{Extent};

use crate::Extent;
use fl_base::{Name, Sink, SinkFailed};
use fl_check::{Finding, RingFaults, RingName, Rule, TableFaults, TableRules};
use fl_script::{LINE_BYTES, TextLine, write_all};

fn ring_word(ring: RingName) -> &'static [u8]
    ensures text { result.now ≡ ring_name ring }
    ensures short { length result.now ≤ 5 }
{
    match ring {
        RingName::Index => b"index",
        RingName::Data => b"data",
        RingName::Var => b"var",
        RingName::Log => b"log",
    }
}

fn rule_word(rule: Rule) -> &'static [u8]
    ensures text { result.now ≡ rule_name rule }
    ensures short { length result.now ≤ 6 }
{
    match rule {
        Rule::Head => b"head",
        Rule::State => b"state",
        Rule::Number => b"number",
        Rule::Body => b"body",
        Rule::Keys => b"keys",
        Rule::Entry => b"entry",
        Rule::Blob => b"blob",
        Rule::Rest => b"rest",
    }
}

/// A word behind a space.
fn add_word(line: &mut TextLine, word: &[u8])
    requires { length line.old + length word.now + 1 ≤ LINE_BYTES }
    ensures { line.new ≡ line.old ++ 32 ∷ word.now }
{
    line.add(b" ");
    line.add(word);
}

fn add_sound(line: &mut TextLine, name: &Name, rows: u64, pages: u32, voids: u32)
    requires { line.old ≡ [] }
    ensures { line.new ≡ finding_text name.now (Finding.Sound rows pages voids) }
{
    line.add(b"sound ");
    line.add(name.bytes());
    line.add_number(b" rows ", rows);
    line.add_number(b" pages ", pages);
    line.end_with_number(b" voids ", voids);
}

/// A fault of the rule with this number.
fn add_numbered(line: &mut TextLine, name: &Name, ring: RingName, page: u32, rule: u8)
    requires { line.old ≡ [] }
    ensures { line.new ≡ line_text (codes "fault" ∷ name.now ∷ ring_name ring ∷ decimal page ∷ decimal rule ∷ []) }
{
    line.add(b"fault ");
    line.add(name.bytes());
    add_word(line, ring_word(ring));
    line.add_number(b" ", page);
    line.end_with_number(b" ", rule);
}

/// A fault with the number of its rule.
fn add_fault(line: &mut TextLine, name: &Name, ring: RingName, page: u32, rule: Rule)
    requires { line.old ≡ [] }
    ensures { line.new ≡ finding_line Extent.FirstFault name.now (Finding.Fault ring page rule) }
{
    add_numbered(line, name, ring, page, rule.number());
}

/// A fault with the number of its rule and its name.
fn add_named_fault(line: &mut TextLine, name: &Name, ring: RingName, page: u32, rule: Rule)
    requires { line.old ≡ [] }
    ensures { line.new ≡ finding_line Extent.AllTables name.now (Finding.Fault ring page rule) }
{
    line.add(b"fault ");
    line.add(name.bytes());
    add_word(line, ring_word(ring));
    line.add_number(b" ", page);
    line.add_number(b" ", rule.number());
    add_word(line, rule_word(rule));
    line.add(b"\n");
}

fn add_fault_of(
    line: &mut TextLine,
    name: &Name,
    extent: Extent,
    ring: RingName,
    page: u32,
    rule: Rule,
)
    requires { line.old ≡ [] }
    ensures { line.new ≡ finding_line extent name.now (Finding.Fault ring page rule) }
{
    match extent {
        Extent::FirstFault => add_fault(line, name, ring, page, rule),
        Extent::AllTables => add_named_fault(line, name, ring, page, rule),
    }
}

fn add_finding(line: &mut TextLine, name: &Name, extent: Extent, finding: &Finding)
    requires { line.old ≡ [] }
    ensures { line.new ≡ finding_line extent name.now finding.now }
{
    match finding {
        Finding::Sound { rows, pages, voids } => add_sound(line, name, *rows, *pages, *voids),
        Finding::Fault { ring, page, rule } => {
            add_fault_of(line, name, extent, *ring, *page, *rule)
        }
    }
}

/// Appends the line of what was found of a table. Where the sink fails a front of it was written.
pub fn write_finding<K: Sink>(
    name: &Name,
    extent: Extent,
    finding: &Finding,
    out: &mut K,
) -> Result<(), SinkFailed>
    ensures text { Written (K.written out.old) (K.written out.new) result (finding_line extent name.now finding.now) }
    ensures cause { HasCause (K.faults out.old) (K.faults out.new) result }
{
    let mut line = TextLine::new();
    add_finding(&mut line, name, extent, finding);
    write_all(line.bytes(), out)
}

/// Appends the line of a rule that this page breaks first, if there is one.
fn write_fault<K: Sink>(
    name: &Name,
    ring: RingName,
    rule: Rule,
    page: Option<u32>,
    out: &mut K,
) -> Result<(), SinkFailed>
    ensures text { Written (K.written out.old) (K.written out.new) result (findings_text name.now (fault_of ring rule page)) }
    ensures cause { HasCause (K.faults out.old) (K.faults out.new) result }
{
    let Some(page) = page else {
        return Ok(());
    };
    let finding = Finding::Fault { ring, page, rule };
    write_finding(name, Extent::AllTables, &finding, out)
}

/// Appends a line for each rule of a ring that is broken.
fn write_ring<K: Sink>(
    name: &Name,
    ring: RingName,
    faults: &RingFaults,
    out: &mut K,
) -> Result<(), SinkFailed>
    ensures text { Written (K.written out.old) (K.written out.new) result (findings_text name.now (ring_faults ring faults.now)) }
    ensures cause { HasCause (K.faults out.old) (K.faults out.new) result }
{
    write_fault(name, ring, Rule::Head, faults.head, out)?;
    write_fault(name, ring, Rule::State, faults.state, out)?;
    write_fault(name, ring, Rule::Number, faults.number, out)?;
    write_fault(name, ring, Rule::Body, faults.body, out)?;
    write_fault(name, ring, Rule::Keys, faults.keys, out)?;
    write_fault(name, ring, Rule::Rest, faults.rest, out)
}

/// Appends a line for each rule of a table that is broken, in the order of the rules.
fn write_faults<K: Sink>(name: &Name, faults: &TableFaults, out: &mut K) -> Result<(), SinkFailed>
    ensures text { Written (K.written out.old) (K.written out.new) result (findings_text name.now (table_faults faults.now)) }
    ensures cause { HasCause (K.faults out.old) (K.faults out.new) result }
{
    write_ring(name, RingName::Index, &faults.index, out)?;
    write_ring(name, RingName::Data, &faults.rows, out)?;
    write_ring(name, RingName::Var, &faults.var, out)?;
    write_ring(name, RingName::Log, &faults.log, out)?;
    write_fault(name, RingName::Index, Rule::Entry, faults.entry, out)?;
    write_fault(name, RingName::Data, Rule::Blob, faults.blob, out)
}

/// Appends a line for each rule of a table that is broken, in the order of the rules, or that of a sound table. Where the sink
/// fails a front of them was written.
pub fn write_rules<K: Sink>(name: &Name, rules: &TableRules, out: &mut K) -> Result<(), SinkFailed>
    ensures text { Written (K.written out.old) (K.written out.new) result (rules_text name.now rules.now) }
    ensures cause { HasCause (K.faults out.old) (K.faults out.new) result }
{
    match rules {
        TableRules::Broken(faults) => write_faults(name, faults, out),
        TableRules::Kept { rows, pages, voids } => {
            let finding = Finding::Sound {
                rows: *rows,
                pages: *pages,
                voids: *voids,
            };
            write_finding(name, Extent::AllTables, &finding, out)
        }
    }
}
