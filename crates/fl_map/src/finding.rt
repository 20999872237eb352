// What a map says of a ring's name, and of what a check finds.
ghost use Rattle.std.specs.Prelude.{◌≡◌, ◌≤◌, ◌+◌, ◌++◌, [], length};
ghost use Rattle.fl_map.specs.Finding.{ring_word, title_text, fault_text, fault_page};

use fl_base::Name;
use fl_check::{Finding, RingName, Rule};
use fl_script::TextLine;

fn ring_word(ring: RingName) -> &'static [u8]
    ensures text { result.now ≡ ring_word ring }
    ensures short { length result.now ≤ 6 }
{
    match ring {
        RingName::Index => b" index",
        RingName::Data => b" data",
        RingName::Var => b" var",
        RingName::Log => b" log",
    }
}

/// The names of a table and of one of its rings.
pub(crate) fn add_title(line: &mut TextLine, name: &Name, ring: RingName)
    requires { length line.old ≤ 8 }
    ensures text { line.new ≡ line.old ++ title_text name.now ring }
    ensures short { length line.new ≤ length line.old + 14 }
{
    line.add(name.bytes());
    line.add(ring_word(ring));
}

/// What is told of a page that breaks a rule.
pub(crate) fn add_fault(line: &mut TextLine, name: &Name, ring: RingName, page: u32, rule: Rule)
    requires { line.old ≡ [] }
    ensures text { line.new ≡ fault_text name.now ring page rule }
    ensures short { length line.new ≤ 128 }
{
    line.add(b"fault: ");
    add_title(line, name, ring);
    line.add_number(b" page ", page);
    line.add_number(b" rule ", rule.number());
}

/// The page that a check finds to break a rule.
pub(crate) fn fault_page(finding: &Finding) -> Option<u32>
    ensures { result ≡ fault_page finding.now }
{
    match finding {
        Finding::Sound { .. } => None,
        Finding::Fault { page, .. } => Some(*page),
    }
}
