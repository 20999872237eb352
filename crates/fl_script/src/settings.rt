// Lines that set the store up, and what the lines of several commands share.
ghost use Rattle.std.specs.Prelude.{◌≡◌, ◌≤◌, ℕ, List, map, [], length, true, Some, None, Ok, Err, IsOk, MatchResult};
ghost use Rattle.std.specs.List.{All};
ghost use Rattle.fl_words.specs.Grammar as grammar;
ghost use Rattle.fl_script.specs.Lines.{line_view, leaves, word_of, HasRings, HasNoRings, HasLookup, HasNoLookup};
ghost use Rattle.fl_script.specs.CommandView.{command_view, fault_view};
ghost use Rattle.fl_words.specs.Command as command;

use crate::word::{cut_kind, is, name, number, number_in, signed};
use crate::{Command, LineFault, LineRoom};
use fl_base::{CutKind, Name};

/// `device` PAGE BLOCK
pub(crate) fn device_line(words: &[&[u8]]) -> Result<Command, LineFault>
    ensures { line_view result [] ≡ grammar.device_line (map (λ word. word.now) words.now) }
{
    let [page, block] = words else {
        return Err(LineFault::Form);
    };
    Ok(Command::Device {
        page: number(page)?,
        block: number(block)?,
    })
}

/// Whether index entries are full: where the word `index2` stands first.
fn has_full_index(words: &[&[u8]]) -> bool
    ensures { result ≡ grammar.full_index_in (map (λ word. word.now) words.now) }
{
    match words {
        [] => false,
        [word, ..] => is(word, b"index2"),
    }
}

/// The word behind `rlc`, where these are the words.
fn log_word<'a>(words: &[&'a [u8]]) -> Result<Option<&'a [u8]>, LineFault>
    ensures { MatchResult result
        (λ log. grammar.log_word (map (λ word. word.now) words.now) ≡ Some (word_of log))
        (λ e. (grammar.log_word (map (λ word. word.now) words.now) ≡ None) × (e ≡ LineFault.Form)) }
{
    match words {
        [] => Ok(None),
        [word, log] if is(word, b"rlc") => Ok(Some(log)),
        _ => Err(LineFault::Form),
    }
}

/// The same, where `index2` may stand before them.
fn log_word_in<'a>(words: &[&'a [u8]]) -> Result<Option<&'a [u8]>, LineFault>
    ensures { MatchResult result
        (λ log. grammar.log_word_in (map (λ word. word.now) words.now) ≡ Some (word_of log))
        (λ e. (grammar.log_word_in (map (λ word. word.now) words.now) ≡ None) × (e ≡ LineFault.Form)) }
{
    match words {
        [word, others @ ..] if is(word, b"index2") => log_word(others),
        _ => log_word(words),
    }
}

/// The number of a word that may be missing.
fn maybe_number(word: Option<&[u8]>) -> Result<Option<u64>, LineFault>
    ensures { MatchResult result
        (λ n. grammar.maybe_number (word_of word.entry) ≡ Ok n)
        (λ e. (grammar.maybe_number (word_of word.entry) ≡ Err grammar.Number) × (e ≡ LineFault.Number)) }
{
    match word {
        None => Ok(None),
        Some(word) => Ok(Some(number(word)?)),
    }
}

/// The numbers of a table line up to those of its rings.
#[derive(Clone, Copy)]
struct RingNumbers {
    key: u64,
    rows: u64,
    index: u64,
    var: u64,
}

fn ring_numbers(key: &[u8], rows: &[u8], index: &[u8], var: &[u8]) -> Result<RingNumbers, LineFault>
    ensures { MatchResult result (λ n. HasRings key.now rows.now index.now var.now n) (λ e. HasNoRings key.now rows.now index.now var.now (fault_view e)) }
{
    Ok(RingNumbers {
        key: number(key)?,
        rows: number(rows)?,
        index: number(index)?,
        var: number(var)?,
    })
}

/// The numbers behind those, but for the log's.
#[derive(Clone, Copy)]
struct LookupNumbers {
    bits: u64,
    base: i64,
    width: u64,
    error: u64,
    blob: u64,
}

fn lookup_numbers(
    bits: &[u8],
    base: &[u8],
    width: &[u8],
    error: &[u8],
    blob: &[u8],
) -> Result<LookupNumbers, LineFault>
    ensures { MatchResult result (λ n. HasLookup bits.now base.now width.now error.now blob.now n) (λ e. HasNoLookup bits.now base.now width.now error.now blob.now (fault_view e)) }
{
    Ok(LookupNumbers {
        bits: number(bits)?,
        base: signed(base)?,
        width: number(width)?,
        error: number(error)?,
        blob: number(blob)?,
    })
}

/// `table` NAME KEY COLUMNS DATA INDEX VAR BITS BASE WIDTH ERROR BLOB, and optionally `index2` and then `rlc` LOG
pub(crate) fn table_line(words: &[&[u8]], room: &mut LineRoom) -> Result<Command, LineFault>
    requires { All (λ word. length word.now ≤ 4096) words.now }
    ensures command { line_view result room.new ≡ grammar.table_line (map (λ word. word.now) words.now) }
    ensures room { IsOk result → leaves result ≡ true }
{
    let [
        table,
        key,
        columns,
        rows,
        index,
        var,
        bits,
        base,
        width,
        error,
        blob,
        others @ ..,
    ] = words
    else {
        return Err(LineFault::Form);
    };
    let name = name(table)?;
    let log = log_word_in(others)?;
    room.copy(columns);
    let rings = ring_numbers(key, rows, index, var)?;
    let lookup = lookup_numbers(bits, base, width, error, blob)?;
    Ok(Command::Table {
        name,
        key: rings.key,
        rows: rings.rows,
        index: rings.index,
        var: rings.var,
        bits: lookup.bits,
        base: lookup.base,
        width: lookup.width,
        error: lookup.error,
        blob: lookup.blob,
        full: has_full_index(others),
        log: maybe_number(log)?,
    })
}

/// `cut` N and `before`, `after`, `half` or `noise` SEED
pub(crate) fn cut_line(words: &[&[u8]]) -> Result<Command, LineFault>
    ensures { line_view result [] ≡ grammar.cut_line (map (λ word. word.now) words.now) }
{
    match words {
        [n, kind] => {
            let kind = cut_kind(kind)?;
            let n = number_in(1, u64::MAX, n)?;
            Ok(Command::Cut { n, kind })
        }
        [n, kind, seed] if is(kind, b"noise") => {
            let n = number_in(1, u64::MAX, n)?;
            let kind = CutKind::Noise(number(seed)?);
            Ok(Command::Cut { n, kind })
        }
        _ => Err(LineFault::Form),
    }
}

/// A line of its first word alone.
pub(crate) fn bare_line(made: Command, words: &[&[u8]]) -> Result<Command, LineFault>
    ensures { line_view result [] ≡ grammar.bare_line (command_view made []) (map (λ word. word.now) words.now) }
{
    if words.is_empty() {
        Ok(made)
    } else {
        Err(LineFault::Form)
    }
}

/// NAME alone
pub(crate) fn only_name(words: &[&[u8]]) -> Result<Name, LineFault>
    ensures { MatchResult result
        (λ name. (make : List ℕ → command.Command) → grammar.name_line make (map (λ word. word.now) words.now) ≡ Ok (make name))
        (λ e. (make : List ℕ → command.Command) → (grammar.name_line make (map (λ word. word.now) words.now) ≡ Err (fault_view e))) }
{
    let [table] = words else {
        return Err(LineFault::Form);
    };
    name(table)
}

/// NAME KEY
pub(crate) fn name_and_key(words: &[&[u8]]) -> Result<(Name, u64), LineFault>
    ensures { MatchResult result
        (λ found. (make : List ℕ → ℕ → command.Command) → grammar.key_line make (map (λ word. word.now) words.now) ≡ Ok (make found.0 found.1))
        (λ e. (make : List ℕ → ℕ → command.Command) → (grammar.key_line make (map (λ word. word.now) words.now) ≡ Err (fault_view e))) }
{
    let [table, key] = words else {
        return Err(LineFault::Form);
    };
    let name = name(table)?;
    Ok((name, number(key)?))
}
