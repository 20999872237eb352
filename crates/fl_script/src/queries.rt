// Lines that read a table.
ghost use Rattle.std.specs.Prelude.{◌≡◌, map, [], MatchResult};
ghost use Rattle.fl_words.specs.Grammar as grammar;
ghost use Rattle.fl_script.specs.Lines.{line_view, IsBadRange, IsBadSpan, HasRange, HasNoRange};
ghost use Rattle.fl_script.specs.CommandView.{fault_view};

use crate::word::{columns, cursor, name, number, number_in, op, signed};
use crate::{Command, LineFault};
use fl_base::{KeyRange, Name, Span};

fn key_range(low: &[u8], high: &[u8]) -> Result<KeyRange, LineFault>
    ensures { MatchResult result (λ range. (grammar.number low.now ≡ Ok range.low) × (grammar.number high.now ≡ Ok range.high)) (λ e. IsBadRange low.now high.now × (e ≡ LineFault.Number)) }
{
    Ok(KeyRange {
        low: number(low)?,
        high: number(high)?,
    })
}

fn span(low: &[u8], high: &[u8]) -> Result<Span, LineFault>
    ensures { MatchResult result (λ span. (grammar.signed low.now ≡ Ok span.low) × (grammar.signed high.now ≡ Ok span.high)) (λ e. IsBadSpan low.now high.now × (e ≡ LineFault.Number)) }
{
    Ok(Span {
        low: signed(low)?,
        high: signed(high)?,
    })
}

/// LOW HIGH, and optionally VLOW VHIGH
fn with_range(words: &[&[u8]]) -> Result<(KeyRange, Option<Span>), LineFault>
    ensures { MatchResult result (λ found. HasRange (map (λ word. word.now) words.now) found.0 found.1) (λ e. HasNoRange (map (λ word. word.now) words.now) (fault_view e)) }
{
    match words {
        [low, high] => Ok((key_range(low, high)?, None)),
        [low, high, least, greatest] => {
            let range = key_range(low, high)?;
            Ok((range, Some(span(least, greatest)?)))
        }
        _ => Err(LineFault::Form),
    }
}

/// `scan` NAME LOW HIGH, and optionally VLOW VHIGH
pub(crate) fn scan_line(words: &[&[u8]]) -> Result<Command, LineFault>
    ensures { line_view result [] ≡ grammar.scan_line (map (λ word. word.now) words.now) }
{
    let [table, rest @ ..] = words else {
        return Err(LineFault::Form);
    };
    let name = name(table)?;
    let (range, span) = with_range(rest)?;
    Ok(Command::Scan { name, range, span })
}

/// `open` CURSOR NAME LOW HIGH, and optionally VLOW VHIGH
pub(crate) fn open_line(words: &[&[u8]]) -> Result<Command, LineFault>
    ensures { line_view result [] ≡ grammar.open_line (map (λ word. word.now) words.now) }
{
    let [place, table, rest @ ..] = words else {
        return Err(LineFault::Form);
    };
    let cursor = cursor(place)?;
    let name = name(table)?;
    let (range, span) = with_range(rest)?;
    Ok(Command::Open {
        cursor,
        name,
        range,
        span,
    })
}

/// `next` CURSOR N
pub(crate) fn next_line(words: &[&[u8]]) -> Result<Command, LineFault>
    ensures { line_view result [] ≡ grammar.next_line (map (λ word. word.now) words.now) }
{
    let [place, count] = words else {
        return Err(LineFault::Form);
    };
    let cursor = cursor(place)?;
    let count = number_in(1, 1_000_000, count)?;
    Ok(Command::Next { cursor, count })
}

/// `close` CURSOR
pub(crate) fn close_line(words: &[&[u8]]) -> Result<Command, LineFault>
    ensures { line_view result [] ≡ grammar.close_line (map (λ word. word.now) words.now) }
{
    let [place] = words else {
        return Err(LineFault::Form);
    };
    let cursor = cursor(place)?;
    Ok(Command::Close { cursor })
}

/// `select` NAME LOW HIGH COLUMN OP VALUE
pub(crate) fn select_line(words: &[&[u8]]) -> Result<Command, LineFault>
    ensures { line_view result [] ≡ grammar.select_line (map (λ word. word.now) words.now) }
{
    let [table, low, high, column, comparison, value] = words else {
        return Err(LineFault::Form);
    };
    let name = name(table)?;
    let op = op(comparison)?;
    Ok(Command::Select {
        name,
        range: key_range(low, high)?,
        column: number(column)?,
        op,
        value: signed(value)?,
    })
}

/// `project` NAME LOW HIGH LIST
pub(crate) fn project_line(words: &[&[u8]]) -> Result<Command, LineFault>
    ensures { line_view result [] ≡ grammar.project_line (map (λ word. word.now) words.now) }
{
    let [table, low, high, list] = words else {
        return Err(LineFault::Form);
    };
    let name = name(table)?;
    let columns = columns(list)?;
    let range = key_range(low, high)?;
    Ok(Command::Project {
        name,
        range,
        columns,
    })
}

/// `agg` NAME LOW HIGH COLUMN W
pub(crate) fn agg_line(words: &[&[u8]]) -> Result<Command, LineFault>
    ensures { line_view result [] ≡ grammar.agg_line (map (λ word. word.now) words.now) }
{
    let [table, low, high, column, width] = words else {
        return Err(LineFault::Form);
    };
    let name = name(table)?;
    Ok(Command::Agg {
        name,
        range: key_range(low, high)?,
        column: number(column)?,
        width: number_in(1, u64::MAX, width)?,
    })
}

/// `join` NAME NAME LOW HIGH
pub(crate) fn join_line(words: &[&[u8]]) -> Result<Command, LineFault>
    ensures { line_view result [] ≡ grammar.join_line (map (λ word. word.now) words.now) }
{
    let [left, right, low, high] = words else {
        return Err(LineFault::Form);
    };
    let left = name(left)?;
    let right = name(right)?;
    let range = key_range(low, high)?;
    Ok(Command::Join { left, right, range })
}

/// `load` NAME COUNT STEP SEED
pub(crate) fn load_line(words: &[&[u8]]) -> Result<Command, LineFault>
    ensures { line_view result [] ≡ grammar.load_line (map (λ word. word.now) words.now) }
{
    let [table, count, step, seed] = words else {
        return Err(LineFault::Form);
    };
    let name = name(table)?;
    Ok(Command::Load {
        name,
        count: number_in(1, 1_000_000, count)?,
        step: number_in(1, 1_000_000, step)?,
        seed: number(seed)?,
    })
}
