// The command that a line is.
ghost use Rattle.std.specs.Prelude.{◌≡◌, ◌≤◌, length, map, [], false, IsOk};
ghost use Rattle.std.specs.List.{All};
ghost use Rattle.fl_words.specs.Grammar as grammar;
ghost use Rattle.fl_script.specs.Lines.{line_view, leaves, operator_line as operator_of, reading_line as reading_of};

use crate::put::put_line;
use crate::queries::{
    agg_line, close_line, join_line, load_line, next_line, open_line, project_line, scan_line,
    select_line,
};
use crate::settings::{bare_line, cut_line, device_line, name_and_key, only_name, table_line};
use crate::word::is;
use crate::words::{MOST_WORDS, without_return, words_in};
use crate::{Command, LineFault, LineRoom};

/// The most bytes of a line before its newline.
pub(crate) const LINE_BYTES: usize = 4096;

/// Reads one line, given without its newline. The blob of a put and the column types of a table line are left in
/// the room; any other line, and one with a fault, leaves nothing there.
pub fn read_line(bytes: &[u8], into: &mut LineRoom) -> Result<Command, LineFault>
    ensures command { line_view result into.new ≡ grammar.command_of bytes.now }
    ensures room { leaves result ≡ false → into.new ≡ [] }
{
    into.clear();
    if bytes.len() > LINE_BYTES {
        return Err(LineFault::TooLong);
    }
    let mut words: [&[u8]; MOST_WORDS] = [b""; MOST_WORDS];
    let count = words_in(without_return(bytes), &mut words);
    let Some((first, others)) = words[..count].split_first() else {
        return Ok(Command::Nothing);
    };
    if first.starts_with(b"#") {
        return Ok(Command::Nothing);
    }
    let result = command(first, others, into);
    if result.is_err() {
        into.clear();
    }
    result
}

/// The command of a line by its first word and the others.
fn command(first: &[u8], words: &[&[u8]], room: &mut LineRoom) -> Result<Command, LineFault>
    requires short { All (λ word. length word.now ≤ 4096) words.now }
    requires empty { room.old ≡ [] }
    ensures command { line_view result room.new ≡ grammar.line_of first.now (map (λ word. word.now) words.now) }
    ensures room { IsOk result → leaves result ≡ false → room.new ≡ [] }
{
    if is(first, b"device") {
        return device_line(words);
    }
    if is(first, b"table") {
        return table_line(words, room);
    }
    if is(first, b"mount") {
        return bare_line(Command::Mount, words);
    }
    if is(first, b"off") {
        return bare_line(Command::Off, words);
    }
    if is(first, b"cut") {
        return cut_line(words);
    }
    if is(first, b"put") {
        return put_line(words, room);
    }
    if is(first, b"flush") {
        let name = only_name(words)?;
        return Ok(Command::Flush { name });
    }
    reading_command(first, words)
}

/// The command of a line that reads records, or of another.
fn reading_command(first: &[u8], words: &[&[u8]]) -> Result<Command, LineFault>
    ensures { line_view result [] ≡ reading_of first.now (map (λ word. word.now) words.now) }
{
    if is(first, b"get") {
        let (name, key) = name_and_key(words)?;
        return Ok(Command::Get { name, key });
    }
    if is(first, b"blob") {
        let (name, key) = name_and_key(words)?;
        return Ok(Command::Blob { name, key });
    }
    if is(first, b"scan") {
        return scan_line(words);
    }
    if is(first, b"open") {
        return open_line(words);
    }
    if is(first, b"next") {
        return next_line(words);
    }
    if is(first, b"close") {
        return close_line(words);
    }
    operator_command(first, words)
}

/// The command of an operator's line, of the counts or of load; or an unknown one.
fn operator_command(first: &[u8], words: &[&[u8]]) -> Result<Command, LineFault>
    ensures { line_view result [] ≡ operator_of first.now (map (λ word. word.now) words.now) }
{
    if is(first, b"select") {
        select_line(words)
    } else if is(first, b"project") {
        project_line(words)
    } else if is(first, b"agg") {
        agg_line(words)
    } else if is(first, b"join") {
        join_line(words)
    } else if is(first, b"stat") {
        Ok(Command::Stat {
            name: only_name(words)?,
        })
    } else if is(first, b"cost") {
        bare_line(Command::Cost, words)
    } else if is(first, b"load") {
        load_line(words)
    } else {
        Err(LineFault::Unknown)
    }
}
