// The answer to a line that is no command.
ghost use Rattle.std.specs.Prelude.{IfOk};
ghost use Rattle.fl_base.specs.Causes.{HasCause};
ghost use Rattle.fl_lines.specs.Stream.{IsOneLine};
ghost use Rattle.fl_shell.specs.Refusal.{IsRefusal, Refuses};

use fl_base::{NoMemory, Sink, SinkFailed};
use fl_script::write_all;
use memchr::memchr;
use std::alloc::Global;
use std::fmt::Display;

/// The bytes before the first newline.
fn up_to_newline(bytes: &[u8]) -> &[u8]
    ensures { IsOneLine result.now }
{
    match memchr(b'\n', bytes) {
        Some(len) => &bytes[..len],
        None => bytes,
    }
}

/// The line with which a reason is answered.
fn line_of(alloc: Global, reason: &[u8]) -> Result<Vec<u8>, NoMemory>
    ensures { IfOk result (λ line. IsRefusal line.items) }
{
    let mut line = Vec::new(alloc);
    line.extend_from_slice(b"? ")?;
    line.extend_from_slice(up_to_newline(reason))?;
    line.extend_from_slice(b"\n")?;
    Ok(line)
}

/// Writes such a line, or one without a reason where there is no memory for it.
fn write_line<K: Sink>(line: Result<Vec<u8>, NoMemory>, out: &mut K) -> Result<(), SinkFailed>
    requires { IfOk line (λ line. IsRefusal line.items) }
    ensures text { Refuses (K.written out.old) (K.written out.new) result }
    ensures cause { HasCause (K.faults out.old) (K.faults out.new) result }
{
    match line {
        Ok(line) => write_all(&line, out),
        Err(_) => write_all(b"? \n", out),
    }
}

/// Answers `? ` and why a line is refused, in a line.
pub(crate) fn refuse<D: Display, K: Sink>(
    alloc: Global,
    reason: &D,
    out: &mut K,
) -> Result<(), SinkFailed>
    ensures text { Refuses (K.written out.old) (K.written out.new) result }
    ensures cause { HasCause (K.faults out.old) (K.faults out.new) result }
{
    match format!(in alloc; "{reason}") {
        Ok(text) => write_line(line_of(alloc, text.as_bytes()), out),
        Err(_) => write_line(Err(NoMemory), out),
    }
}
