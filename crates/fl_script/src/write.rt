// Replies, written to a sink.
ghost use Rattle.std.specs.Prelude.{◌≤◌, length};
ghost use Rattle.fl_base.specs.Causes.{HasCause};
ghost use Rattle.fl_words.specs.Reply as reply;
ghost use Rattle.fl_words.specs.Reply.{hex_text};
ghost use Rattle.fl_script.specs.ReplyView.{note_view, reply_text};
ghost use Rattle.fl_script.specs.Written.{Written};

use crate::reply_line::add_reply;
use crate::{BlobNote, Reply, RowLine, TextLine};
use fl_base::{Sink, SinkFailed};

/// How many bytes of a blob become digits at a time.
const PIECE: usize = 256;

const DIGITS: usize = 2 * PIECE;

/// Appends the reply's line, or its part of a bytes line. Where the sink fails a front of it was written.
pub fn write_reply<K: Sink>(reply: &Reply, out: &mut K) -> Result<(), SinkFailed>
    ensures text { Written (K.written out.old) (K.written out.new) result (reply_text reply.now) }
    ensures cause { HasCause (K.faults out.old) (K.faults out.new) result }
{
    if let Reply::Row { key, values, blob } = reply {
        return write_row(*key, values.as_slice(), *blob, out);
    }
    let mut line = TextLine::new();
    add_reply(&mut line, reply);
    write_all(line.bytes(), out)
}

/// Appends the line of a row.
fn write_row<K: Sink>(
    key: u64,
    values: &[i64],
    note: BlobNote,
    out: &mut K,
) -> Result<(), SinkFailed>
    requires { length values.now ≤ 8 }
    ensures text { Written (K.written out.old) (K.written out.new) result (reply.text (reply.Row key values.now (note_view note))) }
    ensures cause { HasCause (K.faults out.old) (K.faults out.new) result }
{
    let mut line = RowLine::new();
    line.show(key, values, note);
    write_all(line.bytes(), out)
}

/// Appends two lower-case hexadecimal digits for each byte. Where the sink fails a front of them was written.
pub fn write_digits<K: Sink>(bytes: &[u8], out: &mut K) -> Result<(), SinkFailed>
    ensures text { Written (K.written out.old) (K.written out.new) result (hex_text bytes.now) }
    ensures cause { HasCause (K.faults out.old) (K.faults out.new) result }
{
    let mut left = bytes;
    while !left.is_empty() {
        let count = left.len().min(PIECE);
        write_piece(&left[..count], out)?;
        left = &left[count..];
    }
    Ok(())
}

/// The digits of a piece, in one write where the sink takes them.
fn write_piece<K: Sink>(piece: &[u8], out: &mut K) -> Result<(), SinkFailed>
    requires { length piece.now ≤ PIECE }
    ensures text { Written (K.written out.old) (K.written out.new) result (hex_text piece.now) }
    ensures cause { HasCause (K.faults out.old) (K.faults out.new) result }
{
    let mut room = [0; DIGITS];
    let digits = &mut room[..2 * piece.len()];
    hex::encode_to_slice(piece, digits).unwrap();
    write_all(digits, out)
}

/// Appends all the bytes. Where the sink fails a front of them was written.
#[inline(always)]
pub fn write_all<K: Sink>(bytes: &[u8], out: &mut K) -> Result<(), SinkFailed>
    ensures text { Written (K.written out.old) (K.written out.new) result bytes.now }
    ensures cause { HasCause (K.faults out.old) (K.faults out.new) result }
{
    let mut left = bytes;
    while !left.is_empty() {
        let taken = out.write(left)?;
        left = &left[taken..];
    }
    Ok(())
}
