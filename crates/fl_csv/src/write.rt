// The line of the names and the line of a record, written to a sink.
ghost use Rattle.std.specs.Prelude.{◌≡◌, ◌≤◌, ◌+◌, ◌++◌, ◌∷◌, Err, IfOk, codes, decimal, length};
ghost use Rattle.std.specs.String.{string_bytes};
ghost use Rattle.fl_base.specs.Causes.{HasCause, Rose};
ghost use Rattle.fl_base.specs.declared.stream.SinkFailed.{SinkFailed};
ghost use Rattle.fl_words.specs.Reply.{hex_text};
ghost use Rattle.fl_script.specs.Written.{Written};
ghost use Rattle.fl_csv.specs.Text.{blob_digits, blob_mark, entry_text, header_text};
ghost use Rattle.fl_csv.specs.Views.{blob_view};

use crate::{CsvBlob, CsvFault};
use fl_base::{NoMemory, Sink, SinkFailed};
use fl_script::{LINE_BYTES, TextLine, write_all};
use std::alloc::Global;

/// Behind so many bytes a line still has room for one more value with its comma, 21 bytes, what is told of a blob and a newline.
const FULL: usize = LINE_BYTES - 32;

/// Writes the name of a column behind a comma.
fn column_name<K: Sink>(column: usize, out: &mut K) -> Result<(), SinkFailed>
    ensures text { Written (K.written out.old) (K.written out.new) result (44 ∷ codes "c" ++ decimal column) }
    ensures cause { HasCause (K.faults out.old) (K.faults out.new) result }
{
    let mut name = TextLine::new();
    name.add_number(b",c", column);
    write_all(name.bytes(), out)
}

/// Writes the line of the names: `key`, `c1` and so on for each column, and `blob` where there are blobs. Where the sink
/// fails a front of it was written.
pub fn header_line<K: Sink>(columns: usize, blobs: bool, out: &mut K) -> Result<(), SinkFailed>
    ensures text { Written (K.written out.old) (K.written out.new) result (header_text columns blobs) }
    ensures cause { HasCause (K.faults out.old) (K.faults out.new) result }
{
    write_all(b"key", out)?;
    'names: for i in 0..columns {
        column_name(i + 1, out)?;
    }
    let last: &[u8] = if blobs { b",blob\n" } else { b"\n" };
    write_all(last, out)
}

/// Adds what stands between the last value and the digits of the blob, if it has any.
fn add_mark(line: &mut TextLine, blob: CsvBlob<'_>)
    requires { length line.old ≤ FULL + 21 }
    ensures text { line.new ≡ line.old ++ blob_mark (blob_view blob.entry) }
    ensures short { length line.new ≤ length line.old + 5 }
{
    match blob {
        CsvBlob::Absent => {}
        CsvBlob::Nothing => line.add(b","),
        CsvBlob::Bytes(bytes) if !bytes.is_empty() => line.add(b","),
        CsvBlob::Bytes(_) | CsvBlob::Empty => line.add(b",-"),
        CsvBlob::Gone => line.add(b",gone"),
    }
}

/// Two digits for each byte.
fn encoded(alloc: Global, bytes: &[u8]) -> Result<String, NoMemory>
    ensures { IfOk result (λ digits. string_bytes digits ≡ hex_text bytes.now) }
{
    Ok(hex::encode(alloc, bytes)?)
}

/// The digits of a blob's bytes; none where it has none.
fn digits(alloc: Global, blob: CsvBlob<'_>) -> Result<String, NoMemory>
    ensures { IfOk result (λ digits. string_bytes digits ≡ blob_digits (blob_view blob.entry)) }
{
    match blob {
        CsvBlob::Bytes(bytes) => encoded(alloc, bytes),
        _ => Ok(String::new(alloc)),
    }
}

/// Writes the line of a record, as a whole where it is short. No field needs quotes.
fn write_line<K: Sink>(
    key: u64,
    values: &[i64],
    blob: CsvBlob<'_>,
    digits: &[u8],
    out: &mut K,
) -> Result<(), SinkFailed>
    requires { digits.now ≡ blob_digits (blob_view blob) }
    ensures text { Written (K.written out.old) (K.written out.new) result (entry_text (record { key = key; values = values.now; blob = blob_view blob.entry })) }
    ensures cause { HasCause (K.faults out.old) (K.faults out.new) result }
{
    let mut line = TextLine::new();
    line.add_number(b"", key);
    for value in values {
        if line.bytes().len() > FULL {
            write_all(line.bytes(), out)?;
            line = TextLine::new();
        }
        line.add_number(b",", *value);
    }
    add_mark(&mut line, blob);
    if digits.is_empty() {
        line.add(b"\n");
        return write_all(line.bytes(), out);
    }
    write_all(line.bytes(), out)?;
    write_all(digits, out)?;
    write_all(b"\n", out)
}

/// Writes the line of a record: the key, the values, and what is told of the blob. Where the sink fails a front of it was
/// written, and where memory runs out nothing.
pub fn write_record<K: Sink>(
    alloc: Global,
    key: u64,
    values: &[i64],
    blob: CsvBlob<'_>,
    out: &mut K,
) -> Result<(), CsvFault>
    ensures text { Written (K.written out.old) (K.written out.new) result (entry_text (record { key = key; values = values.now; blob = blob_view blob.entry })) }
    ensures untouched { result ≡ Err CsvFault.NoMemory → out.new ≡ out.old }
    ensures later { K.faults out.old ≤ K.faults out.new }
    ensures cause { (failed : SinkFailed) → result ≡ Err (CsvFault.Sink failed) → Rose (K.faults out.old) (K.faults out.new) }
{
    let Ok(digits) = digits(alloc, blob) else {
        return Err(CsvFault::NoMemory);
    };
    match write_line(key, values, blob, digits.as_bytes(), out) {
        Ok(()) => Ok(()),
        Err(failed) => Err(CsvFault::Sink(failed)),
    }
}
