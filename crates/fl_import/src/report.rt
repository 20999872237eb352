// The lines that an import writes.
ghost use Rattle.std.specs.Prelude.{◌≡◌, ◌≤◌, ◌+◌, ◌++◌, [], ◌∷◌, length, Err};
ghost use Rattle.fl_base.specs.Causes.{HasCause};
ghost use Rattle.fl_script.specs.Written.{Written};
ghost use Rattle.fl_store.specs.Replies.{put_reply};
ghost use Rattle.fl_words.specs.Reply.{text};
ghost use Rattle.fl_import.specs.Counting.{count_text};
ghost use Rattle.fl_import.specs.Report.{number_text, reason, reason_line};

use crate::job_end::LinesTaken;
use fl_base::{Sink, SinkFailed};
use fl_csv::{CsvRefusal, GoneBlobs};
use fl_script::{TextLine, write_all, write_reply};
use fl_store::put_reply;
use fl_table::PutRefusal;

/// The number of the line that is told of.
fn add_line_number(line: &mut TextLine, number: u64)
    requires { line.old ≡ [] }
    ensures text { line.new ≡ number_text number }
    ensures short { length line.new ≤ 32 }
{
    line.add_number(b"line ", number);
    line.add(b" ");
}

/// Why a line is no record. Want of memory is no reason, and is never told.
fn end_with_reason(line: &mut TextLine, refusal: CsvRefusal)
    requires { length line.old ≤ 32 }
    ensures { line.new ≡ line.old ++ (reason refusal ++ 10 ∷ []) }
{
    match refusal {
        CsvRefusal::Csv => line.add(b"csv\n"),
        CsvRefusal::Fields { wanted } => line.end_with_number(b"fields ", wanted),
        CsvRefusal::Number { field } => line.end_with_number(b"number ", field),
        CsvRefusal::NoMemory => line.add(b"\n"),
    }
}

/// Tells of the line of this number why it is no record.
pub(crate) fn tell_reason<K: Sink>(
    number: u64,
    refusal: CsvRefusal,
    out: &mut K,
) -> Result<(), SinkFailed>
    ensures text { Written (K.written out.old) (K.written out.new) result (reason_line number refusal) }
    ensures cause { HasCause (K.faults out.old) (K.faults out.new) result }
{
    let mut line = TextLine::new();
    add_line_number(&mut line, number);
    end_with_reason(&mut line, refusal);
    write_all(line.bytes(), out)
}

/// Tells of the line of this number why its record was refused.
pub(crate) fn tell_refusal<K: Sink>(
    number: u64,
    refusal: PutRefusal,
    out: &mut K,
) -> Result<(), SinkFailed>
    ensures text { Written (K.written out.old) (K.written out.new) result (number_text number ++ text (put_reply (Err refusal))) }
    ensures cause { HasCause (K.faults out.old) (K.faults out.new) result }
{
    let mut line = TextLine::new();
    add_line_number(&mut line, number);
    write_all(line.bytes(), out)?;
    write_reply(&put_reply(Err(refusal)), out)
}

/// How many were put and how many refused; and where blobs that are gone are left out, how many were put without theirs.
fn add_counts(line: &mut TextLine, gone: GoneBlobs, taken: LinesTaken)
    requires { line.old ≡ [] }
    ensures { line.new ≡ count_text gone taken }
{
    let refused = taken.line.saturating_sub(1).saturating_sub(taken.rows);
    line.add_number(b"imported ", taken.rows);
    match gone {
        GoneBlobs::Refused => line.end_with_number(b" refused ", refused),
        GoneBlobs::LeftOut => {
            line.add_number(b" refused ", refused);
            line.end_with_number(b" gone ", taken.gone);
        }
    }
}

/// Tells how many lines were put, and how many refused.
pub(crate) fn tell_counts<K: Sink>(
    gone: GoneBlobs,
    taken: LinesTaken,
    out: &mut K,
) -> Result<(), SinkFailed>
    ensures text { Written (K.written out.old) (K.written out.new) result (count_text gone taken) }
    ensures cause { HasCause (K.faults out.old) (K.faults out.new) result }
{
    let mut line = TextLine::new();
    add_counts(&mut line, gone, taken);
    write_all(line.bytes(), out)
}
