// The line of a blob's bytes, whose digits are written as its pages are read.
ghost use Rattle.std.specs.Prelude.{◌≡◌, ◌+◌, ◌≤◌, true, IfErr};
ghost use Rattle.fl_base.specs.Causes.{HasCause, Rose};
ghost use Rattle.fl_frame.specs.Contents.{OnlyReads};
ghost use Rattle.fl_script.specs.ReplyView.{reply_text};
ghost use Rattle.fl_queries.specs.BlobLine.{GivesDigits, IsTurned, ShowsBytes, read_reply};
ghost use Rattle.fl_queries.specs.BlobSays.{BlobSays, GivesSome, IsLeft, MayBeBadAhead, TellsLeft};
ghost use Rattle.fl_queries.specs.Listed.{IfSink, IfUnread};
ghost use Rattle.fl_var.specs.Memory.{LiesOn};
ghost use Rattle.fl_var.specs.Reading.{data_of, buffer_of, pages_left, bytes_left, Reads, IsWholeIn};
ghost use Rattle.fl_words.specs.Reply.{text};

use crate::listing::ListFault;
use fl_base::{Sink, SinkFailed};
use fl_flash::Flash;
use fl_page::ReadFault;
use fl_script::{Reply, write_digits, write_reply};
use fl_var::BlobReader;

/// Writes the digits of the bytes that a reader has left, chunk by chunk.
fn give_digits<F: Flash, K: Sink>(
    reader: &mut BlobReader<'_, '_>,
    flash: &mut F,
    out: &mut K,
) -> Result<(), ListFault>
    requires lies { LiesOn (data_of reader.old) (F.state flash.old) }
    ensures counts { OnlyReads (F.state flash.old) (F.state flash.new) }
    ensures lies { LiesOn (data_of reader.new) (F.state flash.new) }
    ensures data { data_of reader.new ≡ data_of reader.old }
    ensures buffer { buffer_of reader.new ≡ buffer_of reader.old }
    ensures later { K.faults out.old ≤ K.faults out.new }
    ensures sink { IfErr result (λ fault. IfSink fault (Rose (K.faults out.old) (K.faults out.new))) }
    ensures unread { IfErr result (IfUnread (F.state flash.old) (F.state flash.new)) }
    ensures digits { GivesSome (IsLeft reader.old (F.state flash.old)) (MayBeBadAhead reader.old (F.state flash.old)) (K.written out.old) (K.written out.new) result }
    ensures reads { Reads reader.old (F.state flash.old) → IsWholeIn reader.old (F.state flash.old) → (F.state flash.new).work.reads ≤ (F.state flash.old).work.reads + pages_left reader.old }
    ensures gives { Reads reader.old (F.state flash.old) → IsWholeIn reader.old (F.state flash.old) → IsTurned reader.old (F.state flash.old) → GivesDigits (bytes_left reader.old (F.state flash.old)) (K.written out.old) (K.written out.new) result }
{
    while reader.step(flash)? {
        write_digits(reader.chunk(), out)?;
    }
    Ok(())
}

/// Writes the line of the bytes that a reader has left. Where a page isn't read, a line of its own says so behind it.
pub(crate) fn show_bytes<F: Flash, K: Sink>(
    reader: &mut BlobReader<'_, '_>,
    flash: &mut F,
    out: &mut K,
) -> Result<(), SinkFailed>
    requires lies { LiesOn (data_of reader.old) (F.state flash.old) }
    ensures counts { OnlyReads (F.state flash.old) (F.state flash.new) }
    ensures lies { LiesOn (data_of reader.new) (F.state flash.new) }
    ensures data { data_of reader.new ≡ data_of reader.old }
    ensures buffer { buffer_of reader.new ≡ buffer_of reader.old }
    ensures cause { HasCause (K.faults out.old) (K.faults out.new) result }
    ensures tells { BlobSays (TellsLeft reader.old (F.state flash.old)) (MayBeBadAhead reader.old (F.state flash.old)) (MayBeBadAhead reader.old (F.state flash.old)) (F.state flash.old) (F.state flash.new) (K.written out.old) (K.written out.new) result }
    ensures reads { Reads reader.old (F.state flash.old) → IsWholeIn reader.old (F.state flash.old) → (F.state flash.new).work.reads ≤ (F.state flash.old).work.reads + pages_left reader.old }
    ensures shows { Reads reader.old (F.state flash.old) → IsWholeIn reader.old (F.state flash.old) → IsTurned reader.old (F.state flash.old) → (F.state flash.old).is_on ≡ true →
        ShowsBytes (bytes_left reader.old (F.state flash.old)) (K.written out.old) (K.written out.new) (F.state flash.old).media.faults (F.state flash.new).media.faults (F.state flash.old).work.reads (F.state flash.new).work.reads result }
{
    write_reply(&Reply::BytesBegin, out)?;
    match give_digits(reader, flash, out) {
        Ok(()) => write_reply(&Reply::LineEnd, out),
        Err(ListFault::Sink(failed)) => Err(failed),
        Err(ListFault::Read(fault)) => {
            write_reply(&Reply::LineEnd, out)?;
            write_reply(&read_reply(fault), out)
        }
    }
}

/// The reply where a page isn't read.
pub(crate) fn read_reply(fault: ReadFault) -> Reply
    ensures { reply_text result ≡ text (read_reply fault) }
{
    match fault {
        ReadFault::Flash(_) => Reply::ReadFault,
        ReadFault::BadPage(bad) => {
            let number = bad.wanted;
            Reply::BadPage { number }
        }
    }
}
