// The blob of a record, looked up by its key.
ghost use Rattle.std.specs.Prelude.{◌≡◌, ◌+◌, ◌/◌, ◌≤◌, ℕ, true, Some, List, length, slice_get, IsTrue, IfOk, IfErr};
ghost use Rattle.fl_base.specs.Causes.{HasCause};
ghost use Rattle.fl_base.specs.declared.types.BlobRef.{BlobRef};
ghost use Rattle.fl_machine.specs.Reads.{length_of};
ghost use Rattle.fl_model.specs.Query.{blob_of};
ghost use Rattle.fl_model.specs.Record.{Plan};
ghost use Rattle.fl_model.specs.Spline.{lookup_limit};
ghost use Rattle.fl_model.specs.Table as model;
ghost use Rattle.fl_model.specs.Table.{Entry};
ghost use Rattle.fl_frame.specs.Contents.{OnlyReads};
ghost use Rattle.fl_schema.specs.Schema.{row_of};
ghost use Rattle.fl_table.specs.BlobAt.{has_blobs, content_in};
ghost use Rattle.fl_table.specs.Finding.{BlamesFor, LookupFails, is_covered_in};
ghost use Rattle.fl_table.specs.Memory.{is_running, LiesOn};
ghost use Rattle.fl_table.specs.Standing.{Stands};
ghost use Rattle.fl_table.specs.declared.table.Table as tables;
ghost use Rattle.fl_var.specs.Memory as memory;
ghost use Rattle.fl_var.specs.Reading.{data_of, buffer_of, pages_left};
ghost use Rattle.fl_flash.specs.Flash.{FlashState};
ghost use Rattle.fl_queries.specs.BlobSays.{AnswersBlob, BlobSays, IsBadIn, IsBadNamed, MayBeBadFor, NamesFor, OpensFor, TellsBlob};
ghost use Rattle.fl_queries.specs.BlobShown.{found_in, IfNamed, FindsBlob, SaysBlob, ShowsBlob, WasOpened};

use crate::blob_line::{read_reply, show_bytes};
use fl_base::{BlobRef, Sink, SinkFailed, Steps};
use fl_flash::{Flash, PageBuf};
use fl_page::ReadFault;
use fl_schema::RowRef;
use fl_script::{Reply, write_reply};
use fl_store::Table;
use fl_var::BlobReader;

/// What a lookup finds of a record's blob.
#[derive(Clone, Copy)]
enum BlobFound {
    /// No record has the key.
    NoRecord,
    /// The record has no blob.
    NoBlob,
    /// Where its blob starts, and how long it is.
    At(BlobRef),
}

/// What a row tells of its blob.
fn found_in(row: &RowRef<'_>) -> BlobFound
    ensures { result ≡ found_in (row_of row.now).blob }
{
    match row.blob() {
        None => BlobFound::NoBlob,
        Some(at) => BlobFound::At(at),
    }
}

/// Looks up where the blob of the record with the key starts.
fn find_blob<F: Flash>(
    table: &Table,
    key: u64,
    flash: &mut F,
    buf: &mut PageBuf,
) -> Result<BlobFound, ReadFault>
    requires running { is_running table.now ≡ true }
    requires lies { LiesOn table.now (F.state flash.old) }
    requires room { length buf.old.bytes ≡ (F.state flash.old).geometry.page }
    ensures counts { OnlyReads (F.state flash.old) (F.state flash.new) }
    ensures lies { LiesOn table.now (F.state flash.new) }
    ensures room { length buf.new.bytes ≡ length buf.old.bytes }
    ensures blobs { IfOk result (IfNamed (has_blobs table.now ≡ true)) }
    ensures finds { (first : ℕ) (plan : Plan) (t : model.Table) → IsTrue (F.state flash.old).media.tells → Stands table.now (F.state flash.old) first plan t → FindsBlob t key result }
    ensures reads { (first : ℕ) (plan : Plan) (t : model.Table) → IsTrue (F.state flash.old).media.tells → Stands table.now (F.state flash.old) first plan t → (F.state flash.new).work.reads ≤ (F.state flash.old).work.reads + lookup_limit 64 plan t key }
    ensures names { IfOk result (NamesFor table.now key (F.state flash.old)) }
    ensures fails { IfErr result (λ fault. LookupFails table.now (F.state flash.old) fault (F.state flash.new)) }
    ensures blames { is_covered_in table.now key ≡ true → IfErr result (BlamesFor table.now (F.state flash.old) key) }
{
    let mut steps = Steps::new();
    match table.find(flash, key, buf, &mut steps) {
        Ok(None) => Ok(BlobFound::NoRecord),
        Ok(Some(place)) => Ok(found_in(&table.row_at(buf, place))),
        Err(fault) => Err(fault),
    }
}

/// Writes what is left of a blob that was opened: its bytes, or that it is gone, or why a page isn't read.
fn show_opened<F: Flash, K: Sink>(
    reader: &mut BlobReader<'_, '_>,
    stands: Result<bool, ReadFault>,
    flash: &mut F,
    out: &mut K,
) -> Result<(), SinkFailed>
    requires lies { memory.LiesOn (data_of reader.old) (F.state flash.old) }
    ensures counts { OnlyReads (F.state flash.old) (F.state flash.new) }
    ensures lies { memory.LiesOn (data_of reader.new) (F.state flash.new) }
    ensures data { data_of reader.new ≡ data_of reader.old }
    ensures buffer { buffer_of reader.new ≡ buffer_of reader.old }
    ensures cause { HasCause (K.faults out.old) (K.faults out.new) result }
    ensures tells { (t : tables.Table 64 64) (at : BlobRef) (f : FlashState) → OpensFor t at f (F.state flash.old) stands reader.old → BlobSays (TellsBlob t f at) (IsBadIn t f at) (IsBadIn t f at) f (F.state flash.new) (K.written out.old) (K.written out.new) result }
    ensures says { (t : model.Table) (entry : Entry) (bytes : List ℕ) (f : FlashState) → f.is_on ≡ true → WasOpened t entry bytes f (F.state flash.old) stands reader.old →
        SaysBlob (blob_of t entry) (K.written out.old) (K.written out.new) f.media.faults (F.state flash.new).media.faults f.work.reads (F.state flash.new).work.reads result }
    ensures reads { (t : model.Table) (entry : Entry) (bytes : List ℕ) (f : FlashState) → WasOpened t entry bytes f (F.state flash.old) stands reader.old →
        (F.state flash.new).work.reads ≤ f.work.reads + 1 + pages_left reader.old }
{
    match stands {
        Ok(true) => show_bytes(reader, flash, out),
        Ok(false) => write_reply(&Reply::Gone, out),
        Err(fault) => write_reply(&read_reply(fault), out),
    }
}

/// Writes what is left of a blob that a row names: its bytes, or that it is gone, or why a page isn't read.
fn show_at<F: Flash, K: Sink>(
    table: &Table,
    at: BlobRef,
    flash: &mut F,
    buf: &mut PageBuf,
    out: &mut K,
) -> Result<(), SinkFailed>
    requires running { is_running table.now ≡ true }
    requires blobs { has_blobs table.now ≡ true }
    requires lies { LiesOn table.now (F.state flash.old) }
    requires room { length buf.old.bytes ≡ (F.state flash.old).geometry.page }
    ensures counts { OnlyReads (F.state flash.old) (F.state flash.new) }
    ensures room { length buf.new.bytes ≡ length buf.old.bytes }
    ensures cause { HasCause (K.faults out.old) (K.faults out.new) result }
    ensures tells { BlobSays (TellsBlob table.now (F.state flash.old) at) (IsBadIn table.now (F.state flash.old) at) (IsBadIn table.now (F.state flash.old) at) (F.state flash.old) (F.state flash.new) (K.written out.old) (K.written out.new) result }
    ensures says { (first : ℕ) (plan : Plan) (t : model.Table) (i : ℕ) (entry : Entry) (bytes : List ℕ) → IsTrue (F.state flash.old).media.tells → (F.state flash.old).is_on ≡ true → Stands table.now (F.state flash.old) first plan t
        → slice_get t.entries i ≡ Some entry → entry.kept.blob ≡ Some bytes → at ≡ record { page = entry.page; offset = entry.offset; length = length bytes }
        → SaysBlob (blob_of t entry) (K.written out.old) (K.written out.new) (F.state flash.old).media.faults (F.state flash.new).media.faults (F.state flash.old).work.reads (F.state flash.new).work.reads result }
    ensures reads { (first : ℕ) (plan : Plan) (t : model.Table) (i : ℕ) (entry : Entry) (bytes : List ℕ) → IsTrue (F.state flash.old).media.tells → Stands table.now (F.state flash.old) first plan t
        → slice_get t.entries i ≡ Some entry → entry.kept.blob ≡ Some bytes → at ≡ record { page = entry.page; offset = entry.offset; length = length bytes }
        → (F.state flash.new).work.reads ≤ (F.state flash.old).work.reads + length_of (blob_of t entry) / content_in table.now + 2 }
{
    if at.length == 0 {
        return write_reply(&Reply::BytesEmpty, out);
    }
    let mut reader = table.blob_reader(buf);
    let stands = reader.open(flash, at);
    let written = show_opened(&mut reader, stands, flash, out);
    reader.close();
    written
}

/// Writes the reply to a question for the blob of the record with the key.
///
/// # Errors
///
/// The sink failed: a first part of what is told is written.
pub fn show_blob<F: Flash, K: Sink>(
    table: &Table,
    key: u64,
    flash: &mut F,
    buf: &mut PageBuf,
    out: &mut K,
) -> Result<(), SinkFailed>
    requires running { is_running table.now ≡ true }
    requires lies { LiesOn table.now (F.state flash.old) }
    requires room { length buf.old.bytes ≡ (F.state flash.old).geometry.page }
    ensures counts { OnlyReads (F.state flash.old) (F.state flash.new) }
    ensures room { length buf.new.bytes ≡ length buf.old.bytes }
    ensures cause { HasCause (K.faults out.old) (K.faults out.new) result }
    ensures tells { BlobSays (AnswersBlob table.now key (F.state flash.old)) (MayBeBadFor table.now key (F.state flash.old)) (IsBadNamed table.now key (F.state flash.old)) (F.state flash.old) (F.state flash.new) (K.written out.old) (K.written out.new) result }
    ensures shows { (first : ℕ) (plan : Plan) (t : model.Table) → IsTrue (F.state flash.old).media.tells → (F.state flash.old).is_on ≡ true → Stands table.now (F.state flash.old) first plan t →
        ShowsBlob plan t key (K.written out.old) (K.written out.new) (F.state flash.old).media.faults (F.state flash.new).media.faults (F.state flash.old).work.reads (F.state flash.new).work.reads result }
{
    match find_blob(table, key, flash, buf) {
        Ok(BlobFound::NoRecord) => write_reply(&Reply::Absent, out),
        Ok(BlobFound::NoBlob) => write_reply(&Reply::NoBlob, out),
        Ok(BlobFound::At(at)) => show_at(table, at, flash, buf, out),
        Err(fault) => write_reply(&read_reply(fault), out),
    }
}
