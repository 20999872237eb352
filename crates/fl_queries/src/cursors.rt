// The cursors of a session, kept as bookmarks between two commands.
ghost use Rattle.std.specs.Prelude.{◌≡◌, ℕ, true, length, IsTrue};
ghost use Rattle.fl_base.specs.Causes.{HasCause};
ghost use Rattle.fl_cursor.specs.Asked.{asked_by};
ghost use Rattle.fl_flash.specs.Flash.{FlashState};
ghost use Rattle.fl_model.specs.Query.{begin};
ghost use Rattle.fl_model.specs.Record.{Plan};
ghost use Rattle.fl_model.specs.Table as model;
ghost use Rattle.fl_frame.specs.Contents.{OnlyReads};
ghost use Rattle.fl_script.specs.ReplyView.{reply_text};
ghost use Rattle.fl_table.specs.BlobAt.{has_blobs};
ghost use Rattle.fl_table.specs.Memory.{is_running, LiesOn};
ghost use Rattle.fl_table.specs.Standing.{Stands};
ghost use Rattle.fl_words.specs.Reply.{text};
ghost use Rattle.fl_queries.specs.ListSays.{mark_on, EndsNext, ListSays};
ghost use Rattle.fl_queries.specs.Nexts.{Nexts, ending_of};
ghost use Rattle.fl_queries.specs.RowsGiven.{MovesOver};
ghost use Rattle.fl_queries.specs.Room.{HasRooms};

use crate::buffers::Buffers;
use crate::listing::write_fault;
use crate::reply_lines::list_lines;
use crate::rows::form_of;
use fl_base::{KeyRange, Sink, SinkFailed, Span};
use fl_cursor::Bookmark;
use fl_flash::Flash;
use fl_script::{Reply, write_reply};
use fl_store::{Cursor, Table};

/// A cursor over the rows of a table that are asked for, before its first row. No page is read.
pub fn open_cursor(
    table: &Table,
    range: KeyRange,
    span: Option<Span>,
    buf: &mut Buffers,
) -> Bookmark
    requires { is_running table.now ≡ true }
    ensures mark { result ≡ mark_on table.now range span }
    ensures begins { (f : FlashState) (first : ℕ) (plan : Plan) (t : model.Table) → Stands table.now f first plan t → asked_by result ≡ begin range span t }
    ensures rows { length buf.new.rows.bytes ≡ length buf.old.rows.bytes }
    ensures index { length buf.new.index.bytes ≡ length buf.old.index.bytes }
    ensures right { (length buf.new.right_rows.bytes ≡ length buf.old.right_rows.bytes) × (length buf.new.right_index.bytes ≡ length buf.old.right_index.bytes) }
{
    Cursor::begin(table, range, span, &mut buf.rows, &mut buf.index).park()
}

/// The reply behind the rows that were given, where so many were asked for.
fn ending(given: u64, count: u64) -> Reply
    ensures { reply_text result ≡ text (ending_of count given) }
{
    if given == count {
        Reply::More
    } else {
        Reply::CursorEnd
    }
}

/// Writes the replies to a command for the next rows of a cursor, at most `count`, and moves it behind those that it gave.
///
/// # Errors
///
/// The sink failed: a first part of what is told is written.
pub fn next_rows<F: Flash, K: Sink>(
    table: &Table,
    mark: &mut Bookmark,
    count: u64,
    flash: &mut F,
    buf: &mut Buffers,
    out: &mut K,
) -> Result<(), SinkFailed>
    requires running { is_running table.now ≡ true }
    requires lies { LiesOn table.now (F.state flash.old) }
    requires room { HasRooms buf.old (F.state flash.old).geometry.page }
    ensures counts { OnlyReads (F.state flash.old) (F.state flash.new) }
    ensures rows { length buf.new.rows.bytes ≡ length buf.old.rows.bytes }
    ensures index { length buf.new.index.bytes ≡ length buf.old.index.bytes }
    ensures right { (length buf.new.right_rows.bytes ≡ length buf.old.right_rows.bytes) × (length buf.new.right_index.bytes ≡ length buf.old.right_index.bytes) }
    ensures cause { HasCause (K.faults out.old) (K.faults out.new) result }
    ensures lines { ListSays (MovesOver (has_blobs table.now) mark.old mark.new) (EndsNext count mark.old table.now (F.state flash.old) (F.state flash.new)) (K.written out.old) (K.written out.new) result }
    ensures nexts { (first : ℕ) → (plan : Plan) → (t : model.Table) → IsTrue (F.state flash.old).media.tells → (F.state flash.old).is_on ≡ true → Stands table.now (F.state flash.old) first plan t →
        Nexts plan t count mark.old mark.new (K.written out.old) (K.written out.new) (F.state flash.old).media.faults (F.state flash.new).media.faults (F.state flash.old).work.reads (F.state flash.new).work.reads result }
{
    let form = form_of(table);
    let mut cursor = Cursor::resume(table, *mark, &mut buf.rows, &mut buf.index);
    let given = list_lines(&mut cursor, count, form, flash, out);
    *mark = cursor.park();
    match given {
        Ok(given) => write_reply(&ending(given, count), out),
        Err(fault) => write_fault(fault, out),
    }
}
