// A cursor: made, kept as a bookmark, and made again.
ghost use Rattle.std.specs.Prelude.{◌≡◌, ◌≤◌, ◌+◌, ℕ, true, false, Some, None, IsTrue, length, map, option_map, min};
ghost use Rattle.fl_flash.specs.Flash.{FlashState};
ghost use Rattle.fl_flash.specs.Places.{extent};
ghost use Rattle.fl_model.specs.Query as query;
ghost use Rattle.fl_model.specs.Record.{Plan};
ghost use Rattle.fl_model.specs.Row.{stored_row};
ghost use Rattle.fl_model.specs.Table as model;
ghost use Rattle.fl_model.specs.Table.{last_entry};
ghost use Rattle.fl_frame.specs.Contents.{Contents, contents_of};
ghost use Rattle.fl_table.specs.Look.{last_key_in};
ghost use Rattle.fl_table.specs.Memory.{is_running, LiesOn};
ghost use Rattle.fl_table.specs.Standing.{Stands};

use crate::Bookmark;
use crate::place::{Here, Place};
use fl_base::{KeyRange, Span};
use fl_flash::PageBuf;
use fl_table::Table;

/// The greatest key of the range that the table may have now.
fn last_wanted<const KNOTS: usize, const SLOTS: usize>(
    table: &Table<KNOTS, SLOTS>,
    range: KeyRange,
) -> Option<u64>
    ensures exact { result ≡ option_map (λ last. min range.high last) (last_key_in table.now) }
    ensures stands { (f : FlashState) → (first : ℕ) → (plan : Plan) → (t : model.Table) → Stands table.now f first plan t → result ≡ option_map (λ last. min range.high last.kept.key) (last_entry t) }
{
    match table.last_key() {
        Some(last) => Some(range.high.min(last)),
        None => None,
    }
}

/// The rows of a table that are asked for, in the order of their keys, each lent as a slice of its page. It holds the
/// table and two buffers for pages, one for rows and one for index pages, until it is parked.
#[derive(Drop)]
pub struct Cursor<'s, 'r, 'i, const KNOTS: usize, const SLOTS: usize> {
    pub(crate) table: &'s Table<KNOTS, SLOTS>,
    pub(crate) rows_buf: &'r mut PageBuf,
    pub(crate) index_buf: &'i mut PageBuf,
    pub(crate) mark: Bookmark,
    pub(crate) place: Place,
    pub(crate) here: Here,
}

impl<'s, 'r, 'i, const KNOTS: usize, const SLOTS: usize> Cursor<'s, 'r, 'i, KNOTS, SLOTS> {
    ghost use Rattle.fl_model.specs.Limits.{scan_limit, least_reads};
    ghost use Rattle.fl_cursor.specs.Asked.{asked_by, lowest_of};
    ghost use Rattle.fl_cursor.specs.Sound.{IsSoundAhead, IsSoundOver};
    ghost use Rattle.fl_cursor.specs.Reads.{most_of, least_of, IsBegun, IsBounded};
    ghost use Rattle.fl_cursor.specs.Cursor.{table_of, mark_of, asked_of, place_of, left_of, IsStanding, IsTold, IsReady, rows_name, index_name, rows_page, index_page};

    /// A cursor over the rows whose keys are in the range and whose first values are in the span. Rows that are put from
    /// now on never come. Both buffers forget the page that they hold.
    pub fn begin(
        table: &'s Table<KNOTS, SLOTS>,
        range: KeyRange,
        span: Option<Span>,
        rows_buf: &'r mut PageBuf,
        index_buf: &'i mut PageBuf,
    ) -> Cursor<'s, 'r, 'i, KNOTS, SLOTS>
        requires running { is_running table.now ≡ true }
        ensures mark { mark_of result ≡ record { after = None; top = option_map (λ last. min range.high last) (last_key_in table.now); range = range; span = span } }
        ensures model { (f : FlashState) → (first : ℕ) → (plan : Plan) → (t : model.Table) → Stands table.now f first plan t → asked_of result ≡ query.begin range span t }
        ensures left { (f : FlashState) → (first : ℕ) → (plan : Plan) → (t : model.Table) → IsTrue f.media.tells → f.start + extent f.geometry f.blocks ≤ length f.media.content →
            LiesOn table.now f → Stands table.now f first plan t → left_of result (contents_of f) ≡ map stored_row (query.selected range span t.entries) }
        ensures table { table_of result ≡ table.now }
        ensures rows_name { rows_name result ≡ rows_buf.entry.ghost_name }
        ensures index_name { index_name result ≡ index_buf.entry.ghost_name }
        ensures rows_forget { rows_page result ≡ record rows_buf.old { holds = None } }
        ensures index_forget { index_page result ≡ record index_buf.old { holds = None } }
        ensures ready { (f : FlashState) → LiesOn table.now f → length rows_buf.old.bytes ≡ f.geometry.page → length index_buf.old.bytes ≡ f.geometry.page → IsReady result (contents_of f) }
        ensures told { (contents : Contents) → IsStanding table.now contents → IsTold result contents }
        ensures sound { (contents : Contents) → IsSoundAhead result contents → IsSoundOver table.now contents (asked_of result) }
        ensures limit { (f : FlashState) → (first : ℕ) → (plan : Plan) → (t : model.Table) → IsTrue f.media.tells → f.start + extent f.geometry f.blocks ≤ length f.media.content →
            LiesOn table.now f → Stands table.now f first plan t →
            most_of result (contents_of f) ≤ scan_limit KNOTS plan t range span range.low }
        ensures least { (f : FlashState) → (first : ℕ) → (plan : Plan) → (t : model.Table) → IsTrue f.media.tells → f.start + extent f.geometry f.blocks ≤ length f.media.content →
            LiesOn table.now f → Stands table.now f first plan t → least_reads plan t range span ≤ least_of result (contents_of f) }
    {
        rows_buf.forget();
        let top = last_wanted(table, range);
        let mark = Bookmark {
            after: None,
            top,
            range,
            span,
        };
        Cursor::resume(table, mark, rows_buf, index_buf)
    }

    /// The cursor that was parked as this bookmark. No page is taken from a buffer that wasn't read since: the buffer of
    /// index pages forgets the page that it holds.
    pub fn resume(
        table: &'s Table<KNOTS, SLOTS>,
        mark: Bookmark,
        rows_buf: &'r mut PageBuf,
        index_buf: &'i mut PageBuf,
    ) -> Cursor<'s, 'r, 'i, KNOTS, SLOTS>
        requires running { is_running table.now ≡ true }
        ensures mark { mark_of result ≡ mark }
        ensures table { table_of result ≡ table.now }
        ensures rows_name { rows_name result ≡ rows_buf.entry.ghost_name }
        ensures index_name { index_name result ≡ index_buf.entry.ghost_name }
        ensures rows_page { rows_page result ≡ rows_buf.old }
        ensures index_forget { index_page result ≡ record index_buf.old { holds = None } }
        ensures ready { (f : FlashState) → LiesOn table.now f → length rows_buf.old.bytes ≡ f.geometry.page → length index_buf.old.bytes ≡ f.geometry.page → IsReady result (contents_of f) }
        ensures told { (contents : Contents) → IsStanding table.now contents → IsTold result contents }
        ensures limit { (f : FlashState) → (first : ℕ) → (plan : Plan) → (t : model.Table) → IsTrue f.media.tells → f.start + extent f.geometry f.blocks ≤ length f.media.content →
            LiesOn table.now f → Stands table.now f first plan t → IsBounded mark.top mark.range.high →
            most_of result (contents_of f) ≤ scan_limit KNOTS plan t mark.range mark.span (lowest_of (asked_by mark)) }
        ensures begun { IsBegun (asked_by mark) table.now (place_of result) }
        ensures sound { (contents : Contents) → IsSoundAhead result contents → IsSoundOver table.now contents (asked_by mark) }
    {
        index_buf.forget();
        Cursor {
            table,
            rows_buf,
            index_buf,
            mark,
            place: mark.first_place(table),
            here: Here::Nowhere,
        }
    }

    /// What is kept of it. The table and the buffers are free again.
    pub fn park(self) -> Bookmark
        ensures mark { result ≡ mark_of self.entry }
        ensures rows_buf { self.exit.1.0.now ≡ rows_page self.entry }
        ensures index_buf { self.exit.1.1.0.now ≡ index_page self.entry }
    {
        self.mark
    }
}
