// The rows of a table in a range.
ghost use Rattle.std.specs.Prelude.{◌≡◌, ◌<◌, List, true, None, Some, length, map, min, option_map, slice_get};
ghost use Rattle.fl_cursor.specs.Cursor.{IsReady, IsTold, index_name, index_page, left_of, mark_of, rows_name, rows_page, table_of};
ghost use Rattle.fl_flash.specs.Flash.{FlashState};
ghost use Rattle.fl_flash.specs.Places.{extent};
ghost use Rattle.fl_model.specs.Query as query;
ghost use Rattle.fl_model.specs.Record.{Config, Plan};
ghost use Rattle.fl_model.specs.Row.{stored_row};
ghost use Rattle.fl_model.specs.Table as model;
ghost use Rattle.fl_frame.specs.Contents.{contents_of};
ghost use Rattle.fl_rlc.specs.Table.{table_in};
ghost use Rattle.fl_table.specs.Look.{last_key_in, layout_in};
ghost use Rattle.fl_store.specs.declared.tables.Entry.{Entry};

use crate::sizes::Cursor;
use crate::tables::Tables;
use fl_base::{KeyRange, Span};
use fl_flash::PageBuf;

impl Tables {
    ghost use Rattle.std.specs.Prelude.{◌≤◌, ◌+◌};
    ghost use Rattle.fl_store.specs.Calls.{Located, RunsAt, columns_at};
    ghost use Rattle.fl_store.specs.Store.{Holds};
    ghost use Rattle.fl_store.specs.Tables.{LieOn};

    /// A cursor over the rows of the table at a place whose keys are in the range and, where there is a span, whose first values
    /// are in it, in the order of their keys. It holds the tables and both buffers, and each of its steps takes the flash. Both
    /// buffers forget the page that they hold.
    pub fn scan<'s, 'r, 'i>(
        &'s self,
        at: usize,
        range: KeyRange,
        span: Option<Span>,
        rows: &'r mut PageBuf,
        index: &'i mut PageBuf,
    ) -> Cursor<'s, 'r, 'i>
        requires at { at < length self.now.entries.items }
        requires running { RunsAt self.now.entries.items at }
        // Over a flash with which the tables are held it gives exactly these rows.
        ensures left { (config : Config) (f : FlashState) (tables : List model.Table) (plan : Plan) (table : model.Table) → f.start + extent f.geometry f.blocks ≤ length f.media.content → LieOn self.now.entries.items f →
            Holds config self.now.entries.items f true tables → Located config tables at plan table →
            IsTold result (contents_of f) × (left_of result (contents_of f) ≡ map stored_row (query.selected range span table.entries)) }
        ensures ready { (f : FlashState) → LieOn self.now.entries.items f → length rows.old.bytes ≡ f.geometry.page → length index.old.bytes ≡ f.geometry.page → IsReady result (contents_of f) }
        ensures columns { length (layout_in (table_of result)).columns ≡ columns_at self.now.entries.items at }
        ensures mark { (entry : Entry) → slice_get self.now.entries.items at ≡ Some entry →
            mark_of result ≡ record { after = None; top = option_map (λ last. min range.high last) (last_key_in (table_in entry.table)); range = range; span = span } }
        ensures table { (entry : Entry) → slice_get self.now.entries.items at ≡ Some entry → table_of result ≡ table_in entry.table }
        ensures rows_forget { rows_page result ≡ record rows.old { holds = None } }
        ensures index_forget { index_page result ≡ record index.old { holds = None } }
        ensures rows_name { rows_name result ≡ rows.entry.ghost_name }
        ensures index_name { index_name result ≡ index.entry.ghost_name }
    {
        Cursor::begin(self.entries[at].table.table(), range, span, rows, index)
    }
}
