// The records of a log's page that no data page has join the pending ones of their table.
ghost use Rattle.std.specs.Prelude.{◌≡◌, ◌+◌, ◌<◌, ◌≤◌, ℕ, Bool, true, false, Some, None, length, map, slice_get, IsSomeAnd};
ghost use Rattle.fl_flash.specs.Flash.{FlashState};
ghost use Rattle.fl_model.specs.Bare.{bare, bare_table};
ghost use Rattle.fl_model.specs.Facts.{FitsPlan, IsLogPage};
ghost use Rattle.fl_model.specs.Mount.{joined};
ghost use Rattle.fl_model.specs.Record.{Plan};
ghost use Rattle.fl_model.specs.Row.{stored_row};
ghost use Rattle.fl_model.specs.Table as model;
ghost use Rattle.fl_model.specs.Table.{Entry};
ghost use Rattle.fl_model.specs.Work.{Device};
ghost use Rattle.fl_page.specs.Header.{page_count};
ghost use Rattle.fl_page.specs.Page.{IsGoodPage, rows_in};
ghost use Rattle.fl_frame.specs.Watched.{IsWatched};
ghost use Rattle.fl_schema.specs.Schema.{layout_of_row, row_of};
ghost use Rattle.fl_table.specs.BlobAt.{has_blobs};
ghost use Rattle.fl_table.specs.Look.{layout_in};
ghost use Rattle.fl_table.specs.Memory.{is_running, is_stopped, pending_in, HasRoom, IsSamePlan, LiesOn};
ghost use Rattle.fl_table.specs.Standing.{Stands};
ghost use Rattle.fl_rlc.specs.Joining.{taken};
ghost use Rattle.fl_rlc.specs.Offering.{IsOffered, AreOffered};

use arrayvec::ArrayVec;
use fl_flash::{Flash, PageBuf};
use fl_schema::RowRef;
use fl_table::Table;

/// A record of a log's page.
#[derive(Drop)]
struct Logged {
    key: u64,
    values: ArrayVec<i64, 8>,
}

/// The values of a row of so many columns.
fn values_of(row: &RowRef<'_>, columns: usize) -> ArrayVec<i64, 8>
    requires columns { columns ≡ length (layout_of_row row.now).columns }
    requires few { columns ≤ 8 }
    ensures { result.items ≡ (row_of row.now).values }
{
    let mut values = ArrayVec::new();
    for i in 0..columns {
        values.push(row.value(i));
    }
    values
}

/// Record i of the page with this number in the buffer, from 0.
fn record_at<const KNOTS: usize, const SLOTS: usize>(
    table: &Table<KNOTS, SLOTS>,
    buf: &PageBuf,
    number: u32,
    i: usize,
) -> Logged
    requires good { IsGoodPage (layout_in table.now) number buf.now.bytes }
    requires size { length buf.now.bytes ≤ 4096 }
    requires within { i < page_count buf.now.bytes }
    ensures { IsSomeAnd (slice_get (rows_in (layout_in table.now) buf.now.bytes) i) (λ row. (result.key ≡ row.key) × (result.values.items ≡ row.values)) }
{
    let row = table.view(buf, number).row(i);
    Logged {
        key: row.key(),
        values: values_of(&row, table.columns()),
    }
}

/// The record becomes pending where the table takes it: above its last one, and with page numbers left. There is room for
/// it, so the flash stays.
fn take_record<F: Flash, const KNOTS: usize, const SLOTS: usize>(
    table: &mut Table<KNOTS, SLOTS>,
    flash: &mut F,
    item: &Logged,
)
    requires running { is_running table.old ≡ true }
    requires no_blobs { has_blobs table.old ≡ false }
    requires room { HasRoom table.old }
    requires lies { LiesOn table.old (F.state flash.old) }
    ensures still { F.state flash.new ≡ F.state flash.old }
    ensures same { IsSamePlan table.old table.new }
    ensures lies { LiesOn table.new (F.state flash.new) }
    ensures running { is_running table.new ≡ true }
    ensures calm { is_stopped table.new ≡ is_stopped table.old }
    ensures pending { pending_in table.new ≤ pending_in table.old + 1 }
    ensures offers { IsOffered table.old (record { key = item.now.key; values = item.now.values.items; blob = None }) table.new }
    ensures takes { (first : ℕ) → (plan : Plan) → (b : model.Table) → (rose : Bool) → (device : Device) → (entry : Entry) → IsWatched (F.state flash.old) (F.state flash.new) rose device
        → Stands table.old (F.state flash.old) first plan b → FitsPlan plan entry → entry.kept.key ≡ item.now.key → entry.kept.values ≡ item.now.values.items
        → Stands table.new (F.state flash.new) first plan (taken b entry) }
{
    // A refused record is in a data page already, or no page can be sealed for it.
    let _refused = table.put(flash, item.key, item.values.as_slice(), None);
}

/// The records of the page with this number in the buffer join the pending ones, as many as the table takes.
pub(crate) fn join_rows<F: Flash, const KNOTS: usize, const SLOTS: usize>(
    table: &mut Table<KNOTS, SLOTS>,
    flash: &mut F,
    buf: &PageBuf,
    number: u32,
)
    requires running { is_running table.old ≡ true }
    requires none { pending_in table.old ≡ 0 }
    requires no_blobs { has_blobs table.old ≡ false }
    requires lies { LiesOn table.old (F.state flash.old) }
    requires good { IsGoodPage (layout_in table.old) number buf.now.bytes }
    requires size { length buf.now.bytes ≡ (F.state flash.old).geometry.page }
    ensures still { F.state flash.new ≡ F.state flash.old }
    ensures same { IsSamePlan table.old table.new }
    ensures lies { LiesOn table.new (F.state flash.new) }
    ensures running { is_running table.new ≡ true }
    ensures calm { is_stopped table.new ≡ is_stopped table.old }
    ensures offers { AreOffered table.old (rows_in (layout_in table.old) buf.now.bytes) table.new }
    ensures joins { (first : ℕ) → (plan : Plan) → (table_now : model.Table) → (rose : Bool) → (device : Device) → IsWatched (F.state flash.old) (F.state flash.new) rose device
        → Stands table.old (F.state flash.old) first (bare plan) (bare_table table_now) → table_now.pending ≡ 0 → IsLogPage plan table_now.logged
        → rows_in (layout_in table.old) buf.now.bytes ≡ map stored_row table_now.logged → Stands table.new (F.state flash.new) first (bare plan) (bare_table (joined table_now)) }
{
    for i in 0..table.view(buf, number).rows() {
        let record = record_at(table, buf, number, i);
        take_record(table, flash, &record);
    }
}
