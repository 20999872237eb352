// What an entry of an index page has to tell of its data page.
ghost use Rattle.std.specs.Prelude.{◌≡◌, ◌<◌, ◌≤◌, ◌↔◌, length, IsTrue};
ghost use Rattle.fl_index.specs.Page.{full_view};
ghost use Rattle.fl_page.specs.View.{count_of, rows_of};
ghost use Rattle.fl_schema.specs.Schema.{layout_of};
ghost use Rattle.fl_page.specs.Header.{page_bitmap};
ghost use Rattle.fl_rules.specs.Told.{full_in, TellsCommitted, TellsVoid, TellsPage};

use fl_base::get_u64;
use fl_index::{Found, Full};
use fl_mark::state_of;
use fl_page::PageView;
use fl_ring::is_committed;
use fl_rules::{blobs_end, number_in};
use fl_schema::Schema;

/// The bitmap in the header of a data page.
fn header_bitmap(page: &[u8]) -> u64
    requires { 16 ≤ length page.now }
    ensures { result ≡ page_bitmap page.now }
{
    get_u64(page, 8)
}

/// Whether a full entry tells of a page with these rows beside its bitmap. Their blobs may end where no entry can tell it.
fn tells_full(view: &PageView<'_, 8>, full: Full) -> bool
    requires { count_of view.now < 65536 }
    ensures { IsTrue result ↔ (full_view full ≡ full_in (rows_of view.now)) }
{
    full.first_key == view.row(0).key()
        && usize::from(full.count) == view.rows()
        && u64::from(full.blob_end) == blobs_end(view, 0)
}

/// Whether an entry tells of a page of rows.
fn tells_committed(schema: &Schema<8>, page: &[u8], found: Found) -> bool
    requires size { 64 ≤ length page.now }
    requires short { length page.now ≤ 4096 }
    ensures { IsTrue result ↔ TellsCommitted (layout_of schema.now) page.now found }
{
    if found.bitmap != header_bitmap(page) {
        return false;
    }
    let Some(full) = found.full else {
        return true;
    };
    match PageView::of(page, number_in(page), schema) {
        Err(_) => false,
        Ok(view) => tells_full(&view, full),
    }
}

/// Whether an entry tells of a page without rows: a full one is all zero.
fn tells_void(found: Found) -> bool
    ensures { IsTrue result ↔ TellsVoid found }
{
    let Some(full) = found.full else {
        return true;
    };
    found.bitmap == 0 && full.first_key == 0 && full.count == 0 && full.blob_end == 0
}

/// Whether an entry tells of a data page, whose rows count where it is committed.
pub(crate) fn tells_page(schema: &Schema<8>, page: &[u8], found: Found) -> bool
    requires size { 64 ≤ length page.now }
    requires short { length page.now ≤ 4096 }
    ensures { IsTrue result ↔ TellsPage (layout_of schema.now) page.now found }
{
    if is_committed(state_of(page)) {
        tells_committed(schema, page, found)
    } else {
        tells_void(found)
    }
}
