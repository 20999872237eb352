// A committed data page: its number in four bytes, the count of its rows in two, two zeros, their bitmap in eight, the
// rows, and FF behind them.
ghost use Rattle.std.specs.Prelude.{◌≡◌, ◌+◌, ◌*◌, ◌↔◌, ◌≤◌, ◌<◌, IsTrue, length};
ghost use Rattle.fl_model.specs.Record.{Plan};
ghost use Rattle.fl_bitmap.specs.Bucket.{bitmap_in};
ghost use Rattle.fl_page.specs.View.{layout_of_page, page_of, count_of, rows_of};
ghost use Rattle.fl_schema.specs.Schema.{layout_of, types_of};
ghost use Rattle.fl_rules.specs.DataPage.{IsDataPage, HasForm, HoldsEntries, is_plain, are_plain};

use crate::bytes::ends_filled;
use fl_base::{BlobRef, each_is, get_u64};
use fl_bitmap::Buckets;
use fl_page::PageView;
use fl_schema::Schema;

/// The bitmap of a page's rows, by their first values; 0 without buckets.
fn bitmap_of<const COLS: usize>(view: &PageView<'_, COLS>, buckets: Option<Buckets>) -> u64
    requires columns { 1 ≤ length (layout_of_page view.now).columns }
    ensures { result ≡ bitmap_in buckets (rows_of view.now) }
{
    let Some(buckets) = buckets else {
        return 0;
    };
    let mut bitmap = 0;
    for i in 0..view.rows() {
        bitmap = buckets.add(bitmap, view.row(i).value(0));
    }
    bitmap
}

/// Whether a reference to an empty blob is ten bytes 0.
fn is_plain(blob: Option<BlobRef>) -> bool
    ensures { result ≡ is_plain blob }
{
    match blob {
        Some(blob) => blob.length != 0 || blob.page == 0 && blob.offset == 0,
        None => true,
    }
}

/// Whether each reference to an empty blob is.
fn are_plain<const COLS: usize>(view: &PageView<'_, COLS>) -> bool
    ensures { result ≡ are_plain (rows_of view.now) }
{
    for i in 0..view.rows() {
        if !is_plain(view.row(i).blob()) {
            return false;
        }
    }
    true
}

/// Whether a page is a committed data page with this number, whose body is just that of its rows and their bitmap, and
/// whose references to empty blobs are ten bytes 0.
pub fn data_page_is_good<const COLS: usize>(
    page: &[u8],
    schema: &Schema<COLS>,
    buckets: Option<Buckets>,
    number: u32,
) -> bool
    requires columns { 1 ≤ length (types_of schema.now) }
    requires least { 24 ≤ length page.now }
    requires most { length page.now < 65536 }
    ensures exact { IsTrue result ↔ IsDataPage (layout_of schema.now) buckets number page.now }
    ensures of_table { (plan : Plan) → HasForm plan (layout_of schema.now) buckets (length page.now) → IsTrue result ↔ HoldsEntries plan number page.now }
{
    let Ok(view) = PageView::of(page, number, schema) else {
        return false;
    };
    if get_u64(page, 8) != bitmap_of(&view, buckets) || !are_plain(&view) {
        return false;
    }
    let end = 16 + view.rows() * schema.row_len() as usize;
    each_is(&page[6..8], 0) && ends_filled(page, end)
}
