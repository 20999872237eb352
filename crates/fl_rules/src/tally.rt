// What the kept pages of a table tell beside its rules: the rows, the void pages, and where its blobs and the entries of its
// index end.
ghost use Rattle.std.specs.Prelude.{◌≡◌, ◌<◌, ◌≤◌, ◌+◌, Option, length, IsTrue, IfOk, IfErr};
ghost use Rattle.fl_model.specs.BlobEnds.{reference_end, blobs_end};
ghost use Rattle.fl_flash.specs.Flash.{page_at};
ghost use Rattle.fl_page.specs.View.{count_of, rows_of};
ghost use Rattle.fl_frame.specs.Reads.{OnlyReads};
ghost use Rattle.fl_frame.specs.Causes.{ReadFails};
ghost use Rattle.fl_ring.specs.Place.{shape_of, LiesOn};
ghost use Rattle.fl_schema.specs.Schema.{layout_of};
ghost use Rattle.fl_rules.specs.Rising.{HasRows, HaveRows};
ghost use Rattle.fl_rules.specs.Marks.{AreWithin};
ghost use Rattle.fl_rules.specs.Tally.{listed_after, listed_to, with_page, tally_of};

use crate::marks::Marks;
use fl_base::{BlobRef, get_u32};
use fl_flash::{Flash, FlashFault, PageBuf};
use fl_mark::state_of;
use fl_page::PageView;
use fl_ring::{Ring, is_committed, look};
use fl_schema::Schema;

/// The rows of the kept data pages, how many of these pages are void, and one more than the greatest page that a blob names.
#[derive(Clone, Copy)]
pub struct Tally {
    pub rows: u64,
    pub voids: u32,
    pub blob_end: u64,
}

impl Tally {
    ghost use Rattle.std.specs.Prelude.{◌≡◌};
    ghost use Rattle.fl_rules.specs.Tally.{no_pages};

    /// Of no pages.
    pub fn of_no_pages() -> Tally
        ensures { result ≡ no_pages }
    {
        Tally {
            rows: 0,
            voids: 0,
            blob_end: 0,
        }
    }
}

/// The number after the data pages that the newest committed index page lists; 0 where no page is committed.
///
/// # Errors
///
/// A read fails.
pub fn find_end<F: Flash>(
    ring: &Ring,
    flash: &mut F,
    m: Marks,
    per_page: u32,
    buf: &mut PageBuf,
) -> Result<u64, FlashFault>
    requires lies { LiesOn ring.now (F.state flash.old) }
    requires room { length buf.old.bytes ≡ (shape_of ring.now).size }
    requires within { AreWithin (shape_of ring.now) m }
    ensures reads { OnlyReads (F.state flash.old) m.kept (F.state flash.new) }
    ensures room { length buf.new.bytes ≡ (shape_of ring.now).size }
    ensures end { IfOk result (λ end. IsTrue (F.state flash.old).media.tells → end ≡ listed_to per_page (page_at (F.state flash.old)) (shape_of ring.now) m m.kept) }
    ensures fails { IfErr result (λ e. ReadFails (F.state flash.old) e (F.state flash.new)) }
{
    let mut end: u64 = 0;
    for i in 0..m.kept {
        let page = ring.page_back(m.at, m.kept - i);
        look(flash, page, buf)?;
        end = end_after(buf.bytes(), per_page, end);
    }
    Ok(end)
}

/// Where the entries end of an index page, or those before it where it isn't committed.
fn end_after(page: &[u8], per_page: u32, before: u64) -> u64
    requires { 64 ≤ length page.now }
    ensures { result ≡ listed_after per_page page.now before }
{
    if !is_committed(state_of(page)) {
        return before;
    }
    u64::from(get_u32(page, 4)) + u64::from(per_page)
}

/// One more than the page at which a blob begins, and 0 where it has none.
fn reference_end(blob: Option<BlobRef>) -> u64
    ensures { result ≡ reference_end blob }
{
    let Some(at) = blob else {
        return 0;
    };
    if at.length == 0 {
        return 0;
    }
    u64::from(at.page) + 1
}

/// One more than the greatest page at which a blob of these rows begins, or `so_far` where that is more.
pub fn blobs_end(view: &PageView<'_, 8>, so_far: u64) -> u64
    requires { count_of view.now < 65536 }
    ensures { result ≡ blobs_end so_far (rows_of view.now) }
{
    let mut end = so_far;
    for i in 0..view.rows() {
        end = end.max(reference_end(view.row(i).blob()));
    }
    end
}

/// One data page more.
fn with_page(schema: &Schema<8>, page: &[u8], tally: Tally) -> Tally
    requires size { 64 ≤ length page.now }
    requires short { length page.now ≤ 4096 }
    requires few { tally.rows + 65535 < 18446744073709551616 }
    requires few_voids { tally.voids + 1 < 4294967296 }
    ensures exact { HasRows (layout_of schema.now) page.now → result ≡ with_page (layout_of schema.now) page.now tally }
    ensures few { result.rows ≤ tally.rows + 65535 }
    ensures few_voids { result.voids ≤ tally.voids + 1 }
{
    if !is_committed(state_of(page)) {
        return Tally {
            rows: tally.rows,
            voids: tally.voids + 1,
            blob_end: tally.blob_end,
        };
    }
    match PageView::of(page, get_u32(page, 0), schema) {
        Err(_) => tally,
        Ok(view) => Tally {
            rows: tally.rows + view.rows() as u64,
            voids: tally.voids,
            blob_end: blobs_end(&view, tally.blob_end),
        },
    }
}

/// Counts the rows of the kept data pages and the void ones among these pages, and finds where the blobs of the rows end.
///
/// # Errors
///
/// A read fails.
pub fn tally_pages<F: Flash>(
    ring: &Ring,
    flash: &mut F,
    m: Marks,
    schema: &Schema<8>,
    buf: &mut PageBuf,
) -> Result<Tally, FlashFault>
    requires lies { LiesOn ring.now (F.state flash.old) }
    requires room { length buf.old.bytes ≡ (shape_of ring.now).size }
    requires within { AreWithin (shape_of ring.now) m }
    ensures reads { OnlyReads (F.state flash.old) m.kept (F.state flash.new) }
    ensures room { length buf.new.bytes ≡ (shape_of ring.now).size }
    ensures tally { IfOk result (λ tally. IsTrue (F.state flash.old).media.tells
        → HaveRows (layout_of schema.now) (page_at (F.state flash.old)) (shape_of ring.now) m
        → tally ≡ tally_of (layout_of schema.now) (page_at (F.state flash.old)) (shape_of ring.now) m m.kept) }
    ensures fails { IfErr result (λ e. ReadFails (F.state flash.old) e (F.state flash.new)) }
{
    let mut tally = Tally::of_no_pages();
    for i in 0..m.kept {
        let page = ring.page_back(m.at, m.kept - i);
        look(flash, page, buf)?;
        tally = with_page(schema, buf.bytes(), tally);
    }
    Ok(tally)
}
