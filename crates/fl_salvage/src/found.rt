// What a page of a data ring is found to be.
ghost use Rattle.std.specs.Prelude.{◌≡◌, ◌<◌, ◌≤◌, length};
ghost use Rattle.fl_page.specs.Header.{page_number};
ghost use Rattle.fl_schema.specs.Schema.{layout_of};
ghost use Rattle.fl_salvage.specs.Pages.{found_in, has_rows};

use crate::ring::RingPages;
use fl_base::get_u32;
use fl_mark::{PageState, state_of};
use fl_page::PageView;
use fl_schema::Schema;

/// What a page of a data ring is found to be.
#[derive(Clone, Copy)]
pub(crate) enum PageFound {
    /// It is committed, its number belongs to its place, and it has from one row on as many as there is room for.
    Rows,
    /// Each of its bytes is FF.
    Blank,
    /// The image ends before it or in it.
    Missing,
    /// It was begun, and neither committed nor given up.
    Torn,
    /// It was given up.
    Void,
    /// It is committed, and its number belongs to another place.
    Misplaced,
    /// It is committed, and says to have no row, or more than there is room for.
    Unformed,
}

/// The number that a page tells.
pub(crate) fn number_in(page: &[u8]) -> u32
    requires { 24 ≤ length page.now }
    ensures { result ≡ page_number page.now }
{
    get_u32(page, 0)
}

/// Whether a page has this number and a count of rows that it has room for.
fn has_rows(page: &[u8], number: u32, schema: &Schema<8>) -> bool
    requires { 24 ≤ length page.now }
    ensures { result ≡ has_rows (layout_of schema.now) number page.now }
{
    PageView::of(page, number, schema).is_ok()
}

/// What the page at a place of a ring is.
pub(crate) fn found_in(page: &[u8], ring: RingPages, place: u32, schema: &Schema<8>) -> PageFound
    requires ring { 0 < ring.pages }
    requires room { 24 ≤ length page.now }
    ensures { result ≡ found_in (layout_of schema.now) ring place page.now }
{
    match state_of(page) {
        PageState::Blank => return PageFound::Blank,
        PageState::Torn => return PageFound::Torn,
        PageState::Void => return PageFound::Void,
        PageState::Committed => {}
    }
    let number = number_in(page);
    if number % ring.pages != place {
        return PageFound::Misplaced;
    }
    if !has_rows(page, number, schema) {
        return PageFound::Unformed;
    }
    PageFound::Rows
}
