// A committed page of variable data: its number in four bytes, the count of its bytes of content in two, two zeros, the
// content, and FF behind it.
ghost use Rattle.std.specs.Prelude.{◌↔◌, ◌<◌, ◌≤◌, IsTrue, length};
ghost use Rattle.fl_rules.specs.ContentPage.{IsContentPage};

use crate::bytes::ends_committed;
use fl_base::{each_is, get_u16, get_u32};

/// Whether a page is a committed page of variable data with this number and a count of bytes that it has room for.
pub fn content_page_is_good(page: &[u8], number: u32) -> bool
    requires least { 24 ≤ length page.now }
    requires most { length page.now < 65536 }
    ensures { IsTrue result ↔ IsContentPage number page.now }
{
    let used = get_u16(page, 4) as usize;
    if get_u32(page, 0) != number || used == 0 || used > page.len() - 16 {
        return false;
    }
    each_is(&page[6..8], 0) && ends_committed(page)
}
