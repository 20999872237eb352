// A committed index page: its number in four bytes, the first data page that it lists in four, the count of its entries in
// two, which is the count of all that it has room for, six zeros, and the entries.
ghost use Rattle.std.specs.Prelude.{◌≡◌, ◌/◌, ◌↔◌, ◌≤◌, ◌<◌, IsTrue, ℕ, length};
ghost use Rattle.fl_model.specs.Record.{Plan};
ghost use Rattle.fl_rules.specs.IndexPage.{IsIndexPage};

use crate::bytes::ends_filled;
use fl_base::{each_is, get_u16, get_u32};
use fl_index::{EntryForm, entry_len};

/// Whether a page is a committed index page with this number and with all the entries of a form that it has room for.
pub fn index_page_is_good(page: &[u8], form: EntryForm, number: u32) -> bool
    requires some { 1 ≤ form.width }
    requires few { form.width ≤ 8 }
    requires least { 24 ≤ length page.now }
    requires most { length page.now < 65536 }
    ensures { (plan : Plan) → plan.bits / 8 ≡ form.width → plan.full_index ≡ form.full → plan.geometry.page ≡ length page.now → IsTrue result ↔ IsIndexPage plan number page.now }
{
    let len = entry_len(form);
    let room = (page.len() - 24) / len;
    if get_u32(page, 0) != number || get_u16(page, 8) as usize != room {
        return false;
    }
    each_is(&page[10..16], 0) && ends_filled(page, 16 + room * len)
}
