// The header of a data page: its number in four bytes, the count of its rows in two, two zeros, and their bitmap in
// eight.
ghost use Rattle.std.specs.Prelude.{◌≡◌, ◌≤◌, length};
ghost use Rattle.fl_page.specs.Header.{page_number, page_count};

use fl_base::{get_u16, get_u32};

/// How many bytes stand before the rows.
pub(crate) const HEADER: usize = 16;

/// The number of a page.
pub(crate) fn number_in(page: &[u8]) -> u32
    requires { 16 ≤ length page.now }
    ensures { result ≡ page_number page.now }
{
    get_u32(page, 0)
}

/// How many rows a page says to have.
pub(crate) fn count_in(page: &[u8]) -> u16
    requires { 16 ≤ length page.now }
    ensures { result ≡ page_count page.now }
{
    get_u16(page, 4)
}
