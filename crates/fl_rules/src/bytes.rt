// Parts of a page whose bytes are known.
ghost use Rattle.std.specs.Prelude.{◌+◌, ◌≤◌, ◌↔◌, IsTrue, length};
ghost use Rattle.fl_rules.specs.Endings.{IsFilled, IsEnded};

use fl_base::each_is;

/// Whether a page ends with the fields of a committed page: four bytes 00, and four bytes FF in the void field.
pub(crate) fn ends_committed(page: &[u8]) -> bool
    requires { 8 ≤ length page.now }
    ensures { IsTrue result ↔ IsEnded page.now }
{
    let size = page.len();
    each_is(&page[size - 8..size - 4], 0) && each_is(&page[size - 4..size], 255)
}

/// Whether the bytes from `end` on up to those fields are FF.
pub(crate) fn ends_filled(page: &[u8], end: usize) -> bool
    requires { end + 8 ≤ length page.now }
    ensures { IsTrue result ↔ IsFilled end page.now }
{
    each_is(&page[end..page.len() - 8], 255) && ends_committed(page)
}
