// What a map tells of a ring beside the states of its pages.
ghost use Rattle.std.specs.Prelude.{◌≡◌, ◌≤◌, ◌<◌, ◌+◌, ◌^◌, length, IfSome};
ghost use Rattle.fl_map.specs.Pages.{no_figures, rows_told, with_page};

use fl_base::{get_u16, get_u32};
use fl_mark::state_of;
use fl_ring::is_committed;

/// What the committed pages of a ring tell: how many there are, the least and the greatest of their numbers, and the rows
/// of all.
#[derive(Clone, Copy)]
pub(crate) struct Figures {
    pub(crate) committed: u32,
    pub(crate) first: u32,
    pub(crate) last: u32,
    pub(crate) rows: u64,
}

/// What a map tells of a ring beside the states of its pages.
#[derive(Clone, Copy)]
pub(crate) struct RingNote {
    /// The bytes of a row, in a ring of rows.
    pub(crate) row_len: Option<u32>,
    /// The flash page with which the ring begins.
    pub(crate) first: u32,
    pub(crate) per_block: u32,
    /// The block of the ring that the next page stands in, where the marks tell just one.
    pub(crate) head: Option<u32>,
    pub(crate) figures: Figures,
    /// The pages that wait for an erase.
    pub(crate) waiting: usize,
    /// The flash page that breaks a rule.
    pub(crate) fault: Option<u32>,
}

/// The rows that a committed page tells, where it has room for so many.
fn rows_told(row_len: Option<u32>, page: &[u8]) -> u32
    requires least { 64 ≤ length page.now }
    requires most { length page.now ≤ 4096 }
    requires short { IfSome row_len (λ n. n ≤ 82) }
    ensures rows { result ≡ rows_told row_len page.now }
    ensures few { result ≤ 65535 }
{
    let Some(row_len) = row_len else {
        return 0;
    };
    let count = u32::from(get_u16(page, 4));
    if page.len() - 24 < count as usize * row_len as usize {
        return 0;
    }
    count
}

impl Figures {
    /// Those of no page.
    pub(crate) fn new() -> Figures
        ensures { result ≡ no_figures }
    {
        Figures {
            committed: 0,
            first: u32::MAX,
            last: 0,
            rows: 0,
        }
    }

    /// One page more, which counts where it is committed.
    pub(crate) fn with_page(self, row_len: Option<u32>, page: &[u8]) -> Figures
        requires least { 64 ≤ length page.now }
        requires most { length page.now ≤ 4096 }
        requires short { IfSome row_len (λ n. n ≤ 82) }
        requires few { self.committed + 1 < 2 ^ 32 }
        requires few_rows { self.rows + 65535 < 2 ^ 64 }
        ensures exact { result ≡ with_page row_len page.now self }
        ensures few { result.committed ≤ self.committed + 1 }
        ensures few_rows { result.rows ≤ self.rows + 65535 }
    {
        if !is_committed(state_of(page)) {
            return self;
        }
        let number = get_u32(page, 0);
        Figures {
            committed: self.committed + 1,
            first: self.first.min(number),
            last: self.last.max(number),
            rows: self.rows + u64::from(rows_told(row_len, page)),
        }
    }
}
