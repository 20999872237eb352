// A data page, seen as its rows.
ghost use Rattle.std.specs.Prelude.{◌≡◌, ◌+◌, ◌*◌, ◌≤◌, length};
ghost use Rattle.fl_model.specs.Record.{layout_len};
ghost use Rattle.fl_schema.specs.Schema.{kind_layout};

use crate::BadPage;
use crate::header::{HEADER, count_in, number_in};
use fl_schema::{RowKind, RowRef, Schema};

/// The rows of a page, which are slices of its bytes.
#[derive(Clone, Copy)]
pub struct PageView<'b, const COLS: usize> {
    bytes: &'b [u8],
    kind: RowKind<'b>,
    count: usize,
    ghost some: { 1 ≤ count },
    ghost room: { 16 + count * layout_len (kind_layout kind) ≤ length bytes.now },
}

impl<'b, const COLS: usize> PageView<'b, COLS> {
    ghost use Rattle.std.specs.Prelude.{ℕ, ◌<◌, Some, slice_get, slice_range, MatchResult};
    ghost use Rattle.fl_model.specs.Row.{row_in};
    ghost use Rattle.fl_schema.specs.Schema.{layout_of, layout_of_row, bytes_of, row_of};
    ghost use Rattle.fl_page.specs.Header.{page_count};
    ghost use Rattle.fl_page.specs.Page.{IsGoodPage, bad_page, row_at, key_at};
    ghost use Rattle.fl_page.specs.View.{page_of, layout_of_page, count_of, rows_of};

    /// The rows of a page with this number.
    pub fn of(
        bytes: &'b [u8],
        number: u32,
        schema: &'b Schema<COLS>,
    ) -> Result<PageView<'b, COLS>, BadPage>
        requires { 24 ≤ length bytes.now }
        ensures { MatchResult result
            (λ view. (page_of view ≡ bytes.now) × (layout_of_page view ≡ layout_of schema.now) × (count_of view ≡ page_count bytes.now) × IsGoodPage (layout_of schema.now) number bytes.now)
            (λ bad. (bad ≡ bad_page number bytes.now) × (IsGoodPage (layout_of schema.now) number bytes.now → ⊥)) }
    {
        let found = number_in(bytes);
        let count = count_in(bytes);
        // By a product: a listing comes by here for each row, where a division would take longest.
        let rows = count as usize * schema.row_len() as usize;
        if found != number || count == 0 || rows > bytes.len() - 24 {
            return Err(BadPage {
                wanted: number,
                found,
                count: u32::from(count),
            });
        }
        Ok(PageView {
            bytes,
            kind: schema.kind(),
            count: count as usize,
        })
    }

    pub fn rows(&self) -> usize
        ensures { result ≡ count_of self.now }
    {
        self.count
    }

    /// Row i, from 0.
    pub fn row(&self, i: usize) -> RowRef<'b>
        requires { i < count_of self.now }
        ensures layout { layout_of_row result ≡ layout_of_page self.now }
        ensures bytes { bytes_of result ≡ row_at (layout_of_page self.now) (page_of self.now) i }
        ensures row { slice_get (rows_of self.now) i ≡ Some (row_of result) }
    {
        let len = self.kind.row_len() as usize;
        let at = HEADER + i * len;
        let bytes = self.bytes;
        RowRef::of(self.kind, &bytes[at..at + len])
    }

    pub fn first_key(&self) -> u64
        ensures { result ≡ key_at (layout_of_page self.now) (page_of self.now) 0 }
    {
        self.row(0).key()
    }

    /// How many rows have a smaller key, where the keys ascend.
    pub fn seek(&self, key: u64) -> usize
        ensures within { result ≤ count_of self.now }
        ensures below { ((i j : ℕ) → i ≤ j → j < count_of self.now → key_at (layout_of_page self.now) (page_of self.now) i ≤ key_at (layout_of_page self.now) (page_of self.now) j) →
            (i : ℕ) → i < result → key_at (layout_of_page self.now) (page_of self.now) i < key }
        ensures at_least { result < count_of self.now → key ≤ key_at (layout_of_page self.now) (page_of self.now) result }
    {
        let mut low = 0;
        let mut high = self.count;
        while low < high {
            let middle = low + (high - low) / 2;
            if self.row(middle).key() < key {
                low = middle + 1;
            } else {
                high = middle;
            }
        }
        low
    }
}
