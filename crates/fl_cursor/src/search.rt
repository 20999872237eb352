// The first row that is still to be given, among those of a page and among the pending ones.
ghost use Rattle.std.specs.Prelude.{◌≡◌, ◌≤◌, length, drop};
ghost use Rattle.fl_page.specs.View.{layout_of_page, count_of, rows_of};
ghost use Rattle.fl_table.specs.Look.{buffered_rows};
ghost use Rattle.fl_table.specs.Memory.{pending_in};

use crate::Bookmark;
use fl_page::PageView;
use fl_table::Table;

/// Where the first row is that is still to be given.
#[derive(Clone, Copy, Debug, PartialEq, Eq)]
pub(crate) enum Sought {
    /// It has this place.
    Row(usize),
    /// It is none of these, and may be behind them.
    Behind,
    /// There is none.
    Nowhere,
}

#[tactic(auto, using(crate::proofs::SearchedRows::searching))]
impl Bookmark {
    ghost use Rattle.fl_cursor.specs.Asked.{asked_by};
    ghost use Rattle.fl_cursor.specs.Sought.{first_left};

    pub(crate) fn first_in_page(&self, view: &PageView<'_, 8>, from: usize) -> Sought
        requires columns { 1 ≤ length (layout_of_page view.now).columns }
        requires within { from ≤ count_of view.now }
        ensures { result ≡ first_left (asked_by self.now) (drop from (rows_of view.now)) from }
    {
        for i in from..view.rows() {
            let row = view.row(i);
            if self.wants(&row) {
                return Sought::Row(i);
            }
            if self.is_last(row.key()) {
                return Sought::Nowhere;
            }
        }
        Sought::Behind
    }

    pub(crate) fn first_pending<const KNOTS: usize, const SLOTS: usize>(
        &self,
        table: &Table<KNOTS, SLOTS>,
        from: usize,
    ) -> Sought
        requires within { from ≤ pending_in table.now }
        ensures { result ≡ first_left (asked_by self.now) (drop from (buffered_rows table.now)) from }
    {
        for i in from..table.pending_rows() as usize {
            let row = table.pending_row(i);
            if self.wants(&row) {
                return Sought::Row(i);
            }
            if self.is_last(row.key()) {
                return Sought::Nowhere;
            }
        }
        Sought::Behind
    }
}
