// What a cursor asks for, and how far it is.
ghost use Rattle.std.specs.Prelude.{◌≡◌, ◌≤◌, length};
ghost use Rattle.fl_schema.specs.Schema.{layout_of_row, row_of};

use fl_base::{KeyRange, Span};
use fl_schema::RowRef;

/// What is kept of a cursor between two uses. It stays good across puts, flushes and reclaimed pages.
#[derive(Clone, Copy, Debug, PartialEq, Eq)]
pub struct Bookmark {
    /// The key given last.
    pub after: Option<u64>,
    /// The greatest key that may be given: none where the table had no row at the beginning.
    pub top: Option<u64>,
    pub range: KeyRange,
    /// Values of the first column, where only some are asked for.
    pub span: Option<Span>,
}

impl Bookmark {
    ghost use Rattle.fl_model.specs.Query as query;
    ghost use Rattle.fl_cursor.specs.Asked as asked;
    ghost use Rattle.fl_cursor.specs.Asked.{asked_by, is_left, row_matches};

    fn is_above(&self, key: u64) -> bool
        ensures { result ≡ query.is_above self.now.after key }
    {
        match self.after {
            Some(after) => after < key,
            None => true,
        }
    }

    pub(crate) fn is_up_to(&self, key: u64) -> bool
        ensures { result ≡ query.is_up_to self.now.top key }
    {
        match self.top {
            Some(top) => key <= top,
            None => false,
        }
    }

    /// Whether no greater key may be given.
    pub(crate) fn is_last(&self, key: u64) -> bool
        ensures { result ≡ asked.is_last self.now.top key }
    {
        match self.top {
            Some(top) => top <= key,
            None => true,
        }
    }

    fn matches(&self, row: &RowRef<'_>) -> bool
        requires { 1 ≤ length (layout_of_row row.now).columns }
        ensures { result ≡ row_matches self.now.range self.now.span (row_of row.now) }
    {
        let key = row.key();
        if key < self.range.low {
            return false;
        }
        if self.range.high < key {
            return false;
        }
        let Some(span) = self.span else {
            return true;
        };
        let value = row.value(0);
        if value < span.low {
            return false;
        }
        value <= span.high
    }

    /// Whether the row is still to be given.
    pub(crate) fn wants(&self, row: &RowRef<'_>) -> bool
        requires { 1 ≤ length (layout_of_row row.now).columns }
        ensures { result ≡ is_left (asked_by self.now) (row_of row.now) }
    {
        let key = row.key();
        self.matches(row) && self.is_above(key) && self.is_up_to(key)
    }
}
