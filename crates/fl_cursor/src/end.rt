// Where the pages of a cursor end.
ghost use Rattle.std.specs.Prelude.{◌≡◌};
ghost use Rattle.fl_table.specs.Memory.{next_in};

use crate::Bookmark;
use fl_table::Table;

impl Bookmark {
    ghost use Rattle.fl_cursor.specs.Ends.{EndsPages};
    ghost use Rattle.fl_cursor.specs.Sound.{pages_end};

    /// The number after the last kept page that may have a row that is still to be given, where `next` is that of the
    /// next page.
    pub(crate) fn end_of_pages<const KNOTS: usize, const SLOTS: usize>(
        &self,
        table: &Table<KNOTS, SLOTS>,
        next: u32,
    ) -> u32
        requires next { next ≡ next_in table.now }
        ensures exact { result ≡ pages_end table.now self.now.top }
        ensures ends { EndsPages table.now self.now.top result }
    {
        match self.top {
            Some(top) => table.end_of_pages(top),
            None => next,
        }
    }
}
