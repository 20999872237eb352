// What a session remembers between two commands.
use crate::cost::Cost;
use fl_cursor::Bookmark;

/// A cursor over the table at a place.
#[derive(Clone, Copy)]
pub(crate) struct TableCursor {
    pub(crate) table: usize,
    pub(crate) mark: Bookmark,
}

/// The cost of the last get or scan, and the cursors that are open.
#[derive(Clone, Copy)]
pub(crate) struct Notes {
    pub(crate) cost: Cost,
    pub(crate) cursors: [Option<TableCursor>; 4],
}

/// No cursor is open.
pub(crate) const NO_CURSORS: [Option<TableCursor>; 4] = [None; 4];

impl Notes {
    ghost use Rattle.std.specs.Prelude.{◌≡◌, ◌<◌, Some, slice_get, slice_set};
    ghost use Rattle.fl_session.specs.Notes.{no_notes};

    /// Nothing was executed yet.
    pub(crate) fn new() -> Notes
        ensures { result ≡ no_notes }
    {
        Notes {
            cost: Cost::NothingYet,
            cursors: NO_CURSORS,
        }
    }

    /// The cursor with this number, if it is open.
    pub(crate) fn cursor(&self, n: u64) -> Option<TableCursor>
        requires { n < 4 }
        ensures { slice_get self.now.cursors n ≡ Some result }
    {
        self.cursors[n as usize]
    }

    /// The cursor with this number is this one from then on, or isn't open.
    pub(crate) fn set_cursor(&mut self, n: u64, cursor: Option<TableCursor>)
        requires { n < 4 }
        ensures { self.new ≡ record self.old { cursors = slice_set self.old.cursors n cursor } }
    {
        self.cursors[n as usize] = cursor;
    }
}
