// Laws on the sizes.
ghost use Rattle.fl_sizing.specs.Laws.{RingsKeep, RowsAreKept, IndexIsEnough, FullRingsReadMost, FullEntriesReadMost};

/// However many pages are sealed in a ring, at least as many of them are kept as are told, or all of them, and at most a block less one
/// page more.
pub fn rings_keep()
    ensures { RingsKeep }
{}

/// However many full pages of rows are sealed, at least as many rows are kept as are told, or all of them.
pub fn rows_are_kept()
    ensures { RowsAreKept }
{}

/// The index pages that are told have room for the entries of as many data pages as are ever kept, and the blocks that are told always keep these index pages.
pub fn index_is_enough()
    ensures { IndexIsEnough }
{}

/// A ring that has no void pages at its end is mounted by no more reads than a full one.
pub fn full_rings_read_most()
    ensures { FullRingsReadMost }
{}

/// A table with full index entries, without void pages at the ends of its rings, is mounted by no more reads than are told, where no
/// more data pages are unlisted than are counted: as many as an index page lists, or those for which the kept index pages have no room.
pub fn full_entries_read_most()
    ensures { FullEntriesReadMost }
{}
