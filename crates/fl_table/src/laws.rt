// A law on mounts, one after another.
ghost use Rattle.fl_table.specs.Laws.{MountsMayFollow};

/// What a mount leaves on the pages of a table, whether it ended well or failed, is one that a further mount may be given, if a ring
/// whose pages are all void has its numbers behind those that name it.
pub fn mounts_may_follow()
    ensures { MountsMayFollow }
{}
