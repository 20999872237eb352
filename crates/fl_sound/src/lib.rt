//! The laws that tie the check of an image to the store's promise: an image that stands for a state of the model is sound, and a sound
//! table is one that a mount takes.
#![tactic(auto)]

ghost use Rattle.fl_sound.specs.Mounts.{SoundTablesMount, TablesAreAsRunsLeave};
ghost use Rattle.fl_sound.specs.Sound.{TablesAreSound};

/// Of a table for which a flash stands, and so of each table of an image, a check finds that it is sound, and nothing else:
/// with the rows that the table keeps, their pages, and those of them that are void.
pub fn tables_are_sound()
    ensures { TablesAreSound }
{}

/// Where a check finds a table sound, the flash's pages are the image of a table of the model with as many rows, kept pages and void ones,
/// and with the numbers that the rules give to them. If the table has no log, a mount ends as the clause `alone` of `LoggedTable::mount`
/// says. The flash stands for that table if page numbers are left, no blob begins in a void page, and its log is as runs leave it. So a
/// mount ends as the clause `ends` of `LoggedTable::mount` says, and whatever records its log has, as the clause `apart` does; for that a
/// table without variable data, as each with a log is, needs only numbers, which are left while no put is refused for want of them.
pub fn sound_tables_mount()
    ensures { SoundTablesMount }
{}

/// Each table for which a flash stands between runs has what `sound_tables_mount` asks for: page numbers are left, no blob that isn't gone
/// begins in a void page, and its log is as runs leave it.
pub fn tables_are_as_runs_leave()
    ensures { TablesAreAsRunsLeave }
{}
