// Laws on ships.
ghost use Rattle.fl_ship.specs.Laws.{ShipsAreSteps, ShipsLeaveParts, ShipsReachTheEnd};
ghost use Rattle.fl_ship.specs.Puts.{ShipsKeep};
ghost use Rattle.fl_ship.specs.Rows.{WorkKeeps};

/// However a ship of records ends, its table keeps a front of what it had and was given, without its oldest records, also once
/// nothing is in memory.
pub fn ships_keep()
    ensures { ShipsKeep }
{}

/// However the work of a ship on its copy ends, also by a cut, the copy's table keeps a front of what it had and was given, without
/// its oldest records, also once nothing is in memory.
pub fn work_keeps()
    ensures { WorkKeeps }
{}

/// A ship between two images, however it ends but in the making of an empty copy, is two steps of a shipment: the copy's mount, and
/// the ship.
pub fn ships_are_steps()
    ensures { ShipsAreSteps }
{}

/// However a ship ends, the copy's table keeps a part of any list of records with ascending keys of which the two tables had parts,
/// also once nothing is in memory.
pub fn ships_leave_parts()
    ensures { ShipsLeaveParts }
{}

/// A ship of fewer records than it may put leaves the source's last record as the copy's last, where the copy had none or its last
/// key was the source's.
pub fn ships_reach_the_end()
    ensures { ShipsReachTheEnd }
{}
