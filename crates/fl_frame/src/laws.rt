// Laws on calls of a flash.
ghost use Rattle.fl_frame.specs.Laws.{UnarmedLosesNoPower};

/// A flash that is on, and on which no cut is armed, loses no power, over any bytes: neither in a call nor in some, one after
/// another, after which it is on and none is armed still.
pub fn unarmed_flash_loses_no_power()
    ensures { UnarmedLosesNoPower }
{}
