// Laws on what the contracts of a session say.
ghost use Rattle.fl_session.specs.Operations.{CommandsAreExact};
ghost use Rattle.fl_session.specs.Unarmed.{UncutLosesNoPower};

/// Each command that a session executes, where the medium doesn't fail and no cut falls into an operation, programs and
/// erases as often as its operations say, where the count isn't at its end, and leaves the medium that they leave.
pub fn commands_are_exact()
    ensures { CommandsAreExact }
{}

/// Over any bytes commands of which none is a cut leave none armed, where none was, and where none is armed no command is
/// answered with `power lost`.
pub fn uncut_commands_lose_no_power()
    ensures { UncutLosesNoPower }
{}
