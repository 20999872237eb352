// A law of what is told.
ghost use Rattle.fl_command.specs.Line.{FailuresHaveOneLine};

/// The headline of an exit whose number isn't 0 is exactly one line.
pub fn failures_have_one_line()
    ensures { FailuresHaveOneLine }
{}
