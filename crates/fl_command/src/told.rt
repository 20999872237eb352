// How much of an ending is told.
ghost use Rattle.std.specs.Prelude.{◌≡◌};
ghost use Rattle.std.specs.Process.{exit_status};
ghost use Rattle.fl_command.specs.Number.{number_of};
ghost use Rattle.fl_command.specs.Told.{is_told_whole};

use crate::Ending;
use crate::exit::ExitHeadline;
use std::fmt::{self, Display};
use std::process::{ExitCode, Termination};

/// How much of an ending that failed stands on standard error. What stands there beside status 0 is no explanation.
#[derive(Clone, Copy)]
pub enum Telling {
    /// The one line of its exit, which programs compare.
    Headline,
    /// Below that line also why, where and what to do, which people read.
    Explained,
}

/// An ending, and how much of it is told.
#[derive(Clone, Copy)]
pub struct Told {
    /// How the program ends.
    pub ending: Ending,
    /// How much of it is told if it failed.
    pub telling: Telling,
}

impl Told {
    /// Whether all lines of the ending are told: beside status 0, and where explanations are wanted.
    fn is_whole(&self) -> bool
        ensures { result ≡ is_told_whole self.now }
    {
        match self.telling {
            Telling::Explained => true,
            Telling::Headline => self.ending.exit.number() == 0,
        }
    }
}

/// The lines that standard error has: all of the ending, or of one that failed and isn't explained the headline alone.
impl Display for Told {
    ghost use Rattle.fl_command.specs.Told.{told_text};

    ghost output = { told_text };

    fn fmt<W: fmt::Write>(&self, f: &mut fmt::Formatter<W>) -> fmt::Result {
        if self.is_whole() {
            self.ending.fmt(f)
        } else {
            ExitHeadline(self.ending.exit).fmt(f)
        }
    }
}

/// `main` returns what is told, so that each of its ends has the number. The lines are printed before; that standard error takes
/// them no clause can say.
impl Termination for Told {
    fn report<R: Eprint>(self, rt: &R) -> ExitCode
        ensures { exit_status result ≡ number_of self.ending.exit }
    {
        let _ = eprint!(rt; "{self}");
        self.ending.code()
    }
}
