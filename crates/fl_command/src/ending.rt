// What is told at the end of the program.
ghost use Rattle.std.specs.Prelude.{◌≡◌, false, None};
ghost use Rattle.std.specs.Process.{exit_status};
ghost use Rattle.fl_command.specs.Number.{number_of};

use crate::Exit;
use fl_reason::Reason;
use std::fmt::{self, Display};
use std::process::ExitCode;

/// How the program ends, and what is told behind the lines of its exit.
#[derive(Clone, Copy)]
pub struct Ending {
    /// How it ends.
    pub exit: Exit,
    /// Why, where a script was refused and the reason is known.
    pub reason: Option<Reason>,
    /// Whether an image was made.
    pub made: bool,
}

impl Ending {
    /// This exit, with nothing behind its lines.
    pub fn of(exit: Exit) -> Ending
        ensures exit { result.exit ≡ exit }
        ensures alone { (result.reason ≡ None) × (result.made ≡ false) }
    {
        Ending {
            exit,
            reason: None,
            made: false,
        }
    }

    /// The code with which the program ends: the number of the exit.
    pub fn code(self) -> ExitCode
        ensures { exit_status result ≡ number_of self.exit }
    {
        ExitCode::from(self.exit.number())
    }
}

/// All lines that standard error has of an ending: those of the exit, and behind them why, and that an image was made.
impl Display for Ending {
    ghost use Rattle.fl_command.specs.Told.{ending_text};

    ghost output = { ending_text };

    fn fmt<W: fmt::Write>(&self, f: &mut fmt::Formatter<W>) -> fmt::Result {
        self.exit.fmt(f)?;
        ReasonLine(self.reason).fmt(f)?;
        MadeLine(self.made).fmt(f)
    }
}

/// Why a line is refused, where that is known.
#[derive(Drop)]
struct ReasonLine(Option<Reason>);

impl Display for ReasonLine {
    ghost use Rattle.fl_command.specs.Told.{reason_text};

    ghost output = { λ line. reason_text line.0 };

    fn fmt<W: fmt::Write>(&self, f: &mut fmt::Formatter<W>) -> fmt::Result {
        match &self.0 {
            Some(reason) => writeln!(f, "flashts: {reason}"),
            None => Ok(()),
        }
    }
}

/// That an image was made, if it was.
#[derive(Drop)]
struct MadeLine(bool);

impl Display for MadeLine {
    ghost use Rattle.std.specs.Prelude.{Some};
    ghost use Rattle.fl_command.specs.Told.{made_text};

    ghost output = { λ line. Some (made_text line.0) };

    fn fmt<W: fmt::Write>(&self, f: &mut fmt::Formatter<W>) -> fmt::Result {
        if self.0 {
            f.write_str("flashts: a new image was made\n")
        } else {
            Ok(())
        }
    }
}
