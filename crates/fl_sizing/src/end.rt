// How a plan ends.
ghost use Rattle.std.specs.Prelude.{◌≡◌, None};
ghost use Rattle.fl_sizing.specs.Number.{number_of};

use fl_reason::Reason;

/// How a plan ends.
#[derive(Clone, Copy, Debug, PartialEq, Eq)]
pub enum PlanStatus {
    /// The figures were written.
    Done,
    /// This line, counted from 1, is no command.
    Line { line: u64 },
    /// This line of the configuration is refused; with 0 it has no device line, or no table.
    Config { line: u64 },
    /// The source failed.
    InputRead,
    /// The sink failed.
    OutWrite,
    /// The text has more bytes than are read.
    InputLong,
    /// There is no memory.
    NoMemory,
}

impl PlanStatus {
    /// The number with which the program ends: that of a run that ends for the same cause.
    pub fn number(self) -> u8
        ensures { result ≡ number_of self }
    {
        match self {
            PlanStatus::Done => 0,
            PlanStatus::Line { line: _ } => 2,
            PlanStatus::InputRead => 3,
            PlanStatus::OutWrite => 4,
            PlanStatus::Config { line: _ } => 6,
            PlanStatus::InputLong => 8,
            PlanStatus::NoMemory => 9,
        }
    }
}

/// How a plan ends, and why where a line was refused.
#[derive(Clone, Copy)]
pub struct PlanEnd {
    pub status: PlanStatus,
    pub reason: Option<Reason>,
}

impl PlanEnd {
    /// An end by no line.
    pub(crate) fn of(status: PlanStatus) -> PlanEnd
        ensures { result ≡ record { status = status; reason = None } }
    {
        PlanEnd {
            status,
            reason: None,
        }
    }
}
