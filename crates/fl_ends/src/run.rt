// How a run ends.
ghost use Rattle.std.specs.Prelude.{◌≡◌};
ghost use Rattle.fl_ends.specs.RunNumber.{number_of};

use crate::PendingRows;

/// How a run ends. A line counts from 1.
#[derive(Clone, Copy, Debug, PartialEq, Eq)]
pub enum Status {
    /// The script was read to its end, and every command line had its reply. These rows were pending then, and are lost.
    Done { pending: PendingRows },
    /// The words don't name an image.
    Usage,
    /// The line isn't a command, or configures behind a command.
    Line { line: u64 },
    /// The source failed.
    ScriptRead,
    /// The sink failed.
    OutWrite,
    /// The medium failed while the image was made or its header was read.
    MediaMake,
    /// The line of the configuration is refused; at line 0 the configuration is incomplete.
    Config { line: u64 },
    /// The medium is one of another configuration: by its length, where `at` is 1024, or by the byte `at` of its header.
    OtherConfig { wanted: u64, found: u64, at: u32 },
    /// The script has more than 16,777,216 bytes.
    ScriptLong,
    /// There is no memory.
    NoMemory,
}

impl Status {
    /// The number with which the program ends, from 0 to 9, in the order in which the statuses stand here.
    pub fn number(self) -> u8
        ensures { result ≡ number_of self }
    {
        match self {
            Status::Done { .. } => 0,
            Status::Usage => 1,
            Status::Line { .. } => 2,
            Status::ScriptRead => 3,
            Status::OutWrite => 4,
            Status::MediaMake => 5,
            Status::Config { .. } => 6,
            Status::OtherConfig { .. } => 7,
            Status::ScriptLong => 8,
            Status::NoMemory => 9,
        }
    }
}
