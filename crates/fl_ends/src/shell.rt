// How a shell ends.
ghost use Rattle.std.specs.Prelude.{◌≡◌, true};
ghost use Rattle.fl_ends.specs.ShellNumber.{number_of};

/// How a shell ends.
#[derive(Clone, Copy, Debug, PartialEq, Eq)]
pub enum ShellStatus {
    /// The input was read to its end.
    Done,
    /// The source failed.
    InputRead,
    /// The sink failed.
    OutWrite,
    /// The medium failed while the image was made or its header was read.
    MediaMake,
    /// The input ended before the configuration of a new image was whole.
    Unconfigured,
    /// The input has more than 17,592,186,044,416 bytes.
    InputLong,
    /// There is no memory, and no command was executed.
    NoMemory,
    /// The medium isn't empty and is no image.
    NotImage,
    /// The input was read to its end, and then a flush failed.
    Unflushed,
}

impl ShellStatus {
    /// The number with which the program ends.
    pub fn number(self) -> u8
        ensures { result ≡ number_of self }
    {
        match self {
            ShellStatus::Done => 0,
            ShellStatus::InputRead => 3,
            ShellStatus::OutWrite => 4,
            ShellStatus::MediaMake => 5,
            ShellStatus::Unconfigured => 6,
            ShellStatus::InputLong => 8,
            ShellStatus::NoMemory => 9,
            ShellStatus::NotImage => 11,
            ShellStatus::Unflushed => 12,
        }
    }
}

/// What became of the rows that were pending when a shell ended.
#[derive(Clone, Copy, Debug, PartialEq, Eq)]
pub struct Flushed {
    /// How many were pending.
    pub pending: u64,
    /// Whether each of them was flushed.
    pub all: bool,
}

/// How a shell ends, and what became of the rows that were pending.
#[derive(Clone, Copy, Debug, PartialEq, Eq)]
pub struct ShellEnd {
    /// How it ends.
    pub status: ShellStatus,
    /// What was flushed at the end.
    pub flushed: Flushed,
}

impl ShellEnd {
    /// An end before which nothing was pending.
    pub fn of(status: ShellStatus) -> ShellEnd
        ensures status { result.status ≡ status }
        ensures flushed { result.flushed ≡ record { pending = 0; all = true } }
    {
        ShellEnd {
            status,
            flushed: Flushed {
                pending: 0,
                all: true,
            },
        }
    }
}
