// How a call ends, as its caller is told.
ghost use Rattle.std.specs.Prelude.{◌≡◌, ◌≤◌, length, take};
ghost use Rattle.fl_ends.specs.RunNumber.{number_of};
ghost use Rattle.fl_c.specs.Ending.{line_of, refused};

use fl_session::Status;

/// What keeps the library from a run, or from handing out what it left.
#[derive(Clone, Copy, Debug, PartialEq, Eq)]
pub(crate) enum Refusal {
    /// A buffer of the caller has no room for what the run left.
    TooSmall,
    /// The image is said to be longer than its buffer.
    BadLength,
}

impl Refusal {
    /// The number with which the call ends.
    pub(crate) fn number(self) -> u32
        ensures { result ≡ refused self }
    {
        match self {
            Refusal::TooSmall => 32,
            Refusal::BadLength => 33,
        }
    }
}

/// The line that a status names, and 0 where it names none.
pub(crate) fn line_of(status: &Status) -> u64
    ensures { result ≡ line_of status.now }
{
    match status {
        Status::Line { line } | Status::Config { line } => *line,
        _ => 0,
    }
}

/// Copies bytes to the front of a buffer, and answers how many they are.
pub(crate) fn give(bytes: &[u8], into: &mut [u8]) -> usize
    requires room { length bytes.now ≤ length into.old }
    ensures size { length into.new ≡ length into.old }
    ensures given { take result into.new ≡ bytes.now }
    ensures count { result ≡ length bytes.now }
{
    into[..bytes.len()].copy_from_slice(bytes);
    bytes.len()
}
