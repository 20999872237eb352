// How a job ends.
ghost use Rattle.std.specs.Prelude.{◌≡◌};
ghost use Rattle.fl_image.specs.Number.{number_of};

/// How a job over an image ends.
#[derive(Clone, Copy, Debug, PartialEq, Eq)]
pub enum ToolStatus {
    /// The job was done, and nothing was wrong.
    Done,
    /// The source failed.
    InputRead,
    /// The sink failed.
    OutWrite,
    /// The input has more bytes than are read.
    InputLong,
    /// There is no memory.
    NoMemory,
    /// The medium is no image: its first bytes are not the header of a configuration, or its length is not that one's.
    NotImage,
    /// The medium failed.
    Device,
    /// The pages of this table, counted from 0, were not left by a table.
    BadImage { table: u32 },
    /// No table of the image has the name.
    NoTable,
    /// This line of an import isn't the line of the names, though it is the first, or has more than 4,096 bytes.
    BadInput { line: u64 },
    /// A check found a fault, and has told it.
    Unsound,
}

impl ToolStatus {
    /// The number with which the program ends.
    pub fn number(self) -> u8
        ensures { result ≡ number_of self }
    {
        match self {
            ToolStatus::Done => 0,
            ToolStatus::InputRead => 3,
            ToolStatus::OutWrite => 4,
            ToolStatus::InputLong => 8,
            ToolStatus::NoMemory => 9,
            ToolStatus::NotImage => 11,
            ToolStatus::Device => 12,
            ToolStatus::BadImage { table: _ } => 13,
            ToolStatus::NoTable => 14,
            ToolStatus::BadInput { line: _ } => 15,
            ToolStatus::Unsound => 16,
        }
    }
}
