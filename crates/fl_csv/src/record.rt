// What is written and read: the blob of a record, a record that was read, and why a call fails.
ghost use Rattle.std.specs.Prelude.{◌≡◌};

use arrayvec::ArrayVec;
use fl_base::SinkFailed;
use std::marker::Model;

/// What a record's line tells of its blob.
#[derive(Clone, Copy)]
pub enum CsvBlob<'a> {
    /// The records have no blobs, so that there is no field for one.
    Absent,
    /// This record has none: an empty field.
    Nothing,
    /// Its bytes: two lower-case hexadecimal digits for each, or `-` where there are no bytes.
    Bytes(&'a [u8]),
    /// A blob of no bytes: `-`.
    Empty,
    /// It had one, whose bytes are gone: `gone`.
    Gone,
}

/// The bytes of a blob that was read.
#[derive(Drop)]
pub struct BlobBytes {
    bytes: Vec<u8>,
}

impl Model for BlobBytes {
    ghost use Rattle.std.specs.Prelude.{List, ℕ};

    ghost Value = { List ℕ };

    ghost view = { λ b. b.bytes.items };
}

impl BlobBytes {
    pub(crate) fn of(bytes: Vec<u8>) -> BlobBytes
        ensures { result ≡ bytes.items }
    {
        BlobBytes { bytes }
    }

    /// All of them.
    pub fn bytes(&self) -> &[u8]
        ensures { result.now ≡ self.now }
    {
        &self.bytes
    }
}

/// A record that a line is.
#[derive(Drop)]
pub struct CsvPut {
    /// The key.
    pub key: u64,
    /// A value for each column.
    pub values: ArrayVec<i64, 8>,
    /// The blob, where the record has one.
    pub blob: Option<BlobBytes>,
    /// Whether it had one that is gone, and is read without it.
    pub gone: bool,
}

/// What becomes of a line whose blob's field is `gone`.
#[derive(Clone, Copy, Debug, PartialEq, Eq)]
pub enum GoneBlobs {
    /// It is refused, as that field isn't of its form.
    Refused,
    /// It is a record without a blob.
    LeftOut,
}

/// The form of the lines of a table.
#[derive(Clone, Copy, Debug, PartialEq, Eq)]
pub struct LineForm {
    /// How many columns the table has.
    pub columns: usize,
    /// Whether its records have blobs.
    pub blobs: bool,
}

/// Why a record wasn't written.
#[derive(Clone, Copy, Debug, PartialEq, Eq)]
pub enum CsvFault {
    /// The sink failed, and may have taken a front of the line.
    Sink(SinkFailed),
    /// Memory ran out, and nothing was written.
    NoMemory,
}

/// Why a line is no record.
#[derive(Clone, Copy, Debug, PartialEq, Eq)]
pub enum CsvRefusal {
    /// The line isn't one record of CSV: it is none, or more than one.
    Csv,
    /// It has another number of fields than are wanted.
    Fields {
        /// The key, the values, and the blob where there are blobs.
        wanted: u32,
    },
    /// A field isn't of its form: a number, a signed number, or of a blob nothing, `-` or pairs of hexadecimal digits.
    Number {
        /// The first such field, from 1.
        field: u32,
    },
    /// Memory ran out. It may at any moment.
    NoMemory,
}
