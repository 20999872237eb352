// What a command says.
use arrayvec::ArrayVec;
use fl_base::Name;

/// How a row line ends.
#[derive(Clone, Copy, Debug, PartialEq, Eq)]
pub enum BlobNote {
    /// The table keeps no blobs: nothing is added.
    NoRing,
    /// The record has no blob.
    Nothing,
    /// The length of the record's blob.
    Length(u32),
}

/// A line that a command says. `BytesBegin` and `LineEnd` are the two ends of one line, between which stand the
/// digits of a blob.
#[derive(Drop)]
pub enum Reply {
    Done,
    AlreadyMounted,
    NotMounted,
    NoTable,
    NoCursor,
    NoColumn {
        column: u64,
    },
    RefusedKey {
        last: u64,
    },
    RefusedColumns {
        wanted: u32,
    },
    RefusedValue {
        column: u32,
    },
    RefusedBlob {
        limit: u32,
    },
    RefusedSpent,
    PowerLost,
    DeviceFault,
    BadImage {
        name: Name,
    },
    Row {
        key: u64,
        values: ArrayVec<i64, 8>,
        blob: BlobNote,
    },
    /// The fields of a projected row, where column 0 is the key.
    Fields {
        fields: ArrayVec<i128, 8>,
    },
    Absent,
    BytesBegin,
    BytesEmpty,
    LineEnd,
    NoBlob,
    Gone,
    Group {
        group: u64,
        count: u64,
        least: i128,
        greatest: i128,
        sum: i128,
        mean: i128,
    },
    Pair {
        key: u64,
        left: ArrayVec<i64, 8>,
        right: ArrayVec<i64, 8>,
    },
    EndCount {
        count: u64,
    },
    More,
    CursorEnd,
    ReadFault,
    BadPage {
        number: u32,
    },
    Stat {
        rows: u64,
        pending: u32,
        pages: u32,
        voids: u32,
        programs: u64,
        erases: u64,
    },
    CostGet {
        reads: u64,
        limit: u64,
    },
    CostScan {
        reads: u64,
    },
    NoCost,
    Loaded {
        count: u64,
    },
}
