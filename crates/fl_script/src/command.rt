// What a line of a script asks for, and what is wrong with one.
use arrayvec::ArrayVec;
use fl_base::{CutKind, KeyRange, Name, Op, Span};

/// The command that a line is. The blob of a put and the column types of a table line stand in the `LineRoom`
/// that the line was read into.
#[derive(Drop)]
pub enum Command {
    /// An empty line or a comment.
    Nothing,
    /// Bytes per page, pages per block.
    Device {
        page: u64,
        block: u64,
    },
    /// `rows`, `index` and `var` are the blocks of the three rings, `blob` is the greatest length of a blob, `full` says whether
    /// index entries are full, and `log` has the blocks of a log, where the line ends with them.
    Table {
        name: Name,
        key: u64,
        rows: u64,
        index: u64,
        var: u64,
        bits: u64,
        base: i64,
        width: u64,
        error: u64,
        blob: u64,
        full: bool,
        log: Option<u64>,
    },
    Mount,
    Off,
    /// The `n`th operation from now on is torn.
    Cut {
        n: u64,
        kind: CutKind,
    },
    /// `blob` says whether there is a blob word.
    Put {
        name: Name,
        key: u64,
        values: ArrayVec<i64, 16>,
        blob: bool,
    },
    Flush {
        name: Name,
    },
    Get {
        name: Name,
        key: u64,
    },
    Blob {
        name: Name,
        key: u64,
    },
    Scan {
        name: Name,
        range: KeyRange,
        span: Option<Span>,
    },
    Open {
        cursor: u64,
        name: Name,
        range: KeyRange,
        span: Option<Span>,
    },
    Next {
        cursor: u64,
        count: u64,
    },
    Close {
        cursor: u64,
    },
    Select {
        name: Name,
        range: KeyRange,
        column: u64,
        op: Op,
        value: i64,
    },
    Project {
        name: Name,
        range: KeyRange,
        columns: ArrayVec<u64, 8>,
    },
    Agg {
        name: Name,
        range: KeyRange,
        column: u64,
        width: u64,
    },
    Join {
        left: Name,
        right: Name,
        range: KeyRange,
    },
    Stat {
        name: Name,
    },
    Cost,
    Load {
        name: Name,
        count: u64,
        step: u64,
        seed: u64,
    },
}

/// What is wrong with a line. Of several the first in the order TooLong, Unknown, Form, Number is told.
#[derive(Clone, Copy, Debug, PartialEq, Eq)]
pub enum LineFault {
    /// The first word isn't a command's.
    Unknown,
    /// The number of words doesn't fit, or a word isn't of its form.
    Form,
    /// A word in the place of a number isn't one, or is out of its range.
    Number,
    /// The line has more than 4,096 bytes.
    TooLong,
}
