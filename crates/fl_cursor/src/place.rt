// Where a cursor is.

/// Where the next row is looked for.
#[derive(Clone, Copy, Debug, PartialEq, Eq)]
pub(crate) enum Place {
    /// In the page of the lowest key that may be given, which isn't known yet.
    Start,
    /// In the kept pages from this one on, none of which was read.
    Pages { next: u32 },
    /// In the page with this number, which is in the buffer, from this row on.
    InPage { number: u32, row: usize },
    /// Among the pending rows, from this one on.
    Pending { row: usize },
    /// No row is left.
    Ended,
}

/// Where the present row is.
#[derive(Clone, Copy, Debug, PartialEq, Eq)]
pub(crate) enum Here {
    Nowhere,
    /// A row of the page with this number, which is in the buffer.
    PageRow { number: u32, row: usize },
    PendingRow { row: usize },
}
