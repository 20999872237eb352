// What the calls of a table answer.
use fl_table::{FlushFault, MountFault, Mounted, PutRefusal};

/// The key of the row that is found, how many pages were read for it and how many may be, and the page of the key.
pub(crate) type Lookup = (Option<u64>, u64, u64, Option<u32>);

#[derive(Clone, Copy, PartialEq)]
pub(crate) enum Answer {
    /// The rows, the pages and the void pages that a mount found.
    Found(u64, u32, u32),
    Unmounted(MountFault),
    Taken,
    Refused(PutRefusal),
    Flushed,
    Unflushed(FlushFault),
    /// Whether the table is mounted, and whether it is stopped.
    Stands(bool, bool),
    LookedUp(Lookup),
    /// All bytes of a blob were read.
    Whole,
    Gone,
    /// The table is down, or a read failed or gave other bytes.
    Unread,
}

pub(crate) fn of_mount(mounted: Result<Mounted, MountFault>) -> Answer {
    match mounted {
        Ok(found) => Answer::Found(found.rows, found.pages, found.voids),
        Err(fault) => Answer::Unmounted(fault),
    }
}

pub(crate) fn of_put(put: Result<(), PutRefusal>) -> Answer {
    match put {
        Ok(()) => Answer::Taken,
        Err(refusal) => Answer::Refused(refusal),
    }
}

pub(crate) fn of_flush(flushed: Result<(), FlushFault>) -> Answer {
    match flushed {
        Ok(()) => Answer::Flushed,
        Err(fault) => Answer::Unflushed(fault),
    }
}
