// Why a put and a flush of a table fail.
use fl_flash::FlashFault;

/// Why a record isn't put: the first of these that applies, but for `Stopped`, which comes before them.
#[derive(Clone, Copy, Debug, PartialEq, Eq)]
pub enum PutRefusal {
    /// The key isn't above that of the last record.
    Key { last: u64 },
    /// The number of values isn't that of the columns.
    Columns { wanted: u32 },
    /// The value of this column, counted from 1, doesn't fit it. 0 stands for the key.
    Value { column: u32 },
    /// There is a blob, and the table keeps none, or none of this length.
    Blob { limit: u32 },
    /// There is no page number left.
    Spent,
    /// A program or erase failed since the mount, or the table isn't mounted.
    Stopped,
    /// A program or erase of this call failed.
    Flash(FlashFault),
}

/// Why a table isn't flushed.
#[derive(Clone, Copy, Debug, PartialEq, Eq)]
pub enum FlushFault {
    /// A program or erase failed since the mount, or the table isn't mounted.
    Stopped,
    /// A program or erase of this call failed.
    Flash(FlashFault),
}

impl From<FlashFault> for PutRefusal {
    ghost use Rattle.std.specs.Prelude.{◌≡◌};
    ghost use Rattle.fl_table.specs.declared.faults.PutRefusal.{PutRefusal};

    ghost from_gives = { λ fault refusal. refusal ≡ PutRefusal.Flash fault };

    fn from(fault: FlashFault) -> PutRefusal {
        PutRefusal::Flash(fault)
    }
}

impl From<FlashFault> for FlushFault {
    ghost use Rattle.std.specs.Prelude.{◌≡◌};
    ghost use Rattle.fl_table.specs.declared.faults.FlushFault.{FlushFault};

    ghost from_gives = { λ fault refusal. refusal ≡ FlushFault.Flash fault };

    fn from(fault: FlashFault) -> FlushFault {
        FlushFault::Flash(fault)
    }
}
