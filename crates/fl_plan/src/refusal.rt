// Why a configuration is refused.
use fl_base::NoMemory as OutOfMemory;

/// Why a configuration line or the configuration of a table is refused: the first of these that applies, but for
/// `NoMemory`, which comes after them.
#[derive(Clone, Copy, Debug, PartialEq, Eq)]
pub enum ConfigRefusal {
    /// A second device line.
    DeviceTwice,
    /// A table line before the device line.
    TableFirst,
    /// A page has fewer than 64 bytes, more than 4,096, or no multiple of 8.
    PageSize,
    /// A block has fewer than 2 pages or more than 256.
    BlockSize,
    /// A fifth table line.
    TooManyTables,
    /// An earlier table has the name.
    NameTaken,
    /// A key has neither 4 nor 8 bytes.
    KeyWidth,
    /// A column has no type, or there is no column.
    ColumnType,
    /// More than 8 columns.
    ColumnCount,
    /// The data ring has fewer than 3 blocks or more than 16,384.
    DataBlocks,
    /// There is an index ring, and it has fewer than 3 blocks or more than 16,384.
    IndexBlocks,
    /// There is a ring of variable data, and it has fewer than 3 blocks or more than 16,384.
    VarBlocks,
    /// The number of buckets is none of 0, 8, 16 and 64, or there is an index ring and no buckets.
    Bits,
    /// A bucket has no width, or one above 2^63 - 1.
    Width,
    /// The error bound of the spline is above 255.
    ErrorBound,
    /// Without a ring of variable data the greatest length of a blob isn't 0. With one it is 0, above 1,500, or more
    /// than the ring keeps.
    BlobLimit,
    /// A row is longer than a page has room for.
    RowTooLong,
    /// The rings have more than 65,536 pages or more than 67,108,864 bytes.
    DeviceTooLarge,
    /// Index entries are to be full, and there is no index ring.
    Format,
    /// There is a log, and it has fewer than 3 blocks or more than 16,384.
    LogBlocks,
    /// There are a log and a ring of variable data.
    LogVar,
    /// Memory ran out.
    NoMemory,
}

impl From<OutOfMemory> for ConfigRefusal {
    ghost use Rattle.std.specs.Prelude.{◌≡◌};
    ghost use Rattle.fl_plan.specs.declared.refusal.ConfigRefusal.TheVariants.{NoMemory};

    ghost from_gives = { λ _ refusal. refusal ≡ NoMemory };

    fn from(_: OutOfMemory) -> Self {
        ConfigRefusal::NoMemory
    }
}
