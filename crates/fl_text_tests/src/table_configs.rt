// Configurations of one table, and the answer to each.
use crate::asserts::{same, same_at};
use arrayvec::ArrayVec;
use fl_base::{Geometry, RingPlace};
use fl_plan::{ConfigRefusal, TableConfig};
use fl_schema::{ColumnType, KeyWidth};

/// Pages per block, bytes per page, blocks of the three rings, the error bound and the greatest length of a blob.
type Numbers = (u32, u32, u32, Option<u32>, Option<u32>, u32, u32);

fn ring(blocks: u32) -> RingPlace {
    RingPlace {
        first_block: 0,
        blocks,
    }
}

fn table(numbers: Numbers, columns: ArrayVec<ColumnType, 8>) -> TableConfig {
    let (block, page, rows, index, var, error, blob_limit) = numbers;
    TableConfig {
        geometry: Geometry { page, block },
        key: KeyWidth::Eight,
        columns,
        rows: ring(rows),
        index: index.map(ring),
        var: var.map(ring),
        buckets: None,
        error,
        blob_limit,
        full_index: false,
    }
}

/// The same with one column.
fn with_column(numbers: Numbers) -> TableConfig {
    let mut columns = ArrayVec::new();
    columns.push(ColumnType::I32);
    table(numbers, columns)
}

/// Tables with one column, and the answer to each.
const ANSWERS: &[(Numbers, Result<(), ConfigRefusal>)] = &[
    ((2, 128, 3, None, Some(3), 1, 224), Ok(())),
    ((2, 56, 2, None, None, 256, 1), Err(ConfigRefusal::PageSize)),
    ((2, 4104, 3, None, None, 1, 0), Err(ConfigRefusal::PageSize)),
    ((2, 100, 3, None, None, 1, 0), Err(ConfigRefusal::PageSize)),
    ((1, 128, 2, None, None, 1, 0), Err(ConfigRefusal::BlockSize)),
    (
        (257, 128, 3, None, None, 1, 0),
        Err(ConfigRefusal::BlockSize),
    ),
    (
        (2, 128, 2, Some(2), None, 1, 0),
        Err(ConfigRefusal::DataBlocks),
    ),
    (
        (2, 128, 3, Some(0), Some(2), 1, 0),
        Err(ConfigRefusal::IndexBlocks),
    ),
    (
        (2, 128, 3, None, Some(16385), 256, 0),
        Err(ConfigRefusal::VarBlocks),
    ),
    ((2, 128, 3, Some(3), None, 256, 0), Err(ConfigRefusal::Bits)),
    (
        (2, 128, 3, None, None, 256, 1),
        Err(ConfigRefusal::ErrorBound),
    ),
    ((2, 128, 3, None, None, 1, 1), Err(ConfigRefusal::BlobLimit)),
    (
        (2, 128, 3, None, Some(3), 1, 225),
        Err(ConfigRefusal::BlobLimit),
    ),
    (
        (256, 128, 3, None, Some(3), 1, 1501),
        Err(ConfigRefusal::BlobLimit),
    ),
    (
        (256, 128, 257, None, None, 1, 0),
        Err(ConfigRefusal::DeviceTooLarge),
    ),
    (
        (256, 4096, 65, None, None, 1, 0),
        Err(ConfigRefusal::DeviceTooLarge),
    ),
];

/// The answer to such a table.
fn answer(numbers: Numbers) -> Result<(), ConfigRefusal> {
    with_column(numbers).check()
}

#[test]
fn refusals(rt: HostRuntime) {
    for (numbers, wanted) in ANSWERS {
        same_at(&rt, &answer(*numbers), wanted, numbers);
    }
}

/// The answer to a table without columns.
fn without_columns() -> Result<(), ConfigRefusal> {
    table((2, 128, 2, None, None, 1, 0), ArrayVec::new()).check()
}

/// The bytes of a row of five wide columns, and the answer to a table with them.
fn with_wide_columns() -> (u32, Result<(), ConfigRefusal>) {
    let mut columns = ArrayVec::new();
    for _ in 0..5u8 {
        let _ = columns.try_push(ColumnType::I64);
    }
    let long = table((2, 64, 3, None, None, 1, 0), columns);
    (long.row_len(), long.check())
}

#[test]
fn columns(rt: HostRuntime) {
    let found = (without_columns(), with_wide_columns());
    let long = (48, Err(ConfigRefusal::RowTooLong));
    same(&rt, &found, &(Err(ConfigRefusal::ColumnType), long));
}

/// The answer to a table whose blocks have so many pages, and which is to have full entries without an index.
fn with_full_index(block: u32) -> Result<(), ConfigRefusal> {
    let mut full = with_column((block, 128, 257, None, None, 1, 0));
    full.full_index = true;
    full.check()
}

#[test]
fn full_index(rt: HostRuntime) {
    let found = [with_full_index(2), with_full_index(256)];
    let wanted = [
        Err(ConfigRefusal::Format),
        Err(ConfigRefusal::DeviceTooLarge),
    ];
    same(&rt, &found, &wanted);
}

/// Pages per block, blocks of variable data, whether entries are full, and the blocks of a log.
type Logged = (u32, Option<u32>, bool, u32);

const LARGE: Result<(), ConfigRefusal> = Err(ConfigRefusal::DeviceTooLarge);

const LOGS: &[(Logged, Result<(), ConfigRefusal>)] = &[
    ((256, None, false, 16384), LARGE),
    ((256, None, true, 16384), LARGE),
    ((256, None, true, 61), Err(ConfigRefusal::Format)),
    ((256, None, false, 61), Ok(())),
    ((256, None, false, 62), LARGE),
    ((2, None, false, 16384), LARGE),
    ((2, None, false, 2), Err(ConfigRefusal::LogBlocks)),
    ((2, Some(3), false, 3), Err(ConfigRefusal::LogVar)),
    ((2, None, false, 4294967295), LARGE),
];

/// The answer to a table with such a log.
fn with_log(logged: Logged) -> Result<(), ConfigRefusal> {
    let (block, var, full_index, blocks) = logged;
    let blob_limit = if var.is_some() { 1 } else { 0 };
    let mut config = with_column((block, 4096, 3, None, var, 1, blob_limit));
    config.full_index = full_index;
    config.check_with(Some(ring(blocks)))
}

#[test]
fn log(rt: HostRuntime) {
    for (logged, wanted) in LOGS {
        same_at(&rt, &with_log(*logged), wanted, logged);
    }
}
