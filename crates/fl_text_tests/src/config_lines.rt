// Lines as a script has them, and the answer to each.
use crate::asserts::same;
use fl_base::NoMemory;
use fl_config::Config;
use fl_plan::ConfigRefusal;
use fl_plan::ConfigRefusal::{
    Bits, BlobLimit, BlockSize, ColumnCount, ColumnType, DataBlocks, DeviceTooLarge, DeviceTwice,
    ErrorBound, Format, IndexBlocks, KeyWidth, LogBlocks, LogVar, NameTaken, PageSize, RowTooLong,
    TableFirst, TooManyTables, VarBlocks, Width,
};
use fl_script::{LineRoom, read_line};
use std::alloc::Global;

/// Lines, each with its answer.
type Talk = &'static [(&'static str, Result<(), ConfigRefusal>)];

/// The answer to a line, where it is one of the language.
fn add(config: &mut Config, room: &mut LineRoom, line: &str) -> Option<Result<(), ConfigRefusal>> {
    match read_line(line.as_bytes(), room) {
        Ok(command) => Some(config.add(&command, room)),
        Err(_) => None,
    }
}

/// The first line that isn't answered so.
fn first_wrong(config: &mut Config, room: &mut LineRoom, lines: Talk) -> Option<usize> {
    for i in 0..lines.len() {
        let (line, answer) = lines[i];
        if add(config, room, line) != Some(answer) {
            return Some(i);
        }
    }
    None
}

/// The configuration of these lines, and the first of them that isn't answered so.
fn configured(alloc: Global, lines: Talk) -> Result<(Config, Option<usize>), NoMemory> {
    let mut room = LineRoom::new(alloc)?;
    let mut config = Config::new();
    let wrong = first_wrong(&mut config, &mut room, lines);
    Ok((config, wrong))
}

/// The first blocks of a table's rings; 0 where there is none.
fn firsts(config: &Config, i: usize) -> Option<(u32, u32, u32)> {
    if i >= config.tables() {
        return None;
    }
    let table = config.table(i);
    let index = table.index.map_or(0, |place| place.first_block);
    let var = table.var.map_or(0, |place| place.first_block);
    Some((table.rows.first_block, index, var))
}

/// The first block and the blocks of a table's log.
fn log(config: &Config, i: usize) -> Option<(u32, u32)> {
    if i >= config.tables() {
        return None;
    }
    config.log(i).map(|place| (place.first_block, place.blocks))
}

/// The first of these lines that isn't answered so, whether the configuration of them all is complete, its blocks, and where its
/// tables' rings begin and their logs are.
type Seen = (
    Option<usize>,
    bool,
    u32,
    [Option<(u32, u32, u32)>; 4],
    [Option<(u32, u32)>; 4],
);

fn seen(alloc: Global, lines: Talk) -> Result<Seen, NoMemory> {
    let (config, wrong) = configured(alloc, lines)?;
    let rings = [
        firsts(&config, 0),
        firsts(&config, 1),
        firsts(&config, 2),
        firsts(&config, 3),
    ];
    let logs = [
        log(&config, 0),
        log(&config, 1),
        log(&config, 2),
        log(&config, 3),
    ];
    Ok((wrong, config.is_complete(), config.blocks(), rings, logs))
}

#[test]
fn device_lines(rt: HostRuntime) {
    const LINES: Talk = &[
        ("table t 8 i32 3 0 0 8 0 10 1 0", Err(TableFirst)),
        ("device 56 1", Err(PageSize)),
        ("device 4104 4", Err(PageSize)),
        ("device 18446744073709551615 4", Err(PageSize)),
        ("device 100 4", Err(PageSize)),
        ("device 128 1", Err(BlockSize)),
        ("device 128 257", Err(BlockSize)),
        ("device 128 4", Ok(())),
        ("device 0 0", Err(DeviceTwice)),
    ];
    // There is no table.
    const SEEN: Seen = (None, false, 0, [None; 4], [None; 4]);
    same(&rt, &seen(rt.alloc(), LINES), &Ok(SEEN));
}

/// Each line has the faults of the lines below it.
#[test]
fn table_lines(rt: HostRuntime) {
    const LINES: Talk = &[
        ("device 64 4", Ok(())),
        ("table t 8 i32 3 0 0 8 0 10 1 0", Ok(())),
        ("table t 5 f32 2 2 2 7 0 0 256 1", Err(NameTaken)),
        ("table u 5 f32 2 2 2 7 0 0 256 1", Err(KeyWidth)),
        (
            "table u 4 u8,u8,u8,u8,u8,u8,u8,u8,u8, 2 2 2 7 0 0 256 1",
            Err(ColumnType),
        ),
        (
            "table u 8 u8,u8,u8,u8,u8,u8,u8,u8,u8 2 2 2 7 0 0 256 1",
            Err(ColumnCount),
        ),
        ("table u 8 i64 2 2 2 7 0 0 256 1", Err(DataBlocks)),
        ("table u 8 i64 16385 2 2 7 0 0 256 1", Err(DataBlocks)),
        ("table u 8 i64 16384 2 2 7 0 0 256 1", Err(IndexBlocks)),
        ("table u 8 i64 16384 3 1 7 0 0 256 1", Err(VarBlocks)),
        ("table u 8 i64 16384 3 0 7 0 0 256 1", Err(Bits)),
        ("table u 8 i64 16384 3 0 0 0 0 256 1", Err(Bits)),
        ("table u 8 i64 16384 3 0 8 0 0 256 1", Err(Width)),
        (
            "table u 8 i64 16384 0 0 0 0 9223372036854775808 256 1",
            Err(Width),
        ),
        ("table u 8 i64 16384 3 0 8 0 1 256 1", Err(ErrorBound)),
        ("table u 8 i64 16384 3 0 8 0 1 255 1", Err(BlobLimit)),
        (
            "table u 8 i64,i64,i64 16384 3 3 8 0 1 255 289",
            Err(BlobLimit),
        ),
        (
            "table u 8 i64,i64,i64 16384 3 3 8 0 1 255 288",
            Err(RowTooLong),
        ),
        ("table u 8 i64 16384 3 3 8 0 1 255 288", Err(DeviceTooLarge)),
        (
            "table u 8 i64 16384 0 3 8 0 1 1 288 index2",
            Err(DeviceTooLarge),
        ),
        ("table u 8 i64 3 0 3 0 0 1 1 288 index2", Err(Format)),
        ("table u 8 i64 3 0 3 7 0 1 1 288 index2", Err(Bits)),
        (
            "table u 8 i64 3 0 3 8 0 1 1 288 index2 rlc 18446744073709551615",
            Err(DeviceTooLarge),
        ),
        ("table u 8 i64 3 0 3 8 0 1 1 288 index2 rlc 2", Err(Format)),
        (
            "table u 8 i64 3 3 3 8 0 1 1 288 index2 rlc 2",
            Err(LogBlocks),
        ),
        ("table u 8 i64 3 0 3 8 0 1 1 288 rlc 0", Err(LogBlocks)),
        ("table u 8 i64 3 3 3 8 0 1 1 288 index2 rlc 3", Err(LogVar)),
    ];
    const RINGS: [Option<(u32, u32, u32)>; 4] = [Some((0, 0, 0)), None, None, None];
    const SEEN: Seen = (None, true, 3, RINGS, [None; 4]);
    same(&rt, &seen(rt.alloc(), LINES), &Ok(SEEN));
}

#[test]
fn places(rt: HostRuntime) {
    const LINES: Talk = &[
        ("device 128 4", Ok(())),
        ("table s 4 i16 40 3 4 64 0 100 1 300", Ok(())),
        ("table t 8 i32,u8 3 0 5 0 0 1 1 10", Ok(())),
        ("table u 8 i32 3 0 0 8 0 10 1 0", Ok(())),
        ("table v 8 i32 3 0 0 8 0 10 1 0", Ok(())),
        ("table w 8 i32 3 0 0 8 0 10 1 0", Err(TooManyTables)),
    ];
    const RINGS: [Option<(u32, u32, u32)>; 4] = [
        Some((0, 40, 43)),
        Some((47, 0, 50)),
        Some((55, 0, 0)),
        Some((58, 0, 0)),
    ];
    const SEEN: Seen = (None, true, 61, RINGS, [None; 4]);
    same(&rt, &seen(rt.alloc(), LINES), &Ok(SEEN));
}

#[test]
fn logs(rt: HostRuntime) {
    const LINES: Talk = &[
        ("device 128 4", Ok(())),
        ("table s 4 i16 40 3 0 64 0 100 1 0 index2 rlc 5", Ok(())),
        ("table t 8 i32 3 0 0 8 0 10 1 0 rlc 3", Ok(())),
        ("table u 8 i32 3 3 0 8 0 10 1 0 index2", Ok(())),
    ];
    const RINGS: [Option<(u32, u32, u32)>; 4] = [
        Some((0, 40, 0)),
        Some((48, 0, 0)),
        Some((54, 57, 0)),
        None,
    ];
    const LOGS: [Option<(u32, u32)>; 4] = [Some((43, 5)), Some((51, 3)), None, None];
    const SEEN: Seen = (None, true, 60, RINGS, LOGS);
    same(&rt, &seen(rt.alloc(), LINES), &Ok(SEEN));
}

/// The blocks of a log count, on its line and for the tables behind it.
#[test]
fn sizes_with_logs(rt: HostRuntime) {
    const LINES: Talk = &[
        ("device 4096 256", Ok(())),
        ("table t 8 i32 61 0 0 8 0 10 1 0 rlc 4", Err(DeviceTooLarge)),
        ("table t 8 i32 58 0 0 8 0 10 1 0 rlc 3", Ok(())),
        ("table u 8 i32 4 0 0 8 0 10 1 0", Err(DeviceTooLarge)),
        ("table u 8 i32 3 0 0 8 0 10 1 0", Ok(())),
    ];
    const RINGS: [Option<(u32, u32, u32)>; 4] = [Some((0, 0, 0)), Some((61, 0, 0)), None, None];
    const LOGS: [Option<(u32, u32)>; 4] = [Some((58, 3)), None, None, None];
    const SEEN: Seen = (None, true, 64, RINGS, LOGS);
    same(&rt, &seen(rt.alloc(), LINES), &Ok(SEEN));
}
