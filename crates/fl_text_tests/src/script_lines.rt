// Lines, each with its fault, and what is left in the room.
use crate::asserts::same;
use fl_base::NoMemory;
use fl_script::LineFault::{Form, Number, TooLong, Unknown};
use fl_script::{LineFault, LineRoom, read_line};
use std::alloc::Global;

fn fault(line: &[u8], room: &mut LineRoom) -> Option<LineFault> {
    read_line(line, room).err()
}

/// The first of these lines that hasn't its fault, if any.
fn first_wrong(
    alloc: Global,
    lines: &[(&'static str, Option<LineFault>)],
) -> Result<Option<&'static str>, NoMemory> {
    let mut room = LineRoom::new(alloc)?;
    for i in 0..lines.len() {
        let (line, wanted) = lines[i];
        if fault(line.as_bytes(), &mut room) != wanted {
            return Ok(Some(line));
        }
    }
    Ok(None)
}

#[test]
fn each_line_is_in_the_language(rt: HostRuntime) {
    const LINES: &[(&str, Option<LineFault>)] = &[
        ("", None),
        ("  # any words", None),
        ("device 64 2", None),
        ("table t 8 u8,i32 3 0 0 0 -5 1 255 0\r", None),
        ("table t 8 i32 3 3 0 8 0 10 1 0 index2", None),
        (
            "table t 8 i32 3 3 0 8 0 10 1 0 rlc 18446744073709551615",
            None,
        ),
        ("table t 8 i32 3 3 0 8 0 10 1 0 index2 rlc 3", None),
        ("mount", None),
        (" off ", None),
        ("cut 1 half", None),
        ("cut 18446744073709551615 noise 0", None),
        ("put t 7", None),
        (
            "put t2 007 -9223372036854775808 9223372036854775807 blob aF09",
            None,
        ),
        (
            "put t 1 1 2 3 4 5 6 7 8 9 10 11 12 13 14 15 16 blob -",
            None,
        ),
        ("flush t", None),
        ("get abcdefg8 0", None),
        ("blob t 0", None),
        ("scan t 0 18446744073709551615", None),
        ("open 3 t 0 9 -1 1", None),
        ("next 0 1000000", None),
        ("close 1", None),
        ("select t 0 9 1 ge -3", None),
        ("project t 0 9 0,1,2,3,4,5,6,999", None),
        ("agg t 0 9 1 1", None),
        ("join t t 0 9", None),
        ("stat t", None),
        ("cost", None),
        ("load t 1000000 1 0", None),
    ];
    same(&rt, &first_wrong(rt.alloc(), LINES), &Ok(None));
}

#[test]
fn the_first_fault_is_told(rt: HostRuntime) {
    const LINES: &[(&str, Option<LineFault>)] = &[
        ("Mount", Some(Unknown)),
        ("mount\t", Some(Unknown)),
        ("mount now", Some(Form)),
        ("put T x", Some(Form)),
        ("put t x blob 123", Some(Form)),
        (
            "put t 1 1 2 3 4 5 6 7 8 9 10 11 12 13 14 15 16 17",
            Some(Form),
        ),
        ("put t 1 blob", Some(Number)),
        ("put t 18446744073709551616", Some(Number)),
        ("put t 1 -9223372036854775809", Some(Number)),
        ("cut 0 before", Some(Number)),
        ("cut 0 noise", Some(Form)),
        ("next 4 1", Some(Form)),
        ("next 3 1000001", Some(Number)),
        ("project t a b 1,,2", Some(Form)),
        ("project t a b 0001", Some(Form)),
        ("select t 0 9 1 = 3", Some(Form)),
        ("agg t 0 9 1 0", Some(Number)),
        ("device +1 2", Some(Number)),
        ("table t x i32 3 3 0 8 0 10 1 0 index3", Some(Form)),
        ("table t 8 i32 3 3 0 8 0 10 1 0 index2 index2", Some(Form)),
        ("table t 8 i32 3 3 0 8 0 10 x 0 index2", Some(Number)),
        ("table t 8 i32 3 3 0 8 0 10 1 0 rlc 3 index2", Some(Form)),
        ("table t 8 i32 3 3 0 8 0 10 1 0 rlc 3 3", Some(Form)),
        ("table t 8 i32 3 3 0 8 0 10 1 0 index2 rlc", Some(Form)),
        ("table t 8 i32 3 3 0 8 0 10 1 0 index2 rlc x", Some(Number)),
        ("device 64 2\r\r", Some(Number)),
    ];
    same(&rt, &first_wrong(rt.alloc(), LINES), &Ok(None));
}

/// The faults of a line of 4,096 blanks and of one of 4,097.
fn faults_of_long_lines(alloc: Global) -> Result<[Option<LineFault>; 2], NoMemory> {
    let mut room = LineRoom::new(alloc)?;
    let longest = fault(&[b' '; 4096], &mut room);
    let longer = fault(&[b' '; 4097], &mut room);
    Ok([longest, longer])
}

#[test]
fn a_line_has_at_most_4096_bytes(rt: HostRuntime) {
    same(
        &rt,
        &faults_of_long_lines(rt.alloc()),
        &Ok([None, Some(TooLong)]),
    );
}

/// The first of these lines that doesn't leave its bytes in the room.
fn first_that_leaves_others(
    alloc: Global,
    lines: &[(&'static str, &[u8])],
) -> Result<Option<&'static str>, NoMemory> {
    let mut room = LineRoom::new(alloc)?;
    for i in 0..lines.len() {
        let (line, left) = lines[i];
        let _fault = fault(line.as_bytes(), &mut room);
        if room.bytes() != left {
            return Ok(Some(line));
        }
    }
    Ok(None)
}

#[test]
fn a_put_leaves_its_blob_and_a_table_its_columns(rt: HostRuntime) {
    const LINES: &[(&str, &[u8])] = &[
        ("put t 7 1 blob aF09", &[0xaf, 0x09]),
        (
            "put t 7 blob 000102030405060708090a0B0c0D0e0fF1f2f3",
            &[
                0, 1, 2, 3, 4, 5, 6, 7, 8, 9, 10, 11, 12, 13, 14, 15, 0xf1, 0xf2, 0xf3,
            ],
        ),
        ("put t 7 blob 000102030405060708090a0b0c0d0e0gf1f2f3", &[]),
        ("put t 7 blob 000102030405060708090a0b0c0d0e0ff1f2f:", &[]),
        ("put t x 1 blob aF09", &[]),
        ("table t 8 u8,i32 3 0 0 0 -5 1 255 0", b"u8,i32"),
        ("put t 7 1 blob -", &[]),
        ("table t 8 any 3 0 0 0 0 1 255 x", &[]),
        ("mount", &[]),
    ];
    same(&rt, &first_that_leaves_others(rt.alloc(), LINES), &Ok(None));
}
