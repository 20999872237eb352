// What no contract says: that memory is found; and lines of the format from outside.
use crate::asserts::{same, same_at};
use fl_base::{MemSink, NoMemory, SinkFailed};
use fl_csv::CsvRefusal::{Csv, Fields, Number};
use fl_csv::{
    BlobBytes, CsvBlob, CsvFault, CsvRefusal, GoneBlobs, header_line, is_header, read_record,
    write_record,
};
use std::alloc::Global;

/// A sink whose calls of these numbers fail.
fn sink(alloc: Global, failing: &[u64]) -> Result<MemSink, NoMemory> {
    MemSink::new(alloc, 64, failing.to_vec(alloc)?)
}

/// Whether this is the line of the names of so many columns.
fn names_columns(alloc: Global, columns: usize, blobs: bool, text: &str) -> Result<bool, NoMemory> {
    let mut sink = sink(alloc, &[])?;
    let ends = header_line(columns, blobs, &mut sink);
    Ok(ends.is_ok() && sink.bytes() == text.as_bytes())
}

/// How many columns there are, whether there are blobs, and the line of their names.
const COLUMNS: &[(usize, bool, &str)] = &[
    (1, false, "key,c1\n"),
    (1, true, "key,c1,blob\n"),
    (8, true, "key,c1,c2,c3,c4,c5,c6,c7,c8,blob\n"),
];

#[test]
fn the_first_line_names_the_columns(rt: HostRuntime) {
    for (columns, blobs, text) in COLUMNS {
        let found = names_columns(rt.alloc(), *columns, *blobs, text);
        same_at(&rt, &found, &Ok(true), text);
    }
}

/// Records, and the line of each.
const RECORDS: &[(u64, &[i64], CsvBlob<'static>, &str)] = &[
    (1, &[-25], CsvBlob::Absent, "1,-25\n"),
    (
        u64::MAX,
        &[i64::MIN, i64::MAX],
        CsvBlob::Nothing,
        "18446744073709551615,-9223372036854775808,9223372036854775807,\n",
    ),
    (7, &[0], CsvBlob::Bytes(&[0, 171, 255]), "7,0,00abff\n"),
    (7, &[0], CsvBlob::Bytes(&[]), "7,0,-\n"),
    (7, &[0], CsvBlob::Empty, "7,0,-\n"),
    (7, &[0], CsvBlob::Gone, "7,0,gone\n"),
];

/// Whether a record is written as this line.
fn is_written(
    alloc: Global,
    key: u64,
    values: &[i64],
    blob: CsvBlob<'_>,
    text: &str,
) -> Result<bool, NoMemory> {
    let mut sink = sink(alloc, &[])?;
    let ends = write_record(alloc, key, values, blob, &mut sink);
    Ok(ends.is_ok() && sink.bytes() == text.as_bytes())
}

#[test]
fn a_record_is_a_line(rt: HostRuntime) {
    for (key, values, blob, text) in RECORDS {
        let found = is_written(rt.alloc(), *key, values, *blob, text);
        same_at(&rt, &found, &Ok(true), text);
    }
}

/// How a record ends whose first piece the sink doesn't take, and how many bytes it has then.
fn record_failing(alloc: Global) -> Result<(Result<(), CsvFault>, usize), NoMemory> {
    let mut sink = sink(alloc, &[1])?;
    let ends = write_record(alloc, 1, &[2], CsvBlob::Absent, &mut sink);
    Ok((ends, sink.bytes().len()))
}

/// How a line of names ends whose third piece the sink doesn't take, and whether it has the first two then.
fn names_failing(alloc: Global) -> Result<(Result<(), SinkFailed>, bool), NoMemory> {
    let mut sink = sink(alloc, &[3])?;
    let ends = header_line(2, false, &mut sink);
    Ok((ends, sink.bytes() == b"key,c1".as_slice()))
}

#[test]
fn a_sink_fails(rt: HostRuntime) {
    let failed = Err(CsvFault::Sink(SinkFailed));
    same(&rt, &record_failing(rt.alloc()), &Ok((failed, 0)));
    same(
        &rt,
        &names_failing(rt.alloc()),
        &Ok((Err(SinkFailed), true)),
    );
}

/// A line, whether it has a field for a blob, and the key, the values and the blob that it is read as.
type Line = (
    &'static str,
    bool,
    u64,
    &'static [i64],
    Option<&'static [u8]>,
);

const LINES: &[Line] = &[
    ("1,-25", false, 1, &[-25], None),
    ("\"2\",-5", false, 2, &[-5], None),
    ("\"1\"2,\"\"3", false, 12, &[3], None),
    ("\u{feff}\"1\",2", false, 1, &[2], None),
    ("007,-0,00", false, 7, &[0, 0], None),
    ("1,2\r", false, 1, &[2], None),
    ("\u{feff}1,2", false, 1, &[2], None),
    ("1,2,", true, 1, &[2], None),
    ("1,2,-", true, 1, &[2], Some(&[])),
    ("1,2,\"aF09\"", true, 1, &[2], Some(&[175, 9])),
];

fn is_blob(found: &Option<BlobBytes>, wanted: Option<&[u8]>) -> bool {
    match (found, wanted) {
        (Some(found), Some(wanted)) => found.bytes() == wanted,
        (None, None) => true,
        _ => false,
    }
}

/// Whether the line is read so.
fn is_read(alloc: Global, line: Line) -> bool {
    let (text, blobs, key, values, blob) = line;
    let columns = values.len();
    if columns == 0 || columns > 8 {
        return false;
    }
    let read = read_record(alloc, text.as_bytes(), columns, blobs, GoneBlobs::Refused);
    let Ok(put) = read else {
        return false;
    };
    put.key == key && put.values.as_slice() == values && is_blob(&put.blob, blob)
}

#[test]
fn a_line_is_a_record(rt: HostRuntime) {
    for line in LINES {
        same_at(&rt, &is_read(rt.alloc(), *line), &true, &line.0);
    }
}

/// Lines, whether they have a field for a blob, and the fault of each.
const FAULTS: &[(&str, bool, CsvRefusal)] = &[
    ("", false, Csv),
    ("\r", false, Csv),
    ("1,2\r3,4", false, Csv),
    ("\"", false, Csv),
    ("1,\"2", false, Csv),
    ("1,\"\"\"", false, Csv),
    ("\"1\"\",2", false, Csv),
    ("\u{feff}\"1,2", false, Csv),
    ("\"\"", false, Fields { wanted: 2 }),
    ("2", false, Fields { wanted: 2 }),
    ("1,2,3,4,5,6,7,8,9,10,11", false, Fields { wanted: 2 }),
    ("x,y,z", false, Fields { wanted: 2 }),
    ("1,2", true, Fields { wanted: 3 }),
    ("x,y", false, Number { field: 1 }),
    (",1", false, Number { field: 1 }),
    ("+1,2", false, Number { field: 1 }),
    ("-1,2", false, Number { field: 1 }),
    ("18446744073709551616,1", false, Number { field: 1 }),
    ("2,x", false, Number { field: 2 }),
    ("1,2\"", false, Number { field: 2 }),
    ("1,\"2\"b\"", false, Number { field: 2 }),
    ("1, 2", false, Number { field: 2 }),
    ("1,+2", false, Number { field: 2 }),
    ("1,-", false, Number { field: 2 }),
    ("1,9223372036854775808", false, Number { field: 2 }),
    ("1,-9223372036854775809", false, Number { field: 2 }),
    ("1,x,0g", true, Number { field: 2 }),
    ("1,2,0g", true, Number { field: 3 }),
    ("1,2,abc", true, Number { field: 3 }),
    ("1,2,--", true, Number { field: 3 }),
    ("1,2,gone", true, Number { field: 3 }),
];

/// Why a line of one column is refused, if it is.
fn fault_of(alloc: Global, line: &str, blobs: bool, gone: GoneBlobs) -> Option<CsvRefusal> {
    read_record(alloc, line.as_bytes(), 1, blobs, gone).err()
}

#[test]
fn the_first_fault_is_told(rt: HostRuntime) {
    for (line, blobs, fault) in FAULTS {
        let found = fault_of(rt.alloc(), line, *blobs, GoneBlobs::Refused);
        same_at(&rt, &found, &Some(*fault), line);
    }
}

/// The key of a line of one column, whether it has a blob, and whether it had one that is gone, where these are left out.
fn left_out(alloc: Global, line: &str) -> Option<(u64, bool, bool)> {
    let read = read_record(alloc, line.as_bytes(), 1, true, GoneBlobs::LeftOut);
    let Ok(put) = read else {
        return None;
    };
    Some((put.key, put.blob.is_some(), put.gone))
}

/// Lines without a blob, and whether each had one that is gone.
const GONE: &[(&str, bool)] = &[("1,2,gone", true), ("1,2,\"gone\"", true), ("1,2,", false)];

#[test]
fn a_blob_that_is_gone_is_left_out(rt: HostRuntime) {
    for (line, gone) in GONE {
        same_at(
            &rt,
            &left_out(rt.alloc(), line),
            &Some((1, false, *gone)),
            line,
        );
    }
}

/// Lines that have other words there.
const NEARLY_GONE: &[&str] = &["1,2,Gone", "1,2, gone", "1,2,gone "];

#[test]
fn another_word_is_no_blob_that_is_gone(rt: HostRuntime) {
    for line in NEARLY_GONE {
        let found = fault_of(rt.alloc(), line, true, GoneBlobs::LeftOut);
        same_at(&rt, &found, &Some(Number { field: 3 }), line);
    }
}

/// Lines, the form of the lines, and whether each is that of the names.
const NAMES: &[(&str, usize, bool, bool)] = &[
    ("key,c1,blob", 1, true, true),
    ("key,c1", 1, true, false),
    ("key,c1,blob", 1, false, false),
    ("\u{feff}key,c1", 1, false, true),
    ("\"key\",\"c1\"", 1, false, true),
    ("\"key,c1\"", 1, false, false),
    ("key,\"c1", 1, false, false),
    ("key,c1,c2,c3,c4,c5,c6,c7,c8,blob", 8, true, true),
    ("key,c1,c2,c3,c4,c5,c6,c7,c8,blob,c9", 8, true, false),
    ("", 1, false, false),
];

/// Whether the line is that of the names, if they are few enough.
fn are_names(alloc: Global, line: &str, columns: usize, blobs: bool) -> Option<bool> {
    if columns > 8 {
        return None;
    }
    is_header(alloc, line.as_bytes(), columns, blobs).ok()
}

#[test]
fn the_line_of_the_names_is_read(rt: HostRuntime) {
    for (line, columns, blobs, wanted) in NAMES {
        let found = are_names(rt.alloc(), line, *columns, *blobs);
        same_at(&rt, &found, &Some(*wanted), line);
    }
}
