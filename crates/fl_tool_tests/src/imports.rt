// Imports into images made by hand: what is told, what the image then holds, and how they end.
ghost use Rattle.std.specs.Prelude.{◌≤◌};

mod long_texts;

use crate::asserts::{same, same_at};
use crate::checks::{Piece, SEAL, medium};
use fl_base::{KeyRange, MemSink, MemSource, Name, NoMemory};
use fl_csv::{GoneBlobs, LineForm};
use fl_export::export_image;
use fl_flash::MemMedia;
use fl_image::ToolStatus;
use fl_import::{JobEnd, LinesTaken, import_image};
use std::alloc::Global;

// Pages of 128 bytes, four a block, and a ring of three blocks.
const PLAIN: &str = "device 128 4\ntable t 8 i32 3 0 0 8 0 10 1 0\n";

const PLAIN_BYTES: u16 = 1536;

// Pages of 64 bytes, two a block, and variable data.
const WITH_BLOBS: &str = "device 64 2\ntable t 8 i32 3 0 3 8 0 10 1 30\n";

const BLOB_BYTES: u16 = 768;

// How an import of a text into a table ends, with a sink of so much room, and whether it tells so. A call of the source may fail.
fn import_with(
    alloc: Global,
    media: &mut MemMedia,
    name: &[u8],
    gone: GoneBlobs,
    text: &[u8],
    failing: &[u64],
    room: usize,
    told: &str,
) -> Result<(JobEnd, bool), NoMemory> {
    let Some(name) = Name::of(name) else {
        return Err(NoMemory);
    };
    let mut input = MemSource::new(text.to_vec(alloc)?, failing.to_vec(alloc)?);
    let mut out = MemSink::new(alloc, room, Vec::new(alloc))?;
    let end = import_image(alloc, name, gone, media, &mut input, &mut out);
    Ok((end, out.bytes() == told.as_bytes()))
}

// .. where a blob that is gone is no blob, whatever is told.
pub(crate) fn import(
    alloc: Global,
    media: &mut MemMedia,
    name: &[u8],
    text: &[u8],
    room: usize,
) -> Result<JobEnd, NoMemory> {
    let refused = GoneBlobs::Refused;
    let (end, _is_told) = import_with(alloc, media, name, refused, text, &[], room, "")?;
    Ok(end)
}

// .. into table t, where that is to be told.
pub(crate) fn import_told(
    alloc: Global,
    media: &mut MemMedia,
    text: &[u8],
    told: &str,
) -> Result<(JobEnd, bool), NoMemory> {
    import_with(alloc, media, b"t", GoneBlobs::Refused, text, &[], 100, told)
}

// The records of table t.
pub(crate) fn records(alloc: Global, media: &mut MemMedia) -> Result<MemSink, NoMemory> {
    let Some(name) = Name::of(b"t") else {
        return Err(NoMemory);
    };
    let all = KeyRange {
        low: 0,
        high: u64::MAX,
    };
    let mut out = MemSink::new(alloc, 200, Vec::new(alloc))?;
    let _status = export_image(alloc, name, all, media, &mut out);
    Ok(out)
}

// Whether table t has the records of this text.
pub(crate) fn has_records(
    alloc: Global,
    media: &mut MemMedia,
    text: &[u8],
) -> Result<bool, NoMemory> {
    let out = records(alloc, media)?;
    Ok(out.bytes() == text)
}

// An empty image of these lines.
fn empty(alloc: Global, lines: &str, pages: u16) -> Result<MemMedia, NoMemory> {
    medium(alloc, lines, pages, &[])
}

// How an import of a text into table t of an empty image of these lines ends, how many records it then has, and whether this is told
// and these records are there.
type Taken = (ToolStatus, Option<u64>, bool, bool);

fn import_anew(
    alloc: Global,
    image: (&str, u16),
    text: &[u8],
    told: &str,
    records_now: &[u8],
) -> Result<Taken, NoMemory> {
    let mut media = empty(alloc, image.0, image.1)?;
    let (end, is_told) = import_told(alloc, &mut media, text, told)?;
    let has_these = has_records(alloc, &mut media, records_now)?;
    Ok((end.status, end.kept, is_told, has_these))
}

const TEXTS: &[(&str, &str, &str, u64)] = &[
    (
        "key,c1\n1,-25\n2\n2,x\n1,4\n\"2\",-5\n",
        "line 3 fields 2\nline 4 number 2\nline 5 refused key 1\nimported 2 refused 3\n",
        "key,c1\n1,-25\n2,-5\n",
        2,
    ),
    ("key,c1\n", "imported 0 refused 0\n", "key,c1\n", 0),
    ("key,c1", "imported 0 refused 0\n", "key,c1\n", 0),
    (
        "key,c1\r\n9,1\r\n",
        "imported 1 refused 0\n",
        "key,c1\n9,1\n",
        1,
    ),
    (
        "key,c1\n9,1\r",
        "imported 1 refused 0\n",
        "key,c1\n9,1\n",
        1,
    ),
    (
        "key,c1\n\n9,2147483648\n7,8",
        "line 2 csv\nline 3 refused value 1\nimported 1 refused 2\n",
        "key,c1\n7,8\n",
        1,
    ),
];

#[test]
fn lines_are_put_or_told(rt: HostRuntime) {
    let image = (PLAIN, PLAIN_BYTES);
    for (text, told, records_now, rows) in TEXTS {
        let (bytes, now) = (text.as_bytes(), records_now.as_bytes());
        let taken = import_anew(rt.alloc(), image, bytes, told, now);
        let wanted = Ok((ToolStatus::Done, Some(*rows), true, true));
        same_at(&rt, &taken, &wanted, text);
    }
}

// A record for each key from 10 to 109.
fn hundred_lines(alloc: Global) -> Result<Vec<u8>, NoMemory> {
    let mut text = b"key,c1\n".to_vec(alloc)?;
    for tens in ["1", "2", "3", "4", "5", "6", "7", "8", "9", "10"] {
        for ones in ["0", "1", "2", "3", "4", "5", "6", "7", "8", "9"] {
            text.extend_from_slice(tens.as_bytes())?;
            text.extend_from_slice(ones.as_bytes())?;
            text.extend_from_slice(b",1\n")?;
        }
    }
    Ok(text)
}

// How an import of a hundred records ends, how many records there are behind one more, and whether both tell what they have to.
fn import_many(alloc: Global) -> Result<(JobEnd, Option<u64>, [bool; 2]), NoMemory> {
    let text = hundred_lines(alloc)?;
    let mut media = empty(alloc, PLAIN, PLAIN_BYTES)?;
    let (all, is_told) = import_told(alloc, &mut media, &text, "imported 100 refused 0\n")?;
    let one = b"key,c1\n200,1\n";
    let (end, is_one_told) = import_told(alloc, &mut media, one, "imported 1 refused 0\n")?;
    Ok((all, end.kept, [is_told, is_one_told]))
}

// A page holds eight of these rows, and the ring keeps two of its three blocks, of four pages each, at least.
const WHOLE: JobEnd = JobEnd {
    status: ToolStatus::Done,
    kept: Some(68),
    taken: LinesTaken {
        line: 101,
        rows: 100,
        gone: 0,
    },
    form: Some(LineForm {
        columns: 1,
        blobs: false,
    }),
};

#[test]
fn older_records_are_pushed_out(rt: HostRuntime) {
    // The block of the last page has room for one more, so nothing is given up.
    same(
        &rt,
        &import_many(rt.alloc()),
        &Ok((WHOLE, Some(69), [true; 2])),
    );
}

#[test]
fn blobs_are_put(rt: HostRuntime) {
    let text = b"key,c1,blob\n1,-25,\n2,-5,00ABff\n3,0,-\n4,7,gone\n5,1,0g\n";
    let told = "line 5 number 3\nline 6 number 3\nimported 3 refused 2\n";
    let kept = b"key,c1,blob\n1,-25,\n2,-5,00abff\n3,0,-\n";
    let taken = import_anew(rt.alloc(), (WITH_BLOBS, BLOB_BYTES), text, told, kept);
    same(&rt, &taken, &Ok((ToolStatus::Done, Some(3), true, true)));
}

// How an import into table t ends that leaves out blobs that are gone, and whether it tells so.
fn import_without_gone(
    alloc: Global,
    media: &mut MemMedia,
    text: &[u8],
    told: &str,
) -> Result<(JobEnd, bool), NoMemory> {
    import_with(alloc, media, b"t", GoneBlobs::LeftOut, text, &[], 200, told)
}

// How an import ends that leaves out blobs, whether it tells so, which records there are then, and whether one behind it tells that
// none is left out.
fn leave_out(
    alloc: Global,
    text: &[u8],
    told: &str,
) -> Result<(JobEnd, bool, bool, bool), NoMemory> {
    let mut media = empty(alloc, WITH_BLOBS, BLOB_BYTES)?;
    let (end, is_told) = import_without_gone(alloc, &mut media, text, told)?;
    let has_these = has_records(alloc, &mut media, b"key,c1,blob\n4,7,\n5,1,\n")?;
    let one = b"key,c1,blob\n8,1,00\n";
    let none_gone = "imported 1 refused 0 gone 0\n";
    let (_end, is_none_told) = import_without_gone(alloc, &mut media, one, none_gone)?;
    Ok((end, is_told, has_these, is_none_told))
}

// The row of line 4 isn't put, so that its blob isn't counted.
const WITH_GONE: JobEnd = JobEnd {
    status: ToolStatus::Done,
    kept: Some(2),
    taken: LinesTaken {
        line: 6,
        rows: 2,
        gone: 2,
    },
    form: Some(LineForm {
        columns: 1,
        blobs: true,
    }),
};

#[test]
fn blobs_that_are_gone_are_left_out(rt: HostRuntime) {
    let text = b"key,c1,blob\n4,7,gone\n5,1,\"gone\"\n5,2,gone\n6,gone,\n7,1,Gone\n";
    let told =
        "line 4 refused key 5\nline 5 number 2\nline 6 number 3\nimported 2 refused 3 gone 2\n";
    same(
        &rt,
        &leave_out(rt.alloc(), text, told),
        &Ok((WITH_GONE, true, true, true)),
    );
}

// How an import into the table with a name of an empty image ends.
fn end_of(alloc: Global, name: &[u8], text: &str, room: usize) -> Result<JobEnd, NoMemory> {
    let mut media = empty(alloc, PLAIN, PLAIN_BYTES)?;
    import(alloc, &mut media, name, text.as_bytes(), room)
}

const BAD: ToolStatus = ToolStatus::BadInput { line: 1 };

const LINES_OF_NAMES: &[(&str, ToolStatus)] = &[
    ("\u{feff}key,c1\n1,2\n", ToolStatus::Done),
    ("\u{feff}\"key\",\"c1\"\r\n1,2\n", ToolStatus::Done),
    ("key,\"c\"1\n1,2\n", ToolStatus::Done),
    ("key,\u{feff}c1\n", BAD),
    ("\u{feff}\u{feff}key,c1\n", BAD),
    ("\"key,c1\"\n", BAD),
    ("key,\"c1\n", BAD),
    ("key,c1,c2\n", BAD),
    ("key\n", BAD),
    ("key, c1\n", BAD),
    ("c1,key\n", BAD),
];

// Whether an import of a text ends so.
fn ends_with(alloc: Global, text: &str, status: ToolStatus) -> Result<bool, NoMemory> {
    Ok(end_of(alloc, b"t", text, 100)?.status == status)
}

#[test]
fn names_may_have_a_mark_and_quotes(rt: HostRuntime) {
    for (text, wanted) in LINES_OF_NAMES {
        same_at(&rt, &ends_with(rt.alloc(), text, *wanted), &Ok(true), text);
    }
}

// A text, how much room the sink has, the last line that was taken, and how many records were put.
const ENDS: &[(&str, usize, u64, u64)] = &[
    ("", 100, 0, 0),
    ("key,c2\n1,2\n", 100, 0, 0),
    ("key,c1\n1,2\n3,4\n", 100, 3, 2),
    ("key,c1\n1,2\nx\n3,4\n", 9, 2, 1),
    ("key,c1\n1,2\n1,2\n3,4", 100, 4, 2),
];

const ONE_COLUMN: LineForm = LineForm {
    columns: 1,
    blobs: false,
};

// Which lines an import takes, and what form they have.
fn taken_of(
    alloc: Global,
    text: &str,
    room: usize,
) -> Result<(LinesTaken, Option<LineForm>), NoMemory> {
    let end = end_of(alloc, b"t", text, room)?;
    Ok((end.taken, end.form))
}

#[test]
fn an_end_says_how_far_lines_were_taken(rt: HostRuntime) {
    for (text, room, line, rows) in ENDS {
        let taken = LinesTaken {
            line: *line,
            rows: *rows,
            gone: 0,
        };
        let found = taken_of(rt.alloc(), text, *room);
        same_at(&rt, &found, &Ok((taken, Some(ONE_COLUMN))), text);
    }
}

// A text, the name of a table, the room of the sink, how the import ends, and the records of table t then.
type Cause = (&'static str, &'static [u8], usize, ToolStatus, &'static str);

const CAUSES: &[Cause] = &[
    (
        "key,c1\n1,2\n",
        b"t",
        100,
        ToolStatus::Done,
        "key,c1\n1,2\n",
    ),
    ("key,c1\n1,2\n", b"s", 100, ToolStatus::NoTable, "key,c1\n"),
    (
        "key,c2\n1,2\n",
        b"t",
        100,
        ToolStatus::BadInput { line: 1 },
        "key,c1\n",
    ),
    ("", b"t", 100, ToolStatus::BadInput { line: 1 }, "key,c1\n"),
    (
        "\nkey,c1\n",
        b"t",
        100,
        ToolStatus::BadInput { line: 1 },
        "key,c1\n",
    ),
    (
        "key,c1,blob\n",
        b"t",
        100,
        ToolStatus::BadInput { line: 1 },
        "key,c1\n",
    ),
    // The line that is refused isn't told whole, and the ones before it are flushed.
    (
        "key,c1\n1,2\nx\n3,4\n",
        b"t",
        9,
        ToolStatus::OutWrite,
        "key,c1\n1,2\n",
    ),
    (
        "key,c1\n1,2\n",
        b"t",
        9,
        ToolStatus::OutWrite,
        "key,c1\n1,2\n",
    ),
];

// How an import of this cause ends, whether it tells how many records are kept, and whether table t has its records then.
fn end_of_cause(alloc: Global, cause: &Cause) -> Result<(ToolStatus, bool, bool), NoMemory> {
    let (text, name, room, _, kept) = *cause;
    let mut media = empty(alloc, PLAIN, PLAIN_BYTES)?;
    let end = import(alloc, &mut media, name, text.as_bytes(), room)?;
    let has_these = has_records(alloc, &mut media, kept.as_bytes())?;
    Ok((end.status, end.kept.is_some(), has_these))
}

#[test]
fn statuses_have_their_causes(rt: HostRuntime) {
    for cause in CAUSES {
        let wanted = (cause.3, cause.3 == ToolStatus::Done, true);
        same_at(&rt, &end_of_cause(rt.alloc(), cause), &Ok(wanted), cause);
    }
}

// How an import ends of whose source this call fails, whether it tells nothing, and whether table t has these records then.
fn import_cut_off(
    alloc: Global,
    call: u64,
    text: &[u8],
    kept: &[u8],
) -> Result<(ToolStatus, bool, bool), NoMemory> {
    let mut media = empty(alloc, PLAIN, PLAIN_BYTES)?;
    let refused = GoneBlobs::Refused;
    let (end, is_silent) = import_with(alloc, &mut media, b"t", refused, text, &[call], 100, "")?;
    Ok((end.status, is_silent, has_records(alloc, &mut media, kept)?))
}

#[test]
fn a_source_that_fails_is_told(rt: HostRuntime) {
    // The first call gives all bytes, and the second, which fails, would tell that there are no more.
    let end = Ok((ToolStatus::InputRead, true, true));
    let none = import_cut_off(rt.alloc(), 1, b"key,c1\n1,2\n", b"key,c1\n");
    same(&rt, &none, &end);
    let one = import_cut_off(rt.alloc(), 2, b"key,c1\n1,2\n3,4", b"key,c1\n1,2\n");
    same(&rt, &one, &end);
}

// How an import of one record ends where this call of the medium fails, and whether nothing is told.
fn import_failing(alloc: Global, call: u64) -> Result<(ToolStatus, bool), NoMemory>
    requires { 1 ≤ call }
{
    let mut media = empty(alloc, PLAIN, PLAIN_BYTES)?;
    media.fail_call(call);
    let (end, is_silent) = import_told(alloc, &mut media, b"key,c1\n1,2\n", "")?;
    Ok((end.status, is_silent))
}

// Whether each call of the medium that fails is told, up to those that an import doesn't make.
fn are_faults_told(alloc: Global) -> Result<bool, NoMemory> {
    for call in 1..200 {
        let end = import_failing(alloc, call)?;
        if end.0 == ToolStatus::Done {
            return Ok(true);
        }
        if end != (ToolStatus::Device, true) {
            return Ok(false);
        }
    }
    Ok(false)
}

#[test]
fn a_medium_that_fails_is_told(rt: HostRuntime) {
    // The first call reads the header, the third is one of the mount, and a later one programs the page of the flush.
    same(&rt, &are_faults_told(rt.alloc()), &Ok(true));
}

// How an import of a line of names into the table with a name ends, where number 5 doesn't stand at place 0, and an image has so many
// bytes in its pages.
fn end_of_bad(alloc: Global, name: &[u8], pages: u16) -> Result<JobEnd, NoMemory> {
    let pieces: [Piece<'_>; 3] = [(0, &[5, 0, 0, 0, 1, 0, 0, 0]), (8, &[1]), (120, &SEAL)];
    let mut media = medium(alloc, PLAIN, pages, &pieces)?;
    import(alloc, &mut media, name, b"key,c1\n", 100)
}

#[test]
fn a_bad_image_is_told(rt: HostRuntime) {
    let bad = JobEnd::of(ToolStatus::BadImage { table: 0 });
    same(&rt, &end_of_bad(rt.alloc(), b"t", PLAIN_BYTES), &Ok(bad));
    // It isn't mounted where no table has the name.
    let none = JobEnd::of(ToolStatus::NoTable);
    same(&rt, &end_of_bad(rt.alloc(), b"s", PLAIN_BYTES), &Ok(none));
    let short = JobEnd::of(ToolStatus::NotImage);
    same(&rt, &end_of_bad(rt.alloc(), b"t", 1535), &Ok(short));
}
