// Exports of images made by hand: what is written, and how they end.
ghost use Rattle.std.specs.Prelude.{◌≤◌};

use crate::asserts::{same, same_at};
use crate::checks::{Piece, SEAL, medium};
use fl_base::{KeyRange, MemSink, Name, NoMemory};
use fl_export::export_image;
use fl_flash::MemMedia;
use fl_image::ToolStatus;
use std::alloc::Global;

// Pages of 128 bytes, four a block, and a ring of three blocks.
const PLAIN: &str = "device 128 4\ntable t 8 i32 3 0 0 8 0 10 1 0\n";

const PLAIN_BYTES: u16 = 1536;

// Two such tables, one behind the other.
const TWO: &str = "device 128 4\ntable t 8 i32 3 0 0 8 0 10 1 0\ntable s 8 i32 3 0 0 8 0 10 1 0\n";

const TWO_BYTES: u16 = 3072;

// Data page 0 with the records (1, -25), (2, -5), (3, 0): 8 bytes of key and 4 of value each, from byte 16 on.
const THREE_ROWS: [u8; 52] = [
    0, 0, 0, 0, 3, 0, 0, 0, 1, 0, 0, 0, 0, 0, 0, 0, 1, 0, 0, 0, 0, 0, 0, 0, 0xe7, 0xff, 0xff, 0xff,
    2, 0, 0, 0, 0, 0, 0, 0, 0xfb, 0xff, 0xff, 0xff, 3, 0, 0, 0, 0, 0, 0, 0, 0, 0, 0, 0,
];

const THREE: [Piece<'static>; 2] = [(0, &THREE_ROWS), (120, &SEAL)];

// Pages of 64 bytes, two a block: one row a page in data pages 0 to 5, and variable data in pages 6 to 11.
const WITH_BLOBS: &str = "device 64 2\ntable t 8 i32 3 0 3 8 0 10 1 30\n";

const BLOB_BYTES: u16 = 768;

// A data page with one row: its number, its key, its value in one byte, and where its blob starts.
fn blob_page(number: u8, key: u8, value: u8, blob: [u8; 10]) -> [u8; 38] {
    let high = if value < 128 { 0 } else { 0xff };
    [
        number, 0, 0, 0, 1, 0, 0, 0, 1, 0, 0, 0, 0, 0, 0, 0, key, 0, 0, 0, 0, 0, 0, 0, value, high,
        high, high, blob[0], blob[1], blob[2], blob[3], blob[4], blob[5], blob[6], blob[7],
        blob[8], blob[9],
    ]
}

// A blob of so many bytes at the begin of a page.
fn blob_at(page: u8, length: u8) -> [u8; 10] {
    [page, 0, 0, 0, 0, 0, length, 0, 0, 0]
}

// How an export ends, of the keys from one to another of the table with a name, into a sink with so much room, and whether it
// writes so.
pub(crate) fn export(
    alloc: Global,
    media: &mut MemMedia,
    name: &[u8],
    keys: (u64, u64),
    room: usize,
    wanted: &str,
) -> Result<(ToolStatus, bool), NoMemory> {
    let Some(name) = Name::of(name) else {
        return Err(NoMemory);
    };
    let range = KeyRange {
        low: keys.0,
        high: keys.1,
    };
    let mut out = MemSink::new(alloc, room, Vec::new(alloc))?;
    let status = export_image(alloc, name, range, media, &mut out);
    Ok((status, out.bytes() == wanted.as_bytes()))
}

// .. of an image of such lines and pieces
fn export_of(
    alloc: Global,
    image: (&str, u16, &[Piece<'_>]),
    name: &[u8],
    keys: (u64, u64),
    room: usize,
    wanted: &str,
) -> Result<(ToolStatus, bool), NoMemory> {
    let mut media = medium(alloc, image.0, image.1, image.2)?;
    export(alloc, &mut media, name, keys, room, wanted)
}

const RANGES: &[((u64, u64), &str)] = &[
    ((0, 2), "key,c1\n1,-25\n2,-5\n"),
    ((0, u64::MAX), "key,c1\n1,-25\n2,-5\n3,0\n"),
    ((3, 3), "key,c1\n3,0\n"),
    ((4, 9), "key,c1\n"),
    ((2, 1), "key,c1\n"),
];

#[test]
fn records_of_a_range(rt: HostRuntime) {
    let image = (PLAIN, PLAIN_BYTES, THREE.as_slice());
    for (keys, wanted) in RANGES {
        let end = export_of(rt.alloc(), image, b"t", *keys, 100, wanted);
        same_at(&rt, &end, &Ok((ToolStatus::Done, true)), wanted);
    }
}

// How an export of four rows and their blobs ends, and whether it writes so.
fn export_blobs(alloc: Global, wanted: &str) -> Result<(ToolStatus, bool), NoMemory> {
    let pieces: [Piece<'_>; 11] = [
        (0, &blob_page(0, 1, 0xe7, [0xff; 10])),
        (56, &SEAL),
        (64, &blob_page(1, 2, 0xfb, blob_at(0, 3))),
        (120, &SEAL),
        (128, &blob_page(2, 3, 0, blob_at(0, 0))),
        (184, &SEAL),
        // Page 1 of the variable data is void.
        (192, &blob_page(3, 4, 7, blob_at(1, 5))),
        (248, &SEAL),
        (384, &[0, 0, 0, 0, 3, 0, 0, 0, 0x00, 0xab, 0xff]),
        (440, &SEAL),
        (508, &SEAL),
    ];
    let image = (WITH_BLOBS, BLOB_BYTES, pieces.as_slice());
    export_of(alloc, image, b"t", (0, 9), 100, wanted)
}

#[test]
fn blobs_are_told(rt: HostRuntime) {
    let text = "key,c1,blob\n1,-25,\n2,-5,00abff\n3,0,-\n4,7,gone\n";
    same(
        &rt,
        &export_blobs(rt.alloc(), text),
        &Ok((ToolStatus::Done, true)),
    );
}

// The lines, bytes and pieces of an image, the name of a table, the room of the sink, and how the export ends.
type Cause = (
    &'static str,
    u16,
    &'static [Piece<'static>],
    &'static [u8],
    usize,
    ToolStatus,
);

const CAUSES: &[Cause] = &[
    (PLAIN, PLAIN_BYTES, &THREE, b"t", 100, ToolStatus::Done),
    (PLAIN, PLAIN_BYTES, &THREE, b"t", 9, ToolStatus::OutWrite),
    (PLAIN, PLAIN_BYTES, &THREE, b"s", 100, ToolStatus::NoTable),
    (PLAIN, 1535, &THREE, b"t", 100, ToolStatus::NotImage),
    ("device 128 4\n", 0, &[], b"t", 100, ToolStatus::NotImage),
    // Number 5 doesn't stand at place 0.
    (
        PLAIN,
        PLAIN_BYTES,
        &[(0, &THREE_ROWS), (0, &[5]), (120, &SEAL)],
        b"t",
        100,
        ToolStatus::BadImage { table: 0 },
    ),
    // Nor in the second table.
    (
        TWO,
        TWO_BYTES,
        &[
            (0, &THREE_ROWS),
            (120, &SEAL),
            (1536, &THREE_ROWS),
            (1536, &[5]),
            (1656, &SEAL),
        ],
        b"t",
        100,
        ToolStatus::BadImage { table: 1 },
    ),
];

// Whether an export ends for this cause.
fn has_cause(alloc: Global, cause: &Cause) -> Result<bool, NoMemory> {
    let (text, pages, pieces, name, room, wanted) = *cause;
    let (status, _is_told) = export_of(alloc, (text, pages, pieces), name, (0, 9), room, "")?;
    Ok(status == wanted)
}

#[test]
fn statuses_have_their_causes(rt: HostRuntime) {
    for i in 0..CAUSES.len() {
        same_at(&rt, &has_cause(rt.alloc(), &CAUSES[i]), &Ok(true), &i);
    }
}

// How an export ends where this call of the medium fails, and whether it writes nothing.
fn export_failing(alloc: Global, call: u64) -> Result<(ToolStatus, bool), NoMemory>
    requires { 1 ≤ call }
{
    let mut media = medium(alloc, PLAIN, PLAIN_BYTES, &THREE)?;
    media.fail_call(call);
    export(alloc, &mut media, b"t", (0, 9), 100, "")
}

#[test]
fn a_medium_that_fails_is_told(rt: HostRuntime) {
    // The first call reads the header, and the third is one of the mount.
    let end = Ok((ToolStatus::Device, true));
    same(&rt, &export_failing(rt.alloc(), 1), &end);
    same(&rt, &export_failing(rt.alloc(), 3), &end);
}

// How an export ends of an image on which a page was begun behind the first one, which is sealed, whether it writes so, and whether
// the page has its void mark then.
fn export_torn(alloc: Global, wanted: &str) -> Result<(ToolStatus, bool, bool), NoMemory> {
    let pieces: [Piece<'_>; 3] = [(0, &THREE_ROWS), (120, &SEAL), (128, &[1])];
    let mut media = medium(alloc, PLAIN, PLAIN_BYTES, &pieces)?;
    let (status, is_told) = export(alloc, &mut media, b"t", (3, 9), 100, wanted)?;
    Ok((status, is_told, media.bytes().get(1024 + 252) == Some(&0)))
}

#[test]
fn a_torn_page_is_repaired(rt: HostRuntime) {
    let end = export_torn(rt.alloc(), "key,c1\n3,0\n");
    same(&rt, &end, &Ok((ToolStatus::Done, true, true)));
}
