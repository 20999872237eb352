// Salvages of damaged images made by hand: what is written, and which pages are passed over.
use crate::asserts::{same, same_at};
use crate::checks::{Piece, SEAL, image};
use fl_base::{MemSink, MemSource, Name, NoMemory};
use fl_flash::MemMedia;
use fl_image::ToolStatus;
use fl_salvage::{PassedOver, SalvageEnd, salvage_image};
use std::alloc::Global;

// Pages of 64 bytes, two a block, and a ring of three blocks: data pages 0 to 5.
const PLAIN: &str = "device 64 2\ntable t 8 i32 3 0 0 8 0 10 1 0\n";

const PLAIN_BYTES: u16 = 384;

// .. and behind them variable data in pages 6 to 11.
const WITH_BLOBS: &str = "device 64 2\ntable t 8 i32 3 0 3 8 0 10 1 60\n";

const BLOB_BYTES: u16 = 768;

const NONE: PassedOver = PassedOver {
    missing: 0,
    torn: 0,
    void: 0,
    misplaced: 0,
    unformed: 0,
};

// A data page with this number and so many rows, the first of which has this key and the value 7.
fn page(number: u8, rows: u8, key: u8) -> [u8; 28] {
    [
        number, 0, 0, 0, rows, 0, 0, 0, 0, 0, 0, 0, 0, 0, 0, 0, key, 0, 0, 0, 0, 0, 0, 0, 7, 0, 0,
        0,
    ]
}

// A data page with one row whose blob of so many bytes begins on this page.
fn blob_page(number: u8, at: u8, length: u8) -> [u8; 38] {
    [
        number, 0, 0, 0, 1, 0, 0, 0, 0, 0, 0, 0, 0, 0, 0, 0, number, 0, 0, 0, 0, 0, 0, 0, 7, 0, 0,
        0, at, 0, 0, 0, 0, 0, length, 0, 0, 0,
    ]
}

// How a salvage of the table with a name ends, where the input gives this text, and whether it writes so.
fn salvage(
    alloc: Global,
    bytes: Vec<u8>,
    name: &[u8],
    given: &str,
    wanted: &str,
) -> Result<(SalvageEnd, bool), NoMemory> {
    let Some(name) = Name::of(name) else {
        return Err(NoMemory);
    };
    let len = bytes.len();
    let mut media = MemMedia::new(alloc, bytes, len)?;
    let mut text = Vec::new(alloc);
    text.extend_from_slice(given.as_bytes())?;
    let mut input = MemSource::new(text, Vec::new(alloc));
    let mut out = MemSink::new(alloc, 500, Vec::new(alloc))?;
    let end = salvage_image(alloc, name, &mut media, &mut input, &mut out);
    Ok((end, out.bytes() == wanted.as_bytes()))
}

// The end of a salvage that is done.
fn done(passed_over: PassedOver) -> SalvageEnd {
    SalvageEnd {
        status: ToolStatus::Done,
        passed_over,
    }
}

// Pages 6, 7, 2 and 3 at the places of their numbers; the block behind them lacks all of its bytes.
fn cut_short(alloc: Global) -> Result<Vec<u8>, NoMemory> {
    let pieces: [Piece<'_>; 8] = [
        (0, &page(6, 1, 60)),
        (56, &SEAL),
        (64, &page(7, 1, 70)),
        (120, &SEAL),
        (128, &page(2, 1, 20)),
        (184, &SEAL),
        (192, &page(3, 1, 30)),
        (248, &SEAL),
    ];
    let mut bytes = image(alloc, PLAIN, PLAIN_BYTES, &pieces)?;
    bytes.truncate(1024 + 300);
    Ok(bytes)
}

fn salvage_cut_short(alloc: Global, wanted: &str) -> Result<(SalvageEnd, bool), NoMemory> {
    salvage(alloc, cut_short(alloc)?, b"t", PLAIN, wanted)
}

#[test]
fn pages_come_in_the_order_of_their_numbers(rt: HostRuntime) {
    let passed = PassedOver { missing: 2, ..NONE };
    let text = "key,c1\n20,7\n30,7\n60,7\n70,7\n";
    same(
        &rt,
        &salvage_cut_short(rt.alloc(), text),
        &Ok((done(passed), true)),
    );
}

// Pages of which the last one alone is good.
fn mostly_bad(alloc: Global) -> Result<Vec<u8>, NoMemory> {
    let pieces: [Piece<'_>; 11] = [
        // A page without rows, and one with more than there is room for.
        (0, &page(0, 0, 1)),
        (56, &SEAL),
        (64, &page(1, 4, 2)),
        (120, &SEAL),
        // One with the number of another place, one that is torn, and one that is void.
        (128, &page(3, 1, 3)),
        (184, &SEAL),
        (192, &page(3, 1, 4)),
        (256, &page(4, 1, 5)),
        (316, &SEAL),
        (320, &page(5, 1, 6)),
        (376, &SEAL),
    ];
    image(alloc, PLAIN, PLAIN_BYTES, &pieces)
}

fn salvage_mostly_bad(alloc: Global, wanted: &str) -> Result<(SalvageEnd, bool), NoMemory> {
    salvage(alloc, mostly_bad(alloc)?, b"t", "", wanted)
}

const PASSED: PassedOver = PassedOver {
    missing: 0,
    torn: 1,
    void: 1,
    misplaced: 1,
    unformed: 2,
};

#[test]
fn pages_are_passed_over(rt: HostRuntime) {
    let end = salvage_mostly_bad(rt.alloc(), "key,c1\n6,7\n");
    same(&rt, &end, &Ok((done(PASSED), true)));
}

fn salvage_blobs(alloc: Global, wanted: &str) -> Result<(SalvageEnd, bool), NoMemory> {
    let full = [0xab; 48];
    let pieces: [Piece<'_>; 13] = [
        // From page 0 on to page 1; from page 1 behind its content; of no bytes; and longer than any blob of the table.
        (0, &blob_page(0, 0, 50)),
        (56, &SEAL),
        (64, &blob_page(1, 1, 9)),
        (120, &SEAL),
        (128, &blob_page(2, 9, 0)),
        (184, &SEAL),
        (192, &blob_page(3, 0, 61)),
        (248, &SEAL),
        (384, &[0, 0, 0, 0, 48, 0, 0, 0]),
        (392, &full),
        (440, &SEAL),
        (448, &[1, 0, 0, 0, 8, 0, 0, 0, 1, 2, 3, 4, 5, 6, 7, 8]),
        (504, &SEAL),
    ];
    let bytes = image(alloc, WITH_BLOBS, BLOB_BYTES, &pieces)?;
    salvage(alloc, bytes, b"t", "", wanted)
}

#[test]
fn blobs_are_whole_or_gone(rt: HostRuntime) {
    let text =
        "key,c1,blob\n0,7,abababababababababababababababababababababababababababababababababababababababababababababababab0102\n1,7,gone\n2,7,-\n3,7,gone\n";
    same(
        &rt,
        &salvage_blobs(rt.alloc(), text),
        &Ok((done(NONE), true)),
    );
}

// The lines of an image, the name of a table, what the input gives, and how a salvage ends.
type Cause = (&'static str, &'static [u8], &'static str, ToolStatus);

const CAUSES: &[Cause] = &[
    (PLAIN, b"t", "", ToolStatus::Done),
    (PLAIN, b"s", "", ToolStatus::NoTable),
    // A header that lacks its first letter, and what is given in its place.
    ("evice 64 2\n", b"t", PLAIN, ToolStatus::Done),
    ("evice 64 2\n", b"t", "", ToolStatus::NotImage),
    ("evice 64 2\n", b"t", "device 64 2\n", ToolStatus::NotImage),
    ("evice 64 2\n", b"t", "device 64\n", ToolStatus::NotImage),
];

// Whether a salvage ends for this cause.
fn has_cause(alloc: Global, cause: &Cause) -> Result<bool, NoMemory> {
    let (text, name, given, wanted) = *cause;
    let bytes = image(alloc, text, PLAIN_BYTES, &[])?;
    let (end, _is_told) = salvage(alloc, bytes, name, given, "")?;
    Ok(end.status == wanted)
}

#[test]
fn statuses_have_their_causes(rt: HostRuntime) {
    for cause in CAUSES {
        same_at(&rt, &has_cause(rt.alloc(), cause), &Ok(true), cause);
    }
}
