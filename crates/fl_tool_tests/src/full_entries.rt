// An image whose index has full entries, and what a check says of it where a byte of an entry is another one.
use crate::asserts::same_at;
use crate::checks::{Piece, SEAL, blob_page, content_page, is_told};
use fl_base::NoMemory;
use std::alloc::Global;

// Pages of 64 bytes, two a block, and rings of three blocks: data pages 0 to 5, index pages 6 to 11, and those of the variable
// data.
const FULL: &str = "device 64 2\ntable t 8 i32 3 3 3 8 0 10 1 30 index2\n";

// Index page 0, which lists data page 0, with a row of key 1 whose blob begins on page 0, and data page 1, which is void. Their
// entries stand at 16 and 31: the bitmap, the first key in eight bytes, the count of rows in two, and the end of the blobs.
const LISTING: [u8; 46] = [
    0, 0, 0, 0, 0, 0, 0, 0, 2, 0, 0, 0, 0, 0, 0, 0, 1, 1, 0, 0, 0, 0, 0, 0, 0, 1, 0, 1, 0, 0, 0, 0,
    0, 0, 0, 0, 0, 0, 0, 0, 0, 0, 0, 0, 0, 0,
];

const SOUND: &str = "sound t rows 1 pages 2 voids 1\n";

const MISENTERED: &str = "fault t index 6 6\n";

// Whether a check writes so of the image with this byte at a place.
fn is_told_with(alloc: Global, at: u16, byte: u8, wanted: &str) -> Result<bool, NoMemory> {
    let changed = [byte];
    let row = blob_page(0, 0, 3);
    let content = content_page(0, 3);
    let pieces: [Piece<'_>; 8] = [
        (0, &row),
        (56, &SEAL),
        (124, &SEAL),
        (384, &LISTING),
        (at, &changed),
        (440, &SEAL),
        (768, &content),
        (824, &SEAL),
    ];
    is_told(alloc, FULL, 1152, &pieces, wanted)
}

// Each byte of the index page that is changed, what it becomes, and what a check says.
const FIELDS: &[(u16, u8, &str)] = &[
    (384 + 16, 1, SOUND),
    // The bitmap, and the first and the last byte of the first key.
    (384 + 16, 3, MISENTERED),
    (384 + 17, 2, MISENTERED),
    (384 + 24, 1, MISENTERED),
    // The count of rows, and one that is the same in its low byte.
    (384 + 25, 2, MISENTERED),
    (384 + 25, 0, MISENTERED),
    (384 + 26, 1, MISENTERED),
    // The end of the blobs, one less, one more, and one that is the same in its low byte.
    (384 + 27, 0, MISENTERED),
    (384 + 27, 2, MISENTERED),
    (384 + 30, 1, MISENTERED),
    // Each field of the entry of the void page.
    (384 + 31, 1, MISENTERED),
    (384 + 32, 1, MISENTERED),
    (384 + 40, 1, MISENTERED),
    (384 + 42, 1, MISENTERED),
    (384 + 45, 1, MISENTERED),
];

#[test]
fn each_field_is_compared(rt: HostRuntime) {
    for case in FIELDS {
        let (at, byte, wanted) = *case;
        let told = is_told_with(rt.alloc(), at, byte, wanted);
        same_at(&rt, &told, &Ok(true), case);
    }
}

// Whether a check finds the entry bad whose blobs end at a page whose number has this byte four times, where the row is forged to name
// the last page that there can be.
fn is_misentered_with(alloc: Global, byte: u8) -> Result<bool, NoMemory> {
    let row = blob_page(0, 0, 3);
    let content = content_page(0, 3);
    let end = [byte; 4];
    let pieces: [Piece<'_>; 9] = [
        (0, &row),
        (28, &[255; 4]),
        (56, &SEAL),
        (124, &SEAL),
        (384, &LISTING),
        (411, &end),
        (440, &SEAL),
        (768, &content),
        (824, &SEAL),
    ];
    is_told(alloc, FULL, 1152, &pieces, MISENTERED)
}

// No entry can tell where its blob ends.
#[test]
fn an_end_that_fits_no_entry(rt: HostRuntime) {
    for byte in [0, 1, 255] {
        same_at(&rt, &is_misentered_with(rt.alloc(), byte), &Ok(true), &byte);
    }
}
