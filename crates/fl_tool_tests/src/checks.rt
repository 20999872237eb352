// Images made by hand, and what a check says of them: of sound ones, and of some that break each rule.
mod two_tables;

use crate::asserts::{same, same_at};
use fl_base::{MemSink, NoMemory};
use fl_flash::MemMedia;
use fl_image::ToolStatus;
use fl_image_check::{RingChecker, check_all, check_image};
use std::alloc::Global;

// Pages of 64 bytes, two a block, and rings of three blocks: data pages 0 to 5, and behind them the index or the variable
// data in pages 6 to 11.
const PLAIN: &str = "device 64 2\ntable t 8 i32 3 0 0 8 0 10 1 0\n";

const INDEXED: &str = "device 64 2\ntable t 8 i32 3 3 0 64 0 10 1 0\n";

const WITH_BLOBS: &str = "device 64 2\ntable t 8 i32 3 0 3 8 0 10 1 30\n";

// Rings of fifteen pages, a number that divides 2^32 - 1.
const FIFTEEN: &str = "device 128 5\ntable t 8 i32 3 3 0 64 0 1 1 0\n";

// What stands at a place among the bytes of the pages.
pub(crate) type Piece<'b> = (u16, &'b [u8]);

// What stands in a page's commit field where it is committed, and in its void field where it is given up.
pub(crate) const SEAL: [u8; 4] = [0; 4];

const BLANK: &str = "sound t rows 0 pages 0 voids 0\n";

const ONE_ROW: &str = "sound t rows 1 pages 1 voids 0\n";

// Data page 0 with one row: the value 0 with key 1. The number stands at 0, the key at 16.
const ROW: [u8; 28] = [
    0, 0, 0, 0, 1, 0, 0, 0, 1, 0, 0, 0, 0, 0, 0, 0, 1, 0, 0, 0, 0, 0, 0, 0, 0, 0, 0, 0,
];

// Index page 0, which lists five pages from page 0 on, with empty bitmaps. The number stands at 0, the first page at 4.
const LISTING: [u8; 56] = [
    0, 0, 0, 0, 0, 0, 0, 0, 5, 0, 0, 0, 0, 0, 0, 0, 0, 0, 0, 0, 0, 0, 0, 0, 0, 0, 0, 0, 0, 0, 0, 0,
    0, 0, 0, 0, 0, 0, 0, 0, 0, 0, 0, 0, 0, 0, 0, 0, 0, 0, 0, 0, 0, 0, 0, 0,
];

// Data page 0, whose row has a blob at this place.
pub(crate) fn blob_page(page: u8, offset: u8, length: u8) -> [u8; 38] {
    [
        0, 0, 0, 0, 1, 0, 0, 0, 1, 0, 0, 0, 0, 0, 0, 0, 1, 0, 0, 0, 0, 0, 0, 0, 0, 0, 0, 0, page,
        0, 0, 0, offset, 0, length, 0, 0, 0,
    ]
}

// A page of variable data with this number, and the number of its bytes of content.
pub(crate) fn content_page(number: u8, used: u8) -> [u8; 8] {
    [number, 0, 0, 0, used, 0, 0, 0]
}

// An image of this configuration, whose pages are blank but for these pieces, of which a later one hides an earlier one.
pub(crate) fn image(
    alloc: Global,
    text: &str,
    pages: u16,
    pieces: &[Piece<'_>],
) -> Result<Vec<u8>, NoMemory> {
    let mut bytes = Vec::new(alloc);
    bytes.extend_from_slice(text.as_bytes())?;
    bytes.resize(1024, b' ')?;
    bytes.resize(1024 + pages as usize, 0xff)?;
    for (at, piece) in pieces {
        let begin = 1024 + *at as usize;
        for i in 0..piece.len() {
            if let Some(byte) = bytes.get_mut(begin + i) {
                *byte = piece[i];
            }
        }
    }
    Ok(bytes)
}

// A medium with such an image.
pub(crate) fn medium(
    alloc: Global,
    text: &str,
    pages: u16,
    pieces: &[Piece<'_>],
) -> Result<MemMedia, NoMemory> {
    let bytes = image(alloc, text, pages, pieces)?;
    let len = bytes.len();
    MemMedia::new(alloc, bytes, len)
}

// What a check writes of such an image, with so many bytes in its pages.
fn check(alloc: Global, text: &str, pages: u16, pieces: &[Piece<'_>]) -> Result<MemSink, NoMemory> {
    let mut media = medium(alloc, text, pages, pieces)?;
    let mut out = MemSink::new(alloc, 100, Vec::new(alloc))?;
    let _status = check_image(alloc, &mut RingChecker, &mut media, &mut out);
    Ok(out)
}

// Whether a check writes so of an image.
pub(crate) fn is_told(
    alloc: Global,
    text: &str,
    pages: u16,
    pieces: &[Piece<'_>],
    wanted: &str,
) -> Result<bool, NoMemory> {
    let out = check(alloc, text, pages, pieces)?;
    Ok(out.bytes() == wanted.as_bytes())
}

// Images by their pieces, each with what a check writes of it.
pub(crate) type Images = &'static [(&'static [Piece<'static>], &'static str)];

// The first image of which a check doesn't write what it has to.
pub(crate) fn first_mistold(
    alloc: Global,
    text: &str,
    pages: u16,
    images: Images,
) -> Result<Option<usize>, NoMemory> {
    for i in 0..images.len() {
        let (pieces, wanted) = images[i];
        if !is_told(alloc, text, pages, pieces, wanted)? {
            return Ok(Some(i));
        }
    }
    Ok(None)
}

const SOUND_RINGS: Images = &[
    (&[], BLANK),
    (&[(0, &ROW), (56, &SEAL)], ONE_ROW),
    // The page was begun.
    (&[(0, &ROW)], BLANK),
    (&[(60, &SEAL)], "sound t rows 0 pages 1 voids 1\n"),
    (
        &[
            (0, &ROW),
            (56, &SEAL),
            (64, &ROW),
            (64, &[1]),
            (80, &[2]),
            (120, &SEAL),
        ],
        "sound t rows 2 pages 2 voids 0\n",
    ),
    // The block ahead waits for its erase.
    (
        &[(60, &SEAL), (124, &SEAL), (188, &SEAL), (256, &[0])],
        "sound t rows 0 pages 3 voids 3\n",
    ),
];

#[test]
fn sound_rings(rt: HostRuntime) {
    same(
        &rt,
        &first_mistold(rt.alloc(), PLAIN, 384, SOUND_RINGS),
        &Ok(None),
    );
}

const HEADS_AND_STATES: Images = &[
    // Each block is full.
    (
        &[(124, &SEAL), (252, &SEAL), (380, &SEAL)],
        "fault t data 0 1\n",
    ),
    // A kept page is blank.
    (&[(124, &SEAL)], "fault t data 0 2\n"),
    // A page is begun after a blank one.
    (&[(64, &[0])], "fault t data 1 2\n"),
    // The last page of a block is begun, and the block ahead isn't blank.
    (
        &[(60, &SEAL), (64, &[0]), (128, &[0])],
        "fault t data 1 2\n",
    ),
];

#[test]
fn heads_and_states(rt: HostRuntime) {
    same(
        &rt,
        &first_mistold(rt.alloc(), PLAIN, 384, HEADS_AND_STATES),
        &Ok(None),
    );
}

const NUMBERS: Images = &[
    // Number 5 doesn't stand at place 0.
    (&[(0, &ROW), (0, &[5]), (56, &SEAL)], "fault t data 0 3\n"),
    // Numbers 6 and 1 stand one after the other.
    (
        &[
            (0, &ROW),
            (0, &[6]),
            (56, &SEAL),
            (64, &ROW),
            (64, &[1]),
            (80, &[2]),
            (120, &SEAL),
        ],
        "fault t data 0 3\n",
    ),
    // The oldest of four pages would have the number 1 - 3.
    (
        &[
            (316, &SEAL),
            (380, &SEAL),
            (60, &SEAL),
            (64, &ROW),
            (64, &[1]),
            (120, &SEAL),
        ],
        "fault t data 4 3\n",
    ),
    // The greatest number stands at place 3, and none comes after it.
    (
        &[
            (60, &SEAL),
            (124, &SEAL),
            (188, &SEAL),
            (192, &ROW),
            (192, &[255, 255, 255, 255]),
            (248, &SEAL),
        ],
        "fault t data 0 3\n",
    ),
];

#[test]
fn numbers(rt: HostRuntime) {
    same(
        &rt,
        &first_mistold(rt.alloc(), PLAIN, 384, NUMBERS),
        &Ok(None),
    );
}

// Whether a check writes so where the data ring keeps no page, and the index lists thirteen from a number with this low byte on.
fn is_told_of_listed(alloc: Global, low: u8, wanted: &str) -> Result<bool, NoMemory> {
    let listed = [0, 0, 0, 0, low, 255, 255, 255, 13, 0];
    let pieces: [Piece<'_>; 3] = [(1920, &[0; 120]), (1920, &listed), (2040, &SEAL)];
    is_told(alloc, FIFTEEN, 3840, &pieces, wanted)
}

// The data ring's numbers begin behind those that the index lists: there is one left below 2^32 in the first image, and none in the
// second.
#[test]
fn least_numbers(rt: HostRuntime) {
    same(&rt, &is_told_of_listed(rt.alloc(), 242, BLANK), &Ok(true));
    let spent = "fault t data 0 3\n";
    same(&rt, &is_told_of_listed(rt.alloc(), 243, spent), &Ok(true));
}

const BODIES_KEYS_AND_REST: Images = &[
    // Another bitmap, no row, a byte that is to be 0, one that is to be FF, and a committed page that is given up.
    (&[(0, &ROW), (8, &[2]), (56, &SEAL)], "fault t data 0 4\n"),
    (&[(0, &ROW), (4, &[0]), (56, &SEAL)], "fault t data 0 4\n"),
    (&[(0, &ROW), (6, &[1]), (56, &SEAL)], "fault t data 0 4\n"),
    (&[(0, &ROW), (40, &[0]), (56, &SEAL)], "fault t data 0 4\n"),
    (&[(0, &ROW), (56, &SEAL), (60, &SEAL)], "fault t data 0 4\n"),
    // Key 1 comes twice, and after key 2.
    (
        &[(0, &ROW), (56, &SEAL), (64, &ROW), (64, &[1]), (120, &SEAL)],
        "fault t data 1 5\n",
    ),
    (
        &[
            (0, &ROW),
            (4, &[2]),
            (16, &[2]),
            (28, &[1, 0, 0, 0, 0, 0, 0, 0, 0, 0, 0, 0]),
            (56, &SEAL),
        ],
        "fault t data 0 5\n",
    ),
    // A page that isn't kept is begun.
    (&[(256, &[0])], "fault t data 4 8\n"),
];

#[test]
fn bodies_keys_and_rest(rt: HostRuntime) {
    same(
        &rt,
        &first_mistold(rt.alloc(), PLAIN, 384, BODIES_KEYS_AND_REST),
        &Ok(None),
    );
}

const ENTRIES: Images = &[
    (&[(384, &LISTING), (440, &SEAL)], BLANK),
    // The fifth entry is the bitmap of page 6, or another one.
    (
        &[
            (0, &ROW),
            (0, &[6]),
            (56, &SEAL),
            (384, &LISTING),
            (388, &[2]),
            (432, &[1]),
            (440, &SEAL),
        ],
        ONE_ROW,
    ),
    (
        &[
            (0, &ROW),
            (0, &[6]),
            (56, &SEAL),
            (384, &LISTING),
            (388, &[2]),
            (432, &[2]),
            (440, &SEAL),
        ],
        "fault t index 6 6\n",
    ),
    // Pages 1 to 4 aren't written.
    (
        &[
            (0, &ROW),
            (56, &SEAL),
            (384, &LISTING),
            (400, &[1]),
            (440, &SEAL),
        ],
        "fault t index 6 6\n",
    ),
    // Pages 3 to 6 are listed twice.
    (
        &[
            (384, &LISTING),
            (388, &[2]),
            (440, &SEAL),
            (448, &LISTING),
            (448, &[1, 0, 0, 0, 3]),
            (504, &SEAL),
        ],
        "fault t index 7 6\n",
    ),
    // An index page isn't full.
    (
        &[(384, &LISTING), (392, &[4]), (440, &SEAL)],
        "fault t index 6 4\n",
    ),
];

#[test]
fn entries(rt: HostRuntime) {
    same(
        &rt,
        &first_mistold(rt.alloc(), INDEXED, 768, ENTRIES),
        &Ok(None),
    );
}

// The page and the offset of a row's blob and its length, the number of bytes of content of variable data page 0, and what a check
// writes.
const REFERENCES: &[(u8, u8, u8, u8, &str)] = &[
    // The blob, or the end of it.
    (0, 0, 3, 3, ONE_ROW),
    (0, 2, 1, 3, ONE_ROW),
    // The content ends before it, or before its beginning.
    (0, 0, 3, 2, "fault t data 0 7\n"),
    (0, 3, 1, 3, "fault t data 0 7\n"),
    // Page 1 isn't written.
    (1, 0, 3, 3, "fault t data 0 7\n"),
    // The reference to an empty blob isn't ten bytes 0.
    (1, 0, 0, 3, "fault t data 0 4\n"),
    // A page has no content.
    (0, 0, 3, 0, "fault t var 6 4\n"),
];

// Whether a check writes so of a row with a blob, and of a page of variable data.
fn is_told_of_blob(
    alloc: Global,
    rows: [u8; 38],
    content: [u8; 8],
    wanted: &str,
) -> Result<bool, NoMemory> {
    let pieces: [Piece<'_>; 4] = [(0, &rows), (56, &SEAL), (384, &content), (440, &SEAL)];
    is_told(alloc, WITH_BLOBS, 768, &pieces, wanted)
}

#[test]
fn references(rt: HostRuntime) {
    for case in REFERENCES {
        let (page, offset, length, used, wanted) = *case;
        let rows = blob_page(page, offset, length);
        let told = is_told_of_blob(rt.alloc(), rows, content_page(0, used), wanted);
        same_at(&rt, &told, &Ok(true), case);
    }
}

const MISLEADS: &str = "fault t data 0 7\n";

// The page and the offset of a row's blob and its length, the number of bytes of content of the second page of three, where that
// page's mark stands, and what a check writes. 48 bytes of content fill a page.
const OVER_PAGES: &[(u8, u8, u8, u8, u16, &str)] = &[
    // The blob ends with the content of the last page, or a byte after it.
    (0, 10, 95, 48, 504, ONE_ROW),
    (0, 10, 96, 48, 504, MISLEADS),
    // It ends with a full page.
    (0, 0, 96, 48, 504, ONE_ROW),
    // It begins with the last byte of a full page, or after it.
    (0, 47, 2, 48, 504, ONE_ROW),
    (0, 48, 1, 48, 504, MISLEADS),
    // The second page lacks a byte.
    (0, 0, 95, 47, 504, ONE_ROW),
    (0, 0, 96, 47, 504, MISLEADS),
    // It was given up, so that a blob that begins there is gone.
    (0, 0, 48, 48, 508, ONE_ROW),
    (0, 0, 49, 48, 508, MISLEADS),
    (1, 0, 1, 48, 508, ONE_ROW),
];

// Whether a check writes so of a row with a blob, and of three pages of variable data.
fn is_told_over_pages(
    alloc: Global,
    rows: [u8; 38],
    second: [u8; 8],
    mark: u16,
    wanted: &str,
) -> Result<bool, NoMemory> {
    let first = content_page(0, 48);
    let third = content_page(2, 9);
    let pieces: [Piece<'_>; 8] = [
        (0, &rows),
        (56, &SEAL),
        (384, &first),
        (440, &SEAL),
        (448, &second),
        (mark, &SEAL),
        (512, &third),
        (568, &SEAL),
    ];
    is_told(alloc, WITH_BLOBS, 768, &pieces, wanted)
}

#[test]
fn blobs_over_pages(rt: HostRuntime) {
    for case in OVER_PAGES {
        let (page, offset, length, used, mark, wanted) = *case;
        let rows = blob_page(page, offset, length);
        let told = is_told_over_pages(rt.alloc(), rows, content_page(1, used), mark, wanted);
        same_at(&rt, &told, &Ok(true), case);
    }
}

// Whether a check writes so of a row whose blob is in no page.
fn is_told_without_blob(alloc: Global, wanted: &str) -> Result<bool, NoMemory> {
    let rows = blob_page(0, 0, 3);
    is_told(alloc, WITH_BLOBS, 768, &[(0, &rows), (56, &SEAL)], wanted)
}

#[test]
fn a_blob_that_is_gone(rt: HostRuntime) {
    same(&rt, &is_told_without_blob(rt.alloc(), ONE_ROW), &Ok(true));
}
