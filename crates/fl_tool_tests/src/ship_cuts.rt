// Ships that a loss of power ends, at each operation of the copy's flash or of the source's: the next ship brings what is left.
ghost use Rattle.std.specs.Prelude.{◌≤◌};

use crate::asserts::same;
use crate::checks::{self, Piece, SEAL};
use crate::imports::{import, records};
use crate::ships::{row_page, ship};
use fl_base::{CutKind, NoMemory};
use fl_flash::MemMedia;
use fl_ship::{ShipStatus, Side};
use std::alloc::Global;

// Pages of 64 bytes, two a block, and a ring of three blocks, whose pages hold three rows each.
const LINES: &str = "device 64 2\ntable t 8 i32 3 0 0 8 0 10 1 0\n";

const PAGES: u16 = 384;

const KINDS: [CutKind; 5] = [
    CutKind::Before,
    CutKind::Half,
    CutKind::After,
    CutKind::Noise(1),
    CutKind::Noise(2),
];

// A line for each of these keys, which have two digits, with the value 0.
fn lines(alloc: Global, low: u8, high: u8) -> Result<Vec<u8>, NoMemory> {
    let mut text = Vec::new(alloc);
    for key in low..high {
        text.extend_from_slice(&[b'0' + key / 10, b'0' + key % 10, b',', b'0', b'\n'])?;
    }
    Ok(text)
}

// An image with these pieces, into which the records with these keys were put then.
fn made(alloc: Global, pieces: &[Piece<'_>], low: u8, high: u8) -> Result<MemMedia, NoMemory> {
    let mut media = checks::medium(alloc, LINES, PAGES, pieces)?;
    let mut text = b"key,c1\n".to_vec(alloc)?;
    text.extend_from_slice(&lines(alloc, low, high)?)?;
    let _end = import(alloc, &mut media, b"t", &text, 100)?;
    Ok(media)
}

fn medium(alloc: Global, bytes: &[u8]) -> Result<MemMedia, NoMemory> {
    MemMedia::new(alloc, bytes.to_vec(alloc)?, bytes.len())
}

// A source and its copy.
#[derive(Drop)]
struct Images {
    source: MemMedia,
    copy: MemMedia,
}

impl Images {
    fn bytes(&self, side: Side) -> &[u8] {
        match side {
            Side::Source => self.source.bytes(),
            Side::Copy => self.copy.bytes(),
        }
    }

    // The same images, but for these bytes on one side.
    fn with(&self, alloc: Global, side: Side, bytes: &[u8]) -> Result<Images, NoMemory> {
        Ok(match side {
            Side::Source => Images {
                source: medium(alloc, bytes)?,
                copy: medium(alloc, self.copy.bytes())?,
            },
            Side::Copy => Images {
                source: medium(alloc, self.source.bytes())?,
                copy: medium(alloc, bytes)?,
            },
        })
    }

    // What a ship leaves of them which ends at a call of this side's medium; none where it makes fewer calls.
    fn stopped(&self, alloc: Global, side: Side, call: u64) -> Result<(Images, bool), NoMemory>
        requires { 1 ≤ call }
    {
        let mut now = self.with(alloc, side, self.bytes(side))?;
        match side {
            Side::Source => now.source.fail_call(call),
            Side::Copy => now.copy.fail_call(call),
        }
        let status = ship(alloc, 100, &mut now.source, &mut now.copy)?;
        Ok((now, status == ShipStatus::Device { side }))
    }

    // Whether the copy has a part of these lines, and a ship tells how many come after them and brings these. The copy keeps the
    // last ones then, at least.
    fn go_on(mut self, alloc: Global, all: &[u8], last: &[u8]) -> Result<bool, NoMemory> {
        let had = records(alloc, &mut medium(alloc, self.copy.bytes())?)?;
        let status = ship(alloc, 100, &mut self.source, &mut self.copy)?;
        let now = records(alloc, &mut self.copy)?;
        let (Some(left), Some(none)) = (behind(all, had.bytes()), behind(all, now.bytes())) else {
            return Ok(false);
        };
        let shipped = (left.len() / 5) as u64;
        let is_told = status == ShipStatus::Done { shipped };
        Ok(is_told && none.is_empty() && now.bytes().ends_with(last))
    }
}

// What comes behind some of these lines, which stand there in order and without a gap. The text begins with the names of the columns.
fn behind<'l>(all: &'l [u8], text: &[u8]) -> Option<&'l [u8]> {
    let some = text.strip_prefix(b"key,c1\n")?;
    for at in 0..all.len() {
        if let Some(rest) = all[at..].strip_prefix(some) {
            return Some(rest);
        }
    }
    None
}

// From the first byte that an operation changes to behind the last.
fn changed(before: &[u8], after: &[u8]) -> (usize, usize) {
    let (mut first, mut end) = (before.len(), 0);
    for i in 0..before.len() {
        if after.get(i) != Some(&before[i]) {
            first = first.min(i);
            end = i + 1;
        }
    }
    (first, end)
}

// What a cut of this kind leaves of an operation, of which these bytes stand before and after it.
fn torn(alloc: Global, before: &[u8], after: &[u8], kind: CutKind) -> Result<Vec<u8>, NoMemory> {
    let (first, end) = changed(before, after);
    let middle = first / 2 + end / 2;
    let mut noise: u64 = 0;
    let mut bytes = before.to_vec(alloc)?;
    for i in first..end {
        if let (Some(byte), Some(new)) = (bytes.get_mut(i), after.get(i)) {
            match kind {
                CutKind::After => *byte = *new,
                CutKind::Half if i < middle => *byte = *new,
                CutKind::Before | CutKind::Half => {}
                CutKind::Noise(seed) => {
                    noise = noise.wrapping_mul(6364136223846793005).wrapping_add(seed);
                    *byte = (noise >> 56) as u8;
                }
            }
        }
    }
    Ok(bytes)
}

// How many cuts there are of one side's flash, each operation of a ship by each kind, and how many of them a second ship makes good.
fn cut_each(
    alloc: Global,
    images: &Images,
    side: Side,
    all: &[u8],
    last: &[u8],
) -> Result<(u64, u64), NoMemory> {
    let (mut tried, mut good) = (0u64, 0u64);
    for call in 1..100 {
        let (before, is_cut) = images.stopped(alloc, side, call)?;
        let (after, _) = images.stopped(alloc, side, call + 1)?;
        // A call that is a read changes nothing.
        if !is_cut || before.bytes(side) == after.bytes(side) {
            continue;
        }
        for kind in KINDS {
            let bytes = torn(alloc, before.bytes(side), after.bytes(side), kind)?;
            tried = tried.saturating_add(1);
            if before.with(alloc, side, &bytes)?.go_on(alloc, all, last)? {
                good = good.saturating_add(1);
            }
        }
    }
    Ok((tried, good))
}

// .. of the copy's flash, where source and copy have the records from 10 up to these keys, and the copy keeps those from another one on
fn cut_copy(alloc: Global, had: u8, all: u8, last: u8) -> Result<(u64, u64), NoMemory> {
    let images = Images {
        source: made(alloc, &[], 10, all)?,
        copy: made(alloc, &[], 10, had)?,
    };
    let (shipped, kept) = (lines(alloc, 10, all)?, lines(alloc, last, all)?);
    cut_each(alloc, &images, Side::Copy, &shipped, &kept)
}

#[test]
fn a_cut_of_a_first_ship(rt: HostRuntime) {
    // Three pages, each of two operations.
    same(&rt, &cut_copy(rt.alloc(), 10, 18, 10), &Ok((30, 30)));
}

#[test]
fn a_cut_where_the_ring_comes_round(rt: HostRuntime) {
    // Three pages are written, and a block is erased where the next one is begun. A void page takes the place of records.
    same(&rt, &cut_copy(rt.alloc(), 25, 34, 28), &Ok((35, 35)));
}

// A copy where behind the page of key 10, which is erased where the third block is begun, two are void, and one is begun.
fn with_void_pages(alloc: Global) -> Result<MemMedia, NoMemory> {
    let first = row_page([0; 4], 10);
    let pieces: [Piece<'_>; 5] = [
        (0, &first),
        (56, &SEAL),
        (124, &SEAL),
        (188, &SEAL),
        (192, &[3]),
    ];
    checks::medium(alloc, LINES, PAGES, &pieces)
}

fn cut_behind_void(alloc: Global) -> Result<(u64, u64), NoMemory> {
    let images = Images {
        source: made(alloc, &[], 10, 15)?,
        copy: with_void_pages(alloc)?,
    };
    let (all, last) = (lines(alloc, 10, 15)?, lines(alloc, 11, 15)?);
    cut_each(alloc, &images, Side::Copy, &all, &last)
}

#[test]
fn a_cut_behind_void_pages(rt: HostRuntime) {
    same(&rt, &cut_behind_void(rt.alloc()), &Ok((30, 30)));
}

// A source whose fifth page is begun, and whose first block isn't erased yet, which the mount does.
fn to_repair(alloc: Global) -> Result<MemMedia, NoMemory> {
    let pages = [
        row_page([0; 4], 10),
        row_page([1, 0, 0, 0], 11),
        row_page([2, 0, 0, 0], 12),
        row_page([3, 0, 0, 0], 13),
    ];
    let pieces: [Piece<'_>; 9] = [
        (0, &pages[0]),
        (56, &SEAL),
        (64, &pages[1]),
        (120, &SEAL),
        (128, &pages[2]),
        (184, &SEAL),
        (192, &pages[3]),
        (248, &SEAL),
        (256, &[4]),
    ];
    checks::medium(alloc, LINES, PAGES, &pieces)
}

fn cut_repairs(alloc: Global) -> Result<(u64, u64), NoMemory> {
    let images = Images {
        source: to_repair(alloc)?,
        copy: made(alloc, &[], 10, 10)?,
    };
    let all = lines(alloc, 12, 14)?;
    cut_each(alloc, &images, Side::Source, &all, &all)
}

#[test]
fn a_cut_in_repairs_of_the_source(rt: HostRuntime) {
    same(&rt, &cut_repairs(rt.alloc()), &Ok((10, 10)));
}
