// What each kind of cut leaves, what the calls of a medium cost, and that memory is found.
ghost use Rattle.std.specs.Prelude.{◌≡◌, IfOk, length};

use crate::asserts::{same, same_at};
use fl_base::{CutKind, Geometry, NoMemory};
use fl_flash::{Flash, FlashFault, Media, MediaFailed, MemMedia, PageBuf, SimFlash};
use std::alloc::Global;

const GEOMETRY: Geometry = Geometry { page: 64, block: 2 };

const LOST: Result<(), FlashFault> = Err(FlashFault::PowerLost);

// A medium of 16 bytes and three blocks, all of this byte.
pub(crate) fn medium(alloc: Global, byte: u8) -> Result<MemMedia, NoMemory>
    ensures { IfOk result (λ m. length m.content ≡ 400) }
{
    let bytes = vec![in alloc; byte; 400]?;
    Ok(MemMedia::new(alloc, bytes, 400)?)
}

// Whether a program is done, the next one, which is cut in this way, and a read after it find the power lost, and a read with power
// finds these bytes.
fn a_program_leaves(alloc: Global, kind: CutKind, left: &[u8]) -> Result<bool, NoMemory> {
    let mut media = medium(alloc, 255)?;
    let mut flash = SimFlash::new(alloc, &mut media, GEOMETRY, 3, 16)?;
    let mut page = PageBuf::new(alloc, 64)?;
    flash.arm(2, kind);
    let ends = [
        flash.program(4, 9, &[0]),
        flash.program(3, 9, &[240, 240, 240, 240]),
        flash.read(3, &mut page),
    ];
    flash.power_on();
    let found = flash.read(3, &mut page);
    let is_left = page.bytes().get(8..14) == Some(left);
    Ok((ends, found, page.bytes().len(), is_left) == ([Ok(()), LOST, LOST], Ok(()), 64, true))
}

const LEFT_OF_PROGRAMS: &[(CutKind, [u8; 6])] = &[
    (CutKind::Before, [255, 255, 255, 255, 255, 255]),
    (CutKind::After, [255, 240, 240, 240, 240, 255]),
    (CutKind::Half, [255, 240, 240, 255, 255, 255]),
    (CutKind::Noise(1), [255, 0x6c, 0x82, 0xa5, 0x62, 255]),
];

#[test]
fn a_torn_program_leaves_what_its_kind_says(rt: HostRuntime) {
    for (kind, left) in LEFT_OF_PROGRAMS {
        same_at(
            &rt,
            &a_program_leaves(rt.alloc(), *kind, left),
            &Ok(true),
            kind,
        );
    }
}

// Whether an erase that is cut in this way finds the power lost, and reads with power find these bytes: the first one of the block's
// first page, and that of its second page.
fn an_erase_leaves(alloc: Global, kind: CutKind, first: u8, second: u8) -> Result<bool, NoMemory> {
    let mut media = medium(alloc, 7)?;
    let mut flash = SimFlash::new(alloc, &mut media, GEOMETRY, 3, 16)?;
    let mut page = PageBuf::new(alloc, 64)?;
    flash.arm(1, kind);
    let erased = flash.erase(1);
    flash.power_on();
    let above = flash.read(2, &mut page);
    let is_first = page.bytes().first() == Some(&first);
    let below = flash.read(3, &mut page);
    let is_second = page.bytes().first() == Some(&second);
    Ok((erased, above, below, is_first, is_second) == (LOST, Ok(()), Ok(()), true, true))
}

const LEFT_OF_ERASES: &[(CutKind, u8, u8)] = &[
    (CutKind::Before, 7, 7),
    (CutKind::After, 255, 255),
    (CutKind::Half, 255, 7),
    (CutKind::Noise(1), 0x6c, 0xa8),
];

#[test]
fn a_torn_erase_leaves_what_its_kind_says(rt: HostRuntime) {
    for (kind, first, second) in LEFT_OF_ERASES {
        same_at(
            &rt,
            &an_erase_leaves(rt.alloc(), *kind, *first, *second),
            &Ok(true),
            kind,
        );
    }
}

// Whether seals of two pages take so many calls of a medium that holds this byte, and the first one leaves this byte where its page
// begins. Their block may be erased before.
fn seals_cost(
    alloc: Global,
    held: u8,
    is_erased: bool,
    first: u8,
    calls: u64,
) -> Result<bool, NoMemory> {
    let mut media = medium(alloc, held)?;
    let mut flash = SimFlash::new(alloc, &mut media, GEOMETRY, 3, 16)?;
    let mut page = PageBuf::new(alloc, 64)?;
    let mut erased = Ok(());
    if is_erased {
        erased = flash.erase(0);
    }
    let sealed = flash.program_pair(1, &[249; 56], &[0; 4]);
    let found = flash.read(1, &mut page);
    let left = [
        page.bytes().first() == Some(&first),
        page.bytes().get(56) == Some(&0),
    ];
    let other = flash.program_pair(0, &[249; 56], &[0; 4]);
    let _media = flash.into_media();
    let ends = [erased, sealed, found, other];
    Ok((ends, left, media.calls()) == ([Ok(()); 4], [true; 2], calls))
}

// What the medium holds, whether the pages' block is erased, what is left of the first program's bytes, and the calls of the medium:
// two for each sealed page, one for the read of a page, and one for the erase. Where that isn't done, one reads the block, once where
// its pages are blank, and else for each of them.
const COSTS: &[(u8, bool, u8, u64)] = &[
    (15, true, 249, 6),
    (255, false, 249, 6),
    (15, false, 9, 7),
];

#[test]
fn a_sealed_page_costs_two_writes(rt: HostRuntime) {
    for case in COSTS {
        let (held, is_erased, first, calls) = *case;
        let cost = seals_cost(rt.alloc(), held, is_erased, first, calls);
        same_at(&rt, &cost, &Ok(true), case);
    }
}

// A pair of programs where this operation is cut: whether it is done only if that is none of the two, begins as many programs as it has
// to, and leaves these bytes where the first and the second one begin.
fn a_pair_leaves(alloc: Global, cut: u64, first: u8, second: u8) -> Result<bool, NoMemory> {
    if cut == 0 {
        return Ok(false);
    }
    let mut media = medium(alloc, 255)?;
    let mut flash = SimFlash::new(alloc, &mut media, GEOMETRY, 3, 16)?;
    let mut page = PageBuf::new(alloc, 64)?;
    let erased = flash.erase(0);
    flash.arm(cut, CutKind::Before);
    let done = flash.program_pair(1, &[1; 56], &[0; 4]);
    let programs = flash.work().programs;
    flash.power_on();
    let found = flash.read(1, &mut page);
    let left = [
        page.bytes().first() == Some(&first),
        page.bytes().get(56) == Some(&second),
    ];
    let ends = (erased, found, done.is_ok());
    Ok((ends, programs, left) == ((Ok(()), Ok(()), cut == 3), cut.min(2), [true; 2]))
}

#[test]
fn a_pair_of_programs_is_two_operations(rt: HostRuntime) {
    same(&rt, &a_pair_leaves(rt.alloc(), 1, 255, 255), &Ok(true));
    same(&rt, &a_pair_leaves(rt.alloc(), 2, 1, 255), &Ok(true));
    same(&rt, &a_pair_leaves(rt.alloc(), 3, 1, 0), &Ok(true));
}

// How an erase and a pair of programs end where this call of the medium fails, and how many programs were begun.
type Pair = (Result<(), FlashFault>, Result<(), FlashFault>, u64);

fn a_pair_over_a_failing(alloc: Global, call: u64) -> Result<Option<Pair>, NoMemory> {
    if call == 0 {
        return Ok(None);
    }
    let mut media = medium(alloc, 255)?;
    media.fail_call(call);
    let mut flash = SimFlash::new(alloc, &mut media, GEOMETRY, 3, 16)?;
    let erased = flash.erase(0);
    let done = flash.program_pair(1, &[1; 56], &[0; 4]);
    Ok(Some((erased, done, flash.work().programs)))
}

#[test]
fn a_medium_that_fails_in_a_pair_is_told(rt: HostRuntime) {
    // The call that fails, and the programs that were begun.
    let first = (Ok(()), Err(FlashFault::Media), 1);
    same(&rt, &a_pair_over_a_failing(rt.alloc(), 2), &Ok(Some(first)));
    let second = (Ok(()), Err(FlashFault::Media), 2);
    same(
        &rt,
        &a_pair_over_a_failing(rt.alloc(), 3),
        &Ok(Some(second)),
    );
}

// Whether a medium whose second call fails reads, fails to read, and refuses to write past its room.
fn a_medium_fails(alloc: Global) -> Result<bool, NoMemory> {
    let mut media = medium(alloc, 7)?;
    media.fail_call(2);
    let mut into = [0];
    let ends = [
        media.read_at(399, &mut into),
        media.read_at(398, &mut into),
        media.write_at(399, &[1, 2]),
    ];
    let failed = Err(MediaFailed);
    let is_kept = media.bytes().last() == Some(&7);
    Ok((ends, into, is_kept, media.calls()) == ([Ok(()), failed, failed], [7], true, 3))
}

#[test]
fn a_medium_fails_at_the_call_named_and_past_its_room(rt: HostRuntime) {
    same(&rt, &a_medium_fails(rt.alloc()), &Ok(true));
}
