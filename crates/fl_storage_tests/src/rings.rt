// Images made by hand, a forged block, and a cut of each kind at each operation.
ghost use Rattle.std.specs.Prelude.{◌≡◌, ◌+◌, length, vec_len, OnOk, IfOk};
ghost use Rattle.fl_flash.specs.Flash.{FlashState, Stays};
ghost use Rattle.fl_ring.specs.Place.{shape_of, LiesOn};

use crate::asserts::{same, same_at};
use fl_base::{CutKind, Geometry, NoMemory, RingPlace, put_u32};
use fl_flash::{Flash, FlashFault, MemMedia, PageBuf, SimFlash};
use fl_ring::{Ring, RingFault};
use std::alloc::{AllocError, Global};

const PLACE: RingPlace = RingPlace {
    first_block: 1,
    blocks: 3,
};

#[derive(Clone, Copy)]
enum Page {
    Blank,
    Torn,
    Void,
    Sealed(u32),
}

use Page::{Blank, Sealed, Torn, Void};

fn write_page(page: Page, into: &mut [u8])
    requires { length into.old ≡ 64 }
{
    match page {
        Blank => {}
        Torn => into[0] = 0,
        Void => into[60..64].fill(0),
        Sealed(number) => {
            put_u32(into, 0, number);
            into[56..60].fill(0);
        }
    }
}

// Four blocks of two pages, with a ring on the last three.
fn image(alloc: Global, pages: [Page; 6]) -> Result<Vec<u8>, AllocError>
    ensures { IfOk result (λ v. vec_len v ≡ 512) }
{
    let mut bytes = vec![in alloc; 255; 512]?;
    for i in 0..6 {
        write_page(pages[i], &mut bytes[128 + 64 * i..192 + 64 * i]);
    }
    Ok(bytes)
}

fn seal_next<F: Flash>(ring: &mut Ring, flash: &mut F) -> Result<(), FlashFault>
    requires lies { LiesOn ring.old (F.state flash.old) }
    requires size { (shape_of ring.old).size ≡ 64 }
    ensures goes { Stays (F.state flash.old) (F.state flash.new) }
    ensures lies { OnOk result (LiesOn ring.new (F.state flash.new)) }
    ensures size { (shape_of ring.new).size ≡ 64 }
{
    let number = ring.next_number();
    if number > 1000 {
        return Ok(());
    }
    let mut body = [7; 56];
    put_u32(&mut body, 0, number);
    ring.seal(flash, &body)
}

fn seal_many<F: Flash>(ring: &mut Ring, flash: &mut F, count: u32) -> Result<(), FlashFault>
    requires lies { LiesOn ring.old (F.state flash.old) }
    requires size { (shape_of ring.old).size ≡ 64 }
    ensures goes { Stays (F.state flash.old) (F.state flash.new) }
{
    for _ in 0..count {
        seal_next(ring, flash)?;
    }
    Ok(())
}

// Mounts a ring and seals so many pages.
fn seal_on<F: Flash>(
    flash: &mut F,
    at_least: u32,
    count: u32,
    buf: &mut PageBuf,
) -> Result<(), RingFault>
    requires geometry { (F.state flash.old).geometry ≡ record { page = 64; block = 2 } }
    requires blocks { (F.state flash.old).blocks ≡ 4 }
    requires room { length buf.old.bytes ≡ 64 }
    ensures goes { Stays (F.state flash.old) (F.state flash.new) }
    ensures room { length buf.new.bytes ≡ 64 }
{
    let mut ring = Ring::mount(flash, PLACE, at_least, buf)?;
    seal_many(&mut ring, flash, count)?;
    Ok(())
}

// The oldest and the next number that a mount finds.
fn find_on<F: Flash>(
    flash: &mut F,
    at_least: u32,
    buf: &mut PageBuf,
) -> Result<(u32, u32), RingFault>
    requires geometry { (F.state flash.old).geometry ≡ record { page = 64; block = 2 } }
    requires blocks { (F.state flash.old).blocks ≡ 4 }
    requires room { length buf.old.bytes ≡ 64 }
{
    let ring = Ring::mount(flash, PLACE, at_least, buf)?;
    Ok((ring.oldest(), ring.next_number()))
}

/// What befalls a flash after so many programs and erases.
#[derive(Drop)]
enum Accident {
    Nothing,
    Cut { after: u32, kind: CutKind },
    /// The operation leaves these bytes.
    Torn { after: u32, bytes: Vec<u8> },
}

fn arm<'m>(flash: &mut SimFlash<'m, MemMedia>, accident: Accident)
    ensures { Stays (⟦<SimFlash<'m, MemMedia> as Flash>⟧.state flash.old) (⟦<SimFlash<'m, MemMedia> as Flash>⟧.state flash.new) }
{
    match accident {
        Accident::Nothing => {}
        Accident::Cut { after, kind } => flash.arm(u64::from(after) + 1, kind),
        Accident::Torn { after, bytes } => flash.tear(u64::from(after) + 1, bytes),
    }
}

// How many pages are sealed on an image, and what befalls them.
#[derive(Drop)]
struct Story {
    at_least: u32,
    seals: u32,
    accident: Accident,
}

// How the seals end, the oldest and the next number that a mount finds then, and the programs and erases of all.
type Seen = (
    Result<(), RingFault>,
    Result<(u32, u32), RingFault>,
    u64,
    u64,
);

fn see(alloc: Global, pages: [Page; 6], story: Story) -> Result<Seen, NoMemory> {
    let mut media = MemMedia::new(alloc, image(alloc, pages)?, 512)?;
    let mut buf = PageBuf::new(alloc, 64)?;
    let mut flash = SimFlash::new(alloc, &mut media, Geometry { page: 64, block: 2 }, 4, 0)?;
    arm(&mut flash, story.accident);
    let sealed = seal_on(&mut flash, story.at_least, story.seals, &mut buf);
    flash.power_on();
    let found = find_on(&mut flash, story.at_least, &mut buf);
    let work = flash.work();
    let _media = flash.into_media();
    Ok((sealed, found, work.programs, work.erases))
}

// Whether mounts find these numbers, or this fault, after so many programs and erases.
fn mounts(
    alloc: Global,
    pages: [Page; 6],
    at_least: u32,
    found: Result<(u32, u32), RingFault>,
    work: (u64, u64),
) -> Result<bool, NoMemory> {
    let story = Story {
        at_least,
        seals: 0,
        accident: Accident::Nothing,
    };
    let seen = see(alloc, pages, story)?;
    Ok(seen.1 == found && (seen.2, seen.3) == work)
}

const IMAGES: [([Page; 6], u32, (u32, u32), (u64, u64)); 9] = [
    ([Blank; 6], 0, (0, 0), (0, 0)),
    (
        [Sealed(0), Sealed(1), Sealed(2), Blank, Blank, Blank],
        0,
        (0, 3),
        (0, 0),
    ),
    // A torn page is given up, and the numbers go on after it.
    (
        [Sealed(0), Sealed(1), Torn, Blank, Blank, Blank],
        0,
        (0, 3),
        (1, 0),
    ),
    // The oldest block goes before it is written again, whatever it holds.
    (
        [Sealed(0), Sealed(1), Sealed(2), Sealed(3), Sealed(4), Blank],
        0,
        (2, 5),
        (0, 1),
    ),
    (
        [
            Sealed(600),
            Sealed(601),
            Sealed(2),
            Sealed(3),
            Sealed(4),
            Blank,
        ],
        0,
        (2, 5),
        (0, 1),
    ),
    (
        [Torn, Void, Sealed(2), Sealed(3), Sealed(4), Blank],
        0,
        (2, 5),
        (0, 1),
    ),
    (
        [Sealed(0), Sealed(1), Sealed(2), Sealed(3), Torn, Blank],
        0,
        (2, 5),
        (1, 1),
    ),
    (
        [Sealed(6), Blank, Sealed(2), Sealed(3), Sealed(4), Sealed(5)],
        0,
        (4, 7),
        (0, 1),
    ),
    // Where no page is committed, the numbers begin at the number given.
    (
        [Void, Blank, Blank, Blank, Blank, Blank],
        10,
        (12, 13),
        (0, 0),
    ),
];

#[test]
fn images_made_by_hand(rt: HostRuntime) {
    for (pages, at_least, found, work) in IMAGES {
        let holds = mounts(rt.alloc(), pages, at_least, Ok(found), work);
        same_at(&rt, &holds, &Ok(true), &(found, work));
    }
}

const REFUSED: [([Page; 6], u32, RingFault); 4] = [
    (
        [Void, Blank, Blank, Blank, Blank, Blank],
        4294967295,
        RingFault::NoNumber {
            at_least: 4294967295,
        },
    ),
    (
        [
            Sealed(0),
            Sealed(1),
            Sealed(2),
            Sealed(3),
            Sealed(4),
            Sealed(5),
        ],
        0,
        RingFault::BadHead { heads: 0 },
    ),
    (
        [Blank, Torn, Blank, Blank, Blank, Blank],
        0,
        RingFault::BadGap { page: 3 },
    ),
    (
        [Sealed(7), Blank, Blank, Blank, Blank, Blank],
        0,
        RingFault::BadPage {
            page: 2,
            wanted: 0,
            found: 7,
        },
    ),
];

#[test]
fn images_refused(rt: HostRuntime) {
    for (pages, at_least, fault) in REFUSED {
        let holds = mounts(rt.alloc(), pages, at_least, Err(fault), (0, 0));
        same_at(&rt, &holds, &Ok(true), &fault);
    }
}

// Thirteen seals on a new ring, which go round it twice, with a cut after so many operations. Whether the seals end
// there, and a mount finds these numbers.
fn cut_leaves(
    alloc: Global,
    after: u32,
    kind: CutKind,
    found: (u32, u32),
) -> Result<bool, NoMemory> {
    let story = Story {
        at_least: 0,
        seals: 13,
        accident: Accident::Cut { after, kind },
    };
    let seen = see(alloc, [Blank; 6], story)?;
    Ok(seen.0 == Err(RingFault::Flash(FlashFault::PowerLost)) && seen.1 == Ok(found))
}

// The same with a cut of each kind; `before` is what a mount finds where no byte was written.
fn each_cut_leaves(
    alloc: Global,
    after: u32,
    before: (u32, u32),
    found: (u32, u32),
) -> Result<bool, NoMemory> {
    for kind in [CutKind::After, CutKind::Half, CutKind::Noise(1)] {
        if !cut_leaves(alloc, after, kind, found)? {
            return Ok(false);
        }
    }
    cut_leaves(alloc, after, CutKind::Before, before)
}

// For each page number: the operations before its seal, and those of the seal; the oldest number before and after.
const SEALS: &[(u32, u32, u32, u32, u32)] = &[
    (0, 0, 2, 0, 0),
    (1, 2, 2, 0, 0),
    (2, 4, 2, 0, 0),
    (3, 6, 2, 0, 0),
    (4, 8, 3, 0, 2),
    (5, 11, 2, 2, 2),
    (6, 13, 3, 2, 4),
    (7, 16, 2, 4, 4),
    (8, 18, 3, 4, 6),
    (9, 21, 2, 6, 6),
    (10, 23, 3, 6, 8),
    (11, 26, 2, 8, 8),
    (12, 28, 3, 8, 10),
];

// Whether a mount finds what it has to, whichever operation of a seal is cut. A page of which any byte was written is kept, with its
// records or void.
fn is_cut(alloc: Global, seal: &(u32, u32, u32, u32, u32)) -> Result<bool, NoMemory> {
    let (page, earlier, count, before, after) = *seal;
    let found = (after, page.wrapping_add(1));
    for later in 1..count {
        if !each_cut_leaves(alloc, earlier.wrapping_add(later), found, found)? {
            return Ok(false);
        }
    }
    each_cut_leaves(alloc, earlier, (before, page), found)
}

#[test]
fn a_cut_at_each_operation(rt: HostRuntime) {
    for seal in SEALS {
        same_at(&rt, &is_cut(rt.alloc(), seal), &Ok(true), &seal.0);
    }
}

// Two committed pages of numbers that fit their places, and are greater than any that was given.
fn forged_block(alloc: Global) -> Result<Vec<u8>, AllocError> {
    let mut bytes = vec![in alloc; 255; 128]?;
    write_page(Sealed(1008), &mut bytes[..64]);
    write_page(Sealed(1009), &mut bytes[64..]);
    Ok(bytes)
}

// What is seen of five seals, of which the last one tears its erase of the block ahead.
fn see_forged(alloc: Global) -> Result<Seen, NoMemory> {
    let bytes = forged_block(alloc)?;
    let story = Story {
        at_least: 0,
        seals: 5,
        accident: Accident::Torn { after: 10, bytes },
    };
    see(alloc, [Blank; 6], story)
}

#[test]
fn a_forged_block_is_not_believed(rt: HostRuntime) {
    let lost = Err(RingFault::Flash(FlashFault::PowerLost));
    same(&rt, &see_forged(rt.alloc()), &Ok((lost, Ok((2, 5)), 10, 2)));
}
