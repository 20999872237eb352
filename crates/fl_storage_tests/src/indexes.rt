// An index over a flash in memory: the bytes of its pages, and what lookups answer and read.
ghost use Rattle.std.specs.Prelude.{◌≡◌, true, length, OnOk};
ghost use Rattle.fl_index.specs.Memory.{is_running, LiesOn};

use crate::asserts::{same, same_at};
use crate::media::blank_medium;
use fl_base::{Geometry, NoMemory, RingPlace};
use fl_flash::{Flash, FlashFault, PageBuf, SimFlash};
use fl_index::{BitmapIndex, Full};
use fl_page::ReadFault;
use fl_ring::RingFault;
use std::alloc::Global;

// A page of 64 bytes holds five bitmaps of 64 bits.
const GEOMETRY: Geometry = Geometry { page: 64, block: 2 };

const PLACE: RingPlace = RingPlace {
    first_block: 0,
    blocks: 3,
};

// What an index of bitmaps alone doesn't tell.
const UNTOLD: Full = Full {
    first_key: 0,
    count: 0,
    blob_end: 0,
};

// What a lookup answers, and all reads of the flash so far.
type Found = (Result<Option<u64>, ReadFault>, u64);

// Room is made, and one bitmap more waits.
fn push<F: Flash>(index: &mut BitmapIndex, flash: &mut F, bitmap: u64) -> Result<(), FlashFault>
    requires running { is_running index.old ≡ true }
    requires lies { LiesOn index.old (F.state flash.old) }
    ensures page { (F.state flash.new).geometry.page ≡ (F.state flash.old).geometry.page }
    ensures running { OnOk result (is_running index.new ≡ true) }
    ensures lies { OnOk result (LiesOn index.new (F.state flash.new)) }
{
    if index.next_number() > 1000 || index.next_page() > 6000 {
        return Ok(());
    }
    index.make_room(flash)?;
    index.note(bitmap, UNTOLD);
    Ok(())
}

fn push_all<F: Flash>(
    index: &mut BitmapIndex,
    flash: &mut F,
    bitmaps: &[u64],
) -> Result<(), FlashFault>
    requires running { is_running index.old ≡ true }
    requires lies { LiesOn index.old (F.state flash.old) }
    ensures page { (F.state flash.new).geometry.page ≡ (F.state flash.old).geometry.page }
    ensures running { OnOk result (is_running index.new ≡ true) }
    ensures lies { OnOk result (LiesOn index.new (F.state flash.new)) }
{
    for bitmap in bitmaps {
        push(index, flash, *bitmap)?;
    }
    Ok(())
}

// The bitmaps of data pages 7 to 12, of which the first five are sealed. Then one is looked up.
fn look_up<F: Flash>(
    index: &mut BitmapIndex,
    flash: &mut F,
    number: u32,
    buf: &mut PageBuf,
) -> Result<Found, RingFault>
    requires lies { LiesOn index.old (F.state flash.old) }
    requires room { length buf.old.bytes ≡ (F.state flash.old).geometry.page }
{
    let _end = index.mount(flash, buf)?;
    index.restart(7);
    push_all(index, flash, &[1, 2, 4, 8, 0x8000_0000_0000_0000, 3])?;
    let found = index.bitmap_of(flash, number, buf);
    Ok((found, flash.work().reads))
}

fn see(alloc: Global, number: u32) -> Result<(Result<Found, RingFault>, PageBuf), NoMemory> {
    let mut media = blank_medium(alloc, 384)?;
    let mut flash = SimFlash::new(alloc, &mut media, GEOMETRY, 3, 0)?;
    let mut buf = PageBuf::new(alloc, 64)?;
    let mut index = BitmapIndex::plan(alloc, GEOMETRY, PLACE, 64, false)?;
    let found = look_up(&mut index, &mut flash, number, &mut buf);
    let _media = flash.into_media();
    Ok((found, buf))
}

// A mount of a blank ring of three blocks of two pages reads five pages.
const LOOKUPS: &[(u32, Option<u64>, u64)] = &[
    (6, None, 5),
    (7, Some(1), 6),
    (11, Some(0x8000_0000_0000_0000), 6),
    (12, Some(3), 5),
    (13, None, 5),
];

// What a lookup finds.
fn find(alloc: Global, number: u32) -> Result<Result<Found, RingFault>, NoMemory> {
    let (found, _buf) = see(alloc, number)?;
    Ok(found)
}

#[test]
fn bitmaps_are_looked_up(rt: HostRuntime) {
    for (number, bitmap, reads) in LOOKUPS {
        let found = find(rt.alloc(), *number);
        same_at(&rt, &found, &Ok(Ok((Ok(*bitmap), *reads))), number);
    }
}

const PAGE: [u8; 64] = [
    0, 0, 0, 0, 7, 0, 0, 0, 5, 0, 0, 0, 0, 0, 0, 0, 1, 0, 0, 0, 0, 0, 0, 0, 2, 0, 0, 0, 0, 0, 0, 0,
    4, 0, 0, 0, 0, 0, 0, 0, 8, 0, 0, 0, 0, 0, 0, 0, 0, 0, 0, 0, 0, 0, 0, 128, 0, 0, 0, 0, 255, 255,
    255, 255,
];

// Whether the page that a lookup reads is this one.
fn is_page(alloc: Global, page: &[u8]) -> Result<bool, NoMemory> {
    let (_found, buf) = see(alloc, 7)?;
    Ok(buf.bytes() == page)
}

#[test]
fn a_page_of_bitmaps(rt: HostRuntime) {
    same(&rt, &is_page(rt.alloc(), &PAGE), &Ok(true));
}
