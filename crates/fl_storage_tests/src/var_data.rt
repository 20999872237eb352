// Blobs in a small ring: two pages in a block, three blocks, and 48 bytes of content in a page.
ghost use Rattle.std.specs.Prelude.{◌≡◌, true, IfSome};
ghost use Rattle.fl_var.specs.Memory.{is_mounted, LiesOn};
ghost use Rattle.fl_var.specs.Reading.{data_of};

use crate::asserts::same;
use crate::media::{blank_medium, counted};
use fl_base::{BlobRef, Geometry, NoMemory, RingPlace};
use fl_flash::{Flash, PageBuf, SimFlash};
use fl_var::VarData;
use std::alloc::Global;

const GEOMETRY: Geometry = Geometry { page: 64, block: 2 };

const PLACE: RingPlace = RingPlace {
    first_block: 0,
    blocks: 3,
};

fn place<F: Flash>(var: &mut VarData, flash: &mut F, bytes: &[u8]) -> Option<BlobRef>
    requires mounted { is_mounted var.old ≡ true }
    requires lies { LiesOn var.old (F.state flash.old) }
    ensures mounted { IfSome result (λ at. is_mounted var.new ≡ true) }
    ensures lies { LiesOn var.new (F.state flash.new) }
{
    if var.next_number() > 1000 || bytes.len() > 1500 {
        return None;
    }
    var.append(flash, bytes).ok()
}

// Whether the chunks of a blob, joined, are the first of these bytes.
fn has_bytes<F: Flash>(
    alloc: Global,
    var: &VarData,
    flash: &mut F,
    at: BlobRef,
    blob: &[u8],
) -> bool
    requires mounted { is_mounted var.now ≡ true }
    requires lies { LiesOn var.now (F.state flash.old) }
    ensures lies { LiesOn var.now (F.state flash.new) }
{
    let Ok(mut buf) = PageBuf::new(alloc, flash.geometry().page) else {
        return false;
    };
    let Ok(Some(mut reader)) = var.open_blob(flash, at, &mut buf) else {
        return false;
    };
    let len = at.length as usize;
    if len > blob.len() {
        return false;
    }
    let mut rest = &blob[..len];
    for _ in 0..100 {
        let Ok(more) = reader.step(flash) else {
            return false;
        };
        if !more {
            return rest.is_empty();
        }
        let Some(behind) = rest.strip_prefix(reader.chunk()) else {
            return false;
        };
        rest = behind;
    }
    false
}

fn is_gone<F: Flash>(alloc: Global, var: &VarData, flash: &mut F, at: BlobRef) -> bool
    requires mounted { is_mounted var.now ≡ true }
    requires lies { LiesOn var.now (F.state flash.old) }
    ensures lies { LiesOn var.now (F.state flash.new) }
{
    let Ok(mut buf) = PageBuf::new(alloc, flash.geometry().page) else {
        return false;
    };
    matches!(var.open_blob(flash, at, &mut buf), Ok(None))
}

// The length of a blob, and the page and offset at which it is placed.
type Case = (u32, u32, u16);

fn are_placed<F: Flash>(var: &mut VarData, flash: &mut F, blob: &[u8], cases: &[Case]) -> bool
    requires mounted { is_mounted var.old ≡ true }
    requires lies { LiesOn var.old (F.state flash.old) }
    ensures mounted { result ≡ true → is_mounted var.new ≡ true }
    ensures lies { LiesOn var.new (F.state flash.new) }
{
    for (len, page, offset) in cases {
        if *len as usize > blob.len() {
            return false;
        }
        let Some(at) = place(var, flash, &blob[..*len as usize]) else {
            return false;
        };
        if at.page != *page || at.offset != *offset || at.length != *len {
            return false;
        }
    }
    true
}

const FULL: BlobRef = BlobRef {
    page: 0,
    offset: 10,
    length: 38,
};

const LONG: BlobRef = BlobRef {
    page: 1,
    offset: 5,
    length: 100,
};

const LAST: BlobRef = BlobRef {
    page: 3,
    offset: 9,
    length: 100,
};

// One page is read for the first, and two more before the bytes in the buffer.
fn are_both_read<F: Flash>(alloc: Global, var: &VarData, flash: &mut F, blob: &[u8]) -> bool
    requires mounted { is_mounted var.now ≡ true }
    requires lies { LiesOn var.now (F.state flash.old) }
    ensures lies { LiesOn var.now (F.state flash.new) }
{
    let before = flash.work().reads;
    if !has_bytes(alloc, var, flash, FULL, blob) {
        return false;
    }
    let is_long_read = has_bytes(alloc, var, flash, LONG, blob);
    is_long_read && flash.work().reads.saturating_sub(before) == 3
}

fn mount<F: Flash>(alloc: Global, var: &mut VarData, flash: &mut F) -> bool
    requires lies { LiesOn var.old (F.state flash.old) }
    ensures mounted { result ≡ true → is_mounted var.new ≡ true }
    ensures lies { LiesOn var.new (F.state flash.new) }
{
    let Ok(mut buf) = PageBuf::new(alloc, flash.geometry().page) else {
        return false;
    };
    var.mount(flash, 0, &mut buf).is_ok()
}

// What waits is sealed, and the blobs are mounted again.
fn seal_and_mount<F: Flash>(alloc: Global, var: &mut VarData, flash: &mut F) -> bool
    requires mounted { is_mounted var.old ≡ true }
    requires lies { LiesOn var.old (F.state flash.old) }
    ensures mounted { result ≡ true → is_mounted var.new ≡ true }
    ensures lies { LiesOn var.new (F.state flash.new) }
{
    if var.next_number() != 5 {
        return false;
    }
    if var.seal_rest(flash).is_err() {
        return false;
    }
    mount(alloc, var, flash)
}

// Blobs of 10, 38 (the page is exactly full then), 5, 100 (on three pages) and 0 bytes are placed and read. One of 100
// more gives up the first two pages, and it is there after a mount.
fn tells<F: Flash>(alloc: Global, var: &mut VarData, flash: &mut F, blob: &[u8]) -> bool
    requires mounted { is_mounted var.old ≡ true }
    requires lies { LiesOn var.old (F.state flash.old) }
{
    let cases = [(10, 0, 0), (38, 0, 10), (5, 1, 0), (100, 1, 5), (0, 0, 0)];
    if !are_placed(var, flash, blob, &cases) || flash.work().programs != 6 {
        return false;
    }
    if !are_both_read(alloc, var, flash, blob) {
        return false;
    }
    if !are_placed(var, flash, blob, &[(100, 3, 9)]) {
        return false;
    }
    if !is_gone(alloc, var, flash, FULL) || !is_gone(alloc, var, flash, LONG) {
        return false;
    }
    if !has_bytes(alloc, var, flash, LAST, blob) || !seal_and_mount(alloc, var, flash) {
        return false;
    }
    has_bytes(alloc, var, flash, LAST, blob) && var.next_number() == 6
}

fn told(alloc: Global) -> Result<bool, NoMemory> {
    let bytes = counted();
    let Some(blob) = bytes.get(0..100) else {
        return Ok(false);
    };
    let mut media = blank_medium(alloc, 384)?;
    let mut flash = SimFlash::new(alloc, &mut media, GEOMETRY, 3, 0)?;
    let mut var = VarData::plan(alloc, GEOMETRY, PLACE)?;
    let told = mount(alloc, &mut var, &mut flash) && tells(alloc, &mut var, &mut flash, blob);
    let _media = flash.into_media();
    Ok(told)
}

#[test]
fn blobs(rt: HostRuntime) {
    same(&rt, &told(rt.alloc()), &Ok(true));
}
