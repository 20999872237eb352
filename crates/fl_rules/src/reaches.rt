// How far content stands without a gap in a ring of variable data.
ghost use Rattle.std.specs.Prelude.{◌≡◌, ◌+◌, ◌-◌, ◌<◌, ◌≤◌, length, IsTrue, IfErr, OnOk};
ghost use Rattle.fl_flash.specs.Flash.{page_at};
ghost use Rattle.fl_page.specs.Header.{page_count};
ghost use Rattle.fl_frame.specs.Reads.{OnlyReads};
ghost use Rattle.fl_frame.specs.Causes.{ReadFails};
ghost use Rattle.fl_ring.specs.Place.{shape_of, LiesOn};
ghost use Rattle.fl_rules.specs.Marks.{AreWithin};
ghost use Rattle.fl_rules.specs.Reaches.{reach_from, AreReaches};

use crate::marks::Marks;
use fl_base::get_u16;
use fl_flash::{Flash, FlashFault, PageBuf};
use fl_mark::state_of;
use fl_ring::{Ring, is_committed, look};

// The bytes of a page of variable data that are no content.
const AROUND: usize = 16;

/// How many bytes of content a page says to have.
fn used_in(page: &[u8]) -> u16
    requires { 16 ≤ length page.now }
    ensures { result ≡ page_count page.now }
{
    get_u16(page, 4)
}

/// How many bytes of content stand without a gap from the first one of a page on, where so many do from the next page on:
/// its own, and those after it where it is full. None do where it isn't committed.
fn reach_from(page: &[u8], after: u64) -> u64
    requires size { 64 ≤ length page.now }
    requires few { after + 65535 < 18446744073709551616 }
    ensures exact { result ≡ reach_from (length page.now - 16) page.now after }
    ensures few { result ≤ after + 65535 }
{
    if !is_committed(state_of(page)) {
        return 0;
    }
    let used = used_in(page);
    if usize::from(used) == page.len() - AROUND {
        return u64::from(used) + after;
    }
    u64::from(used)
}

/// Finds how far the content reaches of each kept page of a ring of variable data, and lists it, the newest page first.
/// Each page is read once.
///
/// # Errors
///
/// A read fails.
pub fn find_reaches<F: Flash>(
    ring: &Ring,
    flash: &mut F,
    m: Marks,
    reaches: &mut [u64],
    buf: &mut PageBuf,
) -> Result<(), FlashFault>
    requires lies { LiesOn ring.now (F.state flash.old) }
    requires room { length buf.old.bytes ≡ (shape_of ring.now).size }
    requires within { AreWithin (shape_of ring.now) m }
    requires listed { m.kept ≤ length reaches.old }
    ensures reads { OnlyReads (F.state flash.old) m.kept (F.state flash.new) }
    ensures room { length buf.new.bytes ≡ (shape_of ring.now).size }
    ensures reaches { OnOk result (IsTrue (F.state flash.old).media.tells → AreReaches (page_at (F.state flash.old)) (shape_of ring.now) m.at m.kept reaches.new) }
    ensures fails { IfErr result (λ e. ReadFails (F.state flash.old) e (F.state flash.new)) }
{
    let mut reach: u64 = 0;
    for i in 0..m.kept {
        let page = ring.page_back(m.at, i + 1);
        look(flash, page, buf)?;
        reach = reach_from(buf.bytes(), reach);
        reaches[i as usize] = reach;
    }
    Ok(())
}
