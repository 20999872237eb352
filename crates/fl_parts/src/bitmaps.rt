// The index of a table, where it has one.
ghost use Rattle.std.specs.Prelude.{◌≡◌, ◌+◌, ◌-◌, ◌*◌, ◌^◌, ◌<◌, ◌≤◌, ℕ, Bool, None, [], Ok, Err, true, false, length, IsTrue, IfOk, IfErr, OnOk, OnErr};
ghost use Rattle.fl_flash.specs.Flash.{Goes, page_at};
ghost use Rattle.fl_model.specs.Record.{Plan};
ghost use Rattle.fl_model.specs.Table as model;
ghost use Rattle.fl_model.specs.Work.{Device};
ghost use Rattle.fl_frame.specs.Causes.{CausedBy};
ghost use Rattle.fl_frame.specs.Reads.{FewReads};
ghost use Rattle.fl_ring.specs.Causes.{IfFlash};
ghost use Rattle.fl_ring.specs.Written.{Writes};
ghost use Rattle.fl_parts.specs.Bitmaps.{AreSamePlan, AreSameRing, LieOn, AreRunning, AreBroken, AreWaiting, AreIdle, HaveRoom, EndAt, NumberLeft, AreNoted, MaySeal, StandOutside, MountEndsOf, MakesRoomOf, RoomMade, first_to_wait, room_of, rings_of};
ghost use Rattle.fl_parts.specs.Faults.{OffFailsAs};
ghost use Rattle.fl_parts.specs.Coming.{index_pages_of};
ghost use Rattle.fl_parts.specs.MountLimits.{IsIndexLimited};
ghost use Rattle.fl_parts.specs.IndexMount.{FewRepairs, FindsBitmaps, RefusesBitmaps};

use fl_flash::{Flash, FlashFault, PageBuf};
use fl_index::{BitmapIndex, Full};
use fl_ring::RingFault;

/// Mounts the index, or finds its end alone where entries are full: its pages are read later then. It answers the number after
/// the data pages that it lists, where it lists any. A table without an index has nothing to mount.
///
/// # Errors
///
/// Those of the index's own mount: the flash failed, or the ring isn't one that a table left. The index isn't mounted then.
pub fn mount_bitmaps<F: Flash>(
    bitmaps: &mut Option<BitmapIndex>,
    flash: &mut F,
    buf: &mut PageBuf,
) -> Result<Option<u32>, RingFault>
    requires lies { LieOn bitmaps.old (F.state flash.old) }
    requires room { length buf.old.bytes ≡ (F.state flash.old).geometry.page }
    ensures goes { Goes (F.state flash.old) (F.state flash.new) }
    ensures same { AreSamePlan bitmaps.old bitmaps.new }
    ensures lies { LieOn bitmaps.new (F.state flash.new) }
    ensures room { length buf.new.bytes ≡ length buf.old.bytes }
    ensures ends { (first : ℕ) → (plan : Plan) → (table : model.Table) → (rose : Bool) → (device : Device) →
        MountEndsOf bitmaps.old (F.state flash.old) first plan table rose device result bitmaps.new (F.state flash.new) }
    ensures holds { OnErr result (buf.new.holds ≡ None) }
    ensures running { OnOk result (AreRunning bitmaps.new) }
    ensures idle { AreIdle bitmaps.new }
    ensures found { IfOk result (λ end. IsTrue (F.state flash.old).media.tells → FindsBitmaps bitmaps.old (F.state flash.old) end bitmaps.new (F.state flash.new)) }
    ensures refused { IfErr result (λ e. IsTrue (F.state flash.old).media.tells → RefusesBitmaps bitmaps.old (F.state flash.old) e (F.state flash.new)) }
    ensures outside { IsTrue (F.state flash.old).media.tells → StandOutside bitmaps.old (page_at (F.state flash.old)) (page_at (F.state flash.new)) }
    ensures reads { IsTrue (F.state flash.old).media.tells → FewReads (4 * room_of bitmaps.old) (F.state flash.old) (F.state flash.new) }
    ensures spared { OnOk result (IsTrue (F.state flash.old).media.tells → FewReads (4 * room_of bitmaps.old - index_pages_of bitmaps.new) (F.state flash.old) (F.state flash.new)) }
    ensures limit { (first : ℕ) → (plan : Plan) → (table : model.Table) → IsTrue (F.state flash.old).media.tells → IsIndexLimited bitmaps.old (F.state flash.old) first plan table (F.state flash.new) }
    ensures repairs { FewRepairs (rings_of bitmaps.old) (F.state flash.old) (F.state flash.new) }
    ensures cause { IfErr result (λ e. IfFlash (λ fault. CausedBy (F.state flash.old) fault (F.state flash.new)) e) }
    ensures power { OnOk result ((F.state flash.old).is_on ≡ true → (F.state flash.new).is_on ≡ true) }
    ensures off { OffFailsAs (RingFault.Flash FlashFault.PowerLost) (F.state flash.old) result (F.state flash.new) }
{
    match bitmaps {
        Some(index) if index.is_full() => index.find(flash, buf),
        Some(index) => index.mount(flash, buf),
        None => Ok(None),
    }
}

/// The number of the first data page whose entry waits after a mount: those wait that the index doesn't list, as many of the
/// last ones as an index page holds. The index lists none from page `end` on, and `oldest` and `next` are the numbers of the
/// oldest data page that is kept and of the next one. Without an index none waits, from `next` on.
pub(crate) fn first_to_wait(bitmaps: &Option<BitmapIndex>, end: u32, oldest: u32, next: u32) -> u32
    requires end { end ≤ next }
    requires oldest { oldest ≤ next }
    ensures { result ≡ first_to_wait bitmaps.now end oldest next }
{
    match bitmaps {
        Some(index) => next - (next - end.max(oldest)).min(index.capacity()),
        None => next,
    }
}

/// The entry of the data page with this number is the next to wait, and the first. A table without an index stays as it is.
pub(crate) fn restart(bitmaps: &mut Option<BitmapIndex>, first: u32)
    requires idle { AreIdle bitmaps.old }
    ensures same { AreSamePlan bitmaps.old bitmaps.new }
    ensures still { AreSameRing bitmaps.old bitmaps.new }
    ensures idle { AreIdle bitmaps.new }
    ensures next { EndAt bitmaps.new first }
    ensures waits { AreWaiting bitmaps.new first [] }
{
    match bitmaps {
        Some(index) => index.restart(first),
        None => {}
    }
}

/// The entry of the data page with this number waits behind the others, where it is the next one to wait. Only full entries tell
/// more than the bitmap. A table without an index stays as it is.
pub fn note_entry(bitmaps: &mut Option<BitmapIndex>, number: u32, bitmap: u64, full: Full)
    requires room { EndAt bitmaps.old number → HaveRoom bitmaps.old }
    requires left { number + 1 < 2 ^ 32 }
    ensures same { AreSamePlan bitmaps.old bitmaps.new }
    ensures still { AreSameRing bitmaps.old bitmaps.new }
    ensures noted { AreNoted bitmaps.old number bitmap full bitmaps.new }
{
    match bitmaps {
        Some(index) if index.next_page() == number => index.note(bitmap, full),
        _ => {}
    }
}

/// Seals the waiting entries where they fill an index page. A table without an index has nothing to seal.
///
/// # Errors
///
/// A program or erase failed, or the power is off. The index is to be mounted again then.
pub fn make_room<F: Flash>(
    bitmaps: &mut Option<BitmapIndex>,
    flash: &mut F,
) -> Result<(), FlashFault>
    requires running { AreRunning bitmaps.old }
    requires lies { LieOn bitmaps.old (F.state flash.old) }
    requires left { NumberLeft bitmaps.old }
    ensures goes { Goes (F.state flash.old) (F.state flash.new) }
    ensures same { AreSamePlan bitmaps.old bitmaps.new }
    ensures lies { LieOn bitmaps.new (F.state flash.new) }
    ensures ends { (first : ℕ) → (plan : Plan) → (table : model.Table) → (rose : Bool) → (device : Device) →
        MakesRoomOf bitmaps.old (F.state flash.old) first plan table rose device result bitmaps.new (F.state flash.new) }
    ensures made { OnOk result (RoomMade bitmaps.old bitmaps.new) }
    ensures broken { OnErr result (AreBroken bitmaps.new) }
    ensures outside { IsTrue (F.state flash.old).media.tells → StandOutside bitmaps.old (page_at (F.state flash.old)) (page_at (F.state flash.new)) }
    ensures writes { Writes (MaySeal bitmaps.old) 0 (rings_of bitmaps.old) (F.state flash.old) (F.state flash.new) }
    ensures reads { (F.state flash.new).work.reads ≡ (F.state flash.old).work.reads }
    ensures media_reads { (F.state flash.new).media.reads ≤ (F.state flash.old).media.reads + rings_of bitmaps.old }
    ensures power { OnOk result ((F.state flash.old).is_on ≡ true → (F.state flash.new).is_on ≡ true) }
    ensures off { OffFailsAs FlashFault.PowerLost (F.state flash.old) result (F.state flash.new) }
    ensures cause { IfErr result (λ e. CausedBy (F.state flash.old) e (F.state flash.new)) }
{
    match bitmaps {
        Some(index) => index.make_room(flash),
        None => Ok(()),
    }
}
