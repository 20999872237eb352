// The variable data of a table, where it has any.
ghost use Rattle.std.specs.Prelude.{◌≡◌, ◌+◌, ◌*◌, ◌≤◌, ℕ, Bool, Ok, None, IsTrue, ◌&&◌, true, is_some, is_ok, option_map, length, IfSome, IfOk, IfErr, OnOk};
ghost use Rattle.fl_flash.specs.Flash.{Goes, OffChangesNothing, page_at};
ghost use Rattle.fl_model.specs.Record.{Plan, Record};
ghost use Rattle.fl_model.specs.Table as model;
ghost use Rattle.fl_model.specs.Work.{Device};
ghost use Rattle.fl_model.specs.Mount.{blob_end};
ghost use Rattle.fl_frame.specs.Causes.{CausedBy};
ghost use Rattle.fl_frame.specs.Reads.{FewReads};
ghost use Rattle.fl_ring.specs.Causes.{IfFlash};
ghost use Rattle.fl_ring.specs.Written.{Writes};
ghost use Rattle.fl_parts.specs.BlobEnds.{least_of};
ghost use Rattle.fl_parts.specs.BlobMount.{MountEndsOf, FindsBlobs, RefusesBlobs, WithinEndsOf, RefusesWithin, AreBelow};
ghost use Rattle.fl_parts.specs.Faults.{MountCausedBy, OffFailsAs};
ghost use Rattle.fl_parts.specs.MountLimits.{IsVarLimited};
ghost use Rattle.fl_parts.specs.IndexMount.{FewRepairs};
ghost use Rattle.fl_parts.specs.Blobs.{AreSamePlan, LieOn, AreRunning, AreEmpty, MayFill, MaySeal, NumbersLeft, RestEndsOf, PlaceEndsOf, StandOutside, next_of, next_after, oldest_of, oldest_after, rings_of, room_of, HasFew, HavePlaced, pages_for, placed_in, FitsRow};
ghost use Rattle.fl_var.specs.Memory.{waiting_in, BytesAhead, BytesPaged};

use crate::MountFault;
use crate::blob_end::least_of;
use fl_base::BlobRef;
use fl_flash::{Flash, FlashFault, PageBuf};
use fl_ring::RingFault;
use fl_var::VarData;

/// Mounts the variable data. The numbers of a ring whose pages tell none begin at `at_least`, which is one more than the
/// greatest page that a kept blob names.
pub(crate) fn mount<F: Flash>(
    blobs: &mut Option<VarData>,
    flash: &mut F,
    at_least: u32,
    buf: &mut PageBuf,
) -> Result<(), RingFault>
    requires lies { LieOn blobs.old (F.state flash.old) }
    requires room { length buf.old.bytes ≡ (F.state flash.old).geometry.page }
    requires none { buf.old.holds ≡ None }
    ensures goes { Goes (F.state flash.old) (F.state flash.new) }
    ensures same { AreSamePlan blobs.old blobs.new }
    ensures lies { LieOn blobs.new (F.state flash.new) }
    ensures room { length buf.new.bytes ≡ length buf.old.bytes }
    ensures holds { buf.new.holds ≡ None }
    ensures running { OnOk result (AreRunning blobs.new) }
    ensures empty { AreEmpty blobs.new }
    ensures ends { (first : ℕ) (plan : Plan) (table : model.Table) (rose : Bool) (device : Device) → at_least ≡ blob_end table →
        MountEndsOf blobs.old (F.state flash.old) first plan table rose device result blobs.new (F.state flash.new) }
    ensures found { OnOk result (FindsBlobs blobs.old (F.state flash.old) at_least blobs.new (F.state flash.new)) }
    ensures outside { IsTrue (F.state flash.old).media.tells → StandOutside blobs.old (page_at (F.state flash.old)) (page_at (F.state flash.new)) }
    ensures reads { FewReads (4 * room_of blobs.old) (F.state flash.old) (F.state flash.new) }
    ensures limit { (first : ℕ) (plan : Plan) (table : model.Table) → IsTrue (F.state flash.old).media.tells → IsVarLimited blobs.old (F.state flash.old) first plan table (F.state flash.new) }
    ensures repairs { FewRepairs (rings_of blobs.old) (F.state flash.old) (F.state flash.new) }
    ensures refused { IfErr result (λ e. RefusesBlobs blobs.old (F.state flash.old) at_least e (F.state flash.new)) }
    ensures cause { IfErr result (λ e. IfFlash (λ fault. CausedBy (F.state flash.old) fault (F.state flash.new)) e) }
{
    match blobs {
        Some(var) => var.mount(flash, at_least, buf),
        None => Ok(()),
    }
}

/// Mounts the variable data, whose blobs end before page `end`. The numbers of a ring whose pages tell none begin there. A table
/// without variable data has nothing to mount.
///
/// # Errors
///
/// `Flash` and `Ring` where the ring isn't mounted, and `BadBlob` where a blob begins on a page from the ring's next number on.
pub fn mount_within<F: Flash>(
    blobs: &mut Option<VarData>,
    flash: &mut F,
    end: u64,
    buf: &mut PageBuf,
) -> Result<(), MountFault>
    requires lies { LieOn blobs.old (F.state flash.old) }
    requires room { length buf.old.bytes ≡ (F.state flash.old).geometry.page }
    requires none { buf.old.holds ≡ None }
    ensures goes { Goes (F.state flash.old) (F.state flash.new) }
    ensures same { AreSamePlan blobs.old blobs.new }
    ensures lies { LieOn blobs.new (F.state flash.new) }
    ensures room { length buf.new.bytes ≡ length buf.old.bytes }
    ensures holds { buf.new.holds ≡ None }
    ensures running { OnOk result (AreRunning blobs.new) }
    ensures empty { AreEmpty blobs.new }
    ensures ends { (first : ℕ) (plan : Plan) (table : model.Table) (rose : Bool) (device : Device) → end ≡ blob_end table →
        WithinEndsOf blobs.old (F.state flash.old) first plan table rose device result blobs.new (F.state flash.new) }
    ensures found { OnOk result (FindsBlobs blobs.old (F.state flash.old) (least_of end) blobs.new (F.state flash.new)) }
    ensures below { OnOk result (AreBelow end blobs.new) }
    ensures outside { IsTrue (F.state flash.old).media.tells → StandOutside blobs.old (page_at (F.state flash.old)) (page_at (F.state flash.new)) }
    ensures reads { FewReads (4 * room_of blobs.old) (F.state flash.old) (F.state flash.new) }
    ensures limit { (first : ℕ) (plan : Plan) (table : model.Table) → IsTrue (F.state flash.old).media.tells → IsVarLimited blobs.old (F.state flash.old) first plan table (F.state flash.new) }
    ensures repairs { FewRepairs (rings_of blobs.old) (F.state flash.old) (F.state flash.new) }
    ensures refused { IfErr result (λ e. RefusesWithin blobs.old (F.state flash.old) end e (F.state flash.new)) }
    ensures cause { IfErr result (λ e. MountCausedBy (F.state flash.old) e (F.state flash.new)) }
{
    let at_least = least_of(end);
    mount(blobs, flash, at_least, buf)?;
    let Some(var) = blobs else {
        return Ok(());
    };
    let next = var.next_number();
    if end > u64::from(next) {
        let page = least_of(end - 1);
        return Err(MountFault::BadBlob { page, next });
    }
    Ok(())
}

/// Seals the bytes of blobs that wait, where there are any. A table without variable data has nothing to seal.
///
/// # Errors
///
/// A program or erase failed, or the power is off. The variable data are to be mounted again then.
pub fn seal_rest<F: Flash>(blobs: &mut Option<VarData>, flash: &mut F) -> Result<(), FlashFault>
    requires running { AreRunning blobs.old }
    requires lies { LieOn blobs.old (F.state flash.old) }
    requires left { NumbersLeft blobs.old }
    ensures goes { Goes (F.state flash.old) (F.state flash.new) }
    ensures same { AreSamePlan blobs.old blobs.new }
    ensures lies { LieOn blobs.new (F.state flash.new) }
    ensures running { OnOk result (AreRunning blobs.new) }
    ensures next { OnOk result (next_of blobs.new ≡ next_after blobs.old) }
    ensures oldest { OnOk result (oldest_of blobs.new ≡ oldest_after blobs.old) }
    ensures empty { OnOk result (AreEmpty blobs.new) }
    ensures ends { (first : ℕ) (plan : Plan) (table : model.Table) (rose : Bool) (device : Device) →
        RestEndsOf blobs.old (F.state flash.old) first plan table rose device result blobs.new (F.state flash.new) }
    ensures power { OnOk result ((F.state flash.old).is_on ≡ true → (F.state flash.new).is_on ≡ true) }
    ensures off { OffFailsAs FlashFault.PowerLost (F.state flash.old) result (F.state flash.new) }
    ensures quiet { AreEmpty blobs.old → (result ≡ Ok tt) × (F.state flash.new ≡ F.state flash.old) }
    ensures outside { IsTrue (F.state flash.old).media.tells → StandOutside blobs.old (page_at (F.state flash.old)) (page_at (F.state flash.new)) }
    ensures page { IfSome blobs.old (λ var. 1 ≤ length (waiting_in var) → OnOk result (IsTrue (F.state flash.old).media.tells → BytesPaged var (page_at (F.state flash.old)) (page_at (F.state flash.new)))) }
    ensures ahead { IfSome blobs.old (λ var. 1 ≤ length (waiting_in var) → OnOk result (IsTrue (F.state flash.old).media.tells → BytesAhead var (λ page. ⊥) (page_at (F.state flash.new)))) }
    ensures writes { Writes (MaySeal blobs.old) 0 (rings_of blobs.old) (F.state flash.old) (F.state flash.new) }
    ensures reads { (F.state flash.new).work.reads ≡ (F.state flash.old).work.reads }
    ensures media_reads { (F.state flash.new).media.reads ≤ (F.state flash.old).media.reads + rings_of blobs.old }
    ensures cause { IfErr result (λ e. CausedBy (F.state flash.old) e (F.state flash.new)) }
{
    match blobs {
        Some(var) => var.seal_rest(flash),
        None => Ok(()),
    }
}

/// Places a blob, where there is one and the table has variable data, and tells where. Its last bytes wait in memory.
///
/// # Errors
///
/// A program or erase failed, or the power is off. The variable data are to be mounted again then.
pub fn place<F: Flash>(
    blobs: &mut Option<VarData>,
    flash: &mut F,
    blob: Option<&[u8]>,
) -> Result<Option<BlobRef>, FlashFault>
    requires running { AreRunning blobs.old }
    requires lies { LieOn blobs.old (F.state flash.old) }
    requires left { NumbersLeft blobs.old }
    requires few { HasFew (option_map (λ b. b.now) blob) }
    ensures goes { Goes (F.state flash.old) (F.state flash.new) }
    ensures same { AreSamePlan blobs.old blobs.new }
    ensures lies { LieOn blobs.new (F.state flash.new) }
    ensures running { OnOk result (AreRunning blobs.new) }
    ensures placed { IfOk result (λ at. (at ≡ placed_in (option_map (λ b. b.now) blob.entry) blobs.old) × HavePlaced (option_map (λ b. b.now) blob.entry) blobs.old blobs.new) }
    ensures given { IfOk result (λ at. is_some at ≡ (is_some blobs.old && is_some blob.entry)) }
    ensures fits { IfOk result FitsRow }
    ensures next { OnOk result (next_of blobs.new ≡ next_of blobs.old + pages_for blobs.old (option_map (λ b. b.now) blob.entry)) }
    ensures quiet { pages_for blobs.old (option_map (λ b. b.now) blob.entry) ≡ 0 → (is_ok result ≡ true) × (F.state flash.new ≡ F.state flash.old) }
    ensures power { OnOk result ((F.state flash.old).is_on ≡ true → (F.state flash.new).is_on ≡ true) }
    ensures off { 1 ≤ pages_for blobs.old (option_map (λ b. b.now) blob.entry) → OffChangesNothing (F.state flash.old) result (F.state flash.new) }
    ensures ends { (first : ℕ) (plan : Plan) (table : model.Table) (item : Record) (rose : Bool) (device : Device) → item.blob ≡ option_map (λ b. b.now) blob.entry →
        PlaceEndsOf blobs.old (F.state flash.old) first plan item table rose device result blobs.new (F.state flash.new) }
    ensures outside { IsTrue (F.state flash.old).media.tells → StandOutside blobs.old (page_at (F.state flash.old)) (page_at (F.state flash.new)) }
    ensures writes { Writes (MayFill (option_map (λ b. b.now) blob.entry) blobs.old) 0 (pages_for blobs.old (option_map (λ b. b.now) blob.entry)) (F.state flash.old) (F.state flash.new) }
    ensures reads { (F.state flash.new).work.reads ≡ (F.state flash.old).work.reads }
    ensures media_reads { (F.state flash.new).media.reads ≤ (F.state flash.old).media.reads + pages_for blobs.old (option_map (λ b. b.now) blob.entry) }
    ensures cause { IfErr result (λ e. CausedBy (F.state flash.old) e (F.state flash.new)) }
{
    let Some(var) = blobs else {
        return Ok(None);
    };
    let Some(bytes) = blob else {
        return Ok(None);
    };
    let at = var.append(flash, bytes)?;
    Ok(Some(at))
}
