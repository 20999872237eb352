// The rule on the states of a ring's pages.
ghost use Rattle.std.specs.Prelude.{◌≡◌, ◌+◌, ◌%◌, ◌<◌, ◌≤◌, length, IsTrue, IfOk, IfErr, OnOk, IfSome, IfNone};
ghost use Rattle.fl_flash.specs.Flash.{page_at};
ghost use Rattle.fl_frame.specs.Reads.{OnlyReads};
ghost use Rattle.fl_frame.specs.Causes.{ReadFails};
ghost use Rattle.fl_ring.specs.Place.{shape_of, LiesOn};
ghost use Rattle.fl_ring.specs.Ring.{room};
ghost use Rattle.fl_rules.specs.Claims.{AllBelow, FailsFirst};
ghost use Rattle.fl_rules.specs.Marks.{AreWithin};
ghost use Rattle.fl_rules.specs.States.{IsSealed, page_after, AreBlank, IsWritten, HaveStates, StatesBreak};
ghost use Rattle.fl_rules.specs.Stop.{IfFlash, IfBroken};
ghost use Rattle.fl_rules.specs.declared.rule.Rule.{Rule};

use crate::marks::Marks;
use crate::rule::{Rule, Stop, broken};
use fl_flash::{Flash, FlashFault, PageBuf};
use fl_ring::{Ring, is_blank, is_sealed, look};

/// Looks for the oldest kept page that isn't sealed, and answers which of the kept ones it is.
fn first_unsealed<F: Flash>(
    ring: &Ring,
    flash: &mut F,
    m: Marks,
    buf: &mut PageBuf,
) -> Result<Option<u32>, FlashFault>
    requires lies { LiesOn ring.now (F.state flash.old) }
    requires room { length buf.old.bytes ≡ (shape_of ring.now).size }
    requires within { AreWithin (shape_of ring.now) m }
    ensures reads { OnlyReads (F.state flash.old) m.kept (F.state flash.new) }
    ensures room { length buf.new.bytes ≡ (shape_of ring.now).size }
    ensures none { IfOk result (λ o. IsTrue (F.state flash.old).media.tells → IfNone o (AllBelow (IsSealed (page_at (F.state flash.old)) (shape_of ring.now) m) m.kept)) }
    ensures some { IfOk result (λ o. IsTrue (F.state flash.old).media.tells → IfSome o (FailsFirst (IsSealed (page_at (F.state flash.old)) (shape_of ring.now) m) m.kept)) }
    ensures within { IfOk result (λ o. IfSome o (λ i. i < m.kept)) }
    ensures fails { IfErr result (λ e. ReadFails (F.state flash.old) e (F.state flash.new)) }
{
    for i in 0..m.kept {
        let page = ring.page_back(m.at, m.kept - i);
        let state = look(flash, page, buf)?;
        if !is_sealed(state) {
            return Ok(Some(i));
        }
    }
    Ok(None)
}

/// The flash page so many pages after a place in the ring.
pub(crate) fn page_after(ring: &Ring, at: u32, j: u32) -> u32
    requires place { at < room (shape_of ring.now) }
    requires few { j ≤ room (shape_of ring.now) }
    ensures page { result ≡ page_after (shape_of ring.now) at j }
    ensures within { result < (shape_of ring.now).first + room (shape_of ring.now) }
{
    let left = ring.room() - at;
    if j < left {
        return ring.first_page() + (at + j);
    }
    ring.first_page() + (j - left)
}

/// Looks for the first page that isn't blank among those from one to another after a place in the ring, and answers how
/// many pages after the place it stands.
pub(crate) fn first_written<F: Flash>(
    ring: &Ring,
    flash: &mut F,
    at: u32,
    from: u32,
    to: u32,
    buf: &mut PageBuf,
) -> Result<Option<u32>, FlashFault>
    requires lies { LiesOn ring.now (F.state flash.old) }
    requires room { length buf.old.bytes ≡ (shape_of ring.now).size }
    requires place { at < room (shape_of ring.now) }
    requires ordered { from ≤ to }
    requires few { to ≤ room (shape_of ring.now) }
    ensures reads { OnlyReads (F.state flash.old) to (F.state flash.new) }
    ensures room { length buf.new.bytes ≡ (shape_of ring.now).size }
    ensures none { IfOk result (λ o. IsTrue (F.state flash.old).media.tells → IfNone o (AreBlank (page_at (F.state flash.old)) (shape_of ring.now) at from to)) }
    ensures some { IfOk result (λ o. IsTrue (F.state flash.old).media.tells → IfSome o (IsWritten (page_at (F.state flash.old)) (shape_of ring.now) at from to)) }
    ensures within { IfOk result (λ o. IfSome o (λ j. j < to)) }
    ensures fails { IfErr result (λ e. ReadFails (F.state flash.old) e (F.state flash.new)) }
{
    for j in from..to {
        let page = page_after(ring, at, j);
        let state = look(flash, page, buf)?;
        if !is_blank(state) {
            return Ok(Some(j));
        }
    }
    Ok(None)
}

/// Checks that the head is in order, and that the block ahead is blank where the last page of the head was begun.
fn check_head<F: Flash>(ring: &Ring, flash: &mut F, m: Marks, buf: &mut PageBuf) -> Result<(), Stop>
    requires lies { LiesOn ring.now (F.state flash.old) }
    requires room { length buf.old.bytes ≡ (shape_of ring.now).size }
    requires within { AreWithin (shape_of ring.now) m }
    ensures reads { OnlyReads (F.state flash.old) ((shape_of ring.now).per_block + 1) (F.state flash.new) }
    ensures room { length buf.new.bytes ≡ (shape_of ring.now).size }
    ensures states { OnOk result (IsTrue (F.state flash.old).media.tells → AllBelow (IsSealed (page_at (F.state flash.old)) (shape_of ring.now) m) m.kept → HaveStates (page_at (F.state flash.old)) (shape_of ring.now) m) }
    ensures broken { IfErr result (IfBroken (λ b. IsTrue (F.state flash.old).media.tells → AllBelow (IsSealed (page_at (F.state flash.old)) (shape_of ring.now) m) m.kept
        → (b.rule ≡ Rule.State) × StatesBreak (page_at (F.state flash.old)) (shape_of ring.now) m b.page)) }
    ensures fails { IfErr result (IfFlash (λ e. ReadFails (F.state flash.old) e (F.state flash.new))) }
{
    let count = ring.per_block();
    if m.pages.ordered < count {
        return Err(broken(Rule::State, ring.page_in(m.head, m.pages.ordered)));
    }
    if m.pages.front.sealed + 1 < count {
        return Ok(());
    }
    if !m.pages.front.torn {
        return Ok(());
    }
    let written = first_written(ring, flash, m.at, 1, count + 1, buf)?;
    match written {
        Some(_) => Err(broken(Rule::State, ring.page_in(m.head, m.pages.front.sealed))),
        None => Ok(()),
    }
}

/// Checks that the kept pages are sealed and the head is in order, and that the block ahead is blank where the last page of
/// the head was begun.
///
/// # Errors
///
/// `Flash` if a read fails, and `Broken` with the first rule that doesn't hold and the first page of the flash that breaks it.
pub fn check_states<F: Flash>(
    ring: &Ring,
    flash: &mut F,
    m: Marks,
    buf: &mut PageBuf,
) -> Result<(), Stop>
    requires lies { LiesOn ring.now (F.state flash.old) }
    requires room { length buf.old.bytes ≡ (shape_of ring.now).size }
    requires within { AreWithin (shape_of ring.now) m }
    ensures reads { OnlyReads (F.state flash.old) (m.kept + ((shape_of ring.now).per_block + 1)) (F.state flash.new) }
    ensures room { length buf.new.bytes ≡ (shape_of ring.now).size }
    ensures states { OnOk result (IsTrue (F.state flash.old).media.tells → HaveStates (page_at (F.state flash.old)) (shape_of ring.now) m) }
    ensures broken { IfErr result (IfBroken (λ b. IsTrue (F.state flash.old).media.tells → (b.rule ≡ Rule.State) × StatesBreak (page_at (F.state flash.old)) (shape_of ring.now) m b.page)) }
    ensures fails { IfErr result (IfFlash (λ e. ReadFails (F.state flash.old) e (F.state flash.new))) }
{
    let unsealed = first_unsealed(ring, flash, m, buf)?;
    match unsealed {
        Some(i) => Err(broken(Rule::State, ring.page_back(m.at, m.kept - i))),
        None => check_head(ring, flash, m, buf),
    }
}
