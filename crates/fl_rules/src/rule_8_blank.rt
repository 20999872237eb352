// The rule on the pages of a ring that are neither kept nor in the head.
ghost use Rattle.std.specs.Prelude.{◌≡◌, ◌+◌, ◌-◌, ◌*◌, length, Bool, true, false, IsTrue, IfOk, IfErr, OnOk};
ghost use Rattle.fl_flash.specs.Flash.{page_at};
ghost use Rattle.fl_frame.specs.Reads.{OnlyReads};
ghost use Rattle.fl_frame.specs.Causes.{ReadFails};
ghost use Rattle.fl_ring.specs.Place.{shape_of, LiesOn};
ghost use Rattle.fl_ring.specs.Ring.{room};
ghost use Rattle.fl_rules.specs.Marks.{AreWithin};
ghost use Rattle.fl_rules.specs.Rest.{MayWait, IsRestBlank, RestBreaks};
ghost use Rattle.fl_rules.specs.Stop.{IfFlash, IfBroken};
ghost use Rattle.fl_rules.specs.declared.rule.Rule.{Rule};

use crate::marks::Marks;
use crate::rule::{Rule, Stop, broken};
use crate::rule_2_state::{first_written, page_after};
use fl_flash::{Flash, PageBuf};
use fl_ring::Ring;

/// Whether the block ahead may wait for its erase, and so hold anything.
fn may_wait(ring: &Ring, m: Marks) -> bool
    requires within { AreWithin (shape_of ring.now) m }
    ensures yes { result ≡ true → MayWait (shape_of ring.now) m }
    ensures no { result ≡ false → MayWait (shape_of ring.now) m → ⊥ }
{
    let count = ring.per_block();
    m.pages.front.sealed + 1 == count && m.kept + 1 == ring.room() - count
}

/// Checks that the pages after the head, up to the oldest kept one, are blank, but for a block ahead that may wait for its
/// erase.
pub fn check_rest<F: Flash>(
    ring: &Ring,
    flash: &mut F,
    m: Marks,
    buf: &mut PageBuf,
) -> Result<(), Stop>
    requires lies { LiesOn ring.now (F.state flash.old) }
    requires room { length buf.old.bytes ≡ (shape_of ring.now).size }
    requires within { AreWithin (shape_of ring.now) m }
    ensures reads { OnlyReads (F.state flash.old) (room (shape_of ring.now)) (F.state flash.new) }
    ensures room { length buf.new.bytes ≡ (shape_of ring.now).size }
    ensures blank { OnOk result (IsTrue (F.state flash.old).media.tells → IsRestBlank (page_at (F.state flash.old)) (shape_of ring.now) m) }
    ensures broken { IfErr result (IfBroken (λ b. IsTrue (F.state flash.old).media.tells → (b.rule ≡ Rule.Rest) × RestBreaks (page_at (F.state flash.old)) (shape_of ring.now) m b.page)) }
    ensures fails { IfErr result (IfFlash (λ e. ReadFails (F.state flash.old) e (F.state flash.new))) }
{
    if may_wait(ring, m) {
        return Ok(());
    }
    let from = ring.per_block() - m.pages.front.sealed;
    let written = first_written(ring, flash, m.at, from, ring.room() - m.kept, buf)?;
    match written {
        None => Ok(()),
        Some(j) => Err(broken(Rule::Rest, page_after(ring, m.at, j))),
    }
}
