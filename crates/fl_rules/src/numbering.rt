// The rules on the head, the states and the numbers of a ring, in this order.
ghost use Rattle.std.specs.Prelude.{◌≡◌, length, IsTrue, IfOk, IfErr};
ghost use Rattle.fl_flash.specs.Flash.{page_at};
ghost use Rattle.fl_flash.specs.declared.flash.FlashFault.{FlashFault};
ghost use Rattle.fl_frame.specs.Reads.{OnlyReads};
ghost use Rattle.fl_frame.specs.Causes.{ReadFails};
ghost use Rattle.fl_ring.specs.Place.{shape_of, LiesOn};
ghost use Rattle.fl_rules.specs.Off.{OffFails};
ghost use Rattle.fl_rules.specs.Marks.{AreWithin};
ghost use Rattle.fl_rules.specs.Numbering.{IsNumbered, BreaksFirst, numbering_reads};
ghost use Rattle.fl_rules.specs.Stop.{IfFlash, IfBroken};
ghost use Rattle.fl_rules.specs.declared.rule.Stop.{Stop};

use crate::marks::{Marks, read_marks};
use crate::rule::Stop;
use crate::rule_2_state::check_states;
use crate::rule_3_number::check_numbers;
use fl_flash::{Flash, PageBuf};
use fl_ring::Ring;

/// The kept pages of a ring, and the number of the next one.
#[derive(Clone, Copy)]
pub struct Numbering {
    pub marks: Marks,
    pub next: u32,
}

/// Checks the rules on the head, the states and the numbers of a ring. Where no page tells its number, the numbers begin
/// at `at_least`. Nothing is repaired.
pub fn check_numbering<F: Flash>(
    ring: &Ring,
    flash: &mut F,
    at_least: u64,
    buf: &mut PageBuf,
) -> Result<Numbering, Stop>
    requires lies { LiesOn ring.now (F.state flash.old) }
    requires room { length buf.old.bytes ≡ (shape_of ring.now).size }
    ensures reads { OnlyReads (F.state flash.old) (numbering_reads (shape_of ring.now)) (F.state flash.new) }
    ensures room { length buf.new.bytes ≡ (shape_of ring.now).size }
    ensures numbered { IfOk result (λ n. IsTrue (F.state flash.old).media.tells → IsNumbered (page_at (F.state flash.old)) (shape_of ring.now) at_least n.marks n.next) }
    ensures within { IfOk result (λ n. AreWithin (shape_of ring.now) n.marks) }
    ensures broken { IfErr result (IfBroken (λ b. IsTrue (F.state flash.old).media.tells → BreaksFirst (page_at (F.state flash.old)) (shape_of ring.now) at_least b.rule b.page)) }
    ensures fails { IfErr result (IfFlash (λ e. ReadFails (F.state flash.old) e (F.state flash.new))) }
    ensures off { OffFails (Stop.Flash FlashFault.PowerLost) (F.state flash.old) result (F.state flash.new) }
{
    let marks = read_marks(ring, flash, buf)?;
    check_states(ring, flash, marks, buf)?;
    let next = check_numbers(ring, flash, marks, at_least, buf)?;
    Ok(Numbering { marks, next })
}
