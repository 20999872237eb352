// The rules on the bodies of a ring's pages, one page after another.
ghost use Rattle.std.specs.Prelude.{◌≡◌, ◌<◌, ◌≤◌, ◌↔◌, ℕ, List, length, IsTrue, IfOk, IfErr, OnOk, IfSome, IfNone};
ghost use Rattle.fl_flash.specs.Flash.{page_at};
ghost use Rattle.fl_frame.specs.Reads.{OnlyReads};
ghost use Rattle.fl_frame.specs.Causes.{ReadFails};
ghost use Rattle.fl_ring.specs.Place.{shape_of, LiesOn};
ghost use Rattle.fl_rules.specs.Bodies.{HasBody, HaveBodies, BodiesBreak};
ghost use Rattle.fl_rules.specs.Claims.{FailsFirst};
ghost use Rattle.fl_rules.specs.Marks.{AreWithin};
ghost use Rattle.fl_rules.specs.Stop.{IfFlash, IfBroken};

use crate::numbering::Numbering;
use crate::rule::{Rule, Stop, broken};
use fl_flash::{Flash, FlashFault, PageBuf};
use fl_ring::{Ring, is_committed, look};

/// The form of the committed pages of a ring.
pub trait Form {
    /// A page with this number has it.
    ghost holds: { Self → ℕ → List ℕ → Type 0 };

    /// Whether a page with this number has it.
    fn is_of(&self, number: u32, page: &[u8]) -> bool
        requires least { 64 ≤ length page.now }
        requires most { length page.now < 65536 }
        ensures exact { IsTrue result ↔ holds self.now number page.now };
}

/// Looks for the oldest kept page that is committed and hasn't the form, and answers which of the kept ones it is. A page
/// whose number would be below 0 is passed.
fn first_unformed<F: Flash, B: Form>(
    ring: &Ring,
    flash: &mut F,
    n: Numbering,
    form: &B,
    buf: &mut PageBuf,
) -> Result<Option<u32>, FlashFault>
    requires lies { LiesOn ring.now (F.state flash.old) }
    requires room { length buf.old.bytes ≡ (shape_of ring.now).size }
    requires within { AreWithin (shape_of ring.now) n.marks }
    ensures reads { OnlyReads (F.state flash.old) n.marks.kept (F.state flash.new) }
    ensures room { length buf.new.bytes ≡ (shape_of ring.now).size }
    ensures none { IfOk result (λ o. IsTrue (F.state flash.old).media.tells → IfNone o (HaveBodies (B.holds form.now) (page_at (F.state flash.old)) (shape_of ring.now) n)) }
    ensures some { IfOk result (λ o. IsTrue (F.state flash.old).media.tells → IfSome o (FailsFirst (HasBody (B.holds form.now) (page_at (F.state flash.old)) (shape_of ring.now) n) n.marks.kept)) }
    ensures within { IfOk result (λ o. IfSome o (λ i. i < n.marks.kept)) }
    ensures fails { IfErr result (λ e. ReadFails (F.state flash.old) e (F.state flash.new)) }
{
    for i in 0..n.marks.kept {
        let back = n.marks.kept - i;
        // By the rule on the numbers none is below 0.
        let Some(number) = n.next.checked_sub(back) else {
            continue;
        };
        let page = ring.page_back(n.marks.at, back);
        let state = look(flash, page, buf)?;
        if is_committed(state) {
            if !form.is_of(number, buf.bytes()) {
                return Ok(Some(i));
            }
        }
    }
    Ok(None)
}

/// Checks that the committed pages among the kept ones have a form, as this rule says, each with its number, which follows
/// from the next one. A page whose number would be below 0 is passed.
pub fn check_forms<F: Flash, B: Form>(
    ring: &Ring,
    flash: &mut F,
    n: Numbering,
    rule: Rule,
    form: &B,
    buf: &mut PageBuf,
) -> Result<(), Stop>
    requires lies { LiesOn ring.now (F.state flash.old) }
    requires room { length buf.old.bytes ≡ (shape_of ring.now).size }
    requires within { AreWithin (shape_of ring.now) n.marks }
    ensures reads { OnlyReads (F.state flash.old) n.marks.kept (F.state flash.new) }
    ensures room { length buf.new.bytes ≡ (shape_of ring.now).size }
    ensures bodies { OnOk result (IsTrue (F.state flash.old).media.tells → HaveBodies (B.holds form.now) (page_at (F.state flash.old)) (shape_of ring.now) n) }
    ensures broken { IfErr result (IfBroken (λ b. IsTrue (F.state flash.old).media.tells → (b.rule ≡ rule) × BodiesBreak (B.holds form.now) (page_at (F.state flash.old)) (shape_of ring.now) n b.page)) }
    ensures fails { IfErr result (IfFlash (λ e. ReadFails (F.state flash.old) e (F.state flash.new))) }
{
    let unformed = first_unformed(ring, flash, n, form, buf)?;
    match unformed {
        Some(i) => Err(broken(rule, ring.page_back(n.marks.at, n.marks.kept - i))),
        None => Ok(()),
    }
}
