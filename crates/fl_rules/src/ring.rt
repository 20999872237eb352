// The rules of one ring, one after another.
ghost use Rattle.std.specs.Prelude.{◌≡◌, length, IsTrue, IfOk, IfErr};
ghost use Rattle.fl_bitmap.specs.declared.buckets.Buckets.{Buckets};
ghost use Rattle.fl_flash.specs.Flash.{page_at};
ghost use Rattle.fl_flash.specs.declared.flash.FlashFault.{FlashFault};
ghost use Rattle.fl_frame.specs.Causes.{ReadFails};
ghost use Rattle.fl_ring.specs.Place.{shape_of, LiesOn};
ghost use Rattle.fl_schema.specs.Schema.{layout_of};
ghost use Rattle.fl_rules.specs.DataPage.{IsDataPage};
ghost use Rattle.fl_frame.specs.Reads.{OnlyLooks};
ghost use Rattle.fl_rules.specs.Off.{OffFails};
ghost use Rattle.fl_rules.specs.Marks.{AreWithin};
ghost use Rattle.fl_rules.specs.RingRules.{KeyOrder, NoRows, OverPages, WithinPages, IsFormed, IsRingSound, BreaksRing};
ghost use Rattle.fl_rules.specs.Stop.{IfFlash, IfBroken};
ghost use Rattle.fl_rules.specs.declared.rule.Stop.{Stop};

use crate::forms::{AscendingForm, DataForm};
use crate::numbering::{Numbering, check_numbering};
use crate::rule::{Rule, Stop};
use crate::rule_4_body::{Form, check_forms};
use crate::rule_5_keys::check_keys;
use crate::rule_8_blank::check_rest;
use fl_flash::{Flash, PageBuf};
use fl_ring::Ring;

/// Checks the rules on the head, the states and the numbers of a ring, and on the form of its committed pages.
fn check_formed<F: Flash, B: Form>(
    ring: &Ring,
    flash: &mut F,
    at_least: u64,
    form: &B,
    buf: &mut PageBuf,
) -> Result<Numbering, Stop>
    requires lies { LiesOn ring.now (F.state flash.old) }
    requires room { length buf.old.bytes ≡ (shape_of ring.now).size }
    ensures looks { OnlyLooks (F.state flash.old) (F.state flash.new) }
    ensures room { length buf.new.bytes ≡ (shape_of ring.now).size }
    ensures formed { IfOk result (λ n. IsTrue (F.state flash.old).media.tells → IsFormed (B.holds form.now) (page_at (F.state flash.old)) (shape_of ring.now) at_least n) }
    ensures within { IfOk result (λ n. AreWithin (shape_of ring.now) n.marks) }
    ensures broken { IfErr result (IfBroken (λ b. IsTrue (F.state flash.old).media.tells → (order : KeyOrder)
        → BreaksRing (B.holds form.now) order (page_at (F.state flash.old)) (shape_of ring.now) at_least b.rule b.page)) }
    ensures fails { IfErr result (IfFlash (λ e. ReadFails (F.state flash.old) e (F.state flash.new))) }
    ensures off { OffFails (Stop.Flash FlashFault.PowerLost) (F.state flash.old) result (F.state flash.new) }
{
    let n = check_numbering(ring, flash, at_least, buf)?;
    check_forms(ring, flash, n, Rule::Body, form, buf)?;
    Ok(n)
}

/// Checks the rules of a ring of pages without rows, which have this form. Its numbers are at least `at_least`.
///
/// # Errors
///
/// `Flash` if a read fails, and `Broken` with the first rule that doesn't hold and the first page of the flash that breaks it.
pub fn check_ring<F: Flash, B: Form>(
    ring: &Ring,
    flash: &mut F,
    at_least: u64,
    form: &B,
    buf: &mut PageBuf,
) -> Result<Numbering, Stop>
    requires lies { LiesOn ring.now (F.state flash.old) }
    requires room { length buf.old.bytes ≡ (shape_of ring.now).size }
    ensures looks { OnlyLooks (F.state flash.old) (F.state flash.new) }
    ensures room { length buf.new.bytes ≡ (shape_of ring.now).size }
    ensures sound { IfOk result (λ n. IsTrue (F.state flash.old).media.tells → IsRingSound (B.holds form.now) NoRows (page_at (F.state flash.old)) (shape_of ring.now) at_least n) }
    ensures within { IfOk result (λ n. AreWithin (shape_of ring.now) n.marks) }
    ensures broken { IfErr result (IfBroken (λ b. IsTrue (F.state flash.old).media.tells
        → BreaksRing (B.holds form.now) NoRows (page_at (F.state flash.old)) (shape_of ring.now) at_least b.rule b.page)) }
    ensures fails { IfErr result (IfFlash (λ e. ReadFails (F.state flash.old) e (F.state flash.new))) }
    ensures off { OffFails (Stop.Flash FlashFault.PowerLost) (F.state flash.old) result (F.state flash.new) }
{
    let n = check_formed(ring, flash, at_least, form, buf)?;
    check_rest(ring, flash, n.marks, buf)?;
    Ok(n)
}

/// Checks the rules of a data ring: also that the keys ascend from page to page. Its numbers are at least `at_least`.
///
/// # Errors
///
/// `Flash` if a read fails, and `Broken` with the first rule that doesn't hold and the first page of the flash that breaks it.
pub fn check_rows<F: Flash>(
    ring: &Ring,
    flash: &mut F,
    at_least: u64,
    form: &DataForm<'_, 8>,
    buf: &mut PageBuf,
) -> Result<Numbering, Stop>
    requires lies { LiesOn ring.now (F.state flash.old) }
    requires room { length buf.old.bytes ≡ (shape_of ring.now).size }
    ensures looks { OnlyLooks (F.state flash.old) (F.state flash.new) }
    ensures room { length buf.new.bytes ≡ (shape_of ring.now).size }
    ensures sound { IfOk result (λ n. IsTrue (F.state flash.old).media.tells
        → IsRingSound (IsDataPage (layout_of form.now.schema.now) form.now.buckets) (OverPages (layout_of form.now.schema.now)) (page_at (F.state flash.old)) (shape_of ring.now) at_least n) }
    ensures within { IfOk result (λ n. AreWithin (shape_of ring.now) n.marks) }
    ensures broken { IfErr result (IfBroken (λ b. IsTrue (F.state flash.old).media.tells
        → BreaksRing (IsDataPage (layout_of form.now.schema.now) form.now.buckets) (OverPages (layout_of form.now.schema.now)) (page_at (F.state flash.old)) (shape_of ring.now) at_least b.rule b.page)) }
    ensures fails { IfErr result (IfFlash (λ e. ReadFails (F.state flash.old) e (F.state flash.new))) }
    ensures off { OffFails (Stop.Flash FlashFault.PowerLost) (F.state flash.old) result (F.state flash.new) }
{
    let n = check_formed(ring, flash, at_least, form, buf)?;
    check_keys(ring, flash, n.marks, form.schema, buf)?;
    check_rest(ring, flash, n.marks, buf)?;
    Ok(n)
}

/// Checks the rules of a log, whose numbers begin at 0 where no page tells its own, and whose keys ascend in each page by itself.
///
/// # Errors
///
/// `Flash` if a read fails, and `Broken` with the first rule that doesn't hold and the first page of the flash that breaks it.
pub fn check_log<F: Flash>(
    ring: &Ring,
    flash: &mut F,
    form: &DataForm<'_, 8>,
    buf: &mut PageBuf,
) -> Result<Numbering, Stop>
    requires lies { LiesOn ring.now (F.state flash.old) }
    requires room { length buf.old.bytes ≡ (shape_of ring.now).size }
    ensures looks { OnlyLooks (F.state flash.old) (F.state flash.new) }
    ensures room { length buf.new.bytes ≡ (shape_of ring.now).size }
    ensures sound { IfOk result (λ n. IsTrue (F.state flash.old).media.tells
        → IsRingSound (IsDataPage (layout_of form.now.schema.now) form.now.buckets) (WithinPages (layout_of form.now.schema.now)) (page_at (F.state flash.old)) (shape_of ring.now) 0 n) }
    ensures broken { IfErr result (IfBroken (λ b. IsTrue (F.state flash.old).media.tells
        → BreaksRing (IsDataPage (layout_of form.now.schema.now) form.now.buckets) (WithinPages (layout_of form.now.schema.now)) (page_at (F.state flash.old)) (shape_of ring.now) 0 b.rule b.page)) }
    ensures fails { IfErr result (IfFlash (λ e. ReadFails (F.state flash.old) e (F.state flash.new))) }
{
    let n = check_formed(ring, flash, 0, form, buf)?;
    let ascending = AscendingForm {
        schema: form.schema,
    };
    check_forms(ring, flash, n, Rule::Keys, &ascending, buf)?;
    check_rest(ring, flash, n.marks, buf)?;
    Ok(n)
}
