// The rules of the log of a table.
ghost use Rattle.std.specs.Prelude.{◌≡◌, length, IsTrue, IfOk, IfErr, IfSome};
ghost use Rattle.fl_flash.specs.Flash.{page_at};
ghost use Rattle.fl_frame.specs.Causes.{ReadFails};
ghost use Rattle.fl_ring.specs.Place.{shape_of, LiesOn};
ghost use Rattle.fl_schema.specs.Schema.{layout_of};
ghost use Rattle.fl_rules.specs.DataPage.{IsDataPage};
ghost use Rattle.fl_frame.specs.Reads.{OnlyLooks};
ghost use Rattle.fl_check.specs.Looks.{IfFailed, IfFound};
ghost use Rattle.fl_rules.specs.Marks.{AreWithin};
ghost use Rattle.fl_rules.specs.RingRules.{WithinPages};
ghost use Rattle.fl_check.specs.Ruled.{KeysTold, RowsTold};
ghost use Rattle.fl_check.specs.Rules.{OfToldRing};
ghost use Rattle.fl_check.specs.Whole.{Fits, LogFits, shape_in, layout_in, IsLogForm, IsLogSound, BreaksLogRing};
ghost use Rattle.fl_check.specs.declared.finding.RingName.{RingName};

use crate::finding::RingName;
use crate::halt::{Halt, in_ring};
use crate::ring_rules::{Ruled, first_page, rule_ring};
use crate::table::Checked;
use fl_flash::{Flash, FlashFault, PageBuf};
use fl_ring::Ring;
use fl_rules::{AscendingForm, DataForm, Numbering, Rule, check_forms, check_log};
use fl_schema::Schema;

/// Looks at the rule on the keys of a log, if it tells its marks and its rows.
fn rule_order<F: Flash, const COLS: usize>(
    ring: &Ring,
    flash: &mut F,
    told: Option<Numbering>,
    schema: &Schema<COLS>,
    buf: &mut PageBuf,
) -> Result<Option<u32>, FlashFault>
    requires lies { LiesOn ring.now (F.state flash.old) }
    requires room { length buf.old.bytes ≡ (shape_of ring.now).size }
    requires within { IfSome told (λ n. AreWithin (shape_of ring.now) n.marks) }
    ensures looks { OnlyLooks (F.state flash.old) (F.state flash.new) }
    ensures room { length buf.new.bytes ≡ (shape_of ring.now).size }
    ensures keys { IfOk result (λ keys. IsTrue (F.state flash.old).media.tells → KeysTold (WithinPages (layout_of schema.now)) (page_at (F.state flash.old)) (shape_of ring.now) told keys) }
    ensures fails { IfErr result (λ e. ReadFails (F.state flash.old) e (F.state flash.new)) }
{
    let Some(n) = told else {
        return Ok(None);
    };
    let ascending = AscendingForm { schema };
    first_page(check_forms(ring, flash, n, Rule::Keys, &ascending, buf))
}

/// Looks at all rules of a log, whose pages have this form.
fn rule_log<F: Flash>(
    ring: &Ring,
    flash: &mut F,
    form: &DataForm<'_, 8>,
    buf: &mut PageBuf,
) -> Result<Ruled, FlashFault>
    requires lies { LiesOn ring.now (F.state flash.old) }
    requires room { length buf.old.bytes ≡ (shape_of ring.now).size }
    ensures looks { OnlyLooks (F.state flash.old) (F.state flash.new) }
    ensures room { length buf.new.bytes ≡ (shape_of ring.now).size }
    ensures rules { IfOk result (λ told. IsTrue (F.state flash.old).media.tells
        → RowsTold (IsDataPage (layout_of form.now.schema.now) form.now.buckets) (WithinPages (layout_of form.now.schema.now)) (page_at (F.state flash.old)) (shape_of ring.now) 0 told.faults told.numbering) }
    ensures fails { IfErr result (λ e. ReadFails (F.state flash.old) e (F.state flash.new)) }
{
    let told = rule_ring(ring, flash, 0, form, buf)?;
    let keys = rule_order(ring, flash, told.numbering, form.schema, buf)?;
    Ok(Ruled {
        faults: told.faults.with_keys(keys),
        numbering: told.numbering,
    })
}

impl Checked<'_> {
    /// Checks the rules of the log, where there is one.
    pub(crate) fn check_log<F: Flash>(
        &self,
        flash: &mut F,
        buf: &mut PageBuf,
    ) -> Result<Option<Numbering>, Halt>
        requires fits { Fits self.now.config.now (F.state flash.old) }
        requires log { LogFits self.now.log (F.state flash.old) }
        requires room { length buf.old.bytes ≡ self.now.config.now.geometry.page }
        ensures looks { OnlyLooks (F.state flash.old) (F.state flash.new) }
        ensures room { length buf.new.bytes ≡ self.now.config.now.geometry.page }
        ensures sound { IfOk result (λ log. IsTrue (F.state flash.old).media.tells → IsLogSound self.now.config.now self.now.log (page_at (F.state flash.old)) log) }
        ensures broken { IfErr result (IfFound (λ fault. IsTrue (F.state flash.old).media.tells
            → (fault.ring ≡ RingName.Log) × BreaksLogRing self.now.config.now self.now.log (page_at (F.state flash.old)) fault.page fault.rule)) }
        ensures fails { IfErr result (IfFailed (λ e. ReadFails (F.state flash.old) e (F.state flash.new))) }
    {
        let Some(place) = self.log else {
            return Ok(None);
        };
        let ring = Ring::unnumbered(flash, place);
        let form = DataForm {
            schema: &self.schema,
            buckets: None,
        };
        let n = in_ring(RingName::Log, check_log(&ring, flash, &form, buf))?;
        Ok(Some(n))
    }

    /// Looks at the rules of the log, where there is one.
    pub(crate) fn rule_log<F: Flash>(
        &self,
        flash: &mut F,
        buf: &mut PageBuf,
    ) -> Result<Ruled, FlashFault>
        requires fits { Fits self.now.config.now (F.state flash.old) }
        requires log { LogFits self.now.log (F.state flash.old) }
        requires room { length buf.old.bytes ≡ self.now.config.now.geometry.page }
        ensures looks { OnlyLooks (F.state flash.old) (F.state flash.new) }
        ensures room { length buf.new.bytes ≡ self.now.config.now.geometry.page }
        ensures rules { IfOk result (λ told. IsTrue (F.state flash.old).media.tells
            → OfToldRing (λ place faults n. RowsTold (IsLogForm self.now.config.now) (WithinPages (layout_in self.now.config.now)) (page_at (F.state flash.old)) (shape_in self.now.config.now place) 0 faults n)
            self.now.log told.faults told.numbering) }
        ensures fails { IfErr result (λ e. ReadFails (F.state flash.old) e (F.state flash.new)) }
    {
        let Some(place) = self.log else {
            return Ok(Ruled::of_no_ring());
        };
        let ring = Ring::unnumbered(flash, place);
        let form = DataForm {
            schema: &self.schema,
            buckets: None,
        };
        rule_log(&ring, flash, &form, buf)
    }
}
