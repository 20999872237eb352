// All rules of a table: one that doesn't hold hides only those that rest on it.
ghost use Rattle.std.specs.Prelude.{◌≡◌, ◌≤◌, ◌*◌, None, is_some, length, IsTrue, IfOk, IfErr, IfSome};
ghost use Rattle.std.specs.Result.{is_ok};
ghost use Rattle.fl_flash.specs.Flash.{page_at};
ghost use Rattle.fl_flash.specs.declared.flash.FlashFault.{FlashFault};
ghost use Rattle.fl_plan.specs.Plan.{blocks_in};
ghost use Rattle.fl_frame.specs.Causes.{ReadFails};
ghost use Rattle.fl_frame.specs.Reads.{OnlyLooks};
ghost use Rattle.fl_rules.specs.Off.{OffFails};
ghost use Rattle.fl_check.specs.Looks.{CheckFails, OffChecksNothing};
ghost use Rattle.fl_rules.specs.Marks.{AreWithin};
ghost use Rattle.fl_rules.specs.Rising.{HaveRows};
ghost use Rattle.fl_rules.specs.RingRules.{OverPages};
ghost use Rattle.fl_check.specs.Ruled.{RingTold, KeysTold, RowsTold};
ghost use Rattle.fl_check.specs.Rules.{OfToldRing, tally_told, rules_of, HaveContent, EntriesTold, BlobsTold, AreRules};
ghost use Rattle.fl_check.specs.Whole.{Fits, LogFits, IfWithin, shape_in, rows_shape, layout_in, IsIndexForm, IsRowsForm, IsVarForm};

use crate::faults::{TableFaults, TableRules};
use crate::finding::CheckFault;
use crate::index_form::IndexForm;
use crate::ring_rules::{Ruled, first_page, rule_ring};
use crate::table::{Checked, reaches_room, schema_of};
use fl_base::RingPlace;
use fl_flash::{Flash, FlashFault, PageBuf};
use fl_plan::TableConfig;
use fl_ring::Ring;
use fl_rules::{ContentForm, DataForm, Numbering, Tally, check_keys};
use std::alloc::Global;

impl Checked<'_> {
    /// Looks at the rules of the ring of index pages, where there is one.
    fn rule_index<F: Flash>(&self, flash: &mut F, buf: &mut PageBuf) -> Result<Ruled, FlashFault>
        requires fits { Fits self.now.config.now (F.state flash.old) }
        requires room { length buf.old.bytes ≡ self.now.config.now.geometry.page }
        ensures looks { OnlyLooks (F.state flash.old) (F.state flash.new) }
        ensures room { length buf.new.bytes ≡ self.now.config.now.geometry.page }
        ensures within { IfOk result (λ told. IfWithin self.now.config.now self.now.config.now.index told.numbering) }
        ensures rules { IfOk result (λ told. IsTrue (F.state flash.old).media.tells
            → OfToldRing (λ place faults n. RingTold (IsIndexForm self.now.config.now) (page_at (F.state flash.old)) (shape_in self.now.config.now place) 0 faults n)
            self.now.config.now.index told.faults told.numbering) }
        ensures fails { IfErr result (λ e. ReadFails (F.state flash.old) e (F.state flash.new)) }
        ensures off { IsTrue (is_some self.now.config.now.index) → OffFails FlashFault.PowerLost (F.state flash.old) result (F.state flash.new) }
        ensures none { self.now.config.now.index ≡ None → IsTrue (is_ok result) × (F.state flash.new ≡ F.state flash.old) }
    {
        let Some(place) = self.config.index else {
            return Ok(Ruled::of_no_ring());
        };
        let ring = Ring::unnumbered(flash, place);
        let form = IndexForm {
            config: self.config,
            entries: self.entry_form(),
        };
        rule_ring(&ring, flash, 0, &form, buf)
    }

    /// Looks at the rule on the keys of the data ring, if it tells its marks and its rows.
    fn rule_keys<F: Flash>(
        &self,
        flash: &mut F,
        rows: Option<Numbering>,
        buf: &mut PageBuf,
    ) -> Result<Option<u32>, FlashFault>
        requires fits { Fits self.now.config.now (F.state flash.old) }
        requires room { length buf.old.bytes ≡ self.now.config.now.geometry.page }
        requires within { IfSome rows (λ n. AreWithin (rows_shape self.now.config.now) n.marks) }
        ensures looks { OnlyLooks (F.state flash.old) (F.state flash.new) }
        ensures room { length buf.new.bytes ≡ self.now.config.now.geometry.page }
        ensures keys { IfOk result (λ keys. IsTrue (F.state flash.old).media.tells
            → IfSome rows (λ n. HaveRows (layout_in self.now.config.now) (page_at (F.state flash.old)) (rows_shape self.now.config.now) n.marks)
            → KeysTold (OverPages (layout_in self.now.config.now)) (page_at (F.state flash.old)) (rows_shape self.now.config.now) rows keys) }
        ensures fails { IfErr result (λ e. ReadFails (F.state flash.old) e (F.state flash.new)) }
    {
        let Some(n) = rows else {
            return Ok(None);
        };
        let ring = Ring::unnumbered(flash, self.config.rows);
        first_page(check_keys(&ring, flash, n.marks, &self.schema, buf))
    }

    /// Looks at the rules of the data ring.
    fn rule_rows<F: Flash>(
        &self,
        flash: &mut F,
        at_least: u64,
        buf: &mut PageBuf,
    ) -> Result<Ruled, FlashFault>
        requires fits { Fits self.now.config.now (F.state flash.old) }
        requires room { length buf.old.bytes ≡ self.now.config.now.geometry.page }
        ensures looks { OnlyLooks (F.state flash.old) (F.state flash.new) }
        ensures room { length buf.new.bytes ≡ self.now.config.now.geometry.page }
        ensures within { IfOk result (λ told. IfSome told.numbering (λ n. AreWithin (rows_shape self.now.config.now) n.marks)) }
        ensures rules { IfOk result (λ told. IsTrue (F.state flash.old).media.tells
            → RowsTold (IsRowsForm self.now.config.now) (OverPages (layout_in self.now.config.now)) (page_at (F.state flash.old)) (rows_shape self.now.config.now) at_least told.faults told.numbering) }
        ensures fails { IfErr result (λ e. ReadFails (F.state flash.old) e (F.state flash.new)) }
        ensures off { OffFails FlashFault.PowerLost (F.state flash.old) result (F.state flash.new) }
    {
        let ring = Ring::unnumbered(flash, self.config.rows);
        let form = DataForm {
            schema: &self.schema,
            buckets: self.config.buckets,
        };
        let told = rule_ring(&ring, flash, at_least, &form, buf)?;
        let keys = self.rule_keys(flash, told.numbering, buf)?;
        Ok(Ruled {
            faults: told.faults.with_keys(keys),
            numbering: told.numbering,
        })
    }

    /// What the data pages tell, if they tell their marks and their rows.
    fn tally_told<F: Flash>(
        &self,
        flash: &mut F,
        rows: Option<Numbering>,
        buf: &mut PageBuf,
    ) -> Result<Tally, FlashFault>
        requires fits { Fits self.now.config.now (F.state flash.old) }
        requires room { length buf.old.bytes ≡ self.now.config.now.geometry.page }
        requires within { IfSome rows (λ n. AreWithin (rows_shape self.now.config.now) n.marks) }
        ensures looks { OnlyLooks (F.state flash.old) (F.state flash.new) }
        ensures room { length buf.new.bytes ≡ self.now.config.now.geometry.page }
        ensures tally { IfOk result (λ tally. IsTrue (F.state flash.old).media.tells
            → IfSome rows (λ n. HaveRows (layout_in self.now.config.now) (page_at (F.state flash.old)) (rows_shape self.now.config.now) n.marks)
            → tally ≡ tally_told self.now.config.now (page_at (F.state flash.old)) rows) }
        ensures fails { IfErr result (λ e. ReadFails (F.state flash.old) e (F.state flash.new)) }
    {
        let Some(n) = rows else {
            return Ok(Tally::of_no_pages());
        };
        self.tally_rows(flash, n, buf)
    }

    /// Looks at the rules of the ring of variable data, where there is one.
    fn rule_var<F: Flash>(
        &self,
        flash: &mut F,
        at_least: u64,
        buf: &mut PageBuf,
    ) -> Result<Ruled, FlashFault>
        requires fits { Fits self.now.config.now (F.state flash.old) }
        requires room { length buf.old.bytes ≡ self.now.config.now.geometry.page }
        ensures looks { OnlyLooks (F.state flash.old) (F.state flash.new) }
        ensures room { length buf.new.bytes ≡ self.now.config.now.geometry.page }
        ensures within { IfOk result (λ told. IfWithin self.now.config.now self.now.config.now.var told.numbering) }
        ensures rules { IfOk result (λ told. IsTrue (F.state flash.old).media.tells
            → OfToldRing (λ place faults n. RingTold IsVarForm (page_at (F.state flash.old)) (shape_in self.now.config.now place) at_least faults n)
            self.now.config.now.var told.faults told.numbering) }
        ensures fails { IfErr result (λ e. ReadFails (F.state flash.old) e (F.state flash.new)) }
    {
        let Some(place) = self.config.var else {
            return Ok(Ruled::of_no_ring());
        };
        let ring = Ring::unnumbered(flash, place);
        rule_ring(&ring, flash, at_least, &ContentForm, buf)
    }

    /// Looks at the rule on the entries of the index, if it and the data ring tell their marks and numbers, and this one is in order.
    fn rule_entries<F: Flash>(
        &self,
        flash: &mut F,
        index: Option<Numbering>,
        rows: Option<Numbering>,
        listing: &mut PageBuf,
        buf: &mut PageBuf,
    ) -> Result<Option<u32>, FlashFault>
        requires fits { Fits self.now.config.now (F.state flash.old) }
        requires listing { length listing.old.bytes ≡ self.now.config.now.geometry.page }
        requires room { length buf.old.bytes ≡ self.now.config.now.geometry.page }
        requires index { IfWithin self.now.config.now self.now.config.now.index index }
        requires rows { IfSome rows (λ n. AreWithin (rows_shape self.now.config.now) n.marks) }
        ensures looks { OnlyLooks (F.state flash.old) (F.state flash.new) }
        ensures room { length buf.new.bytes ≡ self.now.config.now.geometry.page }
        ensures entries { IfOk result (λ entry. IsTrue (F.state flash.old).media.tells
            → EntriesTold self.now.config.now (page_at (F.state flash.old)) self.now.config.now.index index rows entry) }
        ensures fails { IfErr result (λ e. ReadFails (F.state flash.old) e (F.state flash.new)) }
    {
        let Some(place) = self.config.index else {
            return Ok(None);
        };
        let Some(index) = index else {
            return Ok(None);
        };
        let Some(rows) = rows else {
            return Ok(None);
        };
        self.find_misentered(flash, place, index, rows, listing, buf)
    }

    /// Looks at the rule on the references of the rows, if they and the variable data tell their marks and numbers and are in order.
    fn rule_blobs<F: Flash>(
        &self,
        flash: &mut F,
        var: Option<Numbering>,
        rows: Option<Numbering>,
        reaches: &mut [u64],
        buf: &mut PageBuf,
    ) -> Result<Option<u32>, FlashFault>
        requires fits { Fits self.now.config.now (F.state flash.old) }
        requires listed { blocks_in self.now.config.now.var * self.now.config.now.geometry.block ≤ length reaches.old }
        requires room { length buf.old.bytes ≡ self.now.config.now.geometry.page }
        requires rows { IfSome rows (λ n. AreWithin (rows_shape self.now.config.now) n.marks) }
        requires var { IfWithin self.now.config.now self.now.config.now.var var }
        ensures looks { OnlyLooks (F.state flash.old) (F.state flash.new) }
        ensures blobs { IfOk result (λ blob. IsTrue (F.state flash.old).media.tells
            → IfSome rows (λ n. HaveRows (layout_in self.now.config.now) (page_at (F.state flash.old)) (rows_shape self.now.config.now) n.marks)
            → HaveContent self.now.config.now (page_at (F.state flash.old)) self.now.config.now.var var
            → BlobsTold self.now.config.now (page_at (F.state flash.old)) self.now.config.now.var var rows blob) }
        ensures fails { IfErr result (λ e. ReadFails (F.state flash.old) e (F.state flash.new)) }
    {
        let Some(place) = self.config.var else {
            return Ok(None);
        };
        let Some(var) = var else {
            return Ok(None);
        };
        let Some(rows) = rows else {
            return Ok(None);
        };
        self.find_misled(flash, place, var, rows.marks, reaches, buf)
    }

    /// Looks at all rules.
    fn rules<F: Flash>(
        &self,
        flash: &mut F,
        reaches: &mut [u64],
        listing: &mut PageBuf,
        buf: &mut PageBuf,
    ) -> Result<TableRules, FlashFault>
        requires fits { Fits self.now.config.now (F.state flash.old) }
        requires log { LogFits self.now.log (F.state flash.old) }
        requires listed { blocks_in self.now.config.now.var * self.now.config.now.geometry.block ≤ length reaches.old }
        requires listing { length listing.old.bytes ≡ self.now.config.now.geometry.page }
        requires room { length buf.old.bytes ≡ self.now.config.now.geometry.page }
        ensures looks { OnlyLooks (F.state flash.old) (F.state flash.new) }
        ensures rules { IfOk result (λ rules. IsTrue (F.state flash.old).media.tells → AreRules self.now.config.now self.now.log (page_at (F.state flash.old)) rules) }
        ensures fails { IfErr result (λ e. ReadFails (F.state flash.old) e (F.state flash.new)) }
        ensures off { OffFails FlashFault.PowerLost (F.state flash.old) result (F.state flash.new) }
    {
        let index = self.rule_index(flash, buf)?;
        let end = self.find_index_end(flash, index.numbering, buf)?;
        let rows = self.rule_rows(flash, end, buf)?;
        let tally = self.tally_told(flash, rows.numbering, buf)?;
        let var = self.rule_var(flash, tally.blob_end, buf)?;
        let log = self.rule_log(flash, buf)?;
        let listed = rows.in_order();
        let entry = self.rule_entries(flash, index.numbering, listed, listing, buf)?;
        let content = var.in_order();
        let blob = self.rule_blobs(flash, content, listed, reaches, buf)?;
        let faults = TableFaults {
            index: index.faults,
            rows: rows.faults,
            var: var.faults,
            log: log.faults,
            entry,
            blob,
        };
        Ok(rules_of(faults, rows.numbering, tally))
    }
}

/// What is said of a table with these faults.
fn rules_of(faults: TableFaults, rows: Option<Numbering>, tally: Tally) -> TableRules
    ensures { result ≡ rules_of faults rows tally }
{
    if !faults.are_clear() {
        return TableRules::Broken(faults);
    }
    let pages = match rows {
        Some(n) => n.marks.kept,
        None => 0,
    };
    TableRules::Kept {
        rows: tally.rows,
        pages,
        voids: tally.voids,
    }
}

/// Checks the rings of a table by all rules: their pages are read, and nothing is repaired. Finds of each rule of each ring, and
/// of those on the index and on the references, the first page that breaks it. A rule that rests on one that doesn't hold isn't
/// looked at: all of a ring rest on that on its head, that on the bodies also on the numbers, that on the keys also on the
/// bodies, and those on the entries and the references on the heads, the numbers and the bodies of both rings that they join, and
/// on the states of the data ring and of the variable data. Where a ring doesn't tell
/// what the numbers of the next one begin at, and no page of that one tells its own, they begin at 0. Its memory is taken before
/// the flash is read.
pub fn check_rules<F: Flash>(
    alloc: Global,
    flash: &mut F,
    config: &TableConfig,
    log: Option<RingPlace>,
) -> Result<TableRules, CheckFault>
    requires fits { Fits config.now (F.state flash.old) }
    requires log { LogFits log (F.state flash.old) }
    ensures rules { IfOk result (λ rules. IsTrue (F.state flash.old).media.tells → AreRules config.now log (page_at (F.state flash.old)) rules) }
    ensures fails { IfErr result (λ fault. CheckFails (F.state flash.old) fault (F.state flash.new)) }
    ensures looks { OnlyLooks (F.state flash.old) (F.state flash.new) }
    ensures off { OffChecksNothing (F.state flash.old) result (F.state flash.new) }
{
    let mut listing = PageBuf::new(alloc, config.geometry.page)?;
    let mut buf = PageBuf::new(alloc, config.geometry.page)?;
    let mut reaches = reaches_room(alloc, config)?;
    let schema = schema_of(config);
    let checked = Checked {
        config,
        log,
        schema,
    };
    match checked.rules(flash, &mut reaches, &mut listing, &mut buf) {
        Ok(rules) => Ok(rules),
        Err(fault) => Err(CheckFault::Flash(fault)),
    }
}
