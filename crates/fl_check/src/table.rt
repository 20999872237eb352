// The check of a table: the rules of its rings, one ring after another, and then those on its index and its references.
ghost use Rattle.std.specs.Prelude.{◌≡◌, ◌≤◌, ◌*◌, MatchOption, None, Some, is_some, length, vec_len, IsTrue, IfOk, IfErr, OnOk};
ghost use Rattle.fl_flash.specs.Flash.{page_at};
ghost use Rattle.fl_flash.specs.declared.flash.FlashFault.{FlashFault};
ghost use Rattle.fl_plan.specs.Limits.{IsWithinLimits};
ghost use Rattle.fl_plan.specs.Plan.{blocks_in};
ghost use Rattle.fl_plan.specs.Refusal.{config_fault};
ghost use Rattle.fl_frame.specs.Causes.{ReadFails};
ghost use Rattle.fl_schema.specs.Schema.{layout_of, types_of};
ghost use Rattle.fl_rules.specs.Claims.{AllBelow};
ghost use Rattle.fl_check.specs.Entries.{HaveEntries, EntriesBreak};
ghost use Rattle.fl_frame.specs.Reads.{OnlyLooks};
ghost use Rattle.fl_rules.specs.Off.{OffFails};
ghost use Rattle.fl_check.specs.Looks.{CheckFails, OffChecksNothing, IfFailed, IfFound};
ghost use Rattle.fl_rules.specs.Marks.{AreWithin};
ghost use Rattle.fl_rules.specs.Reaches.{HasContent};
ghost use Rattle.fl_rules.specs.References.{PageLeads, ReferencesBreak};
ghost use Rattle.fl_rules.specs.Rising.{HaveRows};
ghost use Rattle.fl_rules.specs.RingRules.{NoRows, OverPages, IsRingSound, BreaksRing};
ghost use Rattle.fl_check.specs.Whole.{Fits, LogFits, IfWithin, LiesWithin, OfRing, indexing, shape_in, rows_shape, layout_in, form_in, IsRowsForm, IsVarForm, IsIndexSound, AreRingsSound, AreEntriesSound, AreReferencesSound, IsSound, BreaksIndex, BreaksVarBy, IsFirstFault, index_end, tally_in, IsFinding};
ghost use Rattle.fl_check.specs.declared.finding.RingName.{RingName};
ghost use Rattle.fl_check.specs.declared.halt.Halt.{Halt};
ghost use Rattle.fl_rules.specs.declared.rule.Rule.{Rule};

use crate::finding::{CheckFault, Finding, RingName};
use crate::halt::{Fault, Halt, in_ring};
use crate::index_form::IndexForm;
use crate::rule_6_entry::{Indexing, check_entries, entries_in};
use crate::rule_7_blob::{BlobPages, find_misleading};
use fl_base::{NoMemory, RingPlace};
use fl_flash::{Flash, FlashFault, PageBuf};
use fl_index::EntryForm;
use fl_plan::TableConfig;
use fl_ring::Ring;
use fl_rules::{
    ContentForm, DataForm, Marks, Numbering, Rule, Tally, check_ring, check_rows, find_end,
    find_reaches, tally_pages,
};
use fl_schema::Schema;
use std::alloc::Global;

/// The kept pages of each ring of a table, and the numbers of the next ones.
#[derive(Clone, Copy)]
pub struct TableNumbers {
    pub index: Option<Numbering>,
    pub rows: Numbering,
    pub var: Option<Numbering>,
    pub log: Option<Numbering>,
}

/// .. and what the data pages tell.
#[derive(Clone, Copy)]
pub(crate) struct Rings {
    pub(crate) numbers: TableNumbers,
    pub(crate) tally: Tally,
}

/// A table that is checked.
#[derive(Drop)]
pub(crate) struct Checked<'c> {
    pub(crate) config: &'c TableConfig,
    pub(crate) log: Option<RingPlace>,
    pub(crate) schema: Schema<8>,
    ghost layout: { layout_of schema ≡ layout_in config.now },
    ghost columns: { 1 ≤ length (types_of schema) },
}

impl Checked<'_> {
    /// The form of the entries of the index, where there is one.
    pub(crate) fn entry_form(&self) -> EntryForm
        requires limits { IsWithinLimits self.now.config.now }
        requires index { IsTrue (is_some self.now.config.now.index) }
        ensures exact { result ≡ form_in self.now.config.now }
        ensures some { 1 ≤ result.width }
        ensures few { result.width ≤ 8 }
    {
        let Some(buckets) = self.config.buckets else {
            unreachable!()
        };
        EntryForm {
            width: (buckets.bits / 8) as usize,
            full: self.config.full_index,
        }
    }

    /// Checks the rules of the ring of index pages, where there is one.
    fn check_index<F: Flash>(
        &self,
        flash: &mut F,
        buf: &mut PageBuf,
    ) -> Result<Option<Numbering>, Halt>
        requires fits { Fits self.now.config.now (F.state flash.old) }
        requires room { length buf.old.bytes ≡ self.now.config.now.geometry.page }
        ensures looks { OnlyLooks (F.state flash.old) (F.state flash.new) }
        ensures room { length buf.new.bytes ≡ self.now.config.now.geometry.page }
        ensures within { IfOk result (λ index. LiesWithin self.now.config.now self.now.config.now.index index) }
        ensures sound { IfOk result (λ index. IsTrue (F.state flash.old).media.tells → IsIndexSound self.now.config.now (page_at (F.state flash.old)) index) }
        ensures broken { IfErr result (IfFound (λ fault. IsTrue (F.state flash.old).media.tells → (fault.ring ≡ RingName.Index) × BreaksIndex self.now.config.now (page_at (F.state flash.old)) fault.page fault.rule)) }
        ensures fails { IfErr result (IfFailed (λ e. ReadFails (F.state flash.old) e (F.state flash.new))) }
        ensures off { IsTrue (is_some self.now.config.now.index) → OffFails (Halt.Failed FlashFault.PowerLost) (F.state flash.old) result (F.state flash.new) }
        ensures none { self.now.config.now.index ≡ None → (result ≡ Ok None) × (F.state flash.new ≡ F.state flash.old) }
    {
        let Some(place) = self.config.index else {
            return Ok(None);
        };
        let ring = Ring::unnumbered(flash, place);
        let form = IndexForm {
            config: self.config,
            entries: self.entry_form(),
        };
        let n = in_ring(RingName::Index, check_ring(&ring, flash, 0, &form, buf))?;
        Ok(Some(n))
    }

    /// The number after the data pages that the index lists, where there is one whose pages tell their marks and numbers.
    pub(crate) fn find_index_end<F: Flash>(
        &self,
        flash: &mut F,
        index: Option<Numbering>,
        buf: &mut PageBuf,
    ) -> Result<u64, FlashFault>
        requires fits { Fits self.now.config.now (F.state flash.old) }
        requires room { length buf.old.bytes ≡ self.now.config.now.geometry.page }
        requires within { IfWithin self.now.config.now self.now.config.now.index index }
        ensures looks { OnlyLooks (F.state flash.old) (F.state flash.new) }
        ensures room { length buf.new.bytes ≡ self.now.config.now.geometry.page }
        ensures end { IfOk result (λ end. IsTrue (F.state flash.old).media.tells → end ≡ index_end self.now.config.now (page_at (F.state flash.old)) index) }
        ensures fails { IfErr result (λ e. ReadFails (F.state flash.old) e (F.state flash.new)) }
        ensures none { self.now.config.now.index ≡ None → (result ≡ Ok 0) × (F.state flash.new ≡ F.state flash.old) }
    {
        let Some(place) = self.config.index else {
            return Ok(0);
        };
        let Some(n) = index else {
            return Ok(0);
        };
        let ring = Ring::unnumbered(flash, place);
        let per_page = entries_in(self.config.geometry.page as usize, self.entry_form());
        find_end(&ring, flash, n.marks, per_page, buf)
    }

    /// Checks the rules of the data ring.
    fn check_data<F: Flash>(
        &self,
        flash: &mut F,
        at_least: u64,
        buf: &mut PageBuf,
    ) -> Result<Numbering, Halt>
        requires fits { Fits self.now.config.now (F.state flash.old) }
        requires room { length buf.old.bytes ≡ self.now.config.now.geometry.page }
        ensures looks { OnlyLooks (F.state flash.old) (F.state flash.new) }
        ensures room { length buf.new.bytes ≡ self.now.config.now.geometry.page }
        ensures within { IfOk result (λ n. AreWithin (rows_shape self.now.config.now) n.marks) }
        ensures sound { IfOk result (λ n. IsTrue (F.state flash.old).media.tells
            → IsRingSound (IsRowsForm self.now.config.now) (OverPages (layout_in self.now.config.now)) (page_at (F.state flash.old)) (rows_shape self.now.config.now) at_least n) }
        ensures broken { IfErr result (IfFound (λ fault. IsTrue (F.state flash.old).media.tells
            → (fault.ring ≡ RingName.Data) × BreaksRing (IsRowsForm self.now.config.now) (OverPages (layout_in self.now.config.now)) (page_at (F.state flash.old)) (rows_shape self.now.config.now) at_least fault.rule fault.page)) }
        ensures fails { IfErr result (IfFailed (λ e. ReadFails (F.state flash.old) e (F.state flash.new))) }
        ensures off { OffFails (Halt.Failed FlashFault.PowerLost) (F.state flash.old) result (F.state flash.new) }
    {
        let ring = Ring::unnumbered(flash, self.config.rows);
        let form = DataForm {
            schema: &self.schema,
            buckets: self.config.buckets,
        };
        in_ring(
            RingName::Data,
            check_rows(&ring, flash, at_least, &form, buf),
        )
    }

    /// Checks the rules of the ring of variable data, where there is one.
    fn check_var<F: Flash>(
        &self,
        flash: &mut F,
        at_least: u64,
        buf: &mut PageBuf,
    ) -> Result<Option<Numbering>, Halt>
        requires fits { Fits self.now.config.now (F.state flash.old) }
        requires room { length buf.old.bytes ≡ self.now.config.now.geometry.page }
        ensures looks { OnlyLooks (F.state flash.old) (F.state flash.new) }
        ensures room { length buf.new.bytes ≡ self.now.config.now.geometry.page }
        ensures within { IfOk result (λ var. LiesWithin self.now.config.now self.now.config.now.var var) }
        ensures sound { IfOk result (λ var. IsTrue (F.state flash.old).media.tells
            → OfRing (λ place n. IsRingSound IsVarForm NoRows (page_at (F.state flash.old)) (shape_in self.now.config.now place) at_least n) self.now.config.now.var var) }
        ensures broken { IfErr result (IfFound (λ fault. IsTrue (F.state flash.old).media.tells
            → (fault.ring ≡ RingName.Var) × BreaksVarBy self.now.config.now (page_at (F.state flash.old)) at_least fault.page fault.rule)) }
        ensures fails { IfErr result (IfFailed (λ e. ReadFails (F.state flash.old) e (F.state flash.new))) }
    {
        let Some(place) = self.config.var else {
            return Ok(None);
        };
        let ring = Ring::unnumbered(flash, place);
        let n = in_ring(
            RingName::Var,
            check_ring(&ring, flash, at_least, &ContentForm, buf),
        )?;
        Ok(Some(n))
    }

    /// Checks the rules of all rings. The numbers of each ring follow what the ring before it tells.
    fn check_rings<F: Flash>(&self, flash: &mut F, buf: &mut PageBuf) -> Result<Rings, Halt>
        requires fits { Fits self.now.config.now (F.state flash.old) }
        requires log { LogFits self.now.log (F.state flash.old) }
        requires room { length buf.old.bytes ≡ self.now.config.now.geometry.page }
        ensures looks { OnlyLooks (F.state flash.old) (F.state flash.new) }
        ensures room { length buf.new.bytes ≡ self.now.config.now.geometry.page }
        ensures index { IfOk result (λ rings. LiesWithin self.now.config.now self.now.config.now.index rings.numbers.index) }
        ensures rows { IfOk result (λ rings. AreWithin (rows_shape self.now.config.now) rings.numbers.rows.marks) }
        ensures var { IfOk result (λ rings. LiesWithin self.now.config.now self.now.config.now.var rings.numbers.var) }
        ensures sound { IfOk result (λ rings. IsTrue (F.state flash.old).media.tells → AreRingsSound self.now.config.now self.now.log (page_at (F.state flash.old)) rings.numbers) }
        ensures tally { IfOk result (λ rings. IsTrue (F.state flash.old).media.tells → rings.tally ≡ tally_in self.now.config.now (page_at (F.state flash.old)) rings.numbers.rows) }
        ensures broken { IfErr result (IfFound (λ fault. IsTrue (F.state flash.old).media.tells → IsFirstFault self.now.config.now self.now.log (page_at (F.state flash.old)) fault.ring fault.page fault.rule)) }
        ensures fails { IfErr result (IfFailed (λ e. ReadFails (F.state flash.old) e (F.state flash.new))) }
        ensures off { OffFails (Halt.Failed FlashFault.PowerLost) (F.state flash.old) result (F.state flash.new) }
    {
        let index = self.check_index(flash, buf)?;
        let end = self.find_index_end(flash, index, buf)?;
        let rows = self.check_data(flash, end, buf)?;
        let tally = self.tally_rows(flash, rows, buf)?;
        let var = self.check_var(flash, tally.blob_end, buf)?;
        let log = self.check_log(flash, buf)?;
        Ok(Rings {
            numbers: TableNumbers {
                index,
                rows,
                var,
                log,
            },
            tally,
        })
    }

    /// What the data pages tell.
    pub(crate) fn tally_rows<F: Flash>(
        &self,
        flash: &mut F,
        rows: Numbering,
        buf: &mut PageBuf,
    ) -> Result<Tally, FlashFault>
        requires fits { Fits self.now.config.now (F.state flash.old) }
        requires room { length buf.old.bytes ≡ self.now.config.now.geometry.page }
        requires within { AreWithin (rows_shape self.now.config.now) rows.marks }
        ensures looks { OnlyLooks (F.state flash.old) (F.state flash.new) }
        ensures room { length buf.new.bytes ≡ self.now.config.now.geometry.page }
        ensures tally { IfOk result (λ tally. IsTrue (F.state flash.old).media.tells → HaveRows (layout_in self.now.config.now) (page_at (F.state flash.old)) (rows_shape self.now.config.now) rows.marks
            → tally ≡ tally_in self.now.config.now (page_at (F.state flash.old)) rows) }
        ensures fails { IfErr result (λ e. ReadFails (F.state flash.old) e (F.state flash.new)) }
    {
        let ring = Ring::unnumbered(flash, self.config.rows);
        tally_pages(&ring, flash, rows.marks, &self.schema, buf)
    }

    /// Looks for the oldest kept index page that breaks the rule on its entries.
    pub(crate) fn find_misentered<F: Flash>(
        &self,
        flash: &mut F,
        place: RingPlace,
        index: Numbering,
        rows: Numbering,
        listing: &mut PageBuf,
        buf: &mut PageBuf,
    ) -> Result<Option<u32>, FlashFault>
        requires fits { Fits self.now.config.now (F.state flash.old) }
        requires place { self.now.config.now.index ≡ Some place }
        requires listing { length listing.old.bytes ≡ self.now.config.now.geometry.page }
        requires room { length buf.old.bytes ≡ self.now.config.now.geometry.page }
        requires index { AreWithin (shape_in self.now.config.now place) index.marks }
        requires rows { AreWithin (rows_shape self.now.config.now) rows.marks }
        ensures looks { OnlyLooks (F.state flash.old) (F.state flash.new) }
        ensures listing { length listing.new.bytes ≡ self.now.config.now.geometry.page }
        ensures room { length buf.new.bytes ≡ self.now.config.now.geometry.page }
        ensures entries { IfOk result (λ broken. IsTrue (F.state flash.old).media.tells → MatchOption broken
            (HaveEntries (page_at (F.state flash.old)) (shape_in self.now.config.now place) (rows_shape self.now.config.now) (indexing self.now.config.now index rows))
            (λ p. EntriesBreak (page_at (F.state flash.old)) (shape_in self.now.config.now place) (rows_shape self.now.config.now) (indexing self.now.config.now index rows) p)) }
        ensures fails { IfErr result (λ e. ReadFails (F.state flash.old) e (F.state flash.new)) }
    {
        let over = Indexing {
            form: self.entry_form(),
            schema: &self.schema,
            index: index.marks,
            rows,
        };
        let index = Ring::unnumbered(flash, place);
        let rows = Ring::unnumbered(flash, self.config.rows);
        check_entries(&index, &rows, flash, over, listing, buf)
    }

    /// Checks the rule on the entries of the index, where there is one.
    fn check_index_entries<F: Flash>(
        &self,
        flash: &mut F,
        t: TableNumbers,
        listing: &mut PageBuf,
        buf: &mut PageBuf,
    ) -> Result<(), Halt>
        requires fits { Fits self.now.config.now (F.state flash.old) }
        requires listing { length listing.old.bytes ≡ self.now.config.now.geometry.page }
        requires room { length buf.old.bytes ≡ self.now.config.now.geometry.page }
        requires index { LiesWithin self.now.config.now self.now.config.now.index t.index }
        requires rows { AreWithin (rows_shape self.now.config.now) t.rows.marks }
        ensures looks { OnlyLooks (F.state flash.old) (F.state flash.new) }
        ensures listing { length listing.new.bytes ≡ self.now.config.now.geometry.page }
        ensures room { length buf.new.bytes ≡ self.now.config.now.geometry.page }
        ensures sound { OnOk result (IsTrue (F.state flash.old).media.tells → AreEntriesSound self.now.config.now (page_at (F.state flash.old)) t) }
        ensures broken { IfErr result (IfFound (λ fault. IsTrue (F.state flash.old).media.tells → AreRingsSound self.now.config.now self.now.log (page_at (F.state flash.old)) t
            → IsFirstFault self.now.config.now self.now.log (page_at (F.state flash.old)) fault.ring fault.page fault.rule)) }
        ensures fails { IfErr result (IfFailed (λ e. ReadFails (F.state flash.old) e (F.state flash.new))) }
    {
        let Some(place) = self.config.index else {
            return Ok(());
        };
        let Some(n) = t.index else { unreachable!() };
        let broken = self.find_misentered(flash, place, n, t.rows, listing, buf)?;
        found(RingName::Index, Rule::Entry, broken)
    }

    /// Looks for the oldest kept data page with a reference that doesn't lead to its blob. Each committed one has to have its
    /// rows, and each committed page of variable data some content.
    pub(crate) fn find_misled<F: Flash>(
        &self,
        flash: &mut F,
        place: RingPlace,
        var: Numbering,
        rows: Marks,
        reaches: &mut [u64],
        buf: &mut PageBuf,
    ) -> Result<Option<u32>, FlashFault>
        requires fits { Fits self.now.config.now (F.state flash.old) }
        requires place { self.now.config.now.var ≡ Some place }
        requires listed { blocks_in self.now.config.now.var * self.now.config.now.geometry.block ≤ length reaches.old }
        requires room { length buf.old.bytes ≡ self.now.config.now.geometry.page }
        requires rows { AreWithin (rows_shape self.now.config.now) rows }
        requires var { AreWithin (shape_in self.now.config.now place) var.marks }
        ensures looks { OnlyLooks (F.state flash.old) (F.state flash.new) }
        ensures room { length buf.new.bytes ≡ self.now.config.now.geometry.page }
        ensures blobs { IfOk result (λ broken. IsTrue (F.state flash.old).media.tells → HaveRows (layout_in self.now.config.now) (page_at (F.state flash.old)) (rows_shape self.now.config.now) rows
            → AllBelow (HasContent (page_at (F.state flash.old)) (shape_in self.now.config.now place) var.marks.at) var.marks.kept → MatchOption broken
            (AllBelow (PageLeads (layout_in self.now.config.now) (page_at (F.state flash.old)) (rows_shape self.now.config.now) rows (shape_in self.now.config.now place) var) rows.kept)
            (λ p. ReferencesBreak (layout_in self.now.config.now) (page_at (F.state flash.old)) (rows_shape self.now.config.now) rows (shape_in self.now.config.now place) var p)) }
        ensures fails { IfErr result (λ e. ReadFails (F.state flash.old) e (F.state flash.new)) }
    {
        let ring = Ring::unnumbered(flash, place);
        find_reaches(&ring, flash, var.marks, reaches, buf)?;
        let blobs = BlobPages {
            ring: &ring,
            numbering: var,
            content: self.config.geometry.page - 16,
            reaches,
        };
        let data = Ring::unnumbered(flash, self.config.rows);
        find_misleading(&data, flash, rows, &self.schema, &blobs, buf)
    }

    /// Checks the rule on the references of the rows, where the table has variable data.
    fn check_blobs<F: Flash>(
        &self,
        flash: &mut F,
        t: TableNumbers,
        reaches: &mut [u64],
        buf: &mut PageBuf,
    ) -> Result<(), Halt>
        requires fits { Fits self.now.config.now (F.state flash.old) }
        requires listed { blocks_in self.now.config.now.var * self.now.config.now.geometry.block ≤ length reaches.old }
        requires room { length buf.old.bytes ≡ self.now.config.now.geometry.page }
        requires rows { AreWithin (rows_shape self.now.config.now) t.rows.marks }
        requires var { LiesWithin self.now.config.now self.now.config.now.var t.var }
        ensures looks { OnlyLooks (F.state flash.old) (F.state flash.new) }
        ensures sound { OnOk result (IsTrue (F.state flash.old).media.tells → AreRingsSound self.now.config.now self.now.log (page_at (F.state flash.old)) t → AreReferencesSound self.now.config.now (page_at (F.state flash.old)) t) }
        ensures broken { IfErr result (IfFound (λ fault. IsTrue (F.state flash.old).media.tells → AreRingsSound self.now.config.now self.now.log (page_at (F.state flash.old)) t
            → AreEntriesSound self.now.config.now (page_at (F.state flash.old)) t → IsFirstFault self.now.config.now self.now.log (page_at (F.state flash.old)) fault.ring fault.page fault.rule)) }
        ensures fails { IfErr result (IfFailed (λ e. ReadFails (F.state flash.old) e (F.state flash.new))) }
    {
        let Some(place) = self.config.var else {
            return Ok(());
        };
        let Some(n) = t.var else { unreachable!() };
        let broken = self.find_misled(flash, place, n, t.rows.marks, reaches, buf)?;
        found(RingName::Data, Rule::Blob, broken)
    }

    /// Checks the rules, up to the first that doesn't hold.
    fn check<F: Flash>(
        &self,
        flash: &mut F,
        reaches: &mut [u64],
        listing: &mut PageBuf,
        buf: &mut PageBuf,
    ) -> Result<Rings, Halt>
        requires fits { Fits self.now.config.now (F.state flash.old) }
        requires log { LogFits self.now.log (F.state flash.old) }
        requires listed { blocks_in self.now.config.now.var * self.now.config.now.geometry.block ≤ length reaches.old }
        requires listing { length listing.old.bytes ≡ self.now.config.now.geometry.page }
        requires room { length buf.old.bytes ≡ self.now.config.now.geometry.page }
        ensures looks { OnlyLooks (F.state flash.old) (F.state flash.new) }
        ensures sound { IfOk result (λ rings. IsTrue (F.state flash.old).media.tells → IsSound self.now.config.now self.now.log (page_at (F.state flash.old)) rings.numbers) }
        ensures tally { IfOk result (λ rings. IsTrue (F.state flash.old).media.tells → rings.tally ≡ tally_in self.now.config.now (page_at (F.state flash.old)) rings.numbers.rows) }
        ensures broken { IfErr result (IfFound (λ fault. IsTrue (F.state flash.old).media.tells → IsFirstFault self.now.config.now self.now.log (page_at (F.state flash.old)) fault.ring fault.page fault.rule)) }
        ensures fails { IfErr result (IfFailed (λ e. ReadFails (F.state flash.old) e (F.state flash.new))) }
        ensures off { OffFails (Halt.Failed FlashFault.PowerLost) (F.state flash.old) result (F.state flash.new) }
    {
        let rings = self.check_rings(flash, buf)?;
        self.check_index_entries(flash, rings.numbers, listing, buf)?;
        self.check_blobs(flash, rings.numbers, reaches, buf)?;
        Ok(rings)
    }
}

/// The fault of a rule that this page breaks, if there is one.
fn found(ring: RingName, rule: Rule, broken: Option<u32>) -> Result<(), Halt>
    ensures ok { OnOk result (broken ≡ None) }
    ensures failed { IfErr result (IfFailed (λ e. ⊥)) }
    ensures found { IfErr result (IfFound (λ fault. (broken ≡ Some fault.page) × (fault.ring ≡ ring) × (fault.rule ≡ rule))) }
{
    match broken {
        None => Ok(()),
        Some(page) => Err(Halt::Found(Fault { ring, page, rule })),
    }
}

/// The schema of the rows of a table whose configuration isn't refused.
pub fn schema_of(config: &TableConfig) -> Schema<8>
    requires fits { config_fault config.now ≡ None }
    requires limits { IsWithinLimits config.now }
    ensures layout { layout_of result ≡ layout_in config.now }
    ensures types { types_of result ≡ config.now.columns.items }
{
    let room = config.geometry.page - 24;
    let blobs = config.var_blocks() > 0;
    let Ok(schema) = Schema::new(config.key, config.columns.as_slice(), blobs, room) else {
        unreachable!()
    };
    schema
}

/// Room for how far the content of each page of variable data reaches.
pub(crate) fn reaches_room(alloc: Global, config: &TableConfig) -> Result<Vec<u64>, NoMemory>
    ensures { IfOk result (λ reaches. vec_len reaches ≡ blocks_in config.now.var * config.now.geometry.block) }
{
    let pages = config.var_blocks() as usize * config.geometry.block as usize;
    Ok(vec![in alloc; 0; pages]?)
}

/// Checks the rings of a table: their pages are read, and nothing is repaired. Finds the first rule that doesn't hold, with
/// the first page that breaks it: ring by ring in the order of index, data, variable data and log those on the ring's own
/// pages, and then those on the index and on the references. Its memory is taken before the flash is read.
pub fn check_table<F: Flash>(
    alloc: Global,
    flash: &mut F,
    config: &TableConfig,
    log: Option<RingPlace>,
) -> Result<Finding, CheckFault>
    requires fits { Fits config.now (F.state flash.old) }
    requires log { LogFits log (F.state flash.old) }
    ensures looks { OnlyLooks (F.state flash.old) (F.state flash.new) }
    ensures finding { IfOk result (λ finding. IsTrue (F.state flash.old).media.tells → IsFinding config.now log (page_at (F.state flash.old)) finding) }
    ensures fails { IfErr result (λ fault. CheckFails (F.state flash.old) fault (F.state flash.new)) }
    ensures off { OffChecksNothing (F.state flash.old) result (F.state flash.new) }
{
    let mut listing = PageBuf::new(alloc, config.geometry.page)?;
    let mut buf = PageBuf::new(alloc, config.geometry.page)?;
    let mut reaches = reaches_room(alloc, config)?;
    let schema = schema_of(config);
    let checked = Checked {
        config,
        log,
        schema,
    };
    match checked.check(flash, &mut reaches, &mut listing, &mut buf) {
        Ok(rings) => Ok(Finding::Sound {
            rows: rings.tally.rows,
            pages: rings.numbers.rows.marks.kept,
            voids: rings.tally.voids,
        }),
        Err(Halt::Failed(fault)) => Err(CheckFault::Flash(fault)),
        Err(Halt::Found(fault)) => Ok(Finding::Fault {
            ring: fault.ring,
            page: fault.page,
            rule: fault.rule,
        }),
    }
}
