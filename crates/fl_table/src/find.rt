// A lookup: the row of a key, among the pending rows or in the kept pages.
ghost use Rattle.std.specs.Prelude.{◌≡◌, ◌-◌, ◌<◌, ◌≤◌, ℕ, true, length, IfSome};

use crate::table::Table;
use fl_base::Steps;
use fl_find::PageRow;
use fl_flash::{Flash, PageBuf};
use fl_page::ReadFault;
use fl_schema::RowRef;

/// The place of a row: among the pending rows, counted from 0, or in a kept page.
#[derive(Clone, Copy, Debug, PartialEq, Eq)]
pub enum RowAt {
    Pending(usize),
    InPage(PageRow),
}

impl<const KNOTS: usize, const SLOTS: usize> Table<KNOTS, SLOTS> {
    ghost use Rattle.std.specs.Prelude.{Some};
    ghost use Rattle.fl_find.specs.Finding.{pages_end};
    ghost use Rattle.fl_flash.specs.Flash.{FlashState};
    ghost use Rattle.fl_model.specs.Record.{Plan};
    ghost use Rattle.fl_model.specs.Spline.{lookup_limit, page_at};
    ghost use Rattle.fl_model.specs.Table as model;
    ghost use Rattle.fl_table.specs.Finding.{IsRowAt, end_in, limit_in, row_in, row_of_place};
    ghost use Rattle.fl_table.specs.Lookups.{AnswersBy, AnswersPage, ComparesFor, LooksAt, LooksForPage, LooksUp};
    ghost use Rattle.fl_schema.specs.Schema.{layout_of_row, row_of};
    ghost use Rattle.fl_table.specs.Look.{layout_in};
    ghost use Rattle.fl_table.specs.Memory.{is_running, next_in, LiesOn};
    ghost use Rattle.fl_table.specs.Standing.{Stands};

    /// The greatest number of reads of `find`.
    pub fn lookup_limit(&self, key: u64) -> u64
        ensures exact { result ≡ limit_in self.now key }
        ensures stands { (f : FlashState) → (first : ℕ) → (plan : Plan) → (table : model.Table) → Stands self.now f first plan table → result ≡ lookup_limit KNOTS plan table key }
    {
        if self.is_pending_key(key) {
            return 0;
        }
        let pages = self.next_number() - self.oldest();
        self.index.lookup_limit(key, pages, self.voids)
    }

    /// The row with the key, and none where no record has it. Where it isn't pending the buffer holds its page then.
    ///
    /// For a key that is at least the first pending one nothing is read. The comparisons with knots are counted.
    pub fn find<F: Flash>(
        &self,
        flash: &mut F,
        key: u64,
        buf: &mut PageBuf,
        steps: &mut Steps,
    ) -> Result<Option<RowAt>, ReadFault>
        requires running { is_running self.now ≡ true }
        requires lies { LiesOn self.now (F.state flash.old) }
        requires room { length buf.old.bytes ≡ (F.state flash.old).geometry.page }
        ensures find { LooksUp self.now key (F.state flash.old) buf.old steps.old
            result (F.state flash.new) buf.new steps.new }
        // Whatever the pages hold:
        ensures row { AnswersBy self.now key (F.state flash.old) buf.old
            result (F.state flash.new) buf.new }
        ensures flash { LooksAt self.now (F.state flash.old) buf.old (F.state flash.new) buf.new }
        ensures steps { ComparesFor self.now key steps.old steps.new }
    {
        if self.is_pending_key(key) {
            return Ok(self.pending_place(key).map(RowAt::Pending));
        }
        let Some(ring) = &self.ring else {
            unreachable!()
        };
        match self.index.find(ring, &self.schema, flash, buf, key, steps) {
            Ok(found) => Ok(found.map(RowAt::InPage)),
            Err(fault) => Err(fault),
        }
    }

    /// The row at a place that `find` gave, where neither the table nor the buffer changed since.
    pub fn row_at<'b>(&'b self, buf: &'b PageBuf, place: RowAt) -> RowRef<'b>
        requires here { IsRowAt self.now buf.now place }
        ensures row { row_in self.now buf.now place ≡ Some (row_of result) }
        ensures layout { layout_of_row result ≡ layout_in self.now }
        ensures stands { (f : FlashState) → (first : ℕ) → (plan : Plan) → (table : model.Table) → Stands self.now f first plan table → row_of_place plan table buf.now place ≡ Some (row_of result) }
    {
        match place {
            RowAt::Pending(i) => self.pending_row(i),
            RowAt::InPage(at) => self.view(buf, at.number).row(at.row),
        }
    }

    /// The greatest kept page with rows whose first key is at most the key, and none where there is none. The buffer
    /// holds it then.
    ///
    /// Pages are read and comparisons counted as `find` does for a key that isn't pending.
    pub fn page_of<F: Flash>(
        &self,
        flash: &mut F,
        key: u64,
        buf: &mut PageBuf,
        steps: &mut Steps,
    ) -> Result<Option<u32>, ReadFault>
        requires running { is_running self.now ≡ true }
        requires lies { LiesOn self.now (F.state flash.old) }
        requires room { length buf.old.bytes ≡ (F.state flash.old).geometry.page }
        ensures page { LooksForPage self.now key (F.state flash.old) steps.old
            result (F.state flash.new) steps.new }
        // Whatever the pages hold:
        ensures kept { AnswersPage self.now key (F.state flash.old)
            result (F.state flash.new) buf.new }
        ensures flash { LooksAt self.now (F.state flash.old) buf.old (F.state flash.new) buf.new }
        ensures steps { ComparesFor self.now key steps.old steps.new }
    {
        let Some(ring) = &self.ring else {
            unreachable!()
        };
        self.index
            .page_of(ring, &self.schema, flash, buf, key, steps)
    }

    /// The number after the last kept page that may have a row with at most this key: the first key of each later page
    /// with rows is greater. Nothing is read.
    pub fn end_of_pages(&self, key: u64) -> u32
        ensures within { result ≤ next_in self.now }
        ensures exact { result ≡ end_in self.now key }
        ensures table { (f : FlashState) → (first : ℕ) → (plan : Plan) → (table : model.Table) → Stands self.now f first plan table → result ≡ pages_end KNOTS plan table key }
        ensures past { (f : FlashState) → (first : ℕ) → (plan : Plan) → (table : model.Table) → Stands self.now f first plan table → IfSome (page_at table key) (λ page. page < result) }
    {
        self.index.end_of_pages(key, self.next_number())
    }
}
