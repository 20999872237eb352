// A lookup: the row of a key among the rows of the kept pages.
ghost use Rattle.std.specs.Prelude.{◌≡◌, ◌≤◌, ◌<◌, ◌+◌, ◌-◌, ◌^◌, min, ℕ, true, false, length, IsTrue, Option, Some, IfSome, IfOk, IfErr, OnOk, unwrap_or};
ghost use Rattle.fl_model.specs.Record.{Plan};
ghost use Rattle.fl_model.specs.Table as model;
ghost use Rattle.fl_base.specs.Bits.{bits};
ghost use Rattle.fl_model.specs.Spline.{is_covered, is_pending_key, lookup_limit};
ghost use Rattle.fl_radix.specs.Slots.{knots_in_slot};
ghost use Rattle.fl_ring.specs.Place.{shape_of, oldest_of, next_of, LiesOn};
ghost use Rattle.fl_schema.specs.Schema.{layout_of};
ghost use Rattle.fl_search.specs.Search.{Ascends, IsPageOf};
ghost use Rattle.fl_find.specs.Pages.{rows_on, first_on, Holds, IsFresh};
ghost use Rattle.fl_find.specs.Looking.{BlamesBelow, OnlyLooks, LookFails, NoneIsBad};
ghost use Rattle.fl_find.specs.Standing.{HoldsPages, HasPoints};
ghost use Rattle.fl_find.specs.Index.{knots_in, shift_in, IndexOf, window_end};
ghost use Rattle.fl_find.specs.Rows.{HasKey, IsOn, LooksUp};

use crate::index::KeyIndex;
use crate::row::PageRow;
use crate::seek::row_of;
use fl_base::Steps;
use fl_flash::{Flash, PageBuf};
use fl_page::ReadFault;
use fl_ring::Ring;
use fl_schema::Schema;

impl<const KNOTS: usize, const SLOTS: usize> KeyIndex<KNOTS, SLOTS> {
    /// The row with the key among the rows of the kept pages, and none where no row has it. The buffer holds its page
    /// then. Pages are read and comparisons counted as `page_of` does.
    pub fn find<F: Flash>(
        &self,
        ring: &Ring,
        schema: &Schema<8>,
        flash: &mut F,
        buf: &mut PageBuf,
        key: u64,
        steps: &mut Steps,
    ) -> Result<Option<PageRow>, ReadFault>
        requires lies { LiesOn ring.now (F.state flash.old) }
        requires room { length buf.old.bytes ≡ (F.state flash.old).geometry.page }
        ensures looks { OnlyLooks (F.state flash.old) (F.state flash.new) }
        ensures lies { LiesOn ring.now (F.state flash.new) }
        ensures room { length buf.new.bytes ≡ length buf.old.bytes }
        ensures entry { (plan : Plan) (table : model.Table) → HoldsPages (layout_of schema.now) ring.now (F.state flash.old) plan table → HasPoints table → IndexOf plan.error table.points self.now →
            LooksUp KNOTS plan (layout_of schema.now) table key (F.state flash.old).work.reads (F.state flash.new).work.reads result buf.new }
        ensures reads { (plan : Plan) (table : model.Table) → HoldsPages (layout_of schema.now) ring.now (F.state flash.old) plan table → HasPoints table → IndexOf plan.error table.points self.now →
            is_pending_key table key ≡ false → (F.state flash.new).work.reads ≤ (F.state flash.old).work.reads + lookup_limit KNOTS plan table key }
        ensures sound { (page : Option ℕ) → is_covered (knots_in self.now) key ≡ true → IsTrue (F.state flash.old).media.tells →
            IsPageOf (first_on (layout_of schema.now) (shape_of ring.now) (F.state flash.old)) (oldest_of ring.now) (window_end self.now (next_of ring.now) key) key page →
            OnOk result (NoneIsBad (layout_of schema.now) ring.now (F.state flash.old) (unwrap_or page (oldest_of ring.now)) (window_end self.now (next_of ring.now) key)) }
        ensures near { (page : Option ℕ) → is_covered (knots_in self.now) key ≡ true → IsTrue (F.state flash.old).media.tells →
            IsPageOf (first_on (layout_of schema.now) (shape_of ring.now) (F.state flash.old)) (oldest_of ring.now) (window_end self.now (next_of ring.now) key) key page →
            IfOk result (IsOn (layout_of schema.now) (shape_of ring.now) (F.state flash.old) key page) }
        ensures far { (page : Option ℕ) → is_covered (knots_in self.now) key ≡ false → IsTrue (F.state flash.old).media.tells →
            Ascends (first_on (layout_of schema.now) (shape_of ring.now) (F.state flash.old)) (oldest_of ring.now) (next_of ring.now) →
            IsPageOf (first_on (layout_of schema.now) (shape_of ring.now) (F.state flash.old)) (oldest_of ring.now) (next_of ring.now) key page →
            IfOk result (IsOn (layout_of schema.now) (shape_of ring.now) (F.state flash.old) key page) }
        ensures most { (F.state flash.new).work.reads ≤ (F.state flash.old).work.reads + (next_of ring.now - oldest_of ring.now) + 1 }
        ensures holds { IfOk result (λ row. IfSome row (λ at. Holds (layout_of schema.now) (shape_of ring.now) (F.state flash.new) at.number buf.new)) }
        ensures within { IfOk result (λ row. IfSome row (λ at. (oldest_of ring.now ≤ at.number) × (at.number < next_of ring.now))) }
        ensures row { IfOk result (λ row. IfSome row (λ at. HasKey (rows_on (layout_of schema.now) buf.new.bytes) key at.row)) }
        ensures fresh { IsFresh (F.state flash.old) buf.old → IsFresh (F.state flash.new) buf.new }
        ensures fails { IfErr result (λ e. LookFails (layout_of schema.now) ring.now (F.state flash.old) e (F.state flash.new)) }
        ensures blames { is_covered (knots_in self.now) key ≡ true → IfErr result (BlamesBelow (layout_of schema.now) ring.now (F.state flash.old) (window_end self.now (next_of ring.now) key) key) }
        ensures later { min steps.old (2 ^ 64 - 1) ≤ steps.new }
        ensures comparisons { steps.new ≤ steps.old + bits (knots_in_slot (knots_in self.now) (shift_in self.now) key) + 2 }
    {
        let Some(number) = self.page_of(ring, schema, flash, buf, key, steps)? else {
            return Ok(None);
        };
        let Some(row) = row_of(schema, buf.bytes(), number, key) else {
            return Ok(None);
        };
        Ok(Some(PageRow { number, row }))
    }
}
