// What is known of a page before it is read.
ghost use Rattle.std.specs.Prelude.{◌≡◌, ◌+◌, ◌<◌, ◌≤◌, Some, None, Ok, length, IsTrue, IfErr, OnErr, OnOk};
ghost use Rattle.fl_frame.specs.Contents as contents;
ghost use Rattle.fl_page.specs.Causes.{IsCaused};
ghost use Rattle.fl_parts.specs.Skipping.{begins_above};

use crate::table::Table;
use fl_base::Span;
use fl_flash::{Flash, PageBuf};
use fl_index::{Found, Full};
use fl_page::ReadFault;
use fl_parts::Ahead;

impl<const KNOTS: usize, const SLOTS: usize> Table<KNOTS, SLOTS> {
    ghost use Rattle.std.specs.Prelude.{ℕ, List, [], IfOk, bit_and, slice_get};
    ghost use Rattle.fl_index.specs.Looking.{IfBad};
    ghost use Rattle.fl_base.specs.declared.types.KeyRange.{KeyRange};
    ghost use Rattle.fl_flash.specs.Flash.{page_at};
    ghost use Rattle.fl_model.specs.Image.{rows_at};
    ghost use Rattle.fl_model.specs.Layout.{bitmap_of};
    ghost use Rattle.fl_model.specs.Limits.{mask_of};
    ghost use Rattle.fl_model.specs.Query.{selected};
    ghost use Rattle.fl_model.specs.Record.{Plan};
    ghost use Rattle.fl_model.specs.Ring as rings;
    ghost use Rattle.fl_model.specs.Table as model;
    ghost use Rattle.fl_table.specs.Memory.{next_in, LiesOn};
    ghost use Rattle.fl_parts.specs.Skipping.{AreFresh, AreScanning, HoldGood, IsBadIndex, IsLookedUpBy, LooksOn, mask_for, IsToldBy, ShowsPage, ahead_by};
    ghost use Rattle.fl_table.specs.Look.{index_in};
    ghost use Rattle.fl_bitmap.specs.Bucket.{HasBuckets};
    ghost use Rattle.fl_parts.specs.declared.ahead.Ahead.{Ahead};
    ghost use Rattle.fl_table.specs.Standing.{Stands};

    /// What is known of the kept page with this number before it is read, where rows are wanted whose first value is in the
    /// span and whose key is at most `top`, or none where there is no such key. Without a span, or where the page isn't
    /// indexed, it is wanted. Its bitmap tells whether it is missed, and a full entry whether it lies beyond `top`. The index
    /// page that lists it is read, unless the buffer holds it; so over ascending numbers each index page is read once. After
    /// an error the buffer holds none.
    pub fn look_ahead<F: Flash>(
        &self,
        flash: &mut F,
        number: u32,
        span: Option<Span>,
        top: Option<u64>,
        buf: &mut PageBuf,
    ) -> Result<Ahead, ReadFault>
        requires lies { LiesOn self.now (F.state flash.old) }
        requires room { length buf.old.bytes ≡ (F.state flash.old).geometry.page }
        ensures counts { contents.OnlyReads (F.state flash.old) (F.state flash.new) }
        ensures one { (F.state flash.new).work.reads ≤ (F.state flash.old).work.reads + 1 }
        ensures room { length buf.new.bytes ≡ length buf.old.bytes }
        ensures none { OnErr result (buf.new.holds ≡ None) }
        ensures fresh { IsTrue (F.state flash.old).media.tells → AreFresh (index_in self.now) (F.state flash.old) buf.old → AreFresh (index_in self.now) (F.state flash.new) buf.new }
        ensures unasked { span ≡ None → (result ≡ Ok Ahead.Wanted) × (F.state flash.new ≡ F.state flash.old) × (buf.new ≡ buf.old) }
        ensures unindexed { index_in self.now ≡ None → (result ≡ Ok Ahead.Wanted) × (F.state flash.new ≡ F.state flash.old) × (buf.new ≡ buf.old) }
        ensures shows { (first : ℕ) → (plan : Plan) → (table : model.Table) → (n : ℕ) → (rows : ℕ) → IsTrue (F.state flash.old).media.tells → Stands self.now (F.state flash.old) first plan table →
            AreFresh (index_in self.now) (F.state flash.old) buf.old → number ≡ rings.oldest table.rows + n → slice_get table.rows.counts n ≡ Some rows → 0 < rows →
            ShowsPage plan table span top number (rows_at table n rows) result }
        ensures misses { (first : ℕ) → (plan : Plan) → (table : model.Table) → (n : ℕ) → (rows : ℕ) → (range : KeyRange) → IsTrue (F.state flash.old).media.tells →
            Stands self.now (F.state flash.old) first plan table → AreFresh (index_in self.now) (F.state flash.old) buf.old → number ≡ rings.oldest table.rows + n →
            slice_get table.rows.counts n ≡ Some rows → 0 < rows → result ≡ Ok Ahead.Missed → selected range span (rows_at table n rows) ≡ [] }
        ensures looks { (first : ℕ) → (plan : Plan) → (table : model.Table) → IsTrue (F.state flash.old).media.tells → Stands self.now (F.state flash.old) first plan table →
            AreFresh (index_in self.now) (F.state flash.old) buf.old → AreScanning (index_in self.now) number buf.old →
            LooksOn (index_in self.now) span number buf.old (F.state flash.old).work.reads result (F.state flash.new).work.reads buf.new }

        // Whatever the pages hold: a page that needn't be read is told so by its entry, and the index page that is looked at isn't bad.
        ensures told { IsTrue (F.state flash.old).media.tells → AreFresh (index_in self.now) (F.state flash.old) buf.old →
            IfOk result (λ ahead. (ahead ≡ Ahead.Wanted → ⊥) → IsToldBy (index_in self.now) self.now.buckets (page_at (F.state flash.old)) span top number ahead) }
        ensures looked_up { IsTrue (F.state flash.old).media.tells → AreFresh (index_in self.now) (F.state flash.old) buf.old → OnOk result (IsLookedUpBy (index_in self.now) (page_at (F.state flash.old)) span number buf.old) }

        // A page that is held isn't bad, and a bad one that is answered stands on the flash.
        ensures good { HoldGood (index_in self.now) buf.old → HoldGood (index_in self.now) buf.new }
        ensures bad { IfErr result (IfBad (λ bad. IsTrue (F.state flash.old).media.tells → HoldGood (index_in self.now) buf.old → IsBadIndex (index_in self.now) (F.state flash.old) bad)) }
        ensures cause { IfErr result (λ fault. IsCaused (F.state flash.old) fault (F.state flash.new)) }
    {
        let Some(span) = span else {
            return Ok(Ahead::Wanted);
        };
        let Some(index) = &self.bitmaps else {
            return Ok(Ahead::Wanted);
        };
        match index.entry_of(flash, number, buf) {
            Ok(None) => Ok(Ahead::Wanted),
            Ok(Some(found)) => Ok(self.ahead_by(found, span, top)),
            Err(fault) => {
                buf.forget();
                Err(fault)
            }
        }
    }

    /// What an entry tells of its page, for a span and the greatest key wanted.
    fn ahead_by(&self, found: Found, span: Span, top: Option<u64>) -> Ahead
        ensures told { result ≡ ahead_by (mask_for self.now.buckets span) top found }
        ensures exact { (plan : Plan) → HasBuckets plan self.now.buckets → (plan.bits ≡ 0 → ⊥) → result ≡ ahead_by (mask_of plan span) top found }
        ensures misses { (plan : Plan) → (entries : List model.Entry) → (range : KeyRange) → HasBuckets plan self.now.buckets → (plan.bits ≡ 0 → ⊥) →
            found.bitmap ≡ bitmap_of plan entries → result ≡ Ahead.Missed → selected range (Some span) entries ≡ [] }
    {
        if begins_above(found.full, top) {
            return Ahead::Beyond;
        }
        if found.bitmap & self.mask(span) == 0 {
            return Ahead::Missed;
        }
        Ahead::Wanted
    }

    /// The bits of the buckets of a span; none where the table has no buckets.
    fn mask(&self, span: Span) -> u64
        ensures told { result ≡ mask_for self.now.buckets span }
        ensures exact { (plan : Plan) → HasBuckets plan self.now.buckets → (plan.bits ≡ 0 → ⊥) → result ≡ mask_of plan span }
        ensures misses { (plan : Plan) → (entries : List model.Entry) → (range : KeyRange) → HasBuckets plan self.now.buckets → (plan.bits ≡ 0 → ⊥) →
            bit_and (bitmap_of plan entries) result ≡ 0 → selected range (Some span) entries ≡ [] }
    {
        match &self.buckets {
            Some(buckets) => buckets.mask(span),
            None => 0,
        }
    }
}

/// Whether a full entry tells that its page begins above the greatest key wanted.
fn begins_above(full: Option<Full>, top: Option<u64>) -> bool
    ensures { result ≡ begins_above top full }
{
    match (full, top) {
        (None, _) => false,
        (Some(_), None) => true,
        (Some(full), Some(top)) => top < full.first_key,
    }
}
