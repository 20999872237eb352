// A learned index of pages: a spline over their first keys, and a radix table over its knots.
ghost use Rattle.std.specs.Prelude.{◌≡◌};
ghost use Rattle.fl_radix.specs.Radix.{Follows};
ghost use Rattle.fl_spline.specs.Spline.{error_of, kept};

use crate::search::{page_by_halves, page_downwards};
use fl_base::Steps;
use fl_flash::{Flash, PageBuf};
use fl_page::ReadFault;
use fl_radix::Radix;
use fl_ring::Ring;
use fl_schema::Schema;
use fl_spline::Spline;

/// Where the pages of keys are: a spline over the first keys of pages, with its KNOTS newest knots, and a radix table
/// of SLOTS slots over these.
#[derive(Drop)]
pub struct KeyIndex<const KNOTS: usize, const SLOTS: usize> {
    error: u32,
    spline: Spline<KNOTS>,
    radix: Radix<SLOTS>,
    ghost same: { error_of spline ≡ error },
    ghost follows: { Follows (kept spline) radix },
}

impl<const KNOTS: usize, const SLOTS: usize> KeyIndex<KNOTS, SLOTS> {
    ghost use Rattle.std.specs.Prelude.{◌≤◌, ◌<◌, ◌+◌, ◌-◌, ◌^◌, min, ℕ, true, false, IsTrue, List, [], ◌∷◌, ◌++◌, length, Option, Some, IfSome, IfOk, IfErr, OnOk, if◌then◌else◌, unwrap_or};
    ghost use Rattle.fl_model.specs.Record.{Plan};
    ghost use Rattle.fl_model.specs.Facts.{IsTable};
    ghost use Rattle.fl_model.specs.Table as model;
    ghost use Rattle.fl_base.specs.Bits.{bits};
    ghost use Rattle.fl_model.specs.Spline.{is_covered, is_pending_key, lookup_limit, page_at};
    ghost use Rattle.fl_radix.specs.Slots.{knots_in_slot};
    ghost use Rattle.fl_ring.specs.Place.{shape_of, oldest_of, next_of, LiesOn};
    ghost use Rattle.fl_schema.specs.Schema.{layout_of};
    ghost use Rattle.fl_search.specs.Search.{IsPageOf, Ascends, RoseBy, RoseSome, looked_at, starts_by, voids_in};
    ghost use Rattle.fl_spline.specs.Points.{IsFurther, last_of};
    ghost use Rattle.fl_spline.specs.Segment.{IsSegment};
    ghost use Rattle.fl_find.specs.Pages.{first_on, Holds, IsFresh};
    ghost use Rattle.fl_find.specs.Looking.{BlamesBelow, OnlyLooks, LookFails, NoneIsBad};
    ghost use Rattle.fl_find.specs.Standing.{HoldsPages, HasPoints};
    ghost use Rattle.fl_find.specs.Finding.{FindsPage, pages_end};
    ghost use Rattle.fl_find.specs.Index.{error_in, knots_in, shift_in, is_further, IndexOf, window_end, most_reads};

    /// The index of no pages, whose lines may be off by `error` pages.
    pub fn new(error: u32) -> KeyIndex<KNOTS, SLOTS>
        requires knots { 2 ≤ KNOTS }
        requires slots { 2 ≤ SLOTS }
        ensures { IndexOf error [] result }
    {
        KeyIndex {
            error,
            spline: Spline::new(error),
            radix: Radix::new(),
        }
    }

    /// Forgets the pages.
    pub fn clear(&mut self)
        ensures error { error_in self.new ≡ error_in self.old }
        ensures none { IndexOf (error_in self.old) [] self.new }
    {
        self.spline.clear();
        self.radix.follow(&self.spline);
    }

    /// Adds a page with rows, with a greater first key and a greater number than all before it.
    ///
    /// This takes a number of steps in the order of KNOTS and SLOTS at most, whatever the number of pages, and a few where it only
    /// moves the last knot.
    pub fn add(&mut self, first_key: u64, number: u32)
        requires { IsFurther (knots_in self.old) (first_key, number) }
        ensures error { error_in self.new ≡ error_in self.old }
        ensures last { last_of (knots_in self.new) ≡ Some (first_key, number) }
        ensures points { (error : ℕ) (points : List (ℕ × ℕ)) → IndexOf error points self.old → IndexOf error (points ++ (first_key, number) ∷ []) self.new }
    {
        let count = self.spline.knots();
        let from = self.spline.covered_from();
        self.spline.add(first_key, number);
        if self.spline.knots() == count && self.spline.covered_from() == from {
            self.radix.follow_last(&self.spline);
        } else {
            self.radix.follow(&self.spline);
        }
    }

    /// Whether a page comes after all before it: its first key and its number are greater.
    fn is_further(&self, first_key: u64, number: u32) -> bool
        ensures { result ≡ is_further (knots_in self.now) (first_key, number) }
    {
        match self.spline.as_slice().last().copied() {
            Some((key, page)) => key < first_key && page < number,
            None => true,
        }
    }

    /// Adds a page with rows where it has a greater first key and a greater number than all before it, as each page of
    /// a table has. Another page is left out.
    pub fn add_further(&mut self, first_key: u64, number: u32)
        ensures error { error_in self.new ≡ error_in self.old }
        ensures points { (error : ℕ) (points : List (ℕ × ℕ)) → IndexOf error points self.old → IsFurther points (first_key, number) → IndexOf error (points ++ (first_key, number) ∷ []) self.new }
        ensures last { last_of (knots_in self.new) ≡ (if is_further (knots_in self.old) (first_key, number) then Some (first_key, number) else last_of (knots_in self.old)) }
        ensures left_out { is_further (knots_in self.old) (first_key, number) ≡ false → self.new ≡ self.old }
    {
        if !self.is_further(first_key, number) {
            return;
        }
        self.add(first_key, number);
    }

    /// Whether the line of a segment tells where a key's page is.
    pub fn covers(&self, key: u64) -> bool
        ensures { result ≡ is_covered (knots_in self.now) key }
    {
        match self.spline.covered_from() {
            Some(from) => from <= key,
            None => false,
        }
    }

    /// The greatest number of reads of a lookup among so many kept pages, of which `voids` are void.
    pub fn lookup_limit(&self, key: u64, pages: u32, voids: u32) -> u64
        ensures { result ≡ most_reads self.now pages voids key }
    {
        let most = if self.covers(key) {
            2 * u64::from(self.error) + 2
        } else {
            u64::from(64 - u64::from(pages).leading_zeros()) + 1
        };
        most + u64::from(voids)
    }

    /// The number after the last page that may be that of a key of this segment.
    fn end_of_window(&self, segment: usize, key: u64, next: u32) -> u32
        requires { IsSegment (knots_in self.now) key segment }
        ensures { result ≡ window_end self.now next key }
    {
        let estimate = u64::from(self.spline.estimate(segment, key));
        let end = estimate + u64::from(self.error) + 1;
        if end < u64::from(next) {
            end as u32
        } else {
            next
        }
    }

    /// The number after the last of the pages before `next` that may have a row with at most this key: that after its
    /// window where the key is covered, and else `next`. The first key of each later page with rows is greater.
    pub fn end_of_pages(&self, key: u64, next: u32) -> u32
        ensures exact { result ≡ (if is_covered (knots_in self.now) key then window_end self.now next key else next) }
        ensures table { (plan : Plan) (table : model.Table) → IndexOf plan.error table.points self.now → next ≡ table.rows.next → result ≡ pages_end KNOTS plan table key }
        ensures past { (plan : Plan) (table : model.Table) → IsTable plan table → HasPoints table → IndexOf plan.error table.points self.now → next ≡ table.rows.next →
            IfSome (page_at table key) (λ page. page < result) }
    {
        let mut steps = Steps::new();
        match self.radix.segment(&self.spline, key, &mut steps) {
            Some(segment) => self.end_of_window(segment, key, next),
            None => next,
        }
    }

    /// The greatest kept page with rows whose first key is at most the key, and none where there is none. The buffer
    /// holds it then.
    ///
    /// Where the key is covered, the pages are read from the last one downwards that its line allows. Else they are
    /// searched by halves. The comparisons with knots are counted.
    pub fn page_of<F: Flash>(
        &self,
        ring: &Ring,
        schema: &Schema<8>,
        flash: &mut F,
        buf: &mut PageBuf,
        key: u64,
        steps: &mut Steps,
    ) -> Result<Option<u32>, ReadFault>
        requires lies { LiesOn ring.now (F.state flash.old) }
        requires room { length buf.old.bytes ≡ (F.state flash.old).geometry.page }
        ensures looks { OnlyLooks (F.state flash.old) (F.state flash.new) }
        ensures lies { LiesOn ring.now (F.state flash.new) }
        ensures room { length buf.new.bytes ≡ length buf.old.bytes }
        ensures near { is_covered (knots_in self.now) key ≡ true → IsTrue (F.state flash.old).media.tells →
            IfOk result (λ page. IsPageOf (first_on (layout_of schema.now) (shape_of ring.now) (F.state flash.old)) (oldest_of ring.now) (window_end self.now (next_of ring.now) key) key page) }
        ensures exact { is_covered (knots_in self.now) key ≡ true →
            IfOk result (λ page. RoseBy (looked_at (oldest_of ring.now) (window_end self.now (next_of ring.now) key) page) (F.state flash.old).work.reads (F.state flash.new).work.reads) }
        ensures limit { (page : Option ℕ) → is_covered (knots_in self.now) key ≡ true → IsTrue (F.state flash.old).media.tells →
            IsPageOf (first_on (layout_of schema.now) (shape_of ring.now) (F.state flash.old)) (oldest_of ring.now) (window_end self.now (next_of ring.now) key) key page →
            (F.state flash.new).work.reads ≤ (F.state flash.old).work.reads + looked_at (oldest_of ring.now) (window_end self.now (next_of ring.now) key) page }
        ensures sound { (page : Option ℕ) → is_covered (knots_in self.now) key ≡ true → IsTrue (F.state flash.old).media.tells →
            IsPageOf (first_on (layout_of schema.now) (shape_of ring.now) (F.state flash.old)) (oldest_of ring.now) (window_end self.now (next_of ring.now) key) key page →
            OnOk result (NoneIsBad (layout_of schema.now) ring.now (F.state flash.old) (unwrap_or page (oldest_of ring.now)) (window_end self.now (next_of ring.now) key)) }
        ensures far { is_covered (knots_in self.now) key ≡ false → IsTrue (F.state flash.old).media.tells →
            Ascends (first_on (layout_of schema.now) (shape_of ring.now) (F.state flash.old)) (oldest_of ring.now) (next_of ring.now) →
            IfOk result (λ page. IsPageOf (first_on (layout_of schema.now) (shape_of ring.now) (F.state flash.old)) (oldest_of ring.now) (next_of ring.now) key page) }
        ensures starts { IsTrue (F.state flash.old).media.tells →
            IfOk result (λ page. IfSome page (λ number. starts_by (first_on (layout_of schema.now) (shape_of ring.now) (F.state flash.old)) key number ≡ true)) }
        ensures some { is_covered (knots_in self.now) key ≡ false → IfOk result (λ page. IfSome page (λ number. RoseSome (F.state flash.old).work.reads (F.state flash.new).work.reads)) }
        ensures few { is_covered (knots_in self.now) key ≡ false → IsTrue (F.state flash.old).media.tells →
            (F.state flash.new).work.reads ≤ (F.state flash.old).work.reads + bits (next_of ring.now - oldest_of ring.now) + 1
            + voids_in (first_on (layout_of schema.now) (shape_of ring.now) (F.state flash.old)) (oldest_of ring.now) (next_of ring.now) }
        ensures most { (F.state flash.new).work.reads ≤ (F.state flash.old).work.reads + (next_of ring.now - oldest_of ring.now) + 1 }
        ensures holds { IfOk result (λ page. IfSome page (λ number. Holds (layout_of schema.now) (shape_of ring.now) (F.state flash.new) number buf.new)) }
        ensures within { IfOk result (λ page. IfSome page (λ number. (oldest_of ring.now ≤ number) × (number < next_of ring.now))) }
        ensures fresh { IsFresh (F.state flash.old) buf.old → IsFresh (F.state flash.new) buf.new }
        ensures fails { IfErr result (λ e. LookFails (layout_of schema.now) ring.now (F.state flash.old) e (F.state flash.new)) }
        ensures blames { is_covered (knots_in self.now) key ≡ true → IfErr result (BlamesBelow (layout_of schema.now) ring.now (F.state flash.old) (window_end self.now (next_of ring.now) key) key) }
        ensures found { (plan : Plan) (table : model.Table) → HoldsPages (layout_of schema.now) ring.now (F.state flash.old) plan table → HasPoints table → IndexOf plan.error table.points self.now →
            FindsPage KNOTS plan table key (F.state flash.old).work.reads (F.state flash.new).work.reads result }
        ensures reads { (plan : Plan) (table : model.Table) → HoldsPages (layout_of schema.now) ring.now (F.state flash.old) plan table → HasPoints table → IndexOf plan.error table.points self.now →
            is_pending_key table key ≡ false → (F.state flash.new).work.reads ≤ (F.state flash.old).work.reads + lookup_limit KNOTS plan table key }
        ensures later { min steps.old (2 ^ 64 - 1) ≤ steps.new }
        ensures comparisons { steps.new ≤ steps.old + bits (knots_in_slot (knots_in self.now) (shift_in self.now) key) + 2 }
    {
        match self.radix.segment(&self.spline, key, steps) {
            Some(segment) => {
                let end = self.end_of_window(segment, key, ring.next_number());
                page_downwards(ring, schema, flash, buf, end, key)
            }
            None => page_by_halves(ring, schema, flash, buf, key),
        }
    }
}
