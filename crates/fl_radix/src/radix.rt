// The table.
ghost use Rattle.std.specs.Prelude.{◌<◌, ◌≤◌};

use crate::search::knots_up_to;
use crate::slots::{pass_last, shift_for, start_of};
use arrayvec::ArrayVec;
use fl_base::Steps;
use fl_spline::Spline;

/// For each of SLOTS slots the number of knots that stand before it, as of the spline that was followed last.
#[derive(Drop)]
pub struct Radix<const SLOTS: usize> {
    first: u64,
    shift: u32,
    starts: ArrayVec<usize, SLOTS>,
    ghost two: { 2 ≤ SLOTS },
    ghost small: { shift < 64 },
}

impl<const SLOTS: usize> Radix<SLOTS> {
    ghost use Rattle.std.specs.Prelude.{◌≡◌, ◌+◌, ◌-◌, ◌^◌, ◌<◌, ◌≤◌, ℕ, min, List, [], length, false, MatchOption};
    ghost use Rattle.fl_base.specs.Bits.{bits};
    ghost use Rattle.fl_model.specs.Spline.{is_covered};
    ghost use Rattle.fl_spline.specs.Points.{Rises, LastMoved};
    ghost use Rattle.fl_spline.specs.Spline.{kept};
    ghost use Rattle.fl_spline.specs.Segment.{IsSegment};
    ghost use Rattle.fl_radix.specs.Radix.{Follows, IsTableOf, shift_of};
    ghost use Rattle.fl_radix.specs.Slots.{IsSlot, first_key, last_key, slot_of, knots_in_slot};

    /// The table of a spline with no knots.
    pub fn new() -> Radix<SLOTS>
        requires { 2 ≤ SLOTS }
        ensures { Follows [] result }
    {
        Radix {
            first: 0,
            shift: 0,
            starts: ArrayVec::new(),
        }
    }

    /// Follows the spline as it is now. To be called again after each change of it.
    pub fn follow<const KNOTS: usize>(&mut self, spline: &Spline<KNOTS>)
        ensures { Follows (kept spline.now) self.new }
    {
        self.starts.clear();
        let knots = spline.as_slice();
        if knots.is_empty() {
            return;
        }
        self.first = knots[0].0;
        self.shift = shift_for(knots[knots.len() - 1].0 - self.first, SLOTS);
        let mut start = 0;
        for slot in 0..SLOTS {
            start = start_of(knots, self.shift, slot as u64, start);
            self.starts.push(start);
        }
    }

    /// Follows the spline after no knot of it but the last one changed, and that one moved to a later key: what `follow` does,
    /// though only the slots that the knot passed are written, as long as they are wide enough.
    pub fn follow_last<const KNOTS: usize>(&mut self, spline: &Spline<KNOTS>)
        ensures { (knots : List (ℕ × ℕ)) → Follows knots self.old → LastMoved knots (kept spline.now) → Follows (kept spline.now) self.new }
    {
        let knots = spline.as_slice();
        if knots.is_empty() {
            return;
        }
        let last = knots.len() - 1;
        let slot = ((knots[last].0 - knots[0].0) >> self.shift) as usize;
        if slot >= self.starts.len() {
            self.follow(spline);
            return;
        }
        pass_last(self.starts.as_mut_slice(), last, slot);
    }

    /// The range of the knots in the slot of a key.
    fn knots_near(&self, knots: &[(u64, u32)], key: u64) -> (usize, usize)
        requires some { 0 < length knots.now }
        requires rises { Rises knots.now }
        requires table { IsTableOf knots.now self.now }
        requires low { first_key knots.now ≤ key }
        requires high { key ≤ last_key knots.now }
        ensures { IsSlot knots.now (shift_of self.now) (slot_of knots.now (shift_of self.now) key) result.0 result.1 }
    {
        let slot = ((key - self.first) >> self.shift) as usize;
        let from = self.starts[slot];
        if slot < SLOTS - 1 {
            (from, self.starts[slot + 1])
        } else {
            (from, knots.len())
        }
    }

    /// The last knot whose key is at most the key, or none where the key isn't covered: what the spline answers.
    ///
    /// Each comparison of the key with a knot's key is counted: no fewer than a bisection of the slot's knots takes, and
    /// at most two more. A key from the last knot's on takes two.
    pub fn segment<const KNOTS: usize>(
        &self,
        spline: &Spline<KNOTS>,
        key: u64,
        steps: &mut Steps,
    ) -> Option<usize>
        requires { Follows (kept spline.now) self.now }
        ensures segment { MatchOption result (is_covered (kept spline.now) key ≡ false) (λ i. IsSegment (kept spline.now) key i) }
        ensures later { min steps.old (2 ^ 64 - 1) ≤ steps.new }
        ensures few { steps.new ≤ steps.old + bits (knots_in_slot (kept spline.now) (shift_of self.now) key) + 2 }
        ensures least { 0 < length (kept spline.now) → key < last_key (kept spline.now) → steps.new < 2 ^ 64 - 1
            → steps.old + bits (knots_in_slot (kept spline.now) (shift_of self.now) key + 1) ≤ steps.new }
    {
        let knots = spline.as_slice();
        if knots.is_empty() {
            return None;
        }
        steps.tick();
        if key < self.first {
            return None;
        }
        steps.tick();
        if knots[knots.len() - 1].0 <= key {
            return Some(knots.len() - 1);
        }
        let (from, to) = self.knots_near(knots, key);
        let up_to = from + knots_up_to(&knots[from..to], key, steps);
        Some(up_to - 1)
    }
}
