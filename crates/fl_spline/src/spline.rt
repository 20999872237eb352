// The spline.
ghost use Rattle.std.specs.Prelude.{◌≡◌, ◌<◌, ◌≤◌, ◌*◌, ◌/◌};
ghost use Rattle.std.specs.Option.{ForSome};
ghost use Rattle.fl_spline.specs.Points.{Rises, last_of};

use crate::corridor::Corridor;
use crate::knots::{last_knot, push_newest, replace_last};
use arrayvec::ArrayVec;

/// The newest KNOTS knots of the points added, and the corridor of the last segment.
///
/// A point is a first key and the number of its page.
#[derive(Drop)]
pub struct Spline<const KNOTS: usize> {
    error: u32,
    knots: ArrayVec<(u64, u32), KNOTS>,
    corridor: Corridor,
    ghost two: { 2 ≤ KNOTS },
    ghost rises: { Rises knots.items },
    ghost base_key: { ForSome (last_of knots.items) (λ end. corridor.base.0 ≤ end.0) },
    ghost base_page: { ForSome (last_of knots.items) (λ end. corridor.base.1 ≤ end.1) },
}

impl<const KNOTS: usize> Spline<KNOTS> {
    ghost use Rattle.std.specs.Prelude.{◌≡◌, ◌<◌, ◌+◌, ℕ, List, [], ◌∷◌, ◌++◌, length, false, Option, Some, None, IfSome, MatchOption};
    ghost use Rattle.fl_model.specs.Spline.{is_covered, estimate};
    ghost use Rattle.fl_spline.specs.Points.{IsFurther, Rises, LastMoved, oldest_key};
    ghost use Rattle.fl_spline.specs.Scan.{Scan, scan_step, Holds};
    ghost use Rattle.fl_spline.specs.Spline.{error_of, kept, SplineOf};
    ghost use Rattle.fl_spline.specs.Segment.{point_at, IsSegment, InWindow};

    /// A spline of no points. Its knots' lines are to pass the points within `error` pages.
    pub fn new(error: u32) -> Spline<KNOTS>
        requires { 2 ≤ KNOTS }
        ensures { SplineOf error [] result }
    {
        Spline {
            error,
            knots: ArrayVec::new(),
            corridor: Corridor::from((0, 0)),
        }
    }

    /// Forgets the points.
    pub fn clear(&mut self)
        ensures { SplineOf (error_of self.old) [] self.new }
    {
        self.knots.clear();
    }

    /// Adds a point, with a greater key `x` and a greater page `y` than all before it.
    ///
    /// This compares four products, and moves no point but a knot that falls out of the newest KNOTS.
    pub fn add(&mut self, x: u64, y: u32)
        requires { IsFurther (kept self.old) (x, y) }
        ensures error { error_of self.new ≡ error_of self.old }
        ensures last { last_of (kept self.new) ≡ Some (x, y) }
        ensures moved { length (kept self.new) ≡ length (kept self.old) → oldest_key (kept self.new) ≡ oldest_key (kept self.old) → LastMoved (kept self.old) (kept self.new) }
        ensures spline { (error : ℕ) (points : List (ℕ × ℕ)) → SplineOf error points self.old → SplineOf error (points ++ (x, y) ∷ []) self.new }
    {
        self.scan_one((x, y));
    }

    fn scan_one(&mut self, point: (u64, u32))
        requires { IsFurther self.old.knots.items point }
        ensures error { self.new.error ≡ self.old.error }
        ensures last { last_of self.new.knots.items ≡ Some point }
        ensures moved { length self.new.knots.items ≡ length self.old.knots.items → oldest_key self.new.knots.items ≡ oldest_key self.old.knots.items
            → LastMoved self.old.knots.items self.new.knots.items }
        ensures scans { (s : Option Scan) → Holds KNOTS self.old.error s self.old.knots.items self.old.corridor
            → Holds KNOTS self.old.error (scan_step self.old.error s point) self.new.knots.items self.new.corridor }
    {
        let Some(end) = last_knot(&self.knots) else {
            self.corridor = Corridor::from(point);
            self.knots.push(point);
            return;
        };
        if !self.corridor.admits(point) {
            self.corridor = Corridor::from(end);
            self.corridor.narrow(point, self.error);
            push_newest(&mut self.knots, point);
            return;
        }
        self.corridor.narrow(point, self.error);
        if self.knots.len() > 1 {
            replace_last(&mut self.knots, point);
        } else {
            push_newest(&mut self.knots, point);
        }
    }

    /// How many knots are kept.
    pub fn knots(&self) -> usize
        ensures count { result ≡ length (kept self.now) }
        ensures few { result ≤ KNOTS }
    {
        self.knots.len()
    }

    /// Knot `i`, from the oldest kept one: its key and its page.
    pub fn knot(&self, i: usize) -> (u64, u32)
        requires { i < length (kept self.now) }
        ensures { result ≡ point_at (kept self.now) i }
    {
        self.knots[i]
    }

    /// The knots that are kept, oldest first.
    pub fn as_slice(&self) -> &[(u64, u32)]
        ensures knots { result.now ≡ kept self.now }
        ensures rises { Rises (kept self.now) }
    {
        self.knots.as_slice()
    }

    /// The least key that is covered: the key of the oldest kept knot.
    pub fn covered_from(&self) -> Option<u64>
        ensures { result ≡ oldest_key (kept self.now) }
    {
        self.knots.as_slice().first().map(|knot| knot.0)
    }

    /// The last knot whose key is at most the key, or none where the key isn't covered.
    pub fn segment(&self, key: u64) -> Option<usize>
        ensures { MatchOption result (is_covered (kept self.now) key ≡ false) (λ i. IsSegment (kept self.now) key i) }
    {
        self.knots
            .as_slice()
            .partition_point(|knot| knot.0 <= key)
            .checked_sub(1)
    }

    /// The page that the line of the key's segment `i` gives for it, rounded down, or the last knot's page from
    /// the last knot on. Between two neighbouring points it is at least the first one's page less the error, and
    /// at most the second one's page plus the error; from the last point on it is that point's page.
    pub fn estimate(&self, i: usize, key: u64) -> u32
        requires { IsSegment (kept self.now) key i }
        ensures value { result ≡ estimate (kept self.now) key }
        ensures window { (error : ℕ) (points : List (ℕ × ℕ)) → SplineOf error points self.now → InWindow error points key result }
    {
        let last = self.knots() - 1;
        let (x, y) = self.knot(i);
        if i == last {
            return y;
        }
        let (next_x, next_y) = self.knot(i + 1);
        y + share(key - x, next_y - y, next_x - x)
    }
}

/// The part of a rise that a part of the run has, rounded down.
fn share(part: u64, rise: u32, run: u64) -> u32
    requires { part < run }
    ensures value { result ≡ part * rise / run }
    ensures bound { result ≤ rise }
{
    (u128::from(part) * u128::from(rise) / u128::from(run)) as u32
}
