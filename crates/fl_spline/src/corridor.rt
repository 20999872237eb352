// The straight lines from a knot that pass near every point of its segment.
//
// Each point lets a line through that rises, at that point's key, to at most the point's page plus the error, and
// to at least that page minus the error. Of all these bounds only the lowest upper one and the highest lower one
// count, so two slopes stand for all the points.
ghost use Rattle.std.specs.Prelude.{◌≡◌, ◌*◌, nat_le};
ghost use Rattle.fl_spline.specs.Corridor.{lesser, greater};

/// A rise in pages over a run in keys.
#[derive(Clone, Copy, Debug, PartialEq, Eq, Default)]
pub(crate) struct Slope {
    pub(crate) rise: u64,
    pub(crate) run: u64,
}

/// The lines from `base` that are no steeper than `upper` and no flatter than `lower`.
#[derive(Clone, Copy, Debug, PartialEq, Eq, Default)]
pub(crate) struct Corridor {
    pub(crate) base: (u64, u32),
    pub(crate) upper: Slope,
    pub(crate) lower: Slope,
}

// Slopes are compared as whole numbers: a product of two u64 needs 128 bits.
fn product(a: u64, b: u64) -> u128
    ensures { result ≡ a * b }
{
    u128::from(a) * u128::from(b)
}

fn is_at_most(a: Slope, b: Slope) -> bool
    ensures { result ≡ nat_le (a.rise * b.run) (b.rise * a.run) }
{
    product(a.rise, b.run) <= product(b.rise, a.run)
}

fn lesser_of(a: Slope, b: Slope) -> Slope
    ensures { result ≡ lesser a b }
{
    if is_at_most(a, b) { a } else { b }
}

fn greater_of(a: Slope, b: Slope) -> Slope
    ensures { result ≡ greater a b }
{
    if is_at_most(b, a) { a } else { b }
}

impl Corridor {
    ghost use Rattle.std.specs.Prelude.{◌≡◌, ◌<◌, ℕ, List, [], ◌∷◌, ◌++◌};
    ghost use Rattle.fl_spline.specs.Points.{IsPast};
    ghost use Rattle.fl_spline.specs.Corridor.{Covers, passes};

    /// Every line from `base`: no point is covered yet.
    pub(crate) fn from(base: (u64, u32)) -> Corridor
        ensures base { result.base ≡ base }
        ensures covers { (error : ℕ) → Covers error result [] }
    {
        Corridor {
            base,
            upper: Slope { rise: 1, run: 0 },
            lower: Slope { rise: 0, run: 1 },
        }
    }

    /// Whether the line to the point passes each of the points covered within the error.
    pub(crate) fn admits(&self, point: (u64, u32)) -> bool
        requires { IsPast self.now.base point }
        ensures { (error : ℕ) (points : List (ℕ × ℕ)) → Covers error self.now points → result ≡ passes error self.now.base points point }
    {
        let slope = Slope {
            rise: u64::from(point.1 - self.base.1),
            run: point.0 - self.base.0,
        };
        let below = is_at_most(slope, self.upper);
        let above = is_at_most(self.lower, slope);
        below && above
    }

    /// Covers one more point, which the later lines have to pass within `error` pages.
    pub(crate) fn narrow(&mut self, point: (u64, u32), error: u32)
        requires { IsPast self.old.base point }
        ensures base { self.new.base ≡ self.old.base }
        ensures covers { (points : List (ℕ × ℕ)) → Covers error self.old points → Covers error self.new (points ++ point ∷ []) }
    {
        let run = point.0 - self.base.0;
        let rise = point.1 - self.base.1;
        let high = u64::from(rise) + u64::from(error);
        // A bound below the base asks nothing, since every later line rises.
        let low = u64::from(rise.saturating_sub(error));
        self.upper = lesser_of(self.upper, Slope { rise: high, run });
        self.lower = greater_of(self.lower, Slope { rise: low, run });
    }
}
