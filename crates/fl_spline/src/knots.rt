// Lists of knots: the newest ones, and the last.
ghost use Rattle.std.specs.Prelude.{◌≡◌, ◌-◌, ◌<◌, [], ◌∷◌, ◌++◌, take, drop, length, Some};
ghost use Rattle.arrayvec.specs.ArrayVec.{array_vec_len};
ghost use Rattle.fl_spline.specs.Points.{IsFurther, Rises, last_of, newest};

use arrayvec::ArrayVec;

/// Appends a knot, and gives up the oldest where there is no room.
#[tactic(auto, using(crate::proofs::Lists::pushes))]
pub(crate) fn push_newest<const KNOTS: usize>(
    knots: &mut ArrayVec<(u64, u32), KNOTS>,
    point: (u64, u32),
)
    requires { 0 < KNOTS }
    ensures items { knots.new.items ≡ newest KNOTS (knots.old.items ++ point ∷ []) }
    ensures last { last_of knots.new.items ≡ Some point }
    ensures rises { Rises knots.old.items → IsFurther knots.old.items point → Rises knots.new.items }
{
    if knots.is_full() {
        knots.remove(0);
    }
    knots.push(point);
}

/// Puts a knot in the place of the last one.
#[tactic(auto, using(crate::proofs::Lists::pushes))]
pub(crate) fn replace_last<const KNOTS: usize>(
    knots: &mut ArrayVec<(u64, u32), KNOTS>,
    point: (u64, u32),
)
    requires { 0 < array_vec_len knots.old }
    ensures items { knots.new.items ≡ take (array_vec_len knots.old - 1) knots.old.items ++ point ∷ [] }
    ensures last { last_of knots.new.items ≡ Some point }
    ensures rises { Rises knots.old.items → IsFurther knots.old.items point → Rises knots.new.items }
{
    let last = knots.len() - 1;
    knots.truncate(last);
    knots.push(point);
}

/// The last knot.
pub(crate) fn last_knot<const KNOTS: usize>(
    knots: &ArrayVec<(u64, u32), KNOTS>,
) -> Option<(u64, u32)>
    ensures { result ≡ last_of knots.now.items }
{
    knots.as_slice().last().copied()
}
