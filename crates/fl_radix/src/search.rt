// A bisection over knots that counts its comparisons.
ghost use Rattle.std.specs.Prelude.{◌≡◌, ◌+◌, ◌-◌, ◌^◌, ◌<◌, ◌≤◌, ℕ, min, length};
ghost use Rattle.fl_base.specs.Bits.{bits};
ghost use Rattle.fl_spline.specs.Points.{Rises};
ghost use Rattle.fl_radix.specs.Slots.{AreUpTo, AreBeyond};

use fl_base::Steps;

/// How many of the knots have a key that is at most the key. Each comparison is counted.
pub(crate) fn knots_up_to(knots: &[(u64, u32)], key: u64, steps: &mut Steps) -> usize
    requires { Rises knots.now }
    ensures within { result ≤ length knots.now }
    ensures before { AreUpTo knots.now key result }
    ensures after { AreBeyond knots.now key result }
    ensures later { min steps.old (2 ^ 64 - 1) ≤ steps.new }
    ensures few { steps.new ≤ steps.old + bits (length knots.now) }
    ensures least { steps.new < 2 ^ 64 - 1 → steps.old + bits (length knots.now + 1) ≤ steps.new + 1 }
{
    let mut low = 0;
    let mut high = knots.len();
    while low < high {
        let middle = low + (high - low) / 2;
        steps.tick();
        if knots[middle].0 <= key {
            low = middle + 1;
        } else {
            high = middle;
        }
    }
    low
}
