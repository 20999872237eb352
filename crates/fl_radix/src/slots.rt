// Slots of keys: a key's distance from the first knot's key, without its low bits.
ghost use Rattle.std.specs.Prelude.{◌≡◌, ◌-◌, ◌/◌, ◌^◌, ◌<◌, ◌≤◌, ℕ, length};
ghost use Rattle.fl_spline.specs.Points.{Rises};
ghost use Rattle.fl_spline.specs.Segment.{point_at};
ghost use Rattle.fl_radix.specs.Slots.{IsLeastShift, IsStart, PassedBy, slot_of};

/// The least number of low bits without which `width` is below the number of slots.
pub(crate) fn shift_for(width: u64, slots: usize) -> u32
    requires { 2 ≤ slots }
    ensures least { IsLeastShift slots width result }
    ensures small { result < 64 }
{
    let mut shift = 0;
    while width >> shift >= slots as u64 {
        shift += 1;
    }
    shift
}

/// How many knots stand in the slots before `slot`, where the first `from` of them do.
pub(crate) fn start_of(knots: &[(u64, u32)], shift: u32, slot: u64, from: usize) -> usize
    requires rises { Rises knots.now }
    requires shift { shift < 64 }
    requires within { from ≤ length knots.now }
    requires before { (j : ℕ) → j < from → slot_of knots.now shift (point_at knots.now j).0 < slot }
    ensures { IsStart knots.now shift slot result }
{
    let mut start = from;
    while start < knots.len() && (knots[start].0 - knots[0].0) >> shift < slot {
        start += 1;
    }
    start
}

/// Moves the last knot to this slot, from the slot in which these starts have it. Where all knots stood before a slot that it
/// passed, all but the last one do now.
pub(crate) fn pass_last(starts: &mut [usize], last: usize, slot: usize)
    requires { slot < length starts.old }
    ensures { PassedBy last slot starts.old starts.new }
{
    let mut passed = slot;
    while passed > 0 && starts[passed] > last {
        starts[passed] = last;
        passed -= 1;
    }
}
