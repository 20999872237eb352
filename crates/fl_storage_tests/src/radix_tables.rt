// The segments of keys by a radix table, over splines of several sizes.
ghost use Rattle.std.specs.Prelude.{◌≤◌};

use crate::asserts::same;
use fl_base::Steps;
use fl_radix::Radix;
use fl_spline::Spline;

// With error 0 no line from one of these points passes another, so each is a knot.
fn add_points<const KNOTS: usize>(spline: &mut Spline<KNOTS>) {
    spline.clear();
    if spline.knots() == 0 {
        spline.add(0, 0);
        spline.add(10, 1);
        spline.add(12, 2);
        spline.add(1000, 3);
    }
}

// Keys, and the pages at which their segments begin.
const PAGES: [(u64, u32); 8] = [
    (0, 0),
    (9, 0),
    (10, 1),
    (11, 1),
    (12, 2),
    (999, 2),
    (1000, 3),
    (5000, 3),
];

// Whether the segments of keys begin at these pages, as far as they are kept.
fn finds_pages<const KNOTS: usize, const SLOTS: usize>() -> bool
    requires knots { 2 ≤ KNOTS }
    requires slots { 2 ≤ SLOTS }
    requires few_knots { KNOTS ≤ 64 }
    requires few_slots { SLOTS ≤ 64 }
{
    let mut spline: Spline<KNOTS> = Spline::new(0);
    let mut radix: Radix<SLOTS> = Radix::new();
    add_points(&mut spline);
    radix.follow(&spline);
    let mut steps = Steps::new();
    for (key, page) in PAGES {
        let is_kept = page as usize >= 4usize.saturating_sub(KNOTS);
        let found = match radix.segment(&spline, key, &mut steps) {
            Some(i) => is_kept && spline.knot(i).1 == page,
            None => !is_kept,
        };
        if !found {
            return false;
        }
    }
    true
}

#[test]
fn finds_segments(rt: HostRuntime) {
    let found = [
        finds_pages::<2, 2>(),
        finds_pages::<2, 5>(),
        finds_pages::<2, 64>(),
        finds_pages::<3, 2>(),
        finds_pages::<3, 5>(),
        finds_pages::<3, 64>(),
        finds_pages::<64, 2>(),
        finds_pages::<64, 5>(),
        finds_pages::<64, 64>(),
    ];
    same(&rt, &found, &[true; 9]);
}

// The segment of a key, by a table before and after it follows the points, and the steps that these take.
fn found(key: u64) -> ((Option<usize>, u64), (Option<usize>, u64)) {
    let mut spline: Spline<64> = Spline::new(0);
    let mut radix: Radix<4> = Radix::new();
    let mut steps = Steps::new();
    let before = (radix.segment(&spline, key, &mut steps), steps.taken());
    add_points(&mut spline);
    radix.follow(&spline);
    let after = (radix.segment(&spline, key, &mut steps), steps.taken());
    (before, after)
}

// Whether a segment is found by at most so many steps, and none by no step before there are points.
fn is_found(key: u64, segment: usize, most: u64) -> bool {
    let (before, (after, steps)) = found(key);
    (before, after, steps <= most) == ((None, 0), Some(segment), true)
}

// Three knots stand in the slot of key 11, and none in one that is past them all.
#[test]
fn takes_few_steps(rt: HostRuntime) {
    let found = [is_found(11, 1, 4), is_found(5000, 3, 2)];
    same(&rt, &found, &[true; 2]);
}
