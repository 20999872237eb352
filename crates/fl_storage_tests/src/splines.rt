// The knots that a spline keeps, and the pages that it estimates.
use crate::asserts::same;
use fl_spline::Spline;

fn page_of(spline: &Spline<2>, key: u64) -> Option<u32> {
    let i = spline.segment(key)?;
    Some(spline.estimate(i, key))
}

fn knot(spline: &Spline<2>, i: usize) -> Option<(u64, u32)> {
    if i >= spline.knots() {
        return None;
    }
    Some(spline.knot(i))
}

// The knots and whether there are more than two, the least key that is covered, the segments of two keys, and the pages of two.
type Told = (
    [Option<(u64, u32)>; 3],
    Option<u64>,
    [Option<usize>; 2],
    [Option<u32>; 2],
);

fn look_at(spline: &Spline<2>) -> Told {
    (
        [knot(spline, 0), knot(spline, 1), knot(spline, 2)],
        spline.covered_from(),
        [spline.segment(19), spline.segment(39)],
        [page_of(spline, 39), page_of(spline, u64::MAX)],
    )
}

// The least key that is covered before there are points, what is told of five of them, and the segment of a key once they are forgotten.
fn tell() -> (Option<u64>, Told, Option<usize>) {
    let mut spline: Spline<2> = Spline::new(1);
    let covered = spline.covered_from();
    spline.add(0, 0);
    spline.add(10, 1);
    spline.add(20, 2);
    spline.add(30, 5);
    spline.add(40, 6);
    let told = look_at(&spline);
    spline.clear();
    (covered, told, spline.segment(40))
}

// The segment from (0, 0) can't reach (30, 5): its line would pass (20, 2) at page 3 1/3, and the error is 1.
#[test]
fn keeps_the_newest_knots(rt: HostRuntime) {
    let knots = [Some((20, 2)), Some((40, 6)), None];
    let wanted = (knots, Some(20), [None, Some(0)], [Some(5), Some(6)]);
    same(&rt, &tell(), &(None, wanted, None));
}
