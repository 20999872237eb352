// Values and spans in buckets, against numbers that were worked out by hand.
use crate::asserts::same;
use fl_base::Span;
use fl_bitmap::Buckets;

fn ten() -> Buckets {
    Buckets {
        bits: 8,
        base: 0,
        width: 10,
    }
}

// Each value with its bucket.
const TENS: [(i64, u32); 5] = [(-25, 0), (9, 0), (10, 1), (79, 7), (95, 7)];

const LOWS: [(i64, u32); 4] = [(-101, 0), (-93, 1), (4, 14), (5, 15)];

const WIDES: [(i64, u32); 4] = [(i64::MIN, 0), (-2, 0), (-1, 1), (i64::MAX, 2)];

// The first of these values that stand in their buckets.
fn placed(buckets: Buckets, values: &[(i64, u32)]) -> usize {
    for i in 0..values.len() {
        let (value, bucket) = values[i];
        if buckets.bucket(value) != bucket {
            return i;
        }
    }
    values.len()
}

#[test]
fn values(rt: HostRuntime) {
    let low = Buckets {
        bits: 16,
        base: -100,
        width: 7,
    };
    let wide = Buckets {
        bits: 64,
        base: i64::MIN,
        width: 9223372036854775807,
    };
    let all = [
        placed(ten(), &TENS),
        placed(low, &LOWS),
        placed(wide, &WIDES),
    ];
    same(&rt, &all, &[TENS.len(), LOWS.len(), WIDES.len()]);
}

// Each span with its mask.
const MASKS: [(i64, i64, u64); 7] = [
    (-10, -1, 0b1),
    (9, 10, 0b11),
    (70, 79, 0b1000_0000),
    (90, 99, 0b1000_0000),
    (i64::MIN, i64::MAX, 0b1111_1111),
    (10, 9, 0),
    (10, 10, 0b10),
];

// The first of these spans that have their masks.
fn masked(spans: &[(i64, i64, u64)]) -> usize {
    for i in 0..spans.len() {
        let (low, high, mask) = spans[i];
        if ten().mask(Span { low, high }) != mask {
            return i;
        }
    }
    spans.len()
}

#[test]
fn spans(rt: HostRuntime) {
    same(&rt, &masked(&MASKS), &MASKS.len());
}

#[test]
fn pages(rt: HostRuntime) {
    let mut bitmap = 0;
    for value in [-25i64, 13, 95] {
        bitmap = ten().add(bitmap, value);
    }
    same(&rt, &bitmap, &0b1000_0011);
}
