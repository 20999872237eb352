// Logs in images made by hand: what a check says of sound ones, and of some that break each rule.
use crate::asserts::same;
use crate::checks::{Images, SEAL, first_mistold};

// Pages of 64 bytes, two a block, and rings of three blocks: data pages 0 to 5, and behind them the log's pages 6 to 11.
pub(crate) const LOGGED: &str = "device 64 2\ntable t 8 i32 3 0 0 8 0 10 1 0 rlc 3\n";

pub(crate) const LOGGED_BYTES: u16 = 768;

const BLANK: &str = "sound t rows 0 pages 0 voids 0\n";

// Page 0 of a log with one row: the value 0 with key 1. The number stands at 0, the bitmap at 8, the key at 16.
pub(crate) const ROW: [u8; 28] = [
    0, 0, 0, 0, 1, 0, 0, 0, 0, 0, 0, 0, 0, 0, 0, 0, 1, 0, 0, 0, 0, 0, 0, 0, 0, 0, 0, 0,
];

// A second row with key 1.
const AGAIN: [u8; 12] = [1, 0, 0, 0, 0, 0, 0, 0, 0, 0, 0, 0];

const SOUND_LOGS: Images = &[
    (&[], BLANK),
    (&[(384, &ROW), (440, &SEAL)], BLANK),
    // The page was begun, or given up.
    (&[(384, &ROW)], BLANK),
    (&[(384, &ROW), (444, &SEAL)], BLANK),
    // The second page has the first one's row and another: each page has all rows that are pending.
    (
        &[
            (384, &ROW),
            (440, &SEAL),
            (448, &ROW),
            (448, &[1]),
            (452, &[2]),
            (476, &AGAIN),
            (476, &[2]),
            (504, &SEAL),
        ],
        BLANK,
    ),
    // A data page has the row too.
    (
        &[(0, &ROW), (8, &[1]), (56, &SEAL), (384, &ROW), (440, &SEAL)],
        "sound t rows 1 pages 1 voids 0\n",
    ),
];

#[test]
fn sound_logs(rt: HostRuntime) {
    same(
        &rt,
        &first_mistold(rt.alloc(), LOGGED, LOGGED_BYTES, SOUND_LOGS),
        &Ok(None),
    );
}

const BROKEN_LOGS: Images = &[
    // Each block is full.
    (
        &[(508, &SEAL), (636, &SEAL), (764, &SEAL)],
        "fault t log 6 1\n",
    ),
    // A kept page is blank.
    (&[(508, &SEAL)], "fault t log 6 2\n"),
    // Its number isn't the place's.
    (
        &[(384, &ROW), (384, &[1]), (440, &SEAL)],
        "fault t log 6 3\n",
    ),
    // A bitmap with a bucket, no row, a byte that is to be FF, and a committed page that is given up.
    (
        &[(384, &ROW), (392, &[1]), (440, &SEAL)],
        "fault t log 6 4\n",
    ),
    (
        &[(384, &ROW), (388, &[0]), (440, &SEAL)],
        "fault t log 6 4\n",
    ),
    (
        &[(384, &ROW), (424, &[0]), (440, &SEAL)],
        "fault t log 6 4\n",
    ),
    (
        &[(384, &ROW), (440, &SEAL), (444, &SEAL)],
        "fault t log 6 4\n",
    ),
    // Key 1 comes twice in a page.
    (
        &[(384, &ROW), (388, &[2]), (412, &AGAIN), (440, &SEAL)],
        "fault t log 6 5\n",
    ),
    // A page that isn't kept is begun.
    (&[(640, &[0])], "fault t log 10 8\n"),
];

#[test]
fn broken_logs(rt: HostRuntime) {
    same(
        &rt,
        &first_mistold(rt.alloc(), LOGGED, LOGGED_BYTES, BROKEN_LOGS),
        &Ok(None),
    );
}

// The data ring is told first, and the log last.
const LAST: Images = &[(
    &[(384, &ROW), (392, &[1]), (440, &SEAL), (256, &[0])],
    "fault t data 4 8\n",
)];

#[test]
fn a_log_comes_last(rt: HostRuntime) {
    same(
        &rt,
        &first_mistold(rt.alloc(), LOGGED, LOGGED_BYTES, LAST),
        &Ok(None),
    );
}
