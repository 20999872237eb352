// Scans, joins and lookups whose pages aren't read.
use super::*;

const PUTS: Talk = &[
    ("mount", "ok"),
    ("put t 1 0", "ok"),
    ("flush t", "ok"),
    ("put t 2 0", "ok"),
    ("flush t", "ok"),
    ("put t 3 0", "ok"),
];

const FIRST: Talk = &[
    ("scan t 3 9", "row 3 0\nend 1"),
    ("scan t 5 4", "end 0"),
    ("scan t 0 9", "read fault"),
    ("cost", "cost 1"),
    ("scan t 0 9", "row 1 0\nrow 2 0\nrow 3 0\nend 3"),
];

const SECOND: Talk = &[
    ("scan t 0 9", "row 1 0\nread fault"),
    ("cost", "cost 4"),
    ("put t 4 0", "ok"),
    ("scan t 2 9", "row 2 0\nrow 3 0\nrow 4 0\nend 3"),
];

const ONE_PAGE: Talk = &[
    ("scan t 0 1", "row 1 0\nend 1"),
    ("scan t 2 9", "read fault"),
    ("scan t 2 9", "row 2 0\nrow 3 0\nend 2"),
];

const PAIRS: Talk = &[
    ("join t t 3 9", "pair 3 0 0\nend 1"),
    ("join t t 0 9", "read fault"),
    ("join t t 0 9", "pair 1 0 0\npair 2 0 0\npair 3 0 0\nend 3"),
];

const LOOKUP: Talk = &[
    ("get t 3", "row 3 0"),
    ("get t 1", "read fault"),
    ("get t 1", "row 1 0"),
];

/// The call on the medium that fails behind the puts, and the commands. The first page of a range is looked up, in two reads here where
/// no page begins by its low key.
const CASES: &[(u64, Talk)] = &[
    (1, FIRST),
    (4, SECOND),
    (4, ONE_PAGE),
    (1, PAIRS),
    (1, LOOKUP),
];

/// Whether the puts are answered, and then the commands, of which this call on the medium fails.
fn are_told(alloc: Global, call: u64, after: Talk) -> Result<[bool; 2], NoMemory> {
    let (is_put, calls) = is_answered_anew(alloc, PLAIN, NEVER, PUTS, &[])?;
    if calls == 0 {
        return Ok([is_put, false]);
    }
    let failing = calls.saturating_add(call);
    let (is_told, _) = is_answered_anew(alloc, PLAIN, failing, PUTS, after)?;
    Ok([is_put, is_told])
}

/// A page that isn't read ends the reply behind the rows before it, and the session stays mounted. No page is read where
/// none has a key of the range, none behind the one in which the range ends, and none for a key that is pending.
#[test]
fn read_faults(rt: HostRuntime) {
    for (call, after) in CASES {
        let told = are_told(rt.alloc(), *call, after);
        same_at(&rt, &told, &Ok([true; 2]), call);
    }
}
