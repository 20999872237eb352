// Tables with logs: a record whose put was answered `ok` survives the next cut.
use super::*;

/// A header, and 24 pages.
const LOGGED: Image = ("device 128 4\ntable t 8 i32 3 0 0 0 0 1 1 0 rlc 3\n", 4096);

/// Three records that no flush has written are there after a mount, which writes a page of them.
const THREE: Talk = &[
    ("mount", "ok"),
    ("put t 1 0", "ok"),
    ("put t 2 0", "ok"),
    ("put t 3 0", "ok"),
    (
        "stat t",
        "stat rows 3 pending 3 pages 0 voids 0 programs 6 erases 0",
    ),
    ("off", "ok"),
    ("mount", "ok"),
    ("scan t 0 100", "row 1 0\nrow 2 0\nrow 3 0\nend 3"),
    (
        "stat t",
        "stat rows 3 pending 0 pages 1 voids 0 programs 8 erases 0",
    ),
];

const WITHOUT: Talk = &[
    ("put t 4 0", "ok"),
    ("cut 1 half", "ok"),
    ("put t 5 0", "power lost"),
    ("mount", "ok"),
    ("scan t 4 100", "row 4 0\nend 1"),
];

const WITH: Talk = &[
    ("put t 4 0", "ok"),
    ("cut 2 after", "ok"),
    ("put t 5 0", "power lost"),
    ("mount", "ok"),
    ("scan t 4 100", "row 4 0\nrow 5 0\nend 2"),
];

/// Whether three records and what comes behind them are answered so.
fn is_kept(alloc: Global, after: Talk) -> Result<bool, NoMemory> {
    let (is_kept, _) = is_answered_anew(alloc, LOGGED, NEVER, THREE, after)?;
    Ok(is_kept)
}

/// The put that is cut: its record is there where the mark of the log's page is.
#[test]
fn puts_that_are_cut(rt: HostRuntime) {
    same(&rt, &is_kept(rt.alloc(), WITHOUT), &Ok(true));
    same(&rt, &is_kept(rt.alloc(), WITH), &Ok(true));
}

const FIRST: Talk = &[
    ("mount", "ok"),
    ("put t 1 0", "ok"),
    ("flush t", "ok"),
    ("put t 2 7", "ok"),
];

const SECOND: Talk = &[
    ("mount", "ok"),
    ("get t 2", "row 2 7"),
    ("put t 2 0", "refused key 2"),
    ("scan t 0 100", "row 1 0\nrow 2 7\nend 2"),
];

/// Whether two runs over one image are answered so.
fn are_runs_answered(alloc: Global) -> Result<[bool; 2], NoMemory> {
    let mut media = empty_medium(alloc, LOGGED)?;
    let first = is_answered(alloc, LOGGED, &mut media, FIRST, &[])?;
    let second = is_answered(alloc, LOGGED, &mut media, SECOND, &[])?;
    Ok([first, second])
}

/// A run ends with pending records, and the next one has them.
#[test]
fn runs_that_end(rt: HostRuntime) {
    same(&rt, &are_runs_answered(rt.alloc()), &Ok([true; 2]));
}

const PUTS: Talk = &[("mount", "ok"), ("put t 1 0", "ok"), ("put t 2 0", "ok")];

const PUT_FAILS: Talk = &[
    ("mount", "ok"),
    ("put t 1 0", "ok"),
    ("put t 2 0", "device fault"),
    ("put t 3 0", "not mounted"),
    ("mount", "ok"),
    ("scan t 0 100", "row 1 0\nend 1"),
    ("put t 3 0", "ok"),
];

/// Whether two puts are answered, and so where the medium fails in each of the two writes of the second.
fn put_failing(alloc: Global) -> Result<[bool; 3], NoMemory> {
    let (is_put, body, calls) = is_answered_where_it_fails(alloc, LOGGED, PUTS, PUT_FAILS)?;
    if calls == 0 {
        return Ok([is_put, body, false]);
    }
    let (mark, _) = is_answered_anew(alloc, LOGGED, calls, PUT_FAILS, &[])?;
    Ok([is_put, body, mark])
}

/// The medium fails in each of the two writes of a put: the table is to be mounted again, and has the records before.
#[test]
fn puts_that_fail(rt: HostRuntime) {
    same(&rt, &put_failing(rt.alloc()), &Ok([true; 3]));
}
