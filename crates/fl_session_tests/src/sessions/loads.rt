// Where loads stop.
use super::*;

/// Nine rows: the first page is written before the last one is put.
const NINE: Talk = &[("mount", "ok"), ("load t 9 1 1", "loaded 9")];

const NINTH_FAILS: Talk = &[
    ("mount", "ok"),
    ("load t 9 1 1", "loaded 8\ndevice fault"),
    ("stat t", "not mounted"),
];

/// Whether a load is answered, and one whose ninth put fails in the medium.
fn load_failing(alloc: Global) -> Result<[bool; 2], NoMemory> {
    // The last two calls write the body and the mark of the first page.
    let (is_loaded, is_told, _) = is_answered_where_it_fails(alloc, PLAIN, NINE, NINTH_FAILS)?;
    Ok([is_loaded, is_told])
}

#[test]
fn failing_puts(rt: HostRuntime) {
    same(&rt, &load_failing(rt.alloc()), &Ok([true; 2]));
}

const SPENT: Talk = &[
    ("mount", "ok"),
    ("load t 200 1 1", "loaded 89\nrefused spent"),
    ("load t 200 1 1", "loaded 0\nrefused spent"),
];

/// A load at the end of the page numbers.
#[test]
fn spent_numbers(rt: HostRuntime) {
    // The first page gets the number 4,294,901,748, so that eleven are left.
    let number = [0xf4, 0xff, 0xfe, 0xff];
    let answered = are_answered_renumbered(rt.alloc(), NINE, number, SPENT);
    same(&rt, &answered, &Ok([true; 2]));
}

/// How a run ends whose sink fails behind the first line of a load, and whether what comes before is written.
fn lose_line(alloc: Global) -> Result<(Status, bool), NoMemory> {
    let commands = "mount\nput t 18446744073709551615 0\nload t 3 1 0\n";
    let source = MemSource::new(text(alloc, &[CONFIG, commands])?, Vec::new(alloc));
    let sink = failing_sink(alloc, 4)?;
    let mut media = empty_medium(alloc, PLAIN)?;
    let (status, _, sink) = run_source(alloc, &mut media, source, sink)?;
    Ok((status, sink.bytes() == "ok\nok\nloaded 0\n".as_bytes()))
}

#[test]
fn lost_line(rt: HostRuntime) {
    same(&rt, &lose_line(rt.alloc()), &Ok((Status::OutWrite, true)));
}
