// Scripts over media whose calls fail and over images that no run left, and how scripts end.
ghost use Rattle.std.specs.Prelude.{◌≤◌};

mod loads;
mod logs;
mod reads;

use crate::asserts::{same, same_at};
use crate::script_runs::{is_done, run_script, run_source, run_words};
use fl_base::{MemSink, MemSource, Name, NoMemory};
use fl_flash::MemMedia;
use fl_session::{PendingRows, Status, TableRows};
use std::alloc::Global;

const CONFIG: &str = "device 128 4\ntable t 8 i32 3 0 0 0 0 1 1 0\n";

/// A configuration, and the bytes of the medium that it makes.
type Image = (&'static str, usize);

/// A header, and 12 pages with room for 8 rows each.
const PLAIN: Image = (CONFIG, 2560);

/// A call to which no medium here comes.
const NEVER: u64 = u64::MAX;

/// The longest script that is read.
const LONGEST: usize = 16_777_216;

fn text(alloc: Global, pieces: &[&str]) -> Result<Vec<u8>, NoMemory> {
    let mut bytes = Vec::new(alloc);
    for piece in pieces {
        bytes.extend_from_slice(piece.as_bytes())?;
    }
    Ok(bytes)
}

fn empty_medium(alloc: Global, image: Image) -> Result<MemMedia, NoMemory> {
    Ok(MemMedia::new(alloc, Vec::new(alloc), image.1)?)
}

/// The same image, where the first page behind the header has another number.
fn renumbered(alloc: Global, media: &MemMedia, number: [u8; 4]) -> Result<MemMedia, NoMemory> {
    let mut bytes = Vec::new(alloc);
    bytes.extend_from_slice(media.bytes())?;
    for (i, byte) in number.iter().enumerate() {
        if let Some(place) = bytes.get_mut(1024 + i) {
            *place = *byte;
        }
    }
    Ok(MemMedia::new(alloc, bytes, PLAIN.1)?)
}

/// Commands, each with its reply.
type Talk = &'static [(&'static str, &'static str)];

/// Adds commands to a script, and their replies to those that are wanted.
fn add_talk(script: &mut Vec<u8>, wanted: &mut Vec<u8>, talk: Talk) -> Result<(), NoMemory> {
    for (command, reply) in talk {
        script.extend_from_slice(command.as_bytes())?;
        script.push(b'\n')?;
        wanted.extend_from_slice(reply.as_bytes())?;
        wanted.push(b'\n')?;
    }
    Ok(())
}

/// Whether these commands are answered so.
fn is_answered(
    alloc: Global,
    image: Image,
    media: &mut MemMedia,
    before: Talk,
    after: Talk,
) -> Result<bool, NoMemory> {
    let mut script = text(alloc, &[image.0])?;
    let mut wanted = Vec::new(alloc);
    add_talk(&mut script, &mut wanted, before)?;
    add_talk(&mut script, &mut wanted, after)?;
    is_done(alloc, media, script, &wanted)
}

/// Whether they are on a new image, of whose medium this call fails, and how many calls there are.
fn is_answered_anew(
    alloc: Global,
    image: Image,
    failing: u64,
    before: Talk,
    after: Talk,
) -> Result<(bool, u64), NoMemory>
    requires { 1 ≤ failing }
{
    let mut media = empty_medium(alloc, image)?;
    media.fail_call(failing);
    let is_answered = is_answered(alloc, image, &mut media, before, after)?;
    Ok((is_answered, media.calls()))
}

/// Whether commands are answered so on a new image of whose medium the call before the last fails that others make which are answered
/// so; and how many calls those are.
fn is_answered_where_it_fails(
    alloc: Global,
    image: Image,
    good: Talk,
    fails: Talk,
) -> Result<(bool, bool, u64), NoMemory> {
    let (is_good, calls) = is_answered_anew(alloc, image, NEVER, good, &[])?;
    if calls < 2 {
        return Ok((is_good, false, calls));
    }
    let (is_told, _) = is_answered_anew(alloc, image, calls - 1, fails, &[])?;
    Ok((is_good, is_told, calls))
}

const PENDING: Talk = &[("mount", "ok"), ("put t 1 0", "ok")];

const GOOD: Talk = &[("mount", "ok"), ("put t 1 0", "ok"), ("flush t", "ok")];

const FLUSH_FAILS: Talk = &[
    ("mount", "ok"),
    ("put t 1 0", "ok"),
    ("flush t", "device fault"),
    ("put t 2 0", "not mounted"),
    ("mount", "ok"),
    (
        "stat t",
        "stat rows 0 pending 0 pages 0 voids 0 programs 1 erases 0",
    ),
];

/// Whether commands are answered, and a flush behind them, which fails in its first call; and how many calls the flush is.
fn flush_failing(alloc: Global) -> Result<(bool, bool, bool, u64), NoMemory> {
    let (is_put, before) = is_answered_anew(alloc, PLAIN, NEVER, PENDING, &[])?;
    let (is_flushed, is_told, calls) = is_answered_where_it_fails(alloc, PLAIN, GOOD, FLUSH_FAILS)?;
    Ok((is_put, is_flushed, is_told, calls.saturating_sub(before)))
}

/// A fault of the medium in a command is its reply, and the session goes on after a mount.
#[test]
fn device_faults(rt: HostRuntime) {
    // A flush on a new image is two calls: the write of the body, and that of the mark.
    same(&rt, &flush_failing(rt.alloc()), &Ok((true, true, true, 2)));
}

/// Whether commands are answered on a new image, and others then where its first page has another number.
fn are_answered_renumbered(
    alloc: Global,
    before: Talk,
    number: [u8; 4],
    after: Talk,
) -> Result<[bool; 2], NoMemory> {
    let mut media = empty_medium(alloc, PLAIN)?;
    let first = is_answered(alloc, PLAIN, &mut media, before, &[])?;
    let mut media = renumbered(alloc, &media, number)?;
    let second = is_answered(alloc, PLAIN, &mut media, after, &[])?;
    Ok([first, second])
}

const BAD: Talk = &[
    ("mount", "bad image t"),
    ("put t 2 0", "not mounted"),
    ("mount", "bad image t"),
];

/// Bytes that no run left are no image: a mount says so, each time.
#[test]
fn bad_image(rt: HostRuntime) {
    // The page's number doesn't fit its place.
    let answered = are_answered_renumbered(rt.alloc(), GOOD, [5, 0, 0, 0], BAD);
    same(&rt, &answered, &Ok([true; 2]));
}

/// How a script ends on a new image, and whether it is answered so. `C` at its begin stands for the configuration.
fn ended(alloc: Global, script: &str, replies: &str) -> Result<(Status, bool), NoMemory> {
    let bytes = match script.strip_prefix('C') {
        Some(commands) => text(alloc, &[CONFIG, commands])?,
        None => text(alloc, &[script])?,
    };
    let mut media = empty_medium(alloc, PLAIN)?;
    let (status, sink) = run_script(alloc, &mut media, bytes)?;
    Ok((status, sink.bytes() == replies.as_bytes()))
}

/// No row is pending.
const DONE: Status = Status::Done {
    pending: PendingRows { tables: [None; 4] },
};

/// Scripts, what is written, and how they end.
const ENDS: [(&str, &str, Status); 8] = [
    ("", "", Status::Config { line: 0 }),
    ("device 128 1\n", "", Status::Config { line: 1 }),
    ("device 128 4\nmount\n", "", Status::Config { line: 0 }),
    ("device 128 4\nfrob\n", "", Status::Line { line: 2 }),
    ("C\nmount\nfrob\nmount\n", "ok\n", Status::Line { line: 5 }),
    ("C\nmount\ndevice 128 4\n", "ok\n", Status::Line { line: 5 }),
    ("C\nmount\nblob t 1\n", "ok\nnone\n", DONE),
    ("C\n# last\nmount\r\nmount", "ok\nalready mounted\n", DONE),
];

#[test]
fn statuses(rt: HostRuntime) {
    for (script, replies, status) in ENDS {
        let end = ended(rt.alloc(), script, replies);
        same_at(&rt, &end, &Ok((status, true)), &script);
    }
}

/// The status of a run at whose end so many rows of two tables are pending.
fn done_with(first: u32, second: u32) -> Status {
    let tables = [
        table_rows(b"t", first),
        table_rows(b"u", second),
        None,
        None,
    ];
    Status::Done {
        pending: PendingRows { tables },
    }
}

/// The table with this name, if rows of it are pending.
fn table_rows(name: &[u8], rows: u32) -> Option<TableRows> {
    if rows == 0 {
        return None;
    }
    let name = Name::of(name)?;
    Some(TableRows { name, rows })
}

const TWO_TABLES: &str =
    "device 128 4\ntable t 8 i32 3 0 0 0 0 1 1 0\ntable u 8 i32 3 0 0 0 0 1 1 0\n";

/// How a script of two tables ends.
fn end_of_two(alloc: Global, media: &mut MemMedia, commands: &str) -> Result<Status, NoMemory> {
    let (status, _) = run_script(alloc, media, text(alloc, &[TWO_TABLES, commands])?)?;
    Ok(status)
}

/// .. and how two more do, over the same image
fn ends_of_two(alloc: Global) -> Result<[Status; 3], NoMemory> {
    let mut media = MemMedia::new(alloc, Vec::new(alloc), 4096)?;
    let first = end_of_two(
        alloc,
        &mut media,
        "mount\nput t 1 0\nput u 1 0\nput u 2 0\n",
    )?;
    let second = end_of_two(alloc, &mut media, "mount\nput t 2 0\nput u 3 0\nflush t\n")?;
    let third = end_of_two(alloc, &mut media, "mount\nput t 3 0\nput u 4 0\noff\n")?;
    Ok([first, second, third])
}

/// What no flush has written is told at the end, table by table.
#[test]
fn pending_rows(rt: HostRuntime) {
    let wanted = [done_with(1, 2), done_with(0, 1), done_with(0, 0)];
    same(&rt, &ends_of_two(rt.alloc()), &Ok(wanted));
}

/// How a script of another table ends on an image on which a mount is answered.
fn end_of_another(alloc: Global, script: &str) -> Result<(bool, Status), NoMemory> {
    let mut media = empty_medium(alloc, PLAIN)?;
    let is_mounted = is_answered(alloc, PLAIN, &mut media, &[("mount", "ok")], &[])?;
    let (status, _) = run_script(alloc, &mut media, text(alloc, &[script])?)?;
    Ok((is_mounted, status))
}

/// An image of another configuration.
#[test]
fn another_configuration(rt: HostRuntime) {
    let other = "device 128 4\ntable u 8 i32 3 0 0 0 0 1 1 0\nmount\n";
    let wanted = Status::OtherConfig {
        wanted: 117,
        found: 116,
        at: 19,
    };
    same(&rt, &end_of_another(rt.alloc(), other), &Ok((true, wanted)));
}

fn end_without_image(alloc: Global) -> Result<Status, NoMemory> {
    let mut media = empty_medium(alloc, PLAIN)?;
    media.fail_call(1);
    let (status, _) = run_script(alloc, &mut media, text(alloc, &[CONFIG, "mount\n"])?)?;
    Ok(status)
}

/// A medium that fails while its image is made.
#[test]
fn failing_medium(rt: HostRuntime) {
    same(&rt, &end_without_image(rt.alloc()), &Ok(Status::MediaMake));
}

/// A sink of which this call fails.
fn failing_sink(alloc: Global, call: u64) -> Result<MemSink, NoMemory> {
    Ok(MemSink::new(alloc, 100, vec![in alloc; call]?)?)
}

/// How two runs end over a source that fails at first, and a sink that fails behind the first reply, and whether that one is
/// written.
fn run_twice(alloc: Global) -> Result<([Status; 2], bool), NoMemory> {
    let script = text(alloc, &[CONFIG, "mount\nmount\n"])?;
    let source = MemSource::new(script, vec![in alloc; 1]?);
    let sink = failing_sink(alloc, 2)?;
    let mut media = empty_medium(alloc, PLAIN)?;
    let (first, source, sink) = run_source(alloc, &mut media, source, sink)?;
    let (second, _, sink) = run_source(alloc, &mut media, source, sink)?;
    Ok(([first, second], sink.bytes() == b"ok\n".as_slice()))
}

#[test]
fn failing_streams(rt: HostRuntime) {
    let ends = [Status::ScriptRead, Status::OutWrite];
    same(&rt, &run_twice(rt.alloc()), &Ok((ends, true)));
}

fn end_without_words(alloc: Global) -> Result<Status, NoMemory> {
    let mut media = empty_medium(alloc, PLAIN)?;
    let sink = MemSink::new(alloc, 100, Vec::new(alloc))?;
    let source = MemSource::new(Vec::new(alloc), Vec::new(alloc));
    let (status, _, _) = run_words(alloc, &Vec::new(alloc), &mut media, source, sink);
    Ok(status)
}

/// Words that name no image.
#[test]
fn no_words(rt: HostRuntime) {
    same(&rt, &end_without_words(rt.alloc()), &Ok(Status::Usage));
}

/// A script of as many bytes as are read, in lines that say nothing behind a mount.
fn longest_script(alloc: Global) -> Result<Vec<u8>, NoMemory> {
    let mut script = text(alloc, &[CONFIG, "mount\n"])?;
    let front = script.len();
    let rest = vec![in alloc; b'#'; LONGEST.saturating_sub(front)]?;
    script.extend_from_slice(&rest)?;
    for end in (front + 4000..LONGEST).step_by(4000) {
        script[end] = b'\n';
    }
    Ok(script)
}

/// Whether such a script is run to its end, and how one ends that has one byte more.
fn run_longest(alloc: Global) -> Result<(bool, Status), NoMemory> {
    let mut script = longest_script(alloc)?;
    let mut media = empty_medium(alloc, PLAIN)?;
    let is_run = is_done(alloc, &mut media, script.clone()?, b"ok\n")?;
    script.push(b'#')?;
    let (status, _) = run_script(alloc, &mut media, script)?;
    Ok((is_run, status))
}

/// A script of one byte too many: its whole lines are run.
#[test]
fn long_scripts(rt: HostRuntime) {
    same(
        &rt,
        &run_longest(rt.alloc()),
        &Ok((true, Status::ScriptLong)),
    );
}
