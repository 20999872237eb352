// Exports and imports of a table with a log, in images made by hand.
ghost use Rattle.std.specs.Prelude.{◌≤◌};

use crate::asserts::same;
use crate::checks::{Piece, SEAL, medium};
use crate::exports::export;
use crate::imports::{has_records, import, import_told, records};
use crate::logs::{LOGGED, LOGGED_BYTES, ROW};
use fl_base::NoMemory;
use fl_flash::MemMedia;
use fl_image::ToolStatus;
use std::alloc::Global;

// An image whose record of key 1 stands in the log alone.
fn owing(alloc: Global) -> Result<MemMedia, NoMemory> {
    let pieces: [Piece<'_>; 2] = [(384, &ROW), (440, &SEAL)];
    medium(alloc, LOGGED, LOGGED_BYTES, &pieces)
}

// How two exports end and whether they write so, which bytes tell of a data page that the first one's mount made, and whether the
// second changes nothing.
type Exported = ([(ToolStatus, bool); 2], bool, bool);

fn export_twice(alloc: Global, text: &str) -> Result<Exported, NoMemory> {
    let mut media = owing(alloc)?;
    let first = export(alloc, &mut media, b"t", (0, 9), 100, text)?;
    let before = media.bytes().to_vec(alloc)?;
    let second = export(alloc, &mut media, b"t", (0, 9), 100, text)?;
    let made = (before.get(1024 + 4), before.get(1024 + 56)) == (Some(&1), Some(&0));
    Ok(([first, second], made, media.bytes() == before.as_slice()))
}

#[test]
fn what_only_a_log_has_is_exported(rt: HostRuntime) {
    let ends = [(ToolStatus::Done, true); 2];
    same(
        &rt,
        &export_twice(rt.alloc(), "key,c1\n1,0\n"),
        &Ok((ends, true, true)),
    );
}

// How many records there are behind an import, whether it tells so, and whether table t has these records.
fn import_behind(
    alloc: Global,
    text: &[u8],
    told: &str,
    records_now: &[u8],
) -> Result<(Option<u64>, bool, bool), NoMemory> {
    let mut media = owing(alloc)?;
    let (end, is_told) = import_told(alloc, &mut media, text, told)?;
    Ok((
        end.kept,
        is_told,
        has_records(alloc, &mut media, records_now)?,
    ))
}

#[test]
fn records_are_put_behind_those_of_a_log(rt: HostRuntime) {
    let told = "line 2 refused key 1\nimported 1 refused 1\n";
    let end = import_behind(
        rt.alloc(),
        b"key,c1\n1,5\n2,7\n",
        told,
        b"key,c1\n1,0\n2,7\n",
    );
    same(&rt, &end, &Ok((Some(2), true, true)));
}

// How many lines a text has.
fn lines_in(text: &[u8]) -> u64 {
    let mut count: u64 = 0;
    for byte in text {
        if *byte == b'\n' {
            count = count.saturating_add(1);
        }
    }
    count
}

// How an import of four records ends where this call of the medium fails, how many it says are put, and how many the next mount
// finds beside the one that was there.
fn import_failing(alloc: Global, call: u64) -> Result<(ToolStatus, u64, u64), NoMemory>
    requires { 1 ≤ call }
{
    let mut media = owing(alloc)?;
    media.fail_call(call);
    let text = b"key,c1\n2,1\n3,1\n4,1\n5,1\n";
    let end = import(alloc, &mut media, b"t", text, 100)?;
    let out = records(alloc, &mut media)?;
    // The names stand in a line of their own.
    let more = lines_in(out.bytes()).saturating_sub(2);
    Ok((end.status, end.taken.rows, more))
}

// Whether each record whose put was done is there after the next mount, and at most one more, whatever call of the medium fails.
fn are_puts_kept(alloc: Global) -> Result<bool, NoMemory> {
    for call in 1..200 {
        let (status, put, more) = import_failing(alloc, call)?;
        if status == ToolStatus::Done {
            return Ok(true);
        }
        if status != ToolStatus::Device || more < put || more - put > 1 {
            return Ok(false);
        }
    }
    Ok(false)
}

#[test]
fn what_was_put_survives_a_medium_that_fails(rt: HostRuntime) {
    same(&rt, &are_puts_kept(rt.alloc()), &Ok(true));
}
