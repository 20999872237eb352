// A file as a medium: pairs of writes, and reads ahead, against stand-ins.
mod stand_in;

use crate::asserts::{same, same_at};
use fl_edge::{Access, FileMedia, ImageFile, ImageInUse};
use fl_flash::{Media, MediaFailed, PairFailed};
use stand_in::{Manner, StandIns};
use std::fs;
use std::os::unix::fs::FileExt;
use std::rt::Files;
use std::test::Fail;

// What a medium is asked for, and what it has to answer.
#[derive(Clone, Copy)]
pub(crate) enum Step<'b> {
    Len(u64),
    // Four bytes that are read at a place.
    Read(u64, [u8; 4]),
    // Not even no bytes are read.
    Unread,
    Write(u64, &'b [u8], Result<(), MediaFailed>),
    WritePair(u64, &'b [u8], usize, Result<(), PairFailed>),
}

// The four bytes at this place.
fn bytes_at<F: FileExt>(media: &mut FileMedia<F>, at: u64) -> Option<[u8; 4]> {
    if at.checked_add(4)? > media.len() {
        return None;
    }
    let mut into = [0; 4];
    media.read_at(at, &mut into).ok()?;
    Some(into)
}

fn holds<F: FileExt>(media: &mut FileMedia<F>, step: Step<'_>) -> bool {
    match step {
        Step::Len(len) => media.len() == len,
        Step::Read(at, bytes) => bytes_at(media, at) == Some(bytes),
        Step::Unread => media.read_at(0, &mut []).is_err(),
        Step::Write(at, bytes, want) => at <= media.len() && media.write_at(at, bytes) == want,
        Step::WritePair(at, bytes, split, want) => {
            at <= media.len() && split <= bytes.len() && media.write_pair(at, bytes, split) == want
        }
    }
}

// The first steps that are answered as they are to be.
fn answered<F: FileExt>(media: &mut FileMedia<F>, steps: &[Step<'_>]) -> usize {
    for i in 0..steps.len() {
        if !holds(media, steps[i]) {
            return i;
        }
    }
    steps.len()
}

// .. over the image of this name, which is open for them alone
pub(crate) fn answered_over<F: ImageFile + Drop, R: Files<File = F>>(
    rt: &R,
    name: &str,
    access: Access,
    steps: &[Step<'_>],
) -> Result<usize, ImageInUse> {
    let mut media = FileMedia::open_image(rt, name, access)?;
    Ok(answered(&mut media, steps))
}

const PAIR: &[u8] = &[1, 1, 1, 1, 0, 0, 0, 0];

// Whether a pair of writes into a file that is full behind so many bytes ends so, and leaves as many.
fn pair_ends(rt: &HostRuntime, name: &str, end: u64, want: Result<(), PairFailed>) -> bool {
    let files = StandIns {
        rt,
        manner: Manner::Full { end },
    };
    let steps = [Step::WritePair(0, PAIR, 4, want), Step::Len(end)];
    answered_over(&files, name, Access::Make, &steps) == Ok(2)
}

// The bytes behind which a file is full, and how the pair ends.
const PAIRS: &[(u64, Result<(), PairFailed>)] = &[
    (8, Ok(())),
    (7, Err(PairFailed::Second)),
    (4, Err(PairFailed::Second)),
    (3, Err(PairFailed::First)),
    (0, Err(PairFailed::First)),
];

#[test]
fn a_pair_tells_which_of_its_writes_failed(rt: HostRuntime) -> Result<(), Fail> {
    let name = "fl_edge_test.full";
    for (end, want) in PAIRS {
        same_at(&rt, &pair_ends(&rt, name, *end, *want), &true, end);
    }
    fs::remove_file(&rt, name)?;
    Ok(())
}

const SHORT: [Step<'static>; 7] = [
    Step::Write(0, &[0; 100], Ok(())),
    Step::Read(8, [8, 9, 10, 11]),
    Step::Read(12, [12, 13, 14, 15]),
    Step::Read(16, [16, 17, 18, 19]),
    Step::Read(12, [12, 13, 14, 15]),
    Step::Read(8, [8, 9, 10, 11]),
    Step::Read(40, [40, 41, 42, 43]),
];

#[test]
fn a_read_ahead_that_fails_is_no_fault(rt: HostRuntime) -> Result<(), Fail> {
    let name = "fl_edge_test.short";
    let files = StandIns {
        rt: &rt,
        manner: Manner::Short,
    };
    let answered = answered_over(&files, name, Access::Make, &SHORT);
    same(&rt, &answered, &Ok(SHORT.len()));
    fs::remove_file(&rt, name)?;
    Ok(())
}
