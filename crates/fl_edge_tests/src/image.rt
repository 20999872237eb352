// The image of a job, against files of the system.
mod sealed;

use crate::asserts::{same, same_at};
use crate::media::{Step, answered_over};
use fl_edge::{Access, FileMedia, ImageInUse};
use fl_flash::{MediaFailed, PairFailed};
use sealed::Sealed;
use std::fs::{self, File};
use std::io;
use std::rt::Files;
use std::test::Fail;

const ALL: [Access; 4] = [Access::Make, Access::Write, Access::Repair, Access::Read];

fn is_free<R: Files<File = File>>(rt: &R, name: &str, access: Access) -> bool {
    FileMedia::open_image(rt, name, access).is_ok()
}

// Whether the file of this name had these bytes. It is removed.
fn had(rt: &HostRuntime, name: &str, bytes: &[u8]) -> io::Result<bool> {
    let found = fs::read(rt, name)?;
    fs::remove_file(rt, name)?;
    Ok(found.as_slice() == bytes)
}

const MADE: [Step<'static>; 2] = [Step::Len(0), Step::Write(0, &[1, 2, 3, 4], Ok(()))];

const KEPT: [Step<'static>; 5] = [
    Step::Len(4),
    Step::Read(0, [1, 2, 3, 4]),
    Step::WritePair(3, &[5, 6, 7], 2, Ok(())),
    Step::Len(6),
    Step::Read(2, [3, 5, 6, 7]),
];

#[test]
fn a_file_keeps_what_was_written(rt: HostRuntime) -> Result<(), Fail> {
    let name = "fl_edge_test.image";
    let answered = [
        answered_over(&rt, name, Access::Make, &MADE),
        answered_over(&rt, name, Access::Write, &KEPT),
    ];
    same(&rt, &answered, &[Ok(MADE.len()), Ok(KEPT.len())]);
    fs::remove_file(&rt, name)?;
    Ok(())
}

// What a medium without a file answers.
const NO_FILE: [Step<'static>; 4] = [
    Step::Len(0),
    Step::Unread,
    Step::Write(0, &[1], Err(MediaFailed)),
    Step::WritePair(0, &[1, 2], 1, Err(PairFailed::First)),
];

fn has_no_file<R: Files<File = File>>(rt: &R, name: &str, access: Access) -> bool {
    answered_over(rt, name, access, &NO_FILE) == Ok(NO_FILE.len())
}

// Whether those who make no file find none of this name, and leave none.
fn is_missing(rt: &HostRuntime, name: &str) -> io::Result<bool> {
    for access in [Access::Write, Access::Repair, Access::Read] {
        if !has_no_file(rt, name, access) || fs::exists(rt, name)? {
            return Ok(false);
        }
    }
    Ok(true)
}

#[test]
fn a_file_is_made_where_it_may_be(rt: HostRuntime) -> Result<(), Fail> {
    let name = "fl_edge_test.missing";
    let missing = is_missing(&rt, name)?;
    let made = is_free(&rt, name, Access::Make);
    same(
        &rt,
        &(missing, made, had(&rt, name, &[])?),
        &(true, true, true),
    );
    Ok(())
}

// Whether no job finds a file of this name that it can use.
fn is_no_image(rt: &HostRuntime, name: &str) -> bool {
    for access in ALL {
        if !has_no_file(rt, name, access) {
            return false;
        }
    }
    true
}

#[test]
fn what_is_no_file_is_no_image(rt: HostRuntime) {
    for name in ["/dev/null", "/dev/zero", ".", "no such folder/image"] {
        same_at(&rt, &is_no_image(&rt, name), &true, &name);
    }
}

// Whether one who holds the file so shares it with those who read alone, if it does that itself, and with no one else.
fn is_shared_to_read(rt: &HostRuntime, name: &str, held: Access) -> Result<bool, ImageInUse> {
    let _media = FileMedia::open_image(rt, name, held)?;
    for wanted in ALL {
        let is_shared = held == Access::Read && wanted == Access::Read;
        if is_free(rt, name, wanted) != is_shared {
            return Ok(false);
        }
    }
    Ok(true)
}

// Only those who read share a file.
#[test]
fn a_file_that_is_in_use_is_left_alone(rt: HostRuntime) -> Result<(), Fail> {
    let name = "fl_edge_test.lock";
    fs::write(&rt, name, [1, 2, 3].as_slice())?;
    for held in ALL {
        same_at(&rt, &is_shared_to_read(&rt, name, held), &Ok(true), &held);
    }
    same(&rt, &had(&rt, name, &[1, 2, 3])?, &true);
    Ok(())
}

const ONLY_READ: [Step<'static>; 5] = [
    Step::Len(5),
    Step::Read(1, [2, 3, 4, 5]),
    Step::Write(0, &[9], Err(MediaFailed)),
    Step::WritePair(0, &[9, 9], 1, Err(PairFailed::First)),
    Step::Len(5),
];

// Whether the file is read and not written, while another one reads it too.
fn is_only_read(files: &Sealed<'_>, name: &str, access: Access) -> Result<bool, ImageInUse> {
    let _other = FileMedia::open_image(files, name, access)?;
    Ok(answered_over(files, name, access, &ONLY_READ)? == ONLY_READ.len())
}

#[test]
fn what_cannot_be_written_is_read_to_repair(rt: HostRuntime) -> Result<(), Fail> {
    let name = "fl_edge_test.sealed";
    fs::write(&rt, name, [1, 2, 3, 4, 5].as_slice())?;
    let sealed = Sealed(&rt);
    for access in [Access::Repair, Access::Read] {
        same_at(
            &rt,
            &is_only_read(&sealed, name, access),
            &Ok(true),
            &access,
        );
    }
    for access in [Access::Make, Access::Write] {
        same_at(&rt, &has_no_file(&sealed, name, access), &true, &access);
    }
    same(&rt, &had(&rt, name, &[1, 2, 3, 4, 5])?, &true);
    Ok(())
}

const AHEAD: [Step<'static>; 23] = [
    // down, so that all in front of them is read ahead
    Step::Read(60, [7; 4]),
    Step::Read(56, [7; 4]),
    Step::Read(52, [7; 4]),
    Step::Read(48, [7; 4]),
    Step::Read(44, [7; 4]),
    Step::Read(40, [7; 4]),
    Step::Read(36, [7; 4]),
    Step::Read(32, [7; 4]),
    Step::Read(28, [7; 4]),
    Step::Read(24, [7; 4]),
    Step::Read(20, [7; 4]),
    Step::Write(20, &[1, 2], Ok(())),
    Step::Read(20, [1, 2, 7, 7]),
    Step::Read(16, [7; 4]),
    Step::Read(12, [7; 4]),
    Step::Len(100),
    Step::WritePair(4, &[3, 4, 5], 2, Ok(())),
    Step::Read(4, [3, 4, 5, 7]),
    Step::Read(5, [4, 5, 7, 7]),
    Step::Read(6, [5, 7, 7, 7]),
    Step::Read(20, [1, 2, 7, 7]),
    Step::Read(21, [2, 7, 7, 7]),
    Step::Read(22, [7; 4]),
];

#[test]
fn what_was_read_ahead_is_read_as_it_was_written_since(rt: HostRuntime) -> Result<(), Fail> {
    let name = "fl_edge_test.ahead";
    fs::write(&rt, name, [7; 100].as_slice())?;
    let answered = answered_over(&rt, name, Access::Write, &AHEAD);
    same(&rt, &answered, &Ok(AHEAD.len()));
    fs::remove_file(&rt, name)?;
    Ok(())
}
