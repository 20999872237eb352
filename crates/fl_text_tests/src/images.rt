// An image that is made, and others that are opened.
ghost use Rattle.std.specs.Prelude.{IfSome, IsTrue};
ghost use Rattle.fl_config.specs.Whole.{is_whole};

use crate::asserts::same;
use fl_base::NoMemory;
use fl_config::{Config, ImageRefusal};
use fl_flash::MemMedia;
use fl_script::{LineRoom, read_line};
use std::alloc::Global;

const TABLE: &str = "table t 8 i32 3 0 0 8 0 10 1 0";

const OTHER_TABLE: &str = "table t 8 i32 3 0 0 8 0 10 2 0";

/// Configurations by the lines of their tables, each with the answer of a medium.
type Talk = &'static [(&'static str, Result<(), ImageRefusal>)];

fn add(config: &mut Config, room: &mut LineRoom, line: &[u8]) -> Option<()> {
    let command = read_line(line, room).ok()?;
    config.add(&command, room).ok()
}

/// The configuration of a device and the tables with these lines.
fn config(room: &mut LineRoom, tables: &str) -> Option<Config>
    ensures { IfSome result (λ config. IsTrue (is_whole config)) }
{
    let mut config = Config::new();
    add(&mut config, room, b"device 128 4")?;
    let lines = tables.as_bytes().split(|byte| *byte == b'\n');
    for line in lines {
        add(&mut config, room, line)?;
    }
    if config.is_complete() {
        Some(config)
    } else {
        None
    }
}

/// The answer of the configuration with these tables to a medium.
fn open(
    alloc: Global,
    tables: &str,
    media: &mut MemMedia,
) -> Result<Option<Result<(), ImageRefusal>>, NoMemory> {
    let mut room = LineRoom::new(alloc)?;
    let Some(config) = config(&mut room, tables) else {
        return Ok(None);
    };
    Ok(Some(config.open_image(media)))
}

/// The first of these configurations that isn't answered so by a medium.
fn first_wrong(
    alloc: Global,
    media: &mut MemMedia,
    answers: Talk,
) -> Result<Option<usize>, NoMemory> {
    for i in 0..answers.len() {
        let (tables, answer) = answers[i];
        if open(alloc, tables, media)? != Some(answer) {
            return Ok(Some(i));
        }
    }
    Ok(None)
}

fn is_all(bytes: &[u8], byte: u8) -> bool {
    bytes.iter().all(|found| *found == byte)
}

/// The parts of an image: the configuration and the spaces behind it, and blank pages.
fn is_image(bytes: &[u8]) -> bool {
    let text = b"device 128 4\ntable t 8 i32 3 0 0 8 0 10 1 0\n";
    bytes.len() == 2560
        && bytes.starts_with(text)
        && is_all(&bytes[text.len()..1024], b' ')
        && is_all(&bytes[1024..], 0xff)
}

/// How a medium without bytes is made the image of a table with this line, whether it begins with this text then, and its length.
type Made = (Option<Result<(), ImageRefusal>>, bool, usize);

fn make(alloc: Global, table: &str, text: &[u8]) -> Result<Made, NoMemory> {
    let mut media = MemMedia::new(alloc, Vec::new(alloc), 8000)?;
    let answer = open(alloc, table, &mut media)?;
    let bytes = media.bytes();
    Ok((answer, bytes.starts_with(text), bytes.len()))
}

#[test]
fn both_words_stand_in_the_header(rt: HostRuntime) {
    let table = "table t 8 i32 6 3 0 8 0 10 1 0  index2 rlc 03";
    let text = b"device 128 4\ntable t 8 i32 6 3 0 8 0 10 1 0 index2 rlc 3\n ";
    same(
        &rt,
        &make(rt.alloc(), table, text),
        &Ok((Some(Ok(())), true, 7168)),
    );
}

/// Two tables with logs, of 13 blocks in all.
const LOGS: &str = "table t 8 i32 3 0 0 8 0 10 1 0 rlc 3\ntable u 8 i32 3 0 0 8 0 10 1 0 rlc 4";

/// The same, but for the blocks of each log.
const OTHER_LOGS: &str =
    "table t 8 i32 3 0 0 8 0 10 1 0 rlc 4\ntable u 8 i32 3 0 0 8 0 10 1 0 rlc 3";

/// As many blocks, and a log of the second table alone.
const ONE_LOG: &str = "table t 8 i32 3 0 0 8 0 10 1 0\ntable u 8 i32 3 0 0 8 0 10 1 0 rlc 7";

/// The blocks of the first log differ.
const OTHER_BLOCKS: ImageRefusal = ImageRefusal::Other {
    wanted: b'4' as u64,
    found: b'3' as u64,
    at: 48,
};

/// The line of the first table ends there.
const LINE_END: ImageRefusal = ImageRefusal::Other {
    wanted: b'\n' as u64,
    found: b' ' as u64,
    at: 43,
};

const OTHER_LENGTH: ImageRefusal = ImageRefusal::Other {
    wanted: 2560,
    found: 7680,
    at: 1024,
};

/// The first of these configurations that isn't answered so by a medium that has no bytes before.
fn first_wrong_anew(alloc: Global, answers: Talk) -> Result<Option<usize>, NoMemory> {
    let mut media = MemMedia::new(alloc, Vec::new(alloc), 8000)?;
    first_wrong(alloc, &mut media, answers)
}

#[test]
fn another_log_is_another_configuration(rt: HostRuntime) {
    const ANSWERS: Talk = &[
        (LOGS, Ok(())),
        (LOGS, Ok(())),
        (OTHER_LOGS, Err(OTHER_BLOCKS)),
        (ONE_LOG, Err(LINE_END)),
        (TABLE, Err(OTHER_LENGTH)),
    ];
    same(&rt, &first_wrong_anew(rt.alloc(), ANSWERS), &Ok(None));
}

/// The first of these configurations that isn't answered so, and whether the medium is the image of the first table then.
fn first_wrong_of_image(
    alloc: Global,
    media: &mut MemMedia,
    answers: Talk,
) -> Result<(Option<usize>, bool), NoMemory> {
    let wrong = first_wrong(alloc, media, answers)?;
    Ok((wrong, is_image(media.bytes())))
}

/// The error of the index differs.
const OTHER_ERROR: ImageRefusal = ImageRefusal::Other {
    wanted: b'2' as u64,
    found: b'1' as u64,
    at: 40,
};

const MADE: Talk = &[(TABLE, Ok(()))];

const FOUND: Talk = &[(TABLE, Ok(())), (OTHER_TABLE, Err(OTHER_ERROR))];

const UNREAD: Talk = &[(TABLE, Err(ImageRefusal::Media))];

/// What a medium without bytes answers while it is made an image, once it is one, and where it can't be read.
fn answers(alloc: Global) -> Result<[(Option<usize>, bool); 3], NoMemory> {
    let mut media = MemMedia::new(alloc, Vec::new(alloc), 4000)?;
    let made = first_wrong_of_image(alloc, &mut media, MADE)?;
    let found = first_wrong_of_image(alloc, &mut media, FOUND)?;
    media.fail_call(1);
    let unread = first_wrong_of_image(alloc, &mut media, UNREAD)?;
    Ok([made, found, unread])
}

#[test]
fn an_image_is_made_and_found(rt: HostRuntime) {
    same(&rt, &answers(rt.alloc()), &Ok([(None, true); 3]));
}

/// The answer to a medium of so many zeros, with this room.
fn open_zeros(
    alloc: Global,
    len: usize,
    room: usize,
) -> Result<Option<Result<(), ImageRefusal>>, NoMemory> {
    let bytes = vec![in alloc; 0; len]?;
    let mut media = MemMedia::new(alloc, bytes, room)?;
    open(alloc, TABLE, &mut media)
}

#[test]
fn lengths_that_do_not_fit(rt: HostRuntime) {
    let other = ImageRefusal::Other {
        wanted: 2560,
        found: 2559,
        at: 1024,
    };
    same(
        &rt,
        &open_zeros(rt.alloc(), 2559, 4000),
        &Ok(Some(Err(other))),
    );
    let full = Err(ImageRefusal::Media);
    same(&rt, &open_zeros(rt.alloc(), 0, 2000), &Ok(Some(full)));
}
