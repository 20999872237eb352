// The order of reads and hand-outs, by a reader and a writer that note what they do in one log.
ghost use Rattle.std.specs.Prelude.{◌≤◌};

use crate::asserts::same;
use fl_base::{NoMemory, Sink, SinkFailed, Source, SourceFailed};
use fl_edge::{Prompted, ReplyBuffer, StandardInput, StandardOutput};
use std::alloc::Global;
use std::cell::RefCell;
use std::io::{self, ErrorKind, Read, Write};

// What was done, in order: the bytes that were written, and a question mark for each read.
#[derive(Drop)]
struct Log {
    done: RefCell<Vec<u8>>,
}

impl Log {
    fn new(alloc: Global) -> Log {
        Log {
            done: RefCell::new(Vec::new(alloc)),
        }
    }

    // Without memory the bytes are lost, and the log isn't what it is to be.
    fn note(&self, bytes: &[u8]) {
        if let Ok(mut done) = self.done.try_borrow_mut() {
            let _noted = done.extend_from_slice(bytes);
        }
    }

    fn is(&self, bytes: &[u8]) -> bool {
        match self.done.try_borrow() {
            Ok(done) => done.as_slice() == bytes,
            Err(_) => false,
        }
    }
}

// Interrupts every other call, and fails the others where nothing is left.
fn go_on(interrupted: &mut bool, is_left: bool) -> io::Result<()> {
    *interrupted = !*interrupted;
    if *interrupted {
        return Err(ErrorKind::Interrupted.into());
    }
    if !is_left {
        return Err(ErrorKind::Other.into());
    }
    Ok(())
}

// Gives one byte a read, is interrupted before each, and fails once it has given all that it has.
#[derive(Drop)]
struct Reader<'a> {
    log: &'a Log,
    left: u64,
    interrupted: bool,
}

impl Read for Reader<'_> {
    fn read(&mut self, buf: &mut [u8]) -> io::Result<usize> {
        go_on(&mut self.interrupted, self.left > 0)?;
        self.log.note(b"?");
        self.left = self.left.saturating_sub(1);
        Ok(buf.len().min(1))
    }
}

// Takes at most some bytes a call, is interrupted before each, and fails once it has taken all that it
// has room for.
#[derive(Drop)]
struct Writer<'a> {
    log: &'a Log,
    most: usize,
    room: usize,
    interrupted: bool,
}

impl Writer<'_> {
    fn taken(&self, len: usize) -> usize
        ensures { result ≤ len }
    {
        len.min(self.most).min(self.room)
    }
}

impl Write for Writer<'_> {
    fn write(&mut self, buf: &[u8]) -> io::Result<usize> {
        go_on(&mut self.interrupted, self.room > 0)?;
        let taken = self.taken(buf.len());
        self.log.note(&buf[..taken]);
        self.room = self.room.saturating_sub(taken);
        Ok(taken)
    }

    fn flush(&mut self) -> io::Result<()> {
        Ok(())
    }
}

fn reader_on(log: &Log, left: u64) -> Reader<'_> {
    Reader {
        log,
        left,
        interrupted: false,
    }
}

fn writer_on(log: &Log, most: usize, room: usize) -> Writer<'_> {
    Writer {
        log,
        most,
        room,
        interrupted: false,
    }
}

// What a source or a sink is asked for and has to answer, and what then stands in the log.
#[derive(Clone, Copy)]
enum Step<'b> {
    Read(Result<usize, SourceFailed>),
    Write(&'b [u8], Result<usize, SinkFailed>),
    HandOut(Result<(), SinkFailed>),
    Log(&'b [u8]),
}

fn holds<S: Source, W: Write + Drop>(
    source: &mut S,
    sink: &mut StandardOutput<'_, W>,
    log: &Log,
    step: Step<'_>,
) -> bool {
    match step {
        Step::Read(want) => {
            let mut into = [0; 4];
            source.read(&mut into) == want
        }
        Step::Write(bytes, want) => sink.write(bytes) == want,
        Step::HandOut(want) => sink.hand_out() == want,
        Step::Log(bytes) => log.is(bytes),
    }
}

// The first steps that are answered as they are to be, by a reader and a writer over one buffer of replies.
fn answered<R: Read + Drop, W: Write + Drop>(
    alloc: Global,
    reader: R,
    writer: W,
    log: &Log,
    steps: &[Step<'_>],
) -> Result<usize, NoMemory> {
    let replies = RefCell::new(ReplyBuffer::new(alloc, writer)?);
    let mut source = StandardInput::new(reader, &replies);
    let mut sink = StandardOutput::new(&replies);
    for i in 0..steps.len() {
        if !holds(&mut source, &mut sink, log, steps[i]) {
            return Ok(i);
        }
    }
    Ok(steps.len())
}

// .. by a reader that gives so many bytes, and a writer that takes at most so many a call and so many in all
fn answered_by(
    alloc: Global,
    left: u64,
    most: usize,
    room: usize,
    steps: &[Step<'_>],
) -> Result<usize, NoMemory> {
    let log = Log::new(alloc);
    let writer = writer_on(&log, most, room);
    answered(alloc, reader_on(&log, left), writer, &log, steps)
}

const TALK: [Step<'static>; 12] = [
    Step::Read(Ok(1)),
    Step::Write(b"ab", Ok(2)),
    Step::Write(b"cd", Ok(2)),
    Step::Log(b"?"),
    Step::Read(Ok(1)),
    Step::Log(b"?abcd?"),
    Step::Write(b"e", Ok(1)),
    Step::HandOut(Ok(())),
    Step::Read(Ok(1)),
    Step::Log(b"?abcd?e?"),
    Step::Read(Err(SourceFailed)),
    Step::HandOut(Ok(())),
];

#[test]
fn each_reply_is_out_before_the_next_read(rt: HostRuntime) {
    same(
        &rt,
        &answered_by(rt.alloc(), 3, 1, 100, &TALK),
        &Ok(TALK.len()),
    );
}

const PROMPTS: [Step<'static>; 4] = [
    Step::Read(Ok(1)),
    Step::Write(b"ab", Ok(2)),
    Step::Read(Ok(0)),
    Step::Log(b"> ab> \n"),
];

// .. by a reader of one byte with a prompt
fn answered_at_a_prompt(alloc: Global, steps: &[Step<'_>]) -> Result<usize, NoMemory> {
    let log = Log::new(alloc);
    let reader = Prompted::new(b"x".as_slice(), Some(writer_on(&log, 8, 100)));
    answered(alloc, reader, writer_on(&log, 8, 100), &log, steps)
}

#[test]
fn a_prompt_stands_behind_the_replies(rt: HostRuntime) {
    same(
        &rt,
        &answered_at_a_prompt(rt.alloc(), &PROMPTS),
        &Ok(PROMPTS.len()),
    );
}

const UNREAD: [Step<'static>; 6] = [
    Step::Write(b"abcde", Ok(5)),
    Step::Read(Err(SourceFailed)),
    Step::Write(b"f", Err(SinkFailed)),
    Step::HandOut(Err(SinkFailed)),
    Step::Read(Err(SourceFailed)),
    Step::Log(b"abc"),
];

#[test]
fn nothing_is_read_behind_a_failed_hand_out(rt: HostRuntime) {
    same(
        &rt,
        &answered_by(rt.alloc(), 3, 8, 3, &UNREAD),
        &Ok(UNREAD.len()),
    );
}

const FAILED: [Step<'static>; 4] = [
    Step::HandOut(Ok(())),
    Step::Write(b"ab", Ok(2)),
    Step::HandOut(Err(SinkFailed)),
    Step::HandOut(Err(SinkFailed)),
];

#[test]
fn a_failed_end_is_told(rt: HostRuntime) {
    same(
        &rt,
        &answered_by(rt.alloc(), 0, 8, 0, &FAILED),
        &Ok(FAILED.len()),
    );
}

#[test]
fn a_full_buffer_is_handed_out(rt: HostRuntime) {
    let piece = [b'x'; 40_000];
    let all = [b'x'; 50_000];
    let steps = [
        Step::Write(&piece, Ok(40_000)),
        Step::Log(&[]),
        Step::Write(&piece, Ok(40_000)),
        Step::Log(&piece),
        Step::Write(&piece, Err(SinkFailed)),
        Step::Write(&[], Err(SinkFailed)),
        Step::Log(&all),
    ];
    same(
        &rt,
        &answered_by(rt.alloc(), 0, 30_000, 50_000, &steps),
        &Ok(steps.len()),
    );
}
