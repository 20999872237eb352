//! `flashts run IMAGE` runs the script on standard input over the image, and writes its replies on standard output.
//! `flashts check IMAGE` tells there whether each table of the image is sound, `flashts map IMAGE` draws its pages, `flashts export
//! IMAGE NAME LOW HIGH` writes the records of a table whose keys are in the range, `flashts salvage IMAGE NAME` those that a damaged
//! image still holds, and `flashts import IMAGE NAME` puts those that standard input has into a table. `flashts plan` tells what the
//! tables of a configuration keep and take, without an image, and `flashts help` tells the jobs. `flashts shell IMAGE` answers commands
//! one by one, and goes on after a line that is none. `flashts ship IMAGE COPY NAME COUNT` puts the next records of a table into a
//! copy, which is an image of its own.
#![tactic(auto)]

mod ships;

ghost use Rattle.std.specs.Prelude.{◌≤◌, IfSome};

use crate::ships::ship_told;
use fl_base::{Sink, Source};
use fl_command::{
    Ending, Exit, Help, Telling, Told, ToolJob, plan, reason_of, ship_of, tool, tool_of,
};
use fl_edge::{
    Access, FileMedia, Prompted, ReplyBuffer, StandardDescriptors, StandardInput, StandardOutput,
    SyncedMedia, is_missing, remove_empty,
};
use fl_flash::Media;
use fl_reason::{Tail, TailSource};
use fl_session::{Status, image_of, run};
use fl_shell::{ShellEnd, ShellStatus, shell, shell_of};
use fl_sizing::{PlanJob, plan_of};
use std::alloc::Global;
use std::cell::RefCell;
use std::env::{Env, FillError};
use std::fs::File;
use std::io::{self, IsTerminal, Read, Write};
use std::process::{ExitCode, Termination};
use std::rt::Files;

fn main(rt: HostRuntime) -> ExitCode {
    let _streams = StandardDescriptors::taken(&rt);
    let telling = telling_on(&rt, &rt.stderr());
    let ending = ending(&rt, prompts_on(&rt.stdin(), rt.stderr()));
    Told { ending, telling }.report(&rt)
}

/// How much of an end that failed is told: also why and what to do if standard error is a terminal, or the environment asks for it.
fn telling_on<R: Env, W: IsTerminal>(rt: &R, error: &W) -> Telling {
    if error.is_terminal() || is_explained(rt) {
        Telling::Explained
    } else {
        Telling::Headline
    }
}

/// Whether the environment has the variable that asks for explanations, which an empty one doesn't. To ask takes no memory.
fn is_explained<R: Env>(rt: &R) -> bool {
    let mut first = [0u8; 1];
    match rt.var("FLASHTS_EXPLAIN", &mut first) {
        Ok(length) => length > 0,
        Err(FillError::TooLong) => true,
        Err(FillError::NotPresent) => false,
    }
}

/// Where a shell shows its prompts: on standard error, if that and standard input are terminals.
fn prompts_on<I: IsTerminal, W: IsTerminal + Drop>(input: &I, error: W) -> Option<W> {
    let is_typed = input.is_terminal() && error.is_terminal();
    is_typed.then_some(error)
}

/// Does what the words of the command line say.
fn ending<R, W>(rt: &R, prompts: Option<W>) -> Ending
where
    R: Alloc<A = Global> + Env + Files<File = File> + Input + Print,
    W: Write + Drop,
{
    match words_of(rt) {
        Some(mut words) => {
            let sync = take_sync(&mut words);
            ending_of(rt, &words, sync, prompts)
        }
        None => Ending::of(Exit::Run(Status::NoMemory)),
    }
}

/// Takes the word `sync` behind `run` or `shell` away, if it stands there before the name of an image, and tells whether it did.
fn take_sync(words: &mut Vec<String>) -> bool {
    let is_there = match words.as_slice() {
        [job, word, _] => {
            (job.as_str() == "run" || job.as_str() == "shell") && word.as_str() == "sync"
        }
        _ => false,
    };
    if is_there {
        let _sync = words.remove(1);
    }
    is_there
}

/// The words behind the program's name; none where the system can't hand them out.
fn words_of<R: Env + Alloc<A = Global>>(rt: &R) -> Option<Vec<String>> {
    let mut args = std::env::args(rt).ok()?;
    let _program = args.next();
    let mut words = Vec::new(rt.alloc());
    for word in args {
        words.push(word).ok()?;
    }
    Some(words)
}

/// How words end that name no image: `help` tells the jobs, a run is told its form, and others all forms.
fn usage_of<R: Print>(rt: &R, words: &[String]) -> Exit {
    match words.first() {
        Some(word) if word.as_str() == "help" && words.len() == 1 => help(rt),
        Some(word) if word.as_str() == "run" => Exit::Run(Status::Usage),
        _ => Exit::Words,
    }
}

/// Tells the jobs on standard output.
fn help<R: Print>(rt: &R) -> Exit {
    match print!(rt; "{}", Help) {
        Ok(()) => Exit::Help,
        Err(_) => Exit::Run(Status::OutWrite),
    }
}

/// How the image of a job is opened, or that of a run, where there is no job.
fn access_of(job: Option<ToolJob>) -> Access {
    match job {
        None => Access::Make,
        Some(ToolJob::Check | ToolJob::CheckAll | ToolJob::Map { .. } | ToolJob::Salvage { .. }) =>
            Access::Read,
        Some(ToolJob::Export { .. }) => Access::Repair,
        Some(ToolJob::Import { .. }) => Access::Write,
    }
}

/// Does what the words say, and hands out what was written. Words that name no image leave every file alone.
fn ending_of<R, W>(rt: &R, words: &[String], sync: bool, prompts: Option<W>) -> Ending
where
    R: Alloc<A = Global> + Files<File = File> + Input + Print,
    W: Write + Drop,
{
    if let Some(job) = plan_of(words) {
        return plan_told(rt, job);
    }
    if let Some(job) = ship_of(words) {
        return ship_told(rt, job, words[1].as_str(), words[2].as_str());
    }
    match named_in(words) {
        Some(image) => over_image(rt, words, sync, image, prompts),
        None => Ending::of(usage_of(rt, words)),
    }
}

/// The image that the words name.
fn named_in(words: &[String]) -> Option<&str> {
    match tool_of(words) {
        Some(_) => Some(words[1].as_str()),
        None => image_of(words).or(shell_of(words)),
    }
}

/// Does what the words say over the image, and hands out what was written.
fn over_image<R, W>(rt: &R, words: &[String], sync: bool, image: &str, prompts: Option<W>) -> Ending
where
    R: Alloc<A = Global> + Files<File = File> + Input + Print,
    W: Write + Drop,
{
    let was_missing = is_missing(rt, image);
    let Ok(replies) = ReplyBuffer::new(rt.alloc(), io::writer(rt)) else {
        return Ending::of(Exit::Run(Status::NoMemory));
    };
    let Ok(media) = FileMedia::open_image(rt, image, access_of(tool_of(words))) else {
        return Ending::of(Exit::InUse);
    };
    let made = if was_missing { Some(image) } else { None };
    over_file(rt, words, sync, made, prompts, media, replies)
}

/// Does what the words say over the file of the image. A shell over a file that can't be used ends before somebody types the configuration
/// of an image.
fn over_file<R, W, O>(
    rt: &R,
    words: &[String],
    sync: bool,
    made: Option<&str>,
    prompts: Option<W>,
    media: FileMedia<File>,
    replies: ReplyBuffer<O>,
) -> Ending
where
    R: Alloc<A = Global> + Files<File = File> + Input,
    W: Write + Drop,
    O: Write + Drop,
{
    let is_shell = shell_of(words).is_some();
    if is_shell && !media.is_usable() {
        return Ending::of(Exit::Shell(ShellEnd::of(ShellStatus::MediaMake)));
    }
    let reader = Prompted::new(rt.reader(), if is_shell { prompts } else { None });
    if sync {
        done_over(rt, words, made, reader, SyncedMedia::of(media), replies)
    } else {
        done_over(rt, words, made, reader, media, replies)
    }
}

/// Does the job, or the shell or the run where there is none, over the medium of the image, and hands out what was written. The file
/// that was made doesn't stay if nothing was written into it: it goes while the medium still has the lock.
fn done_over<R: Alloc<A = Global> + Files, I: Read + Drop, M: Media + Drop, W: Write + Drop>(
    rt: &R,
    words: &[String],
    made: Option<&str>,
    reader: I,
    mut media: M,
    replies: ReplyBuffer<W>,
) -> Ending {
    let replies = RefCell::new(replies);
    let input = StandardInput::new(reader, &replies);
    let mut out = StandardOutput::new(&replies);
    let ending = told_over(rt.alloc(), words, &mut media, input, &mut out);
    if let Some(image) = made {
        if media.len() == 0 {
            remove_empty(rt, image);
        }
    }
    Ending {
        exit: ending.exit.behind(out.hand_out()),
        ..ending
    }
}

/// Does the job, or the shell or the run where there is none, over a medium and an input, without handing out what was written.
fn told_over<M: Media, S: Source + Drop, K: Sink>(
    alloc: Global,
    words: &[String],
    media: &mut M,
    mut input: S,
    out: &mut K,
) -> Ending {
    match tool_of(words) {
        Some(job) => Ending::of(tool(alloc, job, media, &mut input, out)),
        None if shell_of(words).is_some() => shell_told(alloc, media, &mut input, out),
        None => run_told(alloc, words, media, input, out),
    }
}

/// Answers the lines of an input over the image, and tells whether the image was made.
fn shell_told<M: Media, S: Source, K: Sink>(
    alloc: Global,
    media: &mut M,
    input: &mut S,
    out: &mut K,
) -> Ending {
    let was_empty = media.len() == 0;
    let end = shell(alloc, media, input, out);
    Ending {
        exit: Exit::Shell(end),
        reason: None,
        made: was_empty && media.len() > 0 && end.status != ShellStatus::MediaMake,
    }
}

/// Plans the tables of the configuration on standard input. No file is opened.
fn plan_told<R: Alloc<A = Global> + Input + Print>(rt: &R, job: PlanJob) -> Ending
    requires { IfSome job.interval (λ seconds. seconds ≤ 1000000) }
{
    let Ok(replies) = ReplyBuffer::new(rt.alloc(), io::writer(rt)) else {
        return Ending::of(Exit::Run(Status::NoMemory));
    };
    let replies = RefCell::new(replies);
    let mut input = StandardInput::new(rt.reader(), &replies);
    let mut out = StandardOutput::new(&replies);
    let ending = plan(rt.alloc(), job, &mut input, &mut out);
    Ending {
        exit: ending.exit.behind(out.hand_out()),
        ..ending
    }
}

/// Runs the script over the image, and tells why it was refused, if it was, and whether the image was made.
fn run_told<M: Media, S: Source + Drop, K: Sink>(
    alloc: Global,
    words: &[String],
    media: &mut M,
    script: S,
    out: &mut K,
) -> Ending {
    let Ok(tail) = Tail::new(alloc) else {
        return Ending::of(Exit::Run(Status::NoMemory));
    };
    let mut script = TailSource::new(script, tail);
    let was_empty = media.len() == 0;
    let status = run(alloc, words, media, &mut script, out);
    Ending {
        exit: Exit::Run(status),
        reason: reason_of(alloc, status, script.tail(), media),
        made: was_empty && media.len() > 0 && status != Status::MediaMake,
    }
}
