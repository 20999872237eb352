// What standard error says of a shell: the headline, and the explanation below it.
use crate::lines::{Meaning, RunExplanation, RunHeadline, StatusHeadline};
use fl_ends::{Flushed, ShellEnd, ShellStatus, Status};
use fl_image::ToolStatus;
use std::fmt::{self, Display};

/// The line of a shell that ended so; where all went well, how many rows were flushed at its end, if any were pending.
#[derive(Drop)]
pub(crate) struct ShellHeadline(pub(crate) ShellEnd);

impl Display for ShellHeadline {
    ghost use Rattle.std.specs.Prelude.{Some};
    ghost use Rattle.fl_command.specs.Text.{shell_headline};

    ghost output = { λ line. Some (shell_headline line.0) };

    fn fmt<W: fmt::Write>(&self, f: &mut fmt::Formatter<W>) -> fmt::Result {
        let ShellEnd { status, flushed } = self.0;
        match status {
            ShellStatus::Done => FlushedLine(flushed).fmt(f),
            // The words of the same statuses of a run, and of a job.
            ShellStatus::InputRead => RunHeadline(Status::ScriptRead).fmt(f),
            ShellStatus::OutWrite => RunHeadline(Status::OutWrite).fmt(f),
            ShellStatus::MediaMake => RunHeadline(Status::MediaMake).fmt(f),
            ShellStatus::Unconfigured => RunHeadline(Status::Config { line: 0 }).fmt(f),
            ShellStatus::NoMemory => RunHeadline(Status::NoMemory).fmt(f),
            ShellStatus::NotImage => StatusHeadline {
                status: ToolStatus::NotImage,
                kept: None,
            }
            .fmt(f),
            ShellStatus::InputLong => {
                f.write_str("flashts: the input is longer than 17592186044416 bytes\n")
            }
            ShellStatus::Unflushed => f.write_str("flashts: the last flush failed\n"),
        }
    }
}

/// What stands below it: what its status means, and what became of the rows that were pending.
#[derive(Drop)]
pub(crate) struct ShellExplanation(pub(crate) ShellEnd);

impl Display for ShellExplanation {
    ghost use Rattle.std.specs.Prelude.{Some};
    ghost use Rattle.fl_command.specs.Text.{shell_explanation};

    ghost output = { λ lines. Some (shell_explanation lines.0) };

    fn fmt<W: fmt::Write>(&self, f: &mut fmt::Formatter<W>) -> fmt::Result {
        let ShellEnd { status, flushed } = self.0;
        match status {
            ShellStatus::Done => Ok(()),
            ShellStatus::Unconfigured => {
                RunExplanation(Status::Config { line: 0 }).fmt(f)?;
                FlushedLine(flushed).fmt(f)
            }
            ShellStatus::NotImage => {
                Meaning(ToolStatus::NotImage).fmt(f)?;
                FlushedLine(flushed).fmt(f)
            }
            _ => FlushedLine(flushed).fmt(f),
        }
    }
}

/// What became of the rows that were pending, where some were.
#[derive(Drop)]
struct FlushedLine(Flushed);

impl Display for FlushedLine {
    ghost use Rattle.std.specs.Prelude.{Some};
    ghost use Rattle.fl_command.specs.Text.{flushed_text};

    ghost output = { λ line. Some (flushed_text line.0) };

    fn fmt<W: fmt::Write>(&self, f: &mut fmt::Formatter<W>) -> fmt::Result {
        match self.0 {
            Flushed { pending: 0, .. } => Ok(()),
            Flushed { pending, all: true } => {
                writeln!(f, "flashts: pending rows flushed: {pending}")
            }
            Flushed {
                pending,
                all: false,
            } => writeln!(
                f,
                "flashts: of the pending rows, {pending}, some may be lost: scan tells which are there"
            ),
        }
    }
}
