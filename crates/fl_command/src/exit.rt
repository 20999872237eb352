// How the program ends.
ghost use Rattle.std.specs.Prelude.{◌≡◌, OnOk, OnErr};
ghost use Rattle.fl_command.specs.Number.{number_of, unwritten};

use crate::lines::{
    Forms, JobExplanation, Meaning, PlanExplanation, PlanHeadline, RunExplanation, RunHeadline,
    SalvageHeadline, StatusHeadline,
};
use crate::shell_lines::{ShellExplanation, ShellHeadline};
use crate::ship_lines::{ShipExplanation, ShipHeadline};
use fl_base::SinkFailed;
use fl_ends::{ShellEnd, ShellStatus, Status};
use fl_image::ToolStatus;
use fl_import::JobEnd;
use fl_salvage::SalvageEnd;
use fl_ship::ShipStatus;
use fl_sizing::PlanStatus;
use std::fmt::{self, Display};

/// How the program ends: its status is the number, and standard error has the text.
#[derive(Clone, Copy)]
pub enum Exit {
    /// A run of a script ended so, or its words don't name an image.
    Run(Status),
    /// A shell over an image ended so.
    Shell(ShellEnd),
    /// The plan of a configuration ended so.
    Plan(PlanStatus),
    /// A job over an image ended so.
    Job(JobEnd),
    /// The salvage of a table ended so.
    Salvage(SalvageEnd),
    /// A ship between two images ended so.
    Ship(ShipStatus),
    /// The words name neither a run nor a job, and no file was looked at.
    Words,
    /// The jobs were asked for, and told.
    Help,
    /// Another program uses the image, and nothing was read or changed.
    InUse,
    /// Another program uses the copy of a ship, and nothing was read or changed.
    CopyInUse,
    /// The copy of a ship is the image itself, and nothing was read or changed.
    CopyIsImage,
}

impl Exit {
    /// The number with which the program ends, from 0 to 20.
    pub fn number(self) -> u8
        ensures { result ≡ number_of self }
    {
        match self {
            Exit::Run(status) => status.number(),
            Exit::Shell(end) => end.status.number(),
            Exit::Plan(status) => status.number(),
            Exit::Job(end) => end.status.number(),
            Exit::Salvage(end) => end.status.number(),
            Exit::Ship(status) => status.number(),
            Exit::Words => 1,
            Exit::Help => 0,
            Exit::InUse | Exit::CopyInUse | Exit::CopyIsImage => 20,
        }
    }

    /// This end, if the last of what was written could be handed out; else that of a run or a job whose output can't be written, which
    /// keeps what is told beside its status.
    pub fn behind(self, handed: Result<(), SinkFailed>) -> Exit
        ensures handed { OnOk handed (result ≡ self) }
        ensures failed { OnErr handed (result ≡ unwritten self) }
    {
        match (handed, self) {
            (Ok(()), exit) => exit,
            (Err(_), Exit::Run(_)) => Exit::Run(Status::OutWrite),
            (Err(_), Exit::Shell(end)) => Exit::Shell(ShellEnd {
                status: ShellStatus::OutWrite,
                ..end
            }),
            (Err(_), Exit::Plan(_)) => Exit::Plan(PlanStatus::OutWrite),
            (Err(_), Exit::Job(end)) => Exit::Job(JobEnd {
                status: ToolStatus::OutWrite,
                kept: None,
                ..end
            }),
            (Err(_), Exit::Salvage(end)) => Exit::Salvage(SalvageEnd {
                status: ToolStatus::OutWrite,
                ..end
            }),
            (Err(_), Exit::Ship(_)) => Exit::Ship(ShipStatus::OutWrite),
            (Err(_), Exit::Help) => Exit::Run(Status::OutWrite),
            (Err(_), exit) => exit,
        }
    }
}

/// The line that standard error has of an exit, with its newline; none where nothing is to be said.
#[derive(Drop)]
pub(crate) struct ExitHeadline(pub(crate) Exit);

impl Display for ExitHeadline {
    ghost use Rattle.std.specs.Prelude.{Some};
    ghost use Rattle.fl_command.specs.Text.{exit_headline};

    ghost output = { λ line. Some (exit_headline line.0) };

    fn fmt<W: fmt::Write>(&self, f: &mut fmt::Formatter<W>) -> fmt::Result {
        match self.0 {
            Exit::Run(status) => RunHeadline(status).fmt(f),
            Exit::Shell(end) => ShellHeadline(end).fmt(f),
            Exit::Plan(status) => PlanHeadline(status).fmt(f),
            Exit::Job(JobEnd { status, kept, .. }) => StatusHeadline { status, kept }.fmt(f),
            Exit::Salvage(end) => SalvageHeadline(end).fmt(f),
            Exit::Ship(status) => ShipHeadline(status).fmt(f),
            Exit::Words => RunHeadline(Status::Usage).fmt(f),
            Exit::Help => Ok(()),
            Exit::InUse => f.write_str("flashts: another program uses the image\n"),
            Exit::CopyInUse => f.write_str("flashts: another program uses the copy\n"),
            Exit::CopyIsImage => f.write_str("flashts: the copy is the image itself\n"),
        }
    }
}

/// What stands below it: why, where and what to do, in lines with their newlines; none where there is nothing to explain.
#[derive(Drop)]
struct ExitExplanation(Exit);

impl Display for ExitExplanation {
    ghost use Rattle.std.specs.Prelude.{Some};
    ghost use Rattle.fl_command.specs.Text.{exit_explanation};

    ghost output = { λ lines. Some (exit_explanation lines.0) };

    fn fmt<W: fmt::Write>(&self, f: &mut fmt::Formatter<W>) -> fmt::Result {
        match self.0 {
            Exit::Run(status) => RunExplanation(status).fmt(f),
            Exit::Shell(end) => ShellExplanation(end).fmt(f),
            Exit::Plan(status) => PlanExplanation(status).fmt(f),
            Exit::Job(end) => JobExplanation(end).fmt(f),
            Exit::Salvage(end) => Meaning(end.status).fmt(f),
            Exit::Ship(status) => ShipExplanation(status).fmt(f),
            Exit::Words => Forms.fmt(f),
            Exit::Help => Ok(()),
            Exit::InUse | Exit::CopyInUse => f.write_str(
                "flashts: it is left as it is; call again if that one has ended\n",
            ),
            Exit::CopyIsImage => {
                f.write_str("flashts: it is left as it is; name another file for the copy\n")
            }
        }
    }
}

/// All lines that standard error has of an exit, each with its newline: its headline, and below it the explanation.
impl Display for Exit {
    ghost use Rattle.std.specs.Prelude.{Some};
    ghost use Rattle.fl_command.specs.Text.{exit_text};

    ghost output = { λ exit. Some (exit_text exit) };

    fn fmt<W: fmt::Write>(&self, f: &mut fmt::Formatter<W>) -> fmt::Result {
        ExitHeadline(*self).fmt(f)?;
        ExitExplanation(*self).fmt(f)
    }
}
