// What standard error says of a run, of a job, and of words that name neither: the headline, which is a line of each end that
// failed, and the explanation below it.
use crate::pending_line::PendingLine;
use fl_csv::LineForm;
use fl_ends::Status;
use fl_image::ToolStatus;
use fl_import::{JobEnd, LinesTaken};
use fl_salvage::{PassedOver, SalvageEnd};
use fl_sizing::PlanStatus;
use std::fmt::{self, Display};

/// The line of a run that ended so; where the script was read to its end, the rows that no flush has written, if there are any.
#[derive(Drop)]
pub(crate) struct RunHeadline(pub(crate) Status);

impl Display for RunHeadline {
    ghost use Rattle.std.specs.Prelude.{Some};
    ghost use Rattle.fl_command.specs.Text.{run_headline};

    ghost output = { λ line. Some (run_headline line.0) };

    fn fmt<W: fmt::Write>(&self, f: &mut fmt::Formatter<W>) -> fmt::Result {
        match self.0 {
            Status::Done { pending } => PendingLine(pending).fmt(f),
            Status::Usage => f.write_str("flashts: usage: flashts run IMAGE\n"),
            Status::Line { line } => writeln!(f, "flashts: line {line} is not a command"),
            Status::ScriptRead => f.write_str("flashts: the script cannot be read\n"),
            Status::OutWrite => f.write_str("flashts: the replies cannot be written\n"),
            Status::MediaMake => f.write_str("flashts: the image cannot be made or read\n"),
            Status::Config { line: 0 } => {
                f.write_str("flashts: the configuration is incomplete\n")
            }
            Status::Config { line } => {
                writeln!(f, "flashts: configuration line {line} is refused")
            }
            Status::OtherConfig { .. } => {
                f.write_str("flashts: the image has another configuration\n")
            }
            Status::ScriptLong => {
                f.write_str("flashts: the script is longer than 16777216 bytes\n")
            }
            Status::NoMemory => f.write_str("flashts: no memory\n"),
        }
    }
}

/// What stands below it: the other form of a run, and what a configuration begins with.
#[derive(Drop)]
pub(crate) struct RunExplanation(pub(crate) Status);

impl Display for RunExplanation {
    ghost use Rattle.std.specs.Prelude.{Some};
    ghost use Rattle.fl_command.specs.Text.{run_explanation};

    ghost output = { λ lines. Some (run_explanation lines.0) };

    fn fmt<W: fmt::Write>(&self, f: &mut fmt::Formatter<W>) -> fmt::Result {
        match self.0 {
            Status::Usage => f.write_str("                flashts run sync IMAGE\n"),
            Status::Config { line: 0 } => f.write_str(
                "flashts: a script begins with a device line and one to four table lines\n",
            ),
            _ => Ok(()),
        }
    }
}

/// The line of a plan that ended so: the words of the same statuses of a run.
#[derive(Drop)]
pub(crate) struct PlanHeadline(pub(crate) PlanStatus);

impl Display for PlanHeadline {
    ghost use Rattle.std.specs.Prelude.{Some};
    ghost use Rattle.fl_command.specs.Text.{plan_headline};

    ghost output = { λ line. Some (plan_headline line.0) };

    fn fmt<W: fmt::Write>(&self, f: &mut fmt::Formatter<W>) -> fmt::Result {
        match self.0 {
            PlanStatus::Done => Ok(()),
            PlanStatus::Line { line } => RunHeadline(Status::Line { line }).fmt(f),
            PlanStatus::Config { line } => RunHeadline(Status::Config { line }).fmt(f),
            PlanStatus::InputRead => RunHeadline(Status::ScriptRead).fmt(f),
            PlanStatus::OutWrite => RunHeadline(Status::OutWrite).fmt(f),
            PlanStatus::InputLong => f.write_str(
                "flashts: the text is longer than 65536 bytes: the first lines of a script are enough\n",
            ),
            PlanStatus::NoMemory => RunHeadline(Status::NoMemory).fmt(f),
        }
    }
}

/// What stands below it: that of a run with the same status.
#[derive(Drop)]
pub(crate) struct PlanExplanation(pub(crate) PlanStatus);

impl Display for PlanExplanation {
    ghost use Rattle.std.specs.Prelude.{Some};
    ghost use Rattle.fl_command.specs.Text.{plan_explanation};

    ghost output = { λ lines. Some (plan_explanation lines.0) };

    fn fmt<W: fmt::Write>(&self, f: &mut fmt::Formatter<W>) -> fmt::Result {
        match self.0 {
            PlanStatus::Config { line } => RunExplanation(Status::Config { line }).fmt(f),
            _ => Ok(()),
        }
    }
}

/// The line of a job's status; an import that is done tells how many rows its table holds.
#[derive(Drop)]
pub(crate) struct StatusHeadline {
    pub(crate) status: ToolStatus,
    pub(crate) kept: Option<u64>,
}

impl Display for StatusHeadline {
    ghost use Rattle.std.specs.Prelude.{Some};
    ghost use Rattle.fl_command.specs.Text.{status_headline};

    ghost output = { λ line. Some (status_headline line.status line.kept) };

    fn fmt<W: fmt::Write>(&self, f: &mut fmt::Formatter<W>) -> fmt::Result {
        let status = self.status;
        match status {
            ToolStatus::Done => match self.kept {
                Some(rows) => writeln!(f, "flashts: the table holds {rows} rows"),
                None => Ok(()),
            },
            // The words of the same statuses of a run.
            ToolStatus::InputRead => RunHeadline(Status::ScriptRead).fmt(f),
            ToolStatus::OutWrite => RunHeadline(Status::OutWrite).fmt(f),
            ToolStatus::InputLong => RunHeadline(Status::ScriptLong).fmt(f),
            ToolStatus::NoMemory => RunHeadline(Status::NoMemory).fmt(f),
            ToolStatus::NotImage
            | ToolStatus::Device
            | ToolStatus::BadImage { .. }
            | ToolStatus::NoTable
            | ToolStatus::BadInput { .. }
            | ToolStatus::Unsound => {
                let number = status.number();
                writeln!(f, "flashts: status {number}")
            }
        }
    }
}

/// What a status means that has a number alone, and what to do, in a line; none for the others.
#[derive(Drop)]
pub(crate) struct Meaning(pub(crate) ToolStatus);

impl Display for Meaning {
    ghost use Rattle.std.specs.Prelude.{Some};
    ghost use Rattle.fl_command.specs.Text.{meaning_text};

    ghost output = { λ meaning. Some (meaning_text meaning.0) };

    fn fmt<W: fmt::Write>(&self, f: &mut fmt::Formatter<W>) -> fmt::Result {
        match self.0 {
            ToolStatus::NotImage => f.write_str(
                "flashts: the file is no image, is missing, or can't be opened: look at its name and its rights\n",
            ),
            ToolStatus::Device => f.write_str(
                "flashts: the image can't be read or written: look for room and for its rights, and call again\n",
            ),
            ToolStatus::BadImage { table } => writeln!(
                f,
                "flashts: no run has left what the pages of table {table}, counted from 0, have: flashts check IMAGE all tells which"
            ),
            ToolStatus::NoTable => f.write_str(
                "flashts: no table has this name: flashts check IMAGE all tells the names\n",
            ),
            ToolStatus::BadInput { line } => writeln!(
                f,
                "flashts: line {line} of the input has more than 4096 bytes, or is the first and not the one that an export begins with"
            ),
            ToolStatus::Unsound => f.write_str(
                "flashts: a table isn't sound: each line that begins with fault says which, in which ring and page, and the rule (docs/CHECK.md)\n",
            ),
            ToolStatus::Done
            | ToolStatus::InputRead
            | ToolStatus::OutWrite
            | ToolStatus::InputLong
            | ToolStatus::NoMemory => Ok(()),
        }
    }
}

/// What the first line of an import has to be, where it isn't that.
#[derive(Drop)]
struct FirstLine {
    status: ToolStatus,
    form: Option<LineForm>,
}

impl Display for FirstLine {
    ghost use Rattle.std.specs.Prelude.{Some};
    ghost use Rattle.fl_command.specs.Text.{first_text};

    ghost output = { λ first. Some (first_text first.status first.form) };

    fn fmt<W: fmt::Write>(&self, f: &mut fmt::Formatter<W>) -> fmt::Result {
        match self.status {
            ToolStatus::BadInput { line: 1 } => Names(self.form).fmt(f),
            _ => Ok(()),
        }
    }
}

/// The names that a first line has to be, if they are known.
#[derive(Drop)]
struct Names(Option<LineForm>);

impl Display for Names {
    ghost use Rattle.std.specs.Prelude.{Some};
    ghost use Rattle.fl_command.specs.Text.{names_text};

    ghost output = { λ names. Some (names_text names.0) };

    fn fmt<W: fmt::Write>(&self, f: &mut fmt::Formatter<W>) -> fmt::Result {
        match self.0 {
            Some(
                LineForm {
                    columns,
                    blobs: true,
                },
            ) => writeln!(
                f,
                "flashts: the first line has to be key, c1 to c{columns} and blob, joined by commas"
            ),
            Some(
                LineForm {
                    columns,
                    blobs: false,
                },
            ) => writeln!(
                f,
                "flashts: the first line has to be key and c1 to c{columns}, joined by commas"
            ),
            None => Ok(()),
        }
    }
}

/// What stands below the line of a job that ended so: what its status means and, of an import that ended early, what its first line
/// has to be and how far it came.
#[derive(Drop)]
pub(crate) struct JobExplanation(pub(crate) JobEnd);

impl Display for JobExplanation {
    ghost use Rattle.std.specs.Prelude.{Some};
    ghost use Rattle.fl_command.specs.Text.{job_explanation};

    ghost output = { λ lines. Some (job_explanation lines.0) };

    fn fmt<W: fmt::Write>(&self, f: &mut fmt::Formatter<W>) -> fmt::Result {
        let JobEnd {
            status,
            taken,
            form,
            ..
        } = self.0;
        Meaning(status).fmt(f)?;
        FirstLine { status, form }.fmt(f)?;
        TakenLines { status, taken }.fmt(f)
    }
}

/// How far the lines of an import were taken that ended early.
#[derive(Drop)]
struct TakenLines {
    status: ToolStatus,
    taken: LinesTaken,
}

impl Display for TakenLines {
    ghost use Rattle.std.specs.Prelude.{Some};
    ghost use Rattle.fl_command.specs.Text.{taken_text};

    ghost output = { λ lines. Some (taken_text lines.status lines.taken) };

    fn fmt<W: fmt::Write>(&self, f: &mut fmt::Formatter<W>) -> fmt::Result {
        let LinesTaken { line, rows, .. } = self.taken;
        if self.status == ToolStatus::Done || line == 0 {
            return Ok(());
        }
        writeln!(
            f,
            "flashts: {rows} rows were put, and line {line} was the last one that was taken"
        )
    }
}

/// The line of a salvage that ended so; one that is done tells how many pages it passed over, and why.
#[derive(Drop)]
pub(crate) struct SalvageHeadline(pub(crate) SalvageEnd);

impl Display for SalvageHeadline {
    ghost use Rattle.std.specs.Prelude.{Some};
    ghost use Rattle.fl_command.specs.Text.{salvage_headline};

    ghost output = { λ line. Some (salvage_headline line.0) };

    fn fmt<W: fmt::Write>(&self, f: &mut fmt::Formatter<W>) -> fmt::Result {
        let SalvageEnd {
            status,
            passed_over,
        } = self.0;
        match status {
            ToolStatus::Done => PassedLine(passed_over).fmt(f),
            _ => StatusHeadline { status, kept: None }.fmt(f),
        }
    }
}

/// How many pages a salvage passed over, by the reason.
#[derive(Drop)]
struct PassedLine(PassedOver);

impl Display for PassedLine {
    ghost use Rattle.std.specs.Prelude.{Some};
    ghost use Rattle.fl_command.specs.Text.{passed_text};

    ghost output = { λ line. Some (passed_text line.0) };

    fn fmt<W: fmt::Write>(&self, f: &mut fmt::Formatter<W>) -> fmt::Result {
        let PassedOver {
            missing,
            torn,
            void,
            misplaced,
            unformed,
        } = self.0;
        write!(
            f,
            "flashts: pages passed over: missing {missing}, torn {torn}, void {void}"
        )?;
        writeln!(f, ", misplaced {misplaced}, unformed {unformed}")
    }
}

/// The forms of the command line below that of a run, a line each.
#[derive(Drop)]
pub(crate) struct Forms;

impl Display for Forms {
    ghost use Rattle.std.specs.Prelude.{Some};
    ghost use Rattle.fl_command.specs.Text.{forms_text};

    ghost output = { λ _. Some forms_text };

    fn fmt<W: fmt::Write>(&self, f: &mut fmt::Formatter<W>) -> fmt::Result {
        RunExplanation(Status::Usage).fmt(f)?;
        f.write_str(
            "                flashts shell IMAGE\n                flashts shell sync IMAGE\n",
        )?;
        f.write_str(
            "                flashts plan [SECONDS]\n                flashts check IMAGE [all]\n",
        )?;
        f.write_str(
            "                flashts map IMAGE [svg]\n                flashts export IMAGE NAME [LOW HIGH]\n",
        )?;
        f.write_str(
            "                flashts import IMAGE NAME [gone]\n                flashts salvage IMAGE NAME\n",
        )?;
        f.write_str(
            "                flashts ship IMAGE COPY NAME COUNT\n                flashts help\n",
        )
    }
}
