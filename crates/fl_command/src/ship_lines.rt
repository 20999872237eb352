// What standard error says of a ship: the headline, and the explanation below it.
use crate::lines::{Meaning, RunHeadline};
use fl_ends::Status;
use fl_image::ToolStatus;
use fl_ship::{ShipStatus, Side};
use std::fmt::{self, Display};

/// The line of a ship that ended so; none where it is done.
#[derive(Drop)]
pub(crate) struct ShipHeadline(pub(crate) ShipStatus);

impl Display for ShipHeadline {
    ghost use Rattle.std.specs.Prelude.{Some};
    ghost use Rattle.fl_command.specs.Text.{ship_headline};

    ghost output = { λ line. Some (ship_headline line.0) };

    fn fmt<W: fmt::Write>(&self, f: &mut fmt::Formatter<W>) -> fmt::Result {
        let status = self.0;
        match status {
            ShipStatus::Done { .. } => Ok(()),
            // The words of the same statuses of a run.
            ShipStatus::OutWrite => RunHeadline(Status::OutWrite).fmt(f),
            ShipStatus::NoMemory => RunHeadline(Status::NoMemory).fmt(f),
            ShipStatus::NotImage { .. }
            | ShipStatus::Device { .. }
            | ShipStatus::BadImage { .. }
            | ShipStatus::NoTable
            | ShipStatus::Gap { .. }
            | ShipStatus::OtherForm
            | ShipStatus::Spent => {
                let number = status.number();
                writeln!(f, "flashts: status {number}")
            }
        }
    }
}

/// What stands below it: what became of the copy, or what a status means that has a number alone, on which side, and what to do.
#[derive(Drop)]
pub(crate) struct ShipExplanation(pub(crate) ShipStatus);

impl Display for ShipExplanation {
    ghost use Rattle.std.specs.Prelude.{Some};
    ghost use Rattle.fl_command.specs.Text.{ship_explanation};

    ghost output = { λ lines. Some (ship_explanation lines.0) };

    fn fmt<W: fmt::Write>(&self, f: &mut fmt::Formatter<W>) -> fmt::Result {
        match self.0 {
            ShipStatus::OutWrite => f.write_str(
                "flashts: what was shipped is in the copy: call again to ship what is left\n",
            ),
            ShipStatus::NotImage { side: Side::Source } => f.write_str(
                "flashts: the first file is no image, is missing, or can't be opened: look at its name and its rights\n",
            ),
            ShipStatus::NotImage { side: Side::Copy } => f.write_str(
                "flashts: the copy is neither empty nor an image of the same configuration: name another file, or remove it if its making failed\n",
            ),
            ShipStatus::Device { side: Side::Source } => f.write_str(
                "flashts: the image can't be read or repaired: look for room and for its rights, and call again\n",
            ),
            ShipStatus::Device { side: Side::Copy } => f.write_str(
                "flashts: the copy can't be made, read or written: look at its name, for room and for its rights, and call again\n",
            ),
            ShipStatus::BadImage {
                side: Side::Source,
                table,
            } => writeln!(
                f,
                "flashts: no run has left what the pages of table {table} of the image, counted from 0, have: flashts check IMAGE all tells which"
            ),
            ShipStatus::BadImage {
                side: Side::Copy,
                table,
            } => writeln!(
                f,
                "flashts: no run has left what the pages of table {table} of the copy, counted from 0, have: flashts check COPY all tells which"
            ),
            ShipStatus::NoTable => Meaning(ToolStatus::NoTable).fmt(f),
            ShipStatus::Gap { last, oldest } => {
                GapLine { last, oldest }.fmt(f)?;
                f.write_str(
                    "flashts: records between were reclaimed, or the copy is of another image: keep it, and begin a new one\n",
                )
            }
            ShipStatus::OtherForm => f.write_str(
                "flashts: a table with variable data or a log isn't shipped: export it and import it\n",
            ),
            ShipStatus::Spent => f.write_str(
                "flashts: the copy's table has no page number left: keep this copy, and begin a new one\n",
            ),
            ShipStatus::Done { .. } | ShipStatus::NoMemory => Ok(()),
        }
    }
}

/// The keys of a gap.
#[derive(Drop)]
struct GapLine {
    last: u64,
    oldest: u64,
}

impl Display for GapLine {
    ghost use Rattle.std.specs.Prelude.{Some};
    ghost use Rattle.fl_command.specs.Text.{gap_text};

    ghost output = { λ gap. Some (gap_text gap.last gap.oldest) };

    fn fmt<W: fmt::Write>(&self, f: &mut fmt::Formatter<W>) -> fmt::Result {
        let last = self.last;
        let oldest = self.oldest;
        writeln!(
            f,
            "flashts: the image has no record with the copy's last key {last}, its first one is {oldest}"
        )
    }
}
