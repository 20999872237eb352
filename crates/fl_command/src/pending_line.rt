// What standard error says of the rows that no flush has written.
ghost use Rattle.std.specs.Prelude.{◌≡◌};
ghost use Rattle.fl_command.specs.Text.{behind};

use fl_base::Name;
use fl_ends::{PendingRows, TableRows};
use std::fmt::{self, Display};
use std::str;

/// The rows that no flush has written, in a line; none where all are written.
#[derive(Drop)]
pub(crate) struct PendingLine(pub(crate) PendingRows);

impl Display for PendingLine {
    ghost use Rattle.std.specs.Prelude.{Some};
    ghost use Rattle.fl_command.specs.Text.{pending_text};

    ghost output = { λ line. Some (pending_text line.0.tables) };

    fn fmt<W: fmt::Write>(&self, f: &mut fmt::Formatter<W>) -> fmt::Result {
        if !self.0.is_any() {
            return Ok(());
        }
        let [first, second, third, fourth] = &self.0.tables;
        f.write_str("flashts: rows that no flush has written: ")?;
        TableText("", *first).fmt(f)?;
        let before = behind("", *first);
        TableText(before, *second).fmt(f)?;
        let before = behind(before, *second);
        TableText(before, *third).fmt(f)?;
        TableText(behind(before, *third), *fourth).fmt(f)?;
        f.write_str("\n")
    }
}

/// What stands before the table behind this one.
fn behind(before: &'static str, table: Option<TableRows>) -> &'static str
    ensures { result.now ≡ behind before.now table }
{
    match table {
        Some(_) => ", ",
        None => before,
    }
}

/// A table and how many of its rows are pending, behind these words; nothing where there is no table.
#[derive(Drop)]
struct TableText(&'static str, Option<TableRows>);

impl Display for TableText {
    ghost use Rattle.std.specs.Prelude.{Some};
    ghost use Rattle.fl_command.specs.Text.{table_text};

    ghost output = { λ text. Some (table_text text.0.now text.1) };

    fn fmt<W: fmt::Write>(&self, f: &mut fmt::Formatter<W>) -> fmt::Result {
        let before = self.0;
        match &self.1 {
            Some(TableRows { name, rows }) => {
                let name = text_of(name);
                write!(f, "{before}{name} {rows}")
            }
            None => Ok(()),
        }
    }
}

/// A name as text.
fn text_of(name: &Name) -> &str
    ensures { result.now ≡ name.now }
{
    match str::from_utf8(name.bytes()) {
        Ok(text) => text,
        // no name is so
        Err(_) => "",
    }
}
