// Why a line is no command.
ghost use Rattle.std.specs.Prelude.{◌≡◌, ℕ, List};
ghost use Rattle.fl_words.specs.Grammar.{command_of};
ghost use Rattle.fl_script.specs.CommandView.{command_view};
ghost use Rattle.fl_reason.specs.Reason.{Explains, configures};

use crate::form::form_of;
use crate::wanted::{Wanted, wanted_at};
use crate::word::{Word, count_words, without_return, word_at};
use fl_script::{Command, LineFault, LineRoom, read_line};

/// Why a line is no command.
#[derive(Clone, Copy)]
pub enum LineReason {
    /// It has more than 4,096 bytes.
    TooLong,
    /// No command has the name with which it begins.
    Unknown { word: Word },
    /// It has too few words or too many, or one isn't of its form.
    Form(Shape),
    /// A word in the place of a number is none, or is out of its range.
    Number(Shape),
    /// It is a line of the configuration, and stands behind a command.
    Late,
}

/// The words of a line beside the form that is wanted.
#[derive(Clone, Copy)]
pub struct Shape {
    /// How many words it has.
    pub words: usize,
    /// The word with which it begins: that of a command.
    pub command: Word,
    /// The first word that is the fault, where one is.
    pub misfit: Option<Misfit>,
}

/// A word that isn't what is wanted in its place.
#[derive(Clone, Copy)]
pub struct Misfit {
    /// Its number, counted from 1.
    pub number: usize,
    /// The word.
    pub word: Word,
    /// What is wanted.
    pub wanted: Wanted,
}

/// The first word that isn't what is wanted in its place, of those that have to be numbers, or of the others.
fn misfit_of(line: &[u8], form: &str, are_numbers: bool) -> Option<Misfit> {
    let mut number: usize = 0;
    let mut before = b"".as_slice();
    let mut last = None;
    let words = line.split(|byte| *byte == b' ');
    for word in words {
        if word.is_empty() {
            continue;
        }
        number = number.saturating_add(1);
        last = wanted_at(form, number, word, before, last);
        if let Some(wanted) = last {
            if wanted.is_number() == are_numbers && !wanted.fits(word) {
                return Some(Misfit {
                    number,
                    word: Word::of(word),
                    wanted,
                });
            }
        }
        before = word;
    }
    None
}

fn shape_of(line: &[u8], are_numbers: bool) -> Shape {
    let command = word_at(line, 1);
    let form = form_of(command).unwrap_or("");
    Shape {
        words: count_words(line),
        command: Word::of(command),
        misfit: misfit_of(line, form, are_numbers),
    }
}

fn configures(command: &Command) -> bool
    ensures { (room : List ℕ) → result ≡ configures (command_view command.now room) }
{
    matches!(command, Command::Device { .. } | Command::Table { .. })
}

/// Why the line is no command of a script behind its configuration: its fault is that of the grammar. None for a command.
pub fn line_reason(line: &[u8], room: &mut LineRoom) -> Option<LineReason>
    ensures { Explains (command_of line.now) result }
{
    let read = read_line(line, room);
    let line = without_return(line);
    match read {
        Ok(command) if configures(&command) => Some(LineReason::Late),
        Ok(_) => None,
        Err(LineFault::TooLong) => Some(LineReason::TooLong),
        Err(LineFault::Unknown) => Some(LineReason::Unknown {
            word: Word::of(word_at(line, 1)),
        }),
        Err(LineFault::Form) => Some(LineReason::Form(shape_of(line, false))),
        Err(LineFault::Number) => Some(LineReason::Number(shape_of(line, true))),
    }
}
