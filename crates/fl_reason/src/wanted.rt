// What is wanted at a place of a line.
use crate::form::{PUT, TABLE};
use crate::word::{is_one_of, word_at};
use fl_base::Name;
use std::str;

/// What a word has to be.
#[derive(Clone, Copy)]
pub enum Wanted {
    /// The name of a table.
    Name,
    /// A number from a least to a greatest one.
    Number { least: u64, greatest: u64 },
    /// A number of 64 bits that may have a sign.
    Signed,
    /// The number of a cursor.
    Cursor,
    /// How a column and a value are compared.
    Comparison,
    /// How an operation is torn.
    Cut,
    /// The numbers of columns.
    Columns,
    /// The digits of a blob.
    Blob,
    /// The first word behind those of a table: that for full index entries, or that for a log.
    Ending,
    /// The word for a log.
    Log,
    /// No word: the line has to end before it.
    Nothing,
}

/// A number of 64 bits.
const ANY_NUMBER: Wanted = Wanted::Number {
    least: 0,
    greatest: u64::MAX,
};

impl Wanted {
    /// Whether it is a number: a word that is none is another fault than one of another form.
    pub(crate) fn is_number(self) -> bool {
        matches!(self, Wanted::Number { .. } | Wanted::Signed)
    }

    /// Whether the word is such a one.
    pub(crate) fn fits(self, word: &[u8]) -> bool {
        match self {
            Wanted::Name => Name::of(word).is_some(),
            Wanted::Number { least, greatest } => is_within(word, least, greatest),
            Wanted::Signed => is_signed(word),
            Wanted::Cursor => is_one_of(word, "0 1 2 3"),
            Wanted::Comparison => is_one_of(word, "lt le eq ne ge gt"),
            Wanted::Cut => is_one_of(word, "before after half noise"),
            Wanted::Columns => are_columns(word),
            Wanted::Blob => is_blob(word),
            Wanted::Ending => is_one_of(word, "index2 rlc"),
            Wanted::Log => is_one_of(word, "rlc"),
            Wanted::Nothing => false,
        }
    }
}

/// The number that the word is. It has no sign, and `parse` takes a plus.
fn number(word: &[u8]) -> Option<u64> {
    if word.starts_with(b"+") {
        return None;
    }
    str::from_utf8(word).ok()?.parse().ok()
}

fn is_within(word: &[u8], least: u64, greatest: u64) -> bool {
    match number(word) {
        Some(value) => least <= value && value <= greatest,
        None => false,
    }
}

fn is_signed(word: &[u8]) -> bool {
    if word.starts_with(b"+") {
        return false;
    }
    match str::from_utf8(word) {
        Ok(text) => text.parse::<i64>().is_ok(),
        Err(_) => false,
    }
}

fn are_columns(word: &[u8]) -> bool {
    let mut count: usize = 0;
    let parts = word.split(|byte| *byte == b',');
    for part in parts {
        count = count.saturating_add(1);
        if part.len() > 3 || number(part).is_none() {
            return false;
        }
    }
    count <= 8
}

fn is_blob(word: &[u8]) -> bool {
    word == b"-".as_slice()
        || word.len() % 2 == 0 && word.iter().all(|byte| byte.is_ascii_hexdigit())
}

/// What is wanted at the places of these names, where it is another than any number of 64 bits.
const PLACES: [(&str, Wanted); 8] = [
    ("NAME LEFT RIGHT", Wanted::Name),
    ("CURSOR", Wanted::Cursor),
    ("OP", Wanted::Comparison),
    ("KIND", Wanted::Cut),
    ("LIST", Wanted::Columns),
    ("BASE VALUE [VLOW VHIGH]", Wanted::Signed),
    (
        "COUNT STEP",
        Wanted::Number {
            least: 1,
            greatest: 1_000_000,
        },
    ),
    (
        "N W",
        Wanted::Number {
            least: 1,
            greatest: u64::MAX,
        },
    ),
];

/// What is wanted at a place of this name. Nothing is where there is no place, or one of any word.
fn wanted_of(place: &[u8]) -> Option<Wanted> {
    if place.is_empty() || is_one_of(place, "COLUMNS") {
        return None;
    }
    for (names, wanted) in &PLACES {
        if is_one_of(place, names) {
            return Some(*wanted);
        }
    }
    Some(ANY_NUMBER)
}

/// The words of a table line without those that it may end with.
const TABLE_WORDS: usize = 12;

/// What is wanted of the word of this number, counted from 1, with which a table line may end, behind this one and what that one
/// had to be.
fn wanted_ending(number: usize, before: &[u8], last: Option<Wanted>) -> Wanted {
    if number == TABLE_WORDS + 1 {
        return Wanted::Ending;
    }
    match last {
        Some(Wanted::Ending) if is_one_of(before, "index2") => Wanted::Log,
        Some(Wanted::Ending | Wanted::Log) if is_one_of(before, "rlc") => ANY_NUMBER,
        _ => Wanted::Nothing,
    }
}

/// What is wanted of a word among the values of a put, behind this one: the word `blob` ends them.
fn wanted_value(word: &[u8], before: &[u8]) -> Option<Wanted> {
    if is_one_of(before, "blob") {
        Some(Wanted::Blob)
    } else if is_one_of(word, "blob") {
        None
    } else {
        Some(Wanted::Signed)
    }
}

/// What is wanted of the word of this number, counted from 1, of a line of this form, behind this one and what that one had to be.
pub(crate) fn wanted_at(
    form: &str,
    number: usize,
    word: &[u8],
    before: &[u8],
    last: Option<Wanted>,
) -> Option<Wanted> {
    if number < 2 {
        None
    } else if form == TABLE && number > TABLE_WORDS {
        Some(wanted_ending(number, before, last))
    } else if form == PUT && number > 3 {
        wanted_value(word, before)
    } else {
        wanted_of(word_at(form.as_bytes(), number))
    }
}
