// Words as they are told, and the words of a line.
use std::fmt::{self, Display};
use std::str;

/// The bytes of a word that are told.
const MOST: usize = 24;

/// A word as it is told: its first 24 bytes, with a dot for each byte that isn't printed, and two dots for those behind.
#[derive(Clone, Copy)]
pub struct Word {
    bytes: [u8; MOST],
    len: usize,
}

impl Word {
    /// The word as it is told.
    pub fn of(word: &[u8]) -> Word {
        let mut bytes = [b'.'; MOST];
        for (at, byte) in word.iter().enumerate() {
            if at >= MOST {
                break;
            }
            if byte.is_ascii_graphic() {
                bytes[at] = *byte;
            }
        }
        Word {
            bytes,
            len: word.len(),
        }
    }

    /// Its bytes as they are told.
    pub(crate) fn bytes(&self) -> &[u8] {
        &self.bytes[..self.len.min(MOST)]
    }
}

impl Display for Word {
    fn fmt<W: fmt::Write>(&self, f: &mut fmt::Formatter<W>) -> fmt::Result {
        let text = if self.len == 0 {
            "nothing"
        } else {
            str::from_utf8(self.bytes()).unwrap_or("..")
        };
        f.write_str(text)?;
        f.write_str(if self.len > MOST { ".." } else { "" })
    }
}

/// A line without the carriage return at its end.
pub(crate) fn without_return(line: &[u8]) -> &[u8] {
    match line.split_last() {
        Some((b'\r', front)) => front,
        _ => line,
    }
}

/// How many words the line has.
pub(crate) fn count_words(line: &[u8]) -> usize {
    let mut count: usize = 0;
    let words = line.split(|byte| *byte == b' ');
    for word in words {
        if !word.is_empty() {
            count = count.saturating_add(1);
        }
    }
    count
}

/// The word of this number, counted from 1; empty where the line has fewer.
pub(crate) fn word_at(line: &[u8], number: usize) -> &[u8] {
    let mut at: usize = 0;
    let words = line.split(|byte| *byte == b' ');
    for word in words {
        if !word.is_empty() {
            at = at.saturating_add(1);
            if at == number {
                return word;
            }
        }
    }
    b""
}

/// Whether the word, which isn't empty, is one of these, which spaces divide.
pub(crate) fn is_one_of(word: &[u8], words: &str) -> bool {
    let words = words.as_bytes().split(|byte| *byte == b' ');
    for one in words {
        if one == word {
            return true;
        }
    }
    false
}
