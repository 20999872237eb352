// The line of a row in memory.
ghost use Rattle.std.specs.Prelude.{◌≡◌, ◌+◌, ◌≤◌, [], ◌∷◌, ◌++◌, length, drop};
ghost use Rattle.std.specs.Fmt.{decimal, signed_decimal};
ghost use Rattle.fl_words.specs.Reply as reply;
ghost use Rattle.fl_script.specs.ReplyView.{note_view};

use crate::BlobNote;
use itoa::write_digits;
use std::marker::Model;

/// Room for the longest line of a row: a key, eight values, and the length of a blob take 209 bytes.
const ROW_BYTES: usize = 240;

/// The line of a row. It is written from its end to its beginning, as the digits of a number are, so that none is moved.
#[derive(Drop)]
pub struct RowLine {
    text: [u8; ROW_BYTES],
    start: usize,
}

impl Model for RowLine {
    ghost use Rattle.std.specs.Prelude.{◌≡◌, ◌≤◌, List, ℕ, drop, length};

    ghost Value = { List ℕ };

    ghost view = { λ l. drop l.start l.text };

    ghost invariant = { λ l. (length l.text ≡ 240) × (l.start ≤ 240) };
}

impl RowLine {
    /// An empty line.
    pub fn new() -> RowLine
        ensures { result ≡ [] }
    {
        RowLine {
            text: [0; ROW_BYTES],
            start: ROW_BYTES,
        }
    }

    /// All its bytes.
    #[inline(always)]
    pub fn bytes(&self) -> &[u8]
        ensures all { result.now ≡ self.now }
        ensures short { length result.now ≤ 240 }
    {
        &self.text[self.start..]
    }

    /// Makes it the line of this row.
    #[inline(always)]
    pub fn show(&mut self, key: u64, values: &[i64], note: BlobNote)
        requires { length values.now ≤ 8 }
        ensures { self.new ≡ reply.text (reply.Row key values.now (note_view note)) }
    {
        self.end_with(note);
        let mut left = values;
        while let Some((last, front)) = left.split_last() {
            self.put_value(*last);
            left = front;
        }
        self.put_digits(key);
        self.put(b"row ");
    }

    /// Leaves no bytes in it.
    #[inline(always)]
    fn clear(&mut self)
        ensures { self.new ≡ [] }
    {
        self.start = ROW_BYTES;
    }

    /// The end of the line, behind the values.
    #[inline(always)]
    fn end_with(&mut self, note: BlobNote)
        ensures text { self.new ≡ reply.note_text (note_view note) ++ 10 ∷ [] }
        ensures short { length self.new ≤ 28 }
    {
        self.clear();
        match note {
            BlobNote::NoRing => self.put(b"\n"),
            BlobNote::Nothing => self.put(b" blob none\n"),
            BlobNote::Length(length) => {
                self.put(b"\n");
                self.put_digits(u64::from(length));
                self.put(b" blob ");
            }
        }
    }

    /// A value behind a space.
    #[inline(always)]
    fn put_value(&mut self, value: i64)
        requires { length self.old + 22 ≤ 240 }
        ensures text { self.new ≡ 32 ∷ signed_decimal value ++ self.old }
        ensures short { length self.new ≤ length self.old + 22 }
    {
        self.put_digits(value.unsigned_abs());
        if value < 0 {
            self.put(b" -");
        } else {
            self.put(b" ");
        }
    }

    /// The digits of a number.
    #[inline(always)]
    fn put_digits(&mut self, n: u64)
        requires { length self.old + 20 ≤ 240 }
        ensures text { self.new ≡ decimal n ++ self.old }
        ensures short { length self.new ≤ length self.old + 20 }
    {
        self.start = write_digits(n, &mut self.text, self.start);
    }

    /// A text.
    #[inline(always)]
    fn put(&mut self, text: &[u8])
        requires { length self.old + length text.now ≤ 240 }
        ensures { self.new ≡ text.now ++ self.old }
    {
        let start = self.start - text.len();
        self.text[start..self.start].copy_from_slice(text);
        self.start = start;
    }
}
