// One line of text in memory.
ghost use Rattle.std.specs.Prelude.{◌≡◌, ◌+◌, ◌*◌, ◌≤◌, [], ◌∷◌, ◌++◌, length};
ghost use Rattle.std.specs.List.{flat_map};

use arrayvec::ArrayVec;
use itoa::{Buffer, Integer};
use std::marker::Model;

/// How many bytes a line has room for: the longest is a pair with eight values on each side, of 362 bytes.
pub const LINE_BYTES: usize = 384;

/// The bytes of a line so far.
#[derive(Drop)]
pub struct TextLine {
    text: ArrayVec<u8, LINE_BYTES>,
}

impl Model for TextLine {
    ghost use Rattle.std.specs.Prelude.{List, ℕ};

    ghost Value = { List ℕ };

    ghost view = { λ l. l.text.items };
}

impl TextLine {
    /// An empty line.
    pub fn new() -> TextLine
        ensures { result ≡ [] }
    {
        TextLine {
            text: ArrayVec::new(),
        }
    }

    /// All bytes so far.
    pub fn bytes(&self) -> &[u8]
        ensures { result.now ≡ self.now }
    {
        self.text.as_slice()
    }

    /// A text.
    pub fn add(&mut self, text: &[u8])
        requires { length self.old + length text.now ≤ LINE_BYTES }
        ensures { self.new ≡ self.old ++ text.now }
    {
        self.text.try_extend_from_slice(text).unwrap();
    }

    /// A text and a number behind it, in decimal digits.
    pub fn add_number<I: Integer>(&mut self, text: &[u8], n: I)
        requires { length self.old + length text.now + I.MAX_STR_LEN ≤ LINE_BYTES }
        ensures text { self.new ≡ self.old ++ text.now ++ I.text n }
        ensures short { length self.new ≤ length self.old + length text.now + I.MAX_STR_LEN }
    {
        self.add(text);
        let mut buffer = Buffer::new();
        self.add(buffer.format(n).as_bytes());
    }

    /// Each number behind a space.
    pub fn add_numbers<I: Integer>(&mut self, numbers: &[I])
        requires { length self.old + length numbers.now * (I.MAX_STR_LEN + 1) ≤ LINE_BYTES }
        ensures text { self.new ≡ self.old ++ flat_map (λ n. 32 ∷ I.text n) numbers.now }
        ensures short { length self.new ≤ length self.old + length numbers.now * (I.MAX_STR_LEN + 1) }
    {
        for n in numbers {
            self.add_number(b" ", *n);
        }
    }

    /// A text, a number behind it, and the end of the line.
    pub fn end_with_number<I: Integer>(&mut self, text: &[u8], n: I)
        requires { length self.old + length text.now + I.MAX_STR_LEN + 1 ≤ LINE_BYTES }
        ensures { self.new ≡ self.old ++ text.now ++ I.text n ++ 10 ∷ [] }
    {
        self.add_number(text, n);
        self.add(b"\n");
    }
}
