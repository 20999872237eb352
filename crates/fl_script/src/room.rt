// The bytes of a line that its command doesn't hold itself.
ghost use Rattle.std.specs.Prelude.{◌≡◌, ◌≤◌, [], length, take, IfOk, MatchResult, Some, None};
ghost use Rattle.fl_words.specs.Grammar as grammar;

use crate::LineFault;
use crate::hexadecimal::decode_pairs;
use crate::read::LINE_BYTES;
use crate::word::is;
use fl_base::NoMemory;
use std::alloc::Global;
use std::marker::Model;

/// Room for the blob of a put or the column types of a table line.
#[derive(Drop)]
pub struct LineRoom {
    buf: Vec<u8>,
    len: usize,
}

impl Model for LineRoom {
    ghost use Rattle.std.specs.Prelude.{◌≡◌, ◌≤◌, List, ℕ, take, vec_len};

    ghost Value = { List ℕ };

    ghost view = { λ r. take r.len r.buf.items };

    ghost invariant = { λ r. (vec_len r.buf ≡ 4096) × (r.len ≤ 4096) };
}

/// Writes the bytes to the front of the room.
fn fill_front(room: &mut [u8], bytes: &[u8])
    requires { length bytes.now ≤ length room.old }
    ensures { take (length bytes.now) room.new ≡ bytes.now }
{
    room[..bytes.len()].copy_from_slice(bytes);
}

/// Writes the bytes that a blob word is to the front of the room, and tells how many.
fn decode_front(word: &[u8], room: &mut [u8]) -> Result<usize, LineFault>
    requires { length word.now ≤ length room.old }
    ensures { MatchResult result
        (λ count. (grammar.blob_word word.now ≡ Some (take count room.new)) × (count ≤ length room.new))
        (λ e. (grammar.blob_word word.now ≡ None) × (e ≡ LineFault.Form)) }
{
    if is(word, b"-") {
        return Ok(0);
    }
    let count = word.len() / 2;
    if count == 0 || word.len() % 2 != 0 {
        return Err(LineFault::Form);
    }
    if decode_pairs(word, &mut room[..count]) {
        Ok(count)
    } else {
        Err(LineFault::Form)
    }
}

impl LineRoom {
    /// An empty room of 4,096 bytes.
    pub fn new(alloc: Global) -> Result<LineRoom, NoMemory>
        ensures { IfOk result (λ room. room ≡ []) }
    {
        let buf = Vec::from_elem(alloc, 0, LINE_BYTES)?;
        Ok(LineRoom { buf, len: 0 })
    }

    /// Leaves no bytes here.
    pub(crate) fn clear(&mut self)
        ensures { self.new ≡ [] }
    {
        self.len = 0;
    }

    /// Leaves a copy of the bytes here.
    pub(crate) fn copy(&mut self, bytes: &[u8])
        requires { length bytes.now ≤ 4096 }
        ensures { self.new ≡ bytes.now }
    {
        fill_front(&mut self.buf, bytes);
        self.len = bytes.len();
    }

    /// Leaves the bytes here that a blob word is, and none where it isn't one.
    pub(crate) fn decode(&mut self, word: &[u8]) -> Result<(), LineFault>
        requires { length word.now ≤ 4096 }
        ensures { MatchResult result (λ _. grammar.blob_word word.now ≡ Some self.new) (λ e. (grammar.blob_word word.now ≡ None) × (e ≡ LineFault.Form) × (self.new ≡ [])) }
    {
        self.len = 0;
        self.len = decode_front(word, &mut self.buf)?;
        Ok(())
    }

    /// The bytes that the last line left here: the blob of a put, the column types of a table line, else none.
    pub fn bytes(&self) -> &[u8]
        ensures { result.now ≡ self.now }
    {
        &self.buf[..self.len]
    }
}
