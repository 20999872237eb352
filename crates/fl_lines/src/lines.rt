// The lines of a text, as its source gives them.
ghost use Rattle.std.specs.Prelude.{◌≡◌, ℕ, ◌+◌, ◌-◌, ◌^◌, ◌<◌, ◌≤◌, Bool, true, false, ◌==◌, List, [], ◌∷◌, ◌++◌, length, take, drop, Option, Some, Ok, All, MatchOption, IfOk, slice_get};
ghost use Rattle.std.specs.Bool.{OnTrue, OnFalse};
ghost use Rattle.fl_base.specs.Causes.{HasCause};
ghost use Rattle.fl_lines.specs.Stream.{LinesState, IsOneLine, NeedsNoMore, Advances, Fills, LeavesRest, after_line, after_rest};

use fl_base::{NoMemory, Source, SourceFailed};
use memchr::memchr;
use std::alloc::Global;
use std::marker::Model;

/// One byte more than a line has.
const ROOM: usize = 4097;

/// The bytes of a text that are read.
const MOST: usize = 16_777_216;

/// Why no line is given.
#[derive(Clone, Copy, Debug, PartialEq, Eq)]
pub enum LinesFault {
    /// The source failed.
    Failed,
    /// The text has more bytes than are read.
    Long,
}

/// The lines of a text, read one by one into room for one of them. What is taken from the source ahead of them
/// has room there too.
#[derive(Drop)]
pub struct Lines {
    buf: Vec<u8>,
    line_from: usize,
    line_to: usize,
    from: usize,
    to: usize,
    most: usize,
    closed: bool,
}

impl Model for Lines {
    ghost use Rattle.std.specs.Prelude.{◌≡◌, ◌≤◌, ◌-◌, slice_range, vec_len};
    ghost use Rattle.fl_lines.specs.Stream.{LinesState};

    ghost Value = { LinesState };

    ghost view = { λ s. record { line = slice_range s.buf.items s.line_from s.line_to; ahead = slice_range s.buf.items s.from s.to; most = s.most; closed = s.closed } };

    ghost invariant = { λ s. (vec_len s.buf ≡ 4097) × (s.line_from ≤ s.line_to) × (s.line_to ≤ 4097) × (s.from ≤ s.to) × (s.to ≤ 4097) × (s.to - s.from ≤ s.most) };
}

// The place of the first newline.
fn newline_in(bytes: &[u8]) -> Option<usize>
    ensures { MatchOption result (IsOneLine bytes.now) (λ i. (i < length bytes.now) × (slice_get bytes.now i ≡ Some 10) × IsOneLine (take i bytes.now)) }
{
    memchr(b'\n', bytes)
}

impl Lines {
    /// The lines of a text of which none was given yet.
    pub fn new(alloc: Global) -> Result<Lines, NoMemory>
        ensures { IfOk result (λ lines. lines ≡ record { line = []; ahead = []; most = 2 ^ 24; closed = false }) }
    {
        Lines::of_most(alloc, MOST)
    }

    /// The same of a text of which at most so many bytes are read.
    pub fn of_most(alloc: Global, most: usize) -> Result<Lines, NoMemory>
        ensures { IfOk result (λ lines. lines ≡ record { line = []; ahead = []; most = most; closed = false }) }
    {
        Ok(Lines {
            buf: vec![in alloc; 0; ROOM]?,
            line_from: 0,
            line_to: 0,
            from: 0,
            to: 0,
            most,
            closed: false,
        })
    }

    /// The line that was given last, without its newline.
    pub fn line(&self) -> &[u8]
        ensures { result.now ≡ self.now.line }
    {
        &self.buf[self.line_from..self.line_to]
    }

    fn ahead(&self) -> &[u8]
        ensures value { result.now ≡ self.now.ahead }
        ensures room { length result.now ≤ 4097 }
        ensures few { length result.now ≤ self.now.most }
    {
        &self.buf[self.from..self.to]
    }

    // Gives the first bytes that are ahead as a line; a newline follows them.
    fn give_line(&mut self, len: usize)
        requires { len < length self.old.ahead }
        ensures { self.new ≡ after_line len self.old }
    {
        self.line_from = self.from;
        self.line_to = self.from + len;
        self.from += len + 1;
        self.most -= len + 1;
    }

    // Gives all that is ahead as a line.
    fn give_rest(&mut self)
        ensures { self.new ≡ after_rest self.old }
    {
        self.line_from = self.from;
        self.line_to = self.to;
        self.most -= self.to - self.from;
        self.from = self.to;
    }

    // Takes more bytes from the source, behind those that are ahead. None are taken at its end.
    fn fill<S: Source>(&mut self, script: &mut S) -> Result<usize, SourceFailed>
        requires room { length self.old.ahead < 4097 }
        requires more { length self.old.ahead < self.old.most }
        ensures most { self.new.most ≡ self.old.most }
        ensures closed { self.new.closed ≡ self.old.closed }
        ensures longer { IfOk result (λ n. length self.new.ahead ≡ length self.old.ahead + n) }
        ensures few { length self.new.ahead ≤ 4097 }
        ensures taken { Fills self.old.ahead (S.left script.old) result self.new.ahead (S.left script.new) }
        ensures cause { HasCause (S.faults script.old) (S.faults script.new) result }
    {
        let len = self.to - self.from;
        self.buf.copy_within(self.from..self.to, 0);
        self.line_from = 0;
        self.line_to = 0;
        self.from = 0;
        self.to = len;
        let end = ROOM.min(self.most);
        let count = script.read(&mut self.buf[len..end])?;
        self.to = len + count;
        Ok(count)
    }

    // The source has ended: what is ahead is the last line, where there is any.
    fn close(&mut self) -> bool
        ensures some { OnTrue result ((0 < length self.old.ahead) × (self.new ≡ record (after_rest self.old) { closed = true })) }
        ensures none { OnFalse result (self.old.ahead ≡ []) }
        ensures nothing { self.new.ahead ≡ [] }
    {
        if self.from == self.to {
            return false;
        }
        self.give_rest();
        self.closed = true;
        true
    }

    // As many bytes are ahead as may still be read: a further one is too many.
    fn ask_for_more<S: Source>(&mut self, script: &mut S) -> Result<bool, LinesFault>
        requires most { length self.old.ahead ≡ self.old.most }
        requires one { IsOneLine self.old.ahead }
        requires short { length self.old.ahead ≤ 4096 }
        requires is_open { self.old.closed ≡ false }
        ensures few { length self.new.ahead ≤ 4097 }
        ensures advances { Advances self.old (S.left script.old) (S.faults script.old) result self.new (S.left script.new) (S.faults script.new) }
        ensures short { result ≡ Ok true → length self.new.line ≤ 4096 }
    {
        let mut byte = [0; 1];
        match script.read(&mut byte) {
            Ok(0) => Ok(self.close()),
            Ok(_) => Err(LinesFault::Long),
            Err(_) => Err(LinesFault::Failed),
        }
    }

    /// Goes on to the next line. False says that there is none. At most 4,097 bytes are then taken from the source
    /// that weren't given, and none is taken where those decide the answer.
    pub fn advance<S: Source>(&mut self, script: &mut S) -> Result<bool, LinesFault>
        ensures advances { Advances self.old (S.left script.old) (S.faults script.old) result self.new (S.left script.new) (S.faults script.new) }
        ensures few { length self.new.ahead ≤ 4097 }
        ensures alone { NeedsNoMore self.old → script.new ≡ script.old }
        // A line that is too long is given by its front.
        ensures behind { result ≡ Ok true → 4096 < length self.new.line → (left : List ℕ) → S.left script.old ≡ Some left → LeavesRest self.old.most (self.old.ahead ++ left) self.new (S.left script.new) }
    {
        if self.closed {
            return Ok(false);
        }
        'bytes: loop {
            let ahead = self.ahead();
            if let Some(len) = newline_in(ahead) {
                self.give_line(len);
                return Ok(true);
            }
            let len = ahead.len();
            if len == ROOM {
                self.give_rest();
                return Ok(true);
            }
            if len == self.most {
                return self.ask_for_more(script);
            }
            match self.fill(script) {
                Ok(0) => return Ok(self.close()),
                Ok(_) => {}
                Err(_) => return Err(LinesFault::Failed),
            }
        }
    }
}
