// The last bytes of a source.
ghost use Rattle.std.specs.Prelude.{◌≡◌, ◌++◌, true, false, IfOk, []};

use fl_base::{NoMemory, Source, SourceFailed};
use std::alloc::Global;
use std::marker::Model;

/// The bytes that are kept at most.
const ROOM: usize = 65_536;

/// So many of them are dropped at once.
const HALF: usize = ROOM / 2;

/// The last bytes of a text.
#[derive(Drop)]
pub struct Tail {
    bytes: Vec<u8>,
    // The lines that ended before them.
    passed: u64,
    is_cut: bool,
}

impl Model for Tail {
    ghost use Rattle.fl_reason.specs.Reason.{Kept};

    ghost Value = { Kept };

    ghost view = { λ t. record { bytes = t.bytes.items; is_cut = t.is_cut } };
}

impl Tail {
    /// No bytes yet, with room for those that are kept.
    pub fn new(alloc: Global) -> Result<Tail, NoMemory>
        ensures { IfOk result (λ tail. tail ≡ record { bytes = []; is_cut = false }) }
    {
        Ok(Tail {
            bytes: Vec::with_capacity(alloc, ROOM)?,
            passed: 0,
            is_cut: false,
        })
    }

    /// Keeps the next bytes of the text. At least the last 32,768 are kept, and none is dropped of a text of up to 65,536.
    pub fn keep(&mut self, piece: &[u8])
        ensures { self.new.is_cut ≡ false → (self.old.is_cut ≡ false) × (self.new.bytes ≡ self.old.bytes ++ piece.now) }
    {
        if self.bytes.len().saturating_add(piece.len()) > ROOM {
            self.drop_half();
        }
        if piece.len() > HALF || self.bytes.extend_from_slice(piece).is_err() {
            self.forget();
        }
    }

    // Drops the older half of what is kept.
    fn drop_half(&mut self)
        ensures { self.new.is_cut ≡ true }
    {
        self.is_cut = true;
        let count = self.bytes.len().min(HALF);
        for byte in &self.bytes[..count] {
            if *byte == b'\n' {
                self.passed = self.passed.saturating_add(1);
            }
        }
        let left = self.bytes.len() - count;
        self.bytes.copy_within(count.., 0);
        self.bytes.truncate(left);
    }

    // Keeps nothing any more: no line has a number that is known.
    fn forget(&mut self)
        ensures { self.new.is_cut ≡ true }
    {
        self.bytes.clear();
        self.passed = u64::MAX;
        self.is_cut = true;
    }

    /// The bytes that are kept: the whole text, unless it is cut.
    pub fn bytes(&self) -> &[u8]
        ensures { result.now ≡ self.now.bytes }
    {
        &self.bytes
    }

    /// Whether bytes in front were dropped.
    pub fn is_cut(&self) -> bool
        ensures { result ≡ self.now.is_cut }
    {
        self.is_cut
    }

    /// The line of this number, counted from 1, without its newline; none where its front isn't kept.
    pub fn line(&self, number: u64) -> Option<&[u8]> {
        // The front of the first line that is kept is lacking where the text is cut.
        if number <= self.passed.saturating_add(u64::from(self.is_cut)) {
            return None;
        }
        let mut at = self.passed;
        let lines = self.bytes.split(|byte| *byte == b'\n');
        for line in lines {
            at = at.saturating_add(1);
            if at == number {
                return Some(line);
            }
        }
        None
    }
}

/// A source that hands on the bytes of another one, and keeps the last of them.
#[derive(Drop)]
pub struct TailSource<S> {
    source: S,
    tail: Tail,
}

impl<S: Source> TailSource<S> {
    /// This source, whose bytes are kept behind those of the tail.
    pub fn new(source: S, tail: Tail) -> TailSource<S>
        ensures left { ⟦<TailSource<S> as Source>⟧.left result ≡ S.left source }
        ensures faults { ⟦<TailSource<S> as Source>⟧.faults result ≡ S.faults source }
    {
        TailSource { source, tail }
    }

    /// The last bytes that were handed on.
    pub fn tail(&self) -> &Tail {
        &self.tail
    }
}

impl<S: Source> Source for TailSource<S> {
    ghost left = { λ s. S.left s.source };

    ghost faults = { λ s. S.faults s.source };

    fn read(&mut self, into: &mut [u8]) -> Result<usize, SourceFailed> {
        let count = self.source.read(into)?;
        self.tail.keep(&into[..count]);
        Ok(count)
    }
}
