// Replies that are held back, and handed out in larger pieces.
ghost use Rattle.std.specs.Prelude.{◌≡◌, ◌<◌, ◌≤◌, ◌⊎◌, [], length, IfOk, OnOk, OnErr};
ghost use Rattle.std.specs.Io.KnownBytes.{Keeps};
ghost use Rattle.fl_base.specs.Causes.{HasCause, Rose};
ghost use Rattle.fl_base.specs.Memory.{next_count};
ghost use Rattle.fl_base.specs.Stream.{Reads};
ghost use Rattle.fl_edge.specs.Replies.{written_of};

use crate::retried::{read_retried, write_retried};
use fl_base::{NoMemory, Sink, SinkFailed, SourceFailed};
use std::alloc::Global;
use std::io::{BufWriter, Read, Write};
use std::marker::Model;

/// The bytes that are held back at most.
const ROOM: usize = 65_536;

/// A writer as a sink that holds back what is written, at most 65,536 bytes, until there is no room for more or
/// `hand_out` is called. Once a call has failed, each further one fails and hands nothing out, and what the writer didn't
/// take stays held back.
#[derive(Drop)]
pub struct ReplyBuffer<W: Write + Drop> {
    writer: BufWriter<W, Global>,
    faults: u64,
}

impl<W: Write + Drop> Model for ReplyBuffer<W> {
    ghost use Rattle.std.specs.Io.Buffered.{writer_inner, writer_buffer};
    ghost use Rattle.fl_edge.specs.Replies.{Replies};

    ghost Value = { Replies };

    ghost view = { λ b. record { handed = W.contents (writer_inner b.writer); held = writer_buffer b.writer; faults = b.faults } };
}

impl<W: Write + Drop> ReplyBuffer<W> {
    /// A buffer with nothing in it, over this writer, as `io::writer(&rt)`.
    pub fn new(alloc: Global, writer: W) -> Result<Self, NoMemory>
        ensures { IfOk result (λ replies. replies ≡ record { handed = W.contents writer; held = []; faults = 0 }) }
    {
        let Ok(writer) = BufWriter::with_capacity(alloc, ROOM, writer) else {
            return Err(NoMemory);
        };
        Ok(ReplyBuffer { writer, faults: 0 })
    }

    /// Hands out to the writer what is held back, in the order in which it was written.
    pub fn hand_out(&mut self) -> Result<(), SinkFailed>
        ensures kept { Keeps (written_of self.old) (written_of self.new) }
        ensures all { OnOk result (self.new.held ≡ []) }
        ensures cause { HasCause self.old.faults self.new.faults result }
        ensures for_good { OnOk result ((self.old.faults ≡ 0) × (self.new.faults ≡ 0)) }
        ensures stopped { 0 < self.old.faults → (self.new.handed ≡ self.old.handed) × (self.new.held ≡ self.old.held) }
        ensures one_fault { OnErr result (self.new.faults ≡ next_count self.old.faults) }
    {
        if self.faults == 0 && self.writer.flush().is_ok() {
            return Ok(());
        }
        self.faults = self.faults.saturating_add(1);
        Err(SinkFailed)
    }

    /// Hands out what is held back, and then reads. It fails where that can't be handed out, and then reads nothing, and
    /// where the reader fails.
    pub fn read<R: Read>(&mut self, reader: &mut R, into: &mut [u8]) -> Result<usize, SourceFailed>
        ensures kept { Keeps (written_of self.old) (written_of self.new) }
        ensures all { OnOk result (self.new.held ≡ []) }
        ensures failed { OnErr result (Rose self.old.faults self.new.faults ⊎ ((self.new.faults ≡ self.old.faults) × (self.new.held ≡ []))) }
        ensures for_good { OnOk result ((self.old.faults ≡ 0) × (self.new.faults ≡ 0)) }
        ensures stopped { 0 < self.old.faults → (self.new.handed ≡ self.old.handed) × (self.new.held ≡ self.old.held) }
        ensures most { self.new.faults ≤ next_count self.old.faults }
        ensures count { IfOk result (λ n. n ≤ length into.new) }
        ensures bytes { Reads (R.remaining reader.old) (R.remaining reader.new) result into.new }
    {
        match self.hand_out() {
            Ok(()) => read_retried(reader, into),
            Err(_) => Err(SourceFailed),
        }
    }
}

impl<W: Write + Drop> Sink for ReplyBuffer<W> {
    ghost use Rattle.std.specs.Prelude.{◌≡◌, ◌≤◌, ◌<◌, length, IfOk, OnOk, OnErr};
    ghost use Rattle.fl_base.specs.Causes.{HasCause};
    ghost use Rattle.fl_base.specs.Memory.{next_count};
    ghost use Rattle.fl_base.specs.Stream.{Writes};
    ghost use Rattle.fl_edge.specs.Replies.{written_of};

    ghost written = { λ replies. written_of replies };

    ghost faults = { λ replies. replies.faults };

    fn write(&mut self, from: &[u8]) -> Result<usize, SinkFailed>
        ensures count { IfOk result (λ n. n ≤ length from.now) }
        ensures some { IfOk result (λ n. 0 < length from.now → 0 < n) }
        ensures bytes { Writes (written_of self.old) (written_of self.new) result from.now }
        ensures cause { HasCause self.old.faults self.new.faults result }
        ensures for_good { OnOk result ((self.old.faults ≡ 0) × (self.new.faults ≡ 0)) }
        ensures stopped { 0 < self.old.faults → (self.new.handed ≡ self.old.handed) × (self.new.held ≡ self.old.held) }
        ensures one_fault { OnErr result (self.new.faults ≡ next_count self.old.faults) }
    {
        if self.faults == 0 {
            if let Ok(count) = write_retried(&mut self.writer, from) {
                return Ok(count);
            }
        }
        self.faults = self.faults.saturating_add(1);
        Err(SinkFailed)
    }
}
