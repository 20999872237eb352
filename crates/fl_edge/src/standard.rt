// Standard input as a source and standard output as a sink, over one buffer of replies.
ghost use Rattle.std.specs.Prelude.{◌≡◌, OnOk, OnErr};
ghost use Rattle.fl_base.specs.Causes.{HasCause};
ghost use Rattle.fl_base.specs.Memory.{next_count};

use crate::reply_buffer::ReplyBuffer;
use fl_base::{Sink, SinkFailed, Source, SourceFailed};
use std::cell::RefCell;
use std::io::{Read, Write};

/// A reader as a source. Before each read the replies are handed out, so that whoever waits for one of them before the
/// next line is given sees it; where they can't be handed out, the read fails, and takes nothing. A call reads once, and
/// again where it was interrupted.
#[derive(Drop)]
pub struct StandardInput<'b, R, W: Write + Drop> {
    reader: R,
    replies: &'b RefCell<ReplyBuffer<W>>,
    faults: u64,
}

impl<'b, R: Read, W: Write + Drop> StandardInput<'b, R, W> {
    /// A source over this reader, as `rt.reader()`, that hands out these replies.
    pub fn new(reader: R, replies: &'b RefCell<ReplyBuffer<W>>) -> Self
        ensures left { ⟦<StandardInput<'b, R, W> as Source>⟧.left result ≡ R.remaining reader }
        ensures no_fault { ⟦<StandardInput<'b, R, W> as Source>⟧.faults result ≡ 0 }
    {
        StandardInput {
            reader,
            replies,
            faults: 0,
        }
    }
}

impl<'b, R: Read, W: Write + Drop> Source for StandardInput<'b, R, W> {
    ghost left = { λ s. R.remaining s.reader };

    ghost faults = { λ s. s.faults };

    fn read(&mut self, into: &mut [u8]) -> Result<usize, SourceFailed> {
        if let Ok(mut replies) = self.replies.try_borrow_mut() {
            if let Ok(count) = replies.read(&mut self.reader, into) {
                return Ok(count);
            }
        }
        self.faults = self.faults.saturating_add(1);
        Err(SourceFailed)
    }
}

/// A buffer of replies as a sink. What is written is held back in the buffer until it is full, the source is read, or
/// `hand_out` is called.
#[derive(Drop)]
pub struct StandardOutput<'b, W: Write + Drop> {
    replies: &'b RefCell<ReplyBuffer<W>>,
    faults: u64,
}

impl<'b, W: Write + Drop> StandardOutput<'b, W> {
    /// A sink over this buffer.
    pub fn new(replies: &'b RefCell<ReplyBuffer<W>>) -> Self
        ensures { ⟦<StandardOutput<'b, W> as Sink>⟧.faults result ≡ 0 }
    {
        StandardOutput { replies, faults: 0 }
    }

    /// Hands out what is held back, as at the end of a run. It fails where that can't be handed out now, or couldn't
    /// before a read.
    pub fn hand_out(&mut self) -> Result<(), SinkFailed>
        ensures cause { HasCause (⟦<StandardOutput<'b, W> as Sink>⟧.faults self.old) (⟦<StandardOutput<'b, W> as Sink>⟧.faults self.new) result }
        ensures no_fault { OnOk result (⟦<StandardOutput<'b, W> as Sink>⟧.faults self.new ≡ ⟦<StandardOutput<'b, W> as Sink>⟧.faults self.old) }
        ensures one_fault { OnErr result (⟦<StandardOutput<'b, W> as Sink>⟧.faults self.new ≡ next_count (⟦<StandardOutput<'b, W> as Sink>⟧.faults self.old)) }
    {
        if let Ok(mut replies) = self.replies.try_borrow_mut() {
            if replies.hand_out().is_ok() {
                return Ok(());
            }
        }
        self.faults = self.faults.saturating_add(1);
        Err(SinkFailed)
    }
}

impl<'b, W: Write + Drop> Sink for StandardOutput<'b, W> {
    ghost use Rattle.std.specs.Prelude.{None};

    ghost written = { λ s. None };

    ghost faults = { λ s. s.faults };

    fn write(&mut self, from: &[u8]) -> Result<usize, SinkFailed> {
        if let Ok(mut replies) = self.replies.try_borrow_mut() {
            if let Ok(count) = replies.write(from) {
                return Ok(count);
            }
        }
        self.faults = self.faults.saturating_add(1);
        Err(SinkFailed)
    }
}
