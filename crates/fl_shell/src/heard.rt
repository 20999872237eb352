// A reply that isn't handed on.
ghost use Rattle.std.specs.Prelude.{◌≡◌, []};

use arrayvec::ArrayVec;
use fl_base::{Sink, SinkFailed};
use std::marker::Model;

/// The bytes that are kept.
const ROOM: usize = 512;

/// A sink that keeps the first 512 bytes that are written, and fails at more.
#[derive(Drop)]
pub(crate) struct Heard {
    text: ArrayVec<u8, ROOM>,
    faults: u64,
}

impl Model for Heard {
    ghost use Rattle.std.specs.Prelude.{◌≡◌, ◌<◌, length};
    ghost use Rattle.fl_shell.specs.Heard.{Kept};

    ghost Value = { Kept };

    ghost view = { λ heard. record { text = heard.text.items; faults = heard.faults } };

    // It has failed only if it is full.
    ghost invariant = { λ heard. 0 < heard.faults → length heard.text.items ≡ 512 };
}

impl Heard {
    ghost use Rattle.fl_shell.specs.Heard.{IsFullOnFault};

    /// Nothing was written yet.
    pub(crate) fn new() -> Heard
        ensures { result ≡ record { text = []; faults = 0 } }
    {
        Heard {
            text: ArrayVec::new(),
            faults: 0,
        }
    }

    /// What was written.
    pub(crate) fn bytes(&self) -> &[u8]
        ensures text { result.now ≡ self.now.text }
        ensures full { IsFullOnFault self.now }
    {
        self.text.as_slice()
    }
}

impl Sink for Heard {
    ghost use Rattle.std.specs.Prelude.{Some};

    ghost written = { λ heard. Some heard.text };

    ghost faults = { λ heard. heard.faults };

    fn write(&mut self, from: &[u8]) -> Result<usize, SinkFailed> {
        let room = ROOM - self.text.len();
        if room == 0 {
            self.faults = self.faults.saturating_add(1);
            return Err(SinkFailed);
        }
        let taken = &from[..from.len().min(room)];
        self.text.try_extend_from_slice(taken).unwrap();
        Ok(taken.len())
    }
}
