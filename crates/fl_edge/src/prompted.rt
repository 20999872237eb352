// A prompt for whoever types.
ghost use Rattle.std.specs.Prelude.{◌≡◌};

use crate::retried::write_retried;
use std::io::{self, Read, Write};

/// What is shown before each line that is waited for.
const PROMPT: &[u8] = b"> ";

/// A reader that shows a prompt on a writer before each read, where it has one, and ends its line at the end of the input. That a
/// prompt couldn't be shown changes nothing.
#[derive(Drop)]
pub struct Prompted<R, W> {
    reader: R,
    shown_on: Option<W>,
}

impl<R: Read, W: Write> Prompted<R, W> {
    /// The reader with a prompt on this writer, or with none.
    pub fn new(reader: R, shown_on: Option<W>) -> Self
        ensures { ⟦<Prompted<R, W> as Read>⟧.remaining result ≡ R.remaining reader }
    {
        Prompted { reader, shown_on }
    }

    fn show(&mut self, text: &[u8])
        ensures { self.new.reader ≡ self.old.reader }
    {
        if let Some(writer) = &mut self.shown_on {
            let _shown = write_retried(writer, text);
        }
    }
}

impl<R: Read, W: Write> Read for Prompted<R, W> {
    ghost remaining = { λ prompted. R.remaining prompted.reader };

    fn read(&mut self, buf: &mut [u8]) -> io::Result<usize> {
        self.show(PROMPT);
        let count = self.reader.read(buf)?;
        if count == 0 {
            self.show(b"\n");
        }
        Ok(count)
    }
}
