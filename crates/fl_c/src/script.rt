// A script in the caller's memory.
use fl_base::{Source, SourceFailed};

/// What is left of a script; no read of it fails.
#[derive(Drop)]
pub(crate) struct Script<'s> {
    pub(crate) left: &'s [u8],
}

impl<'s> Source for Script<'s> {
    ghost use Rattle.std.specs.Prelude.{Some};

    ghost left = { λ script. Some script.left.now };

    ghost faults = { λ _. 0 };

    fn read(&mut self, into: &mut [u8]) -> Result<usize, SourceFailed> {
        let count = into.len().min(self.left.len());
        let (taken, rest) = self.left.split_at(count);
        into[..count].copy_from_slice(taken);
        self.left = rest;
        Ok(count)
    }
}
