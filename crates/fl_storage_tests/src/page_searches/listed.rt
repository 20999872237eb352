// First keys from a list. One call fails.
ghost use Rattle.std.specs.Prelude.{◌≡◌};

use fl_flash::FlashFault;
use fl_page::ReadFault;
use fl_search::FirstKeys;

#[derive(Drop)]
pub(super) struct Listed {
    firsts: [Option<u64>; 8],
    failing: u64,
    calls: u64,
    faults: u64,
}

impl Listed {
    pub(super) fn new(firsts: [Option<u64>; 8], failing: u64) -> Self {
        Listed {
            firsts,
            failing,
            calls: 0,
            faults: 0,
        }
    }

    pub(super) fn calls(&self) -> u64 {
        self.calls
    }
}

impl FirstKeys for Listed {
    ghost use Rattle.std.specs.Prelude.{◌≡◌, ◌<◌, ℕ, [], Option, None, slice_index_or};

    ghost names = { λ s. [] };

    ghost has = { λ s n. n < 8 };

    ghost tells = { λ s first. (n : ℕ) → n < 8 → first n ≡ slice_index_or s.firsts n None };

    ghost calls = { λ s. s.calls };

    ghost faults = { λ s. s.faults };

    ghost since = { λ first s. Unit {0} };

    ghost fails = { λ first number fault s. Unit {0} };

    ghost here = { λ s n. Unit {0} };

    fn first_key(&mut self, number: u32) -> Result<Option<u64>, ReadFault> {
        self.calls = self.calls.saturating_add(1);
        if self.calls == self.failing {
            self.faults = self.faults.saturating_add(1);
            return Err(ReadFault::Flash(FlashFault::Media));
        }
        Ok(self.firsts[number as usize])
    }
}
