// Reads of a file that bring more than was asked for, since pages that lie side by side are often read one after another.
ghost use Rattle.std.specs.Prelude.{◌≡◌, ◌≤◌, ◌+◌, ◌-◌, ◌⊎◌, take, drop, length, IfSome};

use std::os::unix::fs::FileExt;

/// The bytes that one read of the file brings at most, if fewer are asked for.
const ROOM: usize = 8_192;

/// The bytes of a file around the last read, as they stood there when they were read.
///
/// Reads that border on one another are a run. One read of the file brings about as many bytes as runs had lately: those of a lookup
/// come by one call and little beside them, those of a scan by ever longer ones, and reads that are far from one another, as
/// the first ones of a mount, stay small.
#[derive(Drop)]
pub(crate) struct ReadAhead {
    bytes: [u8; ROOM],
    // Where the first of them stands, and how many there are.
    from: u64,
    count: usize,
    // Where the last read began and ended, and the bytes of its run up to it.
    begin: u64,
    end: u64,
    run: usize,
    // The bytes that a read of the file is to bring.
    wanted: usize,
}

impl ReadAhead {
    /// Nothing was read.
    pub(crate) fn new() -> ReadAhead
        ensures { result.count ≡ 0 }
    {
        ReadAhead {
            bytes: [0; ROOM],
            from: 0,
            count: 0,
            begin: 0,
            end: 0,
            run: 0,
            wanted: 0,
        }
    }

    /// Forgets what is held of these places, which are about to be written.
    pub(crate) fn forget(&mut self, at: u64, len: usize)
        ensures apart { (self.new.count ≡ 0) ⊎ ((at + len ≤ self.new.from) ⊎ (self.new.from + self.new.count ≤ at)) }
    {
        let before = at.checked_add(len as u64);
        let behind = self.from.checked_add(self.count as u64);
        if before.is_none_or(|end| end > self.from) && behind.is_none_or(|end| end > at) {
            self.count = 0;
        }
    }

    /// Reads the bytes from `at` on, as many as `into` has, and answers whether it could.
    pub(crate) fn read<F: FileExt>(&mut self, file: &F, at: u64, into: &mut [u8]) -> bool {
        let len = into.len();
        let end = at.saturating_add(len as u64);
        let goes_up = at == self.end;
        self.count_in(len, goes_up || end == self.begin);
        self.begin = at;
        self.end = end;
        if self.copy(at, into) {
            return true;
        }
        let wanted = self.whole_reads(len);
        if len < wanted {
            let from = if goes_up {
                at
            } else {
                end.saturating_sub(wanted as u64)
            };
            self.bring(file, from, wanted);
            if self.copy(at, into) {
                return true;
            }
        }
        file.read_exact_at(into, at).is_ok()
    }

    // Counts a read of so many bytes in, which goes on with the run or begins one. What is wanted grows at once to the run and one read
    // more, and falls by a quarter of a read with each run.
    fn count_in(&mut self, len: usize, goes_on: bool) {
        if goes_on {
            self.run = self.run.saturating_add(len);
            self.wanted = self.wanted.max(self.run.saturating_add(len)).min(ROOM);
        } else {
            self.run = len;
            self.wanted = self.wanted.saturating_sub(len / 4);
        }
    }

    // How many bytes are wanted, in whole reads of so many.
    fn whole_reads(&self, len: usize) -> usize {
        if len == 0 {
            return 0;
        }
        self.wanted - self.wanted % len
    }

    // Holds so many bytes of the file from this place on, in place of what was held.
    fn bring<F: FileExt>(&mut self, file: &F, from: u64, wanted: usize) {
        let room = &mut self.bytes[..wanted.min(ROOM)];
        self.count = file.read_at(room, from).unwrap_or(0);
        self.from = from;
    }

    // Copies the bytes from `at` on, if all of them are held.
    fn copy(&self, at: u64, into: &mut [u8]) -> bool {
        match self.held(at, into.len()) {
            Some(bytes) => {
                into.copy_from_slice(bytes);
                true
            }
            None => false,
        }
    }

    // So many bytes from `at` on, if all of them are held.
    fn held(&self, at: u64, len: usize) -> Option<&[u8]>
        ensures len { IfSome result (λ held. length held.now ≡ len) }
        ensures bytes { IfSome result (λ held. held.now ≡ take len (drop (at - self.now.from) (take self.now.count self.now.bytes))) }
    {
        let skipped = at.checked_sub(self.from)? as usize;
        self.bytes.get(..self.count)?.get(skipped..)?.get(..len)
    }
}
