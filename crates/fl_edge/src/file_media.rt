// A file as a medium.
ghost use Rattle.std.specs.Prelude.{◌≡◌, ◌≤◌, ◌<◌, ◌+◌, ◌^◌, ◌⊎◌, ◌<ℤ◌, pos, false, max, length, None, is_some, IfOk, IfSome, OnOk, OnErr};
ghost use Rattle.fl_base.specs.Causes.{HasCause};
ghost use Rattle.fl_edge.specs.Image.{file_of};

use crate::image_file::{Access, ImageFile, ImageInUse, open_locked};
use crate::read_ahead::ReadAhead;
use fl_flash::{Media, MediaFailed, PairFailed};
use std::fs::OpenFile;
use std::os::unix::fs::FileExt;
use std::rt::Files;

/// A file as a medium. It keeps its own length and counts, and does not tell its bytes. Each write is one positioned write
/// of the file, a pair of writes too, unless the system takes a part of it. Each read is counted, though one read of the file
/// may bring up to 8,192 bytes for those behind it: what others write to the file meanwhile may not be seen.
#[derive(Drop)]
pub struct FileMedia<F> {
    // None where there is no file that can be used: then the length is 0 and each call fails.
    file: Option<F>,
    ahead: ReadAhead,
    len: u64,
    faults: u64,
    reads: u64,
}

// The length of a file; none of what is none.
fn length_of<F: OpenFile>(file: &F) -> Option<u64> {
    let metadata = file.metadata().ok()?;
    metadata.is_file().then_some(metadata.len())
}

impl<F: ImageFile + Drop> FileMedia<F> {
    /// The file of this name as a medium, for what a job does with it. It is locked before anything is read of it: for this
    /// medium alone or, if it is only read, together with others that only read it. The lock ends with the medium.
    ///
    /// An error says that another open of the file holds a lock that keeps this one out; then nothing was read or changed, but
    /// that an empty file may have been made. No clause tells of locks, since only the system knows them. A lock keeps out
    /// those who ask for one. If the system has no locks for the file, it is used without.
    ///
    /// Where there is no such file and none is to be made, or it can't be opened or made, or is no regular file, the length is
    /// 0 and each call fails; a pipe, a device or a socket isn't waited for. Under `Access::Repair` a file that can't be
    /// opened for writing is only read, and then each write fails, as under `Access::Read`.
    pub fn open_image<R: Files<File = F>>(
        rt: &R,
        name: &str,
        access: Access,
    ) -> Result<FileMedia<F>, ImageInUse>
        ensures no_stream { IfOk result (λ media. IfSome (file_of media) (λ file. IfSome (F.raw_fd file) (λ fd. pos 2 <ℤ fd))) }
        ensures untold { IfOk result (λ media. (⟦<FileMedia<F> as Media>⟧.state media).tells ≡ false) }
        ensures no_fault { IfOk result (λ media. (⟦<FileMedia<F> as Media>⟧.state media).faults ≡ 0) }
        ensures no_read { IfOk result (λ media. (⟦<FileMedia<F> as Media>⟧.state media).reads ≡ 0) }
    {
        Ok(FileMedia::of(open_locked(rt, name, access)?))
    }

    /// Whether there is a file that can be used. Without one the length is 0 and each call fails.
    pub fn is_usable(&self) -> bool
        ensures { result ≡ is_some (file_of self.now) }
    {
        self.file.is_some()
    }

    // The medium of a file, or of none.
    fn of(file: Option<F>) -> FileMedia<F>
        ensures file { (file_of result ≡ file) ⊎ (file_of result ≡ None) }
        ensures untold { (⟦<FileMedia<F> as Media>⟧.state result).tells ≡ false }
        ensures no_fault { (⟦<FileMedia<F> as Media>⟧.state result).faults ≡ 0 }
        ensures no_read { (⟦<FileMedia<F> as Media>⟧.state result).reads ≡ 0 }
    {
        let len = file.as_ref().and_then(length_of);
        FileMedia {
            file: file.filter(|_| len.is_some()),
            ahead: ReadAhead::new(),
            len: len.unwrap_or(0),
            faults: 0,
            reads: 0,
        }
    }
}

impl<F: OpenFile> FileMedia<F> {
    // Waits until the system has what was written on the disk.
    pub(crate) fn sync(&mut self) -> Result<(), MediaFailed>
        ensures cause { HasCause self.old.faults self.new.faults result }
        ensures same { self.new ≡ record self.old { faults = self.new.faults } }
    {
        if let Some(file) = &self.file {
            if file.sync_data().is_ok() {
                return Ok(());
            }
        }
        self.faults = self.faults.saturating_add(1);
        Err(MediaFailed)
    }
}

impl<F: FileExt> FileMedia<F> {
    // Writes a front of the bytes by one call of the system, and answers how many these are.
    fn write_front(&mut self, at: u64, bytes: &[u8]) -> usize
        requires { at ≤ self.old.len }
        ensures count { result ≤ length bytes.now }
        ensures end { at + result < 2 ^ 64 }
        ensures len { self.new ≡ record self.old { len = max self.old.len (at + result) } }
    {
        let Some(file) = &self.file else {
            return 0;
        };
        if at.checked_add(bytes.len() as u64).is_none() {
            return 0;
        }
        let count = file.write_at(bytes, at).unwrap_or(0);
        self.len = self.len.max(at + count as u64);
        count
    }

    // Writes the bytes from this count on up to `split`, where there are any.
    fn write_up_to(
        &mut self,
        at: u64,
        bytes: &[u8],
        count: usize,
        split: usize,
    ) -> Result<(), MediaFailed>
        requires at { at + count ≤ self.old.len }
        requires split { split ≤ length bytes.now }
        ensures reads { self.new.reads ≡ self.old.reads }
        ensures done { OnOk result (self.new.len ≡ max self.old.len (at + split)) }
        ensures no_shorter { self.old.len ≤ self.new.len }
        ensures no_longer { OnErr result ((count < split) × (self.new.len ≤ max self.old.len (at + split))) }
        ensures cause { HasCause self.old.faults self.new.faults result }
    {
        if count >= split {
            return Ok(());
        }
        self.write_at(at + count as u64, &bytes[count..split])
    }
}

impl<F: FileExt> Media for FileMedia<F> {
    ghost use Rattle.std.specs.Prelude.{false, replicate};

    ghost state = { λ m. record { tells = false; content = replicate m.len 0; faults = m.faults; reads = m.reads } };

    fn len(&self) -> u64 {
        self.len
    }

    fn read_at(&mut self, at: u64, into: &mut [u8]) -> Result<(), MediaFailed> {
        self.reads = self.reads.saturating_add(1);
        if let Some(file) = &self.file {
            if self.ahead.read(file, at, into) {
                return Ok(());
            }
        }
        self.faults = self.faults.saturating_add(1);
        Err(MediaFailed)
    }

    fn write_at(&mut self, at: u64, bytes: &[u8]) -> Result<(), MediaFailed> {
        self.ahead.forget(at, bytes.len());
        if let Some(file) = &self.file {
            if let Some(end) = at.checked_add(bytes.len() as u64) {
                if file.write_all_at(bytes, at).is_ok() {
                    self.len = self.len.max(end);
                    return Ok(());
                }
            }
        }
        self.faults = self.faults.saturating_add(1);
        Err(MediaFailed)
    }

    // Where the system takes a front of both by one call, the rest is written as two writes are.
    fn write_pair(&mut self, at: u64, bytes: &[u8], split: usize) -> Result<(), PairFailed> {
        self.ahead.forget(at, bytes.len());
        let count = self.write_front(at, bytes);
        if self.write_up_to(at, bytes, count, split).is_err() {
            return Err(PairFailed::First);
        }
        let begun = count.max(split);
        // What is written ends within this length, which is a u64.
        let _len = self.len();
        match self.write_at(at + begun as u64, &bytes[begun..]) {
            Ok(()) => Ok(()),
            Err(_) => Err(PairFailed::Second),
        }
    }
}
