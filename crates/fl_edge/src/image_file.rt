// The file of an image: how it is opened, and the lock on it.
ghost use Rattle.std.specs.Prelude.{◌≡◌, ◌<ℤ◌, pos, IfOk, IfSome};
ghost use Rattle.fl_edge.specs.Locks.{is_held};
ghost use Rattle.std.specs.Result.{is_err};

use std::fs::{File, OpenFile, OpenOptions, TryLockError, metadata};
use std::os::fd::AsRawFd;
use std::os::unix::fs::FileExt;
use std::rt::Files;

/// What a job does with its image.
#[derive(Clone, Copy, Debug, PartialEq, Eq)]
pub enum Access {
    /// It reads and writes, and makes an image that is missing.
    Make,
    /// It reads and writes.
    Write,
    /// It reads, and writes if the system allows it.
    Repair,
    /// It reads alone.
    Read,
}

/// Another program uses the image.
#[derive(Clone, Copy, Debug, PartialEq, Eq)]
pub struct ImageInUse;

/// A file that is read and written by places, and locked as a whole. A lock stands between the opens of a file: one open has
/// the file alone, or several share it. It ends with its open, and so with the program, however that ends.
pub trait ImageFile: FileExt + OpenFile + AsRawFd {
    /// Takes the file for this open alone. This never waits.
    fn take_alone(&self) -> Result<(), TryLockError>;

    /// Takes the file together with the opens that share it. This never waits.
    fn take_shared(&self) -> Result<(), TryLockError>;
}

impl ImageFile for File {
    fn take_alone(&self) -> Result<(), TryLockError> {
        self.try_lock()
    }

    fn take_shared(&self) -> Result<(), TryLockError> {
        self.try_lock_shared()
    }
}

/// The regular file of this name, opened and locked for what the job does with it: for itself alone, but shared where the file
/// is only read. None where there is no such file, or it can't be opened so.
pub(crate) fn open_locked<F: ImageFile + Drop, R: Files<File = F>>(
    rt: &R,
    name: &str,
    access: Access,
) -> Result<Option<F>, ImageInUse>
    ensures no_stream { IfOk result (λ opened. IfSome opened (λ file. IfSome (F.raw_fd file) (λ fd. pos 2 <ℤ fd))) }
{
    if is_other_than_a_file(rt, name) {
        return Ok(None);
    }
    if access != Access::Read {
        let mut how = OpenOptions::new();
        how.read(true).write(true).create(access == Access::Make);
        if let Some(file) = open(rt, name, &how) {
            unless_held(file.take_alone())?;
            return Ok(Some(file));
        }
    }
    if access == Access::Read || access == Access::Repair {
        let mut how = OpenOptions::new();
        how.read(true);
        if let Some(file) = open(rt, name, &how) {
            unless_held(file.take_shared())?;
            return Ok(Some(file));
        }
    }
    Ok(None)
}

// Whether the name is that of a pipe, a device, a socket or a folder. Such a one isn't even opened: that may wait for another
// program, or set a device going.
fn is_other_than_a_file<R: Files>(rt: &R, name: &str) -> bool {
    match metadata(rt, name) {
        Ok(found) => !found.is_file(),
        Err(_) => false,
    }
}

// Opens the file, unless it gets the descriptor of a standard stream that was closed: what goes to that stream would be
// written over it.
fn open<F: ImageFile + Drop, R: Files<File = F>>(rt: &R, name: &str, how: &OpenOptions) -> Option<F>
    ensures no_stream { IfSome result (λ file. IfSome (F.raw_fd file) (λ fd. pos 2 <ℤ fd)) }
{
    let file = how.open(rt, name).ok()?;
    if file.as_raw_fd() > 2 {
        Some(file)
    } else {
        None
    }
}

// An error only where another open holds the lock. Where the system knows no locks the file is used without one.
fn unless_held(lock: Result<(), TryLockError>) -> Result<(), ImageInUse>
    ensures { is_err result ≡ is_held lock }
{
    match lock {
        Err(TryLockError::WouldBlock) => Err(ImageInUse),
        Ok(()) | Err(TryLockError::Error(_)) => Ok(()),
    }
}
