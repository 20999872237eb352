// Files that answer as they are told to. Each lies over a new file of the system, which has no bytes and gets none.
use fl_edge::ImageFile;
use std::alloc::Allocator;
use std::fs::{File, Metadata, OpenFile, OpenOptions, TryLockError};
use std::io::{self, ErrorKind, Read, Seek, SeekFrom, Write};
use std::os::fd::{AsRawFd, RawFd};
use std::os::unix::fs::FileExt;
use std::rt::Files;

// What a file answers to reads and writes at a place.
#[derive(Clone, Copy)]
pub(super) enum Manner {
    // It is full behind some bytes, and has none to read.
    Full { end: u64 },
    // At most four bytes are read at once, each the number of its place.
    Short,
}

#[derive(Drop)]
pub(super) struct StandIn {
    file: File,
    manner: Manner,
}

fn number_places(bytes: &mut [u8], from: u64) {
    for (byte, place) in bytes.iter_mut().zip(from..u64::MAX) {
        *byte = (place & 0xff) as u8;
    }
}

impl FileExt for StandIn {
    fn read_at(&self, buf: &mut [u8], offset: u64) -> io::Result<usize> {
        let Manner::Short = self.manner else {
            return Ok(0);
        };
        if buf.len() > 4 {
            return Err(ErrorKind::Other.into());
        }
        number_places(buf, offset);
        Ok(buf.len())
    }

    fn write_at(&self, buf: &[u8], offset: u64) -> io::Result<usize> {
        let Manner::Full { end } = self.manner else {
            return Ok(buf.len());
        };
        let room = end.saturating_sub(offset) as usize;
        Ok(room.min(buf.len()))
    }
}

impl OpenFile for StandIn {
    fn metadata(&self) -> io::Result<Metadata> {
        self.file.metadata()
    }

    fn set_len(&self, _size: u64) -> io::Result<()> {
        Err(ErrorKind::Unsupported.into())
    }

    fn sync_all(&self) -> io::Result<()> {
        Err(ErrorKind::Unsupported.into())
    }

    fn sync_data(&self) -> io::Result<()> {
        Err(ErrorKind::Unsupported.into())
    }
}

impl AsRawFd for StandIn {
    fn as_raw_fd(&self) -> RawFd {
        self.file.as_raw_fd()
    }
}

impl ImageFile for StandIn {
    fn take_alone(&self) -> Result<(), TryLockError> {
        self.file.take_alone()
    }

    fn take_shared(&self) -> Result<(), TryLockError> {
        self.file.take_shared()
    }
}

// No image reads or writes its file but at places.
impl Read for StandIn {
    fn read(&mut self, _buf: &mut [u8]) -> io::Result<usize> {
        Err(ErrorKind::Unsupported.into())
    }
}

impl Write for StandIn {
    fn write(&mut self, _buf: &[u8]) -> io::Result<usize> {
        Err(ErrorKind::Unsupported.into())
    }

    fn flush(&mut self) -> io::Result<()> {
        Err(ErrorKind::Unsupported.into())
    }
}

impl Seek for StandIn {
    fn seek(&mut self, _to: SeekFrom) -> io::Result<u64> {
        Err(ErrorKind::Unsupported.into())
    }
}

// A system all of whose files answer so.
#[derive(Drop)]
pub(super) struct StandIns<'a> {
    pub(super) rt: &'a HostRuntime,
    pub(super) manner: Manner,
}

impl Files for StandIns<'_> {
    type File = StandIn;

    type Dir = <HostRuntime as Files>::Dir;

    fn open_file(&self, how: &OpenOptions, path: &str) -> io::Result<StandIn> {
        Ok(StandIn {
            file: self.rt.open_file(how, path)?,
            manner: self.manner,
        })
    }

    fn open_dir(&self, path: &str) -> io::Result<Self::Dir> {
        self.rt.open_dir(path)
    }

    fn metadata(&self, path: &str) -> io::Result<Metadata> {
        self.rt.metadata(path)
    }

    fn symlink_metadata(&self, path: &str) -> io::Result<Metadata> {
        self.rt.symlink_metadata(path)
    }

    fn copy(&self, _from: &str, _to: &str) -> io::Result<u64> {
        Err(ErrorKind::Unsupported.into())
    }

    fn rename(&self, _from: &str, _to: &str) -> io::Result<()> {
        Err(ErrorKind::Unsupported.into())
    }

    fn remove_file(&self, _path: &str) -> io::Result<()> {
        Err(ErrorKind::Unsupported.into())
    }

    fn create_dir(&self, _path: &str) -> io::Result<()> {
        Err(ErrorKind::Unsupported.into())
    }

    fn remove_dir(&self, _path: &str) -> io::Result<()> {
        Err(ErrorKind::Unsupported.into())
    }

    fn remove_dir_all<B: Allocator>(&self, _alloc: B, _path: &str) -> io::Result<()> {
        Err(ErrorKind::Unsupported.into())
    }
}
