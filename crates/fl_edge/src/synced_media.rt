// A file as a medium whose writes are on the disk before they count as done.
use crate::file_media::FileMedia;
use crate::image_file::ImageFile;
use fl_flash::{Media, MediaFailed, PairFailed};

/// A file as a medium. After each write the system is told to put the file's bytes on the disk (`fdatasync`), and the write counts
/// as done if it says that it did: otherwise it fails, and the count of faults rises. Of a pair of writes each is synced.
#[derive(Drop)]
pub struct SyncedMedia<F> {
    media: FileMedia<F>,
}

impl<F: ImageFile> SyncedMedia<F> {
    /// The medium whose writes are synced from now on.
    pub fn of(media: FileMedia<F>) -> SyncedMedia<F> {
        SyncedMedia { media }
    }
}

impl<F: ImageFile> Media for SyncedMedia<F> {
    ghost state = { λ m. ⟦<FileMedia<F> as Media>⟧.state m.media };

    fn len(&self) -> u64 {
        self.media.len()
    }

    fn read_at(&mut self, at: u64, into: &mut [u8]) -> Result<(), MediaFailed> {
        self.media.read_at(at, into)
    }

    fn write_at(&mut self, at: u64, bytes: &[u8]) -> Result<(), MediaFailed> {
        self.media.write_at(at, bytes)?;
        self.media.sync()
    }

    // The first one is on the disk before the second is written: a page's mark is never there without its body.
    fn write_pair(&mut self, at: u64, bytes: &[u8], split: usize) -> Result<(), PairFailed> {
        let (first, second) = bytes.split_at(split);
        if self.write_at(at, first).is_err() {
            return Err(PairFailed::First);
        }
        // The first one ends within this length, which is a u64.
        let _len = self.len();
        match self.write_at(at + split as u64, second) {
            Ok(()) => Ok(()),
            Err(_) => Err(PairFailed::Second),
        }
    }
}
