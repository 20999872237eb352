// Room for the pages and the blob in hand.
ghost use Rattle.std.specs.Prelude.{◌≡◌, length, IfOk};
ghost use Rattle.fl_export.specs.Rooms.{HasRooms};

use fl_base::NoMemory;
use fl_flash::PageBuf;
use std::alloc::Global;

/// Room for a page of variable data and for the bytes of a blob.
#[derive(Drop)]
pub(crate) struct BlobRoom {
    pub(crate) page: PageBuf,
    pub(crate) bytes: Vec<u8>,
}

/// Room for a page of rows, for a page of an index and for a blob.
#[derive(Drop)]
pub(crate) struct Rooms {
    pub(crate) rows: PageBuf,
    pub(crate) index: PageBuf,
    pub(crate) blob: BlobRoom,
}

impl Rooms {
    /// Room for pages of so many bytes, and for a blob of so many at most.
    pub(crate) fn new(alloc: Global, page: u32, blob: u32) -> Result<Rooms, NoMemory>
        ensures { IfOk result (λ rooms. HasRooms rooms page) }
    {
        Ok(Rooms {
            rows: PageBuf::new(alloc, page)?,
            index: PageBuf::new(alloc, page)?,
            blob: BlobRoom {
                page: PageBuf::new(alloc, page)?,
                bytes: Vec::with_capacity(alloc, blob as usize)?,
            },
        })
    }
}
