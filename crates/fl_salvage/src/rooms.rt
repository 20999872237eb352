// Room for the pages and the blob in hand, and for the numbers of a ring's pages.
ghost use Rattle.std.specs.Prelude.{◌≡◌, [], IfOk};
ghost use Rattle.fl_salvage.specs.Rooms.{HasRooms};

use crate::ring::RingPages;
use fl_base::NoMemory;
use std::alloc::Global;

/// Room for a page of variable data and for the bytes of a blob.
#[derive(Drop)]
pub(crate) struct BlobRoom {
    pub(crate) page: Vec<u8>,
    pub(crate) bytes: Vec<u8>,
}

/// Room for a page of rows and for a blob.
#[derive(Drop)]
pub(crate) struct Rooms {
    pub(crate) page: Vec<u8>,
    pub(crate) blob: BlobRoom,
}

impl Rooms {
    /// Room for pages of so many bytes, and for a blob of so many at most.
    pub(crate) fn new(alloc: Global, size: u32, limit: u32) -> Result<Rooms, NoMemory>
        ensures { IfOk result (λ rooms. HasRooms rooms size) }
    {
        Ok(Rooms {
            page: vec![in alloc; 0; size as usize]?,
            blob: BlobRoom {
                page: vec![in alloc; 0; size as usize]?,
                bytes: Vec::with_capacity(alloc, limit as usize)?,
            },
        })
    }
}

/// Room for the numbers of all pages of a ring.
pub(crate) fn numbers_room(alloc: Global, ring: RingPages) -> Result<Vec<u32>, NoMemory>
    ensures { IfOk result (λ numbers. numbers.items ≡ []) }
{
    Ok(Vec::with_capacity(alloc, ring.pages as usize)?)
}
