// Room for the pages in hand.
ghost use Rattle.std.specs.Prelude.{◌≡◌, length, IfOk};

use fl_base::NoMemory;
use fl_flash::PageBuf;
use std::alloc::Global;

/// Room for a page of rows and for a page of an index.
#[derive(Drop)]
pub(crate) struct Rooms {
    pub(crate) rows: PageBuf,
    pub(crate) index: PageBuf,
}

impl Rooms {
    /// Room for pages of so many bytes.
    pub(crate) fn new(alloc: Global, page: u32) -> Result<Rooms, NoMemory>
        ensures rows { IfOk result (λ rooms. length rooms.rows.bytes ≡ page) }
        ensures index { IfOk result (λ rooms. length rooms.index.bytes ≡ page) }
    {
        Ok(Rooms {
            rows: PageBuf::new(alloc, page)?,
            index: PageBuf::new(alloc, page)?,
        })
    }
}
