// The buffers for a store's pages.
ghost use Rattle.std.specs.Prelude.{IfOk};
ghost use Rattle.fl_store.specs.Calls.{HavePage};

use fl_base::NoMemory;
use fl_flash::PageBuf;
use std::alloc::Global;

/// Room for a page of rows and for a page of an index. Its owner lends it to each call that reads pages, so that no call takes memory.
#[derive(Drop)]
pub struct Pages {
    /// The page of rows that was read last.
    pub rows: PageBuf,
    /// The page of an index that was read last.
    pub index: PageBuf,
}

impl Pages {
    /// Room for pages of so many bytes, as the configuration's geometry has them.
    /// # Errors
    /// `NoMemory`: it isn't there.
    pub fn new(alloc: Global, page_size: u32) -> Result<Pages, NoMemory>
        ensures { IfOk result (λ pages. HavePage pages page_size) }
    {
        Ok(Pages {
            rows: PageBuf::new(alloc, page_size)?,
            index: PageBuf::new(alloc, page_size)?,
        })
    }
}
