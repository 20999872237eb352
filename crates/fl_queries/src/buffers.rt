// Room for the pages in hand.
ghost use Rattle.std.specs.Prelude.{◌≡◌, None, false, length, IfOk};
ghost use Rattle.fl_queries.specs.Room.{AreForgotten};

use fl_base::NoMemory;
use fl_flash::PageBuf;
use std::alloc::Global;

/// Room for a page of rows and for a page of an index, and the same for the right one of two cursors.
#[derive(Drop)]
pub struct Buffers {
    pub rows: PageBuf,
    pub index: PageBuf,
    pub right_rows: PageBuf,
    pub right_index: PageBuf,
}

/// Room for a page of rows and for one of an index.
fn page_pair(alloc: Global, size: u32) -> Result<(PageBuf, PageBuf), NoMemory>
    ensures size { IfOk result (λ pair. (length pair.0.bytes ≡ size) × (length pair.1.bytes ≡ size)) }
    ensures none { IfOk result (λ pair. (pair.0.holds ≡ None) × (pair.1.holds ≡ None)) }
{
    Ok((PageBuf::new(alloc, size)?, PageBuf::new(alloc, size)?))
}

impl Buffers {
    /// Room for pages of so many bytes.
    ///
    /// # Errors
    ///
    /// `NoMemory`: it isn't there.
    pub fn new(alloc: Global, size: u32) -> Result<Buffers, NoMemory>
        ensures rows { IfOk result (λ b. length b.rows.bytes ≡ size) }
        ensures index { IfOk result (λ b. length b.index.bytes ≡ size) }
        ensures right_rows { IfOk result (λ b. length b.right_rows.bytes ≡ size) }
        ensures right_index { IfOk result (λ b. length b.right_index.bytes ≡ size) }
        ensures none { IfOk result AreForgotten }
    {
        let (rows, index) = page_pair(alloc, size)?;
        let (right_rows, right_index) = page_pair(alloc, size)?;
        Ok(Buffers {
            rows,
            index,
            right_rows,
            right_index,
        })
    }

    /// They hold no page from then on.
    pub fn forget(&mut self)
        ensures rows { length self.new.rows.bytes ≡ length self.old.rows.bytes }
        ensures index { length self.new.index.bytes ≡ length self.old.index.bytes }
        ensures right { (length self.new.right_rows.bytes ≡ length self.old.right_rows.bytes) × (length self.new.right_index.bytes ≡ length self.old.right_index.bytes) }
        ensures none { AreForgotten self.new }
    {
        self.rows.forget();
        self.index.forget();
        self.right_rows.forget();
        self.right_index.forget();
    }

    /// They hold no page from then on if the tables aren't mounted any more.
    pub fn keep_while(&mut self, mounted: bool)
        ensures rows { length self.new.rows.bytes ≡ length self.old.rows.bytes }
        ensures index { length self.new.index.bytes ≡ length self.old.index.bytes }
        ensures right { (length self.new.right_rows.bytes ≡ length self.old.right_rows.bytes) × (length self.new.right_index.bytes ≡ length self.old.right_index.bytes) }
        ensures none { mounted ≡ false → AreForgotten self.new }
    {
        if !mounted {
            self.forget();
        }
    }
}
