// A table with the room for a page of it, and the calls of a table by contracts that say no more than tests of it need, so that
// the proofs of these read no more.
ghost use Rattle.std.specs.Prelude.{◌≡◌, true, length, IfOk};
ghost use Rattle.fl_flash.specs.Flash.{FlashState, Stays};
ghost use Rattle.fl_table.specs.Memory.{LiesOn, is_running};

use crate::Table;
use fl_base::NoMemory;
use fl_flash::{Flash, PageBuf};
use fl_table::{FlushFault, MountFault, Mounted, PutRefusal};
use std::alloc::Global;

/// A table, and the room for a page of it.
#[derive(Drop)]
pub(crate) struct Store {
    pub table: Table,
    pub buf: PageBuf,
}

impl Store {
    /// A store of this table, whose pages have so many bytes.
    pub(crate) fn new(alloc: Global, table: Table, size: u32) -> Result<Store, NoMemory>
        ensures lies { IfOk result (λ s. (f : FlashState) → LiesOn table f → LiesOn s.table f) }
        ensures room { IfOk result (λ s. length s.buf.bytes ≡ size) }
    {
        let buf = PageBuf::new(alloc, size)?;
        Ok(Store { table, buf })
    }
}

/// Whether a table is mounted, and no operation failed since.
pub(crate) fn runs(table: &Table) -> bool
    ensures { result ≡ true → is_running table.now ≡ true }
{
    table.is_mounted() && !table.is_stopped()
}

pub(crate) fn mount<F: Flash>(
    table: &mut Table,
    flash: &mut F,
    buf: &mut PageBuf,
) -> Result<Mounted, MountFault>
    requires lies { LiesOn table.old (F.state flash.old) }
    requires room { length buf.old.bytes ≡ (F.state flash.old).geometry.page }
    ensures goes { Stays (F.state flash.old) (F.state flash.new) }
    ensures lies { LiesOn table.new (F.state flash.new) }
    ensures room { length buf.new.bytes ≡ length buf.old.bytes }
{
    table.mount(flash, buf)
}

pub(crate) fn put<F: Flash>(
    table: &mut Table,
    flash: &mut F,
    key: u64,
    values: &[i64],
    blob: Option<&[u8]>,
) -> Result<(), PutRefusal>
    requires lies { LiesOn table.old (F.state flash.old) }
    ensures goes { Stays (F.state flash.old) (F.state flash.new) }
    ensures lies { LiesOn table.new (F.state flash.new) }
{
    table.put(flash, key, values, blob)
}

pub(crate) fn flush<F: Flash>(table: &mut Table, flash: &mut F) -> Result<(), FlushFault>
    requires lies { LiesOn table.old (F.state flash.old) }
    ensures goes { Stays (F.state flash.old) (F.state flash.new) }
    ensures lies { LiesOn table.new (F.state flash.new) }
{
    table.flush(flash)
}
