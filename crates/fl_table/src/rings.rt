// How many pages the rings of a table keep.
ghost use Rattle.std.specs.Prelude.{◌≡◌};
ghost use Rattle.fl_parts.specs.Rings.{index_pages, blob_pages, oldest_page};

use crate::table::Table;
use fl_index::BitmapIndex;
use fl_var::VarData;

/// How many pages a table's rings keep, the void ones among them: that of its data pages, that of its index pages and that
/// of its variable data. There is no count where there is no such ring.
#[derive(Clone, Copy, Debug, PartialEq, Eq)]
pub struct TableRings {
    pub rows: u32,
    pub index: Option<u32>,
    pub blobs: Option<u32>,
}

fn index_pages(bitmaps: &Option<BitmapIndex>) -> Option<u32>
    ensures { result ≡ index_pages bitmaps.now }
{
    match bitmaps {
        Some(index) => Some(index.pages()),
        None => None,
    }
}

fn blob_pages(blobs: &Option<VarData>) -> Option<u32>
    ensures { result ≡ blob_pages blobs.now }
{
    match blobs {
        Some(var) => Some(var.pages()),
        None => None,
    }
}

fn oldest_page(blobs: &Option<VarData>) -> Option<u32>
    ensures { result ≡ oldest_page blobs.now }
{
    match blobs {
        Some(var) => Some(var.oldest()),
        None => None,
    }
}

impl<const KNOTS: usize, const SLOTS: usize> Table<KNOTS, SLOTS> {
    ghost use Rattle.std.specs.Prelude.{ℕ, option_map};
    ghost use Rattle.fl_flash.specs.Flash.{FlashState};
    ghost use Rattle.fl_model.specs.Record.{Plan};
    ghost use Rattle.fl_model.specs.Ring as rings;
    ghost use Rattle.fl_model.specs.Table as model;
    ghost use Rattle.fl_table.specs.BlobAt.{data_in};
    ghost use Rattle.fl_table.specs.Rings.{rings_in, rings_of};
    ghost use Rattle.fl_table.specs.Standing.{Stands};

    /// How many pages each of its rings keeps. A ring that isn't mounted keeps none. No page is read.
    pub fn rings(&self) -> TableRings
        ensures exact { result ≡ rings_in self.now }
        ensures stands { (f : FlashState) → (first : ℕ) → (plan : Plan) → (table : model.Table) → Stands self.now f first plan table → result ≡ rings_of table }
    {
        let oldest = self.oldest();
        let next = self.next_number();
        TableRings {
            rows: next - oldest,
            index: index_pages(&self.bitmaps),
            blobs: blob_pages(&self.blobs),
        }
    }

    /// The number of the oldest kept page of variable data, or of the next one where none is kept; none where there is no
    /// variable data. A blob that has a byte and begins before this page is gone. No page is read.
    pub fn oldest_blob_page(&self) -> Option<u32>
        ensures exact { result ≡ oldest_page (data_in self.now) }
        ensures stands { (f : FlashState) → (first : ℕ) → (plan : Plan) → (table : model.Table) → Stands self.now f first plan table → result ≡ option_map (λ ring. rings.oldest ring) table.var }
    {
        oldest_page(&self.blobs)
    }
}
