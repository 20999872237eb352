// The configuration of one table.
ghost use Rattle.std.specs.Prelude.{◌≡◌, ◌≤◌, ◌&&◌, ◌==◌, OnOk};
ghost use Rattle.fl_model.specs.Record.{row_len, blocks_of};
ghost use Rattle.fl_words.specs.Config.{first_fault};
ghost use Rattle.fl_plan.specs.Plan.{Label, blocks_in, plan_of_table};
ghost use Rattle.fl_plan.specs.Refusal.{is_bad_ring, field_faults, room_faults, ring_faults, config_fault, config_fault_with, Tells};
ghost use Rattle.fl_plan.specs.Limits.{IsWithin, IsWithinLimits};

use crate::ConfigRefusal;
use crate::limits::{are_blocks, has_room_for, has_room_for_blobs, is_block_size, is_page_size};
use arrayvec::ArrayVec;
use fl_base::{Geometry, RingPlace};
use fl_bitmap::Buckets;
use fl_schema::{ColumnType, KeyWidth};

/// One table: the form of its rows, the places of its rings, and its limits.
#[derive(Drop)]
pub struct TableConfig {
    pub geometry: Geometry,
    pub key: KeyWidth,
    pub columns: ArrayVec<ColumnType, 8>,
    /// The ring of data pages.
    pub rows: RingPlace,
    /// The ring of index pages, if there is one.
    pub index: Option<RingPlace>,
    /// The ring of variable data, if there is one.
    pub var: Option<RingPlace>,
    /// The buckets of the pages' bitmaps, if they have one.
    pub buckets: Option<Buckets>,
    /// The greatest error of the spline, in pages.
    pub error: u32,
    /// The greatest length of a blob, in bytes; 0 where there is no ring of variable data.
    pub blob_limit: u32,
    /// Whether an index entry tells of its data page more than the bitmap: its first key, its count of rows and where its
    /// blobs end. There is an index ring then.
    pub full_index: bool,
}

fn blocks_in(place: Option<RingPlace>) -> u32
    ensures { result ≡ blocks_in place }
{
    place.map_or(0, |place| place.blocks)
}

fn is_bad_ring(place: Option<RingPlace>) -> bool
    ensures { result ≡ is_bad_ring place }
{
    place.is_some_and(|place| !are_blocks(u64::from(place.blocks)))
}

impl TableConfig {
    /// The blocks of the ring of index pages; none where there is no such ring.
    pub fn index_blocks(&self) -> u32
        ensures { result ≡ blocks_in self.now.index }
    {
        blocks_in(self.index)
    }

    /// The blocks of the ring of variable data; none where there is no such ring.
    pub fn var_blocks(&self) -> u32
        ensures { result ≡ blocks_in self.now.var }
    {
        blocks_in(self.var)
    }

    /// The blocks of all its rings.
    pub fn blocks(&self) -> u64
        ensures { (label : Label) → result ≡ blocks_of (plan_of_table label self.now) }
    {
        u64::from(self.rows.blocks)
            + u64::from(blocks_in(self.index))
            + u64::from(blocks_in(self.var))
    }

    /// The bytes of a row.
    pub fn row_len(&self) -> u32
        ensures exact { (label : Label) → result ≡ row_len (plan_of_table label self.now) }
        ensures short { result ≤ 82 }
    {
        let mut len = self.key.width();
        for column in self.columns.as_slice() {
            len += column.width();
        }
        if blocks_in(self.var) > 0 {
            len += 10;
        }
        len
    }

    /// The refusal of this table, if there is one: the first that applies of those that its fields leave open.
    pub fn check(&self) -> Result<(), ConfigRefusal>
        ensures refusal { Tells result (config_fault self.now) }
        ensures limits { OnOk result (IsWithinLimits self.now) }
    {
        self.check_with(None)
    }

    /// The refusal of this table with a log in the ring at this place, or with none: the first that applies, in the order
    /// of a table line's. The blocks of the log count in the size of the device.
    pub fn check_with(&self, log: Option<RingPlace>) -> Result<(), ConfigRefusal>
        ensures refusal { Tells result (config_fault_with log self.now) }
        ensures limits { OnOk result (IsWithinLimits self.now) }
    {
        self.check_fields()?;
        self.check_room()?;
        self.check_rings(log)
    }

    /// Whether its index entries are to be full, and there is no index.
    pub fn lacks_index(&self) -> bool
        ensures { result ≡ (self.now.full_index && (blocks_in self.now.index == 0)) }
    {
        self.full_index && self.index_blocks() == 0
    }

    fn check_fields(&self) -> Result<(), ConfigRefusal>
        ensures refusal { Tells result (first_fault (field_faults self.now)) }
        ensures limits { OnOk result (IsWithinLimits self.now) }
    {
        if !is_page_size(u64::from(self.geometry.page)) {
            return Err(ConfigRefusal::PageSize);
        }
        if !is_block_size(u64::from(self.geometry.block)) {
            return Err(ConfigRefusal::BlockSize);
        }
        if self.columns.is_empty() {
            return Err(ConfigRefusal::ColumnType);
        }
        if !are_blocks(u64::from(self.rows.blocks)) {
            return Err(ConfigRefusal::DataBlocks);
        }
        if is_bad_ring(self.index) {
            return Err(ConfigRefusal::IndexBlocks);
        }
        if is_bad_ring(self.var) {
            return Err(ConfigRefusal::VarBlocks);
        }
        if self.index.is_some() && self.buckets.is_none() {
            return Err(ConfigRefusal::Bits);
        }
        if self.error > 255 {
            return Err(ConfigRefusal::ErrorBound);
        }
        Ok(())
    }

    /// The refusal of the greatest length of a blob or of the length of a row.
    fn check_room(&self) -> Result<(), ConfigRefusal>
        requires within { IsWithin self.now.geometry }
        requires few { blocks_in self.now.var ≤ 16384 }
        ensures { (label : Label) → Tells result (first_fault (room_faults (plan_of_table label self.now))) }
    {
        let blocks = u64::from(blocks_in(self.var));
        if !has_room_for_blobs(self.geometry, blocks, u64::from(self.blob_limit)) {
            return Err(ConfigRefusal::BlobLimit);
        }
        if self.row_len() > self.geometry.page - 24 {
            return Err(ConfigRefusal::RowTooLong);
        }
        Ok(())
    }

    /// The refusal of the size of all rings, of the form of index entries or of the log.
    fn check_rings(&self, log: Option<RingPlace>) -> Result<(), ConfigRefusal>
        requires limits { IsWithinLimits self.now }
        ensures { Tells result (first_fault (ring_faults log self.now)) }
    {
        let all = self.blocks() + u64::from(blocks_in(log));
        if !has_room_for(self.geometry, all) {
            return Err(ConfigRefusal::DeviceTooLarge);
        }
        if self.lacks_index() {
            return Err(ConfigRefusal::Format);
        }
        if is_bad_ring(log) {
            return Err(ConfigRefusal::LogBlocks);
        }
        if log.is_some() && self.var.is_some() {
            return Err(ConfigRefusal::LogVar);
        }
        Ok(())
    }
}
