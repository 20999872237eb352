// The words of a table line, and the table that they are.
ghost use Rattle.std.specs.Prelude.{◌≡◌, ◌^◌, ◌<◌, ◌≤◌, ◌||◌, ◌==◌, IsTrue, not, map, Some, IfOk, OnOk};
ghost use Rattle.fl_words.specs.Config.{first_fault, is_odd_ring, columns_in};
ghost use Rattle.fl_schema.specs.Form.{key_width};
ghost use Rattle.fl_schema.specs.Types.{column_of};
ghost use Rattle.fl_plan.specs.Plan.{IsRingAt};
ghost use Rattle.fl_plan.specs.Refusal.{Tells};
ghost use Rattle.fl_plan.specs.Limits.{IsWithin};
ghost use Rattle.fl_config.specs.Lines.{key_faults, number_faults, line_faults, bad_bits};
ghost use Rattle.fl_config.specs.Words.{line_of, AreWithin, AreBucketsIn, IsTableOf};

use crate::columns::columns_in;
use arrayvec::ArrayVec;
use fl_base::{Geometry, Name, RingPlace};
use fl_bitmap::Buckets;
use fl_plan::{ConfigRefusal, TableConfig, are_blocks, has_room_for_blobs};
use fl_schema::{ColumnType, KeyWidth};

/// The words of a table line, in their order.
#[derive(Clone, Copy)]
pub(crate) struct TableWords<'a> {
    pub(crate) name: Name,
    pub(crate) key: u64,
    pub(crate) columns: &'a [u8],
    pub(crate) rows: u64,
    pub(crate) index: u64,
    pub(crate) var: u64,
    pub(crate) bits: u64,
    pub(crate) base: i64,
    pub(crate) width: u64,
    pub(crate) error: u64,
    pub(crate) blob: u64,
    pub(crate) full: bool,
    pub(crate) log: Option<u64>,
}

fn is_ring(blocks: u64) -> bool
    ensures { result ≡ not (is_odd_ring blocks) }
{
    blocks == 0 || are_blocks(blocks)
}

/// The place of a ring of so many blocks from a block on; none where it has no blocks.
pub(crate) fn ring_at(first_block: u32, blocks: u64) -> Option<RingPlace>
    requires { blocks ≤ 16384 }
    ensures { IsRingAt result first_block blocks }
{
    if blocks == 0 {
        return None;
    }
    Some(RingPlace {
        first_block,
        blocks: blocks as u32,
    })
}

impl TableWords<'_> {
    fn key_width(&self) -> Result<KeyWidth, ConfigRefusal>
        ensures refusal { Tells result (first_fault (key_faults (line_of self.now))) }
        ensures width { IfOk result (λ key. key_width key ≡ self.now.key) }
    {
        match self.key {
            4 => Ok(KeyWidth::Four),
            8 => Ok(KeyWidth::Eight),
            _ => Err(ConfigRefusal::KeyWidth),
        }
    }

    /// The refusal of its numbers, if there is one.
    fn check_numbers(&self, geometry: Geometry) -> Result<(), ConfigRefusal>
        requires { IsWithin geometry }
        ensures refusal { Tells result (first_fault (number_faults geometry (line_of self.now))) }
        ensures limits { OnOk result (AreWithin geometry self.now) }
    {
        if !are_blocks(self.rows) {
            return Err(ConfigRefusal::DataBlocks);
        }
        if !is_ring(self.index) {
            return Err(ConfigRefusal::IndexBlocks);
        }
        if !is_ring(self.var) {
            return Err(ConfigRefusal::VarBlocks);
        }
        if !self.has_bits() {
            return Err(ConfigRefusal::Bits);
        }
        if self.width == 0 || self.width > 9223372036854775807 {
            return Err(ConfigRefusal::Width);
        }
        if self.error > 255 {
            return Err(ConfigRefusal::ErrorBound);
        }
        if !has_room_for_blobs(geometry, self.var, self.blob) {
            return Err(ConfigRefusal::BlobLimit);
        }
        Ok(())
    }

    fn has_bits(&self) -> bool
        ensures { result ≡ not (bad_bits (line_of self.now)) }
    {
        match self.bits {
            0 => self.index == 0,
            8 | 16 | 64 => true,
            _ => false,
        }
    }

    fn buckets(&self) -> Option<Buckets>
        requires bits { IsTrue ((self.now.bits == 0) || (self.now.bits == 8) || (self.now.bits == 16) || (self.now.bits == 64)) }
        requires some { 1 ≤ self.now.width }
        requires signed { self.now.width < 2 ^ 63 }
        ensures { AreBucketsIn result (line_of self.now) }
    {
        if self.bits == 0 {
            return None;
        }
        Some(Buckets {
            bits: self.bits as u32,
            base: self.base,
            width: self.width,
        })
    }

    /// The table that the words are, with its rings from a block on.
    pub(crate) fn table(
        &self,
        geometry: Geometry,
        first_block: u32,
    ) -> Result<TableConfig, ConfigRefusal>
        requires within { IsWithin geometry }
        requires few { first_block ≤ 65536 }
        ensures refusal { Tells result (first_fault (line_faults geometry (line_of self.now))) }
        ensures table { IfOk result (λ config. IsTableOf geometry first_block (line_of self.now) config) }
    {
        let key = self.key_width()?;
        let columns = columns_in(self.columns)?;
        self.check_numbers(geometry)?;
        Ok(self.config(geometry, first_block, key, columns))
    }

    fn config(
        &self,
        geometry: Geometry,
        first_block: u32,
        key: KeyWidth,
        columns: ArrayVec<ColumnType, 8>,
    ) -> TableConfig
        requires limits { AreWithin geometry self.now }
        requires within { IsWithin geometry }
        requires few { first_block ≤ 65536 }
        requires key { key_width key ≡ self.now.key }
        requires columns { columns_in self.now.columns.now ≡ Some (map column_of columns.items) }
        ensures { IsTableOf geometry first_block (line_of self.now) result }
    {
        let rows = self.rows as u32;
        TableConfig {
            geometry,
            key,
            columns,
            rows: RingPlace {
                first_block,
                blocks: rows,
            },
            index: ring_at(first_block + rows, self.index),
            var: ring_at(first_block + rows + self.index as u32, self.var),
            buckets: self.buckets(),
            error: self.error as u32,
            blob_limit: self.blob as u32,
            full_index: self.full,
        }
    }
}
