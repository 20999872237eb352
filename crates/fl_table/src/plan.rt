// A table of a configuration.
ghost use Rattle.std.specs.Prelude.{◌≡◌, ◌≤◌, ◌<◌, ◌⊎◌, ◌+◌, ◌*◌, ◌^◌, None, Err, false, is_some, nat_lt, length, IfSome, IfOk, IfErr, OnOk};
ghost use Rattle.std.specs.Option.{ForSome};
ghost use Rattle.fl_flash.specs.Flash.{FlashState, pages};
ghost use Rattle.fl_plan.specs.Limits.{IsWithinLimits};
ghost use Rattle.fl_plan.specs.Plan.{IsConfigOf, blocks_in};
ghost use Rattle.fl_plan.specs.Refusal.{config_fault, Tells};
ghost use Rattle.fl_model.specs.Record.{layout_len};
ghost use Rattle.fl_schema.specs.Form.{layout_with};
ghost use Rattle.fl_schema.specs.Schema.{layout_of, types_of};
ghost use Rattle.fl_model.specs.Record.{Plan};
ghost use Rattle.fl_table.specs.BlobAt.{has_blobs};
ghost use Rattle.fl_parts.specs.Bitmaps.{ArePlanned, AreIdle, LieOn, next_after};
ghost use Rattle.fl_parts.specs.Blobs as variable;
ghost use Rattle.fl_table.specs.Look.{layout_in};
ghost use Rattle.fl_table.specs.Memory.{is_running, is_stopped, IsPlanned, LiesOn};

use crate::table::Table;
use fl_find::KeyIndex;
use fl_index::BitmapIndex;
use fl_page::PageWriter;
use fl_plan::{ConfigRefusal, TableConfig};
use fl_schema::Schema;
use fl_var::VarData;
use std::alloc::Global;

/// The schema of a configuration that isn't refused.
fn schema_of(config: &TableConfig) -> Schema<8>
    requires fits { config_fault config.now ≡ None }
    requires limits { IsWithinLimits config.now }
    ensures layout { layout_of result ≡ layout_with config.now.key config.now.columns.items (nat_lt 0 (blocks_in config.now.var)) }
    ensures types { types_of result ≡ config.now.columns.items }
    ensures room { layout_len (layout_of result) + 24 ≤ config.now.geometry.page }
{
    let room = config.geometry.page - 24;
    let blobs = config.var_blocks() > 0;
    let Ok(schema) = Schema::new(config.key, config.columns.as_slice(), blobs, room) else {
        unreachable!()
    };
    schema
}

/// The index of a configuration that isn't refused.
fn bitmaps_of(alloc: Global, config: &TableConfig) -> Result<Option<BitmapIndex>, fl_base::NoMemory>
    requires fits { config_fault config.now ≡ None }
    requires limits { IsWithinLimits config.now }
    ensures planned { IfOk result (λ bitmaps. (plan : Plan) → IsConfigOf config.now plan → ArePlanned bitmaps (config.now.rows.first_block + plan.data_blocks) plan) }
    ensures lie { IfOk result (λ bitmaps. (f : FlashState) → f.geometry ≡ config.now.geometry → IfSome config.now.index (λ place. place.first_block + place.blocks ≤ f.blocks) → pages f < 2 ^ 32 → LieOn bitmaps f) }
    ensures idle { IfOk result (λ bitmaps. AreIdle bitmaps) }
    ensures few { IfOk result (λ bitmaps. ForSome bitmaps (λ index. config.now.rows.blocks * config.now.geometry.block + 6 ≤ 65536)) }
    ensures next { IfOk result (λ bitmaps. next_after bitmaps ≤ 1) }
{
    let (Some(place), Some(buckets)) = (config.index, config.buckets) else {
        return Ok(None);
    };
    let index = BitmapIndex::plan(
        alloc,
        config.geometry,
        place,
        buckets.bits,
        config.full_index,
    )?;
    Ok(Some(index))
}

/// The variable data of a configuration that isn't refused.
fn blobs_of(alloc: Global, config: &TableConfig) -> Result<Option<VarData>, fl_base::NoMemory>
    requires fits { config_fault config.now ≡ None }
    requires limits { IsWithinLimits config.now }
    ensures planned { IfOk result (λ blobs. (plan : Plan) → IsConfigOf config.now plan → variable.ArePlanned blobs (config.now.rows.first_block + plan.data_blocks + plan.index_blocks) plan) }
    ensures lie { IfOk result (λ blobs. (f : FlashState) → f.geometry ≡ config.now.geometry → IfSome config.now.var (λ place. place.first_block + place.blocks ≤ f.blocks) → pages f < 2 ^ 32 → variable.LieOn blobs f) }
    ensures has { IfOk result (λ blobs. nat_lt 0 (blocks_in config.now.var) ≡ is_some blobs) }
{
    let Some(place) = config.var else {
        return Ok(None);
    };
    let var = VarData::plan(alloc, config.geometry, place)?;
    Ok(Some(var))
}

impl<const KNOTS: usize, const SLOTS: usize> Table<KNOTS, SLOTS> {
    ghost use Rattle.fl_model.specs.Record.{Plan};
    ghost use Rattle.fl_plan.specs.declared.refusal.ConfigRefusal.TheVariants.{NoMemory};

    /// The table of a configuration. It isn't mounted.
    ///
    /// KNOTS and SLOTS are 2 to 65,536.
    pub fn plan(alloc: Global, config: &TableConfig) -> Result<Table<KNOTS, SLOTS>, ConfigRefusal>
        requires knots { (2 ≤ KNOTS) × (KNOTS ≤ 65536) }
        requires slots { (2 ≤ SLOTS) × (SLOTS ≤ 65536) }
        ensures fits { OnOk result (config_fault config.now ≡ None) }
        ensures planned { IfOk result (λ t. (plan : Plan) → IsConfigOf config.now plan → IsPlanned t config.now.rows.first_block plan) }
        ensures lies { IfOk result (λ t. (f : FlashState) → f.geometry ≡ config.now.geometry → config.now.rows.first_block + config.now.rows.blocks ≤ f.blocks
            → IfSome config.now.index (λ place. place.first_block + place.blocks ≤ f.blocks) → IfSome config.now.var (λ place. place.first_block + place.blocks ≤ f.blocks) → pages f < 2 ^ 32 → LiesOn t f) }
        ensures fresh { IfOk result (λ t. (is_running t ≡ false) × (is_stopped t ≡ false)) }
        ensures shape { IfOk result (λ t. (has_blobs t ≡ nat_lt 0 (blocks_in config.now.var)) × (layout_len (layout_in t) + 24 ≤ config.now.geometry.page)) }
        ensures refused { IfErr result (λ refusal. ((refusal ≡ NoMemory) × (config_fault config.now ≡ None)) ⊎ Tells {A = Table KNOTS SLOTS} (Err refusal) (config_fault config.now)) }
    {
        config.check()?;
        let pages = config.rows.blocks as usize * config.geometry.block as usize;
        let Ok(counts) = vec![in alloc; 0; pages] else {
            return Err(ConfigRefusal::NoMemory);
        };
        let bitmaps = bitmaps_of(alloc, config)?;
        let blobs = blobs_of(alloc, config)?;
        Ok(Table {
            schema: schema_of(config),
            geometry: config.geometry,
            place: config.rows,
            buckets: config.buckets,
            ring: None,
            stopped: false,
            writer: PageWriter::new(alloc, config.geometry.page)?,
            bitmap: 0,
            last_key: None,
            counts,
            voids: 0,
            blob_end: 0,
            index: KeyIndex::new(config.error),
            bitmaps,
            blobs,
            blob_limit: config.blob_limit,
        })
    }
}
