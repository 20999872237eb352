// Whether a line is taken, by the lines before it.
ghost use Rattle.std.specs.Prelude.{◌≡◌, ◌+◌, ◌≤◌, ◌<◌, ◌++◌, ◌∷◌, [], ℕ, false, not, ◌&&◌, ◌==◌, is_some, unwrap_or, map, length, IfOk};
ghost use Rattle.std.specs.List.{list_any};
ghost use Rattle.fl_model.specs.Record.{bytes_equal};
ghost use Rattle.fl_words.specs.Config.{first_fault, device_faults, table_faults, plan_of, bad_log, too_large};
ghost use Rattle.fl_base.specs.declared.types.Geometry.{Geometry};
ghost use Rattle.fl_plan.specs.Plan.{IsRingAt, blocks_in};
ghost use Rattle.fl_plan.specs.Refusal.{Tells, pages_misfit};
ghost use Rattle.fl_plan.specs.Limits.{IsWithin, IsWithinLimits};
ghost use Rattle.fl_config.specs.Label.{LineLabel, plan_with};
ghost use Rattle.fl_config.specs.Lines.{place_faults, size_faults};
ghost use Rattle.fl_config.specs.Places.{end_from};
ghost use Rattle.fl_config.specs.Entry.{plan_in};
ghost use Rattle.fl_config.specs.Standing.{IsTaken, AreTables};
ghost use Rattle.fl_config.specs.Words.{line_of};

use crate::entry::Entry;
use crate::words::{TableWords, ring_at};
use arrayvec::ArrayVec;
use fl_base::{Geometry, Name, RingPlace};
use fl_plan::{ConfigRefusal, TableConfig, are_blocks, has_room_for, is_block_size, is_page_size};

/// The device of a device line.
pub(crate) fn device_of(page: u64, block: u64) -> Result<Geometry, ConfigRefusal>
    ensures refusal { Tells result (first_fault (device_faults (record { page = page; block = block }))) }
    ensures device { IfOk result (λ geometry. (geometry ≡ record { page = page; block = block }) × IsWithin geometry) }
{
    if !is_page_size(page) {
        return Err(ConfigRefusal::PageSize);
    }
    if !is_block_size(block) {
        return Err(ConfigRefusal::BlockSize);
    }
    Ok(Geometry {
        page: page as u32,
        block: block as u32,
    })
}

fn is_same(a: &Name, b: &Name) -> bool
    ensures { result ≡ bytes_equal a.now b.now }
{
    a.bytes() == b.bytes()
}

fn has_name(tables: &[Entry], name: &Name) -> bool
    ensures { result ≡ list_any (λ entry. bytes_equal entry.name name.now) tables.now }
{
    tables.iter().any(|entry| is_same(&entry.name, name))
}

fn check_place(tables: &ArrayVec<Entry, 4>, words: &TableWords) -> Result<(), ConfigRefusal>
    ensures { Tells result (first_fault (place_faults (map plan_in tables.now.items) (line_of words.now))) }
{
    if tables.is_full() {
        return Err(ConfigRefusal::TooManyTables);
    }
    if has_name(tables.as_slice(), &words.name) {
        return Err(ConfigRefusal::NameTaken);
    }
    Ok(())
}

/// The blocks of a log, as far as they matter for the size of a device: there is no room for more than 65,536.
fn blocks_of_log(log: Option<u64>) -> u64
    ensures few { result ≤ 65537 }
    ensures same { (geometry : Geometry) (others : ℕ) → IsWithin geometry → pages_misfit geometry (others + result) ≡ pages_misfit geometry (others + unwrap_or log 0) }
{
    match log {
        None => 0,
        Some(blocks) if blocks <= 65536 => blocks,
        Some(_) => 65537,
    }
}

fn is_bad_log(log: Option<u64>) -> bool
    ensures { result ≡ bad_log log }
{
    log.is_some_and(|blocks| !are_blocks(blocks))
}

/// Whether there are a log and a ring of variable data.
fn has_log_and_blobs(config: &TableConfig, log: Option<u64>) -> bool
    ensures { result ≡ (is_some log && not (blocks_in config.now.var == 0)) }
{
    log.is_some() && config.var_blocks() != 0
}

fn check_size(config: &TableConfig, blocks: u32, log: Option<u64>) -> Result<(), ConfigRefusal>
    requires limits { IsWithinLimits config.now }
    requires few { blocks ≤ 65536 }
    ensures { (label : LineLabel) → label.log_blocks ≡ unwrap_or log 0 → Tells result (first_fault (size_faults config.now.geometry blocks (plan_with label config.now) log)) }
{
    if config.row_len() > config.geometry.page - 24 {
        return Err(ConfigRefusal::RowTooLong);
    }
    let all = u64::from(blocks) + config.blocks() + blocks_of_log(log);
    if !has_room_for(config.geometry, all) {
        return Err(ConfigRefusal::DeviceTooLarge);
    }
    if config.lacks_index() {
        return Err(ConfigRefusal::Format);
    }
    if is_bad_log(log) {
        return Err(ConfigRefusal::LogBlocks);
    }
    if has_log_and_blobs(config, log) {
        return Err(ConfigRefusal::LogVar);
    }
    Ok(())
}

/// The place of a log behind the rings of its table, which begin at a block.
fn log_at(config: &TableConfig, first_block: u32, log: Option<u64>) -> Option<RingPlace>
    requires limits { IsWithinLimits config.now }
    requires few { first_block ≤ 65536 }
    requires log { bad_log log ≡ false }
    ensures { IsRingAt result (end_from first_block config.now) (unwrap_or log 0) }
{
    ring_at(first_block + config.blocks() as u32, log.unwrap_or(0))
}

/// The table of a table line, behind the tables before it.
pub(crate) fn table_of(
    geometry: Geometry,
    tables: &ArrayVec<Entry, 4>,
    blocks: u32,
    words: &TableWords,
) -> Result<Entry, ConfigRefusal>
    requires { AreTables geometry blocks tables.now.items }
    ensures refusal { Tells result (first_fault (table_faults geometry (map plan_in tables.now.items) (line_of words.now))) }
    ensures plan { IfOk result (λ entry. plan_in entry ≡ plan_of geometry (line_of words.now)) }
    ensures taken { IfOk result (λ entry. IsTaken geometry blocks entry) }
    ensures room { IfOk result (λ entry. length tables.now.items < 4) }
    ensures size { IfOk result (λ entry. too_large geometry (map plan_in tables.now.items ++ plan_of geometry (line_of words.now) ∷ []) ≡ false) }
{
    check_place(tables, words)?;
    let config = words.table(geometry, blocks)?;
    check_size(&config, blocks, words.log)?;
    let log = log_at(&config, blocks, words.log);
    Ok(Entry {
        name: words.name,
        base: words.base,
        width: words.width,
        config,
        log,
    })
}
