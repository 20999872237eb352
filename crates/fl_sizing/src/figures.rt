// The figures of a configuration.
ghost use Rattle.std.specs.Prelude.{◌≡◌, ◌≤◌, ◌++◌, Some, IfOk, IfSome, IsTrue, OnOk, sum_by};
ghost use Rattle.std.specs.List.{flat_map};
ghost use Rattle.fl_base.specs.declared.types.Geometry.{Geometry};
ghost use Rattle.fl_config.specs.Whole.{is_whole};
ghost use Rattle.fl_sizing.specs.Sizes.{blocks_wanted, device_memory};
ghost use Rattle.fl_sizing.specs.Text.{plan_text, table_text};

use crate::sizes::{TableSizes, blocks_wanted, memory};
use crate::text::{add_device, add_table};
use fl_base::{Geometry, NoMemory};
use fl_config::Config;
use std::alloc::Global;

/// The figures of its tables, in their order.
fn add_tables(text: &mut Vec<u8>, interval: Option<u64>, config: &Config) -> Result<(), NoMemory>
    requires { IfSome interval (λ seconds. seconds ≤ 1000000) }
    ensures { OnOk result (text.new.items ≡ text.old.items ++ flat_map (table_text interval) config.now.plans) }
{
    for i in 0..config.tables() {
        let sizes = TableSizes::of(config.table(i), config.log(i));
        let name = config.name(i);
        add_table(text, interval, &name, &sizes)?;
    }
    Ok(())
}

/// The blocks of its tables, whose indexes have as many as are wanted.
fn device_blocks(config: &Config) -> u64
    ensures { result ≡ sum_by blocks_wanted config.now.plans }
{
    let mut blocks = 0;
    for i in 0..config.tables() {
        blocks += blocks_wanted(config.table(i), config.log(i));
    }
    blocks
}

/// The bytes of memory that it takes.
fn device_bytes(config: &Config) -> u64
    requires { IsTrue (is_whole config.now) }
    ensures { (geometry : Geometry) → config.now.device ≡ Some geometry → result ≡ device_memory geometry config.now.plans }
{
    let mut bytes = 0;
    for i in 0..config.tables() {
        bytes += memory(config.table(i), config.log(i));
    }
    let Geometry { page, block } = config.geometry();
    bytes + u64::from(page) * u64::from(block) + 4 * u64::from(page)
}

/// The figures of its tables and of its device.
pub(crate) fn text_of(
    alloc: Global,
    interval: Option<u64>,
    config: &Config,
) -> Result<Vec<u8>, NoMemory>
    requires whole { IsTrue (is_whole config.now) }
    requires interval { IfSome interval (λ seconds. seconds ≤ 1000000) }
    ensures { IfOk result (λ text. (geometry : Geometry) → config.now.device ≡ Some geometry → text.items ≡ plan_text interval geometry config.now.plans) }
{
    let mut text = Vec::new(alloc);
    add_tables(&mut text, interval, config)?;
    add_device(
        &mut text,
        u64::from(config.blocks()),
        device_blocks(config),
        device_bytes(config),
    )?;
    Ok(text)
}
