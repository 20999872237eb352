// A table with a log, of a configuration.
ghost use Rattle.std.specs.Prelude.{◌≡◌, ◌≤◌, ◌<◌, ◌+◌, ◌^◌, ◌⊎◌, Err, None, false, option_map, IfSome, IfOk, IfErr, OnOk};
ghost use Rattle.fl_flash.specs.Flash.{FlashState, pages};
ghost use Rattle.fl_plan.specs.Plan.{IsConfigOf, blocks_in};
ghost use Rattle.fl_plan.specs.Refusal.{config_fault_with, Tells};
ghost use Rattle.fl_model.specs.Bare.{bare};
ghost use Rattle.fl_model.specs.Record.{Plan, blocks_of};

use crate::log::RecordLog;
use crate::table::LoggedTable;
use fl_base::RingPlace;
use fl_plan::{ConfigRefusal, TableConfig};
use fl_table::Table;
use std::alloc::Global;

impl<const KNOTS: usize, const SLOTS: usize> LoggedTable<KNOTS, SLOTS> {
    ghost use Rattle.fl_plan.specs.declared.refusal.ConfigRefusal.TheVariants.{NoMemory};
    ghost use Rattle.fl_rlc.specs.Memory.{place_in};
    ghost use Rattle.fl_rlc.specs.Table.{is_running, is_stopped, log_in, IsPlanned, LiesOn};

    /// The table of a configuration, with a log in the ring at this place, which lies beside the rings of the configuration.
    /// It isn't mounted.
    ///
    /// KNOTS and SLOTS are 2 to 65,536.
    pub fn plan(
        alloc: Global,
        config: &TableConfig,
        log: Option<RingPlace>,
    ) -> Result<LoggedTable<KNOTS, SLOTS>, ConfigRefusal>
        requires knots { (2 ≤ KNOTS) × (KNOTS ≤ 65536) }
        requires slots { (2 ≤ SLOTS) × (SLOTS ≤ 65536) }
        ensures fits { OnOk result (config_fault_with log config.now ≡ None) }
        ensures planned { IfOk result (λ t. (plan : Plan) → IsConfigOf config.now (bare plan) → plan.log_blocks ≡ blocks_in log
            → IfSome log (λ place. place.first_block ≡ config.now.rows.first_block + blocks_of (bare plan)) → IsPlanned t config.now.rows.first_block plan) }
        ensures log { IfOk result (λ t. option_map (λ l. place_in l) (log_in t) ≡ log) }
        ensures lies { IfOk result (λ t. (f : FlashState) → f.geometry ≡ config.now.geometry → config.now.rows.first_block + config.now.rows.blocks ≤ f.blocks
            → IfSome config.now.index (λ place. place.first_block + place.blocks ≤ f.blocks) → IfSome config.now.var (λ place. place.first_block + place.blocks ≤ f.blocks)
            → IfSome log (λ place. place.first_block + place.blocks ≤ f.blocks) → pages f < 2 ^ 32 → LiesOn t f) }
        ensures fresh { IfOk result (λ t. (is_running t ≡ false) × (is_stopped t ≡ false)) }
        ensures refused { IfErr result (λ refusal. ((refusal ≡ NoMemory) × (config_fault_with log config.now ≡ None)) ⊎ Tells {A = LoggedTable KNOTS SLOTS} (Err refusal) (config_fault_with log config.now)) }
    {
        config.check_with(log)?;
        let table = Table::plan(alloc, config)?;
        let Some(place) = log else {
            return Ok(LoggedTable { table, log: None });
        };
        let log = RecordLog::plan(alloc, config.geometry, place)?;
        Ok(LoggedTable {
            table,
            log: Some(log),
        })
    }
}
