// The rules of a table's rings, as what finds whether it is sound.
ghost use Rattle.fl_flash.specs.Flash.{page_at};
ghost use Rattle.fl_check.specs.Rules.{AreRules};
ghost use Rattle.fl_check.specs.Whole.{IsFinding};

use crate::CheckTable;
use fl_base::RingPlace;
use fl_check::{CheckFault, Finding, TableRules, check_rules, check_table};
use fl_flash::Flash;
use fl_plan::TableConfig;
use std::alloc::Global;

/// Finds the first rule on a table's rings that doesn't hold, or which of all hold.
#[derive(Drop)]
pub struct RingChecker;

impl CheckTable for RingChecker {
    ghost finds = { λ config log f finding. IsFinding config log (page_at f) finding };

    ghost rules = { λ config log f rules. AreRules config log (page_at f) rules };

    fn check_table<F: Flash>(
        &mut self,
        alloc: Global,
        flash: &mut F,
        config: &TableConfig,
        log: Option<RingPlace>,
    ) -> Result<Finding, CheckFault> {
        check_table(alloc, flash, config, log)
    }

    fn check_rules<F: Flash>(
        &mut self,
        alloc: Global,
        flash: &mut F,
        config: &TableConfig,
        log: Option<RingPlace>,
    ) -> Result<TableRules, CheckFault> {
        check_rules(alloc, flash, config, log)
    }
}
