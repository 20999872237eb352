// What finds whether a table is sound.
ghost use Rattle.std.specs.Prelude.{Option, IsTrue, IfOk, IfErr};
ghost use Rattle.fl_base.specs.declared.types.RingPlace.{RingPlace};
ghost use Rattle.fl_flash.specs.Flash.{FlashState};
ghost use Rattle.fl_plan.specs.declared.table_config.TableConfig.{TableConfig};
ghost use Rattle.fl_frame.specs.Reads.{OnlyLooks};
ghost use Rattle.fl_image_check.specs.Checking.{LiesOn, LogLies, FailsBy};
ghost use Rattle.fl_check.specs.declared.faults.TableRules.{TableRules};
ghost use Rattle.fl_check.specs.declared.finding.Finding.{Finding};

use fl_base::RingPlace;
use fl_check::{CheckFault, Finding, TableRules};
use fl_flash::Flash;
use fl_plan::TableConfig;
use std::alloc::Global;

/// What finds whether a table is sound.
pub trait CheckTable {
    /// What is found rightly of a table and its log over a flash.
    ghost finds: { TableConfig → Option RingPlace → FlashState → Finding → Type 0 };
    /// .. by all rules.
    ghost rules: { TableConfig → Option RingPlace → FlashState → TableRules → Type 0 };

    /// Finds whether the table is sound, with its log where it has one, and mounts and changes nothing.
    fn check_table<F: Flash>(
        &mut self,
        alloc: Global,
        flash: &mut F,
        config: &TableConfig,
        log: Option<RingPlace>,
    ) -> Result<Finding, CheckFault>
        requires lies { LiesOn config.now (F.state flash.old) }
        requires log { LogLies config.now log (F.state flash.old) }
        ensures looks { OnlyLooks (F.state flash.old) (F.state flash.new) }
        ensures finding { IfOk result (λ finding. IsTrue (F.state flash.old).media.tells → finds config.now log (F.state flash.old) finding) }
        ensures fails { IfErr result (λ fault. FailsBy (F.state flash.old) fault (F.state flash.new)) };

    /// Finds which of its rules hold, and mounts and changes nothing.
    fn check_rules<F: Flash>(
        &mut self,
        alloc: Global,
        flash: &mut F,
        config: &TableConfig,
        log: Option<RingPlace>,
    ) -> Result<TableRules, CheckFault>
        requires lies { LiesOn config.now (F.state flash.old) }
        requires log { LogLies config.now log (F.state flash.old) }
        ensures looks { OnlyLooks (F.state flash.old) (F.state flash.new) }
        ensures found { IfOk result (λ found. IsTrue (F.state flash.old).media.tells → rules config.now log (F.state flash.old) found) }
        ensures fails { IfErr result (λ fault. FailsBy (F.state flash.old) fault (F.state flash.new)) };
}
