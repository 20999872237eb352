// The check of the tables on a flash.
ghost use Rattle.std.specs.Prelude.{◌≡◌, ◌<◌, ◌≤◌, ◌⊎◌, if◌then◌else◌, length, IsTrue, IfOk, IfErr, Err};
ghost use Rattle.std.specs.Bool.{OnTrue, OnFalse};
ghost use Rattle.fl_base.specs.Causes.{Rose};
ghost use Rattle.fl_frame.specs.Reads.{OnlyLooks};
ghost use Rattle.fl_image_check.specs.Checking.{IsOver, IsFound, FindsBy, TableEnds, IsCheckStatus, check_status, TablesEndBy};
ghost use Rattle.fl_image_check.specs.declared.extent.Extent.{Extent};
ghost use Rattle.fl_image.specs.declared.status.ToolStatus.{ToolStatus};

use crate::finding::{are_kept, is_sound};
use crate::{CheckTable, Extent, write_finding, write_rules};
use fl_base::Sink;
use fl_check::{CheckFault, Finding, TableRules};
use fl_config::Config;
use fl_flash::Flash;
use fl_image::ToolStatus;
use std::alloc::Global;

/// The status of a check that finds nothing of a table.
fn check_status(fault: CheckFault) -> ToolStatus
    ensures { result ≡ check_status fault }
{
    match fault {
        CheckFault::Flash(_) => ToolStatus::Device,
        CheckFault::NoMemory => ToolStatus::NoMemory,
    }
}

/// Finds whether a table is sound, by its number from 0.
fn check_at<F: Flash, C: CheckTable>(
    alloc: Global,
    checker: &mut C,
    config: &Config,
    i: usize,
    flash: &mut F,
) -> Result<Finding, ToolStatus>
    requires table { i < length config.now.plans }
    requires over { IsOver config.now (F.state flash.old) }
    ensures looks { OnlyLooks (F.state flash.old) (F.state flash.new) }
    ensures finding { IfOk result (λ finding. IsTrue (F.state flash.old).media.tells → IsFound C.finds config.now (F.state flash.old).media.content i finding) }
    ensures device { result ≡ Err ToolStatus.Device → Rose (F.state flash.old).media.faults (F.state flash.new).media.faults }
    ensures statuses { IfErr result (λ status. (status ≡ ToolStatus.NoMemory) ⊎ (status ≡ ToolStatus.Device)) }
{
    match checker.check_table(alloc, flash, config.table(i), config.log(i)) {
        Ok(finding) => Ok(finding),
        Err(fault) => Err(check_status(fault)),
    }
}

/// Finds which rules of a table hold, by its number from 0.
fn rules_at<F: Flash, C: CheckTable>(
    alloc: Global,
    checker: &mut C,
    config: &Config,
    i: usize,
    flash: &mut F,
) -> Result<TableRules, ToolStatus>
    requires table { i < length config.now.plans }
    requires over { IsOver config.now (F.state flash.old) }
    ensures looks { OnlyLooks (F.state flash.old) (F.state flash.new) }
    ensures found { IfOk result (λ rules. IsTrue (F.state flash.old).media.tells → IsFound C.rules config.now (F.state flash.old).media.content i rules) }
    ensures device { result ≡ Err ToolStatus.Device → Rose (F.state flash.old).media.faults (F.state flash.new).media.faults }
    ensures statuses { IfErr result (λ status. (status ≡ ToolStatus.NoMemory) ⊎ (status ≡ ToolStatus.Device)) }
{
    match checker.check_rules(alloc, flash, config.table(i), config.log(i)) {
        Ok(rules) => Ok(rules),
        Err(fault) => Err(check_status(fault)),
    }
}

/// Tells the first rule of a table that doesn't hold, or that it is sound.
fn tell_first<F: Flash, C: CheckTable, K: Sink>(
    alloc: Global,
    checker: &mut C,
    config: &Config,
    i: usize,
    flash: &mut F,
    out: &mut K,
) -> Result<bool, ToolStatus>
    requires table { i < length config.now.plans }
    requires over { IsOver config.now (F.state flash.old) }
    ensures looks { OnlyLooks (F.state flash.old) (F.state flash.new) }
    ensures told { IsTrue (F.state flash.old).media.tells → TableEnds Extent.FirstFault C.finds config.now (F.state flash.old).media.content i (K.written out.old) (K.written out.new) result }
    ensures device { result ≡ Err ToolStatus.Device → Rose (F.state flash.old).media.faults (F.state flash.new).media.faults }
    ensures write { result ≡ Err ToolStatus.OutWrite → Rose (K.faults out.old) (K.faults out.new) }
    ensures statuses { IfErr result (λ status. IsCheckStatus status) }
    ensures later { K.faults out.old ≤ K.faults out.new }
{
    let finding = check_at(alloc, checker, config, i, flash)?;
    match write_finding(&config.name(i), Extent::FirstFault, &finding, out) {
        Ok(()) => Ok(is_sound(&finding)),
        Err(_) => Err(ToolStatus::OutWrite),
    }
}

/// Tells each rule of a table that doesn't hold, or that it is sound.
fn tell_rules<F: Flash, C: CheckTable, K: Sink>(
    alloc: Global,
    checker: &mut C,
    config: &Config,
    i: usize,
    flash: &mut F,
    out: &mut K,
) -> Result<bool, ToolStatus>
    requires table { i < length config.now.plans }
    requires over { IsOver config.now (F.state flash.old) }
    ensures looks { OnlyLooks (F.state flash.old) (F.state flash.new) }
    ensures told { IsTrue (F.state flash.old).media.tells → TableEnds Extent.AllTables C.rules config.now (F.state flash.old).media.content i (K.written out.old) (K.written out.new) result }
    ensures device { result ≡ Err ToolStatus.Device → Rose (F.state flash.old).media.faults (F.state flash.new).media.faults }
    ensures write { result ≡ Err ToolStatus.OutWrite → Rose (K.faults out.old) (K.faults out.new) }
    ensures statuses { IfErr result (λ status. IsCheckStatus status) }
    ensures later { K.faults out.old ≤ K.faults out.new }
{
    let rules = rules_at(alloc, checker, config, i, flash)?;
    match write_rules(&config.name(i), &rules, out) {
        Ok(()) => Ok(are_kept(&rules)),
        Err(_) => Err(ToolStatus::OutWrite),
    }
}

/// Tells of a table what a check to this extent finds, and answers whether the table is sound.
fn tell_table<F: Flash, C: CheckTable, K: Sink>(
    alloc: Global,
    checker: &mut C,
    config: &Config,
    extent: Extent,
    i: usize,
    flash: &mut F,
    out: &mut K,
) -> Result<bool, ToolStatus>
    requires table { i < length config.now.plans }
    requires over { IsOver config.now (F.state flash.old) }
    ensures looks { OnlyLooks (F.state flash.old) (F.state flash.new) }
    ensures told { IsTrue (F.state flash.old).media.tells
        → TableEnds extent (FindsBy extent C.finds C.rules) config.now (F.state flash.old).media.content i (K.written out.old) (K.written out.new) result }
    ensures device { result ≡ Err ToolStatus.Device → Rose (F.state flash.old).media.faults (F.state flash.new).media.faults }
    ensures write { result ≡ Err ToolStatus.OutWrite → Rose (K.faults out.old) (K.faults out.new) }
    ensures statuses { IfErr result (λ status. IsCheckStatus status) }
    ensures later { K.faults out.old ≤ K.faults out.new }
{
    match extent {
        Extent::FirstFault => tell_first(alloc, checker, config, i, flash, out),
        Extent::AllTables => tell_rules(alloc, checker, config, i, flash, out),
    }
}

/// Whether a check goes on behind a table that isn't sound.
fn goes_on(extent: Extent) -> bool
    ensures on { OnTrue result (extent ≡ Extent.AllTables) }
    ensures ends { OnFalse result (extent ≡ Extent.FirstFault) }
{
    match extent {
        Extent::FirstFault => false,
        Extent::AllTables => true,
    }
}

/// The status of a check that has told of all tables.
fn whole_status(sound: bool) -> ToolStatus
    ensures { result ≡ (if sound then ToolStatus.Done else ToolStatus.Unsound) }
{
    if sound {
        ToolStatus::Done
    } else {
        ToolStatus::Unsound
    }
}

/// Checks the tables in their order and writes what is found of each.
pub(crate) fn check_tables<F: Flash, C: CheckTable, K: Sink>(
    alloc: Global,
    checker: &mut C,
    config: &Config,
    extent: Extent,
    flash: &mut F,
    out: &mut K,
) -> ToolStatus
    requires over { IsOver config.now (F.state flash.old) }
    ensures looks { OnlyLooks (F.state flash.old) (F.state flash.new) }
    ensures ends { IsTrue (F.state flash.old).media.tells → TablesEndBy extent C.finds C.rules config.now (F.state flash.old).media.content (K.written out.old) (K.written out.new) result }
    ensures device { result ≡ ToolStatus.Device → Rose (F.state flash.old).media.faults (F.state flash.new).media.faults }
    ensures write { result ≡ ToolStatus.OutWrite → Rose (K.faults out.old) (K.faults out.new) }
    ensures later { K.faults out.old ≤ K.faults out.new }
{
    let mut sound = true;
    for i in 0..config.tables() {
        let is_sound = match tell_table(alloc, checker, config, extent, i, flash, out) {
            Ok(is_sound) => is_sound,
            Err(status) => return status,
        };
        if is_sound {
            continue;
        }
        if !goes_on(extent) {
            return ToolStatus::Unsound;
        }
        sound = false;
    }
    whole_status(sound)
}
