// The import of a table that is mounted.
ghost use Rattle.std.specs.Prelude.{◌≡◌, ◌≤◌, ◌^◌, ℕ, false, List, [], IsTrue, IfErr, IfOk, Err, Some};
ghost use Rattle.fl_base.specs.Causes.{Rose};
ghost use Rattle.fl_flash.specs.Flash.{Goes, page_at};
ghost use Rattle.fl_import.specs.Taken.{none_taken};
ghost use Rattle.fl_image.specs.declared.status.ToolStatus.{ToolStatus};
ghost use Rattle.fl_lines.specs.Stream.{LinesState};
ghost use Rattle.fl_model.specs.Record.{Plan};
ghost use Rattle.fl_model.specs.Table as model;
ghost use Rattle.fl_rlc.specs.Table.{IsSamePlan, LiesOn, OutsideStands};
ghost use Rattle.fl_frame.specs.Causes.{IsUnarmed};
ghost use Rattle.fl_store.specs.Works.{Works};
ghost use Rattle.fl_import.specs.Images.{told_of};
ghost use Rattle.fl_import.specs.Steps.{AllEnds, IsFormOf, IsOfLines, IsOfTable, TableEnds, TellsCounts, flush_status, is_broken, status_of};
ghost use Rattle.fl_import.specs.Taking.{Ended, EndedAs};

use crate::job_end::LinesTaken;
use crate::lines::put_lines;
use crate::report::tell_counts;
use crate::taking::take_names;
use fl_base::{Sink, Source};
use fl_csv::{GoneBlobs, LineForm};
use fl_flash::Flash;
use fl_image::ToolStatus;
use fl_lines::Lines;
use fl_store::LoggedTable;
use fl_table::FlushFault;
use std::alloc::Global;

/// Takes all lines of an input, of which none was taken: puts them, and tells of those that are refused.
fn take_lines<F: Flash, S: Source, K: Sink>(
    alloc: Global,
    form: LineForm,
    gone: GoneBlobs,
    table: &mut LoggedTable,
    flash: &mut F,
    lines: &mut Lines,
    input: &mut S,
    out: &mut K,
    taken: &mut LinesTaken,
) -> Result<(), ToolStatus>
    requires some { 1 ≤ form.columns }
    requires few { form.columns ≤ 8 }
    requires lies { LiesOn table.old (F.state flash.old) }
    requires unarmed { IsUnarmed (F.state flash.old) }
    requires new { lines.old ≡ record { line = []; ahead = []; most = 2 ^ 24; closed = false } }
    requires none { taken.old ≡ none_taken }
    ensures goes { Goes (F.state flash.old) (F.state flash.new) }
    ensures same { IsSamePlan table.old table.new }
    ensures lies { LiesOn table.new (F.state flash.new) }
    ensures outside { IsTrue (F.state flash.old).media.tells → OutsideStands table.old (page_at (F.state flash.old)) (page_at (F.state flash.new)) }
    ensures later { (S.faults input.old ≤ S.faults input.new) × (K.faults out.old ≤ K.faults out.new) }
    ensures device { result ≡ Err ToolStatus.Device → Rose (F.state flash.old).media.faults (F.state flash.new).media.faults }
    ensures read { result ≡ Err ToolStatus.InputRead → Rose (S.faults input.old) (S.faults input.new) }
    ensures write { result ≡ Err ToolStatus.OutWrite → Rose (K.faults out.old) (K.faults out.new) }
    ensures statuses { IfErr result (λ status. IsOfLines status) }
    ensures ended { (text : List ℕ) → S.left input.old ≡ Some text → Ended form.columns form.blobs text (S.left input.new) (status_of result) }
    ensures ends { (text : List ℕ) (first : ℕ) (plan : Plan) (t : model.Table) → S.left input.old ≡ Some text → IsFormOf form plan → Works table.old (F.state flash.old) first plan t
        → AllEnds gone taken.new first plan t text table.new (F.state flash.new) (K.written out.old) (K.written out.new) (S.left input.new) result }
{
    take_names(alloc, lines, input, form)?;
    taken.line = 1;
    put_lines(alloc, form, gone, table, flash, lines, input, out, taken)
}

/// Whether an operation failed in a put.
fn is_broken(taken: &Result<(), ToolStatus>) -> bool
    ensures { result ≡ is_broken taken.now }
{
    matches!(taken, Err(ToolStatus::Device))
}

/// The status of an import whose table isn't flushed. The table isn't stopped, since the lines end at the operation that fails; and
/// `NoMemory`, which may come at any moment, says nothing of the medium.
fn flush_status(fault: FlushFault) -> ToolStatus
    ensures { result ≡ flush_status fault }
{
    match fault {
        FlushFault::Flash(_) => ToolStatus::Device,
        FlushFault::Stopped => ToolStatus::NoMemory,
    }
}

/// The status of an import whose table was flushed, once it is told what was put.
fn told<K: Sink>(
    all: Result<(), ToolStatus>,
    gone: GoneBlobs,
    taken: LinesTaken,
    out: &mut K,
) -> ToolStatus
    ensures later { K.faults out.old ≤ K.faults out.new }
    ensures none { IfErr all (λ status. (result ≡ status) × (out.new ≡ out.old)) }
    ensures counts { IfOk all (λ done. TellsCounts gone taken (K.written out.old) (K.written out.new) (K.faults out.old) (K.faults out.new) result) }
{
    if let Err(status) = all {
        return status;
    }
    match tell_counts(gone, taken, out) {
        Ok(()) => ToolStatus::Done,
        Err(_) => ToolStatus::OutWrite,
    }
}

/// Imports the lines of an input into a table. It is flushed behind the last line that is taken, unless an operation failed.
pub(crate) fn import_table<F: Flash, S: Source, K: Sink>(
    alloc: Global,
    form: LineForm,
    gone: GoneBlobs,
    table: &mut LoggedTable,
    flash: &mut F,
    lines: &mut Lines,
    input: &mut S,
    out: &mut K,
    taken: &mut LinesTaken,
) -> ToolStatus
    requires some { 1 ≤ form.columns }
    requires few { form.columns ≤ 8 }
    requires lies { LiesOn table.old (F.state flash.old) }
    requires unarmed { IsUnarmed (F.state flash.old) }
    requires new { lines.old ≡ record { line = []; ahead = []; most = 2 ^ 24; closed = false } }
    requires none { taken.old ≡ none_taken }
    ensures goes { Goes (F.state flash.old) (F.state flash.new) }
    ensures same { IsSamePlan table.old table.new }
    ensures outside { IsTrue (F.state flash.old).media.tells → OutsideStands table.old (page_at (F.state flash.old)) (page_at (F.state flash.new)) }
    ensures later { (S.faults input.old ≤ S.faults input.new) × (K.faults out.old ≤ K.faults out.new) }
    ensures device { result ≡ ToolStatus.Device → Rose (F.state flash.old).media.faults (F.state flash.new).media.faults }
    ensures read { result ≡ ToolStatus.InputRead → Rose (S.faults input.old) (S.faults input.new) }
    ensures write { result ≡ ToolStatus.OutWrite → Rose (K.faults out.old) (K.faults out.new) }
    ensures statuses { IsOfTable result }
    ensures ended { (text : List ℕ) → S.left input.old ≡ Some text → EndedAs form.columns form.blobs text (S.left input.new) result }
    ensures ends { (text : List ℕ) (first : ℕ) (plan : Plan) (t : model.Table) → S.left input.old ≡ Some text → IsFormOf form plan → Works table.old (F.state flash.old) first plan t
        → TableEnds first plan t text table.new (F.state flash.new) (told_of gone taken.new (K.written out.old) (K.written out.new) (S.left input.new)) result }
{
    let all = take_lines(alloc, form, gone, table, flash, lines, input, out, taken);
    if is_broken(&all) {
        return ToolStatus::Device;
    }
    match table.flush(flash) {
        Ok(()) => told(all, gone, *taken, out),
        Err(fault) => flush_status(fault),
    }
}
