// One line of an import: a record that is put, or a refusal that is told.
ghost use Rattle.std.specs.Prelude.{◌≡◌, ◌≤◌, ℕ, Bool, false, option_map, IsTrue, IfErr, Ok, Err};
ghost use Rattle.fl_base.specs.Causes.{Rose};
ghost use Rattle.fl_csv.specs.Lines.{line_put};
ghost use Rattle.fl_csv.specs.Views.{put_view};
ghost use Rattle.fl_flash.specs.Flash.{Goes, page_at};
ghost use Rattle.fl_image.specs.declared.status.ToolStatus.{ToolStatus};
ghost use Rattle.fl_model.specs.Record.{Plan};
ghost use Rattle.fl_model.specs.Table as model;
ghost use Rattle.fl_model.specs.Work.{Device};
ghost use Rattle.fl_frame.specs.Watched.{IsWatched};
ghost use Rattle.fl_rlc.specs.Logged.{Stands};
ghost use Rattle.fl_rlc.specs.Outcomes.{PutEnds};
ghost use Rattle.fl_rlc.specs.Refusal.{RefusedSame};
ghost use Rattle.fl_rlc.specs.Table.{is_running, IsSamePlan, LiesOn, OutsideStands};
ghost use Rattle.fl_table.specs.Causes.{PutCausedBy};
ghost use Rattle.fl_words.specs.Grammar as grammar;
ghost use Rattle.fl_frame.specs.Causes.{IsUnarmed};
ghost use Rattle.fl_store.specs.Works.{Works};
ghost use Rattle.fl_import.specs.Lines.{lacks, meaning};
ghost use Rattle.fl_import.specs.Steps.{IsFormOf, IsOfLine, LineEnds, by_told, fault_in, is_unread};

use crate::line_end::{LineEnd, put_end};
use crate::names::without_return;
use crate::report::{tell_reason, tell_refusal};
use fl_base::{Sink, SinkFailed};
use fl_csv::{CsvPut, CsvRefusal, GoneBlobs, LineForm, read_record};
use fl_flash::{Flash, FlashFault};
use fl_image::ToolStatus;
use fl_store::LoggedTable;
use fl_table::PutRefusal;
use std::alloc::Global;

/// Puts a record that was read.
fn put_record<F: Flash>(
    table: &mut LoggedTable,
    flash: &mut F,
    put: &CsvPut,
) -> Result<(), PutRefusal>
    requires lies { LiesOn table.old (F.state flash.old) }
    ensures goes { Goes (F.state flash.old) (F.state flash.new) }
    ensures same { IsSamePlan table.old table.new }
    ensures lies { LiesOn table.new (F.state flash.new) }
    ensures ends { (first : ℕ) → (plan : Plan) → (t : model.Table) → (rose : Bool) → (device : Device) → IsWatched (F.state flash.old) (F.state flash.new) rose device
        → Stands table.old (F.state flash.old) first plan t → PutEnds first plan (put_view put.now) t rose device result table.new (F.state flash.old) (F.state flash.new) }
    ensures cause { IfErr result (λ e. PutCausedBy (F.state flash.old) e (F.state flash.new)) }
    ensures refused { IfErr result (λ e. RefusedSame table.old (F.state flash.old) e table.new (F.state flash.new)) }
    ensures outside { IsTrue (F.state flash.old).media.tells → OutsideStands table.old (page_at (F.state flash.old)) (page_at (F.state flash.new)) }
{
    let blob = match &put.blob {
        None => None,
        Some(blob) => Some(blob.bytes()),
    };
    table.put(flash, put.key, put.values.as_slice(), blob)
}

/// Whether a line wasn't read for want of memory.
fn is_unread(refusal: &CsvRefusal) -> bool
    ensures { result ≡ is_unread refusal.now }
{
    matches!(refusal, CsvRefusal::NoMemory)
}

/// The fault of the flash in a put, where an operation failed in it.
fn fault_in(outcome: &Result<(), PutRefusal>) -> Option<FlashFault>
    ensures { result ≡ fault_in outcome.now }
{
    match outcome {
        Err(PutRefusal::Flash(fault)) => Some(*fault),
        _ => None,
    }
}

/// A line that is refused, once that is told.
fn refused(told: Result<(), SinkFailed>) -> Result<LineEnd, ToolStatus>
    ensures { result ≡ by_told told }
{
    match told {
        Ok(()) => Ok(LineEnd::Refused),
        Err(_) => Err(ToolStatus::OutWrite),
    }
}

/// Puts the record that the line of this number is, and says what became of it. A line that is refused is told of.
pub(crate) fn put_line<F: Flash, K: Sink>(
    alloc: Global,
    form: LineForm,
    gone: GoneBlobs,
    number: u64,
    line: &[u8],
    table: &mut LoggedTable,
    flash: &mut F,
    out: &mut K,
) -> Result<LineEnd, ToolStatus>
    requires some { 1 ≤ form.columns }
    requires few { form.columns ≤ 8 }
    requires lies { LiesOn table.old (F.state flash.old) }
    requires unarmed { IsUnarmed (F.state flash.old) }
    ensures goes { Goes (F.state flash.old) (F.state flash.new) }
    ensures same { IsSamePlan table.old table.new }
    ensures lies { LiesOn table.new (F.state flash.new) }
    ensures outside { IsTrue (F.state flash.old).media.tells → OutsideStands table.old (page_at (F.state flash.old)) (page_at (F.state flash.new)) }
    ensures later { K.faults out.old ≤ K.faults out.new }
    ensures device { result ≡ Err ToolStatus.Device → Rose (F.state flash.old).media.faults (F.state flash.new).media.faults }
    ensures write { result ≡ Err ToolStatus.OutWrite → Rose (K.faults out.old) (K.faults out.new) }
    ensures statuses { IfErr result (λ status. IsOfLine status) }
    ensures ends { (first : ℕ) (plan : Plan) (t : model.Table) → IsFormOf form plan → Works table.old (F.state flash.old) first plan t
        → LineEnds (lacks gone form.columns form.blobs line.now) first plan t number (meaning gone form.columns form.blobs line.now) table.new (F.state flash.new) (K.written out.old) (K.written out.new) result }
{
    let text = without_return(line);
    let put = match read_record(alloc, text, form.columns, form.blobs, gone) {
        Ok(put) => put,
        Err(refusal) if is_unread(&refusal) => return Err(ToolStatus::NoMemory),
        Err(refusal) => return refused(tell_reason(number, refusal, out)),
    };
    let outcome = put_record(table, flash, &put);
    if let Some(_) = fault_in(&outcome) {
        return Err(ToolStatus::Device);
    }
    match outcome {
        Ok(()) => Ok(put_end(put.gone)),
        Err(refusal) => refused(tell_refusal(number, refusal, out)),
    }
}
