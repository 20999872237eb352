// The lines of an input, one after another.
ghost use Rattle.std.specs.Prelude.{◌≡◌, ◌≤◌, ◌<◌, ◌+◌, ◌^◌, ℕ, Bool, true, List, [], ◌∷◌, length, IsTrue, IfOk, IfErr, Ok, Err};
ghost use Rattle.fl_base.specs.Causes.{Rose};
ghost use Rattle.fl_flash.specs.Flash.{Goes, page_at};
ghost use Rattle.fl_image.specs.declared.status.ToolStatus.{ToolStatus};
ghost use Rattle.fl_lines.specs.Stream.{LinesState};
ghost use Rattle.fl_model.specs.Record.{Plan};
ghost use Rattle.fl_model.specs.Table as model;
ghost use Rattle.fl_rlc.specs.Table.{IsSamePlan, LiesOn, OutsideStands};
ghost use Rattle.fl_frame.specs.Causes.{IsUnarmed};
ghost use Rattle.fl_store.specs.Works.{Works};
ghost use Rattle.fl_import.specs.Counting.{after_end};
ghost use Rattle.fl_import.specs.Steps.{AllEnds, IsFormOf, IsOfLines, status_of};
ghost use Rattle.fl_import.specs.Taking.{Ended, TakesSoFar};

use crate::job_end::LinesTaken;
use crate::line::put_line;
use crate::line_end::LineEnd;
use crate::taking::next_line;
use fl_base::{Sink, Source};
use fl_csv::{GoneBlobs, LineForm};
use fl_flash::Flash;
use fl_image::ToolStatus;
use fl_lines::Lines;
use fl_store::LoggedTable;
use std::alloc::Global;

/// How far the lines were taken, after one more.
fn after_end(taken: LinesTaken, end: LineEnd) -> LinesTaken
    requires { (taken.line < 2 ^ 24) × (taken.rows < 2 ^ 24) × (taken.gone < 2 ^ 24) }
    ensures { result ≡ after_end taken end }
{
    let line = taken.line + 1;
    let rows = taken.rows;
    let gone = taken.gone;
    match end {
        LineEnd::Refused => LinesTaken { line, rows, gone },
        LineEnd::Put => {
            let rows = rows + 1;
            LinesTaken { line, rows, gone }
        }
        LineEnd::PutWithoutBlob => {
            let rows = rows + 1;
            let gone = gone + 1;
            LinesTaken { line, rows, gone }
        }
    }
}

/// Puts the lines below the first one after another, until there are none, or one that can't be.
pub(crate) fn put_lines<F: Flash, S: Source, K: Sink>(
    alloc: Global,
    form: LineForm,
    gone: GoneBlobs,
    table: &mut LoggedTable,
    flash: &mut F,
    lines: &mut Lines,
    input: &mut S,
    out: &mut K,
    taken: &mut LinesTaken,
) -> Result<(), ToolStatus>
    requires some { 1 ≤ form.columns }
    requires few { form.columns ≤ 8 }
    requires lies { LiesOn table.old (F.state flash.old) }
    requires unarmed { IsUnarmed (F.state flash.old) }
    requires most { lines.old.most < 2 ^ 24 }
    requires first { taken.old ≡ record { line = 1; rows = 0; gone = 0 } }
    ensures goes { Goes (F.state flash.old) (F.state flash.new) }
    ensures same { IsSamePlan table.old table.new }
    ensures lies { LiesOn table.new (F.state flash.new) }
    ensures outside { IsTrue (F.state flash.old).media.tells → OutsideStands table.old (page_at (F.state flash.old)) (page_at (F.state flash.new)) }
    ensures later { (S.faults input.old ≤ S.faults input.new) × (K.faults out.old ≤ K.faults out.new) }
    ensures device { result ≡ Err ToolStatus.Device → Rose (F.state flash.old).media.faults (F.state flash.new).media.faults }
    ensures read { result ≡ Err ToolStatus.InputRead → Rose (S.faults input.old) (S.faults input.new) }
    ensures write { result ≡ Err ToolStatus.OutWrite → Rose (K.faults out.old) (K.faults out.new) }
    ensures statuses { IfErr result (λ status. IsOfLines status) }
    ensures ended { (text : List ℕ) (names : List ℕ) → TakesSoFar form.columns form.blobs text (names ∷ []) lines.old (S.left input.old)
        → Ended form.columns form.blobs text (S.left input.new) (status_of result) }
    ensures ends { (text : List ℕ) (names : List ℕ) (first : ℕ) (plan : Plan) (t : model.Table) → TakesSoFar form.columns form.blobs text (names ∷ []) lines.old (S.left input.old)
        → IsFormOf form plan → Works table.old (F.state flash.old) first plan t
        → AllEnds gone taken.new first plan t text table.new (F.state flash.new) (K.written out.old) (K.written out.new) (S.left input.new) result }
{
    'lines: loop {
        let number = taken.line + 1;
        if !next_line(lines, input, number)? {
            return Ok(());
        }
        let end = put_line(alloc, form, gone, number, lines.line(), table, flash, out)?;
        *taken = after_end(*taken, end);
    }
}
