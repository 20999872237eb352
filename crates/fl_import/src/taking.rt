// The next line of an input, and the first one.
ghost use Rattle.std.specs.Prelude.{◌≡◌, ◌≤◌, ◌<◌, ◌^◌, ℕ, List, [], ◌∷◌, false, IfOk, IfErr, Err, Some};
ghost use Rattle.fl_base.specs.Causes.{Rose};
ghost use Rattle.fl_image.specs.declared.status.ToolStatus.{ToolStatus};
ghost use Rattle.fl_lines.specs.Stream.{LinesState};
ghost use Rattle.fl_import.specs.Taking.{IsOfNames, NextLine, TakesSoFar, TakesThese};

use crate::names::without_return;
use fl_base::Source;
use fl_csv::{LineForm, is_header};
use fl_image::ToolStatus;
use fl_lines::{Lines, LinesFault};
use std::alloc::Global;

/// The most bytes of a line before its newline.
const LINE_BYTES: usize = 4096;

/// Goes on to the line of this number. False says that there is none.
pub(crate) fn next_line<S: Source>(
    lines: &mut Lines,
    input: &mut S,
    number: u64,
) -> Result<bool, ToolStatus>
    ensures { NextLine lines.old (S.left input.old) (S.faults input.old) number result lines.new (S.left input.new) (S.faults input.new) }
{
    match lines.advance(input) {
        Ok(true) => {}
        Ok(false) => return Ok(false),
        Err(LinesFault::Failed) => return Err(ToolStatus::InputRead),
        Err(LinesFault::Long) => return Err(ToolStatus::InputLong),
    }
    if lines.line().len() > LINE_BYTES {
        return Err(ToolStatus::BadInput { line: number });
    }
    Ok(true)
}

/// Takes the first line, which is the line of the names.
pub(crate) fn take_names<S: Source>(
    alloc: Global,
    lines: &mut Lines,
    input: &mut S,
    form: LineForm,
) -> Result<(), ToolStatus>
    requires few { form.columns ≤ 8 }
    requires new { lines.old ≡ record { line = []; ahead = []; most = 2 ^ 24; closed = false } }
    ensures takes { IfOk result (λ done. (text : List ℕ) → S.left input.old ≡ Some text → TakesSoFar form.columns form.blobs text (lines.new.line ∷ []) lines.new (S.left input.new)) }
    ensures most { IfOk result (λ done. lines.new.most < 2 ^ 24) }
    ensures ended { IfErr result (λ status. (text : List ℕ) → S.left input.old ≡ Some text → TakesThese form.columns form.blobs text [] (S.left input.new) status) }
    ensures statuses { IfErr result (λ status. IsOfNames status) }
    ensures read { result ≡ Err ToolStatus.InputRead → Rose (S.faults input.old) (S.faults input.new) }
    ensures later { S.faults input.old ≤ S.faults input.new }
{
    if !next_line(lines, input, 1)? {
        return Err(ToolStatus::BadInput { line: 1 });
    }
    match is_header(
        alloc,
        without_return(lines.line()),
        form.columns,
        form.blobs,
    ) {
        Ok(true) => Ok(()),
        Ok(false) => Err(ToolStatus::BadInput { line: 1 }),
        Err(_) => Err(ToolStatus::NoMemory),
    }
}
