// The import of records into a table of an image.
ghost use Rattle.std.specs.Prelude.{◌≡◌, ◌⊎◌, ◌≤◌, ◌<◌, ◌^◌, ℕ, false, true, is_some, Some, [], List, length, IsTrue, IfSome};
ghost use Rattle.fl_base.specs.Causes.{Rose};
ghost use Rattle.fl_flash.specs.Flash.{FlashState, Goes, page_at};
ghost use Rattle.fl_image.specs.Header.{IsMade};
ghost use Rattle.fl_image.specs.Image.{OnlyLooksAt};
ghost use Rattle.fl_image.specs.Status.{is_done};
ghost use Rattle.fl_image.specs.declared.status.ToolStatus.{ToolStatus};
ghost use Rattle.fl_model.specs.Record.{Config as Configured, Plan};
ghost use Rattle.fl_model.specs.Table as model;
ghost use Rattle.fl_frame.specs.Device.{SameDevice};
ghost use Rattle.fl_rlc.specs.Logged.{Stands};
ghost use Rattle.fl_store.specs.Jobs.{JobEnds};
ghost use Rattle.fl_store.specs.MountEnds.{Keeps};
ghost use Rattle.fl_store.specs.Named.{IsImageWith};
ghost use Rattle.fl_store.specs.Repaired.{IsLeft, IsOfOther, OthersAreRepaired};
ghost use Rattle.fl_store.specs.Store.{at_rest};
ghost use Rattle.fl_store.specs.Tables.{AreNewTables, IsNamed, LieOn, TablesStand};
ghost use Rattle.fl_frame.specs.Causes.{IsUnarmed};
ghost use Rattle.fl_words.specs.Config as words;
ghost use Rattle.fl_words.specs.Medium.{IsImage};
ghost use Rattle.fl_import.specs.Ends.{ImportEnds, IsFormIn, StatusFits};
ghost use Rattle.fl_import.specs.Images.{EndsOn, FormsAt, HasCauses, told_of};
ghost use Rattle.fl_import.specs.Over.{ImportsOver, IsUnbegun};
ghost use Rattle.fl_import.specs.Taking.{EndedOver};

use crate::begin::{Begun, begin};
use crate::job_end::{JobEnd, LinesTaken};
use crate::table::import_table;
use fl_base::{Name, Sink, Source};
use fl_csv::{GoneBlobs, LineForm};
use fl_flash::{Flash, Media, PageBuf};
use fl_image::ToolStatus;
use fl_lines::Lines;
use fl_store::{FoundTable, LoggedTable, Store, Tables, mount_status};
use std::alloc::Global;

/// The rows that the table holds, where the import is done.
fn kept_rows(status: ToolStatus, table: &LoggedTable) -> Option<u64>
    ensures some { is_some result ≡ is_done status }
    ensures rows { (f : FlashState) (first : ℕ) (plan : Plan) (t : model.Table) → status ≡ ToolStatus.Done → Stands table.now f first plan t → result ≡ Some (length t.entries) }
{
    match status {
        ToolStatus::Done => Some(table.table().counts().rows),
        _ => None,
    }
}

/// Mounts the tables and imports the lines of an input into the one at this place.
fn import_on<F: Flash, S: Source, K: Sink>(
    alloc: Global,
    form: LineForm,
    gone: GoneBlobs,
    tables: &mut Tables,
    at: usize,
    flash: &mut F,
    room: &mut PageBuf,
    lines: &mut Lines,
    input: &mut S,
    out: &mut K,
) -> JobEnd
    requires some { 1 ≤ form.columns }
    requires form { form.columns ≤ 8 }
    requires lie { LieOn tables.old.entries.items (F.state flash.old) }
    requires room { length room.old.bytes ≡ (F.state flash.old).geometry.page }
    requires at { at < length tables.old.entries.items }
    requires few { length tables.old.entries.items ≤ 4 }
    requires unarmed { IsUnarmed (F.state flash.old) }
    requires new { lines.old ≡ record { line = []; ahead = []; most = 2 ^ 24; closed = false } }
    ensures over { ImportsOver result input.old input.new out.old out.new at tables.old.entries.items (F.state flash.old) (F.state flash.new) }
    ensures goes { Goes (F.state flash.old) (F.state flash.new) }
    ensures causes { HasCauses (length tables.old.entries.items) (F.state flash.old).media.faults (F.state flash.new).media.faults (S.faults input.old) (S.faults input.new) (K.faults out.old) (K.faults out.new) result.kept result.status }
    ensures unread { (table : ℕ) → result.status ≡ ToolStatus.BadImage table → (input.new ≡ input.old) × (out.new ≡ out.old) }
    ensures ended { (text : List ℕ) → S.left input.old ≡ Some text → EndedOver form.columns form.blobs text (S.left input.new) result.status }
    ensures ends { (plans : List Plan) (ts : List model.Table) (name text : List ℕ) → IsTrue (F.state flash.old).media.tells → (F.state flash.old).is_on ≡ true → SameDevice (F.state flash.old) at_rest
        → TablesStand (F.state flash.old) (λ i. false) plans tables.old.entries.items ts → IsNamed tables.old.entries.items name at → FormsAt form plans at → S.left input.old ≡ Some text
        → EndsOn plans ts name text (told_of gone result.taken (K.written out.old) (K.written out.new) (S.left input.new)) (F.state flash.old) (F.state flash.new) tables.new.entries.items result.kept result.status }
    ensures form { IfSome result.form (λ given. given ≡ form) }
    ensures formed { (line : ℕ) → result.status ≡ ToolStatus.BadInput line → is_some result.form ≡ true }
    ensures repairs { (plans : List Plan) (ts : List model.Table) (name : List ℕ) → IsTrue (F.state flash.old).media.tells → (F.state flash.old).is_on ≡ true → SameDevice (F.state flash.old) at_rest
        → TablesStand (F.state flash.old) (λ i. false) plans tables.old.entries.items ts → IsNamed tables.old.entries.items name at → (result.status ≡ ToolStatus.Device → ⊥)
        → (page : ℕ) → IsOfOther plans name (F.state flash.old).geometry.block page → IsLeft plans (F.state flash.old).geometry page (page_at (F.state flash.old) page) (page_at (F.state flash.new) page) }
{
    if let Err(bad) = tables.mount(flash, room) {
        return JobEnd::of(mount_status(bad));
    }
    let table = &mut tables.entries[at].table;
    let mut taken = LinesTaken::none();
    let status = import_table(
        alloc, form, gone, table, flash, lines, input, out, &mut taken,
    );
    let kept = kept_rows(status, table);
    let form = Some(form);
    JobEnd {
        status,
        kept,
        taken,
        form,
    }
}

/// The form of the lines of the table at this place.
fn form_at(tables: &Tables, at: usize) -> LineForm
    requires at { at < length tables.now.entries.items }
    ensures some { 1 ≤ result.columns }
    ensures few { result.columns ≤ 8 }
    ensures form { (config : words.Lines) → AreNewTables tables.now.entries.items config → FormsAt result config.plans at }
{
    let table = tables.entries[at].table.table();
    LineForm {
        columns: table.columns(),
        blobs: table.has_blobs(),
    }
}

/// Puts the records of an input into a table of the image on a medium. The first line of the input names the fields, and each
/// line below it is a record of CSV, which is put, or refused and told of; one whose blob is gone is put without it, or refused.
/// The last line that is written tells how many were. How far the lines were taken is handed up, and the form that those of this
/// table have. A put may push out the oldest records of the table, also some of this input; how many it holds at the end is handed
/// up. All tables are mounted before, in their order: what a mount repairs is repaired, and the records that only a table's log
/// has become a page of the table. The table is flushed behind the last line that is taken.
pub fn import_image<M: Media, S: Source, K: Sink>(
    alloc: Global,
    name: Name,
    gone: GoneBlobs,
    media: &mut M,
    input: &mut S,
    out: &mut K,
) -> JobEnd
    // Over an image that stands for tables the lines are put in turn, and the table is flushed; what is refused is told. The
    // medium stands at the end for the tables that this leaves.
    ensures ends { (config : Configured) (tables : List model.Table) (text : List ℕ) → IsTrue (M.state media.old).tells → IsMade config → IsImage config (M.state media.old).content tables → S.left input.old ≡ Some text →
        ImportEnds config tables name text (told_of gone result.taken (K.written out.old) (K.written out.new) (S.left input.new)) (M.state media.old).faults (M.state media.new).faults (M.state media.old).content (M.state media.new).content result.kept result.status }

    // Nothing changes in the pages of other tables but what a mount repairs, and blank pages that get what only a log had,
    // where the medium doesn't fail.
    ensures repairs { (config : Configured) (tables : List model.Table) → IsTrue (M.state media.old).tells → IsMade config → IsImage config (M.state media.old).content tables → (result.status ≡ ToolStatus.Device → ⊥) →
        OthersAreRepaired config name (M.state media.old).content (M.state media.new).content }

    // Whatever bytes the medium holds, and whether it tells them: no store is opened, no line is taken and nothing is
    // written to the output; or its tables are mounted, up to one that is refused, and neither is done; or only pages in the rings of
    // the named one change then. Outside of the rings of the tables that the mount came to, nothing changes.
    ensures over { JobEnds name (M.state media.old) (M.state media.new) result.status (IsUnbegun result input.old input.new out.old out.new) (ImportsOver result input.old input.new out.old out.new) }

    // Rows are told exactly where it is done.
    ensures kept { is_some result.kept ≡ is_done result.status }

    // The form is that of the table's lines, also where one of them is bad.
    ensures form { IsTrue (M.state media.old).tells → IfSome result.form (λ form. IsFormIn (M.state media.old).content name form) }
    ensures formed { (line : ℕ) → result.status ≡ ToolStatus.BadInput line → is_some result.form ≡ true }

    // Statuses have their causes, over any bytes, and a medium that doesn't tell them.
    ensures fits { IsTrue (M.state media.old).tells → StatusFits (M.state media.old).content name (S.left input.old) (S.left input.new) result.status }
    ensures device { result.status ≡ ToolStatus.Device → Rose (M.state media.old).faults (M.state media.new).faults }
    ensures known { result.status ≡ ToolStatus.Unsound → ⊥ }
    ensures untouched { (result.status ≡ ToolStatus.NotImage) ⊎ (result.status ≡ ToolStatus.NoTable) → OnlyLooksAt (M.state media.old) (M.state media.new) × (input.new ≡ input.old) × (out.new ≡ out.old) }
    ensures unread { (table : ℕ) → result.status ≡ ToolStatus.BadImage table → (input.new ≡ input.old) × (out.new ≡ out.old) }
    ensures changes { IsTrue (M.state media.old).tells → IsImageWith (M.state media.old).content name true ⊎ ((M.state media.new).content ≡ (M.state media.old).content) }
    ensures read { result.status ≡ ToolStatus.InputRead → Rose (S.faults input.old) (S.faults input.new) }
    ensures write { result.status ≡ ToolStatus.OutWrite → Rose (K.faults out.old) (K.faults out.new) }
    ensures later { (S.faults input.old ≤ S.faults input.new) × (K.faults out.old ≤ K.faults out.new) }
    ensures keeps { Keeps (M.state media.old) (M.state media.new) }
{
    let Begun {
        found,
        mut lines,
        mut page,
    } = match begin(alloc, name, media) {
        Ok(begun) => begun,
        Err(status) => return JobEnd::of(status),
    };
    let FoundTable { config, layout, at } = found;
    let form = form_at(&layout.tables, at);
    let Store {
        mut flash,
        mut tables,
    } = Store::over(media, &config, false, layout);
    let end = import_on(
        alloc,
        form,
        gone,
        &mut tables,
        at,
        &mut flash,
        &mut page,
        &mut lines,
        input,
        out,
    );
    let _media = Store { flash, tables }.close();
    end
}
