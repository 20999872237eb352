// The export of a table of an image.
ghost use Rattle.std.specs.Prelude.{◌≡◌, ◌⊎◌, ◌≤◌, ◌<◌, ◌*◌, ℕ, false, true, List, length, sum_by, IsTrue};
ghost use Rattle.fl_base.specs.Causes.{Rose};
ghost use Rattle.fl_flash.specs.Flash.{Goes, page_at};
ghost use Rattle.fl_image.specs.Header.{IsMade};
ghost use Rattle.fl_image.specs.Image.{OnlyLooksAt};
ghost use Rattle.fl_image.specs.declared.status.ToolStatus.{ToolStatus};
ghost use Rattle.fl_model.specs.Record.{Config as Configured, Plan, blocks_of};
ghost use Rattle.fl_model.specs.Table as model;
ghost use Rattle.fl_frame.specs.Device.{SameDevice};
ghost use Rattle.fl_store.specs.Jobs.{JobEnds};
ghost use Rattle.fl_store.specs.MountEnds.{told_of, Keeps};
ghost use Rattle.fl_store.specs.Named.{IsImageWith};
ghost use Rattle.fl_store.specs.Repaired.{AreRepaired, IsLeft};
ghost use Rattle.fl_store.specs.Store.{at_rest};
ghost use Rattle.fl_store.specs.Tables.{IsNamed, LieOn, TablesStand};
ghost use Rattle.fl_frame.specs.Causes.{IsUnarmed};
ghost use Rattle.fl_words.specs.Medium.{IsImage};
ghost use Rattle.fl_export.specs.Ends.{StatusFits, ExportEnds};
ghost use Rattle.fl_export.specs.Over.{ExportsOver};
ghost use Rattle.fl_export.specs.Rooms.{HasRooms};
ghost use Rattle.fl_export.specs.Tables.{status_of, EndsOn, IsOfTable};

use crate::fault::ExportFault;
use crate::rooms::Rooms;
use crate::table::write_table;
use fl_base::{KeyRange, Name, Sink};
use fl_flash::{Flash, Media};
use fl_image::ToolStatus;
use fl_page::ReadFault;
use fl_store::{FoundTable, Store, Tables, mount_status};
use std::alloc::Global;

/// The status of an export of the table with this number whose lines aren't written to the end.
fn status_of(fault: ExportFault, at: usize) -> ToolStatus
    requires { at < 4 }
    ensures { result ≡ status_of fault at }
{
    match fault {
        ExportFault::NoMemory => ToolStatus::NoMemory,
        ExportFault::Sink(_) => ToolStatus::OutWrite,
        ExportFault::Read(ReadFault::Flash(_)) => ToolStatus::Device,
        ExportFault::Read(ReadFault::BadPage(_)) => ToolStatus::BadImage { table: at as u32 },
    }
}

/// Mounts the tables and writes the records of the one at this place.
fn export_on<F: Flash, K: Sink>(
    alloc: Global,
    tables: &mut Tables,
    at: usize,
    range: KeyRange,
    flash: &mut F,
    rooms: &mut Rooms,
    out: &mut K,
) -> ToolStatus
    requires lie { LieOn tables.old.entries.items (F.state flash.old) }
    requires rooms { HasRooms rooms.old (F.state flash.old).geometry.page }
    requires at { at < length tables.old.entries.items }
    requires few { length tables.old.entries.items ≤ 4 }
    requires unarmed { IsUnarmed (F.state flash.old) }
    ensures over { ExportsOver result out.old out.new at tables.old.entries.items (F.state flash.old) (F.state flash.new) }
    ensures goes { Goes (F.state flash.old) (F.state flash.new) }
    ensures later { K.faults out.old ≤ K.faults out.new }
    ensures write { result ≡ ToolStatus.OutWrite → Rose (K.faults out.old) (K.faults out.new) }
    ensures statuses { IsOfTable result }
    ensures device { result ≡ ToolStatus.Device → Rose (F.state flash.old).media.faults (F.state flash.new).media.faults }
    ensures bad { (table : ℕ) → result ≡ ToolStatus.BadImage table → table < length tables.old.entries.items }
    ensures ends { (plans : List Plan) (ts : List model.Table) (name : List ℕ) → IsTrue (F.state flash.old).media.tells → (F.state flash.old).is_on ≡ true → SameDevice (F.state flash.old) at_rest
        → TablesStand (F.state flash.old) (λ i. false) plans tables.old.entries.items ts → IsNamed tables.old.entries.items name at
        → EndsOn plans ts name range (F.state flash.old) (F.state flash.new) (K.written out.old) (K.written out.new) tables.new.entries.items result }
    ensures repairs { (plans : List Plan) (ts : List model.Table) (name : List ℕ) → IsTrue (F.state flash.old).media.tells → (F.state flash.old).is_on ≡ true → SameDevice (F.state flash.old) at_rest
        → TablesStand (F.state flash.old) (λ i. false) plans tables.old.entries.items ts → IsNamed tables.old.entries.items name at → (result ≡ ToolStatus.Device → ⊥)
        → (page : ℕ) → page < sum_by blocks_of plans * (F.state flash.old).geometry.block → IsLeft plans (F.state flash.old).geometry page (page_at (F.state flash.old) page) (page_at (F.state flash.new) page) }
{
    if let Err(bad) = tables.mount(flash, &mut rooms.rows) {
        return mount_status(bad);
    }
    let table = tables.entries[at].table.table();
    match write_table(alloc, table, range, flash, rooms, out) {
        Ok(()) => ToolStatus::Done,
        Err(fault) => status_of(fault, at),
    }
}

/// Writes the records of a table of the image on a medium whose keys are in a range, as lines of CSV below a line of the
/// columns' names. All tables are mounted before, in their order: what a mount repairs is repaired, and the records that only a
/// table's log has become a page of the table.
pub fn export_image<M: Media, K: Sink>(
    alloc: Global,
    name: Name,
    range: KeyRange,
    media: &mut M,
    out: &mut K,
) -> ToolStatus
    // Over an image that stands for tables the text of the records is written, or a front of it, and the medium stands at the
    // end for the tables that the mount leaves.
    ensures ends { (config : Configured) (tables : List model.Table) → IsTrue (M.state media.old).tells → IsMade config → IsImage config (M.state media.old).content tables →
        ExportEnds config tables name range (told_of (M.state media.old) (M.state media.new) (K.written out.old) (K.written out.new)) (M.state media.old).content (M.state media.new).content result }

    // Nothing of the tables' pages changes but what a mount repairs, and blank pages that get what only a log had, where the
    // medium doesn't fail.
    ensures repairs { (config : Configured) (tables : List model.Table) → IsTrue (M.state media.old).tells → IsMade config → IsImage config (M.state media.old).content tables → (result ≡ ToolStatus.Device → ⊥) →
        AreRepaired config (M.state media.old).content (M.state media.new).content }

    // Whatever bytes the medium holds, and whether it tells them: no store is opened, and nothing is written to the
    // output; or its tables are mounted, up to one that is refused, and nothing is written; or pages are read then and none is
    // changed. Outside of the rings of the tables that the mount came to, nothing changes.
    ensures over { JobEnds name (M.state media.old) (M.state media.new) result (out.new ≡ out.old) (ExportsOver result out.old out.new) }

    // Statuses have their causes, over any bytes, and a medium that doesn't tell them.
    ensures fits { IsTrue (M.state media.old).tells → StatusFits (M.state media.old).content name result }
    ensures device { result ≡ ToolStatus.Device → Rose (M.state media.old).faults (M.state media.new).faults }
    ensures known { result ≡ ToolStatus.Unsound → ⊥ }
    ensures untouched { (result ≡ ToolStatus.NotImage) ⊎ (result ≡ ToolStatus.NoTable) → OnlyLooksAt (M.state media.old) (M.state media.new) × (out.new ≡ out.old) }
    ensures changes { IsTrue (M.state media.old).tells → IsImageWith (M.state media.old).content name true ⊎ ((M.state media.new).content ≡ (M.state media.old).content) }
    ensures write { result ≡ ToolStatus.OutWrite → Rose (K.faults out.old) (K.faults out.new) }
    ensures later { K.faults out.old ≤ K.faults out.new }
    ensures keeps { Keeps (M.state media.old) (M.state media.new) }
{
    let FoundTable { config, layout, at } = match FoundTable::on(alloc, name, media) {
        Ok(found) => found,
        Err(status) => return status,
    };
    let page = config.geometry().page;
    let Ok(mut rooms) = Rooms::new(alloc, page, config.table(at).blob_limit) else {
        return ToolStatus::NoMemory;
    };
    let Store {
        mut flash,
        mut tables,
    } = Store::over(media, &config, false, layout);
    let status = export_on(alloc, &mut tables, at, range, &mut flash, &mut rooms, out);
    let _media = Store { flash, tables }.close();
    status
}
