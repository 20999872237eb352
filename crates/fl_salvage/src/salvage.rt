// The salvage of a table of an image.
ghost use Rattle.std.specs.Prelude.{◌≡◌, ◌⊎◌, ◌≤◌, ◌<◌, ℕ, Some, length, slice_get, IsTrue, IfErr, IfSome, IfNone};
ghost use Rattle.fl_base.specs.Causes.{Rose};
ghost use Rattle.fl_image.specs.Image.{OnlyLooksAt};
ghost use Rattle.fl_image.specs.declared.status.ToolStatus.{ToolStatus};
ghost use Rattle.fl_model.specs.Record.{Plan};
ghost use Rattle.fl_salvage.specs.Ends.{AtEnds, SalvageEnds, TableEnds, form_at};
ghost use Rattle.fl_salvage.specs.Faults.{IsCaused};
ghost use Rattle.fl_salvage.specs.Pages.{none_passed};
ghost use Rattle.fl_salvage.specs.Text.{form_of};

use crate::PassedOver;
use crate::config::config_of;
use crate::fault::SalvageFault;
use crate::numbers::find_numbers;
use crate::rooms::{Rooms, numbers_room};
use crate::rows::write_table;
use crate::table_pages::TablePages;
use fl_base::{Name, Sink, Source};
use fl_config::Config;
use fl_flash::Media;
use fl_image::ToolStatus;
use fl_script::LineRoom;
use std::alloc::Global;

/// How a salvage ended, and what it counted.
#[derive(Clone, Copy, Debug, PartialEq, Eq)]
pub struct SalvageEnd {
    /// The status of the job.
    pub status: ToolStatus,
    /// The pages that were passed over, where it was done; else nothing is counted.
    pub passed_over: PassedOver,
}

impl SalvageEnd {
    /// A salvage that ended with this status, and has counted nothing.
    fn of(status: ToolStatus) -> SalvageEnd
        ensures { result ≡ record { status = status; passed_over = none_passed } }
    {
        SalvageEnd {
            status,
            passed_over: PassedOver::none(),
        }
    }
}

/// The place of the table with this name, if there is one.
fn find(config: &Config, name: Name) -> Option<usize>
    ensures some { IfSome result (λ at. (at < length config.now.plans) × IfSome (slice_get config.now.plans at) (λ plan. plan.name ≡ name)) }
    ensures none { IfNone result ((at : ℕ) (plan : Plan) → slice_get config.now.plans at ≡ Some plan → plan.name ≡ name → ⊥) }
{
    for at in 0..config.tables() {
        if config.name(at).bytes() == name.bytes() {
            return Some(at);
        }
    }
    None
}

/// Writes the rows of a table, and counts the pages that are passed over.
fn salvage_table<M: Media, K: Sink>(
    alloc: Global,
    table: &TablePages,
    media: &mut M,
    out: &mut K,
) -> Result<PassedOver, SalvageFault>
    ensures looks { OnlyLooksAt (M.state media.old) (M.state media.new) }
    ensures later { K.faults out.old ≤ K.faults out.new }
    ensures ends { IsTrue (M.state media.old).tells → TableEnds (form_of table.now) (M.state media.old).content (K.written out.old) (K.written out.new) result }
    ensures cause { IfErr result (IsCaused (M.state media.old) (M.state media.new) (K.faults out.old) (K.faults out.new)) }
{
    let mut rooms = Rooms::new(alloc, table.rows.size, table.blob_limit)?;
    let mut numbers = numbers_room(alloc, table.rows)?;
    let passed = find_numbers(
        &table.schema,
        table.rows,
        media,
        &mut rooms.page,
        &mut numbers,
    )?;
    write_table(alloc, table, &numbers, media, &mut rooms, out)?;
    Ok(passed)
}

/// Salvages the table at this place of the configuration.
fn salvage_at<M: Media, K: Sink>(
    alloc: Global,
    config: &Config,
    at: usize,
    media: &mut M,
    out: &mut K,
) -> SalvageEnd
    requires at { at < length config.now.plans }
    ensures looks { OnlyLooksAt (M.state media.old) (M.state media.new) }
    ensures later { K.faults out.old ≤ K.faults out.new }
    ensures ends { IsTrue (M.state media.old).tells → (plan : Plan) → slice_get config.now.plans at ≡ Some plan →
        AtEnds (form_at config.now.plans at plan) (M.state media.old).content (K.written out.old) (K.written out.new) result.passed_over result.status }
    ensures counts { (result.status ≡ ToolStatus.Done) ⊎ (result.passed_over ≡ none_passed) }
    ensures device { result.status ≡ ToolStatus.Device → Rose (M.state media.old).faults (M.state media.new).faults }
    ensures write { result.status ≡ ToolStatus.OutWrite → Rose (K.faults out.old) (K.faults out.new) }
    ensures unread { result.status ≡ ToolStatus.InputRead → ⊥ }
{
    let table = TablePages::of(config.table(at));
    match salvage_table(alloc, &table, media, out) {
        Ok(passed_over) => SalvageEnd {
            status: ToolStatus::Done,
            passed_over,
        },
        Err(fault) => SalvageEnd::of(fault.status()),
    }
}

/// Writes the rows that an image still holds of the table with this name, as lines of CSV below a line of the columns' names:
/// those of each committed page of the table's data ring whose number belongs to its place and whose count of rows it has room
/// for, whatever stands elsewhere, page by page in the order of their numbers. A blob is written where all of its bytes stand on
/// pages that are there, and is `gone` else. The configuration is that of the image's header; where its first
/// bytes are no header, or its length isn't that one's, it is what the lines of the input make, 4,096 bytes at most. Nothing of
/// the image changes.
pub fn salvage_image<M: Media, S: Source, K: Sink>(
    alloc: Global,
    name: Name,
    media: &mut M,
    input: &mut S,
    out: &mut K,
) -> SalvageEnd
    // What is written is what the bytes hold, and the pages that are passed over are counted.
    ensures ends { IsTrue (M.state media.old).tells → SalvageEnds (M.state media.old).content (S.left input.old) name (K.written out.old) (K.written out.new) result.passed_over result.status }
    ensures counts { (result.status ≡ ToolStatus.Done) ⊎ (result.passed_over ≡ none_passed) }

    // Statuses have their causes.
    ensures device { result.status ≡ ToolStatus.Device → Rose (M.state media.old).faults (M.state media.new).faults }
    ensures read { result.status ≡ ToolStatus.InputRead → Rose (S.faults input.old) (S.faults input.new) }
    ensures write { result.status ≡ ToolStatus.OutWrite → Rose (K.faults out.old) (K.faults out.new) }
    ensures later { (S.faults input.old ≤ S.faults input.new) × (K.faults out.old ≤ K.faults out.new) }
    ensures looks { OnlyLooksAt (M.state media.old) (M.state media.new) }
{
    let Ok(mut lines) = LineRoom::new(alloc) else {
        return SalvageEnd::of(ToolStatus::NoMemory);
    };
    let config = match config_of(media, input, &mut lines) {
        Ok(config) => config,
        Err(status) => return SalvageEnd::of(status),
    };
    let Some(at) = find(&config, name) else {
        return SalvageEnd::of(ToolStatus::NoTable);
    };
    salvage_at(alloc, &config, at, media, out)
}
