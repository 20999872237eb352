// The check of an image.
ghost use Rattle.std.specs.Prelude.{◌≡◌, ◌≤◌, IsTrue};
ghost use Rattle.fl_base.specs.Causes.{Rose};
ghost use Rattle.fl_image_check.specs.Checking.{CheckEnds, CheckAllEnds, CheckedTo};
ghost use Rattle.fl_image.specs.Image.{OnlyLooksAt};
ghost use Rattle.fl_image.specs.declared.status.ToolStatus.{ToolStatus};

use crate::tables::check_tables;
use crate::{CheckTable, Extent};
use fl_base::Sink;
use fl_flash::{FlashRoom, Media, SimFlash};
use fl_image::{HEADER, ToolStatus, config_of_image};
use fl_script::LineRoom;
use std::alloc::Global;

/// Checks the tables of the image on a medium so far.
fn check_tables_of<M: Media, C: CheckTable, K: Sink>(
    alloc: Global,
    checker: &mut C,
    extent: Extent,
    media: &mut M,
    out: &mut K,
) -> ToolStatus
    ensures ends { IsTrue (M.state media.old).tells → CheckedTo extent C.finds C.rules (M.state media.old).content (K.written out.old) (K.written out.new) result }
    ensures looks { OnlyLooksAt (M.state media.old) (M.state media.new) }
    ensures device { result ≡ ToolStatus.Device → Rose (M.state media.old).faults (M.state media.new).faults }
    ensures write { result ≡ ToolStatus.OutWrite → Rose (K.faults out.old) (K.faults out.new) }
    ensures later { K.faults out.old ≤ K.faults out.new }
{
    let Ok(mut lines) = LineRoom::new(alloc) else {
        return ToolStatus::NoMemory;
    };
    let config = match config_of_image(media, &mut lines) {
        Ok(config) => config,
        Err(status) => return status,
    };
    let geometry = config.geometry();
    let blocks = config.blocks();
    let Ok(room) = FlashRoom::new(alloc, geometry, blocks) else {
        return ToolStatus::NoMemory;
    };
    let mut flash = SimFlash::with_room(media, geometry, blocks, HEADER as u64, room);
    let status = check_tables(alloc, checker, &config, extent, &mut flash, out);
    let _media = flash.into_media();
    status
}

/// Checks the tables of the image on a medium in their order, and writes a line for each, up to the first that isn't sound.
/// It mounts none of them, and changes nothing.
pub fn check_image<M: Media, C: CheckTable, K: Sink>(
    alloc: Global,
    checker: &mut C,
    media: &mut M,
    out: &mut K,
) -> ToolStatus
    // What is written is what is found rightly, table by table.
    ensures ends { IsTrue (M.state media.old).tells → CheckEnds C.finds (M.state media.old).content (K.written out.old) (K.written out.new) result }
    ensures looks { OnlyLooksAt (M.state media.old) (M.state media.new) }

    // Statuses have their causes.
    ensures device { result ≡ ToolStatus.Device → Rose (M.state media.old).faults (M.state media.new).faults }
    ensures write { result ≡ ToolStatus.OutWrite → Rose (K.faults out.old) (K.faults out.new) }
    ensures later { K.faults out.old ≤ K.faults out.new }
{
    check_tables_of(alloc, checker, Extent::FirstFault, media, out)
}

/// Checks all tables of the image on a medium in their order by all rules, and writes a line for each sound table, and one for
/// each rule of another that doesn't hold. It mounts none of them, and changes nothing.
pub fn check_all<M: Media, C: CheckTable, K: Sink>(
    alloc: Global,
    checker: &mut C,
    media: &mut M,
    out: &mut K,
) -> ToolStatus
    // What is written is what is found rightly, table by table.
    ensures ends { IsTrue (M.state media.old).tells → CheckAllEnds C.rules (M.state media.old).content (K.written out.old) (K.written out.new) result }
    ensures looks { OnlyLooksAt (M.state media.old) (M.state media.new) }

    // Statuses have their causes.
    ensures device { result ≡ ToolStatus.Device → Rose (M.state media.old).faults (M.state media.new).faults }
    ensures write { result ≡ ToolStatus.OutWrite → Rose (K.faults out.old) (K.faults out.new) }
    ensures later { K.faults out.old ≤ K.faults out.new }
{
    check_tables_of(alloc, checker, Extent::AllTables, media, out)
}
