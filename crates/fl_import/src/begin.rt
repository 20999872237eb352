// What an import finds and takes before its image is opened.
ghost use Rattle.std.specs.Prelude.{◌≡◌, ◌+◌, ◌^◌, ◌≤◌, false, [], Some, length, sum_by, IfErr, IfOk};
ghost use Rattle.fl_base.specs.declared.types.Geometry.{Geometry};
ghost use Rattle.fl_flash.specs.Places.{extent};
ghost use Rattle.fl_image.specs.Image.{OnlyLooksAt};
ghost use Rattle.fl_model.specs.Record.{blocks_of};
ghost use Rattle.fl_store.specs.FoundTable.{FindsNone, FindsTable};

use fl_base::Name;
use fl_flash::{Media, PageBuf};
use fl_image::ToolStatus;
use fl_lines::Lines;
use fl_store::FoundTable;
use std::alloc::Global;

/// The table of an import, and room for its lines and for a page.
#[derive(Drop)]
pub(crate) struct Begun {
    pub(crate) found: FoundTable,
    pub(crate) lines: Lines,
    pub(crate) page: PageBuf,
}

/// Finds the table with this name in the image on a medium, of which nothing changes, and makes the room.
pub(crate) fn begin<M: Media>(alloc: Global, name: Name, media: &mut M) -> Result<Begun, ToolStatus>
    ensures table { IfOk result (λ begun. FindsTable (M.state media.old) name begun.found) }
    ensures lines { IfOk result (λ begun. begun.lines ≡ record { line = []; ahead = []; most = 2 ^ 24; closed = false }) }
    ensures reach { IfOk result (λ begun. (g : Geometry) → begun.found.config.device ≡ Some g → 1024 + extent g (sum_by blocks_of begun.found.config.plans) ≤ length (M.state media.new).content) }
    ensures page { IfOk result (λ begun. (g : Geometry) → begun.found.config.device ≡ Some g → length begun.page.bytes ≡ g.page) }
    ensures none { IfErr result (λ status. FindsNone (M.state media.old) (M.state media.new) name status) }
    ensures looks { OnlyLooksAt (M.state media.old) (M.state media.new) }
{
    let found = FoundTable::on(alloc, name, media)?;
    let Ok(lines) = Lines::new(alloc) else {
        return Err(ToolStatus::NoMemory);
    };
    let Ok(page) = PageBuf::new(alloc, found.config.geometry().page) else {
        return Err(ToolStatus::NoMemory);
    };
    Ok(Begun { found, lines, page })
}
