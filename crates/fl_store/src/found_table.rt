// The table with a name, in the image that a medium is.
ghost use Rattle.std.specs.Prelude.{◌≡◌, ◌+◌, ◌≤◌, Some, length, sum_by, IfErr, IfOk};
ghost use Rattle.fl_base.specs.declared.types.Geometry.{Geometry};
ghost use Rattle.fl_flash.specs.Places.{extent};
ghost use Rattle.fl_image.specs.Image.{OnlyLooksAt};
ghost use Rattle.fl_model.specs.Record.{blocks_of};
ghost use Rattle.fl_store.specs.FoundTable.{FindsNone, FindsTable};

use crate::found::FoundImage;
use crate::layout::Layout;
use fl_base::Name;
use fl_config::Config;
use fl_flash::Media;
use fl_image::ToolStatus;
use std::alloc::Global;

/// A table of the image that a medium is, found by its name.
#[derive(Drop)]
pub struct FoundTable {
    /// What the header of the image tells.
    pub config: Config,
    /// The tables of the configuration.
    pub layout: Layout,
    /// The place of the table among them, from 0.
    pub at: usize,
}

impl FoundTable {
    /// Finds the first table with this name in the image on a medium. Nothing of the medium changes.
    /// # Errors
    /// `NoTable`: the image has no table with the name. `NotImage`: the medium is no image of any configuration. `Device`: the
    /// medium failed. `NoMemory`: memory isn't there.
    pub fn on<M: Media>(alloc: Global, name: Name, media: &mut M) -> Result<FoundTable, ToolStatus>
        ensures table { IfOk result (λ found. FindsTable (M.state media.old) name found) }
        ensures none { IfErr result (λ status. FindsNone (M.state media.old) (M.state media.new) name status) }
        // The pages of the image lie on the medium.
        ensures reach { IfOk result (λ found. (g : Geometry) → found.config.device ≡ Some g → 1024 + extent g (sum_by blocks_of found.config.plans) ≤ length (M.state media.new).content) }
        ensures looks { OnlyLooksAt (M.state media.old) (M.state media.new) }
    {
        let FoundImage { config, layout } = FoundImage::on(alloc, media)?;
        // Its call tells the proof how few tables there are.
        let _tables = config.tables();
        match layout.find(name) {
            Some(at) => Ok(FoundTable { config, layout, at }),
            None => Err(ToolStatus::NoTable),
        }
    }
}
