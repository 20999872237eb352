// The image that a medium is.
ghost use Rattle.std.specs.Prelude.{◌≡◌, ◌⊎◌, ◌+◌, ◌≤◌, List, Some, length, sum_by, IsTrue, IfErr, IfOk, Err};
ghost use Rattle.fl_base.specs.Causes.{Rose};
ghost use Rattle.fl_base.specs.declared.types.Geometry.{Geometry};
ghost use Rattle.fl_config.specs.Whole.{is_whole, Makes};
ghost use Rattle.fl_flash.specs.Places.{extent};
ghost use Rattle.fl_image.specs.Header.{IsAccepted, IsMade};
ghost use Rattle.fl_image.specs.Image.{IsImageOf, OnlyLooksAt};
ghost use Rattle.fl_image.specs.declared.status.ToolStatus.{ToolStatus};
ghost use Rattle.fl_model.specs.Image.{medium_len};
ghost use Rattle.fl_model.specs.Record.{Config as Configured, blocks_of};
ghost use Rattle.fl_model.specs.Table as model;
ghost use Rattle.fl_words.specs.Config.{Lines};
ghost use Rattle.fl_words.specs.Medium.{IsImage};
ghost use Rattle.fl_store.specs.Found.{Finds};
ghost use Rattle.fl_store.specs.Store.{IsLayoutOf};

use crate::layout::Layout;
use fl_config::Config;
use fl_flash::Media;
use fl_image::{ToolStatus, config_of_image};
use fl_script::LineRoom;
use std::alloc::Global;

/// The image that a medium is: its configuration, and the layout of its tables.
#[derive(Drop)]
pub struct FoundImage {
    /// What its header tells.
    pub config: Config,
    /// The tables of the configuration.
    pub layout: Layout,
}

impl FoundImage {
    /// Finds the configuration in the header of the image on a medium. Nothing of the medium changes.
    /// # Errors
    /// `NotImage`: the medium is no image of any configuration. `Device`: the medium failed. `NoMemory`: memory isn't there.
    pub fn on<M: Media>(alloc: Global, media: &mut M) -> Result<FoundImage, ToolStatus>
        // An image that stands for tables is found, with its configuration, unless memory isn't there or the medium fails.
        ensures finds { (config : Configured) (tables : List model.Table) → IsTrue (M.state media.old).tells → IsMade config → IsImage config (M.state media.old).content tables → Finds config result }
        ensures image { IfOk result (λ found. IsTrue (M.state media.old).tells → IsAccepted found.config × IsImageOf (M.state media.old).content found.config) }
        ensures none { result ≡ Err ToolStatus.NotImage → IsTrue (M.state media.old).tells → (config : Lines) → IsAccepted config → IsImageOf (M.state media.old).content config → ⊥ }
        ensures device { result ≡ Err ToolStatus.Device → Rose (M.state media.old).faults (M.state media.new).faults }
        ensures statuses { IfErr result (λ status. (status ≡ ToolStatus.NotImage) ⊎ (status ≡ ToolStatus.Device) ⊎ (status ≡ ToolStatus.NoMemory)) }
        ensures whole { IfOk result (λ found. IsTrue (is_whole found.config)) }
        ensures layout { IfOk result (λ found. IsLayoutOf found.layout found.config) }
        ensures size { IfOk result (λ found. (configured : Configured) → Makes found.config configured → length (M.state media.old).content ≡ medium_len configured) }
        // Its pages lie on the medium.
        ensures reach { IfOk result (λ found. (g : Geometry) → found.config.device ≡ Some g → 1024 + extent g (sum_by blocks_of found.config.plans) ≤ length (M.state media.new).content) }
        ensures looks { OnlyLooksAt (M.state media.old) (M.state media.new) }
        ensures reads { (M.state media.new).reads ≤ (M.state media.old).reads + 1 }
    {
        let Ok(mut lines) = LineRoom::new(alloc) else {
            return Err(ToolStatus::NoMemory);
        };
        let config = config_of_image(media, &mut lines)?;
        let Ok(layout) = Layout::new(alloc, &config) else {
            return Err(ToolStatus::NoMemory);
        };
        Ok(FoundImage { config, layout })
    }
}
