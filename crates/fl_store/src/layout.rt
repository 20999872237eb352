// What a store takes before its image is opened.
ghost use Rattle.std.specs.Prelude.{IfOk, IsTrue};
ghost use Rattle.fl_config.specs.Whole.{is_whole};
ghost use Rattle.fl_store.specs.Store.{IsLayoutOf};
ghost use Rattle.fl_store.specs.Tables.{Names};

use crate::tables::Tables;
use fl_base::{Name, NoMemory};
use fl_config::Config;
use fl_flash::FlashRoom;
use std::alloc::Global;

/// The tables of a configuration, as they lie on its images, and the memory for the flash on one. A store that is made of it takes
/// no more.
#[derive(Drop)]
pub struct Layout {
    /// One for each line. None is mounted.
    pub tables: Tables,
    /// Room for the flash.
    pub room: FlashRoom,
}

impl Layout {
    /// The layout of the images of a whole configuration.
    /// # Errors
    /// `NoMemory`: its memory isn't there.
    pub fn new(alloc: Global, config: &Config) -> Result<Layout, NoMemory>
        requires { IsTrue (is_whole config.now) }
        ensures { IfOk result (λ layout. IsLayoutOf layout config.now) }
    {
        Ok(Layout {
            tables: Tables::plan(alloc, config)?,
            room: FlashRoom::new(alloc, config.geometry(), config.blocks())?,
        })
    }

    /// The place of the first table with this name, from 0, if there is one.
    pub fn find(&self, name: Name) -> Option<usize>
        ensures { Names self.now.tables.entries.items name result }
    {
        self.tables.find(name)
    }
}
