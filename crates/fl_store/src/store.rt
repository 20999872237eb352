// The store of an image, on its medium.
ghost use Rattle.std.specs.Prelude.{◌≡◌, ◌+◌, ◌≤◌, ℕ, Bool, List, false, true, None, Some, length, map, sum_by, IsTrue};
ghost use Rattle.fl_base.specs.declared.types.Geometry.{Geometry};
ghost use Rattle.fl_config.specs.Whole.{is_whole, Makes};
ghost use Rattle.fl_flash.specs.Places.{extent, IsGeometry};
ghost use Rattle.fl_flash.specs.Sim.{on_medium};
ghost use Rattle.fl_model.specs.Record.{Config as Configured, blocks_of};
ghost use Rattle.fl_model.specs.Table as model;
ghost use Rattle.fl_model.specs.Table.{lose};
ghost use Rattle.fl_words.specs.Medium.{IsImage};
ghost use Rattle.fl_store.specs.Store.{HasRoom, Holds, IsBlankBehind, IsLayoutOf, IsOpened};
ghost use Rattle.fl_store.specs.Tables.{LieOn};

use crate::layout::Layout;
use crate::tables::Tables;
use fl_base::Geometry;
use fl_config::Config;
use fl_flash::{Flash, FlashRoom, Media, SimFlash};
use fl_image::HEADER;

/// The flash on the medium of an image. The pages of an image that was just made are known to be blank.
fn flash_on<'m, M: Media>(
    media: &'m mut M,
    geometry: Geometry,
    blocks: u32,
    is_new: bool,
    room: FlashRoom,
) -> SimFlash<'m, M>
    requires served { IsGeometry geometry }
    requires reach { 1024 + extent geometry blocks ≤ length (M.state media.old).content }
    requires room { HasRoom room geometry blocks }
    requires blank { is_new ≡ true → IsTrue (M.state media.old).tells → IsBlankBehind geometry blocks (M.state media.old).content }
    ensures { ⟦<SimFlash<'m, M> as Flash>⟧.state result
        ≡ on_medium geometry blocks 1024 media.entry.ghost_name true None 0 (record { reads = 0; programs = 0; erases = 0 }) (M.state media.old) }
{
    let mut flash = SimFlash::with_room(media, geometry, blocks, HEADER as u64, room);
    if is_new {
        flash.note_blank();
    }
    flash
}

/// The store of an image: its tables, and the flash on its medium.
#[derive(Drop)]
pub struct Store<'m, M: Media> {
    /// The flash. Its pages begin behind the header of the image.
    pub flash: SimFlash<'m, M>,
    /// The tables, in the order of their lines.
    pub tables: Tables,
}

impl<'m, M: Media> Store<'m, M> {
    /// The store of an image of this configuration. It isn't mounted, and has read nothing. `is_new` tells that the image was made
    /// just now, so that its pages are known to be blank.
    pub fn over(media: &'m mut M, config: &Config, is_new: bool, layout: Layout) -> Self
        requires whole { IsTrue (is_whole config.now) }
        requires layout { IsLayoutOf layout config.now }
        requires reach { (g : Geometry) → config.now.device ≡ Some g → 1024 + extent g (sum_by blocks_of config.now.plans) ≤ length (M.state media.old).content }
        requires blank { is_new ≡ true → IsTrue (M.state media.old).tells → (g : Geometry) → config.now.device ≡ Some g → IsBlankBehind g (sum_by blocks_of config.now.plans) (M.state media.old).content }
        // Over an image that stands for tables it holds them.
        ensures holds { (configured : Configured) (tables : List model.Table) → IsTrue (M.state media.old).tells → Makes config.now configured → IsImage configured (M.state media.old).content tables
            → Holds configured result.tables.entries.items (⟦<SimFlash<'m, M> as Flash>⟧.state result.flash) false tables }
        ensures flash { (g : Geometry) → config.now.device ≡ Some g → ⟦<SimFlash<'m, M> as Flash>⟧.state result.flash
            ≡ on_medium g (sum_by blocks_of config.now.plans) 1024 media.entry.ghost_name true None 0 (record { reads = 0; programs = 0; erases = 0 }) (M.state media.old) }
        ensures opened { IsOpened config.now (M.state media.old) (⟦<SimFlash<'m, M> as Flash>⟧.state result.flash) }
        ensures origin { (⟦<SimFlash<'m, M> as Flash>⟧.state result.flash).origin ≡ media.entry.ghost_name }
        ensures tables { result.tables ≡ layout.tables }
        ensures lie { LieOn result.tables.entries.items (⟦<SimFlash<'m, M> as Flash>⟧.state result.flash) }
    {
        let Layout { tables, room } = layout;
        let flash = flash_on(media, config.geometry(), config.blocks(), is_new, room);
        Store { flash, tables }
    }

    /// Gives the medium back. What was in memory alone is lost.
    pub fn close(self) -> &'m mut M
        // The medium is an image of the tables that the store held: without what was in memory alone, where they were mounted.
        ensures image { (configured : Configured) (tables : List model.Table) → Holds configured self.entry.tables.entries.items (⟦<SimFlash<'m, M> as Flash>⟧.state self.entry.flash) false tables
            → IsImage configured (M.state result.now).content tables }
        ensures lost { (configured : Configured) (tables : List model.Table) → Holds configured self.entry.tables.entries.items (⟦<SimFlash<'m, M> as Flash>⟧.state self.entry.flash) true tables
            → IsImage configured (M.state result.now).content (map lose tables) }
        ensures same_reference { result.ghost_name ≡ (⟦<SimFlash<'m, M> as Flash>⟧.state self.entry.flash).origin }
        ensures state { M.state result.now ≡ (⟦<SimFlash<'m, M> as Flash>⟧.state self.entry.flash).media }
    {
        let Store { flash, tables: _ } = self;
        flash.into_media()
    }
}
