// The memory of a flash.
ghost use Rattle.std.specs.Prelude.{◌≡◌, ◌*◌, IfOk};

use fl_base::{Geometry, NoMemory};
use std::alloc::Global;
use std::marker::Model;

/// The memory of a flash, made before the flash itself, so that making that one can't fail.
#[derive(Drop)]
pub struct FlashRoom {
    /// Room for the bytes of a block.
    pub(crate) block: Vec<u8>,
    /// Whether a page is known to be blank. No page is, to begin with.
    pub(crate) clean: Vec<bool>,
}

impl Model for FlashRoom {
    ghost use Rattle.std.specs.Prelude.{vec_len};
    ghost use Rattle.fl_flash.specs.Room.{RoomSizes, NoneIsSet};

    ghost Value = { RoomSizes };

    ghost view = { λ r. record { bytes = vec_len r.block; pages = vec_len r.clean } };

    ghost invariant = { λ r. NoneIsSet r.clean.items };
}

impl FlashRoom {
    /// Room for a flash of so many blocks.
    pub fn new(alloc: Global, geometry: Geometry, blocks: u32) -> Result<FlashRoom, NoMemory>
        ensures { IfOk result (λ r. r ≡ record { bytes = geometry.block * geometry.page; pages = blocks * geometry.block }) }
    {
        let block = vec![in alloc; 0; geometry.block as usize * geometry.page as usize]?;
        let clean = vec![in alloc; false; blocks as usize * geometry.block as usize]?;
        Ok(FlashRoom { block, clean })
    }
}
