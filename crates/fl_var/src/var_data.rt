// Variable-length data: a ring of pages, and the bytes that wait for the next one.
ghost use Rattle.std.specs.Prelude.{◌≡◌, ◌+◌, ◌≤◌, length};
ghost use Rattle.std.specs.Option.{ForSome};
ghost use Rattle.fl_flash.specs.Places.{IsGeometry};
ghost use Rattle.fl_ring.specs.Mounting.{shape_at};
ghost use Rattle.fl_ring.specs.Place.{shape_of};
ghost use Rattle.fl_var.specs.WaitingState.{IsBlankBehind};

use crate::waiting::Waiting;
use fl_base::{Geometry, NoMemory, RingPlace};
use fl_ring::Ring;
use std::alloc::Global;

/// Blobs in the pages of a ring of their own. It is mounted before its first use; each call that takes a flash is given
/// the one on which it was mounted.
#[derive(Drop)]
pub struct VarData {
    pub(crate) geometry: Geometry,
    pub(crate) place: RingPlace,
    /// The ring, where it is mounted and no program or erase failed since.
    pub(crate) ring: Option<Ring>,
    /// The bytes that wait for the next page.
    pub(crate) waiting: Waiting,
    ghost served: { IsGeometry geometry },
    ghost some_blocks: { 3 ≤ place.blocks },
    ghost page: { length waiting.body + 8 ≡ geometry.page },
    ghost room: { 8 + waiting.fill ≤ length waiting.body },
    ghost blank: { IsBlankBehind waiting },
    ghost lies: { ForSome ring (λ r. shape_of r ≡ shape_at place geometry) },
}

impl VarData {
    ghost use Rattle.std.specs.Prelude.{◌^◌, ◌<◌, false, [], IfOk};
    ghost use Rattle.fl_flash.specs.Flash.{FlashState, pages};
    ghost use Rattle.fl_model.specs.Record.{Plan};
    ghost use Rattle.fl_var.specs.Memory.{is_mounted, next_in, waiting_in, var_shape, IsPlanned, LiesOn};

    /// Variable data in a ring at this place of a flash of this shape. It isn't mounted.
    pub fn plan(alloc: Global, geometry: Geometry, place: RingPlace) -> Result<VarData, NoMemory>
        requires served { IsGeometry geometry }
        requires blocks { 3 ≤ place.blocks }
        ensures planned { IfOk result (λ v. (plan : Plan) → plan.geometry ≡ geometry → plan.var_blocks ≡ place.blocks → IsPlanned v plan) }
        ensures lies { IfOk result (λ v. (f : FlashState) → f.geometry ≡ geometry → place.first_block + place.blocks ≤ f.blocks → pages f < 2 ^ 32 → LiesOn v f) }
        ensures shape { IfOk result (λ v. var_shape v ≡ shape_at place geometry) }
        ensures fresh { IfOk result (λ v. is_mounted v ≡ false) }
        ensures waits { IfOk result (λ v. waiting_in v ≡ []) }
    {
        Ok(VarData {
            geometry,
            place,
            ring: None,
            waiting: Waiting::new(alloc, geometry.page)?,
        })
    }

    /// The number of the next page, where it is mounted.
    pub fn next_number(&self) -> u32
        ensures { result ≡ next_in self.now }
    {
        match &self.ring {
            Some(ring) => ring.next_number(),
            None => 0,
        }
    }
}
