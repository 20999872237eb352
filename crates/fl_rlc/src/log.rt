// The log of a table: a ring of pages, and the rows of the next one.
ghost use Rattle.std.specs.Prelude.{◌≡◌, ◌+◌, ◌-◌, ◌≤◌, length, drop, replicate};
ghost use Rattle.std.specs.Option.{ForSome};
ghost use Rattle.fl_flash.specs.Places.{IsGeometry};
ghost use Rattle.fl_ring.specs.Mounting.{shape_at};
ghost use Rattle.fl_ring.specs.Place.{shape_of};

use fl_base::{Geometry, NoMemory, RingPlace};
use fl_page::PageWriter;
use fl_ring::Ring;
use std::alloc::Global;

/// The pending rows of a table once more, in pages of a ring of their own: its newest page has all of them. It is mounted
/// before its first use.
#[derive(Drop)]
pub struct RecordLog {
    pub(crate) geometry: Geometry,
    pub(crate) place: RingPlace,
    /// The ring, where it is mounted and no program or erase failed since.
    pub(crate) ring: Option<Ring>,
    /// The rows of the next page: those that are pending.
    pub(crate) rows: PageWriter,
    ghost served: { IsGeometry geometry },
    ghost some_blocks: { 3 ≤ place.blocks },
    ghost body: { length rows.body + 8 ≡ geometry.page },
    ghost rows_begin: { 16 ≤ rows.end },
    ghost rows_room: { rows.end ≤ length rows.body },
    ghost blank_rest: { drop rows.end rows.body ≡ replicate (length rows.body - rows.end) 255 },
    ghost lies: { ForSome ring (λ r. shape_of r ≡ shape_at place geometry) },
}

impl RecordLog {
    ghost use Rattle.std.specs.Prelude.{ℕ, ◌^◌, ◌<◌, false, [], IfOk};
    ghost use Rattle.fl_flash.specs.Flash.{FlashState, pages};
    ghost use Rattle.fl_model.specs.Record.{Plan, RowLayout};
    ghost use Rattle.fl_page.specs.Writer.{Gathers};
    ghost use Rattle.fl_rlc.specs.Memory.{is_mounted, next_in, rows_in, place_in, log_shape, IsPlanned, LiesOn};

    /// A log in a ring at this place of a flash of this shape. It isn't mounted.
    pub(crate) fn plan(
        alloc: Global,
        geometry: Geometry,
        place: RingPlace,
    ) -> Result<RecordLog, NoMemory>
        requires served { IsGeometry geometry }
        requires blocks { 3 ≤ place.blocks }
        ensures planned { IfOk result (λ log. (plan : Plan) → plan.geometry ≡ geometry → plan.log_blocks ≡ place.blocks → IsPlanned log place.first_block plan) }
        ensures lies { IfOk result (λ log. (f : FlashState) → f.geometry ≡ geometry → place.first_block + place.blocks ≤ f.blocks → pages f < 2 ^ 32 → LiesOn log f) }
        ensures shape { IfOk result (λ log. log_shape log ≡ shape_at place geometry) }
        ensures place { IfOk result (λ log. place_in log ≡ place) }
        ensures fresh { IfOk result (λ log. is_mounted log ≡ false) }
        ensures empty { IfOk result (λ log. (layout : RowLayout) → Gathers layout [] (rows_in log)) }
    {
        Ok(RecordLog {
            geometry,
            place,
            ring: None,
            rows: PageWriter::new(alloc, geometry.page)?,
        })
    }

    /// The number of the next page, where it is mounted.
    pub(crate) fn next_number(&self) -> u32
        ensures { result ≡ next_in self.now }
    {
        match &self.ring {
            Some(ring) => ring.next_number(),
            None => 0,
        }
    }
}
