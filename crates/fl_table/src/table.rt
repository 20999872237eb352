// A table: its records in the pages of a ring, and those that wait in memory for their page.
ghost use Rattle.std.specs.Prelude.{◌≡◌, ◌+◌, ◌*◌, ◌<◌, ◌≤◌, ◌-◌, true, is_some, length, drop, replicate, vec_len};
ghost use Rattle.std.specs.Option.{ForSome};
ghost use Rattle.fl_flash.specs.Places.{IsGeometry};
ghost use Rattle.fl_model.specs.Record.{layout_len};
ghost use Rattle.fl_model.specs.Table.{spent_from};
ghost use Rattle.fl_schema.specs.Schema.{layout_of, types_of};
ghost use Rattle.fl_ring.specs.Mounting.{shape_at};
ghost use Rattle.fl_ring.specs.Place.{next_of, shape_of};
ghost use Rattle.fl_parts.specs.Bitmaps.{AreRunning, EndAt, next_after};
ghost use Rattle.fl_parts.specs.Blobs as variable;

use fl_base::{Geometry, RingPlace};
use fl_bitmap::Buckets;
use fl_find::KeyIndex;
use fl_index::BitmapIndex;
use fl_page::PageWriter;
use fl_ring::Ring;
use fl_schema::Schema;
use fl_var::VarData;

/// Records in ascending order of their keys. It is mounted before its first use; each call that takes a flash is
/// given the one on which it was mounted.
///
/// Its index of pages keeps the KNOTS newest knots of a spline, and SLOTS slots that lead to them.
#[derive(Drop)]
pub struct Table<const KNOTS: usize, const SLOTS: usize> {
    pub(crate) schema: Schema<8>,
    pub(crate) geometry: Geometry,
    /// The blocks of the data ring.
    pub(crate) place: RingPlace,
    pub(crate) buckets: Option<Buckets>,
    /// The data ring, where the table is mounted and no program or erase failed since.
    pub(crate) ring: Option<Ring>,
    /// A program or erase failed since the mount.
    pub(crate) stopped: bool,
    /// The pending rows, and the bitmap of their values.
    pub(crate) writer: PageWriter,
    pub(crate) bitmap: u64,
    pub(crate) last_key: Option<u64>,
    /// How many rows each kept page holds, by its place in the ring.
    pub(crate) counts: Vec<u16>,
    /// How many of the kept pages are void.
    pub(crate) voids: u32,
    /// One more than the greatest page at which a blob of the pending rows begins, and 0 where none has a page.
    pub(crate) blob_end: u32,
    /// Where the pages of keys are.
    pub(crate) index: KeyIndex<KNOTS, SLOTS>,
    /// The entries of sealed pages, where there is an index of them.
    pub(crate) bitmaps: Option<BitmapIndex>,
    /// The blobs of its records, where it keeps any, and the greatest length of one.
    pub(crate) blobs: Option<VarData>,
    pub(crate) blob_limit: u32,
    ghost few_knots: { KNOTS ≤ 65536 },
    ghost few_slots: { SLOTS ≤ 65536 },
    ghost served: { IsGeometry geometry },
    ghost some_blocks: { 3 ≤ place.blocks },
    ghost few_blocks: { place.blocks ≤ 16384 },
    ghost some_columns: { 1 ≤ length (types_of schema) },
    ghost few_columns: { length (types_of schema) ≤ 8 },
    ghost some_row: { 1 ≤ layout_len (layout_of schema) },
    ghost room_for_row: { layout_len (layout_of schema) + 24 ≤ geometry.page },
    ghost has_blobs: { (layout_of schema).blobs ≡ is_some blobs },
    ghost blobs_fit: { blob_limit ≤ 1500 },
    ghost page: { length writer.body + 8 ≡ geometry.page },
    ghost rows_end: { writer.end ≡ 16 + writer.count * layout_len (layout_of schema) },
    ghost rows_room: { writer.end ≤ length writer.body },
    ghost blank_rest: { drop writer.end writer.body ≡ replicate (length writer.body - writer.end) 255 },
    ghost counted: { vec_len counts ≡ place.blocks * geometry.block },
    ghost lies: { ForSome ring (λ r. shape_of r ≡ shape_at place geometry) },
    ghost left: { ForSome ring (λ r. 1 ≤ writer.count → next_of r ≤ spent_from) },
    ghost few_pages: { ForSome bitmaps (λ index. place.blocks * geometry.block + 6 ≤ 65536) },
    ghost running: { is_some ring ≡ true → AreRunning bitmaps },
    ghost follow: { ForSome ring (λ r. EndAt bitmaps (next_of r)) },
    ghost pages_left: { 1 ≤ writer.count → next_after bitmaps ≤ spent_from + 1 },
    ghost blobs_running: { is_some ring ≡ true → variable.AreRunning blobs },
    ghost blobs_left: { is_some ring ≡ true → 1 ≤ writer.count → variable.next_after blobs ≤ spent_from + 64 },
}
