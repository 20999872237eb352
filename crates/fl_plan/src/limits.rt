// The limits of the numbers of a configuration.
ghost use Rattle.std.specs.Prelude.{◌≡◌, ◌%◌, ◌^◌, ◌<◌, ◌≤◌, not, ◌||◌, nat_lt, ◌==◌};
ghost use Rattle.fl_plan.specs.Refusal.{blobs_misfit, pages_misfit};
ghost use Rattle.fl_plan.specs.Limits.{IsWithin};

use fl_base::Geometry;

/// Whether a page may have so many bytes.
pub fn is_page_size(bytes: u64) -> bool
    ensures { result ≡ not (nat_lt bytes 64 || nat_lt 4096 bytes || not (bytes % 8 == 0)) }
{
    64 <= bytes && bytes <= 4096 && bytes % 8 == 0
}

/// Whether a block may have so many pages.
pub fn is_block_size(pages: u64) -> bool
    ensures { result ≡ not (nat_lt pages 2 || nat_lt 256 pages) }
{
    2 <= pages && pages <= 256
}

/// Whether a ring may have so many blocks.
pub fn are_blocks(blocks: u64) -> bool
    ensures { result ≡ not (nat_lt blocks 3 || nat_lt 16384 blocks) }
{
    3 <= blocks && blocks <= 16384
}

/// Whether a table with so many blocks of variable data, or none, may have blobs of so many bytes.
pub fn has_room_for_blobs(geometry: Geometry, blocks: u64, limit: u64) -> bool
    requires within { IsWithin geometry }
    requires few { blocks ≤ 16384 }
    ensures { result ≡ not (blobs_misfit geometry blocks limit) }
{
    if blocks == 0 {
        return limit == 0;
    }
    let content = u64::from(geometry.page) - 16;
    let pages = ((blocks - 1) * u64::from(geometry.block)).saturating_sub(2);
    limit != 0 && limit <= 1500 && limit <= content * pages
}

/// Whether a device may have so many blocks.
pub fn has_room_for(geometry: Geometry, blocks: u64) -> bool
    requires within { IsWithin geometry }
    requires few { blocks < 2 ^ 33 }
    ensures { result ≡ not (pages_misfit geometry blocks) }
{
    let pages = blocks * u64::from(geometry.block);
    pages <= 65536 && pages * u64::from(geometry.page) <= 67108864
}
