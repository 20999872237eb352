// How many pages a ring keeps, and how many a mount reads of it.
ghost use Rattle.std.specs.Prelude.{◌≡◌, ◌≤◌, ◌^◌};
ghost use Rattle.fl_sizing.specs.Rings.{rounded_up, least_pages, most_pages, blocks_for, end_reads};

/// A quotient, rounded up.
pub(crate) fn rounded_up(n: u64, by: u64) -> u64
    requires some { 1 ≤ by }
    requires few { n ≤ 2 ^ 32 }
    requires most { by ≤ 2 ^ 32 }
    ensures exact { result ≡ rounded_up n by }
    ensures few { result ≤ 2 ^ 33 }
{
    (n + (by - 1)) / by
}

/// The pages of a ring that are always kept, once it was full; none where it has no blocks.
pub(crate) fn least_pages(blocks: u64, per_block: u64) -> u64
    requires blocks { blocks ≤ 16384 }
    requires pages { per_block ≤ 256 }
    ensures exact { result ≡ least_pages (record { blocks = blocks; pages = per_block }) }
    ensures few { result ≤ 2 ^ 22 }
{
    (blocks.saturating_sub(1) * per_block).saturating_sub(1)
}

/// The pages of a ring that are kept at most.
pub(crate) fn most_pages(blocks: u64, per_block: u64) -> u64
    requires blocks { blocks ≤ 16384 }
    requires pages { per_block ≤ 256 }
    ensures exact { result ≡ most_pages (record { blocks = blocks; pages = per_block }) }
    ensures few { result ≤ 2 ^ 22 }
{
    (blocks * per_block).saturating_sub(2)
}

/// The blocks in which so many pages are always kept.
pub(crate) fn blocks_for(pages: u64, per_block: u64) -> u64
    requires few { pages ≤ 2 ^ 31 }
    requires some { 1 ≤ per_block }
    requires most { per_block ≤ 256 }
    ensures exact { result ≡ blocks_for pages per_block }
    ensures few { result ≤ 2 ^ 34 }
{
    1 + rounded_up(pages + 1, per_block)
}

/// The reads by which a mount finds the end of a ring that has no void page there.
pub(crate) fn end_reads(blocks: u64, per_block: u64) -> u64
    requires blocks { blocks ≤ 16384 }
    requires pages { per_block ≤ 256 }
    ensures exact { result ≡ end_reads (record { blocks = blocks; pages = per_block }) }
    ensures few { result ≤ 2 ^ 16 }
{
    blocks + 2 * per_block + 1
}
