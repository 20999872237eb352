// The sizes of a table.
ghost use Rattle.std.specs.Prelude.{◌≡◌, ◌≤◌, ◌^◌, ◌*◌, ◌-◌, ◌/◌, ◌+◌, IfSome, IsTrue, is_some, if◌then◌else◌};
ghost use Rattle.fl_bitmap.specs.Widths.{is_bits};
ghost use Rattle.fl_model.specs.Record.{rows_per_page};
ghost use Rattle.fl_plan.specs.Limits.{IsRingSize, IsWithinLimits};
ghost use Rattle.fl_plan.specs.Plan.{Label, blocks_in, plan_of_table, with_log};
ghost use Rattle.fl_sizing.specs.Sizes.{one_if, pages_kept, rows_kept, index_pages, index_blocks, blob_bytes, blocks_wanted, table_memory, rows_read, index_reads, var_reads, log_reads, full_reads, most_reads, sizes_of};

use crate::rings::{blocks_for, end_reads, least_pages, most_pages, rounded_up};
use fl_base::RingPlace;
use fl_plan::TableConfig;

/// What follows for a table from its line, in bytes, rows, pages, blocks and reads.
#[derive(Clone, Copy)]
pub struct TableSizes {
    /// The bytes of a row.
    pub row_bytes: u64,
    /// How many rows a page has room for.
    pub rows_per_page: u64,
    /// The data pages that are always kept, once the ring was full, and the rows of so many full ones.
    pub pages_kept: u64,
    pub rows_kept: u64,
    /// The index pages that list all data pages, and the blocks that always keep these; 0 without an index.
    pub index_pages: u64,
    pub index_blocks: u64,
    /// The bytes of the pages of variable data that are always kept, once their ring was full of full pages. The first of them may be
    /// the end of a blob that is gone.
    pub blob_bytes: u64,
    /// The bytes of memory that it takes.
    pub memory: u64,
    /// The reads of a mount of full rings without void pages, where an index lists all data pages but the last ones, and those of
    /// any mount at most.
    pub full_reads: u64,
    pub most_reads: u64,
}

/// How many rows a page has room for.
fn rows_per_page(config: &TableConfig) -> u64
    requires { IsWithinLimits config.now }
    ensures exact { (label : Label) → result ≡ rows_per_page (plan_of_table label config.now) }
    ensures few { result ≤ 4096 }
{
    (u64::from(config.geometry.page) - 24) / u64::from(config.row_len())
}

/// How many entries an index page has room for: of bitmaps of so many bits, and where they are full of 14 bytes more.
fn entries_per_page(page: u32, bits: u32, full: bool) -> u64
    requires least { 64 ≤ page }
    requires most { page ≤ 4096 }
    requires bits { IsTrue (is_bits bits) }
    ensures exact { result ≡ (page - 24) / (bits / 8 + (if full then 14 else 0)) }
    ensures some { 1 ≤ result }
    ensures few { result ≤ 4096 }
{
    let more = if full { 14 } else { 0 };
    (u64::from(page) - 24) / (u64::from(bits / 8) + more)
}

/// The index pages that list all data pages; none where there is no index.
fn index_pages(config: &TableConfig) -> u64
    requires { IsWithinLimits config.now }
    ensures exact { (label : Label) → result ≡ index_pages (plan_of_table label config.now) }
    ensures few { result ≤ 2 ^ 31 }
{
    let (Some(_), Some(buckets)) = (&config.index, &config.buckets) else {
        return 0;
    };
    let pages = most_pages(
        u64::from(config.rows.blocks),
        u64::from(config.geometry.block),
    );
    let entries = entries_per_page(config.geometry.page, buckets.bits, config.full_index);
    rounded_up(pages, entries)
}

/// The blocks that always keep these; none where there is no index.
fn index_blocks(config: &TableConfig) -> u64
    requires { IsWithinLimits config.now }
    ensures exact { (label : Label) → result ≡ index_blocks (plan_of_table label config.now) }
    ensures few { result ≤ 2 ^ 34 }
{
    let Some(_) = &config.index else {
        return 0;
    };
    blocks_for(index_pages(config), u64::from(config.geometry.block)).max(3)
}

/// The data pages that are always kept, once the ring was full.
fn pages_kept(config: &TableConfig) -> u64
    requires { IsWithinLimits config.now }
    ensures exact { (label : Label) → result ≡ pages_kept (plan_of_table label config.now) }
    ensures few { result ≤ 2 ^ 22 }
{
    least_pages(
        u64::from(config.rows.blocks),
        u64::from(config.geometry.block),
    )
}

/// The rows of so many full pages.
fn rows_kept(config: &TableConfig) -> u64
    requires { IsWithinLimits config.now }
    ensures exact { (label : Label) → result ≡ rows_kept (plan_of_table label config.now) }
    ensures few { result ≤ 2 ^ 34 }
{
    rows_per_page(config) * pages_kept(config)
}

/// The bytes of the pages of variable data that are always kept, once their ring was full of full pages.
fn blob_bytes(config: &TableConfig) -> u64
    requires { IsWithinLimits config.now }
    ensures { (label : Label) → result ≡ blob_bytes (plan_of_table label config.now) }
{
    (u64::from(config.geometry.page) - 16)
        * least_pages(
            u64::from(config.var_blocks()),
            u64::from(config.geometry.block),
        )
}

/// The blocks of a log; none where there is none.
fn log_blocks(log: Option<RingPlace>) -> u64
    requires { IfSome log IsRingSize }
    ensures exact { result ≡ blocks_in log }
    ensures few { result ≤ 16384 }
{
    log.map_or(0, |place| u64::from(place.blocks))
}

/// The blocks of a table whose index has as many as are wanted.
pub(crate) fn blocks_wanted(config: &TableConfig, log: Option<RingPlace>) -> u64
    requires limits { IsWithinLimits config.now }
    requires log { IfSome log IsRingSize }
    ensures exact { (label : Label) → result ≡ blocks_wanted (with_log (blocks_in log) (plan_of_table label config.now)) }
    ensures few { result ≤ 2 ^ 35 }
{
    u64::from(config.rows.blocks)
        + index_blocks(config)
        + u64::from(config.var_blocks())
        + log_blocks(log)
}

/// The bytes of memory that it takes for a page of each of its blocks.
fn page_memory(config: &TableConfig, log: Option<RingPlace>) -> u64
    requires limits { IsWithinLimits config.now }
    requires log { IfSome log IsRingSize }
    ensures exact { result ≡ 3 * config.now.rows.blocks + 9 * blocks_in config.now.index + blocks_in config.now.var + blocks_in log }
    ensures few { result ≤ 229376 }
{
    3 * u64::from(config.rows.blocks)
        + 9 * u64::from(config.index_blocks())
        + u64::from(config.var_blocks())
        + log_blocks(log)
}

/// How many rings it has, with its log.
fn rings(config: &TableConfig, log: Option<RingPlace>) -> u64
    ensures exact { result ≡ 1 + one_if (is_some config.now.index) + one_if (is_some config.now.var) + one_if (is_some log) }
    ensures few { result ≤ 4 }
{
    1 + u64::from(config.index.is_some())
        + u64::from(config.var.is_some())
        + u64::from(log.is_some())
}

/// The bytes of memory that it takes.
pub(crate) fn memory(config: &TableConfig, log: Option<RingPlace>) -> u64
    requires limits { IsWithinLimits config.now }
    requires log { IfSome log IsRingSize }
    ensures exact { (label : Label) → result ≡ table_memory (with_log (blocks_in log) (plan_of_table label config.now)) }
    ensures few { result ≤ 2 ^ 32 }
{
    page_memory(config, log) * u64::from(config.geometry.block)
        + rings(config, log) * u64::from(config.geometry.page)
}

/// The data pages that a mount of full rings without void pages reads: all of them, or where index entries are full those that no
/// index page lists, and the newest.
fn rows_read(config: &TableConfig) -> u64
    requires { IsWithinLimits config.now }
    ensures exact { (label : Label) → result ≡ rows_read (plan_of_table label config.now) }
    ensures few { result ≤ 2 ^ 23 }
{
    let per_block = u64::from(config.geometry.block);
    let pages = most_pages(u64::from(config.rows.blocks), per_block);
    if !config.full_index {
        return pages;
    }
    let (Some(index), Some(buckets)) = (&config.index, &config.buckets) else {
        return pages;
    };
    let entries = entries_per_page(config.geometry.page, buckets.bits, true);
    let listed = entries * least_pages(u64::from(index.blocks), per_block);
    pages.saturating_sub(listed).max(entries).min(pages) + 1
}

/// The reads of a full index: its kept pages, and those that find its end.
fn index_reads(config: &TableConfig) -> u64
    requires { IsWithinLimits config.now }
    ensures exact { (label : Label) → result ≡ index_reads (plan_of_table label config.now) }
    ensures few { result ≤ 2 ^ 23 }
{
    let Some(place) = &config.index else {
        return 0;
    };
    let (blocks, per_block) = (u64::from(place.blocks), u64::from(config.geometry.block));
    most_pages(blocks, per_block) + end_reads(blocks, per_block)
}

/// The reads that find the end of a full ring of variable data.
fn var_reads(config: &TableConfig) -> u64
    requires { IsWithinLimits config.now }
    ensures exact { (label : Label) → result ≡ var_reads (plan_of_table label config.now) }
    ensures few { result ≤ 2 ^ 16 }
{
    let Some(place) = &config.var else {
        return 0;
    };
    end_reads(u64::from(place.blocks), u64::from(config.geometry.block))
}

/// The reads that find the end of a full log, and its records.
fn log_reads(config: &TableConfig, log: Option<RingPlace>) -> u64
    requires limits { IsWithinLimits config.now }
    requires log { IfSome log IsRingSize }
    ensures exact { (label : Label) → result ≡ log_reads (with_log (blocks_in log) (plan_of_table label config.now)) }
    ensures few { result ≤ 2 ^ 17 }
{
    let Some(place) = log else {
        return 0;
    };
    end_reads(u64::from(place.blocks), u64::from(config.geometry.block)) + 1
}

/// The reads of a mount of full rings without void pages.
fn full_reads(config: &TableConfig, log: Option<RingPlace>) -> u64
    requires limits { IsWithinLimits config.now }
    requires log { IfSome log IsRingSize }
    ensures { (label : Label) → result ≡ full_reads (with_log (blocks_in log) (plan_of_table label config.now)) }
{
    let rows = u64::from(config.rows.blocks);
    let rows_end = end_reads(rows, u64::from(config.geometry.block));
    rows_read(config) + rows_end + index_reads(config) + var_reads(config) + log_reads(config, log)
}

/// The reads of any mount at most.
fn most_reads(config: &TableConfig, log: Option<RingPlace>) -> u64
    requires limits { IsWithinLimits config.now }
    requires log { IfSome log IsRingSize }
    ensures { (label : Label) → result ≡ most_reads (with_log (blocks_in log) (plan_of_table label config.now)) }
{
    let blocks = config.blocks() + log_blocks(log);
    4 * (blocks * u64::from(config.geometry.block))
}

impl TableSizes {
    /// Those of a table, and of its log, if it has one.
    pub fn of(config: &TableConfig, log: Option<RingPlace>) -> TableSizes
        requires limits { IsWithinLimits config.now }
        requires log { IfSome log IsRingSize }
        ensures exact { (label : Label) → result ≡ sizes_of (with_log (blocks_in log) (plan_of_table label config.now)) }
        ensures rows { result.rows_kept ≤ 2 ^ 34 }
        ensures memory { result.memory ≤ 2 ^ 32 }
    {
        TableSizes {
            row_bytes: u64::from(config.row_len()),
            rows_per_page: rows_per_page(config),
            pages_kept: pages_kept(config),
            rows_kept: rows_kept(config),
            index_pages: index_pages(config),
            index_blocks: index_blocks(config),
            blob_bytes: blob_bytes(config),
            memory: memory(config, log),
            full_reads: full_reads(config, log),
            most_reads: most_reads(config, log),
        }
    }
}
