// Cursors over a table with an index: which pages they read.
ghost use Rattle.std.specs.Prelude.{◌≡◌, length, IfOk};
ghost use Rattle.fl_flash.specs.Flash.{FlashState};
ghost use Rattle.fl_table.specs.Memory.{LiesOn};

use super::*;
use crate::asserts::same_at;
use fl_bitmap::Buckets;

// Three rows a page, in a ring of eight blocks, and behind it three blocks of index pages, each with room for the bitmaps
// of five pages, or for the full entry of one. Each value has a bucket of its own.
fn indexed_table(alloc: Global, full_index: bool) -> Result<Table, ConfigRefusal>
    ensures { IfOk result (λ t. (f : FlashState) → f.geometry ≡ record { page = 64; block = 2 } → f.blocks ≡ 11 → LiesOn t f) }
{
    let mut columns = ArrayVec::new();
    columns.push(ColumnType::I32);
    let config = TableConfig {
        geometry: GEOMETRY,
        key: KeyWidth::Eight,
        columns,
        rows: RingPlace {
            first_block: 0,
            blocks: 8,
        },
        index: Some(RingPlace {
            first_block: 8,
            blocks: 3,
        }),
        var: None,
        buckets: Some(Buckets {
            bits: 64,
            base: 0,
            width: 1,
        }),
        error: 1,
        blob_limit: 0,
        full_index,
    };
    Table::plan(alloc, &config)
}

// Twelve pages of one row each. The value is the key's last digit: 1, but 7 in the pages 3 and 8.
const KEYS: [u64; 12] = [11, 21, 31, 47, 51, 61, 71, 81, 97, 101, 111, 121];

fn fill<F: Flash>(store: &mut Store, flash: &mut F)
    requires lies { LiesOn store.old.table (F.state flash.old) }
    requires rows { length store.old.rows.bytes ≡ (F.state flash.old).geometry.page }
    requires index { length store.old.index.bytes ≡ (F.state flash.old).geometry.page }
    ensures geometry { (F.state flash.new).geometry ≡ (F.state flash.old).geometry }
    ensures lies { LiesOn store.new.table (F.state flash.new) }
    ensures rows { length store.new.rows.bytes ≡ length store.old.rows.bytes }
    ensures index { length store.new.index.bytes ≡ length store.old.index.bytes }
{
    take(Mount, store, flash);
    for key in KEYS {
        take(Put(key), store, flash);
        take(Flush, store, flash);
    }
}

// What three steps of a scan answer, and how often they read the flash.
fn scan<F: Flash>(
    store: &mut Store,
    flash: &mut F,
    range: KeyRange,
    span: Span,
) -> ([Answer; 3], u64)
    requires lies { LiesOn store.old.table (F.state flash.old) }
    requires rows { length store.old.rows.bytes ≡ (F.state flash.old).geometry.page }
    requires index { length store.old.index.bytes ≡ (F.state flash.old).geometry.page }
{
    let before = flash.work().reads;
    if !runs(&store.table) {
        return ([Answer::Refused; 3], 0);
    }
    let mut cursor = Cursor::begin(
        &store.table,
        range,
        Some(span),
        &mut store.rows,
        &mut store.index,
    );
    let first = advance(&mut cursor, flash);
    let second = advance(&mut cursor, flash);
    let third = advance(&mut cursor, flash);
    let reads = flash.work().reads.saturating_sub(before);
    ([first, second, third], reads)
}

// What a scan answers on eleven blocks of two pages.
fn scan_store(
    alloc: Global,
    full_index: bool,
    range: KeyRange,
    span: Span,
) -> Result<([Answer; 3], u64), ConfigRefusal> {
    let mut media = blank_medium(alloc, 1408)?;
    let mut flash = SimFlash::new(alloc, &mut media, GEOMETRY, 11, 0)?;
    let mut store = Store::new(alloc, indexed_table(alloc, full_index)?)?;
    fill(&mut store, &mut flash);
    let seen = scan(&mut store, &mut flash, range, span);
    let _media = flash.into_media();
    Ok(seen)
}

// A scan of all keys, over bitmaps alone.
fn see(alloc: Global, low: i64, high: i64) -> Result<([Answer; 3], u64), ConfigRefusal> {
    let range = KeyRange {
        low: 11,
        high: u64::MAX,
    };
    scan_store(alloc, false, range, Span { low, high })
}

// The least and the greatest value of a span, and what a scan answers and reads.
const SPANS: [(i64, i64, ([Answer; 3], u64)); 4] = [
    // Pages 3 and 8.
    (7, 7, ([Row(47), Row(97), End], 6)),
    // No page.
    (2, 6, ([End; 3], 4)),
    // The bucket 63 has all values from 63 on.
    (63, 100, ([End; 3], 4)),
    // No value lies in the span.
    (8, 3, ([End; 3], 4)),
];

// The lookup of key 11 reads pages 1 and 0. Both index pages are read, the bitmaps of pages 10 and 11 wait.
#[test]
fn a_scan_reads_the_pages_that_may_match(rt: HostRuntime) {
    for (low, high, want) in SPANS {
        same_at(&rt, &see(rt.alloc(), low, high), &Ok(want), &low);
    }
}

// The first row comes from page 0, which the lookup has read, and the next two from pages 1 and 2.
#[test]
fn a_scan_reads_an_index_page_once(rt: HostRuntime) {
    let rows = [Row(11), Row(21), Row(31)];
    same(&rt, &see(rt.alloc(), 1, 1), &Ok((rows, 5)));
}

// .. of the keys from 81 up to another one, with the value 7
fn see_sevens(
    alloc: Global,
    full_index: bool,
    high: u64,
) -> Result<([Answer; 3], u64), ConfigRefusal> {
    let range = KeyRange { low: 81, high };
    scan_store(alloc, full_index, range, Span { low: 7, high: 7 })
}

// The lookup of key 81 reads pages 8 and 7. The index lists page 8, which has the value 7 and begins at key 97.
#[test]
fn a_scan_ends_at_an_entry_that_tells_a_key_above_its_range(rt: HostRuntime) {
    same(&rt, &see_sevens(rt.alloc(), true, 96), &Ok(([End; 3], 3)));
    same(&rt, &see_sevens(rt.alloc(), false, 96), &Ok(([End; 3], 4)));
    let row = [Row(97), End, End];
    same(&rt, &see_sevens(rt.alloc(), true, 97), &Ok((row, 4)));
}
