// Answers come from the pages that are read: bytes of a page are cleared beside a mounted table, and it answers what the page
// holds then.
ghost use Rattle.std.specs.Prelude.{◌≡◌, ◌≤◌, ◌+◌, ◌<◌, length, IfOk};
ghost use Rattle.fl_flash.specs.Flash.{FlashState};
ghost use Rattle.fl_table.specs.Memory.{LiesOn};

use crate::Table;
use crate::asserts::same;
use crate::media::blank_medium;
use crate::stores::{Store, flush, mount, put, runs};
use arrayvec::ArrayVec;
use fl_base::{Geometry, KeyRange, RingPlace, Span, Steps};
use fl_bitmap::Buckets;
use fl_cursor::Cursor;
use fl_flash::{Flash, PageBuf, SimFlash};
use fl_page::ReadFault;
use fl_plan::{ConfigRefusal, TableConfig};
use fl_schema::{ColumnType, KeyWidth};
use std::alloc::Global;

const GEOMETRY: Geometry = Geometry {
    page: 128,
    block: 4,
};

// Data in 300 blocks, eight rows a page; behind them an index of three blocks, which lists thirteen pages a page.
fn table(alloc: Global) -> Result<Table, ConfigRefusal>
    ensures { IfOk result (λ t. (f : FlashState) → f.geometry ≡ record { page = 128; block = 4 } → f.blocks ≡ 303 → LiesOn t f) }
{
    let mut columns = ArrayVec::new();
    columns.push(ColumnType::I32);
    let config = TableConfig {
        geometry: GEOMETRY,
        key: KeyWidth::Eight,
        columns,
        rows: RingPlace {
            first_block: 0,
            blocks: 300,
        },
        index: Some(RingPlace {
            first_block: 300,
            blocks: 3,
        }),
        var: None,
        buckets: Some(Buckets {
            bits: 64,
            base: 0,
            width: 100,
        }),
        error: 1,
        blob_limit: 0,
        full_index: false,
    };
    Table::plan(alloc, &config)
}

// The keys from 1 on, eight in each page; each page has a bucket of its own, up to the last of the 64.
fn fill<F: Flash>(table: &mut Table, flash: &mut F, buf: &mut PageBuf, keys: u64) -> bool
    requires lies { LiesOn table.old (F.state flash.old) }
    requires room { length buf.old.bytes ≡ (F.state flash.old).geometry.page }
    ensures geometry { (F.state flash.new).geometry ≡ (F.state flash.old).geometry }
    ensures blocks { (F.state flash.new).blocks ≡ (F.state flash.old).blocks }
    ensures lies { LiesOn table.new (F.state flash.new) }
    ensures room { length buf.new.bytes ≡ length buf.old.bytes }
{
    let mut taken = mount(table, flash, buf).is_ok();
    for before in 0..keys {
        let value = 1 + (before / 8 % 1000 * 100) as i64;
        taken &= put(table, flash, before + 1, &[value], None).is_ok();
    }
    taken & flush(table, flash).is_ok()
}

// The last value of the row with a key.
fn value_of<F: Flash>(
    table: &Table,
    flash: &mut F,
    buf: &mut PageBuf,
    key: u64,
) -> Result<Option<i64>, ReadFault>
    requires lies { LiesOn table.now (F.state flash.old) }
    requires room { length buf.old.bytes ≡ (F.state flash.old).geometry.page }
{
    if !runs(table) {
        return Ok(None);
    }
    let mut steps = Steps::new();
    match table.find(flash, key, buf, &mut steps)? {
        Some(place) => {
            let row = table.row_at(buf, place);
            Ok(Some(row.value(table.columns() - 1)))
        }
        None => Ok(None),
    }
}

// The value of key 4000 after bytes of a page were cleared, and whether all was written before, on 303 blocks of four pages.
fn look_up_after(
    alloc: Global,
    page: u32,
    from: u32,
    zeros: &[u8],
) -> Result<(bool, Result<Option<i64>, ReadFault>), ConfigRefusal>
    requires exists { page < 1212 }
    requires range { from + length zeros.now ≤ 128 }
{
    let mut media = blank_medium(alloc, 155136)?;
    let mut flash = SimFlash::new(alloc, &mut media, GEOMETRY, 303, 0)?;
    let mut store = Store::new(alloc, table(alloc)?, 128)?;
    let filled = fill(&mut store.table, &mut flash, &mut store.buf, 8000);
    let cleared = flash.program(page, from, zeros).is_ok();
    let value = value_of(&store.table, &mut flash, &mut store.buf, 4000);
    let _media = flash.into_media();
    Ok((filled & cleared, value))
}

// Keys 3993 to 4000 stand in page 499. Without a change the row is found there; pages 500 and 499 are read for it.
#[test]
fn a_lookup_answers_what_its_pages_hold(rt: HostRuntime) {
    let kept = look_up_after(rt.alloc(), 499, 108, &[]);
    same(&rt, &kept, &Ok((true, Ok(Some(49901)))));
    // The first key of page 500 is 0: it would be the page of key 4000.
    let other = look_up_after(rt.alloc(), 500, 16, &[0; 8]);
    same(&rt, &other, &Ok((true, Ok(None))));
    // The value of the last row of page 499.
    let zero = look_up_after(rt.alloc(), 499, 108, &[0; 4]);
    same(&rt, &zero, &Ok((true, Ok(Some(0)))));
}

// Whether a cursor over all keys gives a row with a value from 500 to 599.
fn has_row<F: Flash>(
    table: &Table,
    flash: &mut F,
    rows: &mut PageBuf,
    index: &mut PageBuf,
) -> Result<bool, ReadFault>
    requires lies { LiesOn table.now (F.state flash.old) }
    requires rows { length rows.old.bytes ≡ (F.state flash.old).geometry.page }
    requires index { length index.old.bytes ≡ (F.state flash.old).geometry.page }
{
    if !runs(table) {
        return Ok(false);
    }
    let range = KeyRange { low: 1, high: 112 };
    let span = Span {
        low: 500,
        high: 599,
    };
    let mut cursor = Cursor::begin(table, range, Some(span), rows, index);
    cursor.advance(flash)
}

// Whether such a row is found after these bytes of the first index page were cleared, which lists the data pages 0 to 12, and
// whether all was written before.
fn scan_after(alloc: Global, zeros: &[u8]) -> Result<(bool, Result<bool, ReadFault>), ConfigRefusal>
    requires range { length zeros.now ≤ 8 }
{
    let mut media = blank_medium(alloc, 155136)?;
    let mut flash = SimFlash::new(alloc, &mut media, GEOMETRY, 303, 0)?;
    let mut index = PageBuf::new(alloc, 128)?;
    let mut store = Store::new(alloc, table(alloc)?, 128)?;
    let filled = fill(&mut store.table, &mut flash, &mut store.buf, 112);
    let cleared = flash.program(1200, 56, zeros).is_ok();
    let found = has_row(&store.table, &mut flash, &mut store.buf, &mut index);
    let _media = flash.into_media();
    Ok((filled & cleared, found))
}

// Page 5 has the values in question, 501, and its bitmap is the sixth of the first index page.
#[test]
fn a_scan_answers_what_its_index_pages_hold(rt: HostRuntime) {
    same(&rt, &scan_after(rt.alloc(), &[]), &Ok((true, Ok(true))));
    same(
        &rt,
        &scan_after(rt.alloc(), &[0; 8]),
        &Ok((true, Ok(false))),
    );
}
