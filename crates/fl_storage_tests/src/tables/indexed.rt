// Tables with an index.
ghost use Rattle.std.specs.Prelude.{◌≡◌, vec_len, IfOk};
ghost use Rattle.fl_flash.specs.Flash.{FlashState};
ghost use Rattle.fl_table.specs.Memory.{LiesOn};

use super::*;
use fl_bitmap::Buckets;
use fl_flash::Flash;

// Three rows a page, in a ring of three blocks after the first one, and behind it three blocks of index pages, each with
// room for five bitmaps or one full entry.
fn indexed_table(alloc: Global, full_index: bool) -> Result<Table, ConfigRefusal>
    ensures { IfOk result (λ t. (f : FlashState) → f.geometry ≡ record { page = 64; block = 2 } → f.blocks ≡ 7 → LiesOn t f) }
{
    let mut columns = ArrayVec::new();
    columns.push(ColumnType::I32);
    let config = TableConfig {
        geometry: GEOMETRY,
        key: KeyWidth::Eight,
        columns,
        rows: RingPlace {
            first_block: 1,
            blocks: 3,
        },
        index: Some(RingPlace {
            first_block: 4,
            blocks: 3,
        }),
        var: None,
        buckets: Some(Buckets {
            bits: 64,
            base: -32,
            width: 1,
        }),
        error: 1,
        blob_limit: 0,
        full_index,
    };
    Table::plan(alloc, &config)
}

// The first step that isn't answered as it is to be, on seven blocks of two pages with these bytes, and how many programs were made.
fn run_indexed(
    alloc: Global,
    bytes: Vec<u8>,
    steps: &[(Step, Answer)],
) -> Result<(Option<usize>, u64), ConfigRefusal>
    requires { vec_len bytes ≡ 896 }
{
    let mut media = MemMedia::new(alloc, bytes, 896)?;
    let mut flash = SimFlash::new(alloc, &mut media, GEOMETRY, 7, 0)?;
    let mut store = Store::new(alloc, indexed_table(alloc, false)?, 64)?;
    let wrong = first_wrong(alloc, steps, &mut store, &mut flash);
    let programs = flash.work().programs;
    let _media = flash.into_media();
    Ok((wrong, programs))
}

// .. on a blank flash
fn run_blank_indexed(
    alloc: Global,
    steps: &[(Step, Answer)],
) -> Result<(Option<usize>, u64), ConfigRefusal> {
    run_indexed(alloc, blank(alloc, 896)?, steps)
}

#[test]
fn bitmaps_wait_for_their_page(rt: HostRuntime) {
    const STEPS: Talk = &[
        (Mount, Found(0, 0, 0)),
        (Put(1, ROW, None), Taken),
        (Flush, Flushed),
        (Mount, Found(1, 1, 0)),
    ];
    same(&rt, &run_blank_indexed(rt.alloc(), STEPS), &Ok((None, 2)));
}

// An index page with number 0 that lists five data pages from number 2 on, and the data page with number 0 alone.
fn listed_too_far(alloc: Global) -> Result<Vec<u8>, NoMemory>
    ensures { IfOk result (λ v. vec_len v ≡ 896) }
{
    let mut bytes = blank(alloc, 896)?;
    put_u32(&mut bytes[512..576], 0, 0);
    put_u32(&mut bytes[512..576], 4, 2);
    put_u16(&mut bytes[512..576], 8, 5);
    bytes[568..572].fill(0);
    put_u32(&mut bytes[128..192], 0, 0);
    put_u16(&mut bytes[128..192], 4, 1);
    bytes[184..188].fill(0);
    Ok(bytes)
}

// .. on that flash
fn run_listed_too_far(
    alloc: Global,
    steps: &[(Step, Answer)],
) -> Result<(Option<usize>, u64), ConfigRefusal> {
    run_indexed(alloc, listed_too_far(alloc)?, steps)
}

#[test]
fn listed_pages_are_missing(rt: HostRuntime) {
    const STEPS: Talk = &[(Mount, Unmounted(MountFault::BadIndex { end: 7, next: 1 }))];
    same(&rt, &run_listed_too_far(rt.alloc(), STEPS), &Ok((None, 0)));
}

// The first step that isn't answered as it is to be over a table with full entries, and whether the first index page has these
// bytes then.
fn run_listing(
    alloc: Global,
    bytes: Vec<u8>,
    steps: &[(Step, Answer)],
    page: &[u8],
) -> Result<(Option<usize>, bool), ConfigRefusal>
    requires { vec_len bytes ≡ 896 }
{
    let mut media = MemMedia::new(alloc, bytes, 896)?;
    let mut flash = SimFlash::new(alloc, &mut media, GEOMETRY, 7, 0)?;
    let mut store = Store::new(alloc, indexed_table(alloc, true)?, 64)?;
    let wrong = first_wrong(alloc, steps, &mut store, &mut flash);
    let _read = flash.read(8, &mut store.buf);
    let _media = flash.into_media();
    Ok((wrong, store.buf.bytes() == page))
}

// An index page with number 0 that lists one data page.
fn full_page(first: u8, entry: [u8; 22]) -> [u8; 64] {
    let mut page = [255; 64];
    page[..16].fill(0);
    page[4] = first;
    page[8] = 1;
    page[16..38].copy_from_slice(&entry);
    for at in 56..60 {
        page[at] = 0;
    }
    page
}

// The entry of a page of two rows from key 5 on. The value -7 is in bucket 25.
const ENTRY: [u8; 22] = [
    0, 0, 0, 2, 0, 0, 0, 0, 5, 0, 0, 0, 0, 0, 0, 0, 2, 0, 0, 0, 0, 0,
];

// .. on a blank flash, where the index page lists one data page with the first of the entries
fn run_listing_first(
    alloc: Global,
    steps: &[(Step, Answer)],
) -> Result<(Option<usize>, bool), ConfigRefusal> {
    run_listing(alloc, blank(alloc, 896)?, steps, &full_page(0, ENTRY))
}

#[test]
fn an_entry_tells_the_first_key_and_the_count(rt: HostRuntime) {
    const STEPS: Talk = &[
        (Mount, Found(0, 0, 0)),
        (Put(5, ROW, None), Taken),
        (Put(9, ROW, None), Taken),
        (Flush, Flushed),
        (Put(10, ROW, None), Taken),
        (Flush, Flushed),
        (Mount, Found(3, 2, 0)),
    ];
    same(
        &rt,
        &run_listing_first(rt.alloc(), STEPS),
        &Ok((None, true)),
    );
}

// The entry that waits after a mount is that of the last data page.
#[test]
fn an_entry_is_made_of_a_page_that_a_mount_reads(rt: HostRuntime) {
    const STEPS: Talk = &[
        (Mount, Found(0, 0, 0)),
        (Put(5, ROW, None), Taken),
        (Put(9, ROW, None), Taken),
        (Flush, Flushed),
        (Mount, Found(2, 1, 0)),
        (Put(10, ROW, None), Taken),
        (Flush, Flushed),
    ];
    same(
        &rt,
        &run_listing_first(rt.alloc(), STEPS),
        &Ok((None, true)),
    );
}

// A data page with number 0 and the row of key 5, and behind it a page whose body was begun.
fn page_before_a_void_one(alloc: Global) -> Result<Vec<u8>, NoMemory>
    ensures { IfOk result (λ v. vec_len v ≡ 896) }
{
    let mut bytes = blank(alloc, 896)?;
    let page = &mut bytes[128..192];
    put_u32(page, 0, 0);
    put_u16(page, 4, 1);
    put_u16(page, 6, 0);
    put_u64(page, 8, 1 << 25);
    put_u64(page, 16, 5);
    put_u32(page, 24, 0xffff_fff9);
    page[56..60].fill(0);
    bytes[192..200].fill(0);
    Ok(bytes)
}

// .. on that flash, where the entry of the void page is zero
fn run_listing_void(
    alloc: Global,
    steps: &[(Step, Answer)],
) -> Result<(Option<usize>, bool), ConfigRefusal> {
    let bytes = page_before_a_void_one(alloc)?;
    run_listing(alloc, bytes, steps, &full_page(1, [0; 22]))
}

#[test]
fn an_entry_of_a_void_page_is_zero(rt: HostRuntime) {
    const STEPS: Talk = &[
        (Mount, Found(1, 2, 1)),
        (Put(7, ROW, None), Taken),
        (Flush, Flushed),
    ];
    same(&rt, &run_listing_void(rt.alloc(), STEPS), &Ok((None, true)));
}
