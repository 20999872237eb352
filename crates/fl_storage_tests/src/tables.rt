// Records that are put, flushed, cut, looked up and mounted again, and images made by hand.
ghost use Rattle.std.specs.Prelude.{◌≡◌, length, vec_len, IfOk};
ghost use Rattle.fl_flash.specs.Flash.{FlashState};
ghost use Rattle.fl_table.specs.Memory.{LiesOn};

mod blobs;
mod indexed;
mod steps;

use crate::Table;
use crate::answers::Answer;
use crate::answers::Answer::{
    Flushed, Found, LookedUp, Refused, Stands, Taken, Unflushed, Unmounted,
};
use crate::asserts::{same, same_at};
use crate::media::{blank, blank_medium};
use crate::stores::Store;
use arrayvec::ArrayVec;
use fl_base::{CutKind, Geometry, NoMemory, RingPlace, put_u16, put_u32, put_u64};
use fl_flash::{FlashFault, MemMedia, SimFlash};
use fl_page::BadPage;
use fl_plan::{ConfigRefusal, TableConfig};
use fl_ring::RingFault;
use fl_schema::{ColumnType, KeyWidth};
use fl_table::{FlushFault, MountFault, PutRefusal};
use std::alloc::Global;
use steps::Step::{Flush, LookUp, Mount, Put, Stand};
use steps::{ROW, Step, Talk, first_wrong};

const GEOMETRY: Geometry = Geometry { page: 64, block: 2 };

// Three rows a page, in a ring of three blocks after the first one.
fn table(alloc: Global) -> Result<Table, ConfigRefusal>
    ensures { IfOk result (λ t. (f : FlashState) → f.geometry ≡ record { page = 64; block = 2 } → f.blocks ≡ 4 → LiesOn t f) }
{
    let mut columns = ArrayVec::new();
    columns.push(ColumnType::I32);
    let config = TableConfig {
        geometry: GEOMETRY,
        key: KeyWidth::Eight,
        columns,
        rows: RingPlace {
            first_block: 1,
            blocks: 3,
        },
        index: None,
        var: None,
        buckets: None,
        error: 1,
        blob_limit: 0,
        full_index: false,
    };
    Table::plan(alloc, &config)
}

// The first step that isn't answered as it is to be, on four blocks of two pages with these bytes.
fn run(
    alloc: Global,
    bytes: Vec<u8>,
    steps: &[(Step, Answer)],
) -> Result<Option<usize>, ConfigRefusal>
    requires { vec_len bytes ≡ 512 }
{
    let mut media = MemMedia::new(alloc, bytes, 512)?;
    let mut flash = SimFlash::new(alloc, &mut media, GEOMETRY, 4, 0)?;
    let mut store = Store::new(alloc, table(alloc)?, 64)?;
    let wrong = first_wrong(alloc, steps, &mut store, &mut flash);
    let _media = flash.into_media();
    Ok(wrong)
}

// .. on a blank flash.
fn run_blank(alloc: Global, steps: &[(Step, Answer)]) -> Result<Option<usize>, ConfigRefusal> {
    run(alloc, blank(alloc, 512)?, steps)
}

#[test]
fn pending_rows_are_lost_and_flushed_ones_found(rt: HostRuntime) {
    const STEPS: Talk = &[
        (Put(1, ROW, None), Refused(PutRefusal::Stopped)),
        (Mount, Found(0, 0, 0)),
        (Put(1, ROW, None), Taken),
        (Flush, Flushed),
        (Put(2, ROW, None), Taken),
        (Mount, Found(1, 1, 0)),
        (Put(1, ROW, None), Refused(PutRefusal::Key { last: 1 })),
    ];
    same(&rt, &run_blank(rt.alloc(), STEPS), &Ok(None));
}

const BEFORE_THE_CUT: Talk = &[
    (Stand, Stands(false, false)),
    (Mount, Found(0, 0, 0)),
    (Put(1, ROW, None), Taken),
    (Put(2, ROW, None), Taken),
    (Flush, Flushed),
    (Put(3, ROW, None), Taken),
    (Stand, Stands(true, false)),
];

const IN_THE_CUT: Talk = &[
    (Flush, Unflushed(FlushFault::Flash(FlashFault::PowerLost))),
    (Put(4, ROW, None), Refused(PutRefusal::Stopped)),
    (Stand, Stands(true, true)),
];

// Two rows are flushed, and then a third one, of which the second operation is cut: the first steps before the cut, in it and
// after it that aren't answered as they are to be.
fn cut_at(
    alloc: Global,
    kind: CutKind,
    after: &[(Step, Answer)],
) -> Result<[Option<usize>; 3], ConfigRefusal> {
    let mut media = blank_medium(alloc, 512)?;
    let mut flash = SimFlash::new(alloc, &mut media, GEOMETRY, 4, 0)?;
    let mut store = Store::new(alloc, table(alloc)?, 64)?;
    let before = first_wrong(alloc, BEFORE_THE_CUT, &mut store, &mut flash);
    flash.arm(2, kind);
    let within = first_wrong(alloc, IN_THE_CUT, &mut store, &mut flash);
    flash.power_on();
    let later = first_wrong(alloc, after, &mut store, &mut flash);
    let _media = flash.into_media();
    Ok([before, within, later])
}

// .. where a mount behind the cut answers so, and the last key is this one
fn cut_leaves(
    alloc: Global,
    kind: CutKind,
    mounted: Answer,
    last: u64,
) -> Result<[Option<usize>; 3], ConfigRefusal> {
    let after = [
        (Mount, mounted),
        (Put(last, ROW, None), Refused(PutRefusal::Key { last })),
        (Mount, mounted),
        (Stand, Stands(true, false)),
    ];
    cut_at(alloc, kind, &after)
}

#[test]
fn a_torn_page_is_given_up(rt: HostRuntime) {
    // The mark wasn't programmed whole.
    let torn = cut_leaves(rt.alloc(), CutKind::Half, Found(2, 2, 1), 2);
    same(&rt, &torn, &Ok([None; 3]));
    // The page was committed.
    let whole = cut_leaves(rt.alloc(), CutKind::After, Found(3, 2, 0), 3);
    same(&rt, &whole, &Ok([None; 3]));
}

// The number of a page, the count of rows that it tells, and its first two keys.
type Page = (u32, u16, [u64; 2]);

fn write_page(page: Page, into: &mut [u8])
    requires { length into.old ≡ 64 }
{
    let (number, count, keys) = page;
    put_u32(into, 0, number);
    put_u16(into, 4, count);
    put_u64(into, 16, keys[0]);
    put_u64(into, 28, keys[1]);
    into[56..60].fill(0);
}

// The first two pages of the ring.
fn image(alloc: Global, first: Page, second: Option<Page>) -> Result<Vec<u8>, NoMemory>
    ensures { IfOk result (λ v. vec_len v ≡ 512) }
{
    let mut bytes = blank(alloc, 512)?;
    write_page(first, &mut bytes[128..192]);
    if let Some(second) = second {
        write_page(second, &mut bytes[192..256]);
    }
    Ok(bytes)
}

const APART: RingFault = RingFault::BadPage {
    page: 2,
    wanted: 0,
    found: 7,
};

// A page of more rows than it has room for, and one of another number.
const OVERFULL: BadPage = BadPage {
    wanted: 0,
    found: 0,
    count: 4,
};

const MISNUMBERED: BadPage = BadPage {
    wanted: 0,
    found: 3,
    count: 2,
};

// The first key that isn't above the one before it.
const FALLS: MountFault = MountFault::BadKeys {
    page: 1,
    last: 9,
    first: 8,
};

const IMAGES: &[(Page, Option<Page>, Answer)] = &[
    ((0, 2, [5, 9]), Some((1, 1, [10, 0])), Found(3, 2, 0)),
    ((7, 2, [5, 9]), None, Unmounted(MountFault::Ring(APART))),
    (
        (0, 4, [5, 9]),
        None,
        Unmounted(MountFault::BadPage(OVERFULL)),
    ),
    (
        (3, 2, [5, 5]),
        Some((1, 2, [4, 4])),
        Unmounted(MountFault::BadPage(MISNUMBERED)),
    ),
    ((0, 2, [5, 9]), Some((1, 2, [8, 4])), Unmounted(FALLS)),
];

// A mount of the ring with these pages, if it isn't answered so.
fn run_image(
    alloc: Global,
    first: Page,
    second: Option<Page>,
    mounted: Answer,
) -> Result<Option<usize>, ConfigRefusal> {
    let bytes = image(alloc, first, second)?;
    run(alloc, bytes, &[(Mount, mounted)])
}

#[test]
fn images_made_by_hand(rt: HostRuntime) {
    for (first, second, mounted) in IMAGES {
        let wrong = run_image(rt.alloc(), *first, *second, *mounted);
        same_at(&rt, &wrong, &Ok(None), first);
    }
}

#[test]
fn records_are_refused(rt: HostRuntime) {
    const STEPS: Talk = &[
        (Mount, Found(0, 0, 0)),
        (
            Put(1, &[1, 2], Some(0)),
            Refused(PutRefusal::Columns { wanted: 1 }),
        ),
        (
            Put(1, &[2147483648], Some(0)),
            Refused(PutRefusal::Value { column: 1 }),
        ),
        (
            Put(1, &[2147483647], Some(0)),
            Refused(PutRefusal::Blob { limit: 0 }),
        ),
        (Put(1, &[2147483647], None), Taken),
    ];
    same(&rt, &run_blank(rt.alloc(), STEPS), &Ok(None));
}

// Two pages of two rows and one, a void page, and a page of one row.
fn pages_with_a_void_one(alloc: Global) -> Result<Vec<u8>, NoMemory>
    ensures { IfOk result (λ v. vec_len v ≡ 512) }
{
    let mut bytes = image(alloc, (0, 2, [10, 20]), Some((1, 1, [40, 0])))?;
    bytes[256..320].fill(0);
    bytes[312..316].fill(255);
    write_page((3, 1, [60, 0]), &mut bytes[320..384]);
    Ok(bytes)
}

// .. on the ring with the void page
fn run_with_void(alloc: Global, steps: &[(Step, Answer)]) -> Result<Option<usize>, ConfigRefusal> {
    run(alloc, pages_with_a_void_one(alloc)?, steps)
}

#[test]
fn keys_are_looked_up(rt: HostRuntime) {
    const STEPS: Talk = &[
        (Mount, Found(4, 4, 1)),
        (Put(70, ROW, None), Taken),
        (Put(80, ROW, None), Taken),
        // Not covered: by halves.
        (LookUp(5), LookedUp((None, 3, 5, None))),
        // From the estimate and the error of 1 down to the page of the key, past the void one.
        (LookUp(20), LookedUp((Some(20), 2, 5, Some(0)))),
        (LookUp(30), LookedUp((None, 3, 5, Some(0)))),
        (LookUp(60), LookedUp((Some(60), 1, 5, Some(3)))),
        // At least the first pending key.
        (LookUp(75), LookedUp((None, 0, 0, Some(3)))),
        (LookUp(80), LookedUp((Some(80), 0, 0, Some(3)))),
    ];
    same(&rt, &run_with_void(rt.alloc(), STEPS), &Ok(None));
}
