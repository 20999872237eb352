// Records with blobs that are put and mounted again, and images made by hand.
ghost use Rattle.std.specs.Prelude.{◌≡◌, true, length, vec_len, IfOk};
ghost use Rattle.fl_flash.specs.Flash.{FlashState, Stays};
ghost use Rattle.fl_table.specs.BlobAt.{has_blobs};
ghost use Rattle.fl_table.specs.Memory.{LiesOn, is_running};

use super::steps::Step::{Flush, Mount, Open, Put};
use super::steps::{ROW, Step, Talk, first_wrong};
use crate::Table;
use crate::answers::Answer;
use crate::answers::Answer::{Flushed, Found, Gone, Refused, Taken, Unmounted, Unread, Whole};
use crate::asserts::{same, same_at};
use crate::media::{blank, counted};
use crate::stores::{Store, runs};
use arrayvec::ArrayVec;
use fl_base::{BlobRef, Geometry, NoMemory, RingPlace, put_u16, put_u32, put_u64};
use fl_flash::{Flash, MemMedia, PageBuf, SimFlash};
use fl_plan::{ConfigRefusal, TableConfig};
use fl_ring::RingFault;
use fl_schema::{ColumnType, KeyWidth};
use fl_table::{MountFault, PutRefusal};
use std::alloc::Global;

const GEOMETRY: Geometry = Geometry {
    page: 128,
    block: 2,
};

// Data in three blocks, and behind them blobs of up to 200 bytes in three, 112 bytes a page.
fn table(alloc: Global) -> Result<Table, ConfigRefusal>
    ensures { IfOk result (λ t. (f : FlashState) → f.geometry ≡ record { page = 128; block = 2 } → f.blocks ≡ 6 → LiesOn t f) }
{
    let mut columns = ArrayVec::new();
    columns.push(ColumnType::I32);
    let config = TableConfig {
        geometry: GEOMETRY,
        key: KeyWidth::Eight,
        columns,
        rows: RingPlace {
            first_block: 0,
            blocks: 3,
        },
        index: None,
        var: Some(RingPlace {
            first_block: 3,
            blocks: 3,
        }),
        buckets: None,
        error: 1,
        blob_limit: 200,
        full_index: false,
    };
    Table::plan(alloc, &config)
}

fn look_at<F: Flash>(
    alloc: Global,
    table: &Table,
    flash: &mut F,
    at: BlobRef,
    blob: &[u8],
) -> Answer
    requires running { is_running table.now ≡ true }
    requires some { has_blobs table.now ≡ true }
    requires lies { LiesOn table.now (F.state flash.old) }
    ensures goes { Stays (F.state flash.old) (F.state flash.new) }
    ensures lies { LiesOn table.now (F.state flash.new) }
{
    let Ok(mut buf) = PageBuf::new(alloc, flash.geometry().page) else {
        return Unread;
    };
    let Ok(opened) = table.blob_at(flash, at, &mut buf) else {
        return Unread;
    };
    let Some(mut reader) = opened else {
        return Gone;
    };
    let len = at.length as usize;
    if len > blob.len() {
        return Unread;
    }
    let mut rest = &blob[..len];
    for _ in 0..10 {
        let Ok(more) = reader.step(flash) else {
            return Unread;
        };
        if !more && rest.is_empty() {
            return Whole;
        }
        let Some(behind) = rest.strip_prefix(reader.chunk()) else {
            return Unread;
        };
        rest = behind;
    }
    Unread
}

/// Opens the blob at a place and reads it.
pub(super) fn open<F: Flash>(alloc: Global, table: &Table, flash: &mut F, at: BlobRef) -> Answer
    requires lies { LiesOn table.now (F.state flash.old) }
    ensures goes { Stays (F.state flash.old) (F.state flash.new) }
    ensures lies { LiesOn table.now (F.state flash.new) }
{
    if !runs(table) || !table.has_blobs() {
        return Unread;
    }
    let bytes = counted();
    look_at(alloc, table, flash, at, &bytes)
}

// The first step that isn't answered as it is to be, on six blocks of two pages with these bytes.
fn run(
    alloc: Global,
    bytes: Vec<u8>,
    steps: &[(Step, Answer)],
) -> Result<Option<usize>, ConfigRefusal>
    requires { vec_len bytes ≡ 1536 }
{
    let mut media = MemMedia::new(alloc, bytes, 1536)?;
    let mut flash = SimFlash::new(alloc, &mut media, GEOMETRY, 6, 0)?;
    let mut store = Store::new(alloc, table(alloc)?, 128)?;
    let wrong = first_wrong(alloc, steps, &mut store, &mut flash);
    let _media = flash.into_media();
    Ok(wrong)
}

// .. on a blank flash
fn run_blank(alloc: Global, steps: &[(Step, Answer)]) -> Result<Option<usize>, ConfigRefusal> {
    run(alloc, blank(alloc, 1536)?, steps)
}

#[test]
fn blobs_are_placed_before_their_rows(rt: HostRuntime) {
    const STEPS: Talk = &[
        (Open(0, 0), Unread),
        (Mount, Found(0, 0, 0)),
        (
            Put(1, ROW, Some(201)),
            Refused(PutRefusal::Blob { limit: 200 }),
        ),
        (Put(1, ROW, Some(100)), Taken),
        // In the buffer.
        (Open(0, 0), Whole),
        (Put(2, ROW, Some(200)), Taken),
        (Put(3, ROW, Some(200)), Taken),
        // Six pages are full then, and the first block was given up.
        (Put(4, ROW, Some(200)), Taken),
        (Open(0, 0), Gone),
        // The bytes in the buffer are sealed before the page of the rows.
        (Flush, Flushed),
        (Mount, Found(4, 1, 0)),
        (Open(4, 52), Whole),
    ];
    same(&rt, &run_blank(rt.alloc(), STEPS), &Ok(None));
}

// A page of one row, whose blob is of 100 bytes from the first byte of a page on.
fn write_row(page: u32, into: &mut [u8])
    requires { length into.old ≡ 128 }
{
    put_u32(into, 0, 0);
    put_u16(into, 4, 1);
    put_u64(into, 16, 1);
    put_u32(into, 28, page);
    put_u16(into, 32, 0);
    put_u32(into, 34, 100);
    into[120..124].fill(0);
}

// A page of variable data with 100 bytes.
fn write_blob(number: u32, into: &mut [u8])
    requires { length into.old ≡ 128 }
{
    put_u32(into, 0, number);
    put_u16(into, 4, 100);
    into[120..124].fill(0);
}

// The first page of the data, and that of the variable data, where there is one.
fn image(alloc: Global, page: u32, number: Option<u32>) -> Result<Vec<u8>, NoMemory>
    ensures { IfOk result (λ v. vec_len v ≡ 1536) }
{
    let mut bytes = blank(alloc, 1536)?;
    write_row(page, &mut bytes[0..128]);
    if let Some(number) = number {
        write_blob(number, &mut bytes[768..896]);
    }
    Ok(bytes)
}

const BAD_BLOB: MountFault = MountFault::BadBlob { page: 3, next: 1 };

const NO_NUMBER: RingFault = RingFault::NoNumber { at_least: u32::MAX };

const KEPT: &[(u32, Option<u32>, Talk)] = &[
    // A void ring, whose numbers begin behind the blob that a row names, at the first of its six places.
    (
        9,
        None,
        &[
            (Mount, Found(1, 1, 0)),
            (Put(2, ROW, Some(100)), Taken),
            (Open(12, 0), Whole),
        ],
    ),
    // A row that names a page from the next one on.
    (
        3,
        Some(0),
        &[
            (Mount, Unmounted(BAD_BLOB)),
            (Put(2, ROW, Some(100)), Refused(PutRefusal::Stopped)),
            (Open(1, 0), Unread),
        ],
    ),
    // No number is left behind the blob.
    (
        u32::MAX,
        None,
        &[
            (Mount, Unmounted(MountFault::Ring(NO_NUMBER))),
            (Put(2, ROW, Some(100)), Refused(PutRefusal::Stopped)),
            (Open(0, 0), Unread),
        ],
    ),
];

// .. on the flash of such an image
fn run_image(
    alloc: Global,
    page: u32,
    number: Option<u32>,
    steps: Talk,
) -> Result<Option<usize>, ConfigRefusal> {
    run(alloc, image(alloc, page, number)?, steps)
}

#[test]
fn the_numbers_go_on_behind_the_kept_blobs(rt: HostRuntime) {
    for (page, number, steps) in KEPT {
        let wrong = run_image(rt.alloc(), *page, *number, steps);
        same_at(&rt, &wrong, &Ok(None), page);
    }
}
