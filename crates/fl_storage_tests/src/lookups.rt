// Lookups in pages that are made by hand.
ghost use Rattle.std.specs.Prelude.{◌≡◌, ◌≤◌, ◌<◌, length, vec_len, IfOk};

use crate::asserts::same_at;
use fl_base::{Geometry, NoMemory, RingPlace, Steps, put_u16, put_u32, put_u64};
use fl_find::{KeyIndex, PageRow};
use fl_flash::{Flash, MemMedia, PageBuf, SimFlash};
use fl_page::{BadPage, ReadFault};
use fl_ring::Ring;
use fl_schema::{ColumnType, KeyWidth, Schema};
use std::alloc::Global;

const C1: [ColumnType; 1] = [ColumnType::I32];

const GEOMETRY: Geometry = Geometry { page: 64, block: 4 };

const PLACE: RingPlace = RingPlace {
    first_block: 0,
    blocks: 3,
};

fn schema() -> Option<Schema<8>> {
    Schema::<8>::new(KeyWidth::Eight, &C1, false, 40).ok()
}

// Page n has the keys 30n + 10, 30n + 20 and 30n + 30.
fn write_page(n: u32, number: u32, into: &mut [u8])
    requires size { length into.old ≡ 64 }
    requires few { n < 100 }
{
    put_u32(into, 0, number);
    put_u16(into, 4, 3);
    into[6..16].fill(0);
    for row in 0..3 {
        let at = 16 + 12 * row;
        put_u64(into, at, u64::from(n) * 30 + 10 + 10 * row as u64);
        into[at + 8..at + 12].fill(0);
    }
    into[56..60].fill(0);
}

// Three blocks of four pages, of which the first nine are sealed. Page 5 is void, and page 7 has the number given.
fn image(alloc: Global, seventh: u32) -> Result<Vec<u8>, NoMemory>
    ensures { IfOk result (λ v. vec_len v ≡ 768) }
{
    let mut bytes = vec![in alloc; 255; 768]?;
    for n in 0..9 {
        let number = if n == 7 { seventh } else { n as u32 };
        write_page(n as u32, number, &mut bytes[64 * n..64 * n + 64]);
    }
    bytes[320..384].fill(0);
    bytes[376..380].fill(255);
    Ok(bytes)
}

// The index of these pages. Their points are on one line, so the first and the last of them are the knots.
fn index() -> KeyIndex<2, 4> {
    let mut index = KeyIndex::new(1);
    index.add(10, 0);
    index.add(40, 1);
    index.add(250, 8);
    index
}

// What is found, and by how many reads.
type Found = (Result<Option<PageRow>, ReadFault>, u64);

fn find(
    alloc: Global,
    index: &KeyIndex<2, 4>,
    seventh: u32,
    key: u64,
) -> Result<Option<Found>, NoMemory> {
    let Some(schema) = schema() else {
        return Ok(None);
    };
    let mut media = MemMedia::new(alloc, image(alloc, seventh)?, 768)?;
    let mut buf = PageBuf::new(alloc, 64)?;
    let mut flash = SimFlash::new(alloc, &mut media, GEOMETRY, 3, 0)?;
    let mut found = None;
    if let Ok(ring) = Ring::mount(&mut flash, PLACE, 0, &mut buf) {
        let before = flash.work().reads;
        let mut steps = Steps::new();
        let row = index.find(&ring, &schema, &mut flash, &mut buf, key, &mut steps);
        found = Some((row, flash.work().reads.saturating_sub(before)));
    }
    let _media = flash.into_media();
    Ok(found)
}

// A row of a page, where one is found.
type Place = Option<(u32, usize)>;

fn at(place: Place) -> Result<Option<PageRow>, ReadFault> {
    Ok(place.map(|(number, row)| PageRow { number, row }))
}

// Keys, where their rows are found, and by how many reads.
const COVERED: &[(u64, Place, u64)] = &[
    (10, Some((0, 0)), 2),
    (60, Some((1, 2)), 2),
    (45, None, 2),
    (150, Some((4, 2)), 2),
    (165, None, 3),
    (270, Some((8, 2)), 1),
    (9999, None, 1),
];

// What is found by the points of the index, and how many reads that may take.
fn find_covered(alloc: Global, key: u64) -> Result<(Option<Found>, u64), NoMemory> {
    let index = index();
    let found = find(alloc, &index, 7, key)?;
    Ok((found, index.lookup_limit(key, 9, 1)))
}

// Two pages are read, the one before which the estimate may stand and the key's, and one for each void page between.
// From the last point on the newest page is the only one.
#[test]
fn covered_keys(rt: HostRuntime) {
    for (key, place, reads) in COVERED {
        let wanted = (Some((at(*place), *reads)), 5);
        same_at(&rt, &find_covered(rt.alloc(), *key), &Ok(wanted), key);
    }
}

// Whether this is found by one read at least, and six at most.
fn is_found(found: Option<Found>, want: Result<Option<PageRow>, ReadFault>) -> bool {
    match found {
        Some((row, reads)) => row == want && 1 <= reads && reads <= 6,
        None => false,
    }
}

// Whether it is found so without points, where that may take as many.
fn is_found_by_halves(alloc: Global, key: u64, place: Place) -> Result<bool, NoMemory> {
    let index: KeyIndex<2, 4> = KeyIndex::new(1);
    let found = find(alloc, &index, 7, key)?;
    Ok(index.lookup_limit(key, 9, 1) == 6 && is_found(found, at(place)))
}

const OTHERS: &[(u64, Place)] = &[
    (5, None),
    (10, Some((0, 0))),
    (60, Some((1, 2))),
    (165, None),
    (270, Some((8, 2))),
];

// By halves of nine pages, of which one is void: at most four reads, one more for it, and one for the page again.
#[test]
fn other_keys(rt: HostRuntime) {
    for (key, place) in OTHERS {
        same_at(
            &rt,
            &is_found_by_halves(rt.alloc(), *key, *place),
            &Ok(true),
            key,
        );
    }
}

const BAD: BadPage = BadPage {
    wanted: 7,
    found: 8,
    count: 3,
};

// What is found where page 7 has the number 8.
fn find_in_bad(alloc: Global, key: u64) -> Result<Option<Found>, NoMemory> {
    find(alloc, &index(), 8, key)
}

// It is read for key 230, and for no key of the pages below it.
#[test]
fn bad_page(rt: HostRuntime) {
    let unread = Err(ReadFault::BadPage(BAD));
    same_at(
        &rt,
        &find_in_bad(rt.alloc(), 230),
        &Ok(Some((unread, 2))),
        &230,
    );
    let row = at(Some((1, 2)));
    same_at(&rt, &find_in_bad(rt.alloc(), 60), &Ok(Some((row, 2))), &60);
}
