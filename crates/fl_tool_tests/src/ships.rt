// Ships between images in memory: what is put into the copy, and how they end.
ghost use Rattle.std.specs.Prelude.{◌≤◌};

use crate::asserts::{same, same_at};
use crate::checks::{Piece, SEAL, medium};
use crate::exports::export;
use crate::imports::{has_records, import, records};
use fl_base::{MemSink, Name, NoMemory};
use fl_flash::MemMedia;
use fl_image::ToolStatus;
use fl_ship::{ShipStatus, Side, ship_image};
use std::alloc::Global;

// Pages of 128 bytes, four a block, and a ring of three blocks, whose pages hold eight rows each.
const PLAIN: &str = "device 128 4\ntable t 8 i32 3 0 0 8 0 10 1 0\n";

const PLAIN_BYTES: u16 = 1536;

// Two such tables, one behind the other.
const TWO: &str = "device 128 4\ntable t 8 i32 3 0 0 8 0 10 1 0\ntable s 8 i32 3 0 0 8 0 10 1 0\n";

const TWO_BYTES: u16 = 3072;

const LOGGED: &str = "device 64 2\ntable t 8 i32 3 0 0 8 0 10 1 0 rlc 3\n";

const WITH_BLOBS: &str = "device 64 2\ntable t 8 i32 3 0 3 8 0 10 1 30\n";

const BESIDE_BYTES: u16 = 768;

// A data page with one row: the value 0 with a key below 256.
pub(crate) fn row_page(number: [u8; 4], key: u8) -> [u8; 28] {
    [
        number[0], number[1], number[2], number[3], 1, 0, 0, 0, 1, 0, 0, 0, 0, 0, 0, 0, key, 0, 0,
        0, 0, 0, 0, 0, 0, 0, 0, 0,
    ]
}

// Ships at most so many records of table t, and tells how that ended.
pub(crate) fn ship(
    alloc: Global,
    count: u64,
    media: &mut MemMedia,
    copy: &mut MemMedia,
) -> Result<ShipStatus, NoMemory> {
    let (status, _is_told) = ship_told(alloc, b"t", count, media, copy, 100, "")?;
    Ok(status)
}

// .. of the table with a name, into a sink with so much room, and tells whether this is told too.
fn ship_told(
    alloc: Global,
    name: &[u8],
    count: u64,
    media: &mut MemMedia,
    copy: &mut MemMedia,
    room: usize,
    told: &str,
) -> Result<(ShipStatus, bool), NoMemory> {
    let Some(name) = Name::of(name) else {
        return Err(NoMemory);
    };
    let mut out = MemSink::new(alloc, room, Vec::new(alloc))?;
    let status = ship_image(alloc, name, count, media, copy, &mut out);
    Ok((status, out.bytes() == told.as_bytes()))
}

// How a ship of table t that tells nothing ends, and whether it does.
fn ship_silent(
    alloc: Global,
    media: &mut MemMedia,
    copy: &mut MemMedia,
) -> Result<(ShipStatus, bool), NoMemory> {
    ship_told(alloc, b"t", 100, media, copy, 100, "")
}

// A medium without bytes, which has room for an image of these lines.
fn empty(alloc: Global, pages: u16) -> Result<MemMedia, NoMemory> {
    MemMedia::new(alloc, Vec::new(alloc), 1024 + pages as usize)
}

// An image of the plain lines whose table t has the records of this text.
fn source(alloc: Global, text: &[u8]) -> Result<MemMedia, NoMemory> {
    let mut media = medium(alloc, PLAIN, PLAIN_BYTES, &[])?;
    let _end = import(alloc, &mut media, b"t", text, 200)?;
    Ok(media)
}

const FIVE: &[u8] = b"key,c1\n1,-25\n2,-5\n3,0\n5,7\n9,11\n";

// Whether table t of both has the same records.
fn have_the_same(
    alloc: Global,
    media: &mut MemMedia,
    copy: &mut MemMedia,
) -> Result<bool, NoMemory> {
    let all = records(alloc, media)?;
    has_records(alloc, copy, all.bytes())
}

// How many records are asked for and are shipped, what is told, and what the copy has then.
const TURNS: &[(u64, u64, &str, &str)] = &[
    (2, 2, "shipped 2\n", "key,c1\n1,-25\n2,-5\n"),
    (1, 1, "shipped 1\n", "key,c1\n1,-25\n2,-5\n3,0\n"),
    (
        1_000_000,
        2,
        "shipped 2\n",
        "key,c1\n1,-25\n2,-5\n3,0\n5,7\n9,11\n",
    ),
    (1, 0, "shipped 0\n", "key,c1\n1,-25\n2,-5\n3,0\n5,7\n9,11\n"),
];

// Whether a ship of so many records of table t ships and tells so, and the copy has these records then.
fn ships(
    alloc: Global,
    turn: (u64, u64, &str, &str),
    media: &mut MemMedia,
    copy: &mut MemMedia,
) -> Result<bool, NoMemory> {
    let (count, shipped, told, kept) = turn;
    let end = ship_told(alloc, b"t", count, media, copy, 100, told)?;
    let has_these = has_records(alloc, copy, kept.as_bytes())?;
    Ok(end == (ShipStatus::Done { shipped }, true) && has_these)
}

// The first of these ships that doesn't.
fn first_misshipped(
    alloc: Global,
    media: &mut MemMedia,
    copy: &mut MemMedia,
) -> Result<Option<usize>, NoMemory> {
    for i in 0..TURNS.len() {
        if !ships(alloc, TURNS[i], media, copy)? {
            return Ok(Some(i));
        }
    }
    Ok(None)
}

// .. and how a ship ends where more was written then, and whether both have the same records.
fn ship_in_turn(alloc: Global) -> Result<(Option<usize>, ShipStatus, bool), NoMemory> {
    let mut media = source(alloc, FIVE)?;
    let mut copy = empty(alloc, PLAIN_BYTES)?;
    let wrong = first_misshipped(alloc, &mut media, &mut copy)?;
    let _end = import(alloc, &mut media, b"t", b"key,c1\n20,1\n", 100)?;
    let status = ship(alloc, 5, &mut media, &mut copy)?;
    let are_same = have_the_same(alloc, &mut media, &mut copy)?;
    Ok((wrong, status, are_same))
}

#[test]
fn records_are_shipped_in_turn(rt: HostRuntime) {
    let more = ShipStatus::Done { shipped: 1 };
    same(&rt, &ship_in_turn(rt.alloc()), &Ok((None, more, true)));
}

// How two ships of an empty source end, between which the copy, which was made, gets records that no source has; and whether it has
// them then.
fn ship_nothing(alloc: Global) -> Result<([ShipStatus; 2], bool), NoMemory> {
    let mut media = source(alloc, b"key,c1\n")?;
    let mut copy = empty(alloc, PLAIN_BYTES)?;
    let first = ship(alloc, 5, &mut media, &mut copy)?;
    let _end = import(alloc, &mut copy, b"t", FIVE, 100)?;
    let second = ship(alloc, 5, &mut media, &mut copy)?;
    Ok(([first, second], has_records(alloc, &mut copy, FIVE)?))
}

#[test]
fn an_empty_source_ships_nothing(rt: HostRuntime) {
    let none = ShipStatus::Done { shipped: 0 };
    same(&rt, &ship_nothing(rt.alloc()), &Ok(([none; 2], true)));
}

// Whether a ship after one that failed does what it has to: it brings what is left, and refuses a copy that is half made.
fn goes_on(alloc: Global, media: &mut MemMedia, copy: &mut MemMedia) -> Result<bool, NoMemory> {
    let status = ship(alloc, 100, media, copy)?;
    if copy.bytes().len() < media.bytes().len() {
        return Ok(status == ShipStatus::NotImage { side: Side::Copy });
    }
    Ok(status.number() == 0 && has_records(alloc, copy, FIVE)?)
}

// How a ship ends where this call of one side's medium fails, whether it tells nothing, and whether the next one goes on.
fn ship_failing(alloc: Global, side: Side, call: u64) -> Result<(ShipStatus, bool, bool), NoMemory>
    requires { 1 ≤ call }
{
    let mut media = source(alloc, FIVE)?;
    let mut copy = empty(alloc, PLAIN_BYTES)?;
    match side {
        Side::Source => media.fail_call(call),
        Side::Copy => copy.fail_call(call),
    }
    let (status, is_silent) = ship_silent(alloc, &mut media, &mut copy)?;
    Ok((status, is_silent, goes_on(alloc, &mut media, &mut copy)?))
}

// Whether each call of one side's medium that fails is told, up to those that a ship doesn't make.
fn are_faults_told(alloc: Global, side: Side) -> Result<bool, NoMemory> {
    for call in 1..100 {
        let end = ship_failing(alloc, side, call)?;
        if end.0.number() == 0 {
            return Ok(true);
        }
        if end != (ShipStatus::Device { side }, true, true) {
            return Ok(false);
        }
    }
    Ok(false)
}

#[test]
fn a_medium_that_fails_is_told(rt: HostRuntime) {
    // Each call of a medium fails in turn; of the copy's these are its making, its mount, and the pages of the rows.
    same(&rt, &are_faults_told(rt.alloc(), Side::Source), &Ok(true));
    same(&rt, &are_faults_told(rt.alloc(), Side::Copy), &Ok(true));
}

// How a ship ends onto a copy where behind the page of key 1 one is void, and one is begun, and whether the copy has the records of
// both then.
fn ship_behind_void(alloc: Global) -> Result<(ShipStatus, bool), NoMemory> {
    let first = row_page([0; 4], 1);
    let pieces: [Piece<'_>; 4] = [(0, &first), (120, &SEAL), (252, &SEAL), (256, &[2])];
    let mut copy = medium(alloc, PLAIN, PLAIN_BYTES, &pieces)?;
    let mut media = source(alloc, FIVE)?;
    let status = ship(alloc, 3, &mut media, &mut copy)?;
    let all = b"key,c1\n1,0\n2,-5\n3,0\n5,7\n";
    Ok((status, has_records(alloc, &mut copy, all)?))
}

#[test]
fn void_pages_hide_no_record(rt: HostRuntime) {
    let three = ShipStatus::Done { shipped: 3 };
    same(&rt, &ship_behind_void(rt.alloc()), &Ok((three, true)));
}

// A ship of a source with keys 6, 7 and 9 onto a copy whose last key is this one: how it ends, whether it tells nothing, and whether
// the copy stays as it was.
fn ship_behind(alloc: Global, key: u8) -> Result<(ShipStatus, bool, bool), NoMemory> {
    let mut media = source(alloc, b"key,c1\n6,0\n7,0\n9,0\n")?;
    let page = row_page([0; 4], key);
    let mut copy = medium(alloc, PLAIN, PLAIN_BYTES, &[(0, &page), (120, &SEAL)])?;
    let before = copy.bytes().to_vec(alloc)?;
    let (status, is_silent) = ship_silent(alloc, &mut media, &mut copy)?;
    Ok((status, is_silent, copy.bytes() == before.as_slice()))
}

// The number of the status of such a ship.
fn number_behind(alloc: Global, key: u8) -> Result<u32, NoMemory> {
    Ok(ship_behind(alloc, key)?.0.number().into())
}

#[test]
fn a_gap_is_told(rt: HostRuntime) {
    // The last key of the copy: one from below those of the source, between them and above them.
    for last in [5, 8, 10u8] {
        let status = ShipStatus::Gap {
            last: u64::from(last),
            oldest: 6,
        };
        let end = ship_behind(rt.alloc(), last);
        same_at(&rt, &end, &Ok((status, true, true)), &last);
        same_at(&rt, &number_behind(rt.alloc(), last), &Ok(17), &last);
    }
}

#[test]
fn a_key_of_the_source_is_no_gap(rt: HostRuntime) {
    for last in [6, 7, 9] {
        same_at(&rt, &number_behind(rt.alloc(), last), &Ok(0), &last);
    }
}

// How three ships of one record each end, and whether the copy has these records then.
fn ship_one_by_one(alloc: Global, text: &[u8]) -> Result<([ShipStatus; 3], bool), NoMemory> {
    let mut media = source(alloc, text)?;
    let mut copy = empty(alloc, PLAIN_BYTES)?;
    let first = ship(alloc, 1, &mut media, &mut copy)?;
    let second = ship(alloc, 1, &mut media, &mut copy)?;
    let third = ship(alloc, 1, &mut media, &mut copy)?;
    let has_all = has_records(alloc, &mut copy, text)?;
    Ok(([first, second, third], has_all))
}

#[test]
fn the_greatest_key_is_the_last(rt: HostRuntime) {
    let text = b"key,c1\n18446744073709551614,1\n18446744073709551615,2\n";
    let one = ShipStatus::Done { shipped: 1 };
    let none = ShipStatus::Done { shipped: 0 };
    same(
        &rt,
        &ship_one_by_one(rt.alloc(), text),
        &Ok(([one, one, none], true)),
    );
}

// How a ship of an empty table of these lines ends, whether it tells nothing, and how many bytes the copy has then.
fn ship_form(alloc: Global, lines: &str) -> Result<(ShipStatus, bool, usize), NoMemory> {
    let mut media = medium(alloc, lines, BESIDE_BYTES, &[])?;
    let mut copy = empty(alloc, BESIDE_BYTES)?;
    let (status, is_silent) = ship_silent(alloc, &mut media, &mut copy)?;
    Ok((status, is_silent, copy.bytes().len()))
}

#[test]
fn other_forms_are_refused(rt: HostRuntime) {
    // No copy is made.
    let refused = Ok((ShipStatus::OtherForm, true, 0));
    same(&rt, &ship_form(rt.alloc(), LOGGED), &refused);
    same(&rt, &ship_form(rt.alloc(), WITH_BLOBS), &refused);
    same(&rt, &ShipStatus::OtherForm.number(), &18);
}

// Whether a ship onto such a copy ends so, tells nothing and leaves the copy as it was.
fn is_refused(alloc: Global, mut copy: MemMedia, status: ShipStatus) -> Result<bool, NoMemory> {
    let mut media = source(alloc, FIVE)?;
    let before = copy.bytes().to_vec(alloc)?;
    let (found, is_silent) = ship_silent(alloc, &mut media, &mut copy)?;
    Ok(found == status && is_silent && copy.bytes() == before.as_slice())
}

// Whether a ship onto an image of these lines with so many bytes in its pages is refused.
fn is_image_refused(alloc: Global, lines: &str, pages: u16) -> Result<bool, NoMemory> {
    let status = ShipStatus::NotImage { side: Side::Copy };
    is_refused(alloc, medium(alloc, lines, pages, &[])?, status)
}

// .. onto one byte
fn is_byte_refused(alloc: Global) -> Result<bool, NoMemory> {
    let status = ShipStatus::NotImage { side: Side::Copy };
    let copy = MemMedia::new(alloc, b" ".to_vec(alloc)?, 4000)?;
    is_refused(alloc, copy, status)
}

// Images of another configuration and length, of another one of this length, and one that ends early.
const OTHERS: &[(&str, u16)] = &[
    (TWO, TWO_BYTES),
    (
        "device 128 4\ntable t 8 i32 3 0 0 8 1 10 1 0\n",
        PLAIN_BYTES,
    ),
    (PLAIN, 1535),
];

#[test]
fn another_copy_is_refused(rt: HostRuntime) {
    for (lines, pages) in OTHERS {
        let refused = is_image_refused(rt.alloc(), lines, *pages);
        same_at(&rt, &refused, &Ok(true), lines);
    }
    same(&rt, &is_byte_refused(rt.alloc()), &Ok(true));
}

const ONE: &str = "key,c1\n4,4\n";

// An image of two tables with records.
fn two_tables(alloc: Global) -> Result<MemMedia, NoMemory> {
    let mut media = medium(alloc, TWO, TWO_BYTES, &[])?;
    let _end = import(alloc, &mut media, b"t", FIVE, 100)?;
    let _end = import(alloc, &mut media, b"s", ONE.as_bytes(), 100)?;
    Ok(media)
}

// Whether table s of a copy has its record.
fn has_one(alloc: Global, copy: &mut MemMedia) -> Result<bool, NoMemory> {
    let end = export(alloc, copy, b"s", (0, 9), 100, ONE)?;
    Ok(end == (ToolStatus::Done, true))
}

// How a ship of table s ends and whether it tells so, and how one of table t ends; and whether the copy has the record of table s after
// each, and none of table t between them.
type OfTwo = ((ShipStatus, bool), ShipStatus, [bool; 3]);

fn ship_two_tables(alloc: Global) -> Result<OfTwo, NoMemory> {
    let mut media = two_tables(alloc)?;
    let mut copy = empty(alloc, TWO_BYTES)?;
    let first = ship_told(alloc, b"s", 5, &mut media, &mut copy, 100, "shipped 1\n")?;
    let has_first = has_one(alloc, &mut copy)?;
    let is_empty = has_records(alloc, &mut copy, b"key,c1\n")?;
    let second = ship(alloc, 4, &mut media, &mut copy)?;
    let still_has_first = has_one(alloc, &mut copy)?;
    Ok((first, second, [has_first, is_empty, still_has_first]))
}

#[test]
fn one_of_two_tables_is_shipped(rt: HostRuntime) {
    let first = (ShipStatus::Done { shipped: 1 }, true);
    // The other one may follow.
    let second = ShipStatus::Done { shipped: 4 };
    same(
        &rt,
        &ship_two_tables(rt.alloc()),
        &Ok((first, second, [true; 3])),
    );
}

// How a ship ends whose sink has no room for what it tells, whether that isn't told, and whether the copy has the records.
fn ship_untold(alloc: Global) -> Result<(ShipStatus, bool, bool), NoMemory> {
    let mut media = source(alloc, FIVE)?;
    let mut copy = empty(alloc, PLAIN_BYTES)?;
    let (status, is_silent) = ship_told(alloc, b"t", 100, &mut media, &mut copy, 9, "")?;
    Ok((status, is_silent, has_records(alloc, &mut copy, FIVE)?))
}

#[test]
fn a_sink_that_fails_is_told(rt: HostRuntime) {
    // They are in the copy all the same.
    same(
        &rt,
        &ship_untold(rt.alloc()),
        &Ok((ShipStatus::OutWrite, true, true)),
    );
}

// A copy the last block of whose ring is full, and whose last page has the number before 2^32 - 65,536.
fn spent(alloc: Global) -> Result<MemMedia, NoMemory> {
    let pages = [
        row_page([0xfc, 0xff, 0xfe, 0xff], 1),
        row_page([0xfd, 0xff, 0xfe, 0xff], 2),
        row_page([0xfe, 0xff, 0xfe, 0xff], 3),
        row_page([0xff, 0xff, 0xfe, 0xff], 5),
    ];
    let pieces: [Piece<'_>; 8] = [
        (1024, &pages[0]),
        (1144, &SEAL),
        (1152, &pages[1]),
        (1272, &SEAL),
        (1280, &pages[2]),
        (1400, &SEAL),
        (1408, &pages[3]),
        (1528, &SEAL),
    ];
    medium(alloc, PLAIN, PLAIN_BYTES, &pieces)
}

fn is_spent_refused(alloc: Global) -> Result<bool, NoMemory> {
    is_refused(alloc, spent(alloc)?, ShipStatus::Spent)
}

#[test]
fn no_number_is_left(rt: HostRuntime) {
    same(&rt, &is_spent_refused(rt.alloc()), &Ok(true));
    same(&rt, &ShipStatus::Spent.number(), &19);
}

// How ships end, from and onto an image of two tables where number 5 doesn't stand at the place of this byte, and whether they tell
// nothing.
fn ship_bad(alloc: Global, at: u16, mark: u16) -> Result<[(ShipStatus, bool); 2], NoMemory> {
    let page = row_page([5, 0, 0, 0], 1);
    let mut good = medium(alloc, TWO, TWO_BYTES, &[])?;
    let mut bad = medium(alloc, TWO, TWO_BYTES, &[(at, &page), (mark, &SEAL)])?;
    let from = ship_silent(alloc, &mut bad, &mut good)?;
    let onto = ship_silent(alloc, &mut good, &mut bad)?;
    Ok([from, onto])
}

// What both tell.
fn both_bad(table: u8) -> [(ShipStatus, bool); 2] {
    let table = table.into();
    [
        (
            ShipStatus::BadImage {
                side: Side::Source,
                table,
            },
            true,
        ),
        (
            ShipStatus::BadImage {
                side: Side::Copy,
                table,
            },
            true,
        ),
    ]
}

#[test]
fn a_bad_image_is_told(rt: HostRuntime) {
    // In the first table, and in the second.
    same(&rt, &ship_bad(rt.alloc(), 0, 120), &Ok(both_bad(0)));
    same(&rt, &ship_bad(rt.alloc(), 1536, 1656), &Ok(both_bad(1)));
}

// How ships end from an image that ends early, and of a table that there isn't, and how many bytes the copy has then.
fn ship_no_source(alloc: Global) -> Result<([ShipStatus; 2], usize), NoMemory> {
    let mut copy = empty(alloc, PLAIN_BYTES)?;
    let mut short = medium(alloc, PLAIN, 1535, &[])?;
    let early = ship(alloc, 5, &mut short, &mut copy)?;
    let mut media = source(alloc, FIVE)?;
    let (none, _is_told) = ship_told(alloc, b"s", 5, &mut media, &mut copy, 100, "")?;
    Ok(([early, none], copy.bytes().len()))
}

#[test]
fn what_is_no_source_is_told(rt: HostRuntime) {
    let early = ShipStatus::NotImage { side: Side::Source };
    let ends = [early, ShipStatus::NoTable];
    same(&rt, &ship_no_source(rt.alloc()), &Ok((ends, 0)));
}
