// Cursors over a table that goes on: parked after each row, over pages that are given up, and over a read that fails.
ghost use Rattle.std.specs.Prelude.{◌≡◌, ◌≤◌, length, IfOk};
ghost use Rattle.fl_cursor.specs.Cursor.{IsReady};
ghost use Rattle.fl_cursor.specs.Going.{Keeps};
ghost use Rattle.fl_flash.specs.Flash.{FlashState};
ghost use Rattle.fl_frame.specs.Contents.{contents_of, OnlyReads};
ghost use Rattle.fl_table.specs.Memory.{LiesOn};

mod indexed;

use crate::Table;
use crate::asserts::same;
use crate::media::blank_medium;
use crate::stores::{flush, mount, put, runs};
use arrayvec::ArrayVec;
use fl_base::{Geometry, KeyRange, NoMemory, RingPlace, Span};
use fl_cursor::Bookmark;
use fl_flash::{Flash, PageBuf, SimFlash};
use fl_page::RowHere;
use fl_plan::{ConfigRefusal, TableConfig};
use fl_schema::{ColumnType, KeyWidth};
use std::alloc::Global;

// A cursor over such a table.
type Cursor<'table, 'rows, 'index> = fl_cursor::Cursor<'table, 'rows, 'index, 64, 64>;

const GEOMETRY: Geometry = Geometry { page: 64, block: 2 };

// Three rows a page, in a ring of three blocks.
fn table(alloc: Global) -> Result<Table, ConfigRefusal>
    ensures { IfOk result (λ t. (f : FlashState) → f.geometry ≡ record { page = 64; block = 2 } → f.blocks ≡ 3 → LiesOn t f) }
{
    let mut columns = ArrayVec::new();
    columns.push(ColumnType::I32);
    let config = TableConfig {
        geometry: GEOMETRY,
        key: KeyWidth::Eight,
        columns,
        rows: RingPlace {
            first_block: 0,
            blocks: 3,
        },
        index: None,
        var: None,
        buckets: None,
        error: 1,
        blob_limit: 0,
        full_index: false,
    };
    Table::plan(alloc, &config)
}

// A table and the room for its pages.
#[derive(Drop)]
struct Store {
    table: Table,
    rows: PageBuf,
    index: PageBuf,
    mark: Option<Bookmark>,
}

impl Store {
    // A store of this table, whose pages have 64 bytes.
    fn new(alloc: Global, table: Table) -> Result<Store, NoMemory>
        ensures lies { IfOk result (λ s. (f : FlashState) → LiesOn table f → LiesOn s.table f) }
        ensures rows { IfOk result (λ s. length s.rows.bytes ≡ 64) }
        ensures index { IfOk result (λ s. length s.index.bytes ≡ 64) }
    {
        let rows = PageBuf::new(alloc, 64)?;
        let index = PageBuf::new(alloc, 64)?;
        Ok(Store {
            table,
            rows,
            index,
            mark: None,
        })
    }
}

#[derive(Clone, Copy)]
enum Step {
    Mount,
    /// The value is the key's last digit.
    Put(u64),
    Flush,
    /// A cursor over these keys.
    Open(u64, u64),
    /// .. and over these values.
    Spans(i64, i64),
    Next,
}

#[derive(Clone, Copy, Debug, PartialEq)]
enum Answer {
    Done,
    Refused,
    Row(u64),
    End,
    Unread,
}

use Answer::{Done, End, Row};
use Step::{Flush, Mount, Next, Open, Put, Spans};

fn open(store: &mut Store, range: KeyRange, span: Option<Span>) -> Answer
    ensures table { store.new.table ≡ store.old.table }
    ensures rows { length store.new.rows.bytes ≡ length store.old.rows.bytes }
    ensures index { length store.new.index.bytes ≡ length store.old.index.bytes }
{
    if !runs(&store.table) {
        return Answer::Refused;
    }
    let cursor = Cursor::begin(&store.table, range, span, &mut store.rows, &mut store.index);
    store.mark = Some(cursor.park());
    Done
}

fn advance<F: Flash>(cursor: &mut Cursor<'_, '_, '_>, flash: &mut F) -> Answer
    requires { IsReady cursor.old (contents_of (F.state flash.old)) }
    ensures counts { OnlyReads (F.state flash.old) (F.state flash.new) }
    ensures keeps { Keeps cursor.old cursor.new }
    ensures ready { IsReady cursor.new (contents_of (F.state flash.new)) }
{
    match cursor.advance(flash) {
        Ok(true) => Row(cursor.row().key()),
        Ok(false) => End,
        Err(_) => Answer::Unread,
    }
}

// The cursor goes on from where it was parked.
fn next<F: Flash>(store: &mut Store, flash: &mut F) -> Answer
    requires lies { LiesOn store.old.table (F.state flash.old) }
    requires rows { length store.old.rows.bytes ≡ (F.state flash.old).geometry.page }
    requires index { length store.old.index.bytes ≡ (F.state flash.old).geometry.page }
    ensures geometry { (F.state flash.new).geometry ≡ (F.state flash.old).geometry }
    ensures lies { LiesOn store.new.table (F.state flash.new) }
    ensures rows { length store.new.rows.bytes ≡ length store.old.rows.bytes }
    ensures index { length store.new.index.bytes ≡ length store.old.index.bytes }
{
    let Some(mark) = store.mark else {
        return Answer::Refused;
    };
    if !runs(&store.table) {
        return Answer::Refused;
    }
    let mut cursor = Cursor::resume(&store.table, mark, &mut store.rows, &mut store.index);
    let answer = advance(&mut cursor, flash);
    store.mark = Some(cursor.park());
    answer
}

fn of_call(ok: bool) -> Answer {
    if ok { Done } else { Answer::Refused }
}

fn take<F: Flash>(step: Step, store: &mut Store, flash: &mut F) -> Answer
    requires lies { LiesOn store.old.table (F.state flash.old) }
    requires rows { length store.old.rows.bytes ≡ (F.state flash.old).geometry.page }
    requires index { length store.old.index.bytes ≡ (F.state flash.old).geometry.page }
    ensures geometry { (F.state flash.new).geometry ≡ (F.state flash.old).geometry }
    ensures lies { LiesOn store.new.table (F.state flash.new) }
    ensures rows { length store.new.rows.bytes ≡ length store.old.rows.bytes }
    ensures index { length store.new.index.bytes ≡ length store.old.index.bytes }
{
    match step {
        Mount => of_call(mount(&mut store.table, flash, &mut store.rows).is_ok()),
        Put(key) => {
            let value = (key % 10) as i64;
            of_call(put(&mut store.table, flash, key, &[value], None).is_ok())
        }
        Flush => of_call(flush(&mut store.table, flash).is_ok()),
        Open(low, high) => open(store, KeyRange { low, high }, None),
        Spans(low, high) => open(
            store,
            KeyRange {
                low: 0,
                high: u64::MAX,
            },
            Some(Span { low, high }),
        ),
        Next => next(store, flash),
    }
}

// The first steps that were answered as they are to be; an unread row is asked for again. The call of this number on the
// medium fails.
fn answered<F: Flash>(steps: &[(Step, Answer)], store: &mut Store, flash: &mut F) -> usize
    requires lies { LiesOn store.old.table (F.state flash.old) }
    requires rows { length store.old.rows.bytes ≡ (F.state flash.old).geometry.page }
    requires index { length store.old.index.bytes ≡ (F.state flash.old).geometry.page }
{
    for i in 0..steps.len() {
        let (step, want) = steps[i];
        let mut answer = take(step, store, flash);
        if answer == Answer::Unread {
            answer = take(step, store, flash);
        }
        if answer != want {
            return i;
        }
    }
    steps.len()
}

// The first steps that were answered as they are to be, on three blocks of two pages.
fn run(alloc: Global, failing: u64, steps: &[(Step, Answer)]) -> Result<usize, ConfigRefusal>
    requires { 1 ≤ failing }
{
    let mut media = blank_medium(alloc, 384)?;
    media.fail_call(failing);
    let mut flash = SimFlash::new(alloc, &mut media, GEOMETRY, 3, 0)?;
    let mut store = Store::new(alloc, table(alloc)?)?;
    let done = answered(steps, &mut store, &mut flash);
    let _media = flash.into_media();
    Ok(done)
}

const LATER: &[(Step, Answer)] = &[
    (Open(0, 9), Answer::Refused),
    (Mount, Done),
    (Next, Answer::Refused),
    (Put(10), Done),
    (Put(21), Done),
    (Put(32), Done),
    (Put(43), Done),
    (Open(15, 70), Done),
    (Next, Row(21)),
    (Put(54), Done),
    (Flush, Done),
    (Next, Row(32)),
    (Put(65), Done),
    (Flush, Done),
    (Put(76), Done),
    (Flush, Done),
    // The fifth page takes the block of the first two with it.
    (Put(87), Done),
    (Flush, Done),
    // The row 43 is gone, and the others came after the cursor.
    (Next, End),
    (Open(0, 100), Done),
    (Next, Row(65)),
    (Put(98), Done),
    (Next, Row(76)),
    (Flush, Done),
    (Next, Row(87)),
    (Next, End),
    (Next, End),
    (Spans(6, 8), Done),
    (Next, Row(76)),
    (Next, Row(87)),
    (Next, Row(98)),
    (Next, End),
    (Open(88, 97), Done),
    (Next, End),
];

#[test]
fn rows_that_come_later_and_rows_that_are_given_up(rt: HostRuntime) {
    same(&rt, &run(rt.alloc(), u64::MAX, LATER), &Ok(LATER.len()));
}

const FAILING: &[(Step, Answer)] = &[
    (Mount, Done),
    (Put(10), Done),
    (Put(21), Done),
    (Flush, Done),
    (Put(32), Done),
    (Flush, Done),
    (Put(43), Done),
    (Put(54), Done),
    (Flush, Done),
    (Put(65), Done),
    (Open(0, 100), Done),
    (Next, Row(10)),
    (Next, Row(21)),
    (Next, Row(32)),
    (Next, Row(43)),
    (Next, Row(54)),
    (Next, Row(65)),
    (Next, End),
];

// Whether all of these steps are answered as they are to be, whichever call on the medium fails behind the first ten, and the last call
// is one of these.
fn go_on(alloc: Global) -> Result<bool, ConfigRefusal> {
    let mut is_last_behind = false;
    for failing in 1..60 {
        let done = run(alloc, failing, FAILING)?;
        // Before the cursor is open the call may be one of the mount or of a flush.
        is_last_behind = done > 10;
        if is_last_behind && done != FAILING.len() {
            return Ok(false);
        }
    }
    Ok(is_last_behind)
}

// Whichever call on the medium fails while a cursor goes over three pages and a pending row, it goes on from its place.
#[test]
fn a_read_that_fails_keeps_the_place(rt: HostRuntime) {
    same(&rt, &go_on(rt.alloc()), &Ok(true));
}
