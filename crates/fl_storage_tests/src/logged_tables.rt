// Tables with a log and without one, whose power is lost.
ghost use Rattle.std.specs.Prelude.{◌≡◌, ◌≤◌, ◌+◌, length, IfSome, IfOk};
ghost use Rattle.fl_flash.specs.Flash.{FlashState, Stays};
ghost use Rattle.fl_rlc.specs.Table.{LiesOn};

use crate::answers::Answer::{Found, Refused, Taken, Unmounted};
use crate::answers::{Answer, of_mount, of_put};
use crate::asserts::same;
use crate::media::blank_medium;
use arrayvec::ArrayVec;
use fl_base::{CutKind, Geometry, RingPlace};
use fl_flash::{Flash, FlashFault, MemMedia, PageBuf, SimFlash};
use fl_plan::{ConfigRefusal, TableConfig};
use fl_schema::{ColumnType, KeyWidth};
use fl_table::{MountFault, PutRefusal};
use std::alloc::Global;

type LoggedTable = fl_rlc::LoggedTable<64, 64>;

const GEOMETRY: Geometry = Geometry {
    page: 128,
    block: 4,
};

// The three blocks behind those of the table.
const LOG: RingPlace = RingPlace {
    first_block: 3,
    blocks: 3,
};

// Eight rows a page, in a ring of three blocks, and a log in this place of six blocks.
fn table(alloc: Global, log: Option<RingPlace>) -> Result<LoggedTable, ConfigRefusal>
    requires { IfSome log (λ place. place.first_block + place.blocks ≤ 6) }
    ensures { IfOk result (λ t. (f : FlashState) → f.geometry ≡ record { page = 128; block = 4 } → f.blocks ≡ 6 → LiesOn t f) }
{
    let mut columns = ArrayVec::new();
    columns.push(ColumnType::I32);
    let config = TableConfig {
        geometry: GEOMETRY,
        key: KeyWidth::Eight,
        columns,
        rows: RingPlace {
            first_block: 0,
            blocks: 3,
        },
        index: None,
        var: None,
        buckets: None,
        error: 1,
        blob_limit: 0,
        full_index: false,
    };
    LoggedTable::plan(alloc, &config, log)
}

// Such a table, and the room for a page of it.
#[derive(Drop)]
struct Store {
    table: LoggedTable,
    buf: PageBuf,
}

impl Store {
    fn new(alloc: Global, log: Option<RingPlace>) -> Result<Store, ConfigRefusal>
        requires { IfSome log (λ place. place.first_block + place.blocks ≤ 6) }
        ensures lies { IfOk result (λ s. (f : FlashState) → f.geometry ≡ record { page = 128; block = 4 } → f.blocks ≡ 6 → LiesOn s.table f) }
        ensures room { IfOk result (λ s. length s.buf.bytes ≡ 128) }
    {
        let buf = PageBuf::new(alloc, 128)?;
        let table = table(alloc, log)?;
        Ok(Store { table, buf })
    }

    fn mount<F: Flash>(&mut self, flash: &mut F) -> Answer
        requires lies { LiesOn self.old.table (F.state flash.old) }
        requires room { length self.old.buf.bytes ≡ (F.state flash.old).geometry.page }
        ensures goes { Stays (F.state flash.old) (F.state flash.new) }
        ensures lies { LiesOn self.new.table (F.state flash.new) }
        ensures room { length self.new.buf.bytes ≡ length self.old.buf.bytes }
    {
        of_mount(self.table.mount(flash, &mut self.buf))
    }

    fn put<F: Flash>(&mut self, flash: &mut F, key: u64) -> Answer
        requires lies { LiesOn self.old.table (F.state flash.old) }
        ensures goes { Stays (F.state flash.old) (F.state flash.new) }
        ensures lies { LiesOn self.new.table (F.state flash.new) }
        ensures room { length self.new.buf.bytes ≡ length self.old.buf.bytes }
    {
        of_put(self.table.put(flash, key, &[0], None))
    }
}

#[derive(Clone, Copy)]
enum Step {
    Mount,
    Put(u64),
}

use Step::{Mount, Put};

// Steps, each with its answer.
type Talk = &'static [(Step, Answer)];

fn take<F: Flash>(step: Step, store: &mut Store, flash: &mut F) -> Answer
    requires lies { LiesOn store.old.table (F.state flash.old) }
    requires room { length store.old.buf.bytes ≡ (F.state flash.old).geometry.page }
    ensures goes { Stays (F.state flash.old) (F.state flash.new) }
    ensures lies { LiesOn store.new.table (F.state flash.new) }
    ensures room { length store.new.buf.bytes ≡ length store.old.buf.bytes }
{
    match step {
        Mount => store.mount(flash),
        Put(key) => store.put(flash, key),
    }
}

// The first step that isn't answered as it is to be.
fn first_wrong<F: Flash>(
    steps: &[(Step, Answer)],
    store: &mut Store,
    flash: &mut F,
) -> Option<usize>
    requires lies { LiesOn store.old.table (F.state flash.old) }
    requires room { length store.old.buf.bytes ≡ (F.state flash.old).geometry.page }
    ensures goes { Stays (F.state flash.old) (F.state flash.new) }
    ensures lies { LiesOn store.new.table (F.state flash.new) }
    ensures room { length store.new.buf.bytes ≡ length store.old.buf.bytes }
{
    for i in 0..steps.len() {
        let (step, want) = steps[i];
        if take(step, store, flash) != want {
            return Some(i);
        }
    }
    None
}

const POWER_LOST: Answer = Refused(PutRefusal::Flash(FlashFault::PowerLost));

// The first step on a blank flash that isn't answered as it is to be, and how many programs all took.
fn run(
    alloc: Global,
    log: Option<RingPlace>,
    steps: &[(Step, Answer)],
) -> Result<(Option<usize>, u64), ConfigRefusal>
    requires { IfSome log (λ place. place.first_block + place.blocks ≤ 6) }
{
    let mut media = blank_medium(alloc, 3072)?;
    let mut flash = SimFlash::new(alloc, &mut media, GEOMETRY, 6, 0)?;
    let mut store = Store::new(alloc, log)?;
    let wrong = first_wrong(steps, &mut store, &mut flash);
    let programs = flash.work().programs;
    let _media = flash.into_media();
    Ok((wrong, programs))
}

const PUTS: Talk = &[
    (Mount, Found(0, 0, 0)),
    (Put(1), Taken),
    (Put(2), Taken),
    (Put(3), Taken),
];

// The power is lost: what is in memory is given up.
const LOGGED: Talk = &[
    (Mount, Found(0, 0, 0)),
    (Put(1), Taken),
    (Put(2), Taken),
    (Put(3), Taken),
    (Mount, Found(3, 1, 0)),
];

const ALONE: Talk = &[
    (Mount, Found(0, 0, 0)),
    (Put(1), Taken),
    (Put(2), Taken),
    (Put(3), Taken),
    (Mount, Found(0, 0, 0)),
];

#[test]
fn accepted_records_survive_where_there_is_a_log(rt: HostRuntime) {
    // Each put ends with a page and its mark, and the mount seals the rows as one.
    same(&rt, &run(rt.alloc(), Some(LOG), PUTS), &Ok((None, 6)));
    same(&rt, &run(rt.alloc(), Some(LOG), LOGGED), &Ok((None, 8)));
}

#[test]
fn accepted_records_are_lost_where_there_is_none(rt: HostRuntime) {
    same(&rt, &run(rt.alloc(), None, PUTS), &Ok((None, 0)));
    same(&rt, &run(rt.alloc(), None, ALONE), &Ok((None, 0)));
}

// A step whose n-th program or erase is cut; the power comes on again behind it.
fn take_cut<'m>(
    n: u64,
    kind: CutKind,
    step: Step,
    store: &mut Store,
    flash: &mut SimFlash<'m, MemMedia>,
) -> Answer
    requires some { 1 ≤ n }
    requires lies { LiesOn store.old.table (⟦<SimFlash<'m, MemMedia> as Flash>⟧.state flash.old) }
    requires room { length store.old.buf.bytes ≡ (⟦<SimFlash<'m, MemMedia> as Flash>⟧.state flash.old).geometry.page }
    ensures goes { Stays (⟦<SimFlash<'m, MemMedia> as Flash>⟧.state flash.old) (⟦<SimFlash<'m, MemMedia> as Flash>⟧.state flash.new) }
    ensures lies { LiesOn store.new.table (⟦<SimFlash<'m, MemMedia> as Flash>⟧.state flash.new) }
    ensures room { length store.new.buf.bytes ≡ length store.old.buf.bytes }
{
    flash.arm(n, kind);
    let answer = take(step, store, flash);
    flash.power_on();
    answer
}

const BEFORE_THE_CUT: Talk = &[
    (Mount, Found(0, 0, 0)),
    (Put(1), Taken),
    (Put(2), Taken),
    (Put(3), Taken),
    (Mount, Found(3, 1, 0)),
    (Put(4), Taken),
];

// Three records are replayed, a fourth is put, and an operation of the fifth put is cut: whether the steps before the cut, the put
// and the steps after it are answered as they are to be.
fn cut_at(alloc: Global, n: u64, kind: CutKind, mounted: Answer) -> Result<[bool; 3], ConfigRefusal>
    requires { 1 ≤ n }
{
    let mut media = blank_medium(alloc, 3072)?;
    let mut flash = SimFlash::new(alloc, &mut media, GEOMETRY, 6, 0)?;
    let mut store = Store::new(alloc, Some(LOG))?;
    let after = [(Put(6), Refused(PutRefusal::Stopped)), (Mount, mounted)];
    let first = first_wrong(BEFORE_THE_CUT, &mut store, &mut flash);
    let cut = take_cut(n, kind, Put(5), &mut store, &mut flash);
    let second = first_wrong(&after, &mut store, &mut flash);
    let _media = flash.into_media();
    Ok([first.is_none(), cut == POWER_LOST, second.is_none()])
}

#[test]
fn a_cut_in_the_log_loses_at_most_the_last_record(rt: HostRuntime) {
    // The page of the fifth record wasn't programmed whole.
    let torn = cut_at(rt.alloc(), 1, CutKind::Half, Found(4, 2, 0));
    same(&rt, &torn, &Ok([true; 3]));
    // It was, and so was its mark.
    let whole = cut_at(rt.alloc(), 2, CutKind::After, Found(5, 2, 0));
    same(&rt, &whole, &Ok([true; 3]));
}

// Two mounts, the first program or erase of each of which is cut: whether both answer so.
fn cut_two_mounts<'m>(store: &mut Store, flash: &mut SimFlash<'m, MemMedia>) -> bool
    requires lies { LiesOn store.old.table (⟦<SimFlash<'m, MemMedia> as Flash>⟧.state flash.old) }
    requires room { length store.old.buf.bytes ≡ (⟦<SimFlash<'m, MemMedia> as Flash>⟧.state flash.old).geometry.page }
    ensures goes { Stays (⟦<SimFlash<'m, MemMedia> as Flash>⟧.state flash.old) (⟦<SimFlash<'m, MemMedia> as Flash>⟧.state flash.new) }
    ensures lies { LiesOn store.new.table (⟦<SimFlash<'m, MemMedia> as Flash>⟧.state flash.new) }
    ensures room { length store.new.buf.bytes ≡ length store.old.buf.bytes }
{
    let first = take_cut(1, CutKind::Half, Mount, store, flash);
    let second = take_cut(1, CutKind::Half, Mount, store, flash);
    [first, second] == [Unmounted(MountFault::Flash(FlashFault::PowerLost)); 2]
}

// Eight such mounts.
fn cut_eight_mounts<'m>(store: &mut Store, flash: &mut SimFlash<'m, MemMedia>) -> bool
    requires lies { LiesOn store.old.table (⟦<SimFlash<'m, MemMedia> as Flash>⟧.state flash.old) }
    requires room { length store.old.buf.bytes ≡ (⟦<SimFlash<'m, MemMedia> as Flash>⟧.state flash.old).geometry.page }
    ensures goes { Stays (⟦<SimFlash<'m, MemMedia> as Flash>⟧.state flash.old) (⟦<SimFlash<'m, MemMedia> as Flash>⟧.state flash.new) }
    ensures lies { LiesOn store.new.table (⟦<SimFlash<'m, MemMedia> as Flash>⟧.state flash.new) }
    ensures room { length store.new.buf.bytes ≡ length store.old.buf.bytes }
{
    let first = cut_two_mounts(store, flash);
    let second = cut_two_mounts(store, flash);
    let third = cut_two_mounts(store, flash);
    let fourth = cut_two_mounts(store, flash);
    [first, second, third, fourth] == [true; 4]
}

// A record is put, and the second page of the log is torn; eight mounts are cut, and then one isn't: whether the steps before the
// torn page, the put that tears it, the cut mounts and the last one are answered as they are to be.
fn cut_mounts(alloc: Global) -> Result<[bool; 4], ConfigRefusal> {
    const PUTS: Talk = &[(Mount, Found(0, 0, 0)), (Put(1), Taken)];
    // The first cut fell into the mark of the log's torn page, the others by turns into the seal of the record and the mark of
    // the page that this tore.
    const KEPT: Talk = &[(Mount, Found(1, 5, 4))];
    let mut media = blank_medium(alloc, 3072)?;
    let mut flash = SimFlash::new(alloc, &mut media, GEOMETRY, 6, 0)?;
    let mut store = Store::new(alloc, Some(LOG))?;
    let before = first_wrong(PUTS, &mut store, &mut flash);
    let torn = take_cut(1, CutKind::Half, Put(2), &mut store, &mut flash);
    let are_cut = cut_eight_mounts(&mut store, &mut flash);
    let after = first_wrong(KEPT, &mut store, &mut flash);
    let _media = flash.into_media();
    let is_torn = torn == POWER_LOST;
    Ok([before.is_none(), is_torn, are_cut, after.is_none()])
}

#[test]
fn a_record_of_the_log_survives_mounts_that_are_cut(rt: HostRuntime) {
    same(&rt, &cut_mounts(rt.alloc()), &Ok([true; 4]));
}

// Whether a mount is answered, and the power is lost for a put behind it, before which it goes off.
fn put_without_power(alloc: Global) -> Result<bool, ConfigRefusal> {
    let mut media = blank_medium(alloc, 3072)?;
    let mut flash = SimFlash::new(alloc, &mut media, GEOMETRY, 6, 0)?;
    let mut store = Store::new(alloc, Some(LOG))?;
    let mounted = store.mount(&mut flash);
    flash.power_off();
    let lost = store.put(&mut flash, 1);
    let _media = flash.into_media();
    Ok([mounted, lost] == [Found(0, 0, 0), POWER_LOST])
}

#[test]
fn with_the_power_off_no_record_is_accepted(rt: HostRuntime) {
    same(&rt, &put_without_power(rt.alloc()), &Ok(true));
}
