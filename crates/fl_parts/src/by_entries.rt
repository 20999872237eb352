// The part of a mount that full index entries make short: the kept index pages are read, each once, and of the data pages that
// they tell none but the newest with rows.
ghost use Rattle.std.specs.Option.{is_none};
ghost use Rattle.std.specs.Prelude.{◌≡◌, ◌+◌, ◌-◌, ◌^◌, ◌<◌, ◌≤◌, ℕ, suc, true, Some, None, max, min, length, option_map, if◌then◌else◌, IsTrue, IfSome, IfOk, IfErr, OnOk};
ghost use Rattle.fl_find.specs.Index.{error_in};
ghost use Rattle.fl_index.specs.Memory as memory;
ghost use Rattle.fl_index.specs.Memory.{IsSamePlan, LiesOn as IndexLies};
ghost use Rattle.fl_model.specs.Record.{RowLayout};
ghost use Rattle.fl_model.specs.Table as model;
ghost use Rattle.fl_model.specs.Table.{first_of};
ghost use Rattle.fl_frame.specs.Reads.{OnlyReads};
ghost use Rattle.fl_ring.specs.Place.{next_of, oldest_of};
ghost use Rattle.fl_ring.specs.Ring.{room};
ghost use Rattle.fl_schema.specs.Schema.{layout_of};
ghost use Rattle.fl_parts.specs.Bitmaps.{AreIdle, AreRunning, LieOn};
ghost use Rattle.fl_parts.specs.ByEntries.{Come, entry, unlisted_of, mount_fault};
ghost use Rattle.fl_parts.specs.Faults.{IfPage, is_refused};
ghost use Rattle.fl_parts.specs.KeptRead.{LeavesKept};
ghost use Rattle.fl_parts.specs.KeptSteps.{AreFew, AreNextPages, FailsReading, HasCome, HasComeBy, IsNextIndexPage, IsNextPage, IsRefusedFirst, Keeps, KeepsKnown, KnowsListed, KnowsTaken, LeavesIndex, LeavesRing, LoadsFull, LoadsPages, MayRead, TakesPage};
ghost use Rattle.fl_parts.specs.Coming.{AreRowsOf, ComesTo, IsComeTo, index_pages_of, loaded_full};
ghost use Rattle.fl_parts.specs.declared.mount_fault.MountFault.{MountFault};
ghost use Rattle.fl_parts.specs.Knowing.{KnowsWith, IsWithin};
ghost use Rattle.fl_index.specs.Finding as finding;
ghost use Rattle.fl_index.specs.Loading.{HoldsEntriesOf};
ghost use Rattle.fl_flash.specs.Flash.{FlashState};
ghost use Rattle.fl_index.specs.declared.index.BitmapIndex.{BitmapIndex};
ghost use Rattle.fl_index.specs.Page.{full_view};

use crate::MountFault;
use crate::known::{Known, blame, see_entry, settle};
use crate::load::read_page;
use fl_find::KeyIndex;
use fl_flash::{Flash, PageBuf};
use fl_index::{BitmapIndex, Full, Loaded};
use fl_page::BadPage;
use fl_ring::Ring;
use fl_schema::Schema;

/// What the entry of a data page tells beside its bitmap, where the index page that was loaded last lists it.
fn listed(bitmaps: &BitmapIndex, number: u32) -> Option<Full>
    ensures { result ≡ loaded_full bitmaps.now number }
{
    match bitmaps.waiting_entry(number) {
        Some(found) => found.full,
        None => None,
    }
}

/// The first entry of a kept data page that tells more rows than a page holds, among those of the index page that was loaded
/// last, which lists data pages from one number to another.
fn bad_entry(bitmaps: &BitmapIndex, from: u32, to: u32, limit: u32) -> Option<MountFault>
    ensures none { result ≡ None → (number : ℕ) → from ≤ number → number < to → IfSome (loaded_full bitmaps.now number) (λ full. full.count ≤ limit) }
    ensures first { IfSome result (λ e. (number : ℕ) × (count : ℕ) × (from ≤ number) × (number < to) × (limit < count) × (e ≡ MountFault.BadEntry number count limit)
        × IfSome (loaded_full bitmaps.now number) (λ full. full.count ≡ count) × ((before : ℕ) → from ≤ before → before < number → IfSome (loaded_full bitmaps.now before) (λ full. full.count ≤ limit))) }
{
    for number in from..to {
        if let Some(full) = listed(bitmaps, number) {
            let count = u32::from(full.count);
            if count > limit {
                return Some(MountFault::BadEntry {
                    page: number,
                    count,
                    limit,
                });
            }
        }
    }
    None
}

/// A kept data page comes: by its entry, where the index page that was loaded last lists it, and else by its bytes.
fn see_one<F: Flash, const KNOTS: usize, const SLOTS: usize>(
    schema: &Schema<8>,
    ring: &Ring,
    bitmaps: &BitmapIndex,
    number: u32,
    known: &mut Known,
    counts: &mut [u16],
    index: &mut KeyIndex<KNOTS, SLOTS>,
    flash: &mut F,
    buf: &mut PageBuf,
) -> Result<(), MountFault>
    requires may { MayRead (layout_of schema.now) ring.now (F.state flash.old) counts.old buf.old }
    requires few { AreFew known.old }
    requires come { HasCome ring.now number known.old }
    requires before { number < next_of ring.now }
    ensures knows { IsTrue (F.state flash.old).media.tells → (error : ℕ) (t : Come) (k n : ℕ) → AreRowsOf t (layout_of schema.now) ring.now (F.state flash.old) → IsNextPage t k n number counts.old →
        entry t number ≡ option_map full_view (loaded_full bitmaps.now number) → KnowsWith error t k n known.old counts.old index.old →
        OnOk result (KnowsWith error t k (suc n) known.new counts.new index.new) × IfErr result (IfPage (λ e. mount_fault t ≡ Some e))
        × ((F.state flash.new).work.reads ≤ (F.state flash.old).work.reads + (if is_none (entry t number) then 1 else 0)) }
    ensures come { OnOk result (HasComeBy ring.now (number + 1) 1 (F.state flash.old) known.old known.new (F.state flash.new)) }
    ensures reads { OnlyReads (F.state flash.old) 1 (F.state flash.new) }
    ensures keeps { Keeps counts.old index.old buf.old counts.new index.new buf.new }
    ensures fails { IfErr result (λ e. FailsReading (F.state flash.old) e (F.state flash.new)) }
{
    if let Some(full) = listed(bitmaps, number) {
        return see_entry(known, counts, index, number, full);
    }
    let at = ring.place_of(number);
    read_page(schema, flash, at, number, known, counts, index, buf)?;
    Ok(())
}

/// The kept data pages come that lie from one number on below an end: by their entries, where the index page that was loaded
/// last lists them, and else by their bytes. It answers the number behind them.
fn see_pages<F: Flash, const KNOTS: usize, const SLOTS: usize>(
    schema: &Schema<8>,
    ring: &Ring,
    bitmaps: &BitmapIndex,
    from: u32,
    end: u64,
    known: &mut Known,
    counts: &mut [u16],
    index: &mut KeyIndex<KNOTS, SLOTS>,
    flash: &mut F,
    buf: &mut PageBuf,
) -> Result<u32, MountFault>
    requires may { MayRead (layout_of schema.now) ring.now (F.state flash.old) counts.old buf.old }
    requires come { HasCome ring.now from known.old }
    ensures to { IfOk result (λ to. to ≡ max from (min end (next_of ring.now))) }
    ensures knows { (error : ℕ) (t : Come) (k : ℕ) → AreNextPages t k from end (layout_of schema.now) ring.now (F.state flash.old) bitmaps.now counts.old → KnowsWith error t k (from - t.oldest) known.old counts.old index.old →
        IfOk result (λ to. KnowsWith error t k (to - t.oldest) known.new counts.new index.new) × IfErr result (IfPage (λ e. mount_fault t ≡ Some e))
        × ((F.state flash.new).work.reads + unlisted_of t t.oldest (from - t.oldest) ≤ (F.state flash.old).work.reads + unlisted_of t t.oldest (max from (min end (next_of ring.now)) - t.oldest)) }
    ensures come { IfOk result (λ to. HasComeBy ring.now to (to - from) (F.state flash.old) known.old known.new (F.state flash.new)) }
    ensures reads { OnlyReads (F.state flash.old) (max from (min end (next_of ring.now)) - from) (F.state flash.new) }
    ensures keeps { Keeps counts.old index.old buf.old counts.new index.new buf.new }
    ensures fails { IfErr result (λ e. FailsReading (F.state flash.old) e (F.state flash.new)) }
{
    let to = from.max(end.min(u64::from(ring.next_number())) as u32);
    for number in from..to {
        see_one(
            schema, ring, bitmaps, number, known, counts, index, flash, buf,
        )?;
    }
    Ok(to)
}

/// An index page is bad that says to list data pages from `first` on. It answers the end of those that it or one before it says
/// to list.
fn end_after_bad(known: &mut Known, end: u64, first: u32, bad: BadPage) -> Result<u64, MountFault>
    ensures within { (oldest n : ℕ) → IsWithin oldest n known.old → IsWithin oldest n known.new }
    ensures waits { IfOk result (λ after. (after ≡ max end (first + bad.count)) × (known.new ≡ record known.old { fault = first_of known.old.fault (Some bad) }) × (known.old.newest ≡ None → ⊥)) }
    ensures refused { IfErr result (λ e. (known.old.newest ≡ None) × (e ≡ MountFault.BadPage bad)) }
{
    blame(known, bad)?;
    Ok(end.max(u64::from(first) + u64::from(bad.count)))
}

/// Checks a kept index page that was loaded and lists data pages from `first` on, where those before it list none from `end` on.
/// It answers the end of the data pages that it or one before it says to list.
fn take_listing<const KNOTS: usize, const SLOTS: usize>(
    ring: &Ring,
    bitmaps: &mut BitmapIndex,
    page: u32,
    first: u32,
    end: u64,
    limit: u32,
    known: &mut Known,
    counts: &mut [u16],
    index: &mut KeyIndex<KNOTS, SLOTS>,
) -> Result<u64, MountFault>
    requires order { oldest_of ring.now ≤ next_of ring.now }
    requires some { 1 ≤ length counts.old }
    requires few { known.old.rows + 65536 < 2 ^ 64 }
    ensures knows { (error : ℕ) (layout : RowLayout) (t : Come) (k n : ℕ) (f : FlashState) (before : BitmapIndex) → IsNextIndexPage t k n page end layout limit ring.now f before counts.old →
        IsSamePlan before bitmaps.old → HoldsEntriesOf before page (finding.pages_of before f page) first bitmaps.old → KnowsWith error t k n known.old counts.old index.old →
        IfOk result (λ after. KnowsTaken error t k n end after known.new counts.new index.new bitmaps.new) × IfErr result (λ e. mount_fault t ≡ Some e) }
    ensures known { OnOk result (KeepsKnown known.old known.new) }
    ensures leaves { LeavesRing bitmaps.old bitmaps.new }
    ensures size { length counts.new ≡ length counts.old }
    ensures error { error_in index.new ≡ error_in index.old }
    ensures only { IfErr result (λ e. is_refused e ≡ true) }
{
    let capacity = bitmaps.capacity();
    if u64::from(first) < end {
        bitmaps.unload();
        let bad = BadPage {
            wanted: page,
            found: page,
            count: capacity,
        };
        return end_after_bad(known, end, first, bad);
    }
    let after = u64::from(first) + u64::from(capacity);
    let to = after.min(u64::from(ring.next_number())) as u32;
    if let Some(fault) = bad_entry(bitmaps, first.max(ring.oldest()), to, limit) {
        settle(known, counts, index)?;
        return Err(fault);
    }
    Ok(after)
}

/// Reads a kept index page and checks it, where those before it list no data page from `end` on. It answers the end of the data
/// pages that it or one before it says to list.
fn take_index_page<F: Flash, const KNOTS: usize, const SLOTS: usize>(
    ring: &Ring,
    bitmaps: &mut BitmapIndex,
    page: u32,
    end: u64,
    limit: u32,
    known: &mut Known,
    counts: &mut [u16],
    index: &mut KeyIndex<KNOTS, SLOTS>,
    flash: &mut F,
    buf: &mut PageBuf,
) -> Result<u64, MountFault>
    requires lies { IndexLies bitmaps.old (F.state flash.old) }
    requires room { length buf.old.bytes ≡ (F.state flash.old).geometry.page }
    requires kept { (memory.oldest_in bitmaps.old ≤ page) × (page < memory.next_in bitmaps.old) }
    requires order { oldest_of ring.now ≤ next_of ring.now }
    requires some { 1 ≤ length counts.old }
    requires few { known.old.rows + 65536 < 2 ^ 64 }
    ensures knows { IsTrue (F.state flash.old).media.tells → (error : ℕ) (layout : RowLayout) (t : Come) (k n : ℕ) → IsNextIndexPage t k n page end layout limit ring.now (F.state flash.old) bitmaps.old counts.old → KnowsWith error t k n known.old counts.old index.old →
        IfOk result (λ after. KnowsTaken error t k n end after known.new counts.new index.new bitmaps.new) × IfErr result (IfPage (λ e. mount_fault t ≡ Some e)) }
    ensures taken { OnOk result (TakesPage page bitmaps.old (F.state flash.old) known.old bitmaps.new known.new (F.state flash.new)) }
    ensures leaves { LeavesIndex bitmaps.old (F.state flash.old) 1 bitmaps.new (F.state flash.new) }
    ensures keeps { Keeps counts.old index.old buf.old counts.new index.new buf.new }
    ensures fails { IfErr result (λ e. FailsReading (F.state flash.old) e (F.state flash.new)) }
{
    match bitmaps.load(page, flash, buf)? {
        Loaded::Nothing => Ok(end),
        Loaded::Bad { first, bad } => end_after_bad(known, end, first, bad),
        Loaded::Listing { first } => take_listing(
            ring, bitmaps, page, first, end, limit, known, counts, index,
        ),
    }
}

/// Reads the kept index pages, from the oldest on, each as soon as the data pages came that those before it list. It answers the
/// number behind the data pages that came: no index page lists one from there on. The last entries stay loaded.
fn see_listed<F: Flash, const KNOTS: usize, const SLOTS: usize>(
    schema: &Schema<8>,
    ring: &Ring,
    bitmaps: &mut BitmapIndex,
    limit: u32,
    known: &mut Known,
    counts: &mut [u16],
    index: &mut KeyIndex<KNOTS, SLOTS>,
    flash: &mut F,
    buf: &mut PageBuf,
) -> Result<u32, MountFault>
    requires may { MayRead (layout_of schema.now) ring.now (F.state flash.old) counts.old buf.old }
    requires index_lies { IndexLies bitmaps.old (F.state flash.old) }
    requires come { HasCome ring.now (oldest_of ring.now) known.old }
    ensures knows { IsTrue (F.state flash.old).media.tells → next_of ring.now - oldest_of ring.now ≤ length counts.old → (error : ℕ) (t : Come) → IsComeTo t (layout_of schema.now) limit bitmaps.old ring.now (F.state flash.old) → KnowsWith error t 0 0 known.old counts.old index.old →
        IfOk result (λ number. KnowsListed error t number (F.state flash.old).work.reads (F.state flash.new).work.reads known.new counts.new index.new)
        × IfErr result (λ e. IsRefusedFirst t (F.state flash.old).work.reads (F.state flash.new).work.reads e) }
    ensures come { IfOk result (λ number. HasComeBy ring.now number (memory.next_in bitmaps.old - memory.oldest_in bitmaps.old + (number - oldest_of ring.now)) (F.state flash.old) known.old known.new (F.state flash.new)) }
    ensures index { OnOk result (LoadsPages bitmaps.old (F.state flash.old) bitmaps.new (F.state flash.new)) }
    ensures leaves { LeavesIndex bitmaps.old (F.state flash.old) (memory.next_in bitmaps.old - memory.oldest_in bitmaps.old + (next_of ring.now - oldest_of ring.now)) bitmaps.new (F.state flash.new) }
    ensures keeps { Keeps counts.old index.old buf.old counts.new index.new buf.new }
    ensures fails { IfErr result (λ e. FailsReading (F.state flash.old) e (F.state flash.new)) }
{
    let mut end: u64 = 0;
    let mut number = ring.oldest();
    let next = bitmaps.next_number();
    for page in next - bitmaps.pages()..next {
        number = see_pages(
            schema, ring, bitmaps, number, end, known, counts, index, flash, buf,
        )?;
        end = take_index_page(
            ring, bitmaps, page, end, limit, known, counts, index, flash, buf,
        )?;
    }
    see_pages(
        schema, ring, bitmaps, number, end, known, counts, index, flash, buf,
    )
}

/// The kept data pages come that index pages list, where entries are full. It answers the number behind them, from which on no
/// index page lists one that is kept: in a table whose entries aren't full that is the oldest one. No entry is loaded afterwards.
/// A page holds at most `limit` rows, and `counts` has the number of rows of each page, by its place in the ring.
///
/// # Errors
///
/// `Flash` where a read fails, and else the first fault of the pages that came: `BadPage`, `BadKeys` or `BadEntry`.
pub(crate) fn read_listed<F: Flash, const KNOTS: usize, const SLOTS: usize>(
    schema: &Schema<8>,
    ring: &Ring,
    bitmaps: &mut Option<BitmapIndex>,
    limit: u32,
    known: &mut Known,
    counts: &mut [u16],
    index: &mut KeyIndex<KNOTS, SLOTS>,
    flash: &mut F,
    buf: &mut PageBuf,
) -> Result<u32, MountFault>
    requires may { MayRead (layout_of schema.now) ring.now (F.state flash.old) counts.old buf.old }
    requires bitmaps_lie { LieOn bitmaps.old (F.state flash.old) }
    requires running { AreRunning bitmaps.old }
    requires idle { AreIdle bitmaps.old }
    requires come { HasCome ring.now (oldest_of ring.now) known.old }
    ensures knows { IsTrue (F.state flash.old).media.tells → next_of ring.now - oldest_of ring.now ≤ length counts.old → (error : ℕ) (t : Come) → ComesTo t (layout_of schema.now) limit bitmaps.old ring.now (F.state flash.old) → KnowsWith error t 0 0 known.old counts.old index.old →
        IfOk result (λ from. KnowsListed error t from (F.state flash.old).work.reads (F.state flash.new).work.reads known.new counts.new index.new)
        × IfErr result (λ e. IsRefusedFirst t (F.state flash.old).work.reads (F.state flash.new).work.reads e) }
    ensures come { IfOk result (λ from. HasComeBy ring.now from (index_pages_of bitmaps.old + (from - oldest_of ring.now)) (F.state flash.old) known.old known.new (F.state flash.new)) }
    ensures index { OnOk result (LoadsFull bitmaps.old (F.state flash.old) bitmaps.new (F.state flash.new)) }
    ensures leaves { LeavesKept bitmaps.old ring.now (F.state flash.old) bitmaps.new (F.state flash.new) }
    ensures keeps { Keeps counts.old index.old buf.old counts.new index.new buf.new }
    ensures fails { IfErr result (λ e. FailsReading (F.state flash.old) e (F.state flash.new)) }
{
    match bitmaps {
        Some(entries) if entries.is_full() => {
            let from = see_listed(
                schema, ring, entries, limit, known, counts, index, flash, buf,
            )?;
            entries.unload();
            Ok(from)
        }
        _ => Ok(ring.oldest()),
    }
}
