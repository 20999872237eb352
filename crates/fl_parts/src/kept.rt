// A read of all kept pages: those of the data ring, and those of an index whose entries are full.
ghost use Rattle.std.specs.Prelude.{◌≡◌, ◌+◌, ◌-◌, ◌≤◌, ℕ, Some, None, [], length, IsTrue, IfOk, IfErr, OnOk};
ghost use Rattle.fl_find.specs.Index.{error_in, IndexOf};
ghost use Rattle.fl_model.specs.Record.{layout_len};
ghost use Rattle.fl_ring.specs.Place.{shape_of, next_of, oldest_of, LiesOn};
ghost use Rattle.fl_ring.specs.Ring.{room};
ghost use Rattle.fl_schema.specs.Schema.{layout_of};
ghost use Rattle.fl_parts.specs.Bitmaps.{AreIdle, AreRunning, LieOn};
ghost use Rattle.fl_parts.specs.ByEntries.{Come, mount_fault, unlisted_of};
ghost use Rattle.fl_parts.specs.Coming.{AreRowsOf, AreUnlisted, ComesTo, WaitUnlisted, come_on};
ghost use Rattle.fl_parts.specs.KeptRead.{FindsKept, LeavesKept, RefusesKept};
ghost use Rattle.fl_parts.specs.KeptSteps.{FailsReading, FindsPages, HasCome, Keeps, LeavesNoted, MayRead, ReadsRest};
ghost use Rattle.fl_parts.specs.Knowing.{KnowsWith, is_waiting};
ghost use Rattle.fl_parts.specs.Reading.{pages_of};
ghost use Rattle.fl_parts.specs.Faults.{IfPage};

use crate::MountFault;
use crate::bitmaps::{first_to_wait, restart};
use crate::by_entries::read_listed;
use crate::known::Known;
use crate::load::{read_newest, read_pages};
use fl_find::KeyIndex;
use fl_flash::{Flash, PageBuf};
use fl_index::BitmapIndex;
use fl_ring::Ring;
use fl_schema::Schema;

/// Reads the kept pages of the data ring, and those of an index whose entries are full and which ends at this number. It
/// answers what is known of the data pages. Of those that no index page lists the entries of the last ones wait then.
/// `counts` has the number of rows of each page then, by its place in the ring.
///
/// # Errors
///
/// `Flash` if a read failed; `BadPage`, `BadKeys` or `BadEntry` for the first fault of the kept pages. After an error
/// `counts`, `index` and the entries that wait are of no use: they are to be cleared.
pub fn read_kept<F: Flash, const KNOTS: usize, const SLOTS: usize>(
    schema: &Schema<8>,
    ring: &Ring,
    end: u32,
    counts: &mut [u16],
    index: &mut KeyIndex<KNOTS, SLOTS>,
    bitmaps: &mut Option<BitmapIndex>,
    flash: &mut F,
    buf: &mut PageBuf,
) -> Result<Known, MountFault>
    requires row { 1 ≤ layout_len (layout_of schema.now) }
    requires lies { LiesOn ring.now (F.state flash.old) }
    requires bitmaps_lie { LieOn bitmaps.old (F.state flash.old) }
    requires running { AreRunning bitmaps.old }
    requires idle { AreIdle bitmaps.old }
    requires room { length buf.old.bytes ≡ (F.state flash.old).geometry.page }
    requires none { buf.old.holds ≡ None }
    requires counts { length counts.old ≡ room (shape_of ring.now) }
    requires few { IsTrue (F.state flash.old).media.tells → next_of ring.now - oldest_of ring.now ≤ length counts.old }
    requires end { end ≤ next_of ring.now }
    requires empty { IndexOf (error_in index.old) [] index.old }
    ensures knows { IfOk result (λ known. IsTrue (F.state flash.old).media.tells →
        let t = come_on (layout_of schema.now) bitmaps.old ring.now (F.state flash.old) in
        KnowsWith (error_in index.old) t t.index_pages t.pages known counts.new index.new) }
    ensures found { IfOk result (λ known.
        let t = come_on (layout_of schema.now) bitmaps.old ring.now (F.state flash.old) in
        FindsKept t bitmaps.old ring.now (F.state flash.old) end known bitmaps.new (F.state flash.new)) }
    ensures refused { IfErr result (λ e.
        let t = come_on (layout_of schema.now) bitmaps.old ring.now (F.state flash.old) in
        RefusesKept t (F.state flash.old) e (F.state flash.new)) }
    ensures leaves { LeavesKept bitmaps.old ring.now (F.state flash.old) bitmaps.new (F.state flash.new) }
    ensures few_reads { IsTrue (F.state flash.old).media.tells →
        let t = come_on (layout_of schema.now) bitmaps.old ring.now (F.state flash.old) in
        (F.state flash.new).work.reads ≤
        (F.state flash.old).work.reads + t.index_pages + unlisted_of t t.oldest t.pages + 1 }
    ensures size { length counts.new ≡ length counts.old }
    ensures error { error_in index.new ≡ error_in index.old }
    ensures room { length buf.new.bytes ≡ length buf.old.bytes }
    ensures none { buf.new.holds ≡ None }
{
    let page = flash.geometry().page;
    let limit = (page - 24) / schema.row_len();
    read_within(schema, ring, end, limit, counts, index, bitmaps, flash, buf)
}

/// Reads the kept pages as `read_kept` does, where a page holds at most so many rows.
fn read_within<F: Flash, const KNOTS: usize, const SLOTS: usize>(
    schema: &Schema<8>,
    ring: &Ring,
    end: u32,
    limit: u32,
    counts: &mut [u16],
    index: &mut KeyIndex<KNOTS, SLOTS>,
    bitmaps: &mut Option<BitmapIndex>,
    flash: &mut F,
    buf: &mut PageBuf,
) -> Result<Known, MountFault>
    requires may { MayRead (layout_of schema.now) ring.now (F.state flash.old) counts.old buf.old }
    requires bitmaps_lie { LieOn bitmaps.old (F.state flash.old) }
    requires running { AreRunning bitmaps.old }
    requires idle { AreIdle bitmaps.old }
    requires end { end ≤ next_of ring.now }
    requires empty { IndexOf (error_in index.old) [] index.old }
    ensures knows { IsTrue (F.state flash.old).media.tells → next_of ring.now - oldest_of ring.now ≤ length counts.old → (t : Come) → ComesTo t (layout_of schema.now) limit bitmaps.old ring.now (F.state flash.old) →
        IfOk result (λ known. KnowsWith (error_in index.old) t t.index_pages t.pages known counts.new index.new × WaitUnlisted t (pages_of ring.now (F.state flash.old)) bitmaps.old end (next_of ring.now) bitmaps.new)
        × IfErr result (IfPage (λ e. mount_fault t ≡ Some e))
        × ((F.state flash.new).work.reads ≤ (F.state flash.old).work.reads + t.index_pages + unlisted_of t t.oldest t.pages + 1) }
    ensures found { IfOk result (λ known. FindsPages bitmaps.old ring.now (F.state flash.old) known bitmaps.new (F.state flash.new)) }
    ensures leaves { LeavesKept bitmaps.old ring.now (F.state flash.old) bitmaps.new (F.state flash.new) }
    ensures keeps { Keeps counts.old index.old buf.old counts.new index.new buf.new }
    ensures fails { IfErr result (λ e. FailsReading (F.state flash.old) e (F.state flash.new)) }
{
    let mut known = Known::nothing();
    let from = read_listed(
        schema, ring, bitmaps, limit, &mut known, counts, index, flash, buf,
    )?;
    read_rest(
        schema, ring, end, from, &mut known, counts, index, bitmaps, flash, buf,
    )?;
    Ok(known)
}

/// Reads the data pages from one number on, which no index page lists, and then the page that waits.
fn read_rest<F: Flash, const KNOTS: usize, const SLOTS: usize>(
    schema: &Schema<8>,
    ring: &Ring,
    end: u32,
    from: u32,
    known: &mut Known,
    counts: &mut [u16],
    index: &mut KeyIndex<KNOTS, SLOTS>,
    bitmaps: &mut Option<BitmapIndex>,
    flash: &mut F,
    buf: &mut PageBuf,
) -> Result<(), MountFault>
    requires may { MayRead (layout_of schema.now) ring.now (F.state flash.old) counts.old buf.old }
    requires come { HasCome ring.now from known.old }
    requires idle { AreIdle bitmaps.old }
    requires end { end ≤ next_of ring.now }
    ensures knows { IsTrue (F.state flash.old).media.tells → next_of ring.now - oldest_of ring.now ≤ length counts.old → (error : ℕ) (t : Come) → AreRowsOf t (layout_of schema.now) ring.now (F.state flash.old) → AreUnlisted t from →
        KnowsWith error t t.index_pages (from - t.oldest) known.old counts.old index.old →
        OnOk result (KnowsWith error t t.index_pages t.pages known.new counts.new index.new) × IfErr result (IfPage (λ e. mount_fault t ≡ Some e)) }
    ensures rest { OnOk result (ReadsRest (layout_of schema.now) ring.now end from bitmaps.old (F.state flash.old) bitmaps.new known.new) }
    ensures leaves { LeavesNoted bitmaps.old (F.state flash.old) (next_of ring.now - from + is_waiting known.old.newest) bitmaps.new (F.state flash.new) }
    ensures keeps { Keeps counts.old index.old buf.old counts.new index.new buf.new }
    ensures fails { IfErr result (λ e. FailsReading (F.state flash.old) e (F.state flash.new)) }
{
    let first = first_to_wait(bitmaps, end, from, ring.next_number());
    restart(bitmaps, first);
    read_pages(
        schema, ring, from, known, counts, index, bitmaps, flash, buf,
    )?;
    read_newest(schema, ring, known, counts, index, flash, buf)
}
