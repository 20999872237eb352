// The page of a key, searched for in the pages themselves.
ghost use Rattle.std.specs.Prelude.{◌≡◌, ◌+◌, ◌-◌, ◌<◌, ◌≤◌, ℕ, true, Option, length, IsTrue, IfSome, IfOk, IfErr, OnOk, unwrap_or};
ghost use Rattle.fl_base.specs.Bits.{bits};
ghost use Rattle.fl_ring.specs.Place.{shape_of, oldest_of, next_of, LiesOn};
ghost use Rattle.fl_schema.specs.Schema.{layout_of};
ghost use Rattle.fl_search.specs.Search.{IsPageOf, Ascends, RoseBy, RoseSome, looked_at, starts_by, voids_in};
ghost use Rattle.fl_find.specs.Pages.{first_on, Holds, IsFresh};
ghost use Rattle.fl_find.specs.Looking.{BlamesBelow, OnlyLooks, LookFails, NoneIsBad};

use crate::first::read_first;
use crate::keys::PageKeys;
use fl_base::{get_u16, get_u32};
use fl_flash::{Flash, PageBuf};
use fl_page::{BadPage, ReadFault};
use fl_ring::Ring;
use fl_schema::Schema;
use fl_search::{bisect, near};

/// The greatest kept page with rows before `end` whose first key is at most the key, searched for downwards. The
/// buffer holds it then.
///
/// The pages from the last one before `end` down to it are read, each once.
pub(crate) fn page_downwards<F: Flash>(
    ring: &Ring,
    schema: &Schema<8>,
    flash: &mut F,
    buf: &mut PageBuf,
    end: u32,
    key: u64,
) -> Result<Option<u32>, ReadFault>
    requires lies { LiesOn ring.now (F.state flash.old) }
    requires room { length buf.old.bytes ≡ (F.state flash.old).geometry.page }
    requires kept { end ≤ next_of ring.now }
    ensures looks { OnlyLooks (F.state flash.old) (F.state flash.new) }
    ensures lies { LiesOn ring.now (F.state flash.new) }
    ensures room { length buf.new.bytes ≡ length buf.old.bytes }
    ensures page { IsTrue (F.state flash.old).media.tells → IfOk result (λ page. IsPageOf (first_on (layout_of schema.now) (shape_of ring.now) (F.state flash.old)) (oldest_of ring.now) end key page) }
    ensures exact { IfOk result (λ page. RoseBy (looked_at (oldest_of ring.now) end page) (F.state flash.old).work.reads (F.state flash.new).work.reads) }
    ensures limit { (page : Option ℕ) → IsTrue (F.state flash.old).media.tells →
        IsPageOf (first_on (layout_of schema.now) (shape_of ring.now) (F.state flash.old)) (oldest_of ring.now) end key page →
        (F.state flash.new).work.reads ≤ (F.state flash.old).work.reads + looked_at (oldest_of ring.now) end page }
    ensures sound { (page : Option ℕ) → IsTrue (F.state flash.old).media.tells →
        IsPageOf (first_on (layout_of schema.now) (shape_of ring.now) (F.state flash.old)) (oldest_of ring.now) end key page →
        OnOk result (NoneIsBad (layout_of schema.now) ring.now (F.state flash.old) (unwrap_or page (oldest_of ring.now)) end) }
    ensures most { (F.state flash.new).work.reads ≤ (F.state flash.old).work.reads + (end - oldest_of ring.now) }
    ensures holds { IfOk result (λ page. IfSome page (λ number. Holds (layout_of schema.now) (shape_of ring.now) (F.state flash.new) number buf.new)) }
    ensures within { IfOk result (λ page. IfSome page (λ number. (oldest_of ring.now ≤ number) × (number < end))) }
    ensures fresh { IsFresh (F.state flash.old) buf.old → IsFresh (F.state flash.new) buf.new }
    ensures fails { IfErr result (λ e. LookFails (layout_of schema.now) ring.now (F.state flash.old) e (F.state flash.new)) }
    ensures blames { IfErr result (BlamesBelow (layout_of schema.now) ring.now (F.state flash.old) end key) }
{
    let oldest = ring.oldest();
    if end <= oldest {
        return Ok(None);
    }
    let mut keys = PageKeys {
        ring,
        schema,
        flash,
        buf,
        faults: 0,
    };
    near(&mut keys, oldest, end - 1, key)
}

/// The greatest kept page with rows whose first key is at most the key, searched for by halves, where the first keys
/// ascend.
fn halves<F: Flash>(
    ring: &Ring,
    schema: &Schema<8>,
    flash: &mut F,
    buf: &mut PageBuf,
    key: u64,
) -> Result<Option<u32>, ReadFault>
    requires lies { LiesOn ring.now (F.state flash.old) }
    requires room { length buf.old.bytes ≡ (F.state flash.old).geometry.page }
    ensures looks { OnlyLooks (F.state flash.old) (F.state flash.new) }
    ensures lies { LiesOn ring.now (F.state flash.new) }
    ensures room { length buf.new.bytes ≡ length buf.old.bytes }
    ensures page { IsTrue (F.state flash.old).media.tells →
        Ascends (first_on (layout_of schema.now) (shape_of ring.now) (F.state flash.old)) (oldest_of ring.now) (next_of ring.now) →
        IfOk result (λ page. IsPageOf (first_on (layout_of schema.now) (shape_of ring.now) (F.state flash.old)) (oldest_of ring.now) (next_of ring.now) key page) }
    ensures starts { IsTrue (F.state flash.old).media.tells →
        IfOk result (λ page. IfSome page (λ number. starts_by (first_on (layout_of schema.now) (shape_of ring.now) (F.state flash.old)) key number ≡ true)) }
    ensures some { IfOk result (λ page. IfSome page (λ number. RoseSome (F.state flash.old).work.reads (F.state flash.new).work.reads)) }
    ensures limit { IsTrue (F.state flash.old).media.tells →
        (F.state flash.new).work.reads ≤ (F.state flash.old).work.reads + bits (next_of ring.now - oldest_of ring.now)
        + voids_in (first_on (layout_of schema.now) (shape_of ring.now) (F.state flash.old)) (oldest_of ring.now) (next_of ring.now) }
    ensures most { (F.state flash.new).work.reads ≤ (F.state flash.old).work.reads + (next_of ring.now - oldest_of ring.now) }
    ensures within { IfOk result (λ page. IfSome page (λ number. (oldest_of ring.now ≤ number) × (number < next_of ring.now))) }
    ensures fresh { IsFresh (F.state flash.old) buf.old → IsFresh (F.state flash.new) buf.new }
    ensures fails { IfErr result (λ e. LookFails (layout_of schema.now) ring.now (F.state flash.old) e (F.state flash.new)) }
{
    let mut keys = PageKeys {
        ring,
        schema,
        flash,
        buf,
        faults: 0,
    };
    bisect(&mut keys, ring.oldest(), ring.next_number(), key)
}

/// Why a page of which a key was read can't be read again: it isn't committed any more.
fn not_committed(bytes: &[u8], number: u32) -> BadPage
    requires { 24 ≤ length bytes.now }
{
    BadPage {
        wanted: number,
        found: get_u32(bytes, 0),
        count: u32::from(get_u16(bytes, 4)),
    }
}

/// The greatest kept page with rows whose first key is at most the key, searched for by halves, where the first keys
/// ascend. The buffer holds it then: it is read once more.
pub(crate) fn page_by_halves<F: Flash>(
    ring: &Ring,
    schema: &Schema<8>,
    flash: &mut F,
    buf: &mut PageBuf,
    key: u64,
) -> Result<Option<u32>, ReadFault>
    requires lies { LiesOn ring.now (F.state flash.old) }
    requires room { length buf.old.bytes ≡ (F.state flash.old).geometry.page }
    ensures looks { OnlyLooks (F.state flash.old) (F.state flash.new) }
    ensures lies { LiesOn ring.now (F.state flash.new) }
    ensures room { length buf.new.bytes ≡ length buf.old.bytes }
    ensures page { IsTrue (F.state flash.old).media.tells →
        Ascends (first_on (layout_of schema.now) (shape_of ring.now) (F.state flash.old)) (oldest_of ring.now) (next_of ring.now) →
        IfOk result (λ page. IsPageOf (first_on (layout_of schema.now) (shape_of ring.now) (F.state flash.old)) (oldest_of ring.now) (next_of ring.now) key page) }
    ensures starts { IsTrue (F.state flash.old).media.tells →
        IfOk result (λ page. IfSome page (λ number. starts_by (first_on (layout_of schema.now) (shape_of ring.now) (F.state flash.old)) key number ≡ true)) }
    ensures some { IfOk result (λ page. IfSome page (λ number. RoseSome (F.state flash.old).work.reads (F.state flash.new).work.reads)) }
    ensures limit { IsTrue (F.state flash.old).media.tells →
        (F.state flash.new).work.reads ≤ (F.state flash.old).work.reads + bits (next_of ring.now - oldest_of ring.now) + 1
        + voids_in (first_on (layout_of schema.now) (shape_of ring.now) (F.state flash.old)) (oldest_of ring.now) (next_of ring.now) }
    ensures most { (F.state flash.new).work.reads ≤ (F.state flash.old).work.reads + (next_of ring.now - oldest_of ring.now) + 1 }
    ensures holds { IfOk result (λ page. IfSome page (λ number. Holds (layout_of schema.now) (shape_of ring.now) (F.state flash.new) number buf.new)) }
    ensures within { IfOk result (λ page. IfSome page (λ number. (oldest_of ring.now ≤ number) × (number < next_of ring.now))) }
    ensures fresh { IsFresh (F.state flash.old) buf.old → IsFresh (F.state flash.new) buf.new }
    ensures fails { IfErr result (λ e. LookFails (layout_of schema.now) ring.now (F.state flash.old) e (F.state flash.new)) }
{
    let Some(number) = halves(ring, schema, flash, buf, key)? else {
        return Ok(None);
    };
    // The page that was asked for last may be another.
    if read_first(ring, schema, flash, buf, number)?.is_none() {
        return Err(ReadFault::BadPage(not_committed(buf.bytes(), number)));
    }
    Ok(Some(number))
}
