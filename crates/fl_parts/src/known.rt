// What a mount knows of the data pages that it has come to.
ghost use Rattle.std.specs.Prelude.{◌≡◌, ◌+◌, ◌*◌, ◌%◌, ◌^◌, ◌<◌, ◌≤◌, ℕ, suc, true, false, max, unwrap_or, Some, None, List, [], ◌∷◌, ◌++◌, length, slice_set, IfErr, OnOk};
ghost use Rattle.fl_model.specs.Table.{first_of};
ghost use Rattle.fl_find.specs.Index.{error_in, IndexOf};
ghost use Rattle.fl_index.specs.Page.{full_view};
ghost use Rattle.fl_spline.specs.Points.{IsFurther};
ghost use Rattle.fl_parts.specs.ByEntries.{Come, entry, facts_on, has_rows, mount_fault};
ghost use Rattle.fl_parts.specs.Faults.{is_refused};
ghost use Rattle.fl_parts.specs.KeptSteps.{IsNextPage};
ghost use Rattle.fl_parts.specs.Knowing.{KnowsWith, IsWithin};
ghost use Rattle.fl_parts.specs.Reading.{rises};
ghost use Rattle.fl_parts.specs.declared.mount_fault.MountFault.{MountFault};

use crate::MountFault;
use fl_find::KeyIndex;
use fl_index::Full;
use fl_page::BadPage;

/// A data page with rows that an index page lists, with its entry.
#[derive(Clone, Copy)]
pub struct Listed {
    pub number: u32,
    pub full: Full,
}

/// How many rows a page has, the first key of them and the last that is known, and where their blobs end.
#[derive(Clone, Copy)]
pub(crate) struct PageFacts {
    pub(crate) rows: u32,
    pub(crate) first: u64,
    pub(crate) last: u64,
    pub(crate) blob_end: u64,
}

impl PageFacts {
    /// What a page's full index entry tells of it. Of its keys that tells the first alone.
    fn told(full: Full) -> PageFacts
        ensures few { result.rows < 65536 }
        ensures exact { result ≡ record { rows = full.count; first = full.first_key; last = full.first_key; blob_end = full.blob_end } }
    {
        PageFacts {
            rows: u32::from(full.count),
            first: full.first_key,
            last: full.first_key,
            blob_end: u64::from(full.blob_end),
        }
    }
}

/// What is known of the data pages before a number: the rows in all, the pages without rows, the greatest key, and one more
/// than the greatest page that a blob names.
#[derive(Clone, Copy)]
pub struct Known {
    pub rows: u64,
    pub voids: u32,
    pub last: Option<u64>,
    pub blob_end: u64,
    /// The newest page with rows, where an index page lists it. It isn't counted yet: if it stays the newest, it is read.
    pub newest: Option<Listed>,
    /// The first bad index page that was read behind it.
    pub fault: Option<BadPage>,
}

impl Known {
    /// Before any page came.
    pub fn nothing() -> Known
        ensures { result ≡ record { rows = 0; voids = 0; last = None; blob_end = 0; newest = None; fault = None } }
    {
        Known {
            rows: 0,
            voids: 0,
            last: None,
            blob_end: 0,
            newest: None,
            fault: None,
        }
    }
}

/// Counts a page with rows.
pub(crate) fn count_page<const KNOTS: usize, const SLOTS: usize>(
    known: &mut Known,
    counts: &mut [u16],
    index: &mut KeyIndex<KNOTS, SLOTS>,
    number: u32,
    page: PageFacts,
)
    requires some { 1 ≤ length counts.old }
    requires rows { page.rows < 65536 }
    requires few { known.old.rows + page.rows < 2 ^ 64 }
    ensures known { known.new ≡ record known.old { rows = known.old.rows + page.rows; last = Some page.last; blob_end = max known.old.blob_end page.blob_end } }
    ensures counts { counts.new ≡ slice_set counts.old (number % length counts.old) page.rows }
    ensures error { error_in index.new ≡ error_in index.old }
    ensures points { (error : ℕ) (points : List (ℕ × ℕ)) → IndexOf error points index.old → IsFurther points (page.first, number) → IndexOf error (points ++ (page.first, number) ∷ []) index.new }
{
    note(counts, number, page.rows);
    index.add_further(page.first, number);
    known.rows += u64::from(page.rows);
    known.last = Some(page.last);
    known.blob_end = known.blob_end.max(page.blob_end);
}

/// Counts a page without rows.
pub(crate) fn count_void(known: &mut Known, counts: &mut [u16], number: u32, blob_end: u64)
    requires some { 1 ≤ length counts.old }
    requires few { known.old.voids + 1 < 2 ^ 32 }
    ensures known { known.new ≡ record known.old { voids = known.old.voids + 1; blob_end = max known.old.blob_end blob_end } }
    ensures counts { counts.new ≡ slice_set counts.old (number % length counts.old) 0 }
{
    note(counts, number, 0);
    known.voids += 1;
    known.blob_end = known.blob_end.max(blob_end);
}

/// The key of a row of this page has to be above the last one.
pub(crate) fn check_rise(number: u32, last: Option<u64>, key: u64) -> Result<(), MountFault>
    ensures up { OnOk result (rises last key ≡ true) }
    ensures fault { IfErr result (λ e. (rises last key ≡ false) × (e ≡ MountFault.BadKeys number (unwrap_or last 0) key)) }
    ensures only { IfErr result (λ e. is_refused e ≡ true) }
{
    match last {
        Some(last) if key <= last => Err(MountFault::BadKeys {
            page: number,
            last,
            first: key,
        }),
        _ => Ok(()),
    }
}

/// A page with rows comes behind the one that waits. So that isn't the newest, and it is counted by its entry; then the bad
/// index page behind it is the first fault, where there is one.
pub(crate) fn settle<const KNOTS: usize, const SLOTS: usize>(
    known: &mut Known,
    counts: &mut [u16],
    index: &mut KeyIndex<KNOTS, SLOTS>,
) -> Result<(), MountFault>
    requires some { 1 ≤ length counts.old }
    requires few { known.old.rows + 65536 < 2 ^ 64 }
    ensures size { length counts.new ≡ length counts.old }
    ensures error { error_in index.new ≡ error_in index.old }
    ensures none { OnOk result (known.new.newest ≡ None) }
    ensures rows { known.new.rows ≤ known.old.rows + 65535 }
    ensures voids { known.new.voids ≡ known.old.voids }
    ensures within { (oldest n : ℕ) → IsWithin oldest n known.old → IsWithin oldest n known.new }
    ensures only { IfErr result (λ e. is_refused e ≡ true) }
    ensures knows { (error : ℕ) (t : Come) (k n later : ℕ) → KnowsWith error t k n known.old counts.old index.old → n ≤ later → later < t.pages → n ≤ length counts.old → has_rows t (t.oldest + later) ≡ true →
        OnOk result (KnowsWith error t k n known.new counts.new index.new) × IfErr result (λ e. mount_fault t ≡ Some e) }
{
    let Some(listed) = known.newest else {
        return Ok(());
    };
    check_rise(listed.number, known.last, listed.full.first_key)?;
    if let Some(bad) = known.fault {
        return Err(MountFault::BadPage(bad));
    }
    known.newest = None;
    let page = PageFacts::told(listed.full);
    count_page(known, counts, index, listed.number, page);
    Ok(())
}

/// A data page comes that an index page lists, with this entry. Where that tells rows, it waits for a later page with rows.
pub(crate) fn see_entry<const KNOTS: usize, const SLOTS: usize>(
    known: &mut Known,
    counts: &mut [u16],
    index: &mut KeyIndex<KNOTS, SLOTS>,
    number: u32,
    full: Full,
) -> Result<(), MountFault>
    requires some { 1 ≤ length counts.old }
    requires few { known.old.rows + 65536 < 2 ^ 64 }
    requires few_voids { known.old.voids + 1 < 2 ^ 32 }
    ensures size { length counts.new ≡ length counts.old }
    ensures error { error_in index.new ≡ error_in index.old }
    ensures within { (oldest n : ℕ) → IsWithin oldest n known.old → number ≡ oldest + n → IsWithin oldest (suc n) known.new }
    ensures only { IfErr result (λ e. is_refused e ≡ true) }
    ensures knows { (error : ℕ) (t : Come) (k n : ℕ) → KnowsWith error t k n known.old counts.old index.old → IsNextPage t k n number counts.old → entry t number ≡ Some (full_view full) →
        OnOk result (KnowsWith error t k (suc n) known.new counts.new index.new) × IfErr result (λ e. mount_fault t ≡ Some e) }
{
    if full.count == 0 {
        count_void(known, counts, number, u64::from(full.blob_end));
        return Ok(());
    }
    settle(known, counts, index)?;
    known.newest = Some(Listed { number, full });
    Ok(())
}

/// An index page is bad. If a page waits that may be the newest with rows, it is checked before the mount is refused.
pub(crate) fn blame(known: &mut Known, bad: BadPage) -> Result<(), MountFault>
    ensures within { (oldest n : ℕ) → IsWithin oldest n known.old → IsWithin oldest n known.new }
    ensures waits { OnOk result (known.new ≡ record known.old { fault = first_of known.old.fault (Some bad) }) }
    ensures some { OnOk result (known.old.newest ≡ None → ⊥) }
    ensures refused { IfErr result (λ e. (known.old.newest ≡ None) × (e ≡ MountFault.BadPage bad)) }
{
    if known.newest.is_none() {
        return Err(MountFault::BadPage(bad));
    }
    if known.fault.is_none() {
        known.fault = Some(bad);
    }
    Ok(())
}

/// The data page with this number has so many rows. `counts` has the number of rows of each page, by its place in the ring.
pub fn note(counts: &mut [u16], number: u32, rows: u32)
    requires some { 1 ≤ length counts.old }
    requires few { rows < 65536 }
    ensures { counts.new ≡ slice_set counts.old (number % length counts.old) rows }
{
    let at = number as usize % counts.len();
    counts[at] = rows as u16;
}
