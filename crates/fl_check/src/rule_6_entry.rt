// The rule on the entries of index pages.
ghost use Rattle.std.specs.Prelude.{◌≡◌, ℕ, ◌+◌, ◌-◌, ◌*◌, ◌<◌, ◌≤◌, length, true, false, IsTrue, IfOk, IfErr, IfSome, IfNone};
ghost use Rattle.fl_flash.specs.Flash.{page_at};
ghost use Rattle.fl_index.specs.Page.{page_first, form_len, found_at};
ghost use Rattle.fl_frame.specs.Reads.{OnlyReads};
ghost use Rattle.fl_frame.specs.Causes.{ReadFails};
ghost use Rattle.fl_ring.specs.Newest.{page_back};
ghost use Rattle.fl_ring.specs.Place.{shape_of, LiesOn};
ghost use Rattle.fl_ring.specs.Ring.{room};
ghost use Rattle.fl_rules.specs.Claims.{AllBelow, FailsFirst};
ghost use Rattle.fl_schema.specs.Schema.{layout_of};
ghost use Rattle.fl_check.specs.Entries.{entries_in, over, IsEntry, kept_below, AreSeen, HasEntries, HaveEntries, EntriesBreak};
ghost use Rattle.fl_rules.specs.Marks.{AreWithin};
ghost use Rattle.fl_rules.specs.Told.{TellsPage};

use crate::told_entry::tells_page;
use fl_flash::{Flash, FlashFault, PageBuf};
use fl_index::{EntryForm, Found, entry_len, first_in, found_in};
use fl_ring::{Ring, is_committed, look};
use fl_rules::{Marks, Numbering};
use fl_schema::Schema;

/// An index over data pages: the form of its entries, the schema of the rows, the kept pages of its ring, and those of the
/// data ring with the number of the next one.
#[derive(Clone, Copy)]
pub struct Indexing<'s> {
    pub form: EntryForm,
    pub schema: &'s Schema<8>,
    pub index: Marks,
    pub rows: Numbering,
}

/// Whether an entry tells of the data page so many pages before the next one.
fn tells_back<F: Flash>(
    rows: &Ring,
    flash: &mut F,
    l: Indexing<'_>,
    back: u32,
    found: Found,
    buf: &mut PageBuf,
) -> Result<bool, FlashFault>
    requires lies { LiesOn rows.now (F.state flash.old) }
    requires room { length buf.old.bytes ≡ (shape_of rows.now).size }
    requires within { AreWithin (shape_of rows.now) l.rows.marks }
    requires some { 1 ≤ back }
    requires kept { back ≤ l.rows.marks.kept }
    ensures reads { OnlyReads (F.state flash.old) 1 (F.state flash.new) }
    ensures room { length buf.new.bytes ≡ (shape_of rows.now).size }
    ensures yes { IfOk result (λ tells. tells ≡ true → IsTrue (F.state flash.old).media.tells → TellsPage (layout_of l.entry.schema.now) (page_at (F.state flash.old) (page_back (shape_of rows.now) l.entry.rows.marks.at back)) found) }
    ensures no { IfOk result (λ tells. tells ≡ false → IsTrue (F.state flash.old).media.tells → TellsPage (layout_of l.entry.schema.now) (page_at (F.state flash.old) (page_back (shape_of rows.now) l.entry.rows.marks.at back)) found → ⊥) }
    ensures fails { IfErr result (λ e. ReadFails (F.state flash.old) e (F.state flash.new)) }
{
    let page = rows.page_back(l.rows.marks.at, back);
    look(flash, page, buf)?;
    Ok(tells_page(l.schema, buf.bytes(), found))
}

/// How many pages before the next one the kept data page with a number stands, where there is one.
fn back_of(rows: Numbering, number: u64) -> Option<u32>
    ensures some { IfSome result (λ back. (1 ≤ back) × (back ≤ rows.marks.kept) × (number + back ≡ rows.next)) }
    ensures none { IfNone result ((back : ℕ) → 1 ≤ back → back ≤ rows.marks.kept → number + back ≡ rows.next → ⊥) }
{
    let next = u64::from(rows.next);
    if number >= next || next - number > u64::from(rows.marks.kept) {
        return None;
    }
    Some((next - number) as u32)
}

/// How many entries of this form an index page has room for.
pub(crate) fn entries_in(size: usize, form: EntryForm) -> u32
    requires some { 1 ≤ form.width }
    requires few { form.width ≤ 8 }
    requires header { 24 ≤ size }
    requires short { size ≤ 4096 }
    ensures exact { result ≡ entries_in size form }
    ensures room { 24 + result * form_len form ≤ size }
{
    ((size - 24) / entry_len(form)) as u32
}

/// Whether an entry of an index page tells of the kept data page that it stands for.
fn is_entry<F: Flash>(
    rows: &Ring,
    flash: &mut F,
    l: Indexing<'_>,
    listing: &[u8],
    j: u32,
    buf: &mut PageBuf,
) -> Result<bool, FlashFault>
    requires lies { LiesOn rows.now (F.state flash.old) }
    requires room { length buf.old.bytes ≡ (shape_of rows.now).size }
    requires within { AreWithin (shape_of rows.now) l.rows.marks }
    requires some { 1 ≤ l.form.width }
    requires few { l.form.width ≤ 8 }
    requires entry { 16 + (j + 1) * form_len l.form ≤ length listing.now }
    requires short { length listing.now ≤ 4096 }
    ensures reads { OnlyReads (F.state flash.old) (kept_below l.entry.rows (page_first listing.now + j + 1) - kept_below l.entry.rows (page_first listing.now + j)) (F.state flash.new) }
    ensures room { length buf.new.bytes ≡ (shape_of rows.now).size }
    ensures yes { IfOk result (λ is. is ≡ true → IsTrue (F.state flash.old).media.tells → IsEntry (page_at (F.state flash.old)) (shape_of rows.now) (over l.entry) listing.now j) }
    ensures no { IfOk result (λ is. is ≡ false → IsTrue (F.state flash.old).media.tells → IsEntry (page_at (F.state flash.old)) (shape_of rows.now) (over l.entry) listing.now j → ⊥) }
    ensures fails { IfErr result (λ e. ReadFails (F.state flash.old) e (F.state flash.new)) }
{
    let found = back_of(l.rows, u64::from(first_in(listing)) + u64::from(j));
    match found {
        None => Ok(true),
        Some(back) => {
            let entry = found_in(listing, l.form, j as usize);
            tells_back(rows, flash, l, back, entry, buf)
        }
    }
}

/// Whether the entries of an index page tell of the kept data pages that it lists. These are read.
fn has_entries<F: Flash>(
    rows: &Ring,
    flash: &mut F,
    l: Indexing<'_>,
    listing: &[u8],
    many: u32,
    buf: &mut PageBuf,
) -> Result<bool, FlashFault>
    requires lies { LiesOn rows.now (F.state flash.old) }
    requires room { length buf.old.bytes ≡ (shape_of rows.now).size }
    requires within { AreWithin (shape_of rows.now) l.rows.marks }
    requires some { 1 ≤ l.form.width }
    requires few { l.form.width ≤ 8 }
    requires entries { 24 + many * form_len l.form ≤ length listing.now }
    requires short { length listing.now ≤ 4096 }
    ensures reads { OnlyReads (F.state flash.old) (kept_below l.entry.rows (page_first listing.now + many) - kept_below l.entry.rows (page_first listing.now)) (F.state flash.new) }
    ensures room { length buf.new.bytes ≡ (shape_of rows.now).size }
    ensures yes { IfOk result (λ has. has ≡ true → IsTrue (F.state flash.old).media.tells → AllBelow (IsEntry (page_at (F.state flash.old)) (shape_of rows.now) (over l.entry) listing.now) many) }
    ensures no { IfOk result (λ has. has ≡ false → IsTrue (F.state flash.old).media.tells → AllBelow (IsEntry (page_at (F.state flash.old)) (shape_of rows.now) (over l.entry) listing.now) many → ⊥) }
    ensures fails { IfErr result (λ e. ReadFails (F.state flash.old) e (F.state flash.new)) }
{
    for j in 0..many {
        let is = is_entry(rows, flash, l, listing, j, buf)?;
        if !is {
            return Ok(false);
        }
    }
    Ok(true)
}

/// The newest committed one of the index pages so far, and the number after those that it lists; 0 where there is none.
#[derive(Clone, Copy)]
pub(crate) struct Seen {
    pub(crate) last: u32,
    pub(crate) end: u64,
}

/// Looks at the next kept index page: none where it breaks the rule.
fn see_listing<F: Flash>(
    index: &Ring,
    rows: &Ring,
    flash: &mut F,
    l: Indexing<'_>,
    i: u32,
    seen: Seen,
    listing: &mut PageBuf,
    buf: &mut PageBuf,
) -> Result<Option<Seen>, FlashFault>
    requires index { LiesOn index.now (F.state flash.old) }
    requires rows { LiesOn rows.now (F.state flash.old) }
    requires listing { length listing.old.bytes ≡ (shape_of index.now).size }
    requires room { length buf.old.bytes ≡ (shape_of rows.now).size }
    requires index_within { AreWithin (shape_of index.now) l.index }
    requires rows_within { AreWithin (shape_of rows.now) l.rows.marks }
    requires some { 1 ≤ l.form.width }
    requires few { l.form.width ≤ 8 }
    requires kept { i < l.index.kept }
    requires last { 0 < seen.end → seen.last < i }
    ensures reads { OnlyReads (F.state flash.old) (1 + (l.entry.rows.marks.kept - kept_below l.entry.rows seen.end)) (F.state flash.new) }
    ensures few_reads { IfOk result (λ o. IfSome o (λ s. (OnlyReads (F.state flash.old) (1 + (kept_below l.entry.rows s.end - kept_below l.entry.rows seen.end)) (F.state flash.new)) × (seen.end ≤ s.end))) }
    ensures listing { length listing.new.bytes ≡ (shape_of index.now).size }
    ensures room { length buf.new.bytes ≡ (shape_of rows.now).size }
    ensures none { IfOk result (λ o. IsTrue (F.state flash.old).media.tells → AreSeen (page_at (F.state flash.old)) (shape_of index.now) (shape_of rows.now) (over l.entry) i seen
        → IfNone o (FailsFirst (HasEntries (page_at (F.state flash.old)) (shape_of index.now) (shape_of rows.now) (over l.entry)) l.entry.index.kept i)) }
    ensures some { IfOk result (λ o. IsTrue (F.state flash.old).media.tells → AreSeen (page_at (F.state flash.old)) (shape_of index.now) (shape_of rows.now) (over l.entry) i seen
        → IfSome o (AreSeen (page_at (F.state flash.old)) (shape_of index.now) (shape_of rows.now) (over l.entry) (i + 1))) }
    ensures last { IfOk result (λ o. IfSome o (λ s. 0 < s.end → s.last < i + 1)) }
    ensures fails { IfErr result (λ e. ReadFails (F.state flash.old) e (F.state flash.new)) }
{
    let page = index.page_back(l.index.at, l.index.kept - i);
    let state = look(flash, page, listing)?;
    if !is_committed(state) {
        return Ok(Some(seen));
    }
    let held = listing.bytes();
    let first = u64::from(first_in(held));
    if first < seen.end {
        return Ok(None);
    }
    let many = entries_in(held.len(), l.form);
    let has = has_entries(rows, flash, l, held, many, buf)?;
    if !has {
        return Ok(None);
    }
    Ok(Some(Seen {
        last: i,
        end: first + u64::from(many),
    }))
}

/// Looks for the oldest kept index page that breaks the rule, and answers which of the kept ones it is.
fn first_misentered<F: Flash>(
    index: &Ring,
    rows: &Ring,
    flash: &mut F,
    l: Indexing<'_>,
    listing: &mut PageBuf,
    buf: &mut PageBuf,
) -> Result<Option<u32>, FlashFault>
    requires index { LiesOn index.now (F.state flash.old) }
    requires rows { LiesOn rows.now (F.state flash.old) }
    requires listing { length listing.old.bytes ≡ (shape_of index.now).size }
    requires room { length buf.old.bytes ≡ (shape_of rows.now).size }
    requires index_within { AreWithin (shape_of index.now) l.index }
    requires rows_within { AreWithin (shape_of rows.now) l.rows.marks }
    requires some { 1 ≤ l.form.width }
    requires few { l.form.width ≤ 8 }
    ensures reads { OnlyReads (F.state flash.old) (l.entry.index.kept + l.entry.rows.marks.kept) (F.state flash.new) }
    ensures listing { length listing.new.bytes ≡ (shape_of index.now).size }
    ensures room { length buf.new.bytes ≡ (shape_of rows.now).size }
    ensures none { IfOk result (λ o. IsTrue (F.state flash.old).media.tells → IfNone o (HaveEntries (page_at (F.state flash.old)) (shape_of index.now) (shape_of rows.now) (over l.entry))) }
    ensures some { IfOk result (λ o. IsTrue (F.state flash.old).media.tells
        → IfSome o (FailsFirst (HasEntries (page_at (F.state flash.old)) (shape_of index.now) (shape_of rows.now) (over l.entry)) l.entry.index.kept)) }
    ensures within { IfOk result (λ o. IfSome o (λ i. i < l.entry.index.kept)) }
    ensures fails { IfErr result (λ e. ReadFails (F.state flash.old) e (F.state flash.new)) }
{
    let mut seen = Seen { last: 0, end: 0 };
    for i in 0..l.index.kept {
        let step = see_listing(index, rows, flash, l, i, seen, listing, buf)?;
        match step {
            None => return Ok(Some(i)),
            Some(more) => seen = more,
        }
    }
    let next = u64::from(l.rows.next);
    if next < seen.end {
        return Ok(Some(seen.last));
    }
    Ok(None)
}

/// Checks that the entries of the kept index pages tell of their data pages, that no two of these pages list the
/// same data page, and that the newest lists none that isn't written yet. Answers the oldest index page that breaks this.
/// Each kept page of the two rings is read at most once.
pub fn check_entries<F: Flash>(
    index: &Ring,
    rows: &Ring,
    flash: &mut F,
    l: Indexing<'_>,
    listing: &mut PageBuf,
    buf: &mut PageBuf,
) -> Result<Option<u32>, FlashFault>
    requires index { LiesOn index.now (F.state flash.old) }
    requires rows { LiesOn rows.now (F.state flash.old) }
    requires listing { length listing.old.bytes ≡ (shape_of index.now).size }
    requires room { length buf.old.bytes ≡ (shape_of rows.now).size }
    requires index_within { AreWithin (shape_of index.now) l.index }
    requires rows_within { AreWithin (shape_of rows.now) l.rows.marks }
    requires some { 1 ≤ l.form.width }
    requires few { l.form.width ≤ 8 }
    ensures reads { OnlyReads (F.state flash.old) (l.entry.index.kept + l.entry.rows.marks.kept) (F.state flash.new) }
    ensures listing { length listing.new.bytes ≡ (shape_of index.now).size }
    ensures room { length buf.new.bytes ≡ (shape_of rows.now).size }
    ensures none { IfOk result (λ o. IsTrue (F.state flash.old).media.tells → IfNone o (HaveEntries (page_at (F.state flash.old)) (shape_of index.now) (shape_of rows.now) (over l.entry))) }
    ensures some { IfOk result (λ o. IsTrue (F.state flash.old).media.tells → IfSome o (EntriesBreak (page_at (F.state flash.old)) (shape_of index.now) (shape_of rows.now) (over l.entry))) }
    ensures fails { IfErr result (λ e. ReadFails (F.state flash.old) e (F.state flash.new)) }
{
    let found = first_misentered(index, rows, flash, l, listing, buf)?;
    match found {
        Some(i) => {
            let page = index.page_back(l.index.at, l.index.kept - i);
            Ok(Some(page))
        }
        None => Ok(None),
    }
}
