// A lookup of a data page's entry.
ghost use Rattle.std.specs.Prelude.{◌≡◌, ◌⊎◌, ◌+◌, ◌-◌, ◌*◌, ◌^◌, ◌<◌, ◌≤◌, None, Some, Ok, Err, true, false, length, IsTrue, IfSome, IfOk, IfErr, OnOk, OnErr, if◌then◌else◌, unwrap_or};
ghost use Rattle.fl_flash.specs.Flash.{page_at};
ghost use Rattle.fl_flash.specs.Media.{next_count};
ghost use Rattle.fl_frame.specs.Contents as contents;
ghost use Rattle.fl_page.specs.Causes.{IsCaused};
ghost use Rattle.fl_page.specs.declared.fault.ReadFault.TheVariants as fault;
ghost use Rattle.fl_frame.specs.Reads.{OnlyReads};
ghost use Rattle.fl_ring.specs.Place.{shape_of, LiesOn as LiesIn};
ghost use Rattle.fl_ring.specs.Ring.{place};
ghost use Rattle.fl_mark.specs.Mark.{state_of_page};
ghost use Rattle.fl_mark.specs.declared.page_state.PageState.TheVariants.{Committed};
ghost use Rattle.fl_index.specs.Looking.{bad_page, bitmap_found};
ghost use Rattle.fl_index.specs.Page.{page_number, IsGoodPage};

use crate::index::BitmapIndex;
use crate::page::{Found, count_in, found_in, number_in};
use fl_flash::{Flash, FlashFault, PageBuf};
use fl_mark::{PageState, state_of};
use fl_page::{BadPage, ReadFault};
use fl_ring::Ring;

/// The kept index page that lists a data page, and the place of that one's entry among its entries.
#[derive(Clone, Copy)]
struct Listing {
    page: u32,
    entry: usize,
}

impl BitmapIndex {
    ghost use Rattle.std.specs.Prelude.{ℕ, List, ◌∷◌};
    ghost use Rattle.std.specs.List.{AllByRecursion};
    ghost use Rattle.fl_model.specs.Record.{Plan};
    ghost use Rattle.fl_model.specs.Table as model;
    ghost use Rattle.fl_index.specs.Looking.{looked_at, listing_by, held_lists, entry_of, entire, bitmap_alone, HasEntry, IsFound, IsHeld, IsFresh, IfRead, IfUnread, ByMemory, ShowsBitmap, ShowsEntry, bitmap_found, IsScanning, ScansOn, HoldsGood, IsBadPage, IfBad, due, next_to_read, unread};
    ghost use Rattle.fl_index.specs.Memory.{first_in, first_waiting, found_waiting, is_waiting, listing_in, lists, oldest_in, per_page, place_in, LiesOn};
    ghost use Rattle.fl_index.specs.Standing.{Stands};

    /// The entry of a data page, and none where it doesn't wait and no kept index page lists it. The index page that
    /// lists it is read, unless the buffer holds it; so over ascending numbers each index page is read once.
    pub fn entry_of<F: Flash>(
        &self,
        flash: &mut F,
        number: u32,
        buf: &mut PageBuf,
    ) -> Result<Option<Found>, ReadFault>
        requires lies { LiesOn self.now (F.state flash.old) }
        requires room { length buf.old.bytes ≡ (F.state flash.old).geometry.page }
        ensures reads { OnlyReads (F.state flash.old) 1 (F.state flash.new) }
        ensures counts { contents.OnlyReads (F.state flash.old) (F.state flash.new) }
        ensures room { length buf.new.bytes ≡ length buf.old.bytes }

        // An entry that waits, and that of a data page that no index page lists, need no look ..
        ensures memory { looked_at self.now number buf.old ≡ None → ByMemory entire self.now number (F.state flash.old) buf.old result (F.state flash.new) buf.new }

        // .. and any other one is looked up in the one index page that lists it, which isn't read where the buffer holds it.
        ensures found { IfSome (looked_at self.now number buf.old) (λ listing. IsFound entire self.now listing number buf.new.bytes result) }
        ensures page { IfSome (looked_at self.now number buf.old) (λ listing. IsTrue (F.state flash.old).media.tells → IsFresh self.now (F.state flash.old) buf.old →
            IfRead result (buf.new.bytes ≡ page_at (F.state flash.old) (place_in self.now listing))) }
        ensures holds { IfSome (looked_at self.now number buf.old) (λ listing. IfRead result (buf.new.holds ≡ Some (place_in self.now listing))) }
        ensures held { IfSome (looked_at self.now number buf.old) (λ listing. IsHeld self.now listing buf.old → ((F.state flash.new) ≡ F.state flash.old) × (buf.new ≡ buf.old)) }
        ensures read { IfSome (looked_at self.now number buf.old) (λ listing. (buf.old.holds ≡ Some (place_in self.now listing) → page_number buf.old.bytes ≡ listing → ⊥) →
            IfRead result ((F.state flash.new).work.reads ≡ next_count (F.state flash.old).work.reads)) }
        ensures fresh { IsTrue (F.state flash.old).media.tells → IsFresh self.now (F.state flash.old) buf.old → IsFresh self.now (F.state flash.new) buf.new }

        ensures stands { (first : ℕ) → (plan : Plan) → (table : model.Table) → IsTrue (F.state flash.old).media.tells → Stands self.now (F.state flash.old) first plan table →
            IsFresh self.now (F.state flash.old) buf.old → ShowsEntry plan table number result }
        ensures scans { (first : ℕ) → (plan : Plan) → (table : model.Table) → (from : ℕ) → IsTrue (F.state flash.old).media.tells → Stands self.now (F.state flash.old) first plan table →
            IsFresh self.now (F.state flash.old) buf.old → IsScanning self.now number from buf.old → OnOk result (ScansOn self.now number from (F.state flash.old) (F.state flash.new) buf.new) }
        ensures most { (first : ℕ) → (plan : Plan) → (table : model.Table) → (from : ℕ) → IsTrue (F.state flash.old).media.tells → Stands self.now (F.state flash.old) first plan table →
            IsFresh self.now (F.state flash.old) buf.old → IsScanning self.now number from buf.old → (F.state flash.new).work.reads ≤ (F.state flash.old).work.reads + unread self.now number from }
        ensures least { (first : ℕ) → (plan : Plan) → (table : model.Table) → (from : ℕ) → (numbers : List ℕ) → IsTrue (F.state flash.old).media.tells → Stands self.now (F.state flash.old) first plan table →
            IsFresh self.now (F.state flash.old) buf.old → IsScanning self.now number from buf.old → AllByRecursion (λ n. number ≤ n) numbers → (F.state flash.new).work.reads < 2 ^ 64 - 1 →
            OnOk result ((F.state flash.old).work.reads + due self.now (number ∷ numbers) from ≤ (F.state flash.new).work.reads + due self.now numbers (next_to_read self.now buf.new)) }

        // A scan that begins anew after a fault has no more left to read than before it.
        ensures again { (first : ℕ) → (plan : Plan) → (table : model.Table) → (from : ℕ) → IsTrue (F.state flash.old).media.tells → Stands self.now (F.state flash.old) first plan table →
            IsFresh self.now (F.state flash.old) buf.old → IsScanning self.now number from buf.old → OnErr result (unread self.now number (oldest_in self.now) ≤ unread self.now number from) }

        // A page that is held isn't bad, and a bad one that is answered stands on the flash.
        ensures good { HoldsGood self.now buf.old → OnOk result (HoldsGood self.now buf.new) }
        ensures bad { IfErr result (IfBad (λ bad. IsTrue (F.state flash.old).media.tells → HoldsGood self.now buf.old → IsBadPage self.now (F.state flash.old) bad)) }
        ensures cause { IfErr result (λ fault. IsCaused (F.state flash.old) fault (F.state flash.new)) }
        ensures unread { IfErr result (IfUnread (λ e. buf.new.holds ≡ None)) }
    {
        if let Some(found) = self.waiting_entry(number) {
            return Ok(Some(found));
        }
        let Some(ring) = &self.ring else {
            return Ok(None);
        };
        let Some(listing) = self.listing(ring, number, buf) else {
            return Ok(None);
        };
        if let Err(fault) = hold(ring, listing.page, flash, buf) {
            return Err(ReadFault::Flash(fault));
        }
        self.listed(listing, buf.bytes())
    }

    /// The bitmap of a data page, and none where it doesn't wait and no kept index page lists it. It is found as the entry is.
    pub fn bitmap_of<F: Flash>(
        &self,
        flash: &mut F,
        number: u32,
        buf: &mut PageBuf,
    ) -> Result<Option<u64>, ReadFault>
        requires lies { LiesOn self.now (F.state flash.old) }
        requires room { length buf.old.bytes ≡ (F.state flash.old).geometry.page }
        ensures reads { OnlyReads (F.state flash.old) 1 (F.state flash.new) }
        ensures counts { contents.OnlyReads (F.state flash.old) (F.state flash.new) }
        ensures room { length buf.new.bytes ≡ length buf.old.bytes }

        // A bitmap that waits, and that of a data page that no index page lists, need no look ..
        ensures memory { looked_at self.now number buf.old ≡ None → ByMemory bitmap_alone self.now number (F.state flash.old) buf.old result (F.state flash.new) buf.new }

        // .. and any other one is looked up in the one index page that lists it, which isn't read where the buffer holds it.
        ensures found { IfSome (looked_at self.now number buf.old) (λ listing. IsFound bitmap_alone self.now listing number buf.new.bytes result) }
        ensures page { IfSome (looked_at self.now number buf.old) (λ listing. IsTrue (F.state flash.old).media.tells → IsFresh self.now (F.state flash.old) buf.old →
            IfRead result (buf.new.bytes ≡ page_at (F.state flash.old) (place_in self.now listing))) }
        ensures holds { IfSome (looked_at self.now number buf.old) (λ listing. IfRead result (buf.new.holds ≡ Some (place_in self.now listing))) }
        ensures held { IfSome (looked_at self.now number buf.old) (λ listing. IsHeld self.now listing buf.old → ((F.state flash.new) ≡ F.state flash.old) × (buf.new ≡ buf.old)) }
        ensures read { IfSome (looked_at self.now number buf.old) (λ listing. (buf.old.holds ≡ Some (place_in self.now listing) → page_number buf.old.bytes ≡ listing → ⊥) →
            IfRead result ((F.state flash.new).work.reads ≡ next_count (F.state flash.old).work.reads)) }
        ensures fresh { IsTrue (F.state flash.old).media.tells → IsFresh self.now (F.state flash.old) buf.old → IsFresh self.now (F.state flash.new) buf.new }

        ensures stands { (first : ℕ) → (plan : Plan) → (table : model.Table) → IsTrue (F.state flash.old).media.tells → Stands self.now (F.state flash.old) first plan table →
            IsFresh self.now (F.state flash.old) buf.old → ShowsBitmap plan table number result }
        ensures scans { (first : ℕ) → (plan : Plan) → (table : model.Table) → (from : ℕ) → IsTrue (F.state flash.old).media.tells → Stands self.now (F.state flash.old) first plan table →
            IsFresh self.now (F.state flash.old) buf.old → IsScanning self.now number from buf.old → OnOk result (ScansOn self.now number from (F.state flash.old) (F.state flash.new) buf.new) }
        ensures most { (first : ℕ) → (plan : Plan) → (table : model.Table) → (from : ℕ) → IsTrue (F.state flash.old).media.tells → Stands self.now (F.state flash.old) first plan table →
            IsFresh self.now (F.state flash.old) buf.old → IsScanning self.now number from buf.old → (F.state flash.new).work.reads ≤ (F.state flash.old).work.reads + unread self.now number from }
        ensures least { (first : ℕ) → (plan : Plan) → (table : model.Table) → (from : ℕ) → (numbers : List ℕ) → IsTrue (F.state flash.old).media.tells → Stands self.now (F.state flash.old) first plan table →
            IsFresh self.now (F.state flash.old) buf.old → IsScanning self.now number from buf.old → AllByRecursion (λ n. number ≤ n) numbers → (F.state flash.new).work.reads < 2 ^ 64 - 1 →
            OnOk result ((F.state flash.old).work.reads + due self.now (number ∷ numbers) from ≤ (F.state flash.new).work.reads + due self.now numbers (next_to_read self.now buf.new)) }

        // A scan that begins anew after a fault has no more left to read than before it.
        ensures again { (first : ℕ) → (plan : Plan) → (table : model.Table) → (from : ℕ) → IsTrue (F.state flash.old).media.tells → Stands self.now (F.state flash.old) first plan table →
            IsFresh self.now (F.state flash.old) buf.old → IsScanning self.now number from buf.old → OnErr result (unread self.now number (oldest_in self.now) ≤ unread self.now number from) }

        // A page that is held isn't bad, and a bad one that is answered stands on the flash.
        ensures good { HoldsGood self.now buf.old → OnOk result (HoldsGood self.now buf.new) }
        ensures bad { IfErr result (IfBad (λ bad. IsTrue (F.state flash.old).media.tells → HoldsGood self.now buf.old → IsBadPage self.now (F.state flash.old) bad)) }
        ensures cause { IfErr result (λ fault. IsCaused (F.state flash.old) fault (F.state flash.new)) }
        ensures unread { IfErr result (IfUnread (λ e. buf.new.holds ≡ None)) }
    {
        match self.entry_of(flash, number, buf) {
            Ok(found) => Ok(bitmap_found(found)),
            Err(fault) => Err(fault),
        }
    }

    /// The kept index page that lists a data page: that in the buffer, where it does, or else the first one. So a scan
    /// searches for an index page only where it comes to another one.
    fn listing(&self, ring: &Ring, number: u32, buf: &PageBuf) -> Option<Listing>
        requires mine { self.now.ring ≡ Some ring.now }
        requires room { 16 ≤ length buf.now.bytes }
        ensures none { result ≡ None → listing_by self.now number buf.now ≡ None }
        ensures some { IfSome result (λ l. (listing_by self.now number buf.now ≡ Some l.page) × HasEntry self.now number l.page l.entry) }
    {
        if let Some(listing) = self.held_listing(ring, number, buf) {
            return Some(listing);
        }
        self.first_listing(ring, number)
    }

    /// The kept index page in the buffer, if it lists a data page.
    fn held_listing(&self, ring: &Ring, number: u32, buf: &PageBuf) -> Option<Listing>
        requires mine { self.now.ring ≡ Some ring.now }
        requires room { 16 ≤ length buf.now.bytes }
        ensures none { result ≡ None → held_lists self.now number buf.now ≡ false }
        ensures some { IfSome result (λ l. (held_lists self.now number buf.now ≡ true) × (l.page ≡ page_number buf.now.bytes) × HasEntry self.now number l.page l.entry) }
    {
        let page = number_in(buf.bytes());
        if page < ring.oldest() || ring.next_number() <= page {
            return None;
        }
        if buf.holds() != Some(ring.place_of(page)) {
            return None;
        }
        self.listing_on(page, number)
    }

    /// The first kept index page that lists a data page.
    fn first_listing(&self, ring: &Ring, number: u32) -> Option<Listing>
        requires mine { self.now.ring ≡ Some ring.now }
        ensures none { result ≡ None → listing_in self.now number ≡ None }
        ensures some { IfSome result (λ l. (listing_in self.now number ≡ Some l.page) × HasEntry self.now number l.page l.entry) }
    {
        for page in ring.oldest()..ring.next_number() {
            if let Some(listing) = self.listing_on(page, number) {
                return Some(listing);
            }
        }
        None
    }

    /// The index page with this number, if it lists a data page.
    fn listing_on(&self, page: u32, number: u32) -> Option<Listing>
        ensures none { result ≡ None → lists (per_page self.now) number (first_in self.now page) ≡ false }
        ensures some { IfSome result (λ l. (l.page ≡ page) × HasEntry self.now number page l.entry) }
    {
        let first = self.firsts[page as usize % self.firsts.len()];
        match first {
            Some(first) if first <= number && number - first < self.capacity() => {
                let entry = (number - first) as usize;
                Some(Listing { page, entry })
            }
            _ => None,
        }
    }

    /// The entry at a place of an index page with these bytes.
    fn listed(&self, listing: Listing, bytes: &[u8]) -> Result<Option<Found>, ReadFault>
        requires size { length bytes.now ≡ self.now.geometry.page }
        requires within { listing.entry < per_page self.now }
        ensures found { (number : ℕ) → listing.entry ≡ entry_of self.now listing.page number → IsFound entire self.now listing.page number bytes.now result }
        ensures no_flash { IfErr result (IfUnread (λ e. ⊥)) }
    {
        match self.is_listing(listing.page, bytes) {
            Ok(false) => Ok(None),
            Ok(true) => Ok(Some(found_in(bytes, self.form(), listing.entry))),
            Err(bad) => Err(ReadFault::BadPage(bad)),
        }
    }

    /// Whether the kept index page with this number lists data pages, by its bytes. A committed one has to have its number
    /// and its count.
    pub(crate) fn is_listing(&self, number: u32, page: &[u8]) -> Result<bool, BadPage>
        requires size { length page.now ≡ self.now.geometry.page }
        ensures none { IfOk result (λ b. b ≡ false → state_of_page page.now ≡ Committed → ⊥) }
        ensures some { IfOk result (λ b. b ≡ true → (state_of_page page.now ≡ Committed) × IsGoodPage (per_page self.now) number page.now) }
        ensures bad { IfErr result (λ bad. (state_of_page page.now ≡ Committed) × (IsGoodPage (per_page self.now) number page.now → ⊥) × (bad ≡ bad_page number page.now)) }
    {
        let PageState::Committed = state_of(page) else {
            return Ok(false);
        };
        let found = number_in(page);
        let count = u32::from(count_in(page));
        if found != number || count != self.capacity() {
            return Err(BadPage {
                wanted: number,
                found,
                count,
            });
        }
        Ok(true)
    }
}

/// The bitmap of an entry, where there is one.
fn bitmap_found(found: Option<Found>) -> Option<u64>
    ensures { result ≡ bitmap_found found }
{
    match found {
        Some(found) => Some(found.bitmap),
        None => None,
    }
}

/// The buffer holds the page with this number of the ring: it is read where it isn't there.
fn hold<F: Flash>(
    ring: &Ring,
    number: u32,
    flash: &mut F,
    buf: &mut PageBuf,
) -> Result<(), FlashFault>
    requires lies { LiesIn ring.now (F.state flash.old) }
    requires room { length buf.old.bytes ≡ (F.state flash.old).geometry.page }
    ensures reads { OnlyReads (F.state flash.old) 1 (F.state flash.new) }
    ensures counts { contents.OnlyReads (F.state flash.old) (F.state flash.new) }
    ensures room { length buf.new.bytes ≡ length buf.old.bytes }
    ensures held { buf.old.holds ≡ Some (place (shape_of ring.now) number) → page_number buf.old.bytes ≡ number → ((F.state flash.new) ≡ F.state flash.old) × (buf.new ≡ buf.old) }
    ensures holds { OnOk result (buf.new.holds ≡ Some (place (shape_of ring.now) number)) }
    ensures page { OnOk result (IsTrue (F.state flash.old).media.tells →
        (buf.new.bytes ≡ page_at (F.state flash.old) (place (shape_of ring.now) number)) ⊎ ((buf.old.holds ≡ Some (place (shape_of ring.now) number)) × (page_number buf.old.bytes ≡ number) × (buf.new ≡ buf.old))) }
    ensures read { OnOk result ((buf.old.holds ≡ Some (place (shape_of ring.now) number) → page_number buf.old.bytes ≡ number → ⊥) → (F.state flash.new).work.reads ≡ next_count (F.state flash.old).work.reads) }
    ensures none { OnErr result (buf.new.holds ≡ None) }
    ensures cause { IfErr result (λ e. IsCaused (F.state flash.old) (fault.Flash e) (F.state flash.new)) }
{
    let page = ring.place_of(number);
    if buf.holds() == Some(page) && number_in(buf.bytes()) == number {
        return Ok(());
    }
    flash.read(page, buf)
}
