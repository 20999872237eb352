// What a ring's pages say of its numbers.
ghost use Rattle.std.specs.Prelude.{◌≡◌, ◌<◌, ◌≤◌, ◌+◌, ◌*◌, ◌^◌, ℕ, true, false, Err, length, IsTrue, IfOk, IfErr, OnOk, IfSome, IfNone, Some, None};
ghost use Rattle.fl_flash.specs.Flash.{page_at, OffChangesNothing};
ghost use Rattle.fl_ring.specs.Causes.{IfFlash};
ghost use Rattle.fl_ring.specs.Finding.{kept_pages, IsFound, FoundFault};
ghost use Rattle.fl_ring.specs.Front.{IsFront, FrontFault};
ghost use Rattle.fl_ring.specs.Head.{page_in, counts_full};
ghost use Rattle.fl_ring.specs.Looking.{state_at};
ghost use Rattle.fl_frame.specs.Reads.{OnlyReads};
ghost use Rattle.fl_frame.specs.Causes.{ReadFails};
ghost use Rattle.fl_ring.specs.Newest.{commits, back_from, page_back, NoneBefore, IsNewest, NewestAmong};
ghost use Rattle.fl_ring.specs.Numbers.{next_by, NumbersFit, number_fault, voids_at_end};
ghost use Rattle.fl_ring.specs.Place.{shape_of, LiesOn};
ghost use Rattle.fl_ring.specs.Ring.{RingState, OnRing};
ghost use Rattle.fl_ring.specs.Scan.{Scanned};
ghost use Rattle.fl_ring.specs.declared.fault.RingFault.{RingFault};
ghost use Rattle.fl_flash.specs.declared.flash.FlashFault.{FlashFault};

use crate::fault::RingFault;
use crate::front::Front;
use crate::newest::{Newest, NewestPage, newest_page};
use crate::numbers::Numbers;
use crate::page_state::{is_committed, is_sealed, look};
use crate::ring::Ring;
use crate::scan::Scan;
use fl_base::get_u32;
use fl_flash::{Flash, FlashFault, PageBuf};

impl Ring {
    /// The flash page of page i of a block of the ring.
    pub fn page_in(&self, block: u32, i: u32) -> u32
        requires block { block < self.now.blocks }
        requires page { i < self.now.per_block }
        ensures page { result ≡ page_in (shape_of self.now) block i }
        ensures within { result < (self.now.first_block + self.now.blocks) * self.now.per_block }
    {
        self.first_block * self.per_block + (block * self.per_block + i)
    }

    /// Looks at the last page of each block.
    pub fn scan_blocks<F: Flash>(
        &self,
        flash: &mut F,
        buf: &mut PageBuf,
    ) -> Result<Scan, FlashFault>
        requires lies { LiesOn self.now (F.state flash.old) }
        requires room { length buf.old.bytes ≡ self.now.size }
        ensures reads { OnlyReads (F.state flash.old) self.now.blocks (F.state flash.new) }
        ensures room { length buf.new.bytes ≡ self.now.size }
        ensures scanned { IfOk result (λ s. IsTrue (F.state flash.old).media.tells → Scanned (counts_full (shape_of self.now) (page_at (F.state flash.old))) self.now.blocks self.now.blocks s) }
        ensures head { IfOk result (λ s. s.head < self.now.blocks) }
        ensures fulls { IfOk result (λ s. s.fulls ≤ self.now.blocks) }
        ensures ends { IfOk result (λ s. s.ends ≤ self.now.blocks) }
        ensures fails { IfErr result (λ e. ReadFails (F.state flash.old) e (F.state flash.new)) }
        ensures off { OffChangesNothing (F.state flash.old) result (F.state flash.new) }
        ensures power { OnOk result ((F.state flash.new).is_on ≡ true) }
    {
        let mut scan = Scan::new();
        for b in 0..self.blocks {
            let page = self.page_in(b, self.per_block - 1);
            let state = look(flash, page, buf)?;
            scan.step(b, is_sealed(state));
        }
        Ok(scan)
    }

    /// Looks at each page of the head block.
    pub(crate) fn read_head<F: Flash>(
        &self,
        flash: &mut F,
        head: u32,
        buf: &mut PageBuf,
    ) -> Result<Front, RingFault>
        requires lies { LiesOn self.now (F.state flash.old) }
        requires room { length buf.old.bytes ≡ self.now.size }
        requires head { head < self.now.blocks }
        ensures reads { OnlyReads (F.state flash.old) self.now.per_block (F.state flash.new) }
        ensures room { length buf.new.bytes ≡ self.now.size }
        ensures front { IfOk result (λ f. IsTrue (F.state flash.old).media.tells → IsFront (λ i. state_at (F.state flash.old) (page_in (shape_of self.now) head i)) self.now.per_block self.now.per_block f) }
        ensures below { IfOk result (λ f. f.sealed < self.now.per_block) }
        ensures fault { IfErr result (λ e. FrontFault (F.state flash.old) (shape_of self.now) head e) }
        ensures fails { IfErr result (λ e. IfFlash (λ fault. ReadFails (F.state flash.old) fault (F.state flash.new)) e) }
        ensures power { OnOk result ((F.state flash.new).is_on ≡ true) }
    {
        let mut front = Front::new();
        for i in 0..self.per_block {
            let page = self.page_in(head, i);
            let state = look(flash, page, buf)?;
            if !front.step(i, self.per_block, state) {
                return Err(RingFault::BadGap { page });
            }
        }
        Ok(front)
    }

    /// The place in the ring so many pages before a place.
    pub fn back_from(&self, at: u32, back: u32) -> u32
        requires place { at < self.now.blocks * self.now.per_block }
        requires some { 1 ≤ back }
        requires few { back ≤ self.now.blocks * self.now.per_block }
        ensures place { result ≡ back_from (shape_of self.now) at back }
        ensures within { result < self.now.blocks * self.now.per_block }
    {
        if back <= at {
            return at - back;
        }
        at + (self.blocks * self.per_block - back)
    }

    /// The flash page there.
    pub fn page_back(&self, at: u32, back: u32) -> u32
        requires place { at < self.now.blocks * self.now.per_block }
        requires some { 1 ≤ back }
        requires few { back ≤ self.now.blocks * self.now.per_block }
        ensures page { result ≡ page_back (shape_of self.now) at back }
        ensures within { result < (self.now.first_block + self.now.blocks) * self.now.per_block }
    {
        self.first_block * self.per_block + self.back_from(at, back)
    }

    /// Looks for the newest committed page among the kept ones. Where there is one, it stands in the buffer.
    pub fn find_newest<F: Flash>(
        &self,
        flash: &mut F,
        at: u32,
        kept: u32,
        buf: &mut PageBuf,
    ) -> Result<Option<Newest>, FlashFault>
        requires lies { LiesOn self.now (F.state flash.old) }
        requires room { length buf.old.bytes ≡ self.now.size }
        requires place { at < self.now.blocks * self.now.per_block }
        requires few { kept < self.now.blocks * self.now.per_block }
        ensures reads { OnlyReads (F.state flash.old) kept (F.state flash.new) }
        ensures soon { IsTrue (F.state flash.old).media.tells → (k : ℕ) → 1 ≤ k → k ≤ kept → commits (state_at (F.state flash.old) (page_back (shape_of self.now) at k)) ≡ true
            → (F.state flash.new).work.reads ≤ (F.state flash.old).work.reads + k }
        ensures room { length buf.new.bytes ≡ self.now.size }
        ensures none { IfOk result (λ o. IsTrue (F.state flash.old).media.tells → IfNone o (NoneBefore (page_at (F.state flash.old)) (shape_of self.now) at (kept + 1))) }
        ensures newest { IfOk result (λ o. IsTrue (F.state flash.old).media.tells → IfSome o (λ n. IsNewest (page_at (F.state flash.old)) (shape_of self.now) at kept n)) }
        ensures within { IfOk result (λ o. IfSome o (λ n. (1 ≤ n.back) × (n.back ≤ kept))) }
        ensures held { IfOk result (λ o. IsTrue (F.state flash.old).media.tells → IfSome o (λ n. buf.new.bytes ≡ page_at (F.state flash.old) (page_back (shape_of self.now) at n.back))) }
        ensures fails { IfErr result (λ e. ReadFails (F.state flash.old) e (F.state flash.new)) }
    {
        for back in 1..kept + 1 {
            let page = self.page_back(at, back);
            let state = look(flash, page, buf)?;
            if is_committed(state) {
                let number = get_u32(buf.bytes(), 0);
                return Ok(Some(Newest { back, number }));
            }
        }
        Ok(None)
    }

    fn number_by(&self, at: u32, kept: u32, newest: Newest, torn: bool) -> Result<u32, RingFault>
        requires place { at < self.now.blocks * self.now.per_block }
        requires few { kept < self.now.blocks * self.now.per_block }
        requires some { 1 ≤ newest.back }
        requires within { newest.back ≤ kept }
        ensures ok { IfOk result (λ n. (n ≡ newest.number + newest.back) × (NumbersFit (shape_of self.now) at kept 0 torn (Some newest))) }
        ensures kept { IfOk result (λ n. kept ≤ n) }
        ensures err { IfErr result (λ e. ((NumbersFit (shape_of self.now) at kept 0 torn (Some newest)) → ⊥) × (e ≡ number_fault (shape_of self.now) at 0 (Some newest))) }
    {
        let wanted = self.back_from(at, newest.back);
        let fault = RingFault::BadPage {
            page: self.page_back(at, newest.back),
            wanted,
            found: newest.number,
        };
        let next = newest.number as u64 + newest.back as u64;
        if newest.number % (self.blocks * self.per_block) != wanted {
            return Err(fault);
        }
        if next < kept as u64 {
            return Err(fault);
        }
        if next + torn as u64 > 4294967295 {
            return Err(fault);
        }
        Ok(next as u32)
    }

    fn number_from(&self, at: u32, kept: u32, at_least: u32, torn: bool) -> Result<u32, RingFault>
        requires place { at < self.now.blocks * self.now.per_block }
        requires few { kept < self.now.blocks * self.now.per_block }
        ensures ok { IfOk result (λ n. (n ≡ next_by (shape_of self.now) at kept at_least None) × (NumbersFit (shape_of self.now) at kept at_least torn None)) }
        ensures kept { IfOk result (λ n. kept ≤ n) }
        ensures err { IfErr result (λ e. ((NumbersFit (shape_of self.now) at kept at_least torn None) → ⊥) × (e ≡ number_fault (shape_of self.now) at at_least None)) }
    {
        let room = self.blocks as u64 * self.per_block as u64;
        let least = at_least as u64 + kept as u64;
        let next = least + (at as u64 + room - least % room) % room;
        if next + torn as u64 > 4294967295 {
            return Err(RingFault::NoNumber { at_least });
        }
        Ok(next as u32)
    }

    /// The number of the next page, which stands at this place.
    pub fn next_by(
        &self,
        at: u32,
        kept: u32,
        at_least: u32,
        newest: Option<Newest>,
        torn: bool,
    ) -> Result<u32, RingFault>
        requires place { at < self.now.blocks * self.now.per_block }
        requires few { kept < self.now.blocks * self.now.per_block }
        requires within { IfSome newest (λ n. (1 ≤ n.back) × (n.back ≤ kept)) }
        ensures ok { IfOk result (λ n. (n ≡ next_by (shape_of self.now) at kept at_least newest) × NumbersFit (shape_of self.now) at kept at_least torn newest) }
        ensures kept { IfOk result (λ n. kept ≤ n) }
        ensures err { IfErr result (λ e. (NumbersFit (shape_of self.now) at kept at_least torn newest → ⊥) × (e ≡ number_fault (shape_of self.now) at at_least newest)) }
    {
        match newest {
            Some(n) => self.number_by(at, kept, n, torn),
            None => self.number_from(at, kept, at_least, torn),
        }
    }

    /// The kept pages, where so many blocks are full and so many pages of the head are sealed.
    pub fn kept_pages(&self, fulls: u32, sealed: u32) -> u32
        requires fulls { fulls ≤ self.now.blocks }
        requires sealed { sealed < self.now.per_block }
        ensures pages { result ≡ kept_pages (shape_of self.now) fulls sealed }
        ensures within { result < self.now.blocks * self.now.per_block }
    {
        let most = if sealed == self.per_block - 1 {
            self.blocks - 2
        } else {
            self.blocks - 1
        };
        fulls.min(most) * self.per_block + sealed
    }

    /// Finds the numbers by the marks of the pages and the newest committed page, and that page.
    pub(crate) fn find_numbers<F: Flash>(
        &self,
        flash: &mut F,
        at_least: u32,
        buf: &mut PageBuf,
    ) -> Result<(Numbers, Option<NewestPage>), RingFault>
        requires lies { LiesOn self.now (F.state flash.old) }
        requires room { length buf.old.bytes ≡ self.now.size }
        ensures reads { OnlyReads (F.state flash.old) (self.now.blocks + self.now.per_block + self.now.blocks * self.now.per_block) (F.state flash.new) }
        ensures room { length buf.new.bytes ≡ self.now.size }
        ensures ordered { IfOk result (λ n. n.0.oldest ≤ n.0.next) }
        ensures left { IfOk result (λ n. n.0.torn ≡ true → n.0.next + 1 < 2 ^ 32) }
        ensures found { IfOk result (λ n. IsTrue (F.state flash.old).media.tells → IsFound (F.state flash.old) (shape_of self.now) at_least n.0) }
        ensures newest { IfOk result (λ n. IsTrue (F.state flash.old).media.tells → NewestAmong (page_at (F.state flash.old)) (shape_of self.now) n.0.oldest n.0.next n.1) }
        ensures few_reads { (s : RingState) → IsTrue (F.state flash.old).media.tells → OnRing (shape_of self.now) (page_at (F.state flash.old)) s
            → (F.state flash.new).work.reads ≤ (F.state flash.old).work.reads + (self.now.blocks + self.now.per_block + (voids_at_end s.kept + 1)) }
        ensures fault { IfErr result (λ e. FoundFault (F.state flash.old) (shape_of self.now) at_least e) }
        ensures fails { IfErr result (λ e. IfFlash (λ fault. ReadFails (F.state flash.old) fault (F.state flash.new)) e) }
        ensures off { (F.state flash.old).is_on ≡ false → (result ≡ Err (RingFault.Flash FlashFault.PowerLost)) × ((F.state flash.new) ≡ F.state flash.old) }
        ensures power { OnOk result ((F.state flash.new).is_on ≡ true) }
    {
        let scan = self.scan_blocks(flash, buf)?;
        let heads = scan.heads();
        if heads != 1 {
            return Err(RingFault::BadHead { heads });
        }
        let front = self.read_head(flash, scan.head(), buf)?;
        let kept = self.kept_pages(scan.fulls(), front.sealed);
        let place = scan.head() * self.per_block + front.sealed;
        let newest = self.find_newest(flash, place, kept, buf)?;
        let page = newest_page(newest, buf.bytes());
        let next = self.next_by(place, kept, at_least, newest, front.torn)?;
        let numbers = Numbers {
            oldest: next - kept,
            next,
            torn: front.torn,
        };
        Ok((numbers, page))
    }
}
