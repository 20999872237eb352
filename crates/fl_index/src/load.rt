// The entries of the kept index pages, loaded page by page: the second part of a mount that reads each index page once.
ghost use Rattle.std.specs.Prelude.{◌≡◌, ◌+◌, ◌<◌, ◌≤◌, None, true, length, IsTrue, IfOk, IfErr, OnOk, OnErr};
ghost use Rattle.fl_flash.specs.Flash.{page_at, OffChangesNothing};
ghost use Rattle.fl_flash.specs.Media.{next_count};
ghost use Rattle.fl_frame.specs.Reads.{OnlyReads};
ghost use Rattle.fl_frame.specs.Causes.{ReadFails};

use crate::index::BitmapIndex;
use crate::page::{copy_entries, entry_len, first_in};
use fl_flash::{Flash, FlashFault, PageBuf};
use fl_page::BadPage;

/// What the load of a kept index page gives.
#[derive(Clone, Copy, Debug, PartialEq, Eq)]
pub enum Loaded {
    /// The page isn't committed, so it lists no data page.
    Nothing,
    /// It lists the data pages from this one on, whose entries are in memory now.
    Listing { first: u32 },
    /// It is committed and has another number or count than it has to. It lists no data page, though it says to list some from
    /// `first` on.
    Bad { first: u32, bad: BadPage },
}

impl BitmapIndex {
    ghost use Rattle.std.specs.Prelude.{ℕ};
    ghost use Rattle.fl_flash.specs.Flash.{FlashState};
    ghost use Rattle.fl_model.specs.Record.{Plan};
    ghost use Rattle.fl_model.specs.Table as model;
    ghost use Rattle.fl_index.specs.Finding.{pages_of};
    ghost use Rattle.fl_index.specs.Loading.{IsLoaded, Loads};
    ghost use Rattle.fl_index.specs.Memory.{first_in, is_running, next_in, oldest_in, place_in, waiting_in, IsSamePlan, IsSameRing, LiesOn};
    ghost use Rattle.fl_index.specs.Standing.{StandsForRing, StandsBelow};

    /// Loads the kept index page with this number, which is read once. Where it lists data pages, the first of them is
    /// remembered, and their entries are as if they waited, until the next load or `unload`: `waiting_entry` answers them. The
    /// entries of the page before are dropped. Loaded entries never wait for a seal: `unload` comes before the first `restart`,
    /// `note` or `make_room` of a mount. The buffer holds no page afterwards.
    ///
    /// # Errors
    ///
    /// Why the read failed. No entry is loaded then, and the first data pages that are remembered stay.
    pub fn load<F: Flash>(
        &mut self,
        number: u32,
        flash: &mut F,
        buf: &mut PageBuf,
    ) -> Result<Loaded, FlashFault>
        requires lies { LiesOn self.old (F.state flash.old) }
        requires room { length buf.old.bytes ≡ (F.state flash.old).geometry.page }
        requires kept { (oldest_in self.old ≤ number) × (number < next_in self.old) }
        ensures loaded { IfOk result (λ l. IsTrue (F.state flash.old).media.tells → IsLoaded self.old number (pages_of self.old (F.state flash.old) number) l self.new) }
        ensures stands { (first : ℕ) → (plan : Plan) → (table : model.Table) → IsTrue (F.state flash.old).media.tells → StandsBelow number self.old (F.state flash.old) first plan table
            → IfOk result (λ l. Loads first plan table number l self.new (F.state flash.new)) }
        ensures dropped { OnErr result ((waiting_in self.new ≡ 0) × ((n : ℕ) → first_in self.new n ≡ first_in self.old n)) }
        ensures others { (n : ℕ) → (place_in self.old n ≡ place_in self.old number → ⊥) → first_in self.new n ≡ first_in self.old n }
        ensures ring { (is_running self.new ≡ is_running self.old) × (oldest_in self.new ≡ oldest_in self.old) × (next_in self.new ≡ next_in self.old) }
        ensures same { IsSamePlan self.old self.new }
        ensures lies { LiesOn self.new (F.state flash.new) }
        ensures reads { OnlyReads (F.state flash.old) 1 (F.state flash.new) }
        ensures once { OnOk result ((F.state flash.new).work.reads ≡ next_count (F.state flash.old).work.reads) }
        ensures fails { IfErr result (λ e. ReadFails (F.state flash.old) e (F.state flash.new)) }
        ensures off { OffChangesNothing (F.state flash.old) result (F.state flash.new) }
        ensures power { OnOk result ((F.state flash.new).is_on ≡ true) }
        ensures room { length buf.new.bytes ≡ length buf.old.bytes }
        ensures holds { buf.new.holds ≡ None }
    {
        self.waiting = 0;
        let Some(ring) = &self.ring else {
            unreachable!()
        };
        let page = ring.place_of(number);
        let read = flash.read(page, buf);
        buf.forget();
        read?;
        Ok(self.take(number, buf.bytes()))
    }

    // Takes what an index page with these bytes lists.
    fn take(&mut self, number: u32, page: &[u8]) -> Loaded
        requires none { waiting_in self.old ≡ 0 }
        requires size { length page.now ≡ self.old.geometry.page }
        ensures loaded { IsLoaded self.old number page.now result self.new }
        ensures others { (n : ℕ) → (place_in self.old n ≡ place_in self.old number → ⊥) → first_in self.new n ≡ first_in self.old n }
        ensures still { self.new.ring ≡ self.old.ring }
        ensures same { IsSamePlan self.old self.new }
    {
        let at = number as usize % self.firsts.len();
        self.firsts[at] = None;
        let first = first_in(page);
        match self.is_listing(number, page) {
            Err(bad) => return Loaded::Bad { first, bad },
            Ok(false) => return Loaded::Nothing,
            Ok(true) => {}
        }
        let capacity = self.capacity();
        let bytes = capacity as usize * entry_len(self.form());
        copy_entries(&mut self.body, page, bytes);
        self.firsts[at] = Some(first);
        self.first = first;
        self.waiting = capacity.min(u32::MAX - first);
        Loaded::Listing { first }
    }

    /// Drops the entries that were loaded. Where each kept index page was loaded, the first data page of each is known then.
    pub fn unload(&mut self)
        ensures none { waiting_in self.new ≡ 0 }
        ensures same { IsSamePlan self.old self.new }
        ensures still { IsSameRing self.old self.new }
        ensures lies { (f : FlashState) → LiesOn self.old f → LiesOn self.new f }
        ensures ring { (f : FlashState) → (first : ℕ) → (plan : Plan) → (table : model.Table) → StandsBelow (next_in self.old) self.old f first plan table → StandsForRing self.new f first plan table }
    {
        self.waiting = 0;
    }
}
