// The entries that wait for their page.
ghost use Rattle.std.specs.Prelude.{◌≡◌, ◌+◌, ◌-◌, ◌%◌, ◌^◌, ◌<◌, true, if◌then◌else◌, Some, None};
ghost use Rattle.fl_index.specs.Page.{full_view};

use crate::index::BitmapIndex;
use crate::page::{Found, Full, found_in, write_entry};

impl BitmapIndex {
    ghost use Rattle.std.specs.Prelude.{ℕ, List, [], ◌∷◌, ◌++◌};
    ghost use Rattle.fl_flash.specs.Flash.{FlashState};
    ghost use Rattle.fl_model.specs.Layout.{IndexEntry};
    ghost use Rattle.fl_model.specs.Record.{Plan};
    ghost use Rattle.fl_model.specs.Table as model;
    ghost use Rattle.fl_index.specs.Memory.{first_waiting, is_waiting, per_page, found_waiting, waiting_at, waiting_in, form_in, IsSamePlan, IsSameRing, LiesOn};
    ghost use Rattle.fl_index.specs.Standing.{StandsForRing, Waits};

    /// The next waiting entry is that of this data page.
    pub fn restart(&mut self, first: u32)
        requires none { waiting_in self.old ≡ 0 }
        ensures same { IsSamePlan self.old self.new }
        ensures still { IsSameRing self.old self.new }
        ensures first { first_waiting self.new ≡ first }
        ensures none { waiting_in self.new ≡ 0 }
        ensures lies { (f : FlashState) → LiesOn self.old f → LiesOn self.new f }
        ensures ring { (f : FlashState) → (begin : ℕ) → (plan : Plan) → (table : model.Table) → StandsForRing self.old f begin plan table → StandsForRing self.new f begin plan table }
        ensures waits { Waits self.new first [] }
    {
        self.first = first;
    }

    /// One waiting entry more: that of the data page after the others, with the bits of its bitmap that an index page has
    /// room for. Only a full entry tells the rest.
    pub fn note(&mut self, bitmap: u64, full: Full)
        requires few { waiting_in self.old < per_page self.old }
        requires left { first_waiting self.old + waiting_in self.old + 1 < 2 ^ 32 }
        ensures same { IsSamePlan self.old self.new }
        ensures still { IsSameRing self.old self.new }
        ensures first { first_waiting self.new ≡ first_waiting self.old }
        ensures one { waiting_in self.new ≡ waiting_in self.old + 1 }
        ensures last { waiting_at self.new (waiting_in self.old) ≡ bitmap % 256 ^ (form_in self.old).width }
        ensures others { (j : ℕ) → j < waiting_in self.old → waiting_at self.new j ≡ waiting_at self.old j }
        ensures lies { (f : FlashState) → LiesOn self.old f → LiesOn self.new f }
        ensures ring { (f : FlashState) → (begin : ℕ) → (plan : Plan) → (table : model.Table) → StandsForRing self.old f begin plan table → StandsForRing self.new f begin plan table }
        ensures waits { (first : ℕ) → (entries : List IndexEntry) → (entry : IndexEntry) → Waits self.old first entries →
            entry.bitmap ≡ bitmap → ((form_in self.old).full ≡ true → entry.full ≡ full_view full) → Waits self.new first (entries ++ entry ∷ []) }
    {
        let form = self.form();
        write_entry(&mut self.body, form, self.waiting as usize, bitmap, full);
        self.waiting += 1;
    }

    /// The entry of a data page, where it waits or was loaded.
    pub fn waiting_entry(&self, number: u32) -> Option<Found>
        ensures { result ≡ (if is_waiting self.now number then Some (found_waiting self.now (number - first_waiting self.now)) else None) }
    {
        if number < self.first || number - self.first >= self.waiting {
            return None;
        }
        let entry = (number - self.first) as usize;
        Some(found_in(&self.body, self.form(), entry))
    }
}
