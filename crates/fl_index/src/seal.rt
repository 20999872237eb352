// The seal of the waiting entries.
ghost use Rattle.std.specs.Prelude.{Ok, ◌≡◌, ◌+◌, ◌-◌, ◌<◌, ◌≤◌, ◌^◌, ◌==◌, true, false, if◌then◌else◌, length, slice_index, IsTrue, OnOk, OnErr, IfErr, Some};
ghost use Rattle.fl_flash.specs.Flash.{Goes, OffChangesNothing, page_at};
ghost use Rattle.fl_frame.specs.Causes.{CausedBy};

use crate::index::BitmapIndex;
use crate::page::write_header;
use fl_flash::{Flash, FlashFault};

impl BitmapIndex {
    ghost use Rattle.std.specs.Prelude.{ℕ, Bool, List};
    ghost use Rattle.fl_model.specs.Record.{Plan};
    ghost use Rattle.fl_model.specs.Table as model;
    ghost use Rattle.fl_model.specs.Work.{Device};
    ghost use Rattle.fl_ring.specs.Ring.{OutsideStands};
    ghost use Rattle.fl_frame.specs.Watched.{IsWatched};
    ghost use Rattle.fl_ring.specs.Written.{Writes, done};
    ghost use Rattle.fl_index.specs.Memory.{is_running, first_waiting, next_in, oldest_in, oldest_after, per_page, ring_shape, waiting_at, waiting_in, FirstsGoOn, IsSamePlan, LiesOn, MaySeal};
    ghost use Rattle.fl_index.specs.Standing.{Stands};
    ghost use Rattle.fl_index.specs.Outcomes.{MakesRoom, SealEnds};

    /// Seals the waiting entries as an index page where they are as many as it holds. After an error the index is to be
    /// mounted again.
    pub fn make_room<F: Flash>(&mut self, flash: &mut F) -> Result<(), FlashFault>
        requires running { is_running self.old ≡ true }
        requires lies { LiesOn self.old (F.state flash.old) }
        requires left { next_in self.old + 1 < 2 ^ 32 }
        ensures goes { Goes (F.state flash.old) (F.state flash.new) }
        ensures same { IsSamePlan self.old self.new }
        ensures lies { LiesOn self.new (F.state flash.new) }
        ensures ends { (first : ℕ) → (plan : Plan) → (table : model.Table) → (rose : Bool) → (device : Device) → IsWatched (F.state flash.old) (F.state flash.new) rose device
            → Stands self.old (F.state flash.old) first plan table → MakesRoom first plan table rose device result self.new (F.state flash.old) (F.state flash.new) }
        ensures room { OnOk result (waiting_in self.new < per_page self.new) }
        ensures next { OnOk result (first_waiting self.new + waiting_in self.new ≡ first_waiting self.old + waiting_in self.old) }
        ensures number { OnOk result (next_in self.new ≡ (if waiting_in self.old == per_page self.old then next_in self.old + 1 else next_in self.old)) }
        ensures oldest { OnOk result (oldest_in self.new ≡ (if waiting_in self.old == per_page self.old then oldest_after self.old else oldest_in self.old)) }
        ensures firsts { OnOk result (FirstsGoOn self.old self.new) }
        ensures nothing { waiting_in self.old < per_page self.old → (result ≡ Ok tt) × (self.new ≡ self.old) × (F.state flash.new ≡ F.state flash.old) }
        ensures running { OnOk result (is_running self.new ≡ true) }
        ensures broken { OnErr result (is_running self.new ≡ false) }
        ensures outside { IsTrue (F.state flash.old).media.tells → OutsideStands (ring_shape self.old) (page_at (F.state flash.old)) (page_at (F.state flash.new)) }
        ensures writes { Writes (MaySeal self.old) 0 1 (F.state flash.old) (F.state flash.new) }
        ensures reads { (F.state flash.new).work.reads ≡ (F.state flash.old).work.reads }
        ensures media_reads { (F.state flash.new).media.reads ≤ (F.state flash.old).media.reads + 1 }
        ensures cause { IfErr result (λ e. CausedBy (F.state flash.old) e (F.state flash.new)) }
        ensures power { OnOk result ((F.state flash.old).is_on ≡ true → (F.state flash.new).is_on ≡ true) }
        ensures off { per_page self.old ≤ waiting_in self.old → OffChangesNothing (F.state flash.old) result (F.state flash.new) }
    {
        if self.waiting < self.capacity() {
            return Ok(());
        }
        self.seal(flash)
    }

    /// Seals a full list of entries as the next index page.
    fn seal<F: Flash>(&mut self, flash: &mut F) -> Result<(), FlashFault>
        requires running { is_running self.old ≡ true }
        requires full { waiting_in self.old ≡ per_page self.old }
        requires lies { LiesOn self.old (F.state flash.old) }
        requires left { next_in self.old + 1 < 2 ^ 32 }
        ensures goes { Goes (F.state flash.old) (F.state flash.new) }
        ensures same { IsSamePlan self.old self.new }
        ensures lies { LiesOn self.new (F.state flash.new) }
        ensures ends { (first : ℕ) → (plan : Plan) → (table : model.Table) → (rose : Bool) → (device : Device) → IsWatched (F.state flash.old) (F.state flash.new) rose device
            → Stands self.old (F.state flash.old) first plan table → SealEnds first plan table rose device result self.new (F.state flash.old) (F.state flash.new) }
        ensures number { OnOk result (next_in self.new ≡ next_in self.old + 1) }
        ensures oldest { OnOk result (oldest_in self.new ≡ oldest_after self.old) }
        ensures firsts { OnOk result (FirstsGoOn self.old self.new) }
        ensures empty { OnOk result (waiting_in self.new ≡ 0) }
        ensures next { OnOk result (first_waiting self.new ≡ first_waiting self.old + waiting_in self.old) }
        ensures running { OnOk result (is_running self.new ≡ true) }
        ensures broken { OnErr result (is_running self.new ≡ false) }
        ensures outside { IsTrue (F.state flash.old).media.tells → OutsideStands (ring_shape self.old) (page_at (F.state flash.old)) (page_at (F.state flash.new)) }
        ensures writes { Writes (MaySeal self.old) (done result) 1 (F.state flash.old) (F.state flash.new) }
        ensures reads { (F.state flash.new).work.reads ≡ (F.state flash.old).work.reads }
        ensures media_reads { (F.state flash.new).media.reads ≤ (F.state flash.old).media.reads + 1 }
        ensures cause { IfErr result (λ e. CausedBy (F.state flash.old) e (F.state flash.new)) }
        ensures power { OnOk result ((F.state flash.old).is_on ≡ true → (F.state flash.new).is_on ≡ true) }
        ensures off { OffChangesNothing (F.state flash.old) result (F.state flash.new) }
    {
        let Some(mut ring) = self.ring.take() else {
            unreachable!()
        };
        let number = ring.next_number();
        write_header(&mut self.body, number, self.first, self.waiting as u16);
        ring.seal(flash, &self.body)?;
        let at = number as usize % self.firsts.len();
        self.firsts[at] = Some(self.first);
        self.first += self.waiting;
        self.waiting = 0;
        self.ring = Some(ring);
        Ok(())
    }
}
