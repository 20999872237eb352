// Blobs are placed in the buffer, which is sealed page by page.
ghost use Rattle.std.specs.Prelude.{◌≡◌, ◌+◌, ◌-◌, ◌<◌, ◌≤◌, true, false, length, is_ok, IsTrue, IfOk, IfErr, OnOk, IsErrOf};
ghost use Rattle.fl_flash.specs.Flash.{Goes, OffChangesNothing, page_at};
ghost use Rattle.fl_frame.specs.Causes.{CausedBy};

use crate::var_data::VarData;
use fl_base::BlobRef;
use fl_flash::{Flash, FlashFault};

impl VarData {
    ghost use Rattle.std.specs.Prelude.{ℕ, Bool, Ok, Some, ◌⊎◌, List, [], ◌∷◌, ◌*◌, ◌^◌, if◌then◌else◌, ◌==◌, replicate, ◌++◌, take, drop};
    ghost use Rattle.fl_model.specs.Record.{Record, Plan, content_per_page};
    ghost use Rattle.fl_model.specs.Table as model;
    ghost use Rattle.fl_model.specs.Table.{VarRing};
    ghost use Rattle.fl_model.specs.Work.{Device};
    ghost use Rattle.fl_ring.specs.Ring.{OutsideStands};
    ghost use Rattle.fl_frame.specs.Watched.{IsWatched};
    ghost use Rattle.fl_ring.specs.Written.{Writes, done};
    ghost use Rattle.fl_var.specs.Memory.{is_mounted, next_in, oldest_in, oldest_after, waiting_in, room_in, var_shape, BytesAhead, BytesPaged, IsOnRing, IsSamePlan, LiesOn, MaySeal};
    ghost use Rattle.fl_var.specs.Placing.{is_full_in, room_seals, pages_placed, reference_in, EndsWith, PlaceEnds, RestEnds};
    ghost use Rattle.fl_var.specs.Standing.{Stands, HasRing};

    /// Seals the bytes in the buffer as the next page.
    fn seal<F: Flash>(&mut self, flash: &mut F) -> Result<(), FlashFault>
        requires mounted { is_mounted self.old ≡ true }
        requires lies { LiesOn self.old (F.state flash.old) }
        requires some { 1 ≤ length (waiting_in self.old) }
        requires left { next_in self.old + 1 < 2 ^ 32 }
        ensures goes { Goes (F.state flash.old) (F.state flash.new) }
        ensures same { IsSamePlan self.old self.new }
        ensures lies { LiesOn self.new (F.state flash.new) }
        ensures mounted { is_mounted self.new ≡ is_ok result }
        ensures next { OnOk result (next_in self.new ≡ next_in self.old + 1) }
        ensures oldest { OnOk result (oldest_in self.new ≡ oldest_after self.old 1) }
        ensures power { OnOk result ((F.state flash.new).is_on ≡ true) }
        ensures empty { OnOk result (waiting_in self.new ≡ []) }
        ensures ends { (plan : Plan) → (table : model.Table) → (rose : Bool) → (device : Device) → IsWatched (F.state flash.old) (F.state flash.new) rose device
            → HasRing self.old (F.state flash.old) plan table → take (content_per_page plan) table.buffered ≡ waiting_in self.old
            → EndsWith plan (VarRing ∷ []) table rose device self.old (F.state flash.old) result self.new (F.state flash.new) }
        ensures outside { IsTrue (F.state flash.old).media.tells → OutsideStands (var_shape self.old) (page_at (F.state flash.old)) (page_at (F.state flash.new)) }
        ensures page { OnOk result (IsTrue (F.state flash.old).media.tells → BytesPaged self.old (page_at (F.state flash.old)) (page_at (F.state flash.new))) }
        ensures ahead { OnOk result (IsTrue (F.state flash.old).media.tells → BytesAhead self.old (λ page. ⊥) (page_at (F.state flash.new))) }
        ensures writes { Writes (MaySeal self.old) (done result) 1 (F.state flash.old) (F.state flash.new) }
        ensures reads { (F.state flash.new).work.reads ≡ (F.state flash.old).work.reads }
        ensures media_reads { (F.state flash.new).media.reads ≤ (F.state flash.old).media.reads + 1 }
        ensures off { OffChangesNothing (F.state flash.old) result (F.state flash.new) }
        ensures lost { IsErrOf result FlashFault.PowerLost → (F.state flash.new).is_on ≡ false }
        ensures cause { IfErr result (λ e. CausedBy (F.state flash.old) e (F.state flash.new)) }
    {
        let Some(mut ring) = self.ring.take() else {
            unreachable!()
        };
        self.waiting.finish(ring.next_number());
        ring.seal(flash, self.waiting.body())?;
        self.waiting.clear();
        self.ring = Some(ring);
        Ok(())
    }

    /// Seals the buffer where it is full.
    fn make_room<F: Flash>(&mut self, flash: &mut F) -> Result<(), FlashFault>
        requires mounted { is_mounted self.old ≡ true }
        requires lies { LiesOn self.old (F.state flash.old) }
        requires left { next_in self.old + 1 < 2 ^ 32 }
        ensures goes { Goes (F.state flash.old) (F.state flash.new) }
        ensures same { IsSamePlan self.old self.new }
        ensures lies { LiesOn self.new (F.state flash.new) }
        ensures mounted { is_mounted self.new ≡ is_ok result }
        ensures next { OnOk result (next_in self.new ≡ (if is_full_in self.old then next_in self.old + 1 else next_in self.old)) }
        ensures oldest { OnOk result (oldest_in self.new ≡ oldest_after self.old (if is_full_in self.old then 1 else 0)) }
        ensures waits { OnOk result (waiting_in self.new ≡ (if is_full_in self.old then [] else waiting_in self.old)) }
        ensures power { OnOk result ((F.state flash.new ≡ F.state flash.old) ⊎ ((F.state flash.new).is_on ≡ true)) }
        ensures room { OnOk result (length (waiting_in self.new) < room_in self.new) }
        ensures quiet { is_full_in self.old ≡ false → (result ≡ Ok tt) × (self.new ≡ self.old) × (F.state flash.new ≡ F.state flash.old) }
        ensures ends { (plan : Plan) → (table : model.Table) → (rest : List ℕ) → (rose : Bool) → (device : Device) → IsWatched (F.state flash.old) (F.state flash.new) rose device
            → HasRing self.old (F.state flash.old) plan table → table.buffered ≡ waiting_in self.old ++ rest → EndsWith plan (room_seals (is_full_in self.old)) table rose device self.old (F.state flash.old) result self.new (F.state flash.new) }
        ensures outside { IsTrue (F.state flash.old).media.tells → OutsideStands (var_shape self.old) (page_at (F.state flash.old)) (page_at (F.state flash.new)) }
        ensures writes { Writes (IsOnRing self.old) 0 (if is_full_in self.old then 1 else 0) (F.state flash.old) (F.state flash.new) }
        ensures reads { (F.state flash.new).work.reads ≡ (F.state flash.old).work.reads }
        ensures media_reads { (F.state flash.new).media.reads ≤ (F.state flash.old).media.reads + 1 }
        ensures off { is_full_in self.old ≡ true → OffChangesNothing (F.state flash.old) result (F.state flash.new) }
        ensures lost { IsErrOf result FlashFault.PowerLost → (F.state flash.new).is_on ≡ false }
        ensures cause { IfErr result (λ e. CausedBy (F.state flash.old) e (F.state flash.new)) }
    {
        if !self.waiting.is_full() {
            return Ok(());
        }
        self.seal(flash)
    }

    /// Writes bytes into the buffer, which isn't full: it is sealed as often as more bytes come than have room.
    fn write<F: Flash>(&mut self, flash: &mut F, bytes: &[u8]) -> Result<(), FlashFault>
        requires mounted { is_mounted self.old ≡ true }
        requires lies { LiesOn self.old (F.state flash.old) }
        requires some { 1 ≤ length bytes.now }
        requires few { length bytes.now ≤ 1500 }
        requires room { length (waiting_in self.old) < room_in self.old }
        requires left { next_in self.old + 63 < 2 ^ 32 }
        ensures goes { Goes (F.state flash.old) (F.state flash.new) }
        ensures same { IsSamePlan self.old self.new }
        ensures lies { LiesOn self.new (F.state flash.new) }
        ensures mounted { is_mounted self.new ≡ is_ok result }
        ensures next { OnOk result (next_in self.new ≡ next_in self.old + pages_placed self.old (length bytes.now)) }
        ensures oldest { OnOk result (oldest_in self.new ≡ oldest_after self.old (pages_placed self.old (length bytes.now))) }
        ensures ends { (plan : Plan) → (table : model.Table) → (rose : Bool) → (device : Device) → IsWatched (F.state flash.old) (F.state flash.new) rose device
            → HasRing self.old (F.state flash.old) plan table → table.buffered ≡ waiting_in self.old ++ bytes.now → EndsWith plan (replicate (pages_placed self.old (length bytes.now)) VarRing) table rose device self.old (F.state flash.old) result self.new (F.state flash.new) }
        ensures power { OnOk result ((F.state flash.new ≡ F.state flash.old) ⊎ ((F.state flash.new).is_on ≡ true)) }
        ensures quiet { pages_placed self.old (length bytes.now) ≡ 0 → (result ≡ Ok tt) × (F.state flash.new ≡ F.state flash.old) }
        ensures waits { OnOk result (waiting_in self.new ≡ drop (pages_placed self.old (length bytes.now) * room_in self.old) (waiting_in self.old ++ bytes.now)) }
        ensures outside { IsTrue (F.state flash.old).media.tells → OutsideStands (var_shape self.old) (page_at (F.state flash.old)) (page_at (F.state flash.new)) }
        ensures writes { Writes (IsOnRing self.old) 0 (pages_placed self.old (length bytes.now)) (F.state flash.old) (F.state flash.new) }
        ensures reads { (F.state flash.new).work.reads ≡ (F.state flash.old).work.reads }
        ensures media_reads { (F.state flash.new).media.reads ≤ (F.state flash.old).media.reads + pages_placed self.old (length bytes.now) }
        ensures off { 1 ≤ pages_placed self.old (length bytes.now) → OffChangesNothing (F.state flash.old) result (F.state flash.new) }
        ensures lost { IsErrOf result FlashFault.PowerLost → (F.state flash.new).is_on ≡ false }
        ensures cause { IfErr result (λ e. CausedBy (F.state flash.old) e (F.state flash.new)) }
    {
        let mut done = self.waiting.put(bytes);
        while done < bytes.len() {
            self.seal(flash)?;
            done += self.waiting.put(&bytes[done..]);
        }
        Ok(())
    }

    /// Places a blob: its bytes are copied into the buffer, which is sealed as a page where it is full and more bytes
    /// come. The empty blob has no page. After an error it is to be mounted again.
    pub fn append<F: Flash>(&mut self, flash: &mut F, bytes: &[u8]) -> Result<BlobRef, FlashFault>
        requires mounted { is_mounted self.old ≡ true }
        requires lies { LiesOn self.old (F.state flash.old) }
        requires few { length bytes.now ≤ 1500 }
        requires left { next_in self.old + 64 < 2 ^ 32 }
        ensures goes { Goes (F.state flash.old) (F.state flash.new) }
        ensures same { IsSamePlan self.old self.new }
        ensures lies { LiesOn self.new (F.state flash.new) }
        ensures mounted { is_mounted self.new ≡ is_ok result }
        ensures power { OnOk result ((F.state flash.new ≡ F.state flash.old) ⊎ ((F.state flash.new).is_on ≡ true)) }
        ensures reference { IfOk result (λ at. at ≡ reference_in self.old (length bytes.now)) }
        ensures ends { (plan : Plan) → (item : Record) → (table : model.Table) → (rose : Bool) → (device : Device) → IsWatched (F.state flash.old) (F.state flash.new) rose device
            → Stands self.old (F.state flash.old) plan table → item.blob ≡ Some bytes.now → PlaceEnds plan item table rose device self.old (F.state flash.old) result self.new (F.state flash.new) }
        ensures quiet { length (waiting_in self.old) + length bytes.now ≤ room_in self.old → (result ≡ Ok (reference_in self.old (length bytes.now))) × (F.state flash.new ≡ F.state flash.old) }
        ensures waits { OnOk result (waiting_in self.new ≡ drop (pages_placed self.old (length bytes.now) * room_in self.old) (waiting_in self.old ++ bytes.now)) }
        ensures next { OnOk result (next_in self.new ≡ next_in self.old + pages_placed self.old (length bytes.now)) }
        ensures oldest { OnOk result (oldest_in self.new ≡ oldest_after self.old (pages_placed self.old (length bytes.now))) }
        ensures media_reads { (F.state flash.new).media.reads ≤ (F.state flash.old).media.reads + pages_placed self.old (length bytes.now) }
        // Whatever the flash holds: no more pages of the ring are sealed than the bytes fill.
        ensures writes { Writes (IsOnRing self.old) 0 (pages_placed self.old (length bytes.now)) (F.state flash.old) (F.state flash.new) }
        ensures outside { IsTrue (F.state flash.old).media.tells → OutsideStands (var_shape self.old) (page_at (F.state flash.old)) (page_at (F.state flash.new)) }
        ensures reads { (F.state flash.new).work.reads ≡ (F.state flash.old).work.reads }
        ensures off { 1 ≤ pages_placed self.old (length bytes.now) → OffChangesNothing (F.state flash.old) result (F.state flash.new) }
        ensures lost { IsErrOf result FlashFault.PowerLost → (F.state flash.new).is_on ≡ false }
        ensures cause { IfErr result (λ e. CausedBy (F.state flash.old) e (F.state flash.new)) }
    {
        if bytes.is_empty() {
            return Ok(BlobRef {
                page: 0,
                offset: 0,
                length: 0,
            });
        }
        self.make_room(flash)?;
        let at = BlobRef {
            page: self.next_number(),
            offset: self.waiting.content().len() as u16,
            length: bytes.len() as u32,
        };
        self.write(flash, bytes)?;
        Ok(at)
    }

    /// Seals the bytes in the buffer, if there are any, as a page. After an error it is to be mounted again.
    pub fn seal_rest<F: Flash>(&mut self, flash: &mut F) -> Result<(), FlashFault>
        requires mounted { is_mounted self.old ≡ true }
        requires lies { LiesOn self.old (F.state flash.old) }
        requires left { next_in self.old + 64 < 2 ^ 32 }
        ensures goes { Goes (F.state flash.old) (F.state flash.new) }
        ensures same { IsSamePlan self.old self.new }
        ensures lies { LiesOn self.new (F.state flash.new) }
        ensures mounted { is_mounted self.new ≡ is_ok result }
        ensures next { OnOk result (next_in self.new ≡ (if length (waiting_in self.old) == 0 then next_in self.old else next_in self.old + 1)) }
        ensures oldest { OnOk result (oldest_in self.new ≡ oldest_after self.old (if length (waiting_in self.old) == 0 then 0 else 1)) }
        ensures empty { OnOk result (waiting_in self.new ≡ []) }
        ensures ends { (plan : Plan) → (table : model.Table) → (rose : Bool) → (device : Device) → IsWatched (F.state flash.old) (F.state flash.new) rose device
            → Stands self.old (F.state flash.old) plan table → RestEnds plan table rose device self.old (F.state flash.old) result self.new (F.state flash.new) }
        ensures quiet { waiting_in self.old ≡ [] → (result ≡ Ok tt) × (F.state flash.new ≡ F.state flash.old) }
        ensures power { OnOk result ((F.state flash.old).is_on ≡ true → (F.state flash.new).is_on ≡ true) }
        ensures outside { IsTrue (F.state flash.old).media.tells → OutsideStands (var_shape self.old) (page_at (F.state flash.old)) (page_at (F.state flash.new)) }
        ensures page { 1 ≤ length (waiting_in self.old) → OnOk result (IsTrue (F.state flash.old).media.tells → BytesPaged self.old (page_at (F.state flash.old)) (page_at (F.state flash.new))) }
        ensures ahead { 1 ≤ length (waiting_in self.old) → OnOk result (IsTrue (F.state flash.old).media.tells → BytesAhead self.old (λ page. ⊥) (page_at (F.state flash.new))) }
        ensures writes { Writes (MaySeal self.old) 0 1 (F.state flash.old) (F.state flash.new) }
        ensures reads { (F.state flash.new).work.reads ≡ (F.state flash.old).work.reads }
        ensures media_reads { (F.state flash.new).media.reads ≤ (F.state flash.old).media.reads + 1 }
        ensures off { 1 ≤ length (waiting_in self.old) → OffChangesNothing (F.state flash.old) result (F.state flash.new) }
        ensures lost { IsErrOf result FlashFault.PowerLost → (F.state flash.new).is_on ≡ false }
        ensures cause { IfErr result (λ e. CausedBy (F.state flash.old) e (F.state flash.new)) }
    {
        if self.waiting.content().is_empty() {
            return Ok(());
        }
        self.seal(flash)
    }
}
