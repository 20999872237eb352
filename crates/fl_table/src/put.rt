// Puts and flushes.
ghost use Rattle.std.specs.Prelude.{◌≡◌, ◌≤◌, ◌+◌, ◌^◌, ◌<◌, ◌++◌, ◌∷◌, [], true, false, length, OnOk, OnErr, option_map};
ghost use Rattle.fl_model.specs.BlobEnds.{reference_end};
ghost use Rattle.fl_flash.specs.Flash.{OffChangesNothing};
ghost use Rattle.fl_parts.specs.Entries.{bitmap_with};

use crate::table::Table;
use crate::{FlushFault, PutRefusal};
use fl_base::BlobRef;
use fl_bitmap::Buckets;
use fl_flash::{Flash, FlashFault};
use fl_parts::{least_of, place, reference_end};

/// The bitmap with one more value, where the table has buckets.
fn with_value(buckets: Option<Buckets>, bitmap: u64, value: i64) -> u64
    ensures { result ≡ bitmap_with buckets bitmap value }
{
    match buckets {
        None => bitmap,
        Some(buckets) => buckets.add(bitmap, value),
    }
}

impl<const KNOTS: usize, const SLOTS: usize> Table<KNOTS, SLOTS> {
    ghost use Rattle.std.specs.Prelude.{ℕ, Bool, List, slice_index_or, pos, Some, None, nat_lt, ◌↔◌, Ok, Err};
    ghost use Rattle.fl_model.specs.Record.{Plan, layout_len};
    ghost use Rattle.fl_model.specs.Row.{Row, FitsRow, stored_row};
    ghost use Rattle.fl_model.specs.Table as model;
    ghost use Rattle.fl_model.specs.Table.{Entry, make_room_seals, spent_from};
    ghost use Rattle.fl_model.specs.Work.{Device};
    ghost use Rattle.fl_frame.specs.Causes.{CausedBy};
    ghost use Rattle.fl_frame.specs.Watched.{IsWatched};
    ghost use Rattle.fl_schema.specs.Schema.{layout_of};
    ghost use Rattle.fl_flash.specs.Flash.{FlashState};
    ghost use Rattle.fl_table.specs.Causes.{PutCausedBy, FlushCausedBy, put_breaks, flush_breaks};
    ghost use Rattle.fl_parts.specs.Calls.{Over, Changes, bytes_in, length_in};
    ghost use Rattle.fl_table.specs.Frames.{GoesOn, PutsInMemory, PutsPage, FlushesInMemory, FlushesPage, seals_in_put};
    ghost use Rattle.fl_table.specs.Look.{last_key_in};
    ghost use Rattle.fl_table.specs.Memory.{is_running, is_stopped, next_in, pending_in, HasRoom, InMemory, IsSameBeside, IsSamePlan, LiesOn, MayPut, MaySeal, PendingAre};
    ghost use Rattle.fl_bitmap.specs.Bucket.{HasBuckets};
    ghost use Rattle.fl_table.specs.Refusal.{put_refusal, RefusesAs};
    ghost use Rattle.fl_table.specs.Standing.{Stands};
    ghost use Rattle.fl_parts.specs.Bitmaps.{next_of as index_next};
    ghost use Rattle.fl_parts.specs.Blobs as variable;
    ghost use Rattle.fl_parts.specs.Blobs.{HasFew};
    ghost use Rattle.fl_table.specs.Mounting.{OutsideStands, rings_in};
    ghost use Rattle.fl_table.specs.Outcomes.{SealsEnd, JoinEnds, PutEnds, FlushEnds};
    ghost use Rattle.fl_parts.specs.Accepting.{IsAcceptedBy};
    ghost use Rattle.fl_table.specs.Paged.{HasFlushed};
    ghost use Rattle.fl_table.specs.Stored.{HasJoined, IsEmptied, KnowsSame};

    // The page buffer has no room for one row more.
    fn is_full(&self) -> bool
        ensures room { result ≡ nat_lt (length self.now.writer.body) (self.now.writer.end + layout_len (layout_of self.now.schema)) }
    {
        self.writer.is_full(&self.schema)
    }

    /// Seals the pending rows where a page is full of them.
    fn make_room<F: Flash>(&mut self, flash: &mut F) -> Result<(), FlashFault>
        requires running { is_running self.old ≡ true }
        requires lies { LiesOn self.old (F.state flash.old) }
        ensures same { IsSamePlan self.old self.new }
        ensures lies { LiesOn self.new (F.state flash.new) }
        ensures ends { (first : ℕ) → (plan : Plan) → (table : model.Table) → (rose : Bool) → (device : Device) → IsWatched (F.state flash.old) (F.state flash.new) rose device
            → Stands self.old (F.state flash.old) first plan table → SealsEnd first plan (make_room_seals plan table) table rose device result self.new (F.state flash.old) (F.state flash.new) }
        ensures room { OnOk result (HasRoom self.new) }
        ensures quiet { HasRoom self.old → (result ≡ Ok tt) × (self.new ≡ self.old) × (F.state flash.new ≡ F.state flash.old) }
        ensures full { OnOk result ((HasRoom self.old → ⊥) → IsEmptied self.old self.new) }
        ensures sealed { OnOk result ((HasRoom self.old → ⊥) → HasFlushed self.old (F.state flash.old) (F.state flash.new)) }
        ensures running { OnOk result (is_running self.new ≡ true) }
        ensures last { last_key_in self.new ≡ last_key_in self.old }
        ensures pending_stays { OnErr result (pending_in self.new ≡ pending_in self.old) }
        ensures next { OnOk result (next_in self.new ≤ next_in self.old + 1) }
        ensures index_next { OnOk result (index_next self.new.bitmaps ≤ index_next self.old.bitmaps + 1) }
        ensures blob_next { OnOk result (variable.next_of self.new.blobs ≤ variable.next_of self.old.blobs + 1) }
        ensures off { (HasRoom self.old → ⊥) → OffChangesNothing (F.state flash.old) result (F.state flash.new) }
        ensures calm { OnOk result (is_stopped self.new ≡ is_stopped self.old) }
        ensures stopped { OnErr result ((is_running self.new ≡ false) × (is_stopped self.new ≡ true)) }
        ensures flash { Changes (MaySeal self.old) (OutsideStands self.old) (rings_in self.old)
            CausedBy (F.state flash.old) result (F.state flash.new) }
    {
        if !self.is_full() {
            return Ok(());
        }
        self.seal(flash)
    }

    /// The record becomes the last one, and its row is pending, which refers to its blob.
    fn add(&mut self, key: u64, values: &[i64], blob: Option<BlobRef>)
        requires fits { FitsRow (layout_of self.old.schema) (record { key = key; values = values.now; blob = blob }) }
        requires room { HasRoom self.old }
        requires left { next_in self.old ≤ spent_from }
        requires index_left { index_next self.old.bitmaps ≤ spent_from }
        requires blobs_left { variable.next_after self.old.blobs ≤ spent_from + 64 }
        requires blob_page { reference_end blob < 2 ^ 32 }
        ensures same { IsSamePlan self.old self.new }
        ensures known { KnowsSame self.old self.new }
        ensures blobs { self.new.blobs ≡ self.old.blobs }
        ensures lies { (f : FlashState) → LiesOn self.old f → LiesOn self.new f }
        ensures stopped { is_stopped self.new ≡ is_stopped self.old }
        ensures pending { pending_in self.new ≡ pending_in self.old + 1 }
        ensures bits { self.new.bitmap ≡ bitmap_with self.old.buckets self.old.bitmap (slice_index_or values.now 0 (pos 0)) }
        ensures last { last_key_in self.new ≡ Some key }
        ensures rows { (rows : List Row) → PendingAre self.old rows → PendingAre self.new (rows ++ (record { key = key; values = values.now; blob = blob }) ∷ []) }
        ensures memory { (plan : Plan) → (table after : model.Table) → (entry : Entry) → InMemory self.old plan table → IsSameBeside table after → after.entries ≡ table.entries ++ entry ∷ [] → after.pending ≡ table.pending + 1 → table.pending ≤ length table.entries →
            HasBuckets plan self.old.buckets → stored_row entry ≡ record { key = key; values = values.now; blob = blob } → InMemory self.new plan after }
    {
        self.writer.push_row(&self.schema, key, values, blob);
        self.bitmap = with_value(self.buckets, self.bitmap, values[0]);
        self.blob_end = self.blob_end.max(least_of(reference_end(blob)));
        self.last_key = Some(key);
    }

    /// Places the record's blob, where it has one, and then the record becomes the last one, whose row is pending.
    fn join<F: Flash>(
        &mut self,
        flash: &mut F,
        key: u64,
        values: &[i64],
        blob: Option<&[u8]>,
    ) -> Result<(), FlashFault>
        requires running { is_running self.old ≡ true }
        requires fits { FitsRow (layout_of self.old.schema) (record { key = key; values = values.now; blob = None }) }
        requires few { HasFew (option_map (λ b. b.now) blob) }
        requires room { HasRoom self.old }
        requires left { next_in self.old ≤ spent_from }
        requires index_left { index_next self.old.bitmaps ≤ spent_from }
        requires blobs_left { variable.next_of self.old.blobs ≤ spent_from }
        requires lies { LiesOn self.old (F.state flash.old) }
        ensures same { IsSamePlan self.old self.new }
        ensures lies { LiesOn self.new (F.state flash.new) }
        ensures ends { (first : ℕ) → (plan : Plan) → (table : model.Table) → (rose : Bool) → (device : Device) → IsWatched (F.state flash.old) (F.state flash.new) rose device
            → Stands self.old (F.state flash.old) first plan table → IsAcceptedBy plan table key values.now (option_map (λ b. b.now) blob.entry)
            → JoinEnds first plan (record { key = key; values = values.now; blob = option_map (λ b. b.now) blob.entry }) table rose device result self.new (F.state flash.old) (F.state flash.new) }
        ensures quiet { variable.pages_for self.old.blobs (option_map (λ b. b.now) blob.entry) ≡ 0 → (result ≡ Ok tt) × (F.state flash.new ≡ F.state flash.old) }
        ensures off { 1 ≤ variable.pages_for self.old.blobs (option_map (λ b. b.now) blob.entry) → OffChangesNothing (F.state flash.old) result (F.state flash.new) }
        ensures joined { OnOk result (HasJoined self.old key values.now (option_map (λ b. b.now) blob.entry) self.new) }
        ensures running { OnOk result (is_running self.new ≡ true) }
        ensures calm { OnOk result (is_stopped self.new ≡ is_stopped self.old) }
        ensures stopped { OnErr result ((is_running self.new ≡ false) × (is_stopped self.new ≡ true)) }
        ensures pending_stays { OnErr result (pending_in self.new ≡ pending_in self.old) }
        ensures last_stays { OnErr result (last_key_in self.new ≡ last_key_in self.old) }
        ensures flash { Changes (variable.MayFill (bytes_in blob.entry) self.old.blobs)
            (OutsideStands self.old) (variable.pages_for self.old.blobs (bytes_in blob.entry))
            CausedBy (F.state flash.old) result (F.state flash.new) }
    {
        let at = match place(&mut self.blobs, flash, blob) {
            Ok(at) => at,
            Err(fault) => {
                self.ring = None;
                self.stopped = true;
                return Err(fault);
            }
        };
        self.add(key, values, at);
        Ok(())
    }

    /// Puts a record. Its row is pending then, and is lost with the power until it is flushed or its page is full. The bytes
    /// of its blob are copied into a buffer of their own, which is sealed as a page when more bytes come than it has room for.
    /// A refusal but `Flash` leaves all as it was. After `Flash` the table is stopped: it is to be mounted again.
    pub fn put<F: Flash>(
        &mut self,
        flash: &mut F,
        key: u64,
        values: &[i64],
        blob: Option<&[u8]>,
    ) -> Result<(), PutRefusal>
        requires lies { LiesOn self.old (F.state flash.old) }
        ensures put { Over (F.state flash.old) (F.state flash.new)
            (Stands self.old (F.state flash.old))
            (λ first plan table rose device. PutEnds first plan
            (record { key = key; values = values.now; blob = bytes_in blob.entry })
            table rose device result self.new (F.state flash.old) (F.state flash.new)) }
        ensures exact { RefusesAs
            (put_refusal self.old key values.now (length_in blob.entry)) result }
        // Whatever the flash holds:
        ensures table { GoesOn self.old (put_breaks result) self.new (F.state flash.new) }
        ensures memory { PutsInMemory self.old (F.state flash.old)
            key values.now (bytes_in blob.entry) result self.new (F.state flash.new) }
        ensures page { PutsPage self.old (F.state flash.old)
            (put_refusal self.old key values.now (length_in blob.entry)) (bytes_in blob.entry)
            result (F.state flash.new) }
        ensures flash { Changes (MayPut self.old (bytes_in blob.entry)) (OutsideStands self.old)
            (seals_in_put self.old (bytes_in blob.entry)) PutCausedBy
            (F.state flash.old) result (F.state flash.new) }
    {
        if let Some(refusal) = self.refusal(key, values, blob) {
            return Err(refusal);
        }
        self.make_room(flash)?;
        self.join(flash, key, values, blob)?;
        Ok(())
    }

    /// Flushes: the pending rows become a page. After `Flash` the table is stopped: it is to be mounted again.
    pub fn flush<F: Flash>(&mut self, flash: &mut F) -> Result<(), FlushFault>
        requires lies { LiesOn self.old (F.state flash.old) }
        ensures flush { Over (F.state flash.old) (F.state flash.new)
            (Stands self.old (F.state flash.old))
            (λ first plan table rose device. FlushEnds first plan table rose device
            result self.new (F.state flash.old) (F.state flash.new)) }
        ensures exact { (result ≡ Err FlushFault.Stopped) ↔ (is_running self.old ≡ false) }
        // Whatever the flash holds:
        ensures table { GoesOn self.old (flush_breaks result) self.new (F.state flash.new) }
        ensures memory { FlushesInMemory self.old result self.new }
        ensures page { FlushesPage self.old (F.state flash.old)
            result self.new (F.state flash.new) }
        ensures flash { Changes (MaySeal self.old) (OutsideStands self.old) (rings_in self.old)
            FlushCausedBy (F.state flash.old) result (F.state flash.new) }
    {
        if !self.is_running() {
            return Err(FlushFault::Stopped);
        }
        if self.writer.count() == 0 {
            return Ok(());
        }
        self.seal(flash)?;
        Ok(())
    }
}
