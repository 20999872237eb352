// The seal of a table: a full list of bitmaps, the bytes of blobs that wait, and the pending rows.
ghost use Rattle.std.specs.Prelude.{◌≡◌, ◌≤◌, ◌+◌, ◌-◌, ◌%◌, ◌==◌, ◌∷◌, true, false, length, map, count_by, slice_index, OnOk, OnErr};
ghost use Rattle.std.specs.List.{range_with_len};
ghost use Rattle.fl_flash.specs.Flash.{OffChangesNothing};
ghost use Rattle.fl_frame.specs.Causes.{CausedBy};
ghost use Rattle.fl_table.specs.Sealing.{CanSeal, SealsInTurn};

use crate::table::Table;
use fl_flash::{Flash, FlashFault};
use fl_index::{BitmapIndex, Full};
use fl_parts::{make_room, note, note_entry, seal_rest};
use fl_ring::Ring;
use fl_var::VarData;

impl<const KNOTS: usize, const SLOTS: usize> Table<KNOTS, SLOTS> {
    ghost use Rattle.std.specs.Prelude.{ℕ, Bool, List};
    ghost use Rattle.fl_model.specs.Record.{Plan};
    ghost use Rattle.fl_flash.specs.Flash.{FlashState};
    ghost use Rattle.fl_index.specs.Page.{full_view};
    ghost use Rattle.fl_model.specs.Layout.{full_of};
    ghost use Rattle.fl_model.specs.Table.{pending_entries, table_seals};
    ghost use Rattle.fl_model.specs.Row.{Row};
    ghost use Rattle.fl_model.specs.Table as model;
    ghost use Rattle.fl_model.specs.Work.{Device};
    ghost use Rattle.fl_frame.specs.Watched.{IsWatched};
    ghost use Rattle.fl_parts.specs.Calls.{Changes};
    ghost use Rattle.fl_table.specs.Look.{last_key_in};
    ghost use Rattle.fl_table.specs.Memory.{is_running, is_stopped, pending_in, IsSamePlan, LiesOn, MaySeal, PendingAre};
    ghost use Rattle.fl_table.specs.Standing.{Stands};
    ghost use Rattle.fl_parts.specs.Bitmaps.{next_of as index_next};
    ghost use Rattle.fl_table.specs.Mounting.{OutsideStands, rings_in};
    ghost use Rattle.fl_table.specs.Outcomes.{SealsEnd};
    ghost use Rattle.fl_table.specs.Paged.{HasFlushed};
    ghost use Rattle.fl_table.specs.Stored.{IsEmptied};

    /// Seals the table: the waiting entries, where they fill an index page, the blob bytes that wait, and then the pending
    /// rows, so that each row's blob stands before it. After an error the table is stopped.
    pub(crate) fn seal<F: Flash>(&mut self, flash: &mut F) -> Result<(), FlashFault>
        requires running { is_running self.old ≡ true }
        requires some { 1 ≤ self.old.writer.count }
        requires lies { LiesOn self.old (F.state flash.old) }
        ensures same { IsSamePlan self.old self.new }
        ensures lies { LiesOn self.new (F.state flash.new) }
        ensures ends { (first : ℕ) → (plan : Plan) → (table : model.Table) → (rose : Bool) → (device : Device) → IsWatched (F.state flash.old) (F.state flash.new) rose device
            → Stands self.old (F.state flash.old) first plan table → SealsEnd first plan (table_seals plan table) table rose device result self.new (F.state flash.old) (F.state flash.new) }
        ensures emptied { OnOk result (IsEmptied self.old self.new) }
        ensures last { last_key_in self.new ≡ last_key_in self.old }
        ensures pending_stays { OnErr result (pending_in self.new ≡ pending_in self.old) }
        ensures running { OnOk result (is_running self.new ≡ true) }
        ensures index_next { OnOk result (index_next self.new.bitmaps ≤ index_next self.old.bitmaps + 1) }
        ensures calm { OnOk result (is_stopped self.new ≡ is_stopped self.old) }
        ensures stopped { OnErr result ((is_running self.new ≡ false) × (is_stopped self.new ≡ true)) }
        ensures off { OffChangesNothing (F.state flash.old) result (F.state flash.new) }
        ensures sealed { OnOk result (HasFlushed self.old (F.state flash.old) (F.state flash.new)) }
        ensures flash { Changes (MaySeal self.old) (OutsideStands self.old) (rings_in self.old)
            CausedBy (F.state flash.old) result (F.state flash.new) }
    {
        let full = self.pending_entry();
        // The ring is out while its parts are sealed: a table whose seal failed has none.
        let Some(mut ring) = self.ring.take() else {
            unreachable!()
        };
        let number = ring.next_number();
        let oldest = ring.oldest();
        self.writer.finish(number, self.bitmap);
        if let Err(fault) = seal_rings(
            &mut self.bitmaps,
            &mut self.blobs,
            &mut ring,
            flash,
            self.writer.body(),
        ) {
            self.stopped = true;
            return Err(fault);
        }
        let gone = voids_among(&self.counts, oldest, ring.oldest());
        self.voids = self.voids.saturating_sub(gone);
        note(&mut self.counts, number, self.writer.count());
        self.index.add_further(full.first_key, number);
        self.writer.clear();
        note_entry(&mut self.bitmaps, number, self.bitmap, full);
        self.bitmap = 0;
        self.blob_end = 0;
        self.ring = Some(ring);
        Ok(())
    }

    /// What a full index entry tells of the page of the pending rows, beside its bitmap.
    fn pending_entry(&self) -> Full
        requires some { 1 ≤ self.now.writer.count }
        ensures stands { (f : FlashState) → (first : ℕ) → (plan : Plan) → (table : model.Table) → Stands self.now f first plan table → full_view result ≡ full_of (pending_entries table) }
        ensures first { (row : Row) → (rows : List Row) → PendingAre self.now (row ∷ rows) → result.first_key ≡ row.key }
    {
        Full {
            first_key: self.writer.row(&self.schema, 0).key(),
            count: self.writer.count() as u16,
            blob_end: self.blob_end,
        }
    }
}

/// Seals the waiting entries where they fill an index page, the bytes of blobs that wait, and then a page of rows with this
/// body.
fn seal_rings<F: Flash>(
    bitmaps: &mut Option<BitmapIndex>,
    blobs: &mut Option<VarData>,
    ring: &mut Ring,
    flash: &mut F,
    body: &[u8],
) -> Result<(), FlashFault>
    requires { CanSeal bitmaps.old blobs.old ring.old body.now (F.state flash.old) }
    ensures { SealsInTurn bitmaps.old blobs.old ring.old body.now (F.state flash.old) result
        bitmaps.new blobs.new ring.new (F.state flash.new) }
{
    make_room(bitmaps, flash)?;
    seal_rest(blobs, flash)?;
    ring.seal(flash, body)
}

/// How many of the pages from one number to before another are void.
fn voids_among(counts: &[u16], from: u32, to: u32) -> u32
    requires { 1 ≤ length counts.now }
    ensures { result ≡ count_by (λ count. count == 0) (map (λ n. slice_index counts.now (n % length counts.now)) (range_with_len from (to - from))) }
{
    let mut voids = 0;
    for number in from..to {
        if counts[number as usize % counts.len()] == 0 {
            voids += 1;
        }
    }
    voids
}
