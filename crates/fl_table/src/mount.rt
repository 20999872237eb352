// The mount of a table: its rings are mounted, and its pages are read.
ghost use Rattle.std.specs.Prelude.{◌≡◌, ◌≤◌, ◌+◌, Err, false, true, length, ◌∷◌, IsTrue, IfOk, IfErr};
ghost use Rattle.fl_flash.specs.declared.flash.FlashFault.{FlashFault};

use crate::Mounted;
use crate::table::Table;
use fl_flash::{Flash, PageBuf};
use fl_parts::{MountFault, mount_bitmaps, mount_within, read_kept};
use fl_ring::Ring;

/// The data ring, what its pages hold, and one more than the greatest page that a blob of them names.
#[derive(Drop)]
pub(crate) struct FoundRows {
    pub(crate) ring: Ring,
    pub(crate) mounted: Mounted,
    pub(crate) blob_end: u64,
}

impl<const KNOTS: usize, const SLOTS: usize> Table<KNOTS, SLOTS> {
    ghost use Rattle.std.specs.Prelude.{ℕ, Bool};
    ghost use Rattle.fl_model.specs.Mount.{index_end};
    ghost use Rattle.fl_model.specs.MountLimit.{part_mount_limit, repaired};
    ghost use Rattle.fl_model.specs.Record.{Plan};
    ghost use Rattle.fl_model.specs.Table as model;
    ghost use Rattle.fl_model.specs.Table.{DataRing, VarRing, shape_of as model_shape};
    ghost use Rattle.fl_parts.specs.Bitmaps.{AreIdle, AreRunning, AreStillFound, room_of};
    ghost use Rattle.fl_parts.specs.Coming.{StandFound, index_pages_of};
    ghost use Rattle.fl_model.specs.Work.{Device};
    ghost use Rattle.fl_frame.specs.Watched.{IsWatched};
    ghost use Rattle.fl_table.specs.Memory.{IsForgotten, IsPlanned, IsSamePlan, LiesOn};
    ghost use Rattle.fl_parts.specs.Pages.{RestsToMount};
    ghost use Rattle.fl_parts.specs.Failing.{var_rings};
    ghost use Rattle.fl_table.specs.Outcomes.{DataEnds, RingsEnd};
    ghost use Rattle.fl_parts.specs.MountLimits.{rows_mount_limit};
    ghost use Rattle.fl_table.specs.Mounting.{FindsRows, RefusesRows};
    ghost use Rattle.fl_table.specs.Mounts.{MountsAs, MountsBy, MountsFlash, MountsInMemory};
    ghost use Rattle.fl_parts.specs.Calls.{HoldsNone};
    ghost use Rattle.fl_table.specs.RowsMount.{LeavesRows, RowsFlash, RowsFound, RowsRefused};

    // As it was before its first mount.
    pub(crate) fn forget(&mut self)
        ensures same { IsSamePlan self.old self.new }
        ensures bitmaps { self.new.bitmaps ≡ self.old.bitmaps }
        ensures blobs { self.new.blobs ≡ self.old.blobs }
        ensures forgotten { IsForgotten self.new }
    {
        self.ring = None;
        self.stopped = false;
        self.writer.clear();
        self.bitmap = 0;
        self.blob_end = 0;
        self.last_key = None;
        self.voids = 0;
        self.index.clear();
    }

    /// Mounts the data ring, whose void pages follow the end of the index, and reads its pages.
    fn read_rows<F: Flash>(
        &mut self,
        end: u32,
        flash: &mut F,
        buf: &mut PageBuf,
    ) -> Result<FoundRows, MountFault>
        requires forgotten { IsForgotten self.old }
        requires running { AreRunning self.old.bitmaps }
        requires idle { AreIdle self.old.bitmaps }
        requires lies { LiesOn self.old (F.state flash.old) }
        requires room { length buf.old.bytes ≡ (F.state flash.old).geometry.page }
        requires few { IsTrue (F.state flash.old).media.tells → index_pages_of self.old.bitmaps ≤ room_of self.old.bitmaps }
        ensures leaves { LeavesRows self.old (F.state flash.old) self.new (F.state flash.new) }
        ensures buffer { HoldsNone buf.old buf.new }
        ensures ends { (first : ℕ) → (plan : Plan) → (table : model.Table) → (rose : Bool) → (device : Device) → IsWatched (F.state flash.old) (F.state flash.new) rose device
            → IsPlanned self.old first plan → RestsToMount (F.state flash.old) first plan table → StandFound self.old.bitmaps (F.state flash.old) (first + plan.data_blocks) plan table → end ≡ index_end plan table
            → DataEnds first plan table rose device result self.new (F.state flash.new) }
        ensures found { IfOk result (λ rows. RowsFound self.old (F.state flash.old) end rows self.new (F.state flash.new)) }
        ensures refused { IfErr result (λ e. RowsRefused self.old (F.state flash.old) end e (F.state flash.new)) }
        ensures limit { (first : ℕ) → (plan : Plan) → (table : model.Table) → (rose : Bool) → (device : Device) → IsWatched (F.state flash.old) (F.state flash.new) rose device
            → IsPlanned self.old first plan → RestsToMount (F.state flash.old) first plan table → StandFound self.old.bitmaps (F.state flash.old) (first + plan.data_blocks) plan table → end ≡ index_end plan table → plan.full_index ≡ true
            → (F.state flash.new).work.reads ≤ (F.state flash.old).work.reads + rows_mount_limit plan table (repaired plan DataRing table) }
        ensures off { (F.state flash.old).is_on ≡ false → (result ≡ Err (MountFault.Flash FlashFault.PowerLost)) × (F.state flash.new ≡ F.state flash.old) }
    {
        let ring = Ring::mount(flash, self.place, end, buf)?;
        let next = ring.next_number();
        if end > next {
            return Err(MountFault::BadIndex { end, next });
        }
        let known = read_kept(
            &self.schema,
            &ring,
            end,
            &mut self.counts,
            &mut self.index,
            &mut self.bitmaps,
            flash,
            buf,
        )?;
        self.last_key = known.last;
        self.voids = known.voids;
        Ok(FoundRows {
            mounted: Mounted {
                rows: known.rows,
                pages: next - ring.oldest(),
                voids: known.voids,
            },
            ring,
            blob_end: known.blob_end,
        })
    }

    /// Mounts the data ring, and then the variable data, before whose next page each blob begins.
    fn mount_rows<F: Flash>(
        &mut self,
        end: u32,
        flash: &mut F,
        buf: &mut PageBuf,
    ) -> Result<Mounted, MountFault>
        requires forgotten { IsForgotten self.old }
        requires running { AreRunning self.old.bitmaps }
        requires idle { AreIdle self.old.bitmaps }
        requires lies { LiesOn self.old (F.state flash.old) }
        requires room { length buf.old.bytes ≡ (F.state flash.old).geometry.page }
        requires few { IsTrue (F.state flash.old).media.tells → index_pages_of self.old.bitmaps ≤ room_of self.old.bitmaps }
        ensures memory { MountsInMemory self.old result self.new (F.state flash.new) }
        ensures still { AreStillFound self.old.bitmaps self.new.bitmaps }
        ensures buffer { HoldsNone buf.old buf.new }
        ensures ends { (first : ℕ) → (plan : Plan) → (table : model.Table) → (rose : Bool) → (device : Device) → IsWatched (F.state flash.old) (F.state flash.new) rose device
            → IsPlanned self.old first plan → RestsToMount (F.state flash.old) first plan table → StandFound self.old.bitmaps (F.state flash.old) (first + plan.data_blocks) plan table → end ≡ index_end plan table
            → RingsEnd first plan (DataRing ∷ var_rings plan) table rose device result self.new (F.state flash.new) }
        ensures found { IfOk result (λ mounted. IsTrue (F.state flash.old).media.tells → FindsRows self.old self.old.bitmaps (F.state flash.old) end mounted self.new (F.state flash.new)) }
        ensures refused { IfErr result (λ e. IsTrue (F.state flash.old).media.tells → RefusesRows self.old self.old.bitmaps (F.state flash.old) end e (F.state flash.new)) }
        ensures limit { (first : ℕ) → (plan : Plan) → (table : model.Table) → (rose : Bool) → (device : Device) → IsWatched (F.state flash.old) (F.state flash.new) rose device
            → IsPlanned self.old first plan → RestsToMount (F.state flash.old) first plan table → StandFound self.old.bitmaps (F.state flash.old) (first + plan.data_blocks) plan table → end ≡ index_end plan table → plan.full_index ≡ true
            → (F.state flash.new).work.reads ≤ (F.state flash.old).work.reads + (rows_mount_limit plan table (repaired plan DataRing table) + part_mount_limit (model_shape plan VarRing) table.var) }
        ensures flash { RowsFlash self.old (F.state flash.old) result (F.state flash.new) }
    {
        let rows = self.read_rows(end, flash, buf)?;
        mount_within(&mut self.blobs, flash, rows.blob_end, buf)?;
        self.ring = Some(rows.ring);
        Ok(rows.mounted)
    }

    /// Mounts the table: its rings are repaired, and each kept page is read once; where index entries are full, of the data pages
    /// those that no index page lists and the newest with rows. After an error it isn't mounted.
    /// The buffer holds no page afterwards.
    pub fn mount<F: Flash>(
        &mut self,
        flash: &mut F,
        buf: &mut PageBuf,
    ) -> Result<Mounted, MountFault>
        requires lies { LiesOn self.old (F.state flash.old) }
        requires room { length buf.old.bytes ≡ (F.state flash.old).geometry.page }
        ensures mount { MountsAs self.old (F.state flash.old) result self.new (F.state flash.new) }
        // Whatever the flash holds:
        ensures pages { MountsBy self.old (F.state flash.old) result self.new (F.state flash.new) }
        ensures memory { MountsInMemory self.old result self.new (F.state flash.new) }
        ensures buffer { HoldsNone buf.old buf.new }
        ensures flash { MountsFlash self.old (F.state flash.old) result (F.state flash.new) }
    {
        self.forget();
        let end = mount_bitmaps(&mut self.bitmaps, flash, buf)?;
        self.mount_rows(end.unwrap_or(0), flash, buf)
    }
}
