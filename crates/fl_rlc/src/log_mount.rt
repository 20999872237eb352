// The mount of a log.
ghost use Rattle.std.specs.Prelude.{◌≡◌, ◌+◌, ◌<◌, ◌≤◌, None, Some, is_ok, length, [], IsTrue, IfOk, IfErr, OnOk};
ghost use Rattle.fl_flash.specs.Flash.{Goes, page_at};
ghost use Rattle.fl_ring.specs.Causes.{IfFlash};
ghost use Rattle.fl_frame.specs.Causes.{CausedBy, ReadFails};
ghost use Rattle.fl_ring.specs.Finding.{FoundFault};
ghost use Rattle.fl_frame.specs.Reads.{OnlyReads};
ghost use Rattle.fl_ring.specs.Mounting.{search_reads, FailsAs};
ghost use Rattle.fl_ring.specs.Repairing.{Beside};

use crate::log::RecordLog;
use fl_flash::{Flash, FlashFault, PageBuf};
use fl_ring::{NewestPage, Ring, RingFault};

impl RecordLog {
    ghost use Rattle.std.specs.Prelude.{ℕ, Bool, true, false, Err};
    ghost use Rattle.fl_model.specs.MountLimit.{part_mount_limit};
    ghost use Rattle.fl_model.specs.Record.{Plan, RowLayout};
    ghost use Rattle.fl_model.specs.Table as model;
    ghost use Rattle.fl_model.specs.Table.{LogRing, shape_of};
    ghost use Rattle.fl_model.specs.Work.{Device};
    ghost use Rattle.fl_page.specs.Writer.{Gathers};
    ghost use Rattle.fl_frame.specs.Watched.{IsWatched};
    ghost use Rattle.fl_rlc.specs.Memory.{is_mounted, rows_in, log_shape, page_in, IsSamePlan, LiesOn};
    ghost use Rattle.fl_rlc.specs.Repairing.{Finds, Rests, MountEnds};

    /// Mounts the ring: it is found and repaired, and no row is gathered. It answers the newest page of those that it keeps
    /// then, where it keeps one. After an error it isn't mounted. The buffer holds no page afterwards.
    pub(crate) fn mount<F: Flash>(
        &mut self,
        flash: &mut F,
        buf: &mut PageBuf,
    ) -> Result<Option<NewestPage>, RingFault>
        requires lies { LiesOn self.old (F.state flash.old) }
        requires room { length buf.old.bytes ≡ (F.state flash.old).geometry.page }
        ensures same { IsSamePlan self.old self.new }
        ensures lies { LiesOn self.new (F.state flash.new) }
        ensures room { length buf.new.bytes ≡ length buf.old.bytes }
        ensures holds { buf.new.holds ≡ None }
        ensures mounted { is_mounted self.new ≡ is_ok result }
        ensures empty { (layout : RowLayout) → Gathers layout [] (rows_in self.new) }
        ensures ends { (first : ℕ) → (plan : Plan) → (table : model.Table) → (rose : Bool) → (device : Device) → IsWatched (F.state flash.old) (F.state flash.new) rose device
            → Rests self.old (F.state flash.old) first plan table → MountEnds first plan table rose device self.old result self.new (F.state flash.new) }
        ensures found { IfOk result (λ newest. Finds self.old (F.state flash.old) newest self.new (F.state flash.new)) }
        ensures fault { IfErr result (λ e. FoundFault (F.state flash.old) (log_shape self.old) 0 e) }
        ensures fails { IfErr result (λ e. FailsAs (F.state flash.old) (log_shape self.old) 0 e (F.state flash.new)) }
        ensures reads { (first : ℕ) → (plan : Plan) → (table : model.Table) → IsTrue (F.state flash.old).media.tells → Rests self.old (F.state flash.old) first plan table
            → (F.state flash.new).work.reads ≤ (F.state flash.old).work.reads + part_mount_limit (shape_of plan LogRing) table.log }
        ensures beside { Beside (log_shape self.old) (search_reads (log_shape self.old) + (F.state flash.old).geometry.block) 1 1 (F.state flash.old) (F.state flash.new) }
        ensures cause { IfErr result (λ e. IfFlash (λ fault. CausedBy (F.state flash.old) fault (F.state flash.new)) e) }
        ensures power { OnOk result ((F.state flash.new).is_on ≡ true) }
    {
        self.ring = None;
        self.rows.clear();
        let (ring, newest) = Ring::mount_with_newest(flash, self.place, 0, buf)?;
        self.ring = Some(ring);
        Ok(newest)
    }

    /// Reads the page with this number into the buffer.
    pub(crate) fn read<F: Flash>(
        &self,
        flash: &mut F,
        number: u32,
        buf: &mut PageBuf,
    ) -> Result<(), FlashFault>
        requires mounted { is_mounted self.now ≡ true }
        requires lies { LiesOn self.now (F.state flash.old) }
        requires room { length buf.old.bytes ≡ (F.state flash.old).geometry.page }
        ensures reads { OnlyReads (F.state flash.old) 1 (F.state flash.new) }
        ensures room { length buf.new.bytes ≡ length buf.old.bytes }
        ensures page { OnOk result (IsTrue (F.state flash.old).media.tells → buf.new.bytes ≡ page_in self.now (F.state flash.old) number) }
        ensures fails { IfErr result (λ e. ReadFails (F.state flash.old) e (F.state flash.new)) }
        ensures power { OnOk result ((F.state flash.new).is_on ≡ true) }
    {
        let Some(ring) = &self.ring else {
            unreachable!()
        };
        flash.read(ring.place_of(number), buf)
    }
}
