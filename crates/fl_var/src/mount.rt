// The mount of variable data.
ghost use Rattle.std.specs.Prelude.{◌≡◌, ◌+◌, ◌<◌, ◌≤◌, None, false, is_ok, length, [], IsTrue, IfOk, IfErr, OnOk};
ghost use Rattle.fl_flash.specs.Flash.{Goes, page_at};
ghost use Rattle.fl_ring.specs.Causes.{IfFlash};
ghost use Rattle.fl_frame.specs.Causes.{CausedBy};
ghost use Rattle.fl_ring.specs.Finding.{FoundFault};
ghost use Rattle.fl_ring.specs.Mounting.{search_reads, FailsAs};
ghost use Rattle.fl_ring.specs.Repairing.{Beside};

use crate::var_data::VarData;
use fl_flash::{Flash, FlashFault, PageBuf};
use fl_ring::{Ring, RingFault};

impl VarData {
    ghost use Rattle.std.specs.Prelude.{ℕ, Bool, Err};
    ghost use Rattle.fl_model.specs.Mount.{blob_end};
    ghost use Rattle.fl_model.specs.MountLimit.{part_mount_limit};
    ghost use Rattle.fl_model.specs.Record.{Plan};
    ghost use Rattle.fl_model.specs.Table as model;
    ghost use Rattle.fl_model.specs.Table.{VarRing, shape_of as model_shape};
    ghost use Rattle.fl_model.specs.Work.{Device};
    ghost use Rattle.fl_frame.specs.Watched.{IsWatched};
    ghost use Rattle.fl_var.specs.Memory.{is_mounted, waiting_in, var_shape, IsSamePlan, LiesOn};
    ghost use Rattle.fl_var.specs.Mounting.{Finds, Rests, MountEnds};

    /// Mounts the ring: it is found and repaired, and the buffer is empty. Where no page tells its number, the numbers
    /// begin at `at_least`, which is one more than the greatest page that a kept blob names. After an error it isn't
    /// mounted. The buffer holds no page afterwards.
    pub fn mount<F: Flash>(
        &mut self,
        flash: &mut F,
        at_least: u32,
        buf: &mut PageBuf,
    ) -> Result<(), RingFault>
        requires lies { LiesOn self.old (F.state flash.old) }
        requires room { length buf.old.bytes ≡ (F.state flash.old).geometry.page }
        ensures same { IsSamePlan self.old self.new }
        ensures lies { LiesOn self.new (F.state flash.new) }
        ensures room { length buf.new.bytes ≡ length buf.old.bytes }
        ensures holds { buf.new.holds ≡ None }
        ensures mounted { is_mounted self.new ≡ is_ok result }
        ensures empty { waiting_in self.new ≡ [] }
        ensures ends { (plan : Plan) → (table : model.Table) → (rose : Bool) → (device : Device) → IsWatched (F.state flash.old) (F.state flash.new) rose device
            → Rests self.old (F.state flash.old) plan table → at_least ≡ blob_end table → MountEnds plan table rose device self.old result self.new (F.state flash.new) }
        ensures found { OnOk result (Finds self.old (F.state flash.old) at_least self.new (F.state flash.new)) }
        ensures fault { IfErr result (λ e. FoundFault (F.state flash.old) (var_shape self.old) at_least e) }
        ensures fails { IfErr result (λ e. FailsAs (F.state flash.old) (var_shape self.old) at_least e (F.state flash.new)) }
        ensures reads { (plan : Plan) → (table : model.Table) → IsTrue (F.state flash.old).media.tells → Rests self.old (F.state flash.old) plan table
            → (F.state flash.new).work.reads ≤ (F.state flash.old).work.reads + part_mount_limit (model_shape plan VarRing) table.var }
        ensures beside { Beside (var_shape self.old) (search_reads (var_shape self.old) + (F.state flash.old).geometry.block) 1 1 (F.state flash.old) (F.state flash.new) }
        ensures off { (F.state flash.old).is_on ≡ false → (result ≡ Err (RingFault.Flash FlashFault.PowerLost)) × (F.state flash.new ≡ F.state flash.old) }
        ensures cause { IfErr result (λ e. IfFlash (λ fault. CausedBy (F.state flash.old) fault (F.state flash.new)) e) }
    {
        self.ring = None;
        self.waiting.clear();
        let ring = Ring::mount(flash, self.place, at_least, buf)?;
        self.ring = Some(ring);
        Ok(())
    }
}
