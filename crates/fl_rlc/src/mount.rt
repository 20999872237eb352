// The mount of a table with a log.
ghost use Rattle.std.specs.Prelude.{◌≡◌, ◌⊎◌, ◌≤◌, ◌+◌, ℕ, Some, None, Err, true, false, length, IsTrue, IfOk, IfErr, OnOk};
ghost use Rattle.fl_flash.specs.Flash.{FlashState, page_at};
ghost use Rattle.fl_model.specs.Record.{Plan};
ghost use Rattle.fl_model.specs.Table as model;
ghost use Rattle.fl_table.specs.Outcomes.{mounted_of};
ghost use Rattle.fl_table.specs.Standing as without_log;
ghost use Rattle.fl_rlc.specs.Table.{mounted_in};

use crate::replay::replay;
use crate::table::LoggedTable;
use fl_flash::{Flash, PageBuf};
use fl_table::{MountFault, Mounted, Table};

/// What a table holds, as a mount answers it.
fn held<const KNOTS: usize, const SLOTS: usize>(table: &Table<KNOTS, SLOTS>) -> Mounted
    ensures exact { result ≡ mounted_in table.now }
    ensures stands { (f : FlashState) → (first : ℕ) → (plan : Plan) → (b : model.Table) → without_log.Stands table.now f first plan b → result ≡ mounted_of b }
{
    let counts = table.counts();
    Mounted {
        rows: counts.rows,
        pages: counts.pages,
        voids: counts.voids,
    }
}

impl<const KNOTS: usize, const SLOTS: usize> LoggedTable<KNOTS, SLOTS> {
    ghost use Rattle.std.specs.Prelude.{Bool};
    ghost use Rattle.fl_model.specs.Bare.{bare};
    ghost use Rattle.fl_model.specs.MountLimit.{mount_limit};
    ghost use Rattle.fl_model.specs.Work.{Device};
    ghost use Rattle.fl_frame.specs.Watched.{IsWatched};
    ghost use Rattle.fl_table.specs.Outcomes as without_log_ends;
    ghost use Rattle.fl_parts.specs.Pages.{RestsToMount};
    ghost use Rattle.fl_rlc.specs.Left.{LeavesPages};
    ghost use Rattle.fl_rlc.specs.Logged.{Rests};
    ghost use Rattle.fl_parts.specs.Calls.{HoldsNone};
    ghost use Rattle.fl_rlc.specs.Mounting.{FindsPages, RefusesPages};
    ghost use Rattle.fl_rlc.specs.MountingApart.{RestApart, MountApartEnds};
    ghost use Rattle.fl_rlc.specs.Mounts.{MountsFlash, MountsInMemory};
    ghost use Rattle.fl_rlc.specs.Outcomes.{MountEnds};
    ghost use Rattle.fl_rlc.specs.declared.log.RecordLog.{RecordLog};
    ghost use Rattle.fl_rlc.specs.Table.{is_logged, IsPlanned, LiesOn, log_in, table_in};

    /// Mounts the table and then its log, where it has one. The records of the log's newest page that no data page has
    /// become a page of the table, unless its page numbers are spent. It answers what the table holds then.
    ///
    /// After an error it isn't mounted. The buffer holds no page afterwards.
    ///
    /// # Errors
    ///
    /// Those of `Table::mount`, and of the log: `Ring` where its ring is refused, `BadPage` where its newest page isn't one
    /// of rows, and `BadKeys` where the keys of that page don't ascend.
    pub fn mount<F: Flash>(
        &mut self,
        flash: &mut F,
        buf: &mut PageBuf,
    ) -> Result<Mounted, MountFault>
        requires lies { LiesOn self.old (F.state flash.old) }
        requires room { length buf.old.bytes ≡ (F.state flash.old).geometry.page }
        ensures memory { MountsInMemory self.old result self.new (F.state flash.new) }
        ensures buffer { HoldsNone buf.old buf.new }
        ensures ends { (first : ℕ) → (plan : Plan) → (table : model.Table) → (rose : Bool) → (device : Device) → IsWatched (F.state flash.old) (F.state flash.new) rose device
            → IsPlanned self.old first plan → Rests (F.state flash.old) first plan table → MountEnds first plan table rose device result self.new (F.state flash.new) }
        ensures alone { (first : ℕ) → (plan : Plan) → (table : model.Table) → (rose : Bool) → (device : Device) → IsWatched (F.state flash.old) (F.state flash.new) rose device
            → IsPlanned self.old first plan → log_in self.old ≡ None → RestsToMount (F.state flash.old) first (bare plan) table → without_log_ends.MountEnds first (bare plan) table rose device result (table_in self.new) (F.state flash.new) }
        ensures apart { (first : ℕ) → (plan : Plan) → (table : model.Table) → (rose : Bool) → (device : Device) → (log : RecordLog) → IsWatched (F.state flash.old) (F.state flash.new) rose device
            → IsPlanned self.old first plan → log_in self.old ≡ Some log → RestApart log (F.state flash.old) first plan table → MountApartEnds first plan table rose device log result self.new (F.state flash.new) }
        ensures found { IfOk result (λ mounted. IsTrue (F.state flash.old).media.tells → FindsPages self.old (F.state flash.old) mounted self.new (F.state flash.new)) }
        ensures leaves { OnOk result (IsTrue (F.state flash.old).media.tells → (first : ℕ) → (plan : Plan) → (table : model.Table)
            → (is_logged self.old ≡ false) ⊎ ((rose : Bool) × (device : Device) × IsWatched (F.state flash.old) (F.state flash.new) rose device)
            → IsPlanned self.old first plan → Rests (F.state flash.old) first plan table → LeavesPages first plan (page_at (F.state flash.old)) (page_at (F.state flash.new))) }
        ensures alone_leaves { OnOk result (IsTrue (F.state flash.old).media.tells → (first : ℕ) → (plan : Plan)
            → IsPlanned self.old first plan → log_in self.old ≡ None → LeavesPages first plan (page_at (F.state flash.old)) (page_at (F.state flash.new))) }
        ensures refused { IfErr result (λ e. IsTrue (F.state flash.old).media.tells → RefusesPages self.old (F.state flash.old) e (F.state flash.new)) }
        ensures limit { (first : ℕ) → (plan : Plan) → (table : model.Table) → (rose : Bool) → (device : Device) → IsWatched (F.state flash.old) (F.state flash.new) rose device
            → IsPlanned self.old first plan → Rests (F.state flash.old) first plan table → plan.full_index ≡ true
            → (F.state flash.new).work.reads ≤ (F.state flash.old).work.reads + mount_limit plan table }
        ensures alone_limit { (first : ℕ) → (plan : Plan) → (table : model.Table) → (rose : Bool) → (device : Device) → IsWatched (F.state flash.old) (F.state flash.new) rose device
            → IsPlanned self.old first plan → log_in self.old ≡ None → RestsToMount (F.state flash.old) first (bare plan) table → plan.full_index ≡ true
            → (F.state flash.new).work.reads ≤ (F.state flash.old).work.reads + mount_limit (bare plan) table }
        ensures flash { MountsFlash self.old (F.state flash.old) result (F.state flash.new) }
    {
        let mounted = self.table.mount(flash, buf)?;
        let Some(log) = &mut self.log else {
            return Ok(mounted);
        };
        if let Err(fault) = replay(log, &mut self.table, flash, buf) {
            self.table.unmount();
            return Err(fault);
        }
        Ok(held(&self.table))
    }
}
