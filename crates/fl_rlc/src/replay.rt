// The replay of a log: the records of its newest page that no data page has become a page of the table.
ghost use Rattle.std.specs.Prelude.{◌≡◌, ◌+◌, ◌<◌, ◌≤◌, ℕ, Bool, true, false, Some, None, Ok, Err, is_ok, length, IsTrue, IfErr, OnOk, OnErr};
ghost use Rattle.fl_flash.specs.Flash.{Goes, page_at};
ghost use Rattle.fl_model.specs.Bare.{bare, bare_table};
ghost use Rattle.fl_model.specs.Mount.{ready};
ghost use Rattle.fl_model.specs.MountLimit.{log_mount_limit};
ghost use Rattle.fl_model.specs.Record.{Plan, layout_len, blocks_of};
ghost use Rattle.fl_model.specs.Table as model;
ghost use Rattle.fl_model.specs.Table.{LogRing, shape_of, table_seals};
ghost use Rattle.fl_model.specs.Work.{Device};
ghost use Rattle.fl_page.specs.Page.{rows_in as page_rows};
ghost use Rattle.fl_frame.specs.Reads.{OnlyReads};
ghost use Rattle.fl_frame.specs.Causes.{ReadFails, CausedBy};
ghost use Rattle.fl_frame.specs.Watched.{IsWatched};
ghost use Rattle.fl_schema.specs.Schema.{layout_of};
ghost use Rattle.fl_table.specs.BlobAt.{has_blobs};
ghost use Rattle.fl_ring.specs.Written.{Writes};
ghost use Rattle.fl_parts.specs.Faults.{IfFlash, IfPage, is_of_pages};
ghost use Rattle.fl_table.specs.Look.{layout_in};
ghost use Rattle.fl_table.specs.Memory as table_words;
ghost use Rattle.fl_table.specs.Memory.{is_running, is_stopped, pending_in};
ghost use Rattle.fl_table.specs.Mounting as mounting;
ghost use Rattle.fl_table.specs.Outcomes.{SealsEnd};
ghost use Rattle.fl_table.specs.Standing as without_log;
ghost use Rattle.fl_rlc.specs.Joining.{HasNewest};
ghost use Rattle.fl_rlc.specs.Memory.{is_mounted, page_in, LiesOn};
ghost use Rattle.fl_rlc.specs.Repairing as repairing;
ghost use Rattle.fl_rlc.specs.Offering.{AreOffered, AreSealed};
ghost use Rattle.fl_rlc.specs.Replaying.{MayStand, IsBad, JoinsEnd, ReplayEnds};
ghost use Rattle.fl_rlc.specs.Replays.{ReplayFails, ReplayFinds, ReplayFlash, ReplayKeeps};
ghost use Rattle.fl_parts.specs.Calls.{HoldsNone};

use crate::join::join_rows;
use crate::log::RecordLog;
use fl_flash::{Flash, FlashFault, PageBuf};
use fl_page::PageView;
use fl_schema::Schema;
use fl_table::{FlushFault, MountFault, Table, last_key_after};

/// The page with this number may be the newest of a log: it is one of rows, whose keys ascend.
fn check_page(schema: &Schema<8>, bytes: &[u8], number: u32) -> Result<(), MountFault>
    requires least { 24 ≤ length bytes.now }
    requires most { length bytes.now ≤ 4096 }
    requires row { 1 ≤ layout_len (layout_of schema.now) }
    ensures stands { OnOk result (MayStand (layout_of schema.now) number bytes.now) }
    ensures bad { IfErr result (λ e. IsBad (layout_of schema.now) number bytes.now e) }
{
    match PageView::of(bytes, number, schema) {
        Ok(view) => {
            last_key_after(view, number, None)?;
            Ok(())
        }
        Err(bad) => Err(MountFault::BadPage(bad)),
    }
}

/// Reads the page with this number, the newest of the log, whose records join the table.
fn join_newest<F: Flash, const KNOTS: usize, const SLOTS: usize>(
    log: &RecordLog,
    table: &mut Table<KNOTS, SLOTS>,
    flash: &mut F,
    number: u32,
    buf: &mut PageBuf,
) -> Result<(), MountFault>
    requires mounted { is_mounted log.now ≡ true }
    requires running { is_running table.old ≡ true }
    requires none { pending_in table.old ≡ 0 }
    requires no_blobs { has_blobs table.old ≡ false }
    requires lies { LiesOn log.now (F.state flash.old) }
    requires table_lies { table_words.LiesOn table.old (F.state flash.old) }
    requires room { length buf.old.bytes ≡ (F.state flash.old).geometry.page }
    ensures reads { OnlyReads (F.state flash.old) 1 (F.state flash.new) }
    ensures same { table_words.IsSamePlan table.old table.new }
    ensures lies { table_words.LiesOn table.new (F.state flash.new) }
    ensures room { length buf.new.bytes ≡ length buf.old.bytes }
    ensures running { is_running table.new ≡ true }
    ensures calm { is_stopped table.new ≡ is_stopped table.old }
    ensures joins { (first : ℕ) → (plan : Plan) → (table_now : model.Table) → (rose : Bool) → (device : Device) → IsWatched (F.state flash.old) (F.state flash.new) rose device
        → without_log.Stands table.old (F.state flash.old) first (bare plan) (bare_table table_now) → table_now.pending ≡ 0 → HasNewest log.now (F.state flash.old) plan table_now number
        → JoinsEnd first plan table_now rose result table.new (F.state flash.new) }
    ensures stands { OnOk result (IsTrue (F.state flash.old).media.tells → MayStand (layout_in table.old) number (page_in log.now (F.state flash.old) number)) }
    ensures offers { OnOk result (IsTrue (F.state flash.old).media.tells → AreOffered table.old (page_rows (layout_in table.old) (page_in log.now (F.state flash.old) number)) table.new) }
    ensures unjoined { pending_in table.new ≡ 0 → table.new ≡ table.old }
    ensures bad { IfErr result (IfPage (λ e. IsTrue (F.state flash.old).media.tells → IsBad (layout_in table.old) number (page_in log.now (F.state flash.old) number) e)) }
    ensures fails { IfErr result (IfFlash (λ e. ReadFails (F.state flash.old) e (F.state flash.new))) }
    ensures only { IfErr result (λ e. is_of_pages e ≡ true) }
    ensures power { OnOk result ((F.state flash.new).is_on ≡ true) }
{
    log.read(flash, number, buf)?;
    check_page(table.schema(), buf.bytes(), number)?;
    join_rows(table, flash, buf, number);
    Ok(())
}

/// Seals the rows that are pending as a page of the table.
fn seal_rows<F: Flash, const KNOTS: usize, const SLOTS: usize>(
    table: &mut Table<KNOTS, SLOTS>,
    flash: &mut F,
) -> Result<(), FlashFault>
    requires running { is_running table.old ≡ true }
    requires lies { table_words.LiesOn table.old (F.state flash.old) }
    ensures goes { Goes (F.state flash.old) (F.state flash.new) }
    ensures same { table_words.IsSamePlan table.old table.new }
    ensures lies { table_words.LiesOn table.new (F.state flash.new) }
    ensures running { is_running table.new ≡ is_ok result }
    ensures calm { OnOk result (is_stopped table.new ≡ is_stopped table.old) }
    ensures ends { (first : ℕ) → (plan : Plan) → (b : model.Table) → (rose : Bool) → (device : Device) → IsWatched (F.state flash.old) (F.state flash.new) rose device
        → without_log.Stands table.old (F.state flash.old) first plan b → SealsEnd first plan (table_seals plan b) b rose device result table.new (F.state flash.old) (F.state flash.new) }
    ensures sealed { OnOk result (AreSealed table.old (F.state flash.old) table.new (F.state flash.new)) }
    ensures some { OnErr result (1 ≤ pending_in table.old) }
    ensures writes { Writes (table_words.MaySeal table.old) 0 (mounting.rings_in table.old) (F.state flash.old) (F.state flash.new) }
    ensures outside { IsTrue (F.state flash.old).media.tells → mounting.OutsideStands table.old (page_at (F.state flash.old)) (page_at (F.state flash.new)) }
    ensures reads { (F.state flash.new).work.reads ≡ (F.state flash.old).work.reads }
    ensures media_reads { (F.state flash.new).media.reads ≤ (F.state flash.old).media.reads + mounting.rings_in table.old }
    ensures power { OnOk result ((F.state flash.old).is_on ≡ true → (F.state flash.new).is_on ≡ true) }
    ensures cause { IfErr result (λ e. CausedBy (F.state flash.old) e (F.state flash.new)) }
{
    match table.flush(flash) {
        Ok(()) => Ok(()),
        Err(FlushFault::Flash(fault)) => Err(fault),
        Err(FlushFault::Stopped) => unreachable!(),
    }
}

/// Mounts the log behind its table, which is mounted. The records of its newest page that no data page has become a page of
/// the table, where page numbers are left. The buffer holds no page afterwards.
pub(crate) fn replay<F: Flash, const KNOTS: usize, const SLOTS: usize>(
    log: &mut RecordLog,
    table: &mut Table<KNOTS, SLOTS>,
    flash: &mut F,
    buf: &mut PageBuf,
) -> Result<(), MountFault>
    requires running { is_running table.old ≡ true }
    requires none { table_words.NothingWaits table.old }
    requires no_blobs { has_blobs table.old ≡ false }
    requires lies { LiesOn log.old (F.state flash.old) }
    requires table_lies { table_words.LiesOn table.old (F.state flash.old) }
    requires room { length buf.old.bytes ≡ (F.state flash.old).geometry.page }
    ensures keeps { ReplayKeeps log.old table.old log.new table.new (F.state flash.new) }
    ensures buffer { HoldsNone buf.old buf.new }
    ensures ends { (first : ℕ) → (plan : Plan) → (table_now : model.Table) → (rose : Bool) → (device : Device) → IsWatched (F.state flash.old) (F.state flash.new) rose device
        → without_log.Stands table.old (F.state flash.old) first (bare plan) (ready (bare plan) (bare_table table_now)) → table_now.pending ≡ 0
        → repairing.Rests log.old (F.state flash.old) (first + blocks_of (bare plan)) plan table_now → ReplayEnds first plan table_now rose device log.old result log.new table.new (F.state flash.new) }
    ensures finds { OnOk result (ReplayFinds log.old table.old (F.state flash.old) log.new table.new (F.state flash.new)) }
    ensures fails { IfErr result (λ e. ReplayFails log.old table.old (F.state flash.old) e (F.state flash.new)) }
    ensures flash { ReplayFlash log.old table.old (F.state flash.old) (F.state flash.new) }
    ensures limit { (first : ℕ) → (plan : Plan) → (table_now : model.Table) → IsTrue (F.state flash.old).media.tells → repairing.Rests log.old (F.state flash.old) first plan table_now
        → (F.state flash.new).work.reads ≤ (F.state flash.old).work.reads + log_mount_limit (shape_of plan LogRing) table_now.log }
{
    let Some(newest) = log.mount(flash, buf)? else {
        return Ok(());
    };
    let joined = join_newest(log, table, flash, newest.number, buf);
    buf.forget();
    joined?;
    seal_rows(table, flash)?;
    Ok(())
}
