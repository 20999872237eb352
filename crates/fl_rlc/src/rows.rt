// The log of a table, where it has one.
ghost use Rattle.std.specs.Prelude.{◌≡◌, ◌≤◌, ◌+◌, ℕ, Bool, None, true, is_some, IsTrue, IfErr, IfSome, Ok, OnOk, OnErr, false, if◌then◌else◌};
ghost use Rattle.std.specs.Option.{ForSome};
ghost use Rattle.fl_flash.specs.Flash.{Goes, OffChangesNothing, FlashState, page_at};
ghost use Rattle.fl_model.specs.Record.{Plan, layout_len};
ghost use Rattle.fl_model.specs.Row.{FitsRow};
ghost use Rattle.fl_model.specs.Table as model;
ghost use Rattle.fl_model.specs.Work.{Device};
ghost use Rattle.fl_frame.specs.Causes.{CausedBy};
ghost use Rattle.fl_ring.specs.Written.{Writes};
ghost use Rattle.fl_schema.specs.Schema.{layout_of};
ghost use Rattle.fl_rlc.specs.Memory.{is_mounted, page_len, LiesOn, LogAhead};
ghost use Rattle.fl_rlc.specs.Paged.{RowLogged};
ghost use Rattle.fl_rlc.specs.Refusal.{log_refused};
ghost use Rattle.fl_rlc.specs.Rows.{RowEnds, StandOutside, AreBegun, HaveLogged};
ghost use Rattle.fl_rlc.specs.Table.{AreSameLog, MaySealLog};

use crate::log::RecordLog;
use fl_flash::{Flash, FlashFault};
use fl_schema::Schema;

/// The row of a record that joined the pending ones joins them in the log, which seals all of them.
pub(crate) fn log_row<F: Flash>(
    log: &mut Option<RecordLog>,
    schema: &Schema<8>,
    flash: &mut F,
    key: u64,
    values: &[i64],
) -> Result<(), FlashFault>
    requires mounted { ForSome log.old (λ l. is_mounted l ≡ true) }
    requires lies { ForSome log.old (λ l. LiesOn l (F.state flash.old)) }
    requires fits { FitsRow (layout_of schema.now) (record { key = key; values = values.now; blob = None }) }
    requires room { ForSome log.old (λ l. layout_len (layout_of schema.now) + 24 ≤ page_len l) }
    requires left { log_refused log.old ≡ None }
    ensures goes { Goes (F.state flash.old) (F.state flash.new) }
    ensures same { AreSameLog log.old log.new }
    ensures lies { ForSome log.new (λ l. LiesOn l (F.state flash.new)) }
    ensures mounted { OnOk result (ForSome log.new (λ l. is_mounted l ≡ true)) }
    ensures ends { (first : ℕ) (plan : Plan) (table : model.Table) (rose : Bool) (device : Device) →
        RowEnds log.old (F.state flash.old) first plan table (layout_of schema.now) (record { key = key; values = values.now; blob = None }) rose device result log.new (F.state flash.new) }
    ensures logs { OnOk result (HaveLogged (layout_of schema.now) (record { key = key; values = values.now; blob = None }) log.old log.new) }
    ensures outside { IsTrue (F.state flash.old).media.tells → StandOutside log.old (page_at (F.state flash.old)) (page_at (F.state flash.new)) }
    ensures writes { Writes (MaySealLog log.old) 0 (if is_some log.old then 1 else 0) (F.state flash.old) (F.state flash.new) }
    ensures page { OnOk result (IsTrue (F.state flash.old).media.tells → RowLogged (layout_of schema.now) (record { key = key; values = values.now; blob = None }) log.old (page_at (F.state flash.old)) (page_at (F.state flash.new))) }
    ensures ahead { OnOk result (IsTrue (F.state flash.old).media.tells → IfSome log.old (λ l. LogAhead l (page_at (F.state flash.new)))) }
    ensures reads { (F.state flash.new).work.reads ≡ (F.state flash.old).work.reads }
    ensures media_reads { (F.state flash.new).media.reads ≤ (F.state flash.old).media.reads + (if is_some log.old then 1 else 0) }
    ensures logged { OnErr result (is_some log.old ≡ true) }
    ensures alone { is_some log.old ≡ false → (result ≡ Ok tt) × (F.state flash.new ≡ F.state flash.old) }
    ensures off { is_some log.old ≡ true → OffChangesNothing (F.state flash.old) result (F.state flash.new) }
    ensures power { OnOk result ((F.state flash.old).is_on ≡ true → (F.state flash.new).is_on ≡ true) }
    ensures cause { IfErr result (λ e. CausedBy (F.state flash.old) e (F.state flash.new)) }
{
    match log {
        None => Ok(()),
        Some(log) => {
            log.add(schema, key, values);
            log.seal(flash)
        }
    }
}

/// No row is pending any more.
pub(crate) fn begin_anew(log: &mut Option<RecordLog>)
    ensures begun { AreBegun log.old log.new }
{
    match log {
        None => {}
        Some(log) => log.begin_anew(),
    }
}
