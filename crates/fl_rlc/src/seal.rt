// The pages of a log.
ghost use Rattle.std.specs.Prelude.{◌≡◌, ◌+◌, ◌<◌, ◌≤◌, true, is_ok, IsTrue, IfErr, OnOk, length};
ghost use Rattle.fl_flash.specs.Flash.{Goes, OffChangesNothing, page_at};
ghost use Rattle.fl_frame.specs.Causes.{CausedBy};

use crate::log::RecordLog;
use fl_flash::{Flash, FlashFault};
use fl_schema::Schema;

impl RecordLog {
    ghost use Rattle.std.specs.Prelude.{ℕ, Bool, None, List, [], ◌∷◌, ◌++◌};
    ghost use Rattle.fl_flash.specs.Flash.{FlashState};
    ghost use Rattle.fl_model.specs.Record.{Plan, RowLayout, layout_len};
    ghost use Rattle.fl_model.specs.Row.{Row, FitsRow};
    ghost use Rattle.fl_model.specs.Table as model;
    ghost use Rattle.fl_model.specs.Work.{Device};
    ghost use Rattle.fl_page.specs.Writer.{Gathers};
    ghost use Rattle.fl_ring.specs.Ring.{OutsideStands};
    ghost use Rattle.fl_ring.specs.Written.{Writes, done};
    ghost use Rattle.fl_frame.specs.Watched.{IsWatched};
    ghost use Rattle.fl_rlc.specs.Memory.{is_mounted, next_in, oldest_in, oldest_after, rows_in, page_len, kept_rows, log_shape, IsSamePlan, LiesOn, LogAhead, MaySeal};
    ghost use Rattle.fl_rlc.specs.Paged.{RowsLogged};
    ghost use Rattle.fl_rlc.specs.Sealing.{IsReady, SealEnds};
    ghost use Rattle.fl_schema.specs.Schema.{layout_of};

    /// Where no row more has room in the next page, that page was full, and its rows begin anew.
    fn make_room(&mut self, schema: &Schema<8>)
        requires room { layout_len (layout_of schema.now) + 24 ≤ page_len self.old }
        ensures same { IsSamePlan self.old self.new }
        ensures ring { self.new.ring ≡ self.old.ring }
        ensures lies { (f : FlashState) → LiesOn self.old f → LiesOn self.new f }
        ensures room { (rows_in self.new).end + layout_len (layout_of schema.now) ≤ length (rows_in self.new).body }
        ensures rows { (rows : List Row) → Gathers (layout_of schema.now) rows (rows_in self.old) → Gathers (layout_of schema.now) (kept_rows (layout_of schema.now) (rows_in self.old) rows) (rows_in self.new) }
    {
        if self.rows.is_full(schema) {
            self.rows.clear();
        }
    }

    /// No row is left in the next page.
    pub(crate) fn begin_anew(&mut self)
        ensures same { IsSamePlan self.old self.new }
        ensures ring { self.new.ring ≡ self.old.ring }
        ensures lies { (f : FlashState) → LiesOn self.old f → LiesOn self.new f }
        ensures rows { (layout : RowLayout) (rows : List Row) → Gathers layout rows (rows_in self.old) → Gathers layout [] (rows_in self.new) }
    {
        self.rows.clear();
    }

    /// One row more joins those of the next page.
    pub(crate) fn add(&mut self, schema: &Schema<8>, key: u64, values: &[i64])
        requires fits { FitsRow (layout_of schema.now) (record { key = key; values = values.now; blob = None }) }
        requires room { layout_len (layout_of schema.now) + 24 ≤ page_len self.old }
        ensures same { IsSamePlan self.old self.new }
        ensures ring { self.new.ring ≡ self.old.ring }
        ensures lies { (f : FlashState) → LiesOn self.old f → LiesOn self.new f }
        ensures joins { (rows : List Row) → Gathers (layout_of schema.now) rows (rows_in self.old) →
            Gathers (layout_of schema.now) (kept_rows (layout_of schema.now) (rows_in self.old) rows ++ (record { key = key; values = values.now; blob = None }) ∷ []) (rows_in self.new) }
    {
        self.make_room(schema);
        self.rows.push_row(schema, key, values, None);
    }

    /// Seals the rows as the next page; they stay those of the page after it. After an error the log isn't mounted.
    pub(crate) fn seal<F: Flash>(&mut self, flash: &mut F) -> Result<(), FlashFault>
        requires mounted { is_mounted self.old ≡ true }
        requires lies { LiesOn self.old (F.state flash.old) }
        requires left { next_in self.old + 1 ≤ 4294967291 }
        ensures goes { Goes (F.state flash.old) (F.state flash.new) }
        ensures same { IsSamePlan self.old self.new }
        ensures lies { LiesOn self.new (F.state flash.new) }
        ensures mounted { is_mounted self.new ≡ is_ok result }
        ensures next { OnOk result (next_in self.new ≡ next_in self.old + 1) }
        ensures oldest { OnOk result (oldest_in self.new ≡ oldest_after self.old) }
        ensures rows { (layout : RowLayout) (rows : List Row) → Gathers layout rows (rows_in self.old) → Gathers layout rows (rows_in self.new) }
        ensures ends { (first : ℕ) (plan : Plan) (table : model.Table) (rose : Bool) (device : Device) → IsWatched (F.state flash.old) (F.state flash.new) rose device
            → IsReady self.old (F.state flash.old) first plan table → SealEnds first plan table rose device self.old (F.state flash.old) result self.new (F.state flash.new) }
        ensures outside { IsTrue (F.state flash.old).media.tells → OutsideStands (log_shape self.old) (page_at (F.state flash.old)) (page_at (F.state flash.new)) }
        ensures writes { Writes (MaySeal self.old) (done result) 1 (F.state flash.old) (F.state flash.new) }
        ensures page { OnOk result (IsTrue (F.state flash.old).media.tells → (layout : RowLayout) → (rows : List Row) → Gathers layout rows (rows_in self.old) → RowsLogged self.old layout rows (page_at (F.state flash.old)) (page_at (F.state flash.new))) }
        ensures ahead { OnOk result (IsTrue (F.state flash.old).media.tells → LogAhead self.old (page_at (F.state flash.new))) }
        ensures reads { (F.state flash.new).work.reads ≡ (F.state flash.old).work.reads }
        ensures media_reads { (F.state flash.new).media.reads ≤ (F.state flash.old).media.reads + 1 }
        ensures off { OffChangesNothing (F.state flash.old) result (F.state flash.new) }
        ensures power { OnOk result ((F.state flash.new).is_on ≡ true) }
        ensures cause { IfErr result (λ e. CausedBy (F.state flash.old) e (F.state flash.new)) }
    {
        let Some(mut ring) = self.ring.take() else {
            unreachable!()
        };
        self.rows.finish(ring.next_number(), 0);
        ring.seal(flash, self.rows.body())?;
        self.ring = Some(ring);
        Ok(())
    }
}
