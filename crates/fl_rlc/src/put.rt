// Puts and flushes of a table with a log.
ghost use Rattle.std.specs.Prelude.{◌≡◌, false, None};

use crate::rows::{begin_anew, log_row};
use crate::table::LoggedTable;
use fl_flash::Flash;
use fl_table::{FlushFault, PutRefusal};

impl<const KNOTS: usize, const SLOTS: usize> LoggedTable<KNOTS, SLOTS> {
    ghost use Rattle.std.specs.Prelude.{◌↔◌, Err};
    ghost use Rattle.fl_table.specs.Causes.{PutCausedBy, FlushCausedBy, put_breaks, flush_breaks};
    ghost use Rattle.fl_parts.specs.Calls.{Over, Changes, bytes_in, length_in};
    ghost use Rattle.fl_table.specs.Memory.{MaySeal};
    ghost use Rattle.fl_table.specs.Mounting.{rings_in as table_rings};
    ghost use Rattle.fl_table.specs.Refusal.{RefusesAs};
    ghost use Rattle.fl_rlc.specs.Calls.{GoesOn, PutsInMemory, PutsPages, FlushesInMemory, FlushesPage, seals_in_put};
    ghost use Rattle.fl_rlc.specs.Logged.{Stands};
    ghost use Rattle.fl_rlc.specs.Outcomes.{PutEnds, FlushEnds};
    ghost use Rattle.fl_rlc.specs.Refusal.{put_refusal};
    ghost use Rattle.fl_rlc.specs.Table.{is_running, table_in, LiesOn, MayPut, OutsideStands};

    /// Puts a record. Its row is pending then, as a table's; with a log all pending rows are sealed as a page of it too, before
    /// this answers. A refusal but `Flash` leaves all as it was, and that of a log without a page number left comes last.
    /// After `Flash` the table is stopped: it is to be mounted again.
    pub fn put<F: Flash>(
        &mut self,
        flash: &mut F,
        key: u64,
        values: &[i64],
        blob: Option<&[u8]>,
    ) -> Result<(), PutRefusal>
        requires lies { LiesOn self.old (F.state flash.old) }
        ensures put { Over (F.state flash.old) (F.state flash.new)
            (Stands self.old (F.state flash.old))
            (λ first plan table rose device. PutEnds first plan
            (record { key = key; values = values.now; blob = bytes_in blob.entry })
            table rose device result self.new (F.state flash.old) (F.state flash.new)) }
        ensures exact { RefusesAs
            (put_refusal self.old key values.now (length_in blob.entry)) result }
        // Whatever the flash holds:
        ensures table { GoesOn self.old (put_breaks result) self.new (F.state flash.new) }
        ensures memory { PutsInMemory self.old (F.state flash.old)
            key values.now (bytes_in blob.entry) result self.new (F.state flash.new) }
        ensures pages { PutsPages self.old (F.state flash.old)
            (put_refusal self.old key values.now (length_in blob.entry))
            (record { key = key; values = values.now; blob = None }) (bytes_in blob.entry)
            result (F.state flash.new) }
        ensures flash { Changes (MayPut self.old (bytes_in blob.entry)) (OutsideStands self.old)
            (seals_in_put self.old (bytes_in blob.entry)) PutCausedBy
            (F.state flash.old) result (F.state flash.new) }
    {
        if let Some(refusal) = self.refusal(key, values, blob) {
            return Err(refusal);
        }
        self.table.put(flash, key, values, blob)?;
        if let Err(fault) = log_row(&mut self.log, self.table.schema(), flash, key, values) {
            self.table.stop();
            return Err(PutRefusal::Flash(fault));
        }
        Ok(())
    }

    /// Flushes: the pending rows become a page of the table. The log isn't touched: it owes nothing then, and its next page
    /// begins anew. After `Flash` the table is stopped: it is to be mounted again.
    pub fn flush<F: Flash>(&mut self, flash: &mut F) -> Result<(), FlushFault>
        requires lies { LiesOn self.old (F.state flash.old) }
        ensures flush { Over (F.state flash.old) (F.state flash.new)
            (Stands self.old (F.state flash.old))
            (λ first plan table rose device. FlushEnds first plan table rose device
            result self.new (F.state flash.old) (F.state flash.new)) }
        ensures exact { (result ≡ Err FlushFault.Stopped) ↔ (is_running self.old ≡ false) }
        // Whatever the flash holds:
        ensures table { GoesOn self.old (flush_breaks result) self.new (F.state flash.new) }
        ensures memory { FlushesInMemory self.old result self.new }
        ensures page { FlushesPage self.old (F.state flash.old)
            result self.new (F.state flash.new) }
        ensures flash { Changes (MaySeal (table_in self.old)) (OutsideStands self.old)
            (table_rings (table_in self.old)) FlushCausedBy
            (F.state flash.old) result (F.state flash.new) }
    {
        // Where no row is pending, none is in the log's next page: nothing changes.
        if self.table.pending_rows() == 0 {
            return self.table.flush(flash);
        }
        self.table.flush(flash)?;
        begin_anew(&mut self.log);
        Ok(())
    }
}
