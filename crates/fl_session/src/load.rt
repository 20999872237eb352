// The puts of a load.
ghost use Rattle.std.specs.Prelude.{◌≡◌, ◌≤◌, ◌+◌, ◌*◌, ℕ, ◌&&◌, List, not, true, false, IsTrue, IfErr, Some, slice_get};
ghost use Rattle.fl_base.specs.Causes.{HasCause};
ghost use Rattle.fl_flash.specs.Flash.{Goes, page_at};
ghost use Rattle.fl_model.specs.Record.{Config};
ghost use Rattle.fl_words.specs.Command as words;
ghost use Rattle.fl_words.specs.Reply.{texts};
ghost use Rattle.fl_machine.specs.Machine.{Machine};
ghost use Rattle.fl_rlc.specs.Table.{is_running, rings_in, IsSamePlan, LiesOn, OutsideStands};
ghost use Rattle.fl_script.specs.Written.{Written};
ghost use Rattle.fl_table.specs.Causes.{put_breaks};
ghost use Rattle.fl_store.specs.Tables.{IsNamed, entries_with};
ghost use Rattle.fl_store.specs.declared.tables.Entry.{Entry};
ghost use Rattle.fl_session.specs.Answer.{Answers, load_replies};
ghost use Rattle.fl_session.specs.Caused.{LoadCounts};
ghost use Rattle.fl_session.specs.LoadSays.{LoadFails, PutsRecords};
ghost use Rattle.fl_session.specs.Standing.{SessionStands};
ghost use Rattle.fl_session.specs.declared.notes.Notes.{Notes};

use crate::generator::Generator;
use fl_base::{Sink, SinkFailed};
use fl_flash::Flash;
use fl_script::{Reply, write_reply};
use fl_store::{LoggedTable, put_reply};
use fl_table::PutRefusal;

/// How a load ended.
#[derive(Clone, Copy, Debug)]
pub(crate) struct Loaded {
    /// How many records were put.
    pub(crate) count: u64,
    /// Whether the next one was refused, and the load stopped there.
    pub(crate) outcome: Result<(), PutRefusal>,
}

impl Loaded {
    /// Writes how many records were put, and why the next one wasn't.
    pub(crate) fn write<K: Sink>(&self, out: &mut K) -> Result<(), SinkFailed>
        ensures text { Written (K.written out.old) (K.written out.new) result (texts (load_replies self.now.count self.now.outcome)) }
        ensures cause { HasCause (K.faults out.old) (K.faults out.new) result }
    {
        write_reply(&Reply::Loaded { count: self.count }, out)?;
        if self.outcome.is_err() {
            write_reply(&put_reply(self.outcome), out)?;
        }
        Ok(())
    }
}

/// Puts as many generated records, up to the first one that is refused.
pub(crate) fn load<F: Flash>(
    table: &mut LoggedTable,
    flash: &mut F,
    count: u64,
    step: u64,
    seed: u64,
) -> Loaded
    requires lies { LiesOn table.old (F.state flash.old) }
    requires steps { 1 ≤ step }
    ensures answers { (config : Config) → (entries : List Entry) → (at : ℕ) → (entry : Entry) → (name : List ℕ) → (notes : Notes) → (old : Machine) → SessionStands config entries (F.state flash.old) true notes old →
        slice_get entries at ≡ Some entry → entry.table ≡ table.old → IsNamed entries name at →
        Answers config old (words.Load name count step seed) (SessionStands config (entries_with entries at entry table.new) (F.state flash.new) (not (put_breaks result.outcome)) notes)
        (F.state flash.old) (F.state flash.new) (texts (load_replies result.count result.outcome)) }
    ensures counted { LoadCounts count result.count result.outcome }
    ensures puts { PutsRecords step seed result.count table.old (F.state flash.old) result.outcome table.new (F.state flash.new) }
    ensures fails { is_running table.old ≡ true → IfErr result.outcome (LoadFails (F.state flash.old) (F.state flash.new)) }
    ensures running { is_running table.new ≡ (is_running table.old && not (put_breaks result.outcome)) }
    ensures power { put_breaks result.outcome ≡ false → (F.state flash.old).is_on ≡ true → (F.state flash.new).is_on ≡ true }
    ensures same { IsSamePlan table.old table.new }
    ensures outside { IsTrue (F.state flash.old).media.tells → OutsideStands table.old (page_at (F.state flash.old)) (page_at (F.state flash.new)) }
    ensures reads { (F.state flash.new).work.reads ≡ (F.state flash.old).work.reads }
    ensures media_reads { (F.state flash.new).media.reads ≤ (F.state flash.old).media.reads + (result.count + 1) * rings_in table.old }
    ensures goes { Goes (F.state flash.old) (F.state flash.new) }
    ensures lies { LiesOn table.new (F.state flash.new) }
{
    let mut records = Generator::new(table.table(), step, seed);
    for loaded in 0..count {
        let record = records.next(table.table().last_key());
        let outcome = table.put(flash, record.key, record.values.as_slice(), None);
        if outcome.is_err() {
            return Loaded {
                count: loaded,
                outcome,
            };
        }
    }
    Loaded {
        count,
        outcome: Ok(()),
    }
}
