// A session over a flash.
ghost use Rattle.std.specs.Prelude.{◌≡◌, ◌≤◌, ℕ, ◌*◌, false, Some, None, option_map, if◌then◌else◌, IsTrue};
ghost use Rattle.fl_base.specs.Causes.{HasCause};
ghost use Rattle.fl_flash.specs.Flash.{Goes};
ghost use Rattle.fl_model.specs.Record.{Config};
ghost use Rattle.fl_words.specs.Command as words;
ghost use Rattle.fl_words.specs.Reply.{text};
ghost use Rattle.fl_words.specs.Reply as said;
ghost use Rattle.fl_machine.specs.Machine.{Machine};
ghost use Rattle.fl_machine.specs.Reads.{mounts_limit};
ghost use Rattle.fl_script.specs.CommandView.{command_view};
ghost use Rattle.fl_script.specs.ReplyView.{reply_text};
ghost use Rattle.fl_store.specs.Tables.{pages_of};
ghost use Rattle.fl_session.specs.Answer.{Answers, Reaches};
ghost use Rattle.fl_queries.specs.LookSays.{Says};
ghost use Rattle.fl_session.specs.Caused.{Caused, CostSays, FlushSays, MountSays, OnTable, PutSays, StatSays};
ghost use Rattle.fl_session.specs.Runnable.{IsRunnable};
ghost use Rattle.fl_session.specs.Cost.{ReadsMount};
ghost use Rattle.fl_session.specs.Execute.{Executes};
ghost use Rattle.fl_session.specs.Notes.{no_notes};

use crate::cost::Cost;
use crate::executor::Executor;
use crate::load::load;
use crate::notes::{NO_CURSORS, Notes};
use crate::replies::{cost_reply, flush_breaks, mount_reply, put_breaks};
use fl_base::{KeyRange, Name, Sink, SinkFailed, Span};
use fl_ends::PendingRows;
use fl_flash::{Flash, Media, SimFlash};
use fl_queries::{Buffers, Comparison, Operator, list_rows, look_up, oldest_blob, show_blob};
use fl_rlc::RingCounts;
use fl_script::{Command, LineRoom, Reply, write_reply};
use fl_store::{Tables, flush_reply, put_reply};
use fl_table::TableCounts;

mod cursor;
mod operate;
mod pending;
mod power;

/// A session over a flash: it mounts the tables there and executes commands on them.
pub struct Session<'m, M: Media> {
    flash: SimFlash<'m, M>,
    tables: Tables,
    buf: Buffers,
    mounted: bool,
    notes: Notes,
}

impl<'m, M: Media> Session<'m, M> {
    /// A session that isn't mounted.
    pub(crate) fn new(flash: SimFlash<'m, M>, tables: Tables, buf: Buffers) -> Self
        ensures flash { ⟦<SimFlash<'m, M> as Flash>⟧.state result.flash ≡ ⟦<SimFlash<'m, M> as Flash>⟧.state flash.entry }
        ensures rooms { (result.tables ≡ tables) × (result.buf ≡ buf) }
        ensures off { result.mounted ≡ false }
        ensures fresh { result.notes ≡ no_notes }
    {
        Session {
            flash,
            tables,
            buf,
            mounted: false,
            notes: Notes::new(),
        }
    }

    /// Gives the medium back.
    pub(crate) fn end(self) -> &'m mut M
        ensures same_reference { result.ghost_name ≡ (⟦<SimFlash<'m, M> as Flash>⟧.state self.entry.flash).origin }
        ensures state { M.state result.now ≡ (⟦<SimFlash<'m, M> as Flash>⟧.state self.entry.flash).media }
    {
        let Session {
            flash,
            tables: _,
            buf: _,
            mounted: _,
            notes: _,
        } = self;
        flash.into_media()
    }
}

impl<'m, M: Media> Session<'m, M> {
    /// Mounts the tables: the power goes on, and what stands on the flash is found and repaired.
    fn mount(&mut self) -> Reply
        requires sound { ⟦<Self as Executor>⟧.sound self.old }
        ensures cause { Says (reply_text result) (MountSays (⟦<Self as Executor>⟧.state self.old) (⟦<Self as Executor>⟧.state self.new)) }
        ensures sound { ⟦<Self as Executor>⟧.sound self.new }
        ensures goes { Goes (⟦<Self as Executor>⟧.flash self.old) (⟦<Self as Executor>⟧.flash self.new) }
        ensures step { (config : Config) (old : Machine) → ⟦<Self as Executor>⟧.stands self.old config old →
            Answers config old words.Mount (⟦<Self as Executor>⟧.stands self.new config)
            (⟦<Self as Executor>⟧.flash self.old) (⟦<Self as Executor>⟧.flash self.new) (reply_text result) }
        ensures reads { IsTrue (⟦<Self as Executor>⟧.flash self.old).media.tells →
            ReadsMount self.old.mounted (⟦<Self as Executor>⟧.flash self.old) (⟦<Self as Executor>⟧.flash self.new) (4 * pages_of self.old.tables.entries.items) }
        ensures limit { (config : Config) (old : Machine) → ⟦<Self as Executor>⟧.stands self.old config old →
            ReadsMount self.old.mounted (⟦<Self as Executor>⟧.flash self.old) (⟦<Self as Executor>⟧.flash self.new) (mounts_limit config.plans old.tables) }
    {
        if self.mounted {
            return Reply::AlreadyMounted;
        }
        self.flash.power_on();
        let outcome = self.tables.mount(&mut self.flash, &mut self.buf.rows);
        self.mounted = outcome.is_ok();
        self.buf.keep_while(self.mounted);
        self.notes.cursors = NO_CURSORS;
        mount_reply(outcome)
    }

    /// The place of the table with this name, or why a command on it isn't executed.
    #[inline(always)]
    fn find(&self, name: Name) -> Result<usize, Reply>
        ensures { Reaches self.now.tables.entries.items self.now.mounted name result }
    {
        if !self.mounted {
            return Err(Reply::NotMounted);
        }
        match self.tables.find(name) {
            Some(at) => Ok(at),
            None => Err(Reply::NoTable),
        }
    }

    /// Puts a record.
    fn put(&mut self, name: Name, key: u64, values: &[i64], blob: Option<&[u8]>) -> Reply
        requires sound { ⟦<Self as Executor>⟧.sound self.old }
        ensures cause { Says (reply_text result) (OnTable (⟦<Self as Executor>⟧.state self.old) (⟦<Self as Executor>⟧.state self.new) name (PutSays (⟦<Self as Executor>⟧.state self.old) (⟦<Self as Executor>⟧.state self.new) key values.now (option_map (λ b. b.now) blob.entry))) }
        ensures sound { ⟦<Self as Executor>⟧.sound self.new }
        ensures goes { Goes (⟦<Self as Executor>⟧.flash self.old) (⟦<Self as Executor>⟧.flash self.new) }
        ensures reads { (⟦<Self as Executor>⟧.flash self.new).work.reads ≡ (⟦<Self as Executor>⟧.flash self.old).work.reads }
        ensures step { (config : Config) (old : Machine) → ⟦<Self as Executor>⟧.stands self.old config old →
            Answers config old (words.Put name key values.now (option_map (λ b. b.now) blob.entry)) (⟦<Self as Executor>⟧.stands self.new config)
            (⟦<Self as Executor>⟧.flash self.old) (⟦<Self as Executor>⟧.flash self.new) (reply_text result) }
    {
        let at = match self.find(name) {
            Ok(at) => at,
            Err(refusal) => return refusal,
        };
        let outcome = self.tables.entries[at]
            .table
            .put(&mut self.flash, key, values, blob);
        self.mounted = !put_breaks(&outcome);
        self.buf.keep_while(self.mounted);
        put_reply(outcome)
    }

    /// Makes a page of the rows that wait in memory.
    fn flush(&mut self, name: Name) -> Reply
        requires sound { ⟦<Self as Executor>⟧.sound self.old }
        ensures cause { Says (reply_text result) (OnTable (⟦<Self as Executor>⟧.state self.old) (⟦<Self as Executor>⟧.state self.new) name (FlushSays (⟦<Self as Executor>⟧.state self.old) (⟦<Self as Executor>⟧.state self.new))) }
        ensures sound { ⟦<Self as Executor>⟧.sound self.new }
        ensures goes { Goes (⟦<Self as Executor>⟧.flash self.old) (⟦<Self as Executor>⟧.flash self.new) }
        ensures reads { (⟦<Self as Executor>⟧.flash self.new).work.reads ≡ (⟦<Self as Executor>⟧.flash self.old).work.reads }
        ensures step { (config : Config) (old : Machine) → ⟦<Self as Executor>⟧.stands self.old config old →
            Answers config old (words.Flush name) (⟦<Self as Executor>⟧.stands self.new config)
            (⟦<Self as Executor>⟧.flash self.old) (⟦<Self as Executor>⟧.flash self.new) (reply_text result) }
    {
        let at = match self.find(name) {
            Ok(at) => at,
            Err(refusal) => return refusal,
        };
        let outcome = self.tables.entries[at].table.flush(&mut self.flash);
        self.mounted = !flush_breaks(&outcome);
        self.buf.keep_while(self.mounted);
        flush_reply(outcome)
    }

    /// How much the table holds, and the programs and erases of the whole run.
    fn stat(&self, name: Name) -> Reply
        ensures cause { Says (reply_text result) (OnTable (⟦<Self as Executor>⟧.state self.now) (⟦<Self as Executor>⟧.state self.now) name (StatSays (⟦<Self as Executor>⟧.state self.now) (⟦<Self as Executor>⟧.state self.now))) }
        ensures step { (config : Config) (old : Machine) → ⟦<Self as Executor>⟧.stands self.now config old →
            Answers config old (words.Stat name) (⟦<Self as Executor>⟧.stands self.now config)
            (⟦<Self as Executor>⟧.flash self.now) (⟦<Self as Executor>⟧.flash self.now) (reply_text result) }
    {
        let at = match self.find(name) {
            Ok(at) => at,
            Err(refusal) => return refusal,
        };
        let counts = self.tables.entries[at].table.table().counts();
        let work = self.flash.work();
        Reply::Stat {
            rows: counts.rows,
            pending: counts.pending,
            pages: counts.pages,
            voids: counts.voids,
            programs: work.programs,
            erases: work.erases,
        }
    }

    /// What the last get or scan cost.
    fn cost(&self) -> Reply
        ensures cause { Says (reply_text result) (CostSays (⟦<Self as Executor>⟧.state self.now) (⟦<Self as Executor>⟧.state self.now)) }
        ensures step { (config : Config) (old : Machine) → ⟦<Self as Executor>⟧.stands self.now config old →
            Answers config old words.Cost (⟦<Self as Executor>⟧.stands self.now config)
            (⟦<Self as Executor>⟧.flash self.now) (⟦<Self as Executor>⟧.flash self.now) (reply_text result) }
    {
        cost_reply(self.notes.cost)
    }

    /// Tells the record with the key. The pages that it reads, and how many they might have been, are its cost.
    fn get<K: Sink>(&mut self, name: Name, key: u64, out: &mut K) -> Result<(), SinkFailed>
        requires sound { ⟦<Self as Executor>⟧.sound self.old }
        ensures cause { Caused (words.Get name key) (⟦<Self as Executor>⟧.state self.old) (⟦<Self as Executor>⟧.state self.new)
            (K.written out.old) (K.written out.new) result }
        ensures sound { ⟦<Self as Executor>⟧.sound self.new }
        ensures goes { Goes (⟦<Self as Executor>⟧.flash self.old) (⟦<Self as Executor>⟧.flash self.new) }
        ensures sink { HasCause (K.faults out.old) (K.faults out.new) result }
        ensures step { (config : Config) (old : Machine) → ⟦<Self as Executor>⟧.stands self.old config old →
            Executes config old (words.Get name key) (⟦<Self as Executor>⟧.stands self.new config)
            (⟦<Self as Executor>⟧.flash self.old) (⟦<Self as Executor>⟧.flash self.new) (K.written out.old) (K.written out.new) result }
    {
        let at = match self.find(name) {
            Ok(at) => at,
            Err(refusal) => return write_reply(&refusal, out),
        };
        let table = self.tables.entries[at].table.table();
        let limit = table.lookup_limit(key);
        let before = self.flash.work().reads;
        let reply = look_up(table, key, &mut self.flash, &mut self.buf.rows);
        let reads = self.flash.work().reads.saturating_sub(before);
        self.notes.cost = Cost::OfGet { reads, limit };
        write_reply(&reply, out)
    }

    /// Tells the blob of the record with the key.
    fn blob<K: Sink>(&mut self, name: Name, key: u64, out: &mut K) -> Result<(), SinkFailed>
        requires sound { ⟦<Self as Executor>⟧.sound self.old }
        ensures cause { Caused (words.Blob name key) (⟦<Self as Executor>⟧.state self.old) (⟦<Self as Executor>⟧.state self.new)
            (K.written out.old) (K.written out.new) result }
        ensures sound { ⟦<Self as Executor>⟧.sound self.new }
        ensures goes { Goes (⟦<Self as Executor>⟧.flash self.old) (⟦<Self as Executor>⟧.flash self.new) }
        ensures sink { HasCause (K.faults out.old) (K.faults out.new) result }
        ensures step { (config : Config) (old : Machine) → ⟦<Self as Executor>⟧.stands self.old config old →
            Executes config old (words.Blob name key) (⟦<Self as Executor>⟧.stands self.new config)
            (⟦<Self as Executor>⟧.flash self.old) (⟦<Self as Executor>⟧.flash self.new) (K.written out.old) (K.written out.new) result }
    {
        let at = match self.find(name) {
            Ok(at) => at,
            Err(refusal) => return write_reply(&refusal, out),
        };
        let table = self.tables.entries[at].table.table();
        // Its call tells the proof that the count of reads is within its bounds.
        let _before = self.flash.work();
        show_blob(table, key, &mut self.flash, &mut self.buf.rows, out)
    }

    /// Lists the rows that are asked for, and their number. The pages that it reads are its cost.
    fn scan<K: Sink>(
        &mut self,
        name: Name,
        range: KeyRange,
        span: Option<Span>,
        out: &mut K,
    ) -> Result<(), SinkFailed>
        requires sound { ⟦<Self as Executor>⟧.sound self.old }
        ensures cause { Caused (words.Scan name range span) (⟦<Self as Executor>⟧.state self.old) (⟦<Self as Executor>⟧.state self.new)
            (K.written out.old) (K.written out.new) result }
        ensures sound { ⟦<Self as Executor>⟧.sound self.new }
        ensures goes { Goes (⟦<Self as Executor>⟧.flash self.old) (⟦<Self as Executor>⟧.flash self.new) }
        ensures sink { HasCause (K.faults out.old) (K.faults out.new) result }
        ensures step { (config : Config) (old : Machine) → ⟦<Self as Executor>⟧.stands self.old config old →
            Executes config old (words.Scan name range span) (⟦<Self as Executor>⟧.stands self.new config)
            (⟦<Self as Executor>⟧.flash self.old) (⟦<Self as Executor>⟧.flash self.new) (K.written out.old) (K.written out.new) result }
    {
        let at = match self.find(name) {
            Ok(at) => at,
            Err(refusal) => return write_reply(&refusal, out),
        };
        let table = self.tables.entries[at].table.table();
        let before = self.flash.work().reads;
        let written = list_rows(table, range, span, &mut self.flash, &mut self.buf, out);
        let reads = self.flash.work().reads.saturating_sub(before);
        self.notes.cost = Cost::OfScan { reads };
        written
    }

    /// Puts generated records, up to the first one that is refused, and tells how many.
    fn load<K: Sink>(
        &mut self,
        name: Name,
        count: u64,
        step: u64,
        seed: u64,
        out: &mut K,
    ) -> Result<(), SinkFailed>
        requires sound { ⟦<Self as Executor>⟧.sound self.old }
        requires steps { 1 ≤ step }
        ensures cause { Caused (words.Load name count step seed) (⟦<Self as Executor>⟧.state self.old) (⟦<Self as Executor>⟧.state self.new)
            (K.written out.old) (K.written out.new) result }
        ensures sound { ⟦<Self as Executor>⟧.sound self.new }
        ensures goes { Goes (⟦<Self as Executor>⟧.flash self.old) (⟦<Self as Executor>⟧.flash self.new) }
        ensures reads { (⟦<Self as Executor>⟧.flash self.new).work.reads ≡ (⟦<Self as Executor>⟧.flash self.old).work.reads }
        ensures sink { HasCause (K.faults out.old) (K.faults out.new) result }
        ensures step { (config : Config) (old : Machine) → ⟦<Self as Executor>⟧.stands self.old config old →
            Executes config old (words.Load name count step seed) (⟦<Self as Executor>⟧.stands self.new config)
            (⟦<Self as Executor>⟧.flash self.old) (⟦<Self as Executor>⟧.flash self.new) (K.written out.old) (K.written out.new) result }
    {
        let at = match self.find(name) {
            Ok(at) => at,
            Err(refusal) => return write_reply(&refusal, out),
        };
        let table = &mut self.tables.entries[at].table;
        let loaded = load(table, &mut self.flash, count, step, seed);
        self.mounted = !put_breaks(&loaded.outcome);
        self.buf.keep_while(self.mounted);
        loaded.write(out)
    }
}

/// The blob of a put, which stands in the room of its line.
fn blob_in(room: &LineRoom, blob: bool) -> Option<&[u8]>
    ensures { option_map (λ b. b.now) result ≡ (if blob then Some room.now else None) }
{
    if blob { Some(room.bytes()) } else { None }
}

impl<'m, M: Media> Executor for Session<'m, M> {
    ghost use Rattle.std.proofs.Common.{refl};
    ghost use Rattle.fl_session.specs.Caused.{state_of};
    ghost use Rattle.fl_session.specs.Standing.{SessionStands, IsSound};
    ghost use Rattle.fl_session.specs.TablesHold.{keys-fit, tables-hold};

    ghost stands = { λ s config. SessionStands config s.tables.entries.items (⟦<SimFlash<'m, M> as Flash>⟧.state s.flash) s.mounted s.notes };

    ghost sound = { λ s. IsSound s.tables.entries.items (⟦<SimFlash<'m, M> as Flash>⟧.state s.flash) s.buf s.mounted s.notes };

    ghost flash = { λ s. ⟦<SimFlash<'m, M> as Flash>⟧.state s.flash };

    ghost state = { λ s. state_of s.tables.entries.items s.mounted s.notes (⟦<SimFlash<'m, M> as Flash>⟧.state s.flash) };

    ghost state_flash = { λ s. refl };

    ghost is_powered = { λ s h. h.power };

    ghost tables_hold = { λ s config m h. tables-hold config s.tables.entries.items _ s.mounted s.notes m h };

    ghost same_device = { λ s config m h. h.device };

    ghost keys_fit = { λ s config m h. keys-fit config s.tables.entries.items _ s.mounted s.notes m h };

    fn execute<K: Sink>(
        &mut self,
        command: &Command,
        room: &LineRoom,
        out: &mut K,
    ) -> Result<(), SinkFailed> {
        let reply = match command {
            Command::Mount => self.mount(),
            Command::Off => self.off(),
            Command::Cut { n, kind } => self.cut(*n, *kind),
            Command::Put {
                name,
                key,
                values,
                blob,
            } => self.put(*name, *key, values.as_slice(), blob_in(room, *blob)),
            Command::Flush { name } => self.flush(*name),
            Command::Stat { name } => self.stat(*name),
            Command::Cost => self.cost(),
            Command::Open {
                cursor,
                name,
                range,
                span,
            } => self.open(*cursor, *name, *range, *span),
            Command::Close { cursor } => self.close(*cursor),
            Command::Get { name, key } => return self.get(*name, *key, out),
            Command::Blob { name, key } => return self.blob(*name, *key, out),
            Command::Scan { name, range, span } => {
                return self.scan(*name, *range, *span, out);
            }
            Command::Next { cursor, count } => return self.next(*cursor, *count, out),
            Command::Select {
                name,
                range,
                column,
                op,
                value,
            } => {
                let comparison = Comparison {
                    column: *column as usize,
                    op: *op,
                    value: *value,
                };
                return self.operate(*name, *range, Operator::Select(comparison), out);
            }
            Command::Project {
                name,
                range,
                columns,
            } => {
                let columns = columns.as_slice();
                return self.operate(*name, *range, Operator::Project(columns), out);
            }
            Command::Agg {
                name,
                range,
                column,
                width,
            } => {
                let operator = Operator::Aggregate {
                    column: *column as usize,
                    width: *width,
                };
                return self.operate(*name, *range, operator, out);
            }
            Command::Join { left, right, range } => return self.join(*left, *right, *range, out),
            Command::Load {
                name,
                count,
                step,
                seed,
            } => return self.load(*name, *count, *step, *seed, out),
            _ => return Ok(()),
        };
        write_reply(&reply, out)
    }

    fn last_key(&self, name: Name) -> Result<Option<u64>, Reply> {
        let at = match self.find(name) {
            Ok(at) => at,
            Err(refusal) => return Err(refusal),
        };
        Ok(self.tables.entries[at].table.table().last_key())
    }

    fn counts(&self, name: Name) -> Result<TableCounts, Reply> {
        let at = match self.find(name) {
            Ok(at) => at,
            Err(refusal) => return Err(refusal),
        };
        Ok(self.tables.entries[at].table.table().counts())
    }

    fn rings(&self, name: Name) -> Result<RingCounts, Reply> {
        let at = match self.find(name) {
            Ok(at) => at,
            Err(refusal) => return Err(refusal),
        };
        Ok(self.tables.entries[at].table.rings())
    }

    fn oldest_blob(&mut self, name: Name) -> Result<Option<u64>, Reply> {
        let at = match self.find(name) {
            Ok(at) => at,
            Err(refusal) => return Err(refusal),
        };
        let table = self.tables.entries[at].table.table();
        oldest_blob(table, &mut self.flash, &mut self.buf)
    }

    fn pending(&self) -> PendingRows {
        PendingRows {
            tables: [
                self.pending_at(0),
                self.pending_at(1),
                self.pending_at(2),
                self.pending_at(3),
            ],
        }
    }
}
