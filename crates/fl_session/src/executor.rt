// What executes commands.
ghost use Rattle.std.specs.Prelude.{◌≡◌, ◌≤◌, ℕ, List, Option, Some, slice_get};
ghost use Rattle.fl_base.specs.Causes.{HasCause};
ghost use Rattle.fl_flash.specs.Flash.{FlashState, Stays};
ghost use Rattle.fl_model.specs.Record.{Config, Plan};
ghost use Rattle.fl_machine.specs.Machine.{Machine};
ghost use Rattle.fl_machine.specs.Small.{AreTables};
ghost use Rattle.fl_frame.specs.Device.{SameDevice};
ghost use Rattle.fl_rlc.specs.Rings.{rings_in};
ghost use Rattle.fl_rlc.specs.Table.{table_in};
ghost use Rattle.fl_script.specs.CommandView.{command_view};
ghost use Rattle.fl_session.specs.Caused.{Caused, IsPowered, State};
ghost use Rattle.fl_session.specs.Execute.{Executes};
ghost use Rattle.fl_session.specs.Held.{TellsTable, TellsCounts, TellsLast, TellsRings};
ghost use Rattle.fl_session.specs.Oldest.{LooksFor};
ghost use Rattle.fl_session.specs.Pending.{pending_in};
ghost use Rattle.fl_session.specs.Runnable.{IsRunnable};
ghost use Rattle.fl_session.specs.Told.{OldestSays, TellsOf, pending_rows};
ghost use Rattle.fl_table.specs.Look.{counts_in, last_key_in};

use fl_base::{Name, Sink, SinkFailed};
use fl_ends::PendingRows;
use fl_rlc::RingCounts;
use fl_script::{Command, LineRoom, Reply};
use fl_table::TableCounts;

/// What executes commands.
pub trait Executor {
    /// The states of the machine for which it stands, where the store is configured so.
    ghost stands: { Self → Config → Machine → Type 0 };

    /// What holds of it always.
    ghost sound: { Self → Type 0 };

    /// The flash on which it stands.
    ghost flash: { Self → FlashState };

    /// What it has in memory, and its flash.
    ghost state: { Self → State };

    /// The flash of its state is the one on which it stands.
    ghost state_flash: { (s : Self) → (state s).flash ≡ flash s };

    /// Where something is mounted the power is on.
    ghost is_powered: { (s : Self) → sound s → IsPowered (state s) };

    /// Executes a command and writes its replies.
    /// # Errors
    /// The sink failed: a first part of the replies is written, and all but the cursors is as it is after the command.
    fn execute<K: Sink>(
        &mut self,
        command: &Command,
        room: &LineRoom,
        out: &mut K,
    ) -> Result<(), SinkFailed>
        requires sound { sound self.old }
        requires runnable { IsRunnable (command_view command.now room.now) }
        ensures cause { Caused (command_view command.now room.now) (state self.old) (state self.new) (K.written out.old) (K.written out.new) result }
        ensures sound { sound self.new }
        ensures goes { Stays (flash self.old) (flash self.new) }
        ensures sink { HasCause (K.faults out.old) (K.faults out.new) result }
        ensures step { (config : Config) (old : Machine) → stands self.old config old →
            Executes config old (command_view command.now room.now) (stands self.new config) (flash self.old) (flash self.new) (K.written out.old) (K.written out.new) result };

    /// The last key of the table with this name, where it has a record; or why none is told. It is in memory: no page is read.
    /// # Errors
    /// `NotMounted` and `NoTable`, as a command on the table answers.
    fn last_key(&self, name: Name) -> Result<Option<u64>, Reply>
        ensures holds { (config : Config) (m : Machine) → stands self.now config m → TellsTable config m name TellsLast result }
        ensures cause { TellsOf (state self.now) name (λ entry key. key ≡ last_key_in (table_in entry.table)) result };

    /// How much the table with this name holds; or why nothing is told. No page is read.
    /// # Errors
    /// `NotMounted` and `NoTable`, as a command on the table answers.
    fn counts(&self, name: Name) -> Result<TableCounts, Reply>
        ensures holds { (config : Config) (m : Machine) → stands self.now config m → TellsTable config m name TellsCounts result }
        ensures cause { TellsOf (state self.now) name (λ entry counts. counts ≡ counts_in (table_in entry.table)) result };

    /// How many pages each ring of the table with this name keeps; or why nothing is told. No page is read.
    /// # Errors
    /// `NotMounted` and `NoTable`, as a command on the table answers.
    fn rings(&self, name: Name) -> Result<RingCounts, Reply>
        ensures holds { (config : Config) (m : Machine) → stands self.now config m → TellsTable config m name TellsRings result }
        ensures cause { TellsOf (state self.now) name (λ entry rings. rings ≡ rings_in entry.table) result };

    /// The key of the oldest record of the table with this name whose blob isn't gone, if there is one; or why none is told. A
    /// blob without a byte is never gone. Pages of rows are read, up to that of the record.
    /// # Errors
    /// `NotMounted`, `NoTable` and `ReadFault`, as a command on the table answers; and `BadPage`, which comes from no state
    /// for which it stands.
    fn oldest_blob(&mut self, name: Name) -> Result<Option<u64>, Reply>
        requires { sound self.old }
        ensures cause { OldestSays (state self.old) (state self.new) name result }
        ensures sound { sound self.new }
        ensures goes { Stays (flash self.old) (flash self.new) }
        ensures looks { (config : Config) (m : Machine) → stands self.old config m → LooksFor config m name (stands self.new config) (flash self.old) (flash self.new) result };

    /// The rows that no flush has written. They are in memory: no page is read.
    fn pending(&self) -> PendingRows
        ensures holds { (config : Config) (m : Machine) → stands self.now config m → result.tables ≡ pending_in config m }
        ensures cause { result.tables ≡ pending_rows (state self.now) };

    /// Each table of a state for which it stands is one of its plan.
    ghost tables_hold: { (s : Self) (config : Config) (m : Machine) → stands s config m → AreTables config.plans m.tables };

    /// It counts the programs and erases of its flash.
    ghost same_device: { (s : Self) (config : Config) (m : Machine) → stands s config m → SameDevice (flash s) m.device };

    /// The keys of each of its tables have eight bytes at most.
    ghost keys_fit: { (s : Self) (config : Config) (m : Machine) → stands s config m → (place : ℕ) (plan : Plan) → slice_get config.plans place ≡ Some plan → plan.key_bytes ≤ 8 };
}
