// The flush of what is pending when a shell ends.
ghost use Rattle.std.specs.Prelude.{◌≡◌, ℕ, List};
ghost use Rattle.fl_flash.specs.Flash.{Stays};
ghost use Rattle.fl_model.specs.Record.{Config as Configuration};
ghost use Rattle.fl_machine.specs.Machine.{Machine};
ghost use Rattle.fl_machine.specs.Step.{Moment};
ghost use Rattle.fl_session.specs.Execute.{IsReady, StandsAlike};
ghost use Rattle.fl_shell.specs.Caused.{CausesFlush, FlushesOver, PendingAre, PendingIs};
ghost use Rattle.fl_shell.specs.Causes.{names_of};
ghost use Rattle.fl_shell.specs.Flushing.{FlushesBehind, FlushesOne};
ghost use Rattle.fl_shell.specs.Talk.{RanOver, pending_in, pending_rows};

use crate::heard::Heard;
use fl_base::Name;
use fl_config::Config;
use fl_ends::Flushed;
use fl_script::{Command, LineRoom, is};
use fl_session::Executor;

/// How many rows of a table are pending; none in a session that isn't mounted.
fn pending_in<E: Executor>(session: &E, name: Name) -> u32
    ensures holds { (config : Configuration) (m : Machine) → E.stands session.now config m → result ≡ pending_in config m name }
    ensures told { PendingIs (E.state session.now) name result }
{
    match session.counts(name) {
        Ok(counts) => counts.pending,
        Err(_) => 0,
    }
}

/// How many rows of all tables are pending.
fn pending_rows<E: Executor>(session: &E, config: &Config) -> u64
    ensures holds { (configured : Configuration) (m : Machine) → configured.plans ≡ config.now.plans → E.stands session.now configured m → result ≡ pending_rows configured m }
    ensures told { PendingAre (E.state session.now) (names_of config.now) result }
{
    let mut rows: u64 = 0;
    'tables: for at in 0..config.tables() {
        rows += u64::from(pending_in(session, config.name(at)));
    }
    rows
}

/// Flushes a table, and tells whether the answer was `ok`.
fn flush_table<E: Executor>(session: &mut E, name: Name, room: &LineRoom) -> bool
    requires { E.sound session.old }
    ensures sound { E.sound session.new }
    ensures goes { Stays (E.flash session.old) (E.flash session.new) }
    ensures told { CausesFlush (E.state session.old) (E.state session.new) name result }
    ensures flushes { (config : Configuration) (m : Machine) → E.stands session.old config m →
        FlushesOne config m name (E.stands session.new config) (E.flash session.old) (E.flash session.new) result }
{
    let mut heard = Heard::new();
    let flush = Command::Flush { name };
    let executed = session.execute(&flush, room, &mut heard);
    let answer = heard.bytes();
    match executed {
        Ok(()) => is(answer, b"ok\n"),
        Err(_) => false,
    }
}

/// Flushes each table, in their order, where rows are pending.
pub(crate) fn flush_all<E: Executor>(session: &mut E, config: &Config, room: &LineRoom) -> Flushed
    requires { E.sound session.old }
    ensures sound { E.sound session.new }
    ensures goes { Stays (E.flash session.old) (E.flash session.new) }
    ensures told { FlushesOver (names_of config.now) (E.state session.old) (E.state session.new) result }
    // Behind a run of some moments the flushes go on with it, whatever cursors are open then.
    ensures flushes { (configured : Configuration) (old : Machine) (moments : List Moment) (content : List ℕ) (faults : ℕ) →
        configured.plans ≡ config.now.plans → IsReady configured old →
        RanOver configured old moments (StandsAlike (E.stands session.old configured)) content (E.flash session.old).media.content faults (E.flash session.old).media.faults →
        FlushesBehind configured old moments (StandsAlike (E.stands session.new configured)) content (E.flash session.new).media.content faults (E.flash session.new).media.faults result }
{
    let pending = pending_rows(session, config);
    if pending == 0 {
        return Flushed { pending, all: true };
    }
    let mut done = true;
    'tables: for at in 0..config.tables() {
        let flushed = flush_table(session, config.name(at), room);
        done = done && flushed;
    }
    let left = pending_rows(session, config);
    Flushed {
        pending,
        all: done && left == 0,
    }
}
