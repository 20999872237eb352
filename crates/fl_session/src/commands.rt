// Commands, one after another.
ghost use Rattle.std.specs.Prelude.{◌≡◌, ℕ, ◌+◌, ◌^◌, ◌<◌, ◌≤◌, List, ◌++◌, Some, Ok, true, []};
ghost use Rattle.fl_base.specs.Causes.{Rose};
ghost use Rattle.fl_model.specs.Record.{Config};
ghost use Rattle.fl_flash.specs.Flash.{Stays};
ghost use Rattle.fl_script.specs.CommandView.{command_view};
ghost use Rattle.fl_session.specs.CausedEach.{CausedEach, CausedInto};
ghost use Rattle.fl_session.specs.Execute.{RanAll, RanPart};
ghost use Rattle.fl_session.specs.Next.{IsToRun};
ghost use Rattle.fl_session.specs.Loop.{EndsCommands};
ghost use Rattle.fl_session.specs.Pending.{TellsPending};
ghost use Rattle.fl_session.specs.Run.{IsOfCommands, around_of, tail_of};
ghost use Rattle.fl_session.specs.Told.{TellsRows};
ghost use Rattle.fl_machine.specs.Machine.{Machine};

use crate::executor::Executor;
use crate::next::next_run;
use fl_base::{Sink, Source};
use fl_ends::Status;
use fl_lines::Lines;
use fl_script::{Command, LineRoom};

/// Executes a command, which is the line of this number, and then those of the lines behind it. Each reply is written
/// before the next line is read.
pub(crate) fn run_commands<T: Executor, S: Source, K: Sink>(
    session: &mut T,
    first: Command,
    number: u64,
    lines: &mut Lines,
    room: &mut LineRoom,
    script: &mut S,
    out: &mut K,
) -> Status
    requires sound { T.sound session.old }
    requires unread { (T.flash session.old).work.reads ≡ 0 }
    requires numbered { number + lines.old.most < 2 ^ 32 }
    requires reads { IsToRun lines.old.line (command_view first room.old) }
    ensures runs { (config : Config) (left : List ℕ) → S.left script.old ≡ Some left → (lines.old.closed ≡ true → lines.old.ahead ++ left ≡ []) →
        EndsCommands (tail_of number lines.old left) (S.left script.new)
        (λ commands. RanAll (around_of config (T.flash session.old).media (T.flash session.new).media (K.written out.old) (K.written out.new)) (T.stands session.old config) (T.stands session.new config) commands)
        (λ commands. RanPart (around_of config (T.flash session.old).media (T.flash session.new).media (K.written out.old) (K.written out.new)) (T.stands session.old config) (T.stands session.new config) commands) result }
    ensures causes { (left : List ℕ) → S.left script.old ≡ Some left → (lines.old.closed ≡ true → lines.old.ahead ++ left ≡ []) →
        EndsCommands (tail_of number lines.old left) (S.left script.new)
        (λ commands. CausedEach commands (T.state session.old) (T.state session.new) (K.written out.old) (K.written out.new))
        (λ commands. CausedInto commands (T.state session.old) (T.state session.new) (K.written out.old) (K.written out.new)) result }
    ensures tells { (config : Config) (m : Machine) → T.stands session.new config m → TellsPending config result m }
    ensures rows { TellsRows (T.state session.new) result }
    ensures read { result ≡ Status.ScriptRead → Rose (S.faults script.old) (S.faults script.new) }
    ensures write { result ≡ Status.OutWrite → Rose (K.faults out.old) (K.faults out.new) }
    ensures statuses { IsOfCommands result }
    ensures later { (S.faults script.old ≤ S.faults script.new) × (K.faults out.old ≤ K.faults out.new) }
    ensures goes { Stays (T.flash session.old) (T.flash session.new) }
{
    let mut command = first;
    let mut line = number;
    'lines: loop {
        match session.execute(&command, room, out) {
            Ok(()) => {}
            Err(_) => return Status::OutWrite,
        }
        line += 1;
        match next_run(lines, room, script, line) {
            Ok(Some(next)) => command = next,
            Ok(None) => {
                return Status::Done {
                    pending: session.pending(),
                };
            }
            Err(status) => return status,
        }
    }
}
