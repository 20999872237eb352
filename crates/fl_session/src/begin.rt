// The configuration of a script, line by line.
ghost use Rattle.std.specs.Prelude.{◌≡◌, ◌≤◌, ℕ, List, Option, true, Some, None, IfOk, IfErr, IsTrue};
ghost use Rattle.fl_base.specs.Causes.{Rose};
ghost use Rattle.fl_words.specs.Config.{whole, no_lines};
ghost use Rattle.fl_config.specs.Whole.{is_whole};
ghost use Rattle.fl_script.specs.CommandView.{command_view};
ghost use Rattle.fl_session.specs.Runnable.{is_within};
ghost use Rattle.fl_session.specs.Next as words;
ghost use Rattle.fl_session.specs.Begin.{ConfiguresBy, IsFresh, BeginsAt, EndsBegin, HoldsFirst, IsOfScript};

use crate::next::{is_config, next_command};
use fl_base::Source;
use fl_config::Config;
use fl_ends::Status;
use fl_lines::Lines;
use fl_script::{Command, LineRoom};

fn is_nothing(command: &Command) -> bool
    ensures { (room : List ℕ) → result ≡ words.is_nothing (command_view command.now room) }
{
    matches!(command, Command::Nothing)
}

/// Goes on with the configuration, where the command is a line of it or nothing; else it ends the configuration.
fn configure(
    config: &mut Config,
    command: &Command,
    room: &LineRoom,
    number: u64,
) -> Result<bool, Status>
    requires { is_within (command_view command.now room.now) ≡ true }
    ensures { ConfiguresBy config.old (command_view command.now room.now) number result config.new }
{
    if is_nothing(command) {
        return Ok(true);
    }
    if !is_config(command) {
        return Ok(false);
    }
    if config.add(command, room).is_err() {
        return Err(Status::Config { line: number });
    }
    Ok(true)
}

/// Where the configuration ended: at a command, which is the line of this number, or with the script.
#[derive(Drop)]
pub(crate) struct Begun {
    pub first: Option<Command>,
    pub number: u64,
}

fn finish(config: &Config, first: Option<Command>, number: u64) -> Result<Begun, Status>
    ensures ok { IfOk result (λ b. (b ≡ record { first = first; number = number }) × IsTrue (is_whole config.now)) }
    ensures incomplete { IfErr result (λ status. (status ≡ Status.Config 0) × ((knots : ℕ) → whole knots config.now ≡ None)) }
{
    if config.is_complete() {
        Ok(Begun { first, number })
    } else {
        Err(Status::Config { line: 0 })
    }
}

/// Reads the lines of the configuration, and the command that ends it.
pub(crate) fn read_config<S: Source>(
    config: &mut Config,
    lines: &mut Lines,
    room: &mut LineRoom,
    script: &mut S,
) -> Result<Begun, Status>
    requires first { config.old ≡ no_lines }
    requires fresh { IsFresh lines.old }
    ensures whole { IfOk result (λ b. IsTrue (is_whole config.new)) }
    ensures in_hand { IfOk result (λ b. HoldsFirst b.first b.number room.new lines.new) }
    ensures begins { IfOk result (λ b. (knots : ℕ) (text : List ℕ) → S.left script.old ≡ Some text →
        BeginsAt knots text config.new b.first b.number lines.new (S.left script.new)) }
    ensures ends { IfErr result (λ status. (knots : ℕ) (text : List ℕ) → S.left script.old ≡ Some text →
        EndsBegin knots text (S.left script.new) status) }
    ensures read { IfErr result (λ status. status ≡ Status.ScriptRead → Rose (S.faults script.old) (S.faults script.new)) }
    ensures statuses { IfErr result IsOfScript }
    ensures later { S.faults script.old ≤ S.faults script.new }
{
    let mut number: u64 = 1;
    'lines: loop {
        match next_command(lines, room, script, number) {
            Ok(Some(command)) => match configure(config, &command, room, number) {
                Ok(true) => {}
                Ok(false) => return finish(config, Some(command), number),
                Err(status) => return Err(status),
            },
            Ok(None) => return finish(config, None, number),
            Err(status) => return Err(status),
        }
        number += 1;
    }
}
