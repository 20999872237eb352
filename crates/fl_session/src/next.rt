// The next line of a script as a command.
ghost use Rattle.std.specs.Prelude.{◌≡◌, ℕ, List};
ghost use Rattle.fl_script.specs.CommandView.{command_view};
ghost use Rattle.fl_session.specs.Next.{NextCommand, NextRun, is_config_line};

use fl_base::Source;
use fl_ends::Status;
use fl_lines::{Lines, LinesFault};
use fl_script::{Command, LineRoom, read_line};

pub(crate) fn is_config(command: &Command) -> bool
    ensures { (room : List ℕ) → result ≡ is_config_line (command_view command.now room) }
{
    matches!(command, Command::Device { .. } | Command::Table { .. })
}

/// The command of the next line, which has this number. None says that the script has ended.
#[inline(always)]
pub(crate) fn next_command<S: Source>(
    lines: &mut Lines,
    room: &mut LineRoom,
    script: &mut S,
    number: u64,
) -> Result<Option<Command>, Status>
    ensures { NextCommand lines.old (S.left script.old) (S.faults script.old) number result room.new lines.new (S.left script.new) (S.faults script.new) }
{
    match lines.advance(script) {
        Ok(true) => {}
        Ok(false) => return Ok(None),
        Err(LinesFault::Failed) => return Err(Status::ScriptRead),
        Err(LinesFault::Long) => return Err(Status::ScriptLong),
    }
    match read_line(lines.line(), room) {
        Ok(command) => Ok(Some(command)),
        Err(_) => Err(Status::Line { line: number }),
    }
}

/// The same behind the configuration, where no line may configure.
#[inline(always)]
pub(crate) fn next_run<S: Source>(
    lines: &mut Lines,
    room: &mut LineRoom,
    script: &mut S,
    number: u64,
) -> Result<Option<Command>, Status>
    ensures { NextRun lines.old (S.left script.old) (S.faults script.old) number result room.new lines.new (S.left script.new) (S.faults script.new) }
{
    let next = next_command(lines, room, script, number);
    // By a reference: a command has so many bytes that each move of one is felt.
    match &next {
        Ok(Some(command)) if is_config(command) => Err(Status::Line { line: number }),
        _ => next,
    }
}
