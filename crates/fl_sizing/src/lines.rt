// The configuration that a text begins with.
ghost use Rattle.std.specs.Prelude.{◌≡◌, ℕ, ◌≤◌, List, length, None, IfOk, IfErr, IsErr, IsTrue, IsSomeAnd};
ghost use Rattle.fl_words.specs.Config.{whole};
ghost use Rattle.fl_words.specs.Grammar.{command_of};
ghost use Rattle.fl_config.specs.Whole.{is_whole};
ghost use Rattle.fl_script.specs.CommandView.{command_view};
ghost use Rattle.fl_reason.specs.Reason.{configures};
ghost use Rattle.fl_sizing.specs.Lines.{Follows, IsEnded, IsFault, RefusesText, is_nothing};
ghost use Rattle.fl_sizing.specs.declared.end.PlanStatus.{PlanStatus};

use crate::end::{PlanEnd, PlanStatus};
use fl_config::Config;
use fl_reason::{ConfigLine, Reason, line_reason, refusal_of};
use fl_script::{Command, LineRoom, read_line};

fn is_nothing(command: &Command) -> bool
    ensures { (room : List ℕ) → result ≡ is_nothing (command_view command.now room) }
{
    matches!(command, Command::Nothing)
}

fn configures(command: &Command) -> bool
    ensures { (room : List ℕ) → result ≡ configures (command_view command.now room) }
{
    matches!(command, Command::Device { .. } | Command::Table { .. })
}

/// Why the line is no command.
fn fault_of(line: &[u8], room: &mut LineRoom) -> Option<Reason>
    requires { IsErr (command_of line.now) }
    ensures { IsSomeAnd result (IsFault line.now) }
{
    match line_reason(line, room) {
        Some(reason) => Some(Reason::Line(reason)),
        None => None,
    }
}

/// Goes on with the configuration by the line of this number; false at the first command that is none of it.
fn take_line(
    config: &mut Config,
    device: &mut ConfigLine,
    line: &[u8],
    room: &mut LineRoom,
    number: u64,
) -> Result<bool, PlanEnd>
    ensures { Follows config.old line.now number result config.new }
{
    let Ok(command) = read_line(line, room) else {
        return Err(PlanEnd {
            status: PlanStatus::Line { line: number },
            reason: fault_of(line, room),
        });
    };
    if is_nothing(&command) {
        return Ok(true);
    }
    if !configures(&command) {
        return Ok(false);
    }
    if let Some(reason) = refusal_of(config, &command, room, device) {
        return Err(PlanEnd {
            status: PlanStatus::Config { line: number },
            reason: Some(Reason::Config(reason)),
        });
    }
    if let Command::Device { page, block } = command {
        *device = ConfigLine::of_device(page, block);
    }
    Ok(true)
}

/// The configuration, where it has a device and a table.
fn finish(config: Config) -> Result<Config, PlanEnd>
    ensures whole { IfOk result (λ made. (made ≡ config) × IsTrue (is_whole made)) }
    ensures incomplete { IfErr result (λ end. (end ≡ record { status = PlanStatus.Config 0; reason = None }) × ((knots : ℕ) → whole knots config ≡ None)) }
{
    if config.is_complete() {
        Ok(config)
    } else {
        Err(PlanEnd::of(PlanStatus::Config { line: 0 }))
    }
}

/// The configuration that the lines of a text make, up to the first other command or the end.
pub(crate) fn config_of(text: &[u8], room: &mut LineRoom) -> Result<Config, PlanEnd>
    requires few { length text.now ≤ 65536 }
    ensures whole { IfOk result (λ config. IsTrue (is_whole config)) }
    ensures ended { IfOk result (IsEnded text.now) }
    ensures refused { IfErr result (RefusesText text.now) }
{
    let mut config = Config::new();
    let mut device = ConfigLine::of_device(0, 0);
    let mut number: u64 = 1;
    for line in text.split(|byte| *byte == b'\n') {
        match take_line(&mut config, &mut device, line, room, number) {
            Ok(true) => {}
            Ok(false) => return finish(config),
            Err(end) => return Err(end),
        }
        number += 1;
    }
    finish(config)
}
