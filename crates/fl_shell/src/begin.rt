// The configuration of a shell's image: the one in its header, or that of the leading lines if it is empty.
ghost use Rattle.std.specs.Prelude.{◌≡◌, ℕ, ◌^◌, ◌≤◌, ◌⊎◌, IfOk, IfErr, IsTrue, List, Some, Ok, Err, length};
ghost use Rattle.fl_base.specs.Causes.{HasCause, Rose};
ghost use Rattle.fl_config.specs.Whole.{is_whole};
ghost use Rattle.fl_image.specs.Header.{IsAccepted};
ghost use Rattle.fl_image.specs.Image.{IsImageOf, OnlyLooksAt};
ghost use Rattle.fl_script.specs.CommandView.{command_view};
ghost use Rattle.fl_words.specs.Config.{Lines as ConfigLines, configured};
ghost use Rattle.fl_words.specs.Grammar.{LineFault, command_of, lines_of};
ghost use Rattle.fl_shell.specs.Begin as spec;
ghost use Rattle.fl_shell.specs.Begin.{LeadsBy, step_asked, step_command, step_config, step_of};
ghost use Rattle.fl_shell.specs.Input.{InputBegins};
ghost use Rattle.fl_shell.specs.Leading.{BeginsAs, LeadsAs, TakesBy, going_on};
ghost use Rattle.fl_shell.specs.OwnView.{own_view};
ghost use Rattle.fl_shell.specs.Reading.{IsLeft, rest_in};
ghost use Rattle.fl_shell.specs.Refusal.{Refuses};
ghost use Rattle.fl_shell.specs.Statuses.{IsOfLines, header_status};

use crate::answer::write_line;
use crate::next_line::next_line;
use crate::own::{Own, own_of};
use crate::refusal::refuse;
use crate::talk::{Next, status_of};
use fl_base::{Sink, SinkFailed, Source};
use fl_config::Config;
use fl_ends::ShellStatus;
use fl_flash::Media;
use fl_image::{ToolStatus, config_of_image};
use fl_lines::Lines;
use fl_reason::{ConfigLine, Reason, line_reason, refusal_of};
use fl_script::{Command, LineRoom, read_line};
use std::alloc::Global;

/// The configuration of an image, and what of the input is answered first.
#[derive(Drop)]
pub(crate) struct Begun {
    pub(crate) config: Config,
    pub(crate) next: Next,
}

/// How a shell ends over an image that has no configuration in its header.
fn header_status(status: ToolStatus) -> ShellStatus
    ensures { result ≡ header_status status }
{
    match status {
        ToolStatus::NotImage => ShellStatus::NotImage,
        _ => ShellStatus::MediaMake,
    }
}

/// The configuration in the header of an image that isn't empty.
fn of_header<M: Media>(media: &mut M, room: &mut LineRoom) -> Result<Begun, ShellStatus>
    ensures image { IfOk result (λ begun. IsTrue (M.state media.old).tells → IsAccepted begun.config × IsImageOf (M.state media.old).content begun.config) }
    ensures next { IfOk result (λ begun. begun.next ≡ Next.Unread) }
    ensures none { result ≡ Err ShellStatus.NotImage → IsTrue (M.state media.old).tells → (config : ConfigLines) → IsAccepted config → IsImageOf (M.state media.old).content config → ⊥ }
    ensures whole { IfOk result (λ begun. IsTrue (is_whole begun.config)) }
    ensures statuses { IfErr result (λ status. (status ≡ ShellStatus.NotImage) ⊎ ((status ≡ ShellStatus.MediaMake) × Rose (M.state media.old).faults (M.state media.new).faults)) }
    ensures looks { OnlyLooksAt (M.state media.old) (M.state media.new) }
{
    match config_of_image(media, room) {
        Ok(config) => Ok(Begun {
            config,
            next: Next::Unread,
        }),
        Err(status) => Err(header_status(status)),
    }
}

/// What a line is to a configuration that isn't whole yet, or may go on.
enum Step {
    /// It belongs to the configuration, or was answered.
    GoesOn,
    /// It ends the configuration.
    Ends,
}

/// Goes on where the answer was written.
fn goes_on(answered: Result<(), SinkFailed>) -> Result<Step, SinkFailed>
    ensures { result ≡ going_on answered }
{
    match answered {
        Ok(()) => Ok(Step::GoesOn),
        Err(failed) => Err(failed),
    }
}

/// Takes a line of the configuration, or answers why it is refused.
fn add_line<K: Sink>(
    alloc: Global,
    config: &mut Config,
    device: &mut ConfigLine,
    command: &Command,
    room: &LineRoom,
    out: &mut K,
) -> Result<(), SinkFailed>
    ensures leads { LeadsBy config.old (step_config (configured config.old (command_view command.now room.now))) config.new (K.written out.old) (K.written out.new) result }
    ensures cause { HasCause (K.faults out.old) (K.faults out.new) result }
{
    if let Some(reason) = refusal_of(config, command, room, device) {
        return refuse(alloc, &Reason::Config(reason), out);
    }
    if let Command::Device { page, block } = command {
        *device = ConfigLine::of_device(*page, *block);
    }
    Ok(())
}

/// What ends a configuration, where that is whole.
fn end_with<K: Sink>(alloc: Global, config: &Config, out: &mut K) -> Result<Step, SinkFailed>
    ensures takes { TakesBy config.now spec.Ends result config.now (K.written out.old) (K.written out.new) }
    ensures cause { HasCause (K.faults out.old) (K.faults out.new) result }
{
    if config.is_complete() {
        return Ok(Step::Ends);
    }
    let reason = "a device line and one to four table lines come first";
    goes_on(refuse(alloc, &reason, out))
}

/// Answers a line of the shell's own, where it is `echo` or hasn't its form; another ends the configuration.
fn take_own<K: Sink>(
    alloc: Global,
    config: &Config,
    own: &Own<'_>,
    out: &mut K,
) -> Result<Step, SinkFailed>
    ensures takes { TakesBy config.now (step_asked (own_view own.now)) result config.now (K.written out.old) (K.written out.new) }
    ensures cause { HasCause (K.faults out.old) (K.faults out.new) result }
{
    match own {
        Own::Echo { word } => goes_on(write_line(word, out)),
        Own::Misformed { form } => goes_on(refuse(alloc, form, out)),
        _ => end_with(alloc, config, out),
    }
}

/// Goes on with the configuration by a command.
fn take_command<K: Sink>(
    alloc: Global,
    config: &mut Config,
    device: &mut ConfigLine,
    command: &Command,
    room: &LineRoom,
    out: &mut K,
) -> Result<Step, SinkFailed>
    ensures takes { TakesBy config.old (step_command config.old (Ok (command_view command.now room.now))) result config.new (K.written out.old) (K.written out.new) }
    ensures cause { HasCause (K.faults out.old) (K.faults out.new) result }
{
    match command {
        Command::Nothing => Ok(Step::GoesOn),
        Command::Device { .. } => goes_on(add_line(alloc, config, device, command, room, out)),
        Command::Table { .. } => goes_on(add_line(alloc, config, device, command, room, out)),
        _ => end_with(alloc, config, out),
    }
}

/// Answers why a line is no command.
fn refuse_line<K: Sink>(
    alloc: Global,
    line: &[u8],
    room: &mut LineRoom,
    out: &mut K,
) -> Result<(), SinkFailed>
    ensures refuses { (fault : LineFault) → command_of line.now ≡ Err fault → Refuses (K.written out.old) (K.written out.new) result }
    ensures cause { HasCause (K.faults out.old) (K.faults out.new) result }
{
    match line_reason(line, room) {
        Some(reason) => refuse(alloc, &Reason::Line(reason), out),
        None => Ok(()),
    }
}

/// Goes on with the configuration by a line that isn't the shell's own.
fn take_words<K: Sink>(
    alloc: Global,
    config: &mut Config,
    device: &mut ConfigLine,
    line: &[u8],
    room: &mut LineRoom,
    out: &mut K,
) -> Result<Step, SinkFailed>
    ensures takes { TakesBy config.old (step_command config.old (command_of line.now)) result config.new (K.written out.old) (K.written out.new) }
    ensures cause { HasCause (K.faults out.old) (K.faults out.new) result }
{
    match read_line(line, room) {
        Ok(command) => take_command(alloc, config, device, &command, room, out),
        Err(_) => goes_on(refuse_line(alloc, line, room, out)),
    }
}

/// Goes on with the configuration by a line.
fn take_line<K: Sink>(
    alloc: Global,
    config: &mut Config,
    device: &mut ConfigLine,
    line: &[u8],
    room: &mut LineRoom,
    out: &mut K,
) -> Result<Step, SinkFailed>
    ensures takes { TakesBy config.old (step_of config.old line.now) result config.new (K.written out.old) (K.written out.new) }
    ensures cause { HasCause (K.faults out.old) (K.faults out.new) result }
{
    match &own_of(line) {
        None => take_words(alloc, config, device, line, room, out),
        Some(own) => take_own(alloc, config, own, out),
    }
}

/// The configuration that the leading lines make, up to the first command behind it. A line that is refused is answered.
fn of_lines<S: Source, K: Sink>(
    alloc: Global,
    lines: &mut Lines,
    room: &mut LineRoom,
    input: &mut S,
    out: &mut K,
) -> Result<Begun, ShellStatus>
    ensures leads { (left : List ℕ) (total : ℕ) → S.left input.old ≡ Some left → IsLeft lines.old left (2 ^ 44) total →
        LeadsAs (lines_of (rest_in lines.old left)) total result lines.new (S.left input.new) (K.written out.old) (K.written out.new) }
    ensures fewer { IfOk result (λ begun. (begun.next ≡ Next.Ended → ⊥) → lines.new.most ≤ lines.old.most) }
    ensures whole { IfOk result (λ begun. IsTrue (is_whole begun.config)) }
    ensures statuses { IfErr result IsOfLines }
    ensures read { result ≡ Err ShellStatus.InputRead → Rose (S.faults input.old) (S.faults input.new) }
    ensures write { result ≡ Err ShellStatus.OutWrite → Rose (K.faults out.old) (K.faults out.new) }
    ensures later { (S.faults input.old ≤ S.faults input.new) × (K.faults out.old ≤ K.faults out.new) }
{
    let mut config = Config::new();
    let mut device = ConfigLine::of_device(0, 0);
    'lines: loop {
        match next_line(lines, input) {
            Ok(true) => {}
            Ok(false) if config.is_complete() => {
                return Ok(Begun {
                    config,
                    next: Next::Ended,
                });
            }
            Ok(false) => return Err(ShellStatus::Unconfigured),
            Err(fault) => return Err(status_of(fault)),
        }
        match take_line(alloc, &mut config, &mut device, lines.line(), room, out) {
            Ok(Step::GoesOn) => {}
            Ok(Step::Ends) => {
                return Ok(Begun {
                    config,
                    next: Next::InHand,
                });
            }
            Err(_) => return Err(ShellStatus::OutWrite),
        }
    }
}

/// The configuration of the image on a medium: that of its header, or over an empty one that of the leading lines.
pub(crate) fn begin<M: Media, S: Source, K: Sink>(
    alloc: Global,
    media: &mut M,
    lines: &mut Lines,
    room: &mut LineRoom,
    input: &mut S,
    out: &mut K,
) -> Result<Begun, ShellStatus>
    ensures begins { (left : List ℕ) (total : ℕ) → IsTrue (M.state media.old).tells → S.left input.old ≡ Some left → IsLeft lines.old left (2 ^ 44) total → length lines.old.line ≤ 4096 →
        BeginsAs (M.state media.old).content (lines_of (rest_in lines.old left)) total result lines.new (S.left input.new) (K.written out.old) (K.written out.new) }
    ensures input { (left : List ℕ) (total : ℕ) → S.left input.old ≡ Some left → IsLeft lines.old left (2 ^ 44) total → InputBegins total result lines.new (S.left input.new) }
    ensures fewer { IfOk result (λ begun. (begun.next ≡ Next.Ended → ⊥) → lines.new.most ≤ lines.old.most) }
    ensures whole { IfOk result (λ begun. IsTrue (is_whole begun.config)) }
    ensures read { result ≡ Err ShellStatus.InputRead → Rose (S.faults input.old) (S.faults input.new) }
    ensures write { result ≡ Err ShellStatus.OutWrite → Rose (K.faults out.old) (K.faults out.new) }
    ensures make { result ≡ Err ShellStatus.MediaMake → Rose (M.state media.old).faults (M.state media.new).faults }
    ensures looks { OnlyLooksAt (M.state media.old) (M.state media.new) }
    ensures later { (S.faults input.old ≤ S.faults input.new) × (K.faults out.old ≤ K.faults out.new) }
{
    if media.len() == 0 {
        of_lines(alloc, lines, room, input, out)
    } else {
        of_header(media, room)
    }
}
