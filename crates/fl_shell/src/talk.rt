// The lines of a shell, one after another, and the flush behind them.
ghost use Rattle.std.specs.Prelude.{◌≡◌, ℕ, ◌^◌, ◌≤◌, true, Some, List, [], IsTrue};
ghost use Rattle.fl_base.specs.Causes.{HasCause, Rose};
ghost use Rattle.fl_config.specs.Whole.{is_whole, Makes};
ghost use Rattle.fl_flash.specs.Flash.{Stays};
ghost use Rattle.fl_machine.specs.Machine.{Machine};
ghost use Rattle.fl_model.specs.Record.{Config as Configuration};
ghost use Rattle.fl_session.specs.Execute.{IsReady, StandsAlike};
ghost use Rattle.fl_words.specs.Grammar.{lines_of};
ghost use Rattle.fl_shell.specs.Caused.{CausedBy, CausedIf, TalkedOver};
ghost use Rattle.fl_shell.specs.Causes.{names_of};
ghost use Rattle.fl_shell.specs.Input.{InputEnds};
ghost use Rattle.fl_shell.specs.Reading.{IsGivenAs, IsLeft, rest_in};
ghost use Rattle.fl_shell.specs.Statuses.{IsOfSession, IsOfTalk, behind, reading_status};
ghost use Rattle.fl_shell.specs.Talking.{EndsBy, MediumEnds, TalkEnds, TellsFlushed, lines_from, with_hand};
ghost use Rattle.fl_shell.specs.Turning.{TurnsIf, command_for};

use crate::answer::answer;
use crate::flush::flush_all;
use crate::next_line::next_line;
use fl_base::{Sink, SinkFailed, Source};
use fl_config::Config;
use fl_ends::{ShellEnd, ShellStatus};
use fl_lines::{Lines, LinesFault};
use fl_script::LineRoom;
use fl_session::Executor;
use std::alloc::Global;

/// What of an input is answered first.
#[derive(Clone, Copy)]
pub(crate) enum Next {
    /// The line that was given last.
    InHand,
    /// The line behind it.
    Unread,
    /// Nothing: the input has ended.
    Ended,
}

/// How the reading of an input ends that fails.
pub(crate) fn status_of(fault: LinesFault) -> ShellStatus
    ensures { result ≡ reading_status fault }
{
    match fault {
        LinesFault::Failed => ShellStatus::InputRead,
        LinesFault::Long => ShellStatus::InputLong,
    }
}

/// Answers the line in hand, if there is one.
fn answer_in_hand<E: Executor, K: Sink>(
    alloc: Global,
    session: &mut E,
    config: &Config,
    has_line: bool,
    line: &[u8],
    room: &mut LineRoom,
    out: &mut K,
) -> Result<(), SinkFailed>
    requires sound { E.sound session.old }
    requires whole { IsTrue (is_whole config.now) }
    ensures sound { E.sound session.new }
    ensures goes { Stays (E.flash session.old) (E.flash session.new) }
    ensures cause { HasCause (K.faults out.old) (K.faults out.new) result }
    ensures told { CausedIf has_line line.now (E.state session.old) (E.state session.new) (K.written out.old) (K.written out.new) result }
    ensures turn { (configured : Configuration) (m : Machine) → Makes config.now configured → E.stands session.old configured m →
        TurnsIf has_line configured m line.now (command_for line.now) (E.stands session.new configured) (E.flash session.old) (E.flash session.new) (K.written out.old) (K.written out.new) result }
{
    if has_line {
        answer(alloc, session, config, line, room, out)
    } else {
        Ok(())
    }
}

/// Answers the line in hand, if there is one, and then those behind it. Each answer is written before the next line is read.
fn talk<E: Executor, S: Source, K: Sink>(
    alloc: Global,
    session: &mut E,
    config: &Config,
    in_hand: bool,
    lines: &mut Lines,
    room: &mut LineRoom,
    input: &mut S,
    out: &mut K,
) -> ShellStatus
    requires sound { E.sound session.old }
    requires whole { IsTrue (is_whole config.now) }
    ensures sound { E.sound session.new }
    ensures goes { Stays (E.flash session.old) (E.flash session.new) }
    ensures talks { (configured : Configuration) (old : Machine) (left hand : List ℕ) (total : ℕ) →
        Makes config.now configured → IsReady configured old → E.stands session.old configured old → (E.flash session.old).work.reads ≡ 0 →
        lines.old.most ≤ 2 ^ 44 → S.left input.old ≡ Some left → IsLeft lines.old left (2 ^ 44) total → IsGivenAs hand lines.old.line →
        TalkEnds configured old (with_hand in_hand hand (lines_of (rest_in lines.old left))) total (StandsAlike (E.stands session.new configured)) (E.flash session.old).media.content (E.flash session.new).media.content (E.flash session.old).media.faults (E.flash session.new).media.faults
        (K.written out.old) (K.written out.new) (S.left input.new) result }
    ensures told { (left hand : List ℕ) (total : ℕ) → S.left input.old ≡ Some left → IsLeft lines.old left (2 ^ 44) total → IsGivenAs hand lines.old.line →
        EndsBy (λ front whole. CausedBy front whole (E.state session.old) (E.state session.new) (K.written out.old) (K.written out.new)) (with_hand in_hand hand (lines_of (rest_in lines.old left))) total (S.left input.new) result }
    ensures input { (left : List ℕ) (total : ℕ) → S.left input.old ≡ Some left → IsLeft lines.old left (2 ^ 44) total → InputEnds total (S.left input.new) result }
    ensures statuses { IsOfTalk result }
    ensures read { result ≡ ShellStatus.InputRead → Rose (S.faults input.old) (S.faults input.new) }
    ensures write { result ≡ ShellStatus.OutWrite → Rose (K.faults out.old) (K.faults out.new) }
    ensures later { (S.faults input.old ≤ S.faults input.new) × (K.faults out.old ≤ K.faults out.new) }
{
    let mut has_line = in_hand;
    'lines: loop {
        match answer_in_hand(alloc, session, config, has_line, lines.line(), room, out) {
            Ok(()) => {}
            Err(_) => return ShellStatus::OutWrite,
        }
        match next_line(lines, input) {
            Ok(true) => has_line = true,
            Ok(false) => return ShellStatus::Done,
            Err(fault) => return status_of(fault),
        }
    }
}

/// Answers the lines of an input, from the next one on.
fn talk_from<E: Executor, S: Source, K: Sink>(
    alloc: Global,
    session: &mut E,
    config: &Config,
    next: Next,
    lines: &mut Lines,
    room: &mut LineRoom,
    input: &mut S,
    out: &mut K,
) -> ShellStatus
    requires sound { E.sound session.old }
    requires whole { IsTrue (is_whole config.now) }
    ensures sound { E.sound session.new }
    ensures goes { Stays (E.flash session.old) (E.flash session.new) }
    ensures talks { (configured : Configuration) (old : Machine) (left hand : List ℕ) (total : ℕ) →
        Makes config.now configured → IsReady configured old → E.stands session.old configured old → (E.flash session.old).work.reads ≡ 0 →
        ((next ≡ Next.Ended → ⊥) → lines.old.most ≤ 2 ^ 44) → S.left input.old ≡ Some left → (next ≡ Next.Ended → left ≡ []) → ((next ≡ Next.Ended → ⊥) → IsLeft lines.old left (2 ^ 44) total) → IsGivenAs hand lines.old.line →
        TalkEnds configured old (lines_from next hand (lines_of (rest_in lines.old left))) total (StandsAlike (E.stands session.new configured)) (E.flash session.old).media.content (E.flash session.new).media.content (E.flash session.old).media.faults (E.flash session.new).media.faults
        (K.written out.old) (K.written out.new) (S.left input.new) result }
    ensures told { (left hand : List ℕ) (total : ℕ) → S.left input.old ≡ Some left → (next ≡ Next.Ended → left ≡ []) → ((next ≡ Next.Ended → ⊥) → IsLeft lines.old left (2 ^ 44) total) → IsGivenAs hand lines.old.line →
        EndsBy (λ front whole. CausedBy front whole (E.state session.old) (E.state session.new) (K.written out.old) (K.written out.new)) (lines_from next hand (lines_of (rest_in lines.old left))) total (S.left input.new) result }
    ensures input { (left : List ℕ) (total : ℕ) → S.left input.old ≡ Some left → (next ≡ Next.Ended → left ≡ []) → ((next ≡ Next.Ended → ⊥) → IsLeft lines.old left (2 ^ 44) total) → InputEnds total (S.left input.new) result }
    ensures statuses { IsOfTalk result }
    ensures read { result ≡ ShellStatus.InputRead → Rose (S.faults input.old) (S.faults input.new) }
    ensures write { result ≡ ShellStatus.OutWrite → Rose (K.faults out.old) (K.faults out.new) }
    ensures later { (S.faults input.old ≤ S.faults input.new) × (K.faults out.old ≤ K.faults out.new) }
{
    match next {
        Next::InHand => talk(alloc, session, config, true, lines, room, input, out),
        Next::Unread => talk(alloc, session, config, false, lines, room, input, out),
        Next::Ended => ShellStatus::Done,
    }
}

/// How a shell ends whose lines were answered, by what was flushed then.
fn status_behind(status: ShellStatus, all: bool) -> ShellStatus
    requires { IsOfTalk status }
    ensures statuses { IsOfSession result }
    ensures exact { result ≡ behind status all }
    ensures read { result ≡ ShellStatus.InputRead → status ≡ ShellStatus.InputRead }
    ensures write { result ≡ ShellStatus.OutWrite → status ≡ ShellStatus.OutWrite }
{
    match status {
        ShellStatus::Done if !all => ShellStatus::Unflushed,
        status => status,
    }
}

/// Answers the lines of an input, and flushes what is pending then.
pub(crate) fn talk_and_flush<E: Executor, S: Source, K: Sink>(
    alloc: Global,
    session: &mut E,
    config: &Config,
    next: Next,
    lines: &mut Lines,
    room: &mut LineRoom,
    input: &mut S,
    out: &mut K,
) -> ShellEnd
    requires sound { E.sound session.old }
    requires whole { IsTrue (is_whole config.now) }
    ensures sound { E.sound session.new }
    ensures goes { Stays (E.flash session.old) (E.flash session.new) }
    ensures ends { (configured : Configuration) (old : Machine) (left hand : List ℕ) (total : ℕ) →
        Makes config.now configured → IsReady configured old → E.stands session.old configured old → (E.flash session.old).work.reads ≡ 0 →
        ((next ≡ Next.Ended → ⊥) → lines.old.most ≤ 2 ^ 44) → S.left input.old ≡ Some left → (next ≡ Next.Ended → left ≡ []) → ((next ≡ Next.Ended → ⊥) → IsLeft lines.old left (2 ^ 44) total) → IsGivenAs hand lines.old.line →
        MediumEnds configured old (lines_from next hand (lines_of (rest_in lines.old left))) total (StandsAlike (E.stands session.new configured)) (E.flash session.old).media.content (E.flash session.new).media.content (E.flash session.old).media.faults (E.flash session.new).media.faults
        (K.written out.old) (K.written out.new) (S.left input.new) result.flushed result.status }
    ensures told { (left hand : List ℕ) (total : ℕ) → S.left input.old ≡ Some left → (next ≡ Next.Ended → left ≡ []) → ((next ≡ Next.Ended → ⊥) → IsLeft lines.old left (2 ^ 44) total) → IsGivenAs hand lines.old.line →
        EndsBy (λ front whole. TalkedOver (names_of config.now) front whole result.flushed (K.written out.old) (K.written out.new) (E.state session.old) (E.state session.new)) (lines_from next hand (lines_of (rest_in lines.old left))) total (S.left input.new) result.status × TellsFlushed result.flushed result.status }
    ensures input { (left : List ℕ) (total : ℕ) → S.left input.old ≡ Some left → (next ≡ Next.Ended → left ≡ []) → ((next ≡ Next.Ended → ⊥) → IsLeft lines.old left (2 ^ 44) total) → InputEnds total (S.left input.new) result.status }
    ensures statuses { IsOfSession result.status }
    ensures read { result.status ≡ ShellStatus.InputRead → Rose (S.faults input.old) (S.faults input.new) }
    ensures write { result.status ≡ ShellStatus.OutWrite → Rose (K.faults out.old) (K.faults out.new) }
    ensures later { (S.faults input.old ≤ S.faults input.new) × (K.faults out.old ≤ K.faults out.new) }
{
    let status = talk_from(alloc, session, config, next, lines, room, input, out);
    let flushed = flush_all(session, config, room);
    ShellEnd {
        status: status_behind(status, flushed.all),
        flushed,
    }
}
