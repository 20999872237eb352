// The answer to one line.
ghost use Rattle.std.specs.Prelude.{◌≡◌, ℕ, List, Some, None, IsTrue, option_map, slice_get};
ghost use Rattle.fl_base.specs.Causes.{HasCause};
ghost use Rattle.fl_config.specs.Whole.{is_whole, Makes};
ghost use Rattle.fl_flash.specs.Flash.{Stays};
ghost use Rattle.fl_machine.specs.Machine.{Machine};
ghost use Rattle.fl_machine.specs.Script.{runs};
ghost use Rattle.fl_model.specs.Record.{Config as Configuration};
ghost use Rattle.fl_script.specs.Written.{Written};
ghost use Rattle.fl_shell.specs.Caused.{CausedLine, CausedOwn, CausedRun, CausesFirst, CausesLast, first_said};
ghost use Rattle.fl_shell.specs.FirstKey.{BeginsShort};
ghost use Rattle.fl_shell.specs.Own.{own_of};
ghost use Rattle.fl_shell.specs.OwnView.{own_view};
ghost use Rattle.fl_shell.specs.Refusal.{line_of};
ghost use Rattle.fl_shell.specs.Talk.{first_text, key_text, last_text};
ghost use Rattle.fl_shell.specs.Turning.{Turns, TellsFirst, command_by, command_for};
ghost use Rattle.fl_words.specs.Grammar.{words_in};
ghost use Rattle.fl_words.specs.Reply.{Reply as Said, texts};

use crate::describe::describe;
use crate::heard::Heard;
use crate::own::{Own, own_of};
use crate::refusal::refuse;
use fl_base::{KeyRange, Name, Sink, SinkFailed};
use fl_config::Config;
use fl_reason::{Reason, line_reason};
use fl_script::{
    Command, LineRoom, Reply, TextLine, first_word, read_line, write_all, write_reply,
};
use fl_session::Executor;
use std::alloc::Global;

/// The range of all keys.
const ALL_KEYS: KeyRange = KeyRange {
    low: 0,
    high: u64::MAX,
};

/// The line of a key.
fn write_key<K: Sink>(key: u64, out: &mut K) -> Result<(), SinkFailed>
    ensures text { Written (K.written out.old) (K.written out.new) result (key_text (Some key)) }
    ensures cause { HasCause (K.faults out.old) (K.faults out.new) result }
{
    let mut line = TextLine::new();
    line.end_with_number(b"", key);
    write_all(line.bytes(), out)
}

/// Answers the last key of a table, or `none`.
fn answer_last<E: Executor, K: Sink>(session: &E, name: Name, out: &mut K) -> Result<(), SinkFailed>
    ensures text { (config : Configuration) (m : Machine) → E.stands session.now config m → Written (K.written out.old) (K.written out.new) result (last_text config m name) }
    ensures told { CausesLast (E.state session.now) name (K.written out.old) (K.written out.new) result }
    ensures cause { HasCause (K.faults out.old) (K.faults out.new) result }
{
    match session.last_key(name) {
        Ok(Some(key)) => write_key(key, out),
        Ok(None) => write_reply(&Reply::Absent, out),
        Err(refusal) => write_reply(&refusal, out),
    }
}

/// The least key of which a line of groups tells: its sixth word.
fn least_in(groups: &[u8]) -> Option<&[u8]>
    ensures { option_map (λ word. word.now) result ≡ slice_get (words_in groups.now) 5 }
{
    let mut rest = groups;
    'words: for _at in 0..5u8 {
        let (_, behind) = first_word(rest)?;
        rest = behind;
    }
    let (least, _) = first_word(rest)?;
    Some(least)
}

/// Answers the least key of the first of these groups, `none` if there are none, or what else the replies say.
fn write_first<K: Sink>(replies: &[u8], out: &mut K) -> Result<(), SinkFailed>
    ensures text { (said : List Said) → BeginsShort said → replies.now ≡ texts said → Written (K.written out.old) (K.written out.new) result (first_text said) }
    ensures exact { Written (K.written out.old) (K.written out.new) result (first_said replies.now) }
    ensures cause { HasCause (K.faults out.old) (K.faults out.new) result }
{
    if replies.starts_with(b"end ") {
        return write_reply(&Reply::Absent, out);
    }
    if !replies.starts_with(b"group ") {
        return write_all(replies, out);
    }
    match least_in(replies) {
        Some(least) => write_line(least, out),
        None => write_all(replies, out),
    }
}

/// Answers the first key of a table, or `none`.
fn answer_first<E: Executor, K: Sink>(
    session: &mut E,
    name: Name,
    room: &LineRoom,
    out: &mut K,
) -> Result<(), SinkFailed>
    requires { E.sound session.old }
    ensures sound { E.sound session.new }
    ensures goes { Stays (E.flash session.old) (E.flash session.new) }
    ensures cause { HasCause (K.faults out.old) (K.faults out.new) result }
    ensures told { CausesFirst (E.state session.old) (E.state session.new) name (K.written out.old) (K.written out.new) result }
    ensures first { (config : Configuration) (m : Machine) → E.stands session.old config m →
        TellsFirst config m name (E.stands session.new config) (E.flash session.old) (E.flash session.new) (K.written out.old) (K.written out.new) result }
{
    let groups = Command::Agg {
        name,
        range: ALL_KEYS,
        column: 0,
        width: u64::MAX,
    };
    let mut heard = Heard::new();
    let executed = session.execute(&groups, room, &mut heard);
    let replies = heard.bytes();
    match executed {
        Ok(()) => write_first(replies, out),
        Err(_) => write_all(b"? the groups have too many bytes\n", out),
    }
}

/// A word as a line.
pub(crate) fn write_line<K: Sink>(line: &[u8], out: &mut K) -> Result<(), SinkFailed>
    ensures text { Written (K.written out.old) (K.written out.new) result (line_of line.now) }
    ensures cause { HasCause (K.faults out.old) (K.faults out.new) result }
{
    write_all(line, out)?;
    write_all(b"\n", out)
}

/// Executes the line if it is a command, and else answers why it is none.
fn answer_command<E: Executor, K: Sink>(
    alloc: Global,
    session: &mut E,
    line: &[u8],
    room: &mut LineRoom,
    out: &mut K,
) -> Result<(), SinkFailed>
    requires { E.sound session.old }
    ensures sound { E.sound session.new }
    ensures goes { Stays (E.flash session.old) (E.flash session.new) }
    ensures cause { HasCause (K.faults out.old) (K.faults out.new) result }
    ensures told { CausedRun (runs line.now) (E.state session.old) (E.state session.new) (K.written out.old) (K.written out.new) result }
    ensures turn { (config : Configuration) (m : Machine) → own_of line.now ≡ None → E.stands session.old config m →
        Turns config m line.now (runs line.now) (E.stands session.new config) (E.flash session.old) (E.flash session.new) (K.written out.old) (K.written out.new) result }
{
    if let Some(reason) = line_reason(line, room) {
        return refuse(alloc, &Reason::Line(reason), out);
    }
    match read_line(line, room) {
        Ok(command) => session.execute(&command, room, out),
        Err(_) => Ok(()),
    }
}

/// Answers a line of the shell's own.
fn answer_own<E: Executor, K: Sink>(
    alloc: Global,
    session: &mut E,
    config: &Config,
    own: &Own<'_>,
    room: &LineRoom,
    out: &mut K,
) -> Result<(), SinkFailed>
    requires sound { E.sound session.old }
    requires whole { IsTrue (is_whole config.now) }
    ensures sound { E.sound session.new }
    ensures goes { Stays (E.flash session.old) (E.flash session.new) }
    ensures cause { HasCause (K.faults out.old) (K.faults out.new) result }
    ensures told { (line : List ℕ) → CausedOwn (Some (own_view own.now)) line (E.state session.old) (E.state session.new) (K.written out.old) (K.written out.new) result }
    ensures turn { (configured : Configuration) (m : Machine) (line : List ℕ) → Makes config.now configured → own_of line ≡ Some (own_view own.now) → E.stands session.old configured m →
        Turns configured m line (command_by (Some (own_view own.now)) line) (E.stands session.new configured) (E.flash session.old) (E.flash session.new) (K.written out.old) (K.written out.new) result }
{
    match own {
        Own::Echo { word } => write_line(word, out),
        Own::First { name } => answer_first(session, *name, room, out),
        Own::Last { name } => answer_last(session, *name, out),
        Own::Describe => describe(session, config, out),
        Own::Misformed { form } => refuse(alloc, form, out),
    }
}

/// Answers a line: the replies of its command, or what is the shell's own.
pub(crate) fn answer<E: Executor, K: Sink>(
    alloc: Global,
    session: &mut E,
    config: &Config,
    line: &[u8],
    room: &mut LineRoom,
    out: &mut K,
) -> Result<(), SinkFailed>
    requires sound { E.sound session.old }
    requires whole { IsTrue (is_whole config.now) }
    ensures sound { E.sound session.new }
    ensures goes { Stays (E.flash session.old) (E.flash session.new) }
    ensures cause { HasCause (K.faults out.old) (K.faults out.new) result }
    ensures told { CausedLine line.now (E.state session.old) (E.state session.new) (K.written out.old) (K.written out.new) result }
    ensures turn { (configured : Configuration) (m : Machine) → Makes config.now configured → E.stands session.old configured m →
        Turns configured m line.now (command_for line.now) (E.stands session.new configured) (E.flash session.old) (E.flash session.new) (K.written out.old) (K.written out.new) result }
{
    match &own_of(line) {
        None => answer_command(alloc, session, line, room, out),
        Some(own) => answer_own(alloc, session, config, own, room, out),
    }
}
