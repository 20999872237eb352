// The run of a script over an image.
ghost use Rattle.std.specs.Prelude.{◌≡◌, ℕ, ◌+◌, ◌<◌, ◌≤◌, ◌↔◌, map, string_bytes, true, IsTrue, Some, None, List, length, sum_by};
ghost use Rattle.fl_base.specs.Causes.{Rose};
ghost use Rattle.fl_flash.specs.Flash.{Stays};
ghost use Rattle.fl_flash.specs.Places.{extent};
ghost use Rattle.fl_base.specs.declared.types.Geometry.{Geometry};
ghost use Rattle.fl_model.specs.Record.{Config as Configuration, blocks_of};
ghost use Rattle.fl_words.specs.Command.{Command as Commanded};
ghost use Rattle.fl_words.specs.Config.{whole};
ghost use Rattle.fl_config.specs.Whole.{is_whole};
ghost use Rattle.fl_store.specs.Store.{IsBlankBehind};
ghost use Rattle.fl_session.specs.Begin.{HoldsFirst};
ghost use Rattle.fl_session.specs.Words.{image_named};
ghost use Rattle.fl_session.specs.CausedEach.{CausedEach, CausedInto, EndsCaused, SessionOver};
ghost use Rattle.fl_session.specs.Complete.{IsInPlace, Completes};
ghost use Rattle.fl_session.specs.Ends.{Ends, told_of, IsEarlyBy, IsOwn};
ghost use Rattle.fl_session.specs.ScriptEnds.{ScriptEnds};
ghost use Rattle.fl_session.specs.Held.{AreRoomsFor};
ghost use Rattle.fl_session.specs.Opening.{MediaGoes, KeepsForm};
ghost use Rattle.fl_session.specs.Pending.{EndsAt, TellsPending};
ghost use Rattle.fl_session.specs.Run.{RanFrom, RunsFrom, around_of, IsOfCommands, refused_status};
ghost use Rattle.fl_session.specs.Standing.{RestsTold};
ghost use Rattle.fl_session.specs.Told.{TellsRows};
ghost use Rattle.fl_machine.specs.Machine.{Machine};

use crate::begin::{Begun, read_config};
use crate::commands::run_commands;
use crate::executor::Executor;
use crate::image_of;
use crate::opened::Rooms;
use crate::session::Session;
use fl_base::{Sink, Source};
use fl_config::{Config, ImageRefusal};
use fl_ends::Status;
use fl_flash::Media;
use fl_lines::Lines;
use fl_script::{Command, LineRoom};
use fl_store::KNOTS;
use std::alloc::Global;

// Runs the commands from the first on, if there is one.
fn run_first<E: Executor, S: Source, K: Sink>(
    session: &mut E,
    first: Option<Command>,
    number: u64,
    lines: &mut Lines,
    room: &mut LineRoom,
    script: &mut S,
    out: &mut K,
) -> Status
    requires sound { E.sound session.old }
    requires unread { (E.flash session.old).work.reads ≡ 0 }
    requires in_hand { HoldsFirst first number room.old lines.old }
    ensures runs { (configured : Configuration) → RanFrom first number lines.old (S.left script.old) (S.left script.new) (around_of configured (E.flash session.old).media (E.flash session.new).media (K.written out.old) (K.written out.new))
        (E.stands session.old configured) (E.stands session.new configured) result }
    ensures causes { RunsFrom first number lines.old (S.left script.old) (S.left script.new)
        (λ commands. CausedEach commands (E.state session.old) (E.state session.new) (K.written out.old) (K.written out.new))
        (λ commands. CausedInto commands (E.state session.old) (E.state session.new) (K.written out.old) (K.written out.new)) result }
    ensures tells { (configured : Configuration) (m : Machine) → E.stands session.new configured m → TellsPending configured result m }
    ensures rows { TellsRows (E.state session.new) result }
    ensures goes { Stays (E.flash session.old) (E.flash session.new) }
    ensures read { result ≡ Status.ScriptRead → Rose (S.faults script.old) (S.faults script.new) }
    ensures write { result ≡ Status.OutWrite → Rose (K.faults out.old) (K.faults out.new) }
    ensures statuses { IsOfCommands result }
    ensures later { (S.faults script.old ≤ S.faults script.new) × (K.faults out.old ≤ K.faults out.new) }
{
    match first {
        None => Status::Done {
            pending: session.pending(),
        },
        Some(first) => run_commands(session, first, number, lines, room, script, out),
    }
}

/// Runs the commands of a script from the first on, over an image that was opened.
fn run_session<M: Media, S: Source, K: Sink>(
    media: &mut M,
    config: &Config,
    is_new: bool,
    rooms: Rooms,
    begun: Begun,
    lines: &mut Lines,
    room: &mut LineRoom,
    script: &mut S,
    out: &mut K,
) -> Status
    requires whole { IsTrue (is_whole config.now) }
    requires in_hand { HoldsFirst begun.first begun.number room.old lines.old }
    requires reach { (g : Geometry) → config.now.device ≡ Some g → 1024 + extent g (sum_by blocks_of config.now.plans) ≤ length (M.state media.old).content }
    requires blank { is_new ≡ true → IsTrue (M.state media.old).tells → (g : Geometry) → config.now.device ≡ Some g → IsBlankBehind g (sum_by blocks_of config.now.plans) (M.state media.old).content }
    requires rooms { AreRoomsFor rooms config.now }
    ensures runs { (configured : Configuration) → whole KNOTS config.now ≡ Some configured →
        RanFrom begun.first begun.number lines.old (S.left script.old) (S.left script.new) (around_of configured (M.state media.old) (M.state media.new) (K.written out.old) (K.written out.new))
        (RestsTold configured (M.state media.old)) (EndsAt configured result (M.state media.new).content) result }
    ensures causes { RunsFrom begun.first begun.number lines.old (S.left script.old) (S.left script.new)
        (λ commands. SessionOver config.now (M.state media.old) (M.state media.new) (λ begin end. CausedEach commands begin end (K.written out.old) (K.written out.new) × TellsRows end result))
        (λ commands. SessionOver config.now (M.state media.old) (M.state media.new) (λ begin end. CausedInto commands begin end (K.written out.old) (K.written out.new))) result }
    ensures form { KeepsForm (M.state media.old) (M.state media.new) }
    ensures goes { MediaGoes (M.state media.old) (M.state media.new) }
    ensures read { result ≡ Status.ScriptRead → Rose (S.faults script.old) (S.faults script.new) }
    ensures write { result ≡ Status.OutWrite → Rose (K.faults out.old) (K.faults out.new) }
    ensures statuses { IsOfCommands result }
    ensures later { (S.faults script.old ≤ S.faults script.new) × (K.faults out.old ≤ K.faults out.new) }
{
    let Begun { first, number } = begun;
    let mut session = Session::over(media, config, is_new, rooms);
    let status = run_first(&mut session, first, number, lines, room, script, out);
    let _media = session.end();
    status
}

// How a run ends whose image isn't opened.
fn status_of(refusal: ImageRefusal) -> Status
    ensures { result ≡ refused_status refusal }
{
    match refusal {
        ImageRefusal::Media => Status::MediaMake,
        ImageRefusal::Other { wanted, found, at } => Status::OtherConfig { wanted, found, at },
    }
}

// Runs a script over an image, whose words were read.
fn run_script<M: Media, S: Source, K: Sink>(
    alloc: Global,
    media: &mut M,
    script: &mut S,
    out: &mut K,
) -> Status
    ensures ends { (text : List ℕ) → IsTrue (M.state media.old).tells → S.left script.old ≡ Some text →
        Ends KNOTS text (told_of (M.state media.old) (M.state media.new) (S.left script.new) (K.written out.old) (K.written out.new)) result }
    ensures script { (text : List ℕ) → S.left script.old ≡ Some text → ScriptEnds KNOTS text (S.left script.new) result }
    ensures causes { (text : List ℕ) → S.left script.old ≡ Some text →
        EndsCaused KNOTS text (M.state media.old) (M.state media.new) (S.left script.new) (K.written out.old) (K.written out.new) result }
    ensures words { result ≡ Status.Usage → ⊥ }
    ensures read { result ≡ Status.ScriptRead → Rose (S.faults script.old) (S.faults script.new) }
    ensures write { result ≡ Status.OutWrite → Rose (K.faults out.old) (K.faults out.new) }
    ensures make { result ≡ Status.MediaMake → Rose (M.state media.old).faults (M.state media.new).faults }
    ensures early { IsEarlyBy (M.state media.old) (M.state media.new) (K.written out.old) (K.written out.new) result }
    ensures goes { MediaGoes (M.state media.old) (M.state media.new) }
    ensures later { (S.faults script.old ≤ S.faults script.new) × (K.faults out.old ≤ K.faults out.new) }
{
    let Ok(mut lines) = Lines::new(alloc) else {
        return Status::NoMemory;
    };
    let Ok(mut room) = LineRoom::new(alloc) else {
        return Status::NoMemory;
    };
    let mut config = Config::new();
    let begun = match read_config(&mut config, &mut lines, &mut room, script) {
        Ok(begun) => begun,
        Err(status) => return status,
    };
    let Ok(rooms) = Rooms::new(alloc, &config) else {
        return Status::NoMemory;
    };
    let is_new = media.len() == 0;
    match config.open_image(media) {
        Ok(()) => run_session(
            media, &config, is_new, rooms, begun, &mut lines, &mut room, script, out,
        ),
        Err(refusal) => status_of(refusal),
    }
}

/// Runs a script over an image: reads the words and the configuration, opens the image, and executes line after line.
/// Each reply is written before the next line is read. `Done`, `Line`, `ScriptRead`, `OutWrite`, `ScriptLong` and `NoMemory` may come
/// after commands whose replies are written; the others come before the first command.
pub fn run<M: Media, S: Source, K: Sink>(
    alloc: Global,
    words: &[String],
    media: &mut M,
    script: &mut S,
    out: &mut K,
) -> Status
    // What is written is a run of the machine. After each of its commands the medium stands for the state, and where the
    // command ended well the bytes that it doesn't touch are as they were.
    ensures run { (text : List ℕ) → IsTrue (M.state media.old).tells → S.left script.old ≡ Some text →
        Ends KNOTS text (told_of (M.state media.old) (M.state media.new) (S.left script.new) (K.written out.old) (K.written out.new)) result }

    // What the script alone decides, whatever the medium tells.
    ensures script { (text : List ℕ) → S.left script.old ≡ Some text → ScriptEnds KNOTS text (S.left script.new) result }

    // Whatever bytes the medium holds, and whether it tells them: each command that was run has its cause in the session's
    // memory and in the counts of its flash, which leaves the medium as it is.
    ensures causes { (text : List ℕ) → S.left script.old ≡ Some text →
        EndsCaused KNOTS text (M.state media.old) (M.state media.new) (S.left script.new) (K.written out.old) (K.written out.new) result }

    // Each status has its cause.
    ensures usage { (result ≡ Status.Usage) ↔ (image_named (map (λ word. string_bytes word) words.now) ≡ None) }
    ensures read { result ≡ Status.ScriptRead → Rose (S.faults script.old) (S.faults script.new) }
    ensures write { result ≡ Status.OutWrite → Rose (K.faults out.old) (K.faults out.new) }
    ensures make { result ≡ Status.MediaMake → Rose (M.state media.old).faults (M.state media.new).faults }

    // An early status leaves medium and sink as they were, whoever tells the script.
    ensures early { IsEarlyBy (M.state media.old) (M.state media.new) (K.written out.old) (K.written out.new) result }
    ensures goes { MediaGoes (M.state media.old) (M.state media.new) }
    ensures later { (S.faults script.old ≤ S.faults script.new) × (K.faults out.old ≤ K.faults out.new) }

    // A script whose lines are in the grammar and in their places, over a medium that is empty or of its configuration, is run
    // to its end where no count rises; or memory is wanted before the first command.
    ensures complete { (text : List ℕ) (config : Configuration) (commands : List Commanded) → IsTrue (M.state media.old).tells → S.left script.old ≡ Some text →
        IsInPlace KNOTS text config commands → (image_named (map (λ word. string_bytes word) words.now) ≡ None → ⊥) → IsOwn config (M.state media.old).content →
        (Rose (S.faults script.old) (S.faults script.new) → ⊥) → (Rose (K.faults out.old) (K.faults out.new) → ⊥) → (Rose (M.state media.old).faults (M.state media.new).faults → ⊥) →
        Completes config commands (told_of (M.state media.old) (M.state media.new) (S.left script.new) (K.written out.old) (K.written out.new)) result }
{
    if image_of(words).is_none() {
        return Status::Usage;
    }
    run_script(alloc, media, script, out)
}
