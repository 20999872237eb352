// A shell over an image.
ghost use Rattle.std.specs.Prelude.{◌≡◌, ℕ, ◌+◌, ◌^◌, ◌≤◌, true, Some, Ok, Option, List, [], length, IsTrue, sum_by};
ghost use Rattle.fl_base.specs.Causes.{Rose};
ghost use Rattle.fl_base.specs.declared.types.Geometry.{Geometry};
ghost use Rattle.fl_config.specs.Whole.{is_whole};
ghost use Rattle.fl_flash.specs.Media.{MediaState};
ghost use Rattle.fl_flash.specs.Places.{extent};
ghost use Rattle.fl_image.specs.Image.{OnlyLooksAt};
ghost use Rattle.fl_machine.specs.Machine.{Machine};
ghost use Rattle.fl_machine.specs.Script.{StandsAfter};
ghost use Rattle.fl_model.specs.Record.{Config as Configuration, blocks_of};
ghost use Rattle.fl_session.specs.Ends.{told_of};
ghost use Rattle.fl_session.specs.Execute.{IsReady};
ghost use Rattle.fl_session.specs.Held.{AreRoomsFor};
ghost use Rattle.fl_session.specs.Opening.{KeepsForm, MediaGoes};
ghost use Rattle.fl_session.specs.Standing.{RestsTold};
ghost use Rattle.fl_store.specs.Store.{IsBlankBehind};
ghost use Rattle.fl_words.specs.Config.{whole};
ghost use Rattle.fl_words.specs.Grammar.{lines_of};
ghost use Rattle.fl_shell.specs.Causes.{SessionEnds, ShellCaused};
ghost use Rattle.fl_shell.specs.Complete.{Completes, IsConfigured};
ghost use Rattle.fl_shell.specs.Ends.{IsEarlyBy, ShellEnds};
ghost use Rattle.fl_shell.specs.Input.{InputEnds};
ghost use Rattle.fl_shell.specs.Leading.{BeginsAs, LeavesOn};
ghost use Rattle.fl_shell.specs.Reading.{IsGivenAs, IsLeft, rest_in};
ghost use Rattle.fl_shell.specs.Statuses.{IsOfSession, opening_status};
ghost use Rattle.fl_shell.specs.Talking.{MediumEnds, lines_from};

use crate::begin::{Begun, begin};
use crate::talk::{Next, talk_and_flush};
use fl_base::{Sink, Source};
use fl_config::ImageRefusal;
use fl_ends::{ShellEnd, ShellStatus};
use fl_flash::Media;
use fl_lines::Lines;
use fl_script::LineRoom;
use fl_session::{KNOTS, Rooms, Session};
use std::alloc::Global;

/// The bytes of an input that are read: so many that a session doesn't come to their end.
const MOST: usize = 17_592_186_044_416;

/// How a shell ends whose image isn't opened.
fn status_of(refusal: ImageRefusal) -> ShellStatus
    ensures { result ≡ opening_status refusal }
{
    match refusal {
        ImageRefusal::Media => ShellStatus::MediaMake,
        ImageRefusal::Other { .. } => ShellStatus::NotImage,
    }
}

/// Answers the lines of an input over an image that was opened.
fn talk_over<M: Media, S: Source, K: Sink>(
    alloc: Global,
    media: &mut M,
    begun: &Begun,
    is_new: bool,
    rooms: Rooms,
    lines: &mut Lines,
    room: &mut LineRoom,
    input: &mut S,
    out: &mut K,
) -> ShellEnd
    requires whole { IsTrue (is_whole begun.now.config) }
    requires rooms { AreRoomsFor rooms begun.now.config }
    requires reach { (g : Geometry) → begun.now.config.device ≡ Some g → 1024 + extent g (sum_by blocks_of begun.now.config.plans) ≤ length (M.state media.old).content }
    requires blank { is_new ≡ true → IsTrue (M.state media.old).tells → (g : Geometry) → begun.now.config.device ≡ Some g → IsBlankBehind g (sum_by blocks_of begun.now.config.plans) (M.state media.old).content }
    ensures ends { (configured : Configuration) (old : Machine) (left hand : List ℕ) (total : ℕ) →
        whole KNOTS begun.now.config ≡ Some configured → IsReady configured old → RestsTold configured (M.state media.old) old →
        ((begun.now.next ≡ Next.Ended → ⊥) → lines.old.most ≤ 2 ^ 44) → S.left input.old ≡ Some left → (begun.now.next ≡ Next.Ended → left ≡ []) → ((begun.now.next ≡ Next.Ended → ⊥) → IsLeft lines.old left (2 ^ 44) total) → IsGivenAs hand lines.old.line →
        MediumEnds configured old (lines_from begun.now.next hand (lines_of (rest_in lines.old left))) total (StandsAfter configured (Some (M.state media.new).content)) (M.state media.old).content (M.state media.new).content (M.state media.old).faults (M.state media.new).faults
        (K.written out.old) (K.written out.new) (S.left input.new) result.flushed result.status }
    ensures told { (left hand : List ℕ) (total : ℕ) → S.left input.old ≡ Some left → (begun.now.next ≡ Next.Ended → left ≡ []) → ((begun.now.next ≡ Next.Ended → ⊥) → IsLeft lines.old left (2 ^ 44) total) → IsGivenAs hand lines.old.line →
        SessionEnds begun.now.config (M.state media.old) (M.state media.new) (lines_from begun.now.next hand (lines_of (rest_in lines.old left))) total (K.written out.old) (K.written out.new) (S.left input.new) result.flushed result.status }
    ensures input { (left : List ℕ) (total : ℕ) → S.left input.old ≡ Some left → (begun.now.next ≡ Next.Ended → left ≡ []) → ((begun.now.next ≡ Next.Ended → ⊥) → IsLeft lines.old left (2 ^ 44) total) → InputEnds total (S.left input.new) result.status }
    ensures statuses { IsOfSession result.status }
    ensures keeps { KeepsForm (M.state media.old) (M.state media.new) }
    ensures goes { MediaGoes (M.state media.old) (M.state media.new) }
    ensures read { result.status ≡ ShellStatus.InputRead → Rose (S.faults input.old) (S.faults input.new) }
    ensures write { result.status ≡ ShellStatus.OutWrite → Rose (K.faults out.old) (K.faults out.new) }
    ensures later { (S.faults input.old ≤ S.faults input.new) × (K.faults out.old ≤ K.faults out.new) }
{
    let Begun { config, next } = begun;
    let mut session = Session::over(media, config, is_new, rooms);
    let end = talk_and_flush(alloc, &mut session, config, *next, lines, room, input, out);
    let _media = session.into_media();
    end
}

/// Opens the image of a configuration that was made or found, and answers the lines of an input behind it.
fn shell_begun<M: Media, S: Source, K: Sink>(
    alloc: Global,
    media: &mut M,
    begun: &Begun,
    lines: &mut Lines,
    room: &mut LineRoom,
    input: &mut S,
    out: &mut K,
) -> ShellEnd
    requires whole { IsTrue (is_whole begun.now.config) }
    // Before, a medium was only looked at, and what was told then was answered to the lines of the configuration.
    ensures ends { (text : List ℕ) (before : MediaState) (told : Option (List ℕ)) → IsTrue before.tells → OnlyLooksAt before (M.state media.old) →
        ((begun.now.next ≡ Next.Ended → ⊥) → lines.old.most ≤ 2 ^ 44) → BeginsAs before.content (lines_of text) (length text) (Ok begun.now) lines.old (S.left input.old) told (K.written out.old) →
        ShellEnds KNOTS text (told_of before (M.state media.new) (S.left input.new) told (K.written out.new)) result.flushed result.status }
    ensures causes { (text : List ℕ) (before : MediaState) (told : Option (List ℕ)) → IsTrue before.tells → OnlyLooksAt before (M.state media.old) →
        BeginsAs before.content (lines_of text) (length text) (Ok begun.now) lines.old (S.left input.old) told (K.written out.old) →
        ShellCaused KNOTS text before (M.state media.new) (S.left input.new) told (K.written out.new) result.flushed result.status }
    ensures input { (total : ℕ) → LeavesOn begun.now total lines.old (S.left input.old) → InputEnds total (S.left input.new) result.status }
    ensures early { (before : MediaState) → OnlyLooksAt before (M.state media.old) → IsEarlyBy before (M.state media.new) result.status }
    ensures read { result.status ≡ ShellStatus.InputRead → Rose (S.faults input.old) (S.faults input.new) }
    ensures write { result.status ≡ ShellStatus.OutWrite → Rose (K.faults out.old) (K.faults out.new) }
    ensures make { result.status ≡ ShellStatus.MediaMake → Rose (M.state media.old).faults (M.state media.new).faults }
    ensures goes { MediaGoes (M.state media.old) (M.state media.new) }
    ensures later { (S.faults input.old ≤ S.faults input.new) × (K.faults out.old ≤ K.faults out.new) }
{
    let Ok(rooms) = Rooms::new(alloc, &begun.config) else {
        return ShellEnd::of(ShellStatus::NoMemory);
    };
    let is_new = media.len() == 0;
    match begun.config.open_image(media) {
        Ok(()) => talk_over(alloc, media, begun, is_new, rooms, lines, room, input, out),
        Err(refusal) => ShellEnd::of(status_of(refusal)),
    }
}

/// Answers the lines of an input over the image on a medium, and flushes what is pending at their end. An empty medium becomes an
/// image of the configuration that the leading lines make.
pub fn shell<M: Media, S: Source, K: Sink>(
    alloc: Global,
    media: &mut M,
    input: &mut S,
    out: &mut K,
) -> ShellEnd
    // The answers to the lines that are commands are a run of the machine, those to the other lines change nothing, and what is
    // pending at the end is flushed.
    ensures ends { (text : List ℕ) → IsTrue (M.state media.old).tells → S.left input.old ≡ Some text →
        ShellEnds KNOTS text (told_of (M.state media.old) (M.state media.new) (S.left input.new) (K.written out.old) (K.written out.new)) result.flushed result.status }

    // Whatever bytes the medium holds: each line that was answered has its cause in the session's memory and in the counts of its flash,
    // and so has the flush of each table at the end; of what was pending it is told whether all was flushed.
    ensures causes { (text : List ℕ) → IsTrue (M.state media.old).tells → S.left input.old ≡ Some text →
        ShellCaused KNOTS text (M.state media.old) (M.state media.new) (S.left input.new) (K.written out.old) (K.written out.new) result.flushed result.status }

    // What the input alone decides, whatever the medium tells.
    ensures input { (text : List ℕ) → S.left input.old ≡ Some text → InputEnds (length text) (S.left input.new) result.status }

    // Each status has its cause.
    ensures read { result.status ≡ ShellStatus.InputRead → Rose (S.faults input.old) (S.faults input.new) }
    ensures write { result.status ≡ ShellStatus.OutWrite → Rose (K.faults out.old) (K.faults out.new) }
    ensures make { result.status ≡ ShellStatus.MediaMake → Rose (M.state media.old).faults (M.state media.new).faults }

    // An early status leaves the medium as it was, whoever tells the input.
    ensures early { IsEarlyBy (M.state media.old) (M.state media.new) result.status }
    ensures goes { MediaGoes (M.state media.old) (M.state media.new) }
    ensures later { (S.faults input.old ≤ S.faults input.new) × (K.faults out.old ≤ K.faults out.new) }

    // An input of at most 17,592,186,044,416 bytes over an image, or over an empty medium that its first lines configure, is
    // answered to its end where no count rises; or memory is wanted before the first command.
    ensures complete { (text : List ℕ) → IsTrue (M.state media.old).tells → S.left input.old ≡ Some text → length text ≤ 2 ^ 44 → IsConfigured KNOTS (M.state media.old).content (lines_of text) →
        (Rose (S.faults input.old) (S.faults input.new) → ⊥) → (Rose (K.faults out.old) (K.faults out.new) → ⊥) → (Rose (M.state media.old).faults (M.state media.new).faults → ⊥) →
        Completes KNOTS text (told_of (M.state media.old) (M.state media.new) (S.left input.new) (K.written out.old) (K.written out.new)) result.flushed result.status }
{
    let Ok(mut lines) = Lines::of_most(alloc, MOST) else {
        return ShellEnd::of(ShellStatus::NoMemory);
    };
    let Ok(mut room) = LineRoom::new(alloc) else {
        return ShellEnd::of(ShellStatus::NoMemory);
    };
    let begun = match begin(alloc, media, &mut lines, &mut room, input, out) {
        Ok(begun) => begun,
        Err(status) => return ShellEnd::of(status),
    };
    shell_begun(alloc, media, &begun, &mut lines, &mut room, input, out)
}
