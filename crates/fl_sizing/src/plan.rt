// The plan of a configuration.
ghost use Rattle.std.specs.Prelude.{◌≡◌, ◌≤◌, ℕ, List, Some, length, IfSome, IfOk, IfErr, IsTrue};
ghost use Rattle.fl_base.specs.Causes.{Rose};
ghost use Rattle.fl_base.specs.declared.types.Geometry.{Geometry};
ghost use Rattle.fl_config.specs.Whole.{is_whole};
ghost use Rattle.fl_sizing.specs.Ends.{PlanEnds, Refuses, TakesAtMost, Writes};
ghost use Rattle.fl_sizing.specs.Lines.{IsEnded};
ghost use Rattle.fl_sizing.specs.Text.{plan_text};
ghost use Rattle.fl_sizing.specs.declared.end.PlanStatus.{PlanStatus};

use crate::end::{PlanEnd, PlanStatus};
use crate::figures::text_of;
use crate::input::{ROOM, read_text};
use crate::lines::config_of;
use fl_base::{Sink, Source};
use fl_config::Config;
use fl_script::{LineRoom, write_all};
use std::alloc::Global;

/// The configuration that the text of a source begins with, which is read into room for it.
fn config_of_text<S: Source>(
    input: &mut S,
    bytes: &mut [u8],
    room: &mut LineRoom,
) -> Result<Config, PlanEnd>
    requires { length bytes.old ≡ ROOM }
    ensures whole { IfOk result (λ config. IsTrue (is_whole config)) }
    ensures ended { IfOk result (λ config. (text : List ℕ) → S.left input.old ≡ Some text → IsEnded text config) }
    ensures refused { IfErr result (λ end. (text : List ℕ) → S.left input.old ≡ Some text → Refuses text end) }
    ensures taken { (text : List ℕ) → S.left input.old ≡ Some text → TakesAtMost ROOM text (S.left input.new) }
    ensures read { IfErr result (λ end. end.status ≡ PlanStatus.InputRead → Rose (S.faults input.old) (S.faults input.new)) }
    ensures statuses { IfErr result (λ end. (end.status ≡ PlanStatus.Done → ⊥) × (end.status ≡ PlanStatus.OutWrite → ⊥)) }
    ensures later { S.faults input.old ≤ S.faults input.new }
{
    match read_text(input, bytes) {
        Ok(len) => config_of(&bytes[..len], room),
        Err(status) => Err(PlanEnd::of(status)),
    }
}

/// The same, where there is room.
fn config_of_input<S: Source>(alloc: Global, input: &mut S) -> Result<Config, PlanEnd>
    ensures whole { IfOk result (λ config. IsTrue (is_whole config)) }
    ensures ended { IfOk result (λ config. (text : List ℕ) → S.left input.old ≡ Some text → IsEnded text config) }
    ensures refused { IfErr result (λ end. (text : List ℕ) → S.left input.old ≡ Some text → Refuses text end) }
    ensures taken { (text : List ℕ) → S.left input.old ≡ Some text → TakesAtMost ROOM text (S.left input.new) }
    ensures read { IfErr result (λ end. end.status ≡ PlanStatus.InputRead → Rose (S.faults input.old) (S.faults input.new)) }
    ensures statuses { IfErr result (λ end. (end.status ≡ PlanStatus.Done → ⊥) × (end.status ≡ PlanStatus.OutWrite → ⊥)) }
    ensures later { S.faults input.old ≤ S.faults input.new }
{
    let Ok(mut room) = LineRoom::new(alloc) else {
        return Err(PlanEnd::of(PlanStatus::NoMemory));
    };
    let Ok(mut bytes) = vec![in alloc; 0; ROOM] else {
        return Err(PlanEnd::of(PlanStatus::NoMemory));
    };
    config_of_text(input, &mut bytes, &mut room)
}

/// Writes the figures of a configuration.
fn write_figures<K: Sink>(
    alloc: Global,
    interval: Option<u64>,
    config: &Config,
    out: &mut K,
) -> PlanStatus
    requires whole { IsTrue (is_whole config.now) }
    requires interval { IfSome interval (λ seconds. seconds ≤ 1000000) }
    ensures writes { (geometry : Geometry) → config.now.device ≡ Some geometry → Writes (plan_text interval geometry config.now.plans) (K.written out.old) (K.written out.new) result }
    ensures write { result ≡ PlanStatus.OutWrite → Rose (K.faults out.old) (K.faults out.new) }
    ensures later { K.faults out.old ≤ K.faults out.new }
{
    let Ok(text) = text_of(alloc, interval, config) else {
        return PlanStatus::NoMemory;
    };
    match write_all(&text, out) {
        Ok(()) => PlanStatus::Done,
        Err(_) => PlanStatus::OutWrite,
    }
}

/// Reads the lines of a configuration, up to the first other command of a script or the end, and writes for each table what
/// follows from its line, and for the device what the tables are together; with the seconds between two rows also how many
/// days are kept. It opens no image.
pub fn plan_tables<S: Source, K: Sink>(
    alloc: Global,
    interval: Option<u64>,
    input: &mut S,
    out: &mut K,
) -> PlanEnd
    requires { IfSome interval (λ seconds. seconds ≤ 1000000) }
    // What is written is the figures of the tables that a run of a script of this text would have, or a front of them
    // where the sink fails; where a line is refused, nothing is, and the reason is told.
    ensures ends { (knots : ℕ) → (text : List ℕ) → S.left input.old ≡ Some text → PlanEnds knots interval text (K.written out.old) (K.written out.new) result }
    // At most one byte more than a text may have is taken.
    ensures taken { (text : List ℕ) → S.left input.old ≡ Some text → TakesAtMost ROOM text (S.left input.new) }

    // Statuses have their causes.
    ensures read { result.status ≡ PlanStatus.InputRead → Rose (S.faults input.old) (S.faults input.new) }
    ensures write { result.status ≡ PlanStatus.OutWrite → Rose (K.faults out.old) (K.faults out.new) }
    ensures later { (S.faults input.old ≤ S.faults input.new) × (K.faults out.old ≤ K.faults out.new) }
{
    match config_of_input(alloc, input) {
        Ok(config) => PlanEnd::of(write_figures(alloc, interval, &config, out)),
        Err(end) => end,
    }
}
