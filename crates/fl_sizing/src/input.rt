// A text that is read whole.
ghost use Rattle.std.specs.Prelude.{◌≡◌, ◌≤◌, ◌<◌, ◌⊎◌, ℕ, List, Some, length, take, IfOk, IfErr, Err};
ghost use Rattle.fl_base.specs.Causes.{Rose};
ghost use Rattle.fl_sizing.specs.Ends.{TakesAtMost};
ghost use Rattle.fl_sizing.specs.declared.end.PlanStatus.{PlanStatus};

use crate::end::PlanStatus;
use fl_base::Source;

/// One byte more than a text may have.
pub(crate) const ROOM: usize = 65_537;

/// Reads a source to its end, and answers how many bytes it gave. They are fewer than there is room for.
pub(crate) fn read_text<S: Source>(input: &mut S, into: &mut [u8]) -> Result<usize, PlanStatus>
    requires { length into.old ≡ ROOM }
    ensures room { length into.new ≡ ROOM }
    ensures text { IfOk result (λ len. (len < ROOM) × ((text : List ℕ) → S.left input.old ≡ Some text → take len into.new ≡ text)) }
    ensures long { result ≡ Err PlanStatus.InputLong → (text : List ℕ) → S.left input.old ≡ Some text → 65536 < length text }
    ensures taken { (text : List ℕ) → S.left input.old ≡ Some text → TakesAtMost ROOM text (S.left input.new) }
    ensures fails { result ≡ Err PlanStatus.InputRead → Rose (S.faults input.old) (S.faults input.new) }
    ensures later { S.faults input.old ≤ S.faults input.new }
    ensures statuses { IfErr result (λ status. (status ≡ PlanStatus.InputLong) ⊎ (status ≡ PlanStatus.InputRead)) }
{
    let mut len = 0;
    'bytes: while len < ROOM {
        match input.read(&mut into[len..]) {
            Ok(0) => return Ok(len),
            Ok(count) => len += count,
            Err(_) => return Err(PlanStatus::InputRead),
        }
    }
    Err(PlanStatus::InputLong)
}
