// A search by halves.
ghost use Rattle.std.specs.Prelude.{◌≡◌, ◌+◌, ◌-◌, ◌^◌, ◌≤◌, ◌<◌, ℕ, Option, IfSome, IfOk, IfErr, OnErr, MatchResult, true};
ghost use Rattle.fl_base.specs.Causes.{HasCause};
ghost use Rattle.fl_base.specs.Bits.{bits};
ghost use Rattle.fl_search.specs.Search.{FailsAmong, IsPageOf, IsLastFull, Ascends, RoseSome, starts_by, voids_in, probed};

use crate::keys::FirstKeys;
use fl_page::ReadFault;

/// The last page from `oldest` to before `end` that isn't void, and its first key.
fn last_full<K: FirstKeys>(
    keys: &mut K,
    oldest: u32,
    end: u32,
) -> Result<Option<(u32, u64)>, ReadFault>
    requires { (n : ℕ) → oldest ≤ n → n < end → K.has keys.old n }
    ensures last { (first : ℕ → Option ℕ) → K.tells keys.old first → IfOk result (λ last. IsLastFull first oldest end last) }
    ensures within { IfOk result (λ last. IfSome last (λ last. (oldest ≤ last.0) × (last.0 < end))) }
    ensures most { MatchResult result (λ last. K.calls keys.new ≤ K.calls keys.old + probed oldest end last) (λ fault. K.calls keys.new ≤ K.calls keys.old + (end - oldest)) }
    ensures few { (first : ℕ → Option ℕ) → K.tells keys.old first → OnErr result (K.calls keys.new ≤ K.calls keys.old + voids_in first oldest end + 1) }
    ensures cause { HasCause (K.faults keys.old) (K.faults keys.new) result }
    ensures tells { (first : ℕ → Option ℕ) → K.tells keys.old first → K.tells keys.new first }
    ensures has { (n : ℕ) → K.has keys.old n → K.has keys.new n }
    ensures some { IfOk result (λ last. IfSome last (λ last. RoseSome (K.calls keys.old) (K.calls keys.new))) }
    ensures grows { IfOk result (λ last. K.calls keys.new < 2 ^ 64 - 1 → K.calls keys.old ≤ K.calls keys.new) }
    ensures names { K.names keys.new ≡ K.names keys.old }
    ensures since { (first : K) → K.since first keys.old → K.since first keys.new }
    ensures fails { (first : K) → K.since first keys.old → IfErr result (λ fault. FailsAmong (λ number. K.fails first number fault keys.new) oldest end) }
{
    let mut number = end;
    while number > oldest {
        number -= 1;
        if let Some(first) = keys.first_key(number)? {
            return Ok(Some((number, first)));
        }
    }
    Ok(None)
}

/// The greatest page from `oldest` to before `end` that isn't void and whose first key is at most `key`, where the
/// first keys of these pages ascend.
///
/// It halves the pages that are left by the first key of the middle one or, where that is void, of the last one
/// before it that isn't.
pub fn bisect<K: FirstKeys>(
    keys: &mut K,
    oldest: u32,
    end: u32,
    key: u64,
) -> Result<Option<u32>, ReadFault>
    requires { (n : ℕ) → oldest ≤ n → n < end → K.has keys.old n }
    ensures page { (first : ℕ → Option ℕ) → K.tells keys.old first → Ascends first oldest end → IfOk result (λ page. IsPageOf first oldest end key page) }
    ensures most { K.calls keys.new ≤ K.calls keys.old + (end - oldest) }
    ensures few { (first : ℕ → Option ℕ) → K.tells keys.old first → K.calls keys.new ≤ K.calls keys.old + bits (end - oldest) + voids_in first oldest end }
    ensures cause { HasCause (K.faults keys.old) (K.faults keys.new) result }
    ensures tells { (first : ℕ → Option ℕ) → K.tells keys.old first → K.tells keys.new first }
    ensures has { (n : ℕ) → K.has keys.old n → K.has keys.new n }
    ensures some { IfOk result (λ page. IfSome page (λ number. RoseSome (K.calls keys.old) (K.calls keys.new))) }
    ensures within { IfOk result (λ page. IfSome page (λ number. (oldest ≤ number) × (number < end))) }
    ensures starts { (first : ℕ → Option ℕ) → K.tells keys.old first → IfOk result (λ page. IfSome page (λ number. starts_by first key number ≡ true)) }
    ensures names { K.names keys.new ≡ K.names keys.old }
    ensures since { (first : K) → K.since first keys.old → K.since first keys.new }
    ensures fails { (first : K) → K.since first keys.old → IfErr result (λ fault. FailsAmong (λ number. K.fails first number fault keys.new) oldest end) }
{
    let mut found = None;
    let mut low = oldest;
    let mut high = end;
    while low < high {
        let middle = low + (high - low) / 2;
        match last_full(keys, low, middle + 1)? {
            None => low = middle + 1,
            Some((page, first)) => {
                if first <= key {
                    found = Some(page);
                    low = middle + 1;
                } else {
                    high = page;
                }
            }
        }
    }
    Ok(found)
}
