// A search downwards.
ghost use Rattle.std.specs.Prelude.{◌≡◌, ◌+◌, ◌-◌, ◌≤◌, ◌<◌, ℕ, Option, IfSome, IfOk, IfErr};
ghost use Rattle.fl_base.specs.Causes.{HasCause};
ghost use Rattle.fl_search.specs.Search.{FailsBelow, IsPageOf, looked_at, RoseBy};

use crate::keys::FirstKeys;
use fl_page::ReadFault;

/// The greatest page from `oldest` to `top` that isn't void and whose first key is at most `key`.
///
/// It asks for the first key of `top` and of each page below, down to the one that it answers, which it asked for last.
pub fn near<K: FirstKeys>(
    keys: &mut K,
    oldest: u32,
    top: u32,
    key: u64,
) -> Result<Option<u32>, ReadFault>
    requires { (n : ℕ) → oldest ≤ n → n ≤ top → K.has keys.old n }
    ensures page { (first : ℕ → Option ℕ) → K.tells keys.old first → IfOk result (λ page. IsPageOf first oldest (top + 1) key page) }
    ensures calls { IfOk result (λ page. RoseBy (looked_at oldest (top + 1) page) (K.calls keys.old) (K.calls keys.new)) }
    ensures most { K.calls keys.new ≤ K.calls keys.old + (top + 1 - oldest) }
    ensures limit { (first : ℕ → Option ℕ) (page : Option ℕ) → K.tells keys.old first → IsPageOf first oldest (top + 1) key page
        → K.calls keys.new ≤ K.calls keys.old + looked_at oldest (top + 1) page }
    ensures cause { HasCause (K.faults keys.old) (K.faults keys.new) result }
    ensures tells { (first : ℕ → Option ℕ) → K.tells keys.old first → K.tells keys.new first }
    ensures has { (n : ℕ) → K.has keys.old n → K.has keys.new n }
    ensures names { K.names keys.new ≡ K.names keys.old }
    ensures since { (first : K) → K.since first keys.old → K.since first keys.new }
    ensures fails { (first : K) → K.since first keys.old → IfErr result (λ fault. FailsBelow (λ told. K.tells keys.old told) (λ number. K.fails first number fault keys.new) oldest (top + 1) key) }
    ensures here { IfOk result (λ page. IfSome page (λ number. K.here keys.new number)) }
    ensures within { IfOk result (λ page. IfSome page (λ number. (oldest ≤ number) × (number ≤ top))) }
{
    // In 64 bits, since the page after `top` may have no number.
    let mut end = u64::from(top) + 1;
    while end > u64::from(oldest) {
        end -= 1;
        let number = end as u32;
        if let Some(first) = keys.first_key(number)? {
            if first <= key {
                return Ok(Some(number));
            }
        }
    }
    Ok(None)
}
