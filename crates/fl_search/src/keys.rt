// Where first keys come from.
use fl_page::ReadFault;

/// Gives the first keys of pages, by their numbers. A page that is void has none.
pub trait FirstKeys {
    ghost use Rattle.std.specs.Prelude.{◌≡◌, ◌+◌, ◌≤◌, ℕ, List, Option, IfSome, OnOk, IfOk, IfErr};
    ghost use Rattle.std.specs.Borrow.{GName};
    ghost use Rattle.fl_base.specs.Causes.{HasCause};
    ghost use Rattle.fl_search.specs.Search.{RoseBy};
    ghost use Rattle.fl_page.specs.declared.fault.ReadFault.{ReadFault};

    /// The names of the references that it holds.
    ghost names: { Self → List GName };

    /// The pages that may be asked for.
    ghost has: { Self → ℕ → Type 0 };

    /// Functions that tell the first key of each of these pages. There may be none.
    ghost tells: { Self → (ℕ → Option ℕ) → Type 0 };

    /// How many calls were made. It stays at the greatest u64.
    ghost calls: { Self → ℕ };

    /// How many faults there were. It stays at the greatest u64.
    ghost faults: { Self → ℕ };

    /// That it came from another by calls alone.
    ghost since: { Self → Self → Type 0 };

    /// Why a call for a page may fail, seen from one of those that it came from.
    ghost fails: { Self → ℕ → ReadFault → Self → Type 0 };

    /// The page that was asked for last, where it isn't void.
    ghost here: { Self → ℕ → Type 0 };

    /// The first key of a page, or none where it is void.
    fn first_key(&mut self, number: u32) -> Result<Option<u64>, ReadFault>
        requires { has self.old number }
        ensures key { (first : ℕ → Option ℕ) → tells self.old first → IfOk result (λ key. key ≡ first number) }
        ensures tells { (first : ℕ → Option ℕ) → tells self.old first → tells self.new first }
        ensures has { (n : ℕ) → has self.old n → has self.new n }
        ensures calls { OnOk result (RoseBy 1 (calls self.old) (calls self.new)) }
        ensures one { calls self.new ≤ calls self.old + 1 }
        ensures cause { HasCause (faults self.old) (faults self.new) result }
        ensures names { names self.new ≡ names self.old }
        ensures since { (first : Self) → since first self.old → since first self.new }
        ensures fails { (first : Self) → since first self.old → IfErr result (λ fault. fails first number fault self.new) }
        ensures here { IfOk result (λ key. IfSome key (λ first. Self.here self.new number)) };
}
