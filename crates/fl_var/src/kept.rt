// Which pages of variable data are kept.
ghost use Rattle.std.specs.Prelude.{◌≡◌, ◌-◌};

use crate::var_data::VarData;

impl VarData {
    ghost use Rattle.std.specs.Prelude.{ℕ, length};
    ghost use Rattle.fl_flash.specs.Flash.{FlashState};
    ghost use Rattle.fl_model.specs.Record.{Plan};
    ghost use Rattle.fl_model.specs.Ring as rings;
    ghost use Rattle.fl_model.specs.Table as model;
    ghost use Rattle.fl_var.specs.Memory.{next_in, oldest_in};
    ghost use Rattle.fl_var.specs.Standing.{HasRing};

    /// How many pages are kept, the void ones among them. It keeps none where it isn't mounted.
    pub fn pages(&self) -> u32
        ensures exact { result ≡ next_in self.now - oldest_in self.now }
        ensures stands { (f : FlashState) → (plan : Plan) → (table : model.Table) → (s : HasRing self.now f plan table) → result ≡ length s.ring.counts }
    {
        match &self.ring {
            Some(ring) => ring.next_number() - ring.oldest(),
            None => 0,
        }
    }

    /// The number of the oldest kept page, or of the next page where none is kept. It answers 0 where it isn't mounted.
    pub fn oldest(&self) -> u32
        ensures exact { result ≡ oldest_in self.now }
        ensures stands { (f : FlashState) → (plan : Plan) → (table : model.Table) → (s : HasRing self.now f plan table) → result ≡ rings.oldest s.ring }
    {
        match &self.ring {
            Some(ring) => ring.oldest(),
            None => 0,
        }
    }
}
