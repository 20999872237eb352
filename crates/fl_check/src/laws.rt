// Laws on the rules of a table's rings.
ghost use Rattle.std.specs.Prelude.{◌≡◌, ℕ, Option, List};
ghost use Rattle.fl_base.specs.declared.types.RingPlace.{RingPlace};
ghost use Rattle.fl_flash.specs.Flash.{FlashState, page_at};
ghost use Rattle.fl_plan.specs.declared.table_config.TableConfig.{TableConfig};
ghost use Rattle.fl_ring.specs.Mounting.{IsGood};
ghost use Rattle.fl_ring.specs.Ring.{Shape, RingState, IsShape};
ghost use Rattle.fl_check.specs.KeptPages.{KeptPagesAreGood};
ghost use Rattle.fl_check.specs.Laws.{KeepsRules};
ghost use Rattle.fl_check.specs.MountLaw.{FindsNumbers};
ghost use Rattle.fl_rules.specs.Numbering.{IsNumbered};
ghost use Rattle.fl_check.specs.Rules.{AreRules, TellsFirst};
ghost use Rattle.fl_check.specs.SoundImages.{SoundImages};
ghost use Rattle.fl_check.specs.StandingRings.{SoundRingsStand};
ghost use Rattle.fl_check.specs.Whole.{IsFinding};
ghost use Rattle.fl_check.specs.declared.faults.TableRules.{TableRules};
ghost use Rattle.fl_check.specs.declared.finding.Finding.{Finding};
ghost use Rattle.fl_rules.specs.declared.marks.Marks.{Marks};

/// A flash that stands for a ring keeps the rules on the ring's pages, torn and waiting for an erase or not.
pub fn rings_keep_rules()
    ensures { (f : FlashState) → (r : Shape) → (at_least : ℕ) → (s : RingState) → IsShape r → IsGood f r at_least s → KeepsRules f r at_least s }
{}

/// Each ring of a sound table stands for a state of it, with the kept pages and the numbers that the rules tell: so a mount of the ring
/// ends as the model says.
pub fn sound_rings_stand()
    ensures { SoundRingsStand }
{}

/// The pages of a sound table are the image of a table of the model that has nothing in memory, with as many kept data pages as the check
/// tells.
pub fn sound_images_stand()
    ensures { SoundImages }
{}

/// Where the rules on the head, the states and the numbers of a ring hold, a mount finds the numbers that they tell.
pub fn mounts_find_numbers()
    ensures { (f : FlashState) → (r : Shape) → (at_least : ℕ) → (m : Marks) → (next : ℕ) → IsNumbered (page_at f) r at_least m next → FindsNumbers f r at_least m next }
{}

/// Each page that a table of the store keeps, and that isn't void, is good, and the keys of its records ascend.
pub fn kept_pages_are_good()
    ensures { KeptPagesAreGood }
{}

/// No two findings of a table on some pages differ: it is sound, with these counts, or one rule is the first that doesn't
/// hold, and one page the first that breaks it.
pub fn findings_are_one()
    ensures { (config : TableConfig) → (log : Option RingPlace) → (page : ℕ → List ℕ) → (a b : Finding) → IsFinding config log page a → IsFinding config log page b → a ≡ b }
{}

/// What a check finds of a table that ends at the first rule that doesn't hold comes first in what one of all rules tells. So one
/// of all rules tells of a sound table that it is sound, and of no other.
pub fn rules_tell_findings()
    ensures { (config : TableConfig) → (log : Option RingPlace) → (page : ℕ → List ℕ) → (rules : TableRules) → (finding : Finding) → AreRules config log page rules → IsFinding config log page finding → TellsFirst rules finding }
{}
