// The rules of a table's rings, and why a check of a ring ends.
ghost use Rattle.std.specs.Prelude.{◌≡◌};
ghost use Rattle.fl_rules.specs.declared.rule.Stop.{Stop};

use fl_flash::FlashFault;

/// A rule that the pages of a ring keep.
#[derive(Clone, Copy, Debug, PartialEq, Eq)]
pub enum Rule {
    /// There is one head.
    Head,
    /// The kept pages are sealed, the head is in order, and the block ahead is blank where a page begun needs it so.
    State,
    /// The pages have the numbers of their places.
    Number,
    /// The committed pages have the form of their ring.
    Body,
    /// The keys ascend from page to page.
    Keys,
    /// The entries of the index are the bitmaps of the data pages.
    Entry,
    /// The references of the rows lead to their blobs.
    Blob,
    /// The pages that are not kept are blank.
    Rest,
}

impl Rule {
    ghost use Rattle.fl_rules.specs.Rule.{rule_number};

    /// Its number.
    pub fn number(self) -> u8
        ensures { result ≡ rule_number self }
    {
        match self {
            Rule::Head => 1,
            Rule::State => 2,
            Rule::Number => 3,
            Rule::Body => 4,
            Rule::Keys => 5,
            Rule::Entry => 6,
            Rule::Blob => 7,
            Rule::Rest => 8,
        }
    }
}

/// A rule doesn't hold: this page of the flash is the first that breaks it.
#[derive(Clone, Copy, Debug, PartialEq, Eq)]
pub struct Breach {
    pub rule: Rule,
    pub page: u32,
}

/// Why a check ends before its end.
#[derive(Clone, Copy, Debug, PartialEq, Eq)]
pub enum Stop {
    /// The flash failed.
    Flash(FlashFault),
    /// A rule doesn't hold.
    Broken(Breach),
}

impl From<FlashFault> for Stop {
    ghost use Rattle.std.specs.Prelude.{◌≡◌};
    ghost use Rattle.fl_rules.specs.declared.rule.Stop.{Stop};

    ghost from_gives = { λ fault e. e ≡ Stop.Flash fault };

    fn from(fault: FlashFault) -> Stop {
        Stop::Flash(fault)
    }
}

impl From<Breach> for Stop {
    ghost use Rattle.std.specs.Prelude.{◌≡◌};

    ghost from_gives = { λ breach e. e ≡ Stop.Broken breach };

    fn from(breach: Breach) -> Stop {
        Stop::Broken(breach)
    }
}

/// The stop at a page that breaks a rule.
pub(crate) fn broken(rule: Rule, page: u32) -> Stop
    ensures { result ≡ Stop.Broken (record { rule = rule; page = page }) }
{
    Stop::Broken(Breach { rule, page })
}
