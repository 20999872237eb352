// Why the check of a table ends before its end.
ghost use Rattle.std.specs.Prelude.{◌≡◌, IfOk, IfErr};
ghost use Rattle.fl_check.specs.Looks.{IfFailed, IfFound};
ghost use Rattle.fl_rules.specs.Stop.{IfFlash, IfBroken};
ghost use Rattle.fl_check.specs.declared.halt.Halt.{Halt};
ghost use Rattle.fl_rules.specs.declared.rule.Breach.{Breach};
ghost use Rattle.fl_flash.specs.declared.flash.FlashFault.{FlashFault};

use crate::finding::RingName;
use fl_flash::FlashFault;
use fl_rules::{Numbering, Rule, Stop};

/// A rule doesn't hold: this page of the flash is the first of its ring that breaks it.
#[derive(Clone, Copy)]
pub(crate) struct Fault {
    pub(crate) ring: RingName,
    pub(crate) page: u32,
    pub(crate) rule: Rule,
}

#[derive(Clone, Copy)]
pub(crate) enum Halt {
    /// The flash failed.
    Failed(FlashFault),
    /// A rule doesn't hold.
    Found(Fault),
}

impl From<FlashFault> for Halt {
    ghost from_gives = { λ fault e. e ≡ Halt.Failed fault };

    fn from(fault: FlashFault) -> Halt {
        Halt::Failed(fault)
    }
}

/// A ring's check as one of its table.
pub(crate) fn in_ring(ring: RingName, checked: Result<Numbering, Stop>) -> Result<Numbering, Halt>
    ensures ok { IfOk result (λ n. checked ≡ Ok n) }
    ensures failed { IfErr result (IfFailed (λ fault. checked ≡ Err (Stop.Flash fault))) }
    ensures found { IfErr result (IfFound (λ fault. (fault.ring ≡ ring) × (checked ≡ Err (Stop.Broken (record { rule = fault.rule; page = fault.page }))))) }
    ensures lost { (fault : FlashFault) → checked ≡ Err (Stop.Flash fault) → result ≡ Err (Halt.Failed fault) }
{
    match checked {
        Ok(n) => Ok(n),
        Err(Stop::Flash(fault)) => Err(Halt::Failed(fault)),
        Err(Stop::Broken(breach)) => Err(Halt::Found(Fault {
            ring,
            page: breach.page,
            rule: breach.rule,
        })),
    }
}
