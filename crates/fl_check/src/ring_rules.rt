// All rules of one ring: one that doesn't hold hides only those that rest on it.
ghost use Rattle.std.specs.Prelude.{◌≡◌, length, IsTrue, IfOk, IfErr, IfSome};
ghost use Rattle.fl_flash.specs.Flash.{page_at};
ghost use Rattle.fl_flash.specs.declared.flash.FlashFault.{FlashFault};
ghost use Rattle.fl_frame.specs.Causes.{ReadFails};
ghost use Rattle.fl_ring.specs.Place.{shape_of, LiesOn};
ghost use Rattle.fl_frame.specs.Reads.{OnlyLooks};
ghost use Rattle.fl_rules.specs.Off.{OffFails};
ghost use Rattle.fl_rules.specs.Marks.{AreMarks, AreWithin};
ghost use Rattle.fl_check.specs.Ruled.{BodiesTold, NumbersTold, HeadHolds, RingTold};
ghost use Rattle.fl_rules.specs.Stop.{first_page};

use crate::faults::RingFaults;
use fl_flash::{Flash, FlashFault, PageBuf};
use fl_ring::Ring;
use fl_rules::{
    Form, Marks, Numbering, Rule, Stop, check_forms, check_numbers, check_rest, check_states,
    read_marks,
};

/// What is told of a ring: the first page that breaks each rule, and the marks and the numbers of its pages if the rules on the
/// head, the numbers and the bodies hold.
#[derive(Clone, Copy)]
pub(crate) struct Ruled {
    pub(crate) faults: RingFaults,
    pub(crate) numbering: Option<Numbering>,
}

impl Ruled {
    ghost use Rattle.std.specs.Prelude.{◌≡◌, None};
    ghost use Rattle.fl_check.specs.Faults.{no_faults};
    ghost use Rattle.fl_check.specs.Rules.{in_order};

    /// Of a ring that a table hasn't.
    pub(crate) fn of_no_ring() -> Ruled
        ensures faults { result.faults ≡ no_faults }
        ensures none { result.numbering ≡ None }
    {
        Ruled {
            faults: RingFaults::none(),
            numbering: None,
        }
    }

    /// The numbering, if the rule on the states holds too: only then the ring ends where its marks say.
    pub(crate) fn in_order(self) -> Option<Numbering>
        ensures { result ≡ in_order self.faults.state self.numbering }
    {
        match self.faults.state {
            None => self.numbering,
            Some(_) => None,
        }
    }
}

/// .. by the rules on the numbers and the bodies.
#[derive(Clone, Copy)]
struct Numbered {
    number: Option<u32>,
    body: Option<u32>,
    numbering: Option<Numbering>,
}

/// The page at which a check of one rule ended.
pub(crate) fn first_page(checked: Result<(), Stop>) -> Result<Option<u32>, FlashFault>
    ensures { result ≡ first_page checked }
{
    match checked {
        Ok(()) => Ok(None),
        Err(Stop::Broken(breach)) => Ok(Some(breach.page)),
        Err(Stop::Flash(fault)) => Err(fault),
    }
}

/// Looks at the bodies of pages with these numbers.
fn rule_bodies<F: Flash, B: Form>(
    ring: &Ring,
    flash: &mut F,
    n: Numbering,
    form: &B,
    buf: &mut PageBuf,
) -> Result<Numbered, FlashFault>
    requires lies { LiesOn ring.now (F.state flash.old) }
    requires room { length buf.old.bytes ≡ (shape_of ring.now).size }
    requires within { AreWithin (shape_of ring.now) n.marks }
    ensures looks { OnlyLooks (F.state flash.old) (F.state flash.new) }
    ensures room { length buf.new.bytes ≡ (shape_of ring.now).size }
    ensures within { IfOk result (λ told. IfSome told.numbering (λ n. AreWithin (shape_of ring.now) n.marks)) }
    ensures number { IfOk result (λ told. told.number ≡ None) }
    ensures bodies { IfOk result (λ told. IsTrue (F.state flash.old).media.tells → BodiesTold (B.holds form.now) (page_at (F.state flash.old)) (shape_of ring.now) n told.body told.numbering) }
    ensures fails { IfErr result (λ e. ReadFails (F.state flash.old) e (F.state flash.new)) }
{
    let body = first_page(check_forms(ring, flash, n, Rule::Body, form, buf))?;
    Ok(Numbered {
        number: None,
        body,
        numbering: body.is_none().then_some(n),
    })
}

/// Looks at the numbers of pages with these marks, and at their bodies.
fn rule_numbers<F: Flash, B: Form>(
    ring: &Ring,
    flash: &mut F,
    marks: Marks,
    at_least: u64,
    form: &B,
    buf: &mut PageBuf,
) -> Result<Numbered, FlashFault>
    requires lies { LiesOn ring.now (F.state flash.old) }
    requires room { length buf.old.bytes ≡ (shape_of ring.now).size }
    requires within { AreWithin (shape_of ring.now) marks }
    ensures looks { OnlyLooks (F.state flash.old) (F.state flash.new) }
    ensures room { length buf.new.bytes ≡ (shape_of ring.now).size }
    ensures within { IfOk result (λ told. IfSome told.numbering (λ n. AreWithin (shape_of ring.now) n.marks)) }
    ensures numbers { IfOk result (λ told. IsTrue (F.state flash.old).media.tells
        → NumbersTold (B.holds form.now) (page_at (F.state flash.old)) (shape_of ring.now) marks at_least told.number told.body told.numbering) }
    ensures fails { IfErr result (λ e. ReadFails (F.state flash.old) e (F.state flash.new)) }
{
    match check_numbers(ring, flash, marks, at_least, buf) {
        Ok(next) => rule_bodies(ring, flash, Numbering { marks, next }, form, buf),
        Err(Stop::Broken(breach)) => Ok(Numbered {
            number: Some(breach.page),
            body: None,
            numbering: None,
        }),
        Err(Stop::Flash(fault)) => Err(fault),
    }
}

/// Looks at the rules of a ring with these marks.
fn rule_marked<F: Flash, B: Form>(
    ring: &Ring,
    flash: &mut F,
    marks: Marks,
    at_least: u64,
    form: &B,
    buf: &mut PageBuf,
) -> Result<Ruled, FlashFault>
    requires lies { LiesOn ring.now (F.state flash.old) }
    requires room { length buf.old.bytes ≡ (shape_of ring.now).size }
    requires within { AreWithin (shape_of ring.now) marks }
    ensures looks { OnlyLooks (F.state flash.old) (F.state flash.new) }
    ensures room { length buf.new.bytes ≡ (shape_of ring.now).size }
    ensures within { IfOk result (λ told. IfSome told.numbering (λ n. AreWithin (shape_of ring.now) n.marks)) }
    ensures head { IfOk result (λ told. told.faults.head ≡ None) }
    ensures rules { IfOk result (λ told. IsTrue (F.state flash.old).media.tells → AreMarks (page_at (F.state flash.old)) (shape_of ring.now) marks
        → HeadHolds (B.holds form.now) (page_at (F.state flash.old)) (shape_of ring.now) at_least told.faults told.numbering) }
    ensures fails { IfErr result (λ e. ReadFails (F.state flash.old) e (F.state flash.new)) }
{
    let state = first_page(check_states(ring, flash, marks, buf))?;
    let rest = first_page(check_rest(ring, flash, marks, buf))?;
    let told = rule_numbers(ring, flash, marks, at_least, form, buf)?;
    Ok(Ruled {
        faults: RingFaults {
            head: None,
            state,
            number: told.number,
            body: told.body,
            keys: None,
            rest,
        },
        numbering: told.numbering,
    })
}

/// Looks at all rules of a ring but that on keys.
pub(crate) fn rule_ring<F: Flash, B: Form>(
    ring: &Ring,
    flash: &mut F,
    at_least: u64,
    form: &B,
    buf: &mut PageBuf,
) -> Result<Ruled, FlashFault>
    requires lies { LiesOn ring.now (F.state flash.old) }
    requires room { length buf.old.bytes ≡ (shape_of ring.now).size }
    ensures looks { OnlyLooks (F.state flash.old) (F.state flash.new) }
    ensures room { length buf.new.bytes ≡ (shape_of ring.now).size }
    ensures within { IfOk result (λ told. IfSome told.numbering (λ n. AreWithin (shape_of ring.now) n.marks)) }
    ensures rules { IfOk result (λ told. IsTrue (F.state flash.old).media.tells
        → RingTold (B.holds form.now) (page_at (F.state flash.old)) (shape_of ring.now) at_least told.faults told.numbering) }
    ensures fails { IfErr result (λ e. ReadFails (F.state flash.old) e (F.state flash.new)) }
    ensures off { OffFails FlashFault.PowerLost (F.state flash.old) result (F.state flash.new) }
{
    match read_marks(ring, flash, buf) {
        Ok(marks) => rule_marked(ring, flash, marks, at_least, form, buf),
        Err(Stop::Broken(breach)) => Ok(Ruled {
            faults: RingFaults::headless(breach.page),
            numbering: None,
        }),
        Err(Stop::Flash(fault)) => Err(fault),
    }
}
