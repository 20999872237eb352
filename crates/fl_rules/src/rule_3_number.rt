// The rule on the numbers of a ring's pages.
ghost use Rattle.std.specs.Prelude.{◌≡◌, ◌+◌, ◌<◌, ◌≤◌, ◌^◌, length, Some, None, IsTrue, IfOk, IfErr, IfSome, IfNone};
ghost use Rattle.fl_flash.specs.Flash.{page_at};
ghost use Rattle.fl_frame.specs.Reads.{OnlyReads};
ghost use Rattle.fl_frame.specs.Causes.{ReadFails};
ghost use Rattle.fl_ring.specs.Place.{shape_of, LiesOn};
ghost use Rattle.fl_ring.specs.Ring.{room};
ghost use Rattle.fl_rules.specs.Claims.{AllBelow, FailsFirst};
ghost use Rattle.fl_rules.specs.Marks.{AreWithin};
ghost use Rattle.fl_rules.specs.Numbers.{NewestOf, next_of, IsLeft, HasItsNumber, HaveNumbers, NumbersBreak};
ghost use Rattle.fl_rules.specs.Stop.{IfFlash, IfBroken};
ghost use Rattle.fl_rules.specs.declared.rule.Rule.{Rule};
ghost use Rattle.fl_rules.specs.declared.rule.Stop.{Stop};

use crate::marks::Marks;
use crate::rule::{Rule, Stop, broken};
use fl_base::get_u32;
use fl_flash::{Flash, FlashFault, PageBuf};
use fl_ring::{Newest, Ring, is_committed, look};

/// Looks for the oldest kept page whose number, counted back from the next one, is below 0 or not its own, and answers
/// which of the kept ones it is.
fn first_misnumbered<F: Flash>(
    ring: &Ring,
    flash: &mut F,
    m: Marks,
    next: u64,
    buf: &mut PageBuf,
) -> Result<Option<u32>, FlashFault>
    requires lies { LiesOn ring.now (F.state flash.old) }
    requires room { length buf.old.bytes ≡ (shape_of ring.now).size }
    requires within { AreWithin (shape_of ring.now) m }
    ensures reads { OnlyReads (F.state flash.old) m.kept (F.state flash.new) }
    ensures room { length buf.new.bytes ≡ (shape_of ring.now).size }
    ensures none { IfOk result (λ o. IsTrue (F.state flash.old).media.tells → IfNone o (AllBelow (HasItsNumber (page_at (F.state flash.old)) (shape_of ring.now) m next) m.kept)) }
    ensures some { IfOk result (λ o. IsTrue (F.state flash.old).media.tells → IfSome o (FailsFirst (HasItsNumber (page_at (F.state flash.old)) (shape_of ring.now) m next) m.kept)) }
    ensures within { IfOk result (λ o. IfSome o (λ i. i < m.kept)) }
    ensures fails { IfErr result (λ e. ReadFails (F.state flash.old) e (F.state flash.new)) }
{
    for i in 0..m.kept {
        let back = m.kept - i;
        if next < u64::from(back) {
            return Ok(Some(i));
        }
        let page = ring.page_back(m.at, back);
        let state = look(flash, page, buf)?;
        if is_committed(state) {
            let number = get_u32(buf.bytes(), 0);
            if u64::from(number) + u64::from(back) != next {
                return Ok(Some(i));
            }
        }
    }
    Ok(None)
}

/// The numbers by the newest committed page.
fn check_by<F: Flash>(
    ring: &Ring,
    flash: &mut F,
    m: Marks,
    at_least: u64,
    newest: Newest,
    buf: &mut PageBuf,
) -> Result<u32, Stop>
    requires lies { LiesOn ring.now (F.state flash.old) }
    requires room { length buf.old.bytes ≡ (shape_of ring.now).size }
    requires within { AreWithin (shape_of ring.now) m }
    requires some { 1 ≤ newest.back }
    requires back { newest.back ≤ m.kept }
    ensures reads { OnlyReads (F.state flash.old) m.kept (F.state flash.new) }
    ensures room { length buf.new.bytes ≡ (shape_of ring.now).size }
    ensures numbers { IfOk result (λ next. IsTrue (F.state flash.old).media.tells → NewestOf (page_at (F.state flash.old)) (shape_of ring.now) m (Some newest)
        → HaveNumbers (page_at (F.state flash.old)) (shape_of ring.now) m at_least next) }
    ensures broken { IfErr result (IfBroken (λ b. IsTrue (F.state flash.old).media.tells → NewestOf (page_at (F.state flash.old)) (shape_of ring.now) m (Some newest)
        → (b.rule ≡ Rule.Number) × NumbersBreak (page_at (F.state flash.old)) (shape_of ring.now) m at_least b.page)) }
    ensures fails { IfErr result (IfFlash (λ e. ReadFails (F.state flash.old) e (F.state flash.new))) }
{
    if newest.number % ring.room() != ring.back_from(m.at, newest.back) {
        return Err(broken(Rule::Number, ring.page_back(m.at, newest.back)));
    }
    let next = u64::from(newest.number) + u64::from(newest.back);
    let misnumbered = first_misnumbered(ring, flash, m, next, buf)?;
    match misnumbered {
        Some(i) => Err(broken(Rule::Number, ring.page_back(m.at, m.kept - i))),
        None => number_left(ring, m, next),
    }
}

/// The next number, where it can be had, and with one page more where the page there was begun.
fn number_left(ring: &Ring, m: Marks, next: u64) -> Result<u32, Stop>
    requires few { next < 2 ^ 33 }
    ensures next { IfOk result (λ n. (n ≡ next) × IsLeft m next) }
    ensures broken { IfErr result (λ e. (e ≡ Stop.Broken (record { rule = Rule.Number; page = (shape_of ring.now).first })) × (IsLeft m next → ⊥)) }
{
    if next + m.pages.front.torn as u64 > 4294967295 {
        return Err(broken(Rule::Number, ring.first_page()));
    }
    Ok(next as u32)
}

/// The next number where no kept page is committed: the least one from `at_least` on that fits.
fn check_from(ring: &Ring, m: Marks, at_least: u64) -> Result<u32, Stop>
    requires within { AreWithin (shape_of ring.now) m }
    ensures next { IfOk result (λ next. (next ≡ next_of (shape_of ring.now) m at_least None) × IsLeft m next) }
    ensures broken { IfErr result (λ e. (e ≡ Stop.Broken (record { rule = Rule.Number; page = (shape_of ring.now).first })) × (IsLeft m (next_of (shape_of ring.now) m at_least None) → ⊥)) }
{
    let Ok(at_least) = u32::try_from(at_least) else {
        return Err(broken(Rule::Number, ring.first_page()));
    };
    match ring.next_by(m.at, m.kept, at_least, None, m.pages.front.torn) {
        Ok(next) => Ok(next),
        Err(_) => Err(broken(Rule::Number, ring.first_page())),
    }
}

/// Checks that the newest committed page tells the numbers, that they aren't below 0 and are those of the other committed
/// pages, and that the next one can be had. It answers the next one.
///
/// # Errors
///
/// `Flash` if a read fails, and `Broken` with the first rule that doesn't hold and the first page of the flash that breaks it.
pub fn check_numbers<F: Flash>(
    ring: &Ring,
    flash: &mut F,
    m: Marks,
    at_least: u64,
    buf: &mut PageBuf,
) -> Result<u32, Stop>
    requires lies { LiesOn ring.now (F.state flash.old) }
    requires room { length buf.old.bytes ≡ (shape_of ring.now).size }
    requires within { AreWithin (shape_of ring.now) m }
    ensures reads { OnlyReads (F.state flash.old) (m.kept + m.kept) (F.state flash.new) }
    ensures room { length buf.new.bytes ≡ (shape_of ring.now).size }
    ensures numbers { IfOk result (λ next. IsTrue (F.state flash.old).media.tells → HaveNumbers (page_at (F.state flash.old)) (shape_of ring.now) m at_least next) }
    ensures broken { IfErr result (IfBroken (λ b. IsTrue (F.state flash.old).media.tells → (b.rule ≡ Rule.Number) × NumbersBreak (page_at (F.state flash.old)) (shape_of ring.now) m at_least b.page)) }
    ensures fails { IfErr result (IfFlash (λ e. ReadFails (F.state flash.old) e (F.state flash.new))) }
{
    let newest = ring.find_newest(flash, m.at, m.kept, buf)?;
    match newest {
        Some(newest) => check_by(ring, flash, m, at_least, newest, buf),
        None => check_from(ring, m, at_least),
    }
}
