// The rule on the keys of a data ring.
ghost use Rattle.std.specs.Prelude.{◌≡◌, ◌≤◌, ℕ, Option, Some, length, IsTrue, IfOk, IfErr, OnOk};
ghost use Rattle.fl_flash.specs.Flash.{page_at};
ghost use Rattle.fl_page.specs.Header.{page_number};
ghost use Rattle.fl_page.specs.View.{rows_of};
ghost use Rattle.fl_frame.specs.Reads.{OnlyReads};
ghost use Rattle.fl_frame.specs.Causes.{ReadFails};
ghost use Rattle.fl_ring.specs.Place.{shape_of, LiesOn};
ghost use Rattle.fl_schema.specs.Schema.{layout_of};
ghost use Rattle.fl_rules.specs.Marks.{AreWithin};
ghost use Rattle.fl_rules.specs.Rising.{last_in, last_after, HasRows, RisesFrom, KeysAscend, HaveRows, KeysBreak};
ghost use Rattle.fl_rules.specs.Stop.{IfFlash, IfBroken};
ghost use Rattle.fl_rules.specs.declared.rule.Rule.{Rule};

use crate::keys::keys_ascend;
use crate::marks::Marks;
use crate::rule::{Breach, Rule, Stop};
use fl_base::get_u32;
use fl_flash::{Flash, PageBuf};
use fl_mark::state_of;
use fl_page::PageView;
use fl_ring::{Ring, is_committed, look};
use fl_schema::Schema;

/// The number that a page of these bytes has, which are at least four: the first four, the least byte first.
pub fn number_in(page: &[u8]) -> u32
    requires { 24 ≤ length page.now }
    ensures { result ≡ page_number page.now }
{
    get_u32(page, 0)
}

/// The key of the last row of a page.
fn last_of<const COLS: usize>(view: &PageView<'_, COLS>) -> u64
    ensures { (before : Option ℕ) → last_in before (rows_of view.now) ≡ Some result }
{
    view.row(view.rows() - 1).key()
}

/// The last key after the rows of a page, which is committed. The page breaks the rule where its keys don't ascend from the
/// last one before it on.
fn last_after<const COLS: usize>(
    schema: &Schema<COLS>,
    page: u32,
    bytes: &[u8],
    before: Option<u64>,
) -> Result<Option<u64>, Breach>
    requires size { 24 ≤ length bytes.now }
    ensures last { IfOk result (λ key. key ≡ last_after (layout_of schema.now) bytes.now before) }
    ensures rises { OnOk result (RisesFrom (layout_of schema.now) before bytes.now) }
    ensures broken { IfErr result (λ b. b ≡ record { rule = Rule.Keys; page = page }) }
    ensures falls { IfErr result (λ b. HasRows (layout_of schema.now) bytes.now → RisesFrom (layout_of schema.now) before bytes.now → ⊥) }
{
    if !is_committed(state_of(bytes)) {
        return Ok(before);
    }
    match PageView::of(bytes, number_in(bytes), schema) {
        Err(_) => Err(Breach {
            rule: Rule::Keys,
            page,
        }),
        Ok(view) => {
            if !keys_ascend(&view, before) {
                return Err(Breach {
                    rule: Rule::Keys,
                    page,
                });
            }
            Ok(Some(last_of(&view)))
        }
    }
}

/// Checks that the keys ascend over the committed pages among the kept ones, which have the form of data pages.
pub fn check_keys<F: Flash, const COLS: usize>(
    ring: &Ring,
    flash: &mut F,
    m: Marks,
    schema: &Schema<COLS>,
    buf: &mut PageBuf,
) -> Result<(), Stop>
    requires lies { LiesOn ring.now (F.state flash.old) }
    requires room { length buf.old.bytes ≡ (shape_of ring.now).size }
    requires within { AreWithin (shape_of ring.now) m }
    ensures reads { OnlyReads (F.state flash.old) m.kept (F.state flash.new) }
    ensures room { length buf.new.bytes ≡ (shape_of ring.now).size }
    ensures keys { OnOk result (IsTrue (F.state flash.old).media.tells → KeysAscend (layout_of schema.now) (page_at (F.state flash.old)) (shape_of ring.now) m) }
    ensures broken { IfErr result (IfBroken (λ b. IsTrue (F.state flash.old).media.tells → HaveRows (layout_of schema.now) (page_at (F.state flash.old)) (shape_of ring.now) m
        → (b.rule ≡ Rule.Keys) × KeysBreak (layout_of schema.now) (page_at (F.state flash.old)) (shape_of ring.now) m b.page)) }
    ensures fails { IfErr result (IfFlash (λ e. ReadFails (F.state flash.old) e (F.state flash.new))) }
{
    let mut last = None;
    for i in 0..m.kept {
        let page = ring.page_back(m.at, m.kept - i);
        look(flash, page, buf)?;
        last = last_after(schema, page, buf.bytes(), last)?;
    }
    Ok(())
}
