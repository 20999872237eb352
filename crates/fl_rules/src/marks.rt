// The marks of a ring's pages, which tell its head and the pages that are kept.
ghost use Rattle.std.specs.Prelude.{◌≡◌, ◌+◌, ◌<◌, ◌≤◌, length, IsTrue, IfOk, IfErr};
ghost use Rattle.fl_flash.specs.Flash.{page_at};
ghost use Rattle.fl_flash.specs.declared.flash.FlashFault.{FlashFault};
ghost use Rattle.fl_frame.specs.Reads.{OnlyReads};
ghost use Rattle.fl_frame.specs.Causes.{ReadFails};
ghost use Rattle.fl_ring.specs.Place.{shape_of, LiesOn};
ghost use Rattle.fl_rules.specs.Off.{OffFails};
ghost use Rattle.fl_rules.specs.Marks.{HasOneHead, IsOrdered, AreMarks, AreWithin};
ghost use Rattle.fl_rules.specs.Stop.{IfFlash, IfBroken, breach};
ghost use Rattle.fl_rules.specs.declared.rule.Rule.{Rule};
ghost use Rattle.fl_rules.specs.declared.rule.Stop.{Stop};

use crate::rule::{Rule, Stop, broken};
use fl_flash::{Flash, FlashFault, PageBuf};
use fl_ring::{Front, Ring, look};

/// The pages of a head block: how many of them are in order, and what these say.
#[derive(Clone, Copy)]
pub struct HeadPages {
    pub front: Front,
    pub ordered: u32,
}

/// The head block of a ring, the place of the next page in the ring, and how many pages before it are kept.
#[derive(Clone, Copy)]
pub struct Marks {
    pub head: u32,
    pub pages: HeadPages,
    pub at: u32,
    pub kept: u32,
}

/// Reads the pages of a block as those of a head, up to the first that is out of order.
fn read_head<F: Flash>(
    ring: &Ring,
    flash: &mut F,
    head: u32,
    buf: &mut PageBuf,
) -> Result<HeadPages, FlashFault>
    requires lies { LiesOn ring.now (F.state flash.old) }
    requires room { length buf.old.bytes ≡ (shape_of ring.now).size }
    requires head { head < (shape_of ring.now).blocks }
    ensures reads { OnlyReads (F.state flash.old) (shape_of ring.now).per_block (F.state flash.new) }
    ensures room { length buf.new.bytes ≡ (shape_of ring.now).size }
    ensures ordered { IfOk result (λ pages. IsTrue (F.state flash.old).media.tells → IsOrdered (page_at (F.state flash.old)) (shape_of ring.now) head pages) }
    ensures sealed { IfOk result (λ pages. pages.front.sealed < (shape_of ring.now).per_block) }
    ensures within { IfOk result (λ pages. pages.ordered ≤ (shape_of ring.now).per_block) }
    ensures fails { IfErr result (λ e. ReadFails (F.state flash.old) e (F.state flash.new)) }
{
    let mut front = Front::new();
    let count = ring.per_block();
    for i in 0..count {
        let page = ring.page_in(head, i);
        let state = look(flash, page, buf)?;
        if !front.step(i, count, state) {
            return Ok(HeadPages { front, ordered: i });
        }
    }
    Ok(HeadPages {
        front,
        ordered: count,
    })
}

/// Finds the head of a ring by the last pages of its blocks, and the kept pages before the head's first unsealed one.
///
/// # Errors
///
/// `Flash` if a read fails, and `Broken` if there is no head, or more than one.
pub fn read_marks<F: Flash>(ring: &Ring, flash: &mut F, buf: &mut PageBuf) -> Result<Marks, Stop>
    requires lies { LiesOn ring.now (F.state flash.old) }
    requires room { length buf.old.bytes ≡ (shape_of ring.now).size }
    ensures reads { OnlyReads (F.state flash.old) ((shape_of ring.now).blocks + (shape_of ring.now).per_block) (F.state flash.new) }
    ensures room { length buf.new.bytes ≡ (shape_of ring.now).size }
    ensures marks { IfOk result (λ m. IsTrue (F.state flash.old).media.tells → AreMarks (page_at (F.state flash.old)) (shape_of ring.now) m) }
    ensures within { IfOk result (λ m. AreWithin (shape_of ring.now) m) }
    ensures broken { IfErr result (IfBroken (λ b. IsTrue (F.state flash.old).media.tells →
        (HasOneHead (page_at (F.state flash.old)) (shape_of ring.now) → ⊥) × (b ≡ breach Rule.Head (shape_of ring.now).first))) }
    ensures fails { IfErr result (IfFlash (λ e. ReadFails (F.state flash.old) e (F.state flash.new))) }
    ensures off { OffFails (Stop.Flash FlashFault.PowerLost) (F.state flash.old) result (F.state flash.new) }
{
    let scan = ring.scan_blocks(flash, buf)?;
    if scan.heads() != 1 {
        return Err(broken(Rule::Head, ring.first_page()));
    }
    let head = scan.head();
    let pages = read_head(ring, flash, head, buf)?;
    let kept = ring.kept_pages(scan.fulls(), pages.front.sealed);
    Ok(Marks {
        head,
        pages,
        at: head * ring.per_block() + pages.front.sealed,
        kept,
    })
}
