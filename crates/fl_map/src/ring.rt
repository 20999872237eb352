// A ring as a map has it: its pages are read.
ghost use Rattle.std.specs.Prelude.{◌≡◌, ◌≤◌, ◌<◌, ◌+◌, ◌*◌, ◌^◌, not, count_by, length, IsTrue, IfSome, IfOk, IfErr, OnOk};
ghost use Rattle.fl_flash.specs.Flash.{page_at, pages};
ghost use Rattle.std.specs.List.{list_all};
ghost use Rattle.fl_ring.specs.Front.{blanks};
ghost use Rattle.fl_ring.specs.Head.{seals};
ghost use Rattle.fl_frame.specs.Reads.{OnlyReads};
ghost use Rattle.fl_frame.specs.Causes.{ReadFails};
ghost use Rattle.fl_ring.specs.Mounting.{shape_at};
ghost use Rattle.fl_ring.specs.Place.{shape_of, LiesOn};
ghost use Rattle.fl_ring.specs.Ring.{room};
ghost use Rattle.fl_map.specs.Pages.{states_to, figures_to, only_head, block_after, block_states, waiting_in, note_of};
ghost use Rattle.fl_map.specs.Reading.{FailsBy};

use crate::fault::MapFault;
use crate::note::{Figures, RingNote};
use fl_base::RingPlace;
use fl_flash::{Flash, FlashFault, PageBuf};
use fl_mark::PageState;
use fl_ring::{Ring, is_blank, is_sealed, look};

/// Where a ring lies, how many bytes its rows have, if it has rows, and the flash page that breaks a rule.
#[derive(Clone, Copy)]
pub(crate) struct Which {
    pub(crate) place: RingPlace,
    pub(crate) row_len: Option<u32>,
    pub(crate) fault: Option<u32>,
}

/// Reads the pages of a ring one after another: their states, in place of those in the room, and what the committed ones
/// tell.
fn read_pages<F: Flash>(
    ring: &Ring,
    row_len: Option<u32>,
    flash: &mut F,
    buf: &mut PageBuf,
    states: &mut Vec<PageState>,
) -> Result<Figures, MapFault>
    requires lies { LiesOn ring.now (F.state flash.old) }
    requires room { length buf.old.bytes ≡ (shape_of ring.now).size }
    requires size { (64 ≤ (shape_of ring.now).size) × ((shape_of ring.now).size ≤ 4096) }
    requires short { IfSome row_len (λ n. n ≤ 82) }
    ensures reads { OnlyReads (F.state flash.old) (room (shape_of ring.now)) (F.state flash.new) }
    ensures room { length buf.new.bytes ≡ (shape_of ring.now).size }
    ensures count { OnOk result (length states.new.items ≡ room (shape_of ring.now)) }
    ensures few { OnOk result (length states.new.items < 2 ^ 32) }
    ensures states { OnOk result (IsTrue (F.state flash.old).media.tells → states.new.items ≡ states_to (page_at (F.state flash.old)) (shape_of ring.now).first (room (shape_of ring.now))) }
    ensures figures { IfOk result (λ figures. IsTrue (F.state flash.old).media.tells → figures ≡ figures_to row_len (page_at (F.state flash.old)) (shape_of ring.now).first (room (shape_of ring.now))) }
    ensures fails { IfErr result (λ e. FailsBy (F.state flash.old) e (F.state flash.new)) }
{
    states.clear();
    let mut figures = Figures::new();
    for i in 0..ring.room() {
        let state = look(flash, ring.first_page() + i, buf)?;
        states.push(state)?;
        figures = figures.with_page(row_len, buf.bytes());
    }
    Ok(figures)
}

/// The head of a ring by the last pages of its blocks, where these tell just one.
fn only_head<F: Flash>(
    ring: &Ring,
    flash: &mut F,
    buf: &mut PageBuf,
) -> Result<Option<u32>, FlashFault>
    requires lies { LiesOn ring.now (F.state flash.old) }
    requires room { length buf.old.bytes ≡ (shape_of ring.now).size }
    ensures reads { OnlyReads (F.state flash.old) (shape_of ring.now).blocks (F.state flash.new) }
    ensures room { length buf.new.bytes ≡ (shape_of ring.now).size }
    ensures head { IfOk result (λ head. IsTrue (F.state flash.old).media.tells → head ≡ only_head (shape_of ring.now) (page_at (F.state flash.old))) }
    ensures within { IfOk result (λ head. IfSome head (λ block. block < (shape_of ring.now).blocks)) }
    ensures fails { IfErr result (λ e. ReadFails (F.state flash.old) e (F.state flash.new)) }
{
    let scan = ring.scan_blocks(flash, buf)?;
    if scan.heads() != 1 {
        return Ok(None);
    }
    Ok(Some(scan.head()))
}

/// The states of the pages of a block, but for the last ones.
fn block_states(states: &[PageState], per_block: usize, block: usize, but: usize) -> &[PageState]
    requires some { but ≤ per_block }
    requires within { block * per_block + per_block ≤ length states.now }
    ensures { result.now ≡ block_states per_block states.now block but }
{
    let at = block * per_block;
    &states[at..at + (per_block - but)]
}

/// The block after a block of the ring.
fn block_after(blocks: u32, block: u32) -> u32
    requires { block < blocks }
    ensures exact { result ≡ block_after blocks block }
    ensures within { result < blocks }
{
    if block + 1 == blocks {
        return 0;
    }
    block + 1
}

/// Whether each page is sealed.
fn are_sealed(states: &[PageState]) -> bool
    ensures { result ≡ list_all seals states.now }
{
    states.iter().all(|state| is_sealed(*state))
}

/// How many pages aren't blank.
fn count_written(states: &[PageState]) -> usize
    ensures { result ≡ count_by (λ state. not (blanks state)) states.now }
{
    states.iter().filter(|state| !is_blank(**state)).count()
}

/// The pages that wait for an erase.
fn waiting_in(blocks: u32, per_block: u32, states: &[PageState], head: Option<u32>) -> usize
    requires some { 1 ≤ per_block }
    requires count { length states.now ≡ blocks * per_block }
    requires within { IfSome head (λ block. block < blocks) }
    ensures { result ≡ waiting_in blocks per_block states.now head }
{
    let Some(head) = head else {
        return 0;
    };
    let before_last = block_states(states, per_block as usize, head as usize, 1);
    if !are_sealed(before_last) {
        return 0;
    }
    let ahead = block_after(blocks, head) as usize;
    count_written(block_states(states, per_block as usize, ahead, 0))
}

/// Reads a ring: the states of its pages, in place of those in the room, and what a map tells beside them.
pub(crate) fn read_ring<F: Flash>(
    which: Which,
    flash: &mut F,
    buf: &mut PageBuf,
    states: &mut Vec<PageState>,
) -> Result<RingNote, MapFault>
    requires blocks { 3 ≤ which.place.blocks }
    requires lies { which.place.first_block + which.place.blocks ≤ (F.state flash.old).blocks }
    requires few { pages (F.state flash.old) < 2 ^ 32 }
    requires room { length buf.old.bytes ≡ (F.state flash.old).geometry.page }
    requires short { IfSome which.row_len (λ n. n ≤ 82) }
    ensures reads { OnlyReads (F.state flash.old) (room (shape_at which.place (F.state flash.old).geometry) + which.place.blocks) (F.state flash.new) }
    ensures room { length buf.new.bytes ≡ (F.state flash.old).geometry.page }
    ensures states { OnOk result (IsTrue (F.state flash.old).media.tells → states.new.items ≡
        states_to (page_at (F.state flash.old)) (shape_at which.place (F.state flash.old).geometry).first (room (shape_at which.place (F.state flash.old).geometry))) }
    ensures note { IfOk result (λ note. IsTrue (F.state flash.old).media.tells → note ≡
        note_of which.row_len (shape_at which.place (F.state flash.old).geometry) (page_at (F.state flash.old)) which.fault) }
    ensures some { IfOk result (λ note. 1 ≤ note.per_block) }
    ensures few { OnOk result (length states.new.items < 2 ^ 32) }
    ensures fails { IfErr result (λ e. FailsBy (F.state flash.old) e (F.state flash.new)) }
{
    let ring = Ring::unnumbered(flash, which.place);
    let figures = read_pages(&ring, which.row_len, flash, buf, states)?;
    let head = only_head(&ring, flash, buf)?;
    Ok(RingNote {
        row_len: which.row_len,
        first: ring.first_page(),
        per_block: ring.per_block(),
        head,
        figures,
        waiting: waiting_in(which.place.blocks, ring.per_block(), states, head),
        fault: which.fault,
    })
}
