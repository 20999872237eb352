// What a block of the medium holds, and which of its pages are blank.
ghost use Rattle.std.specs.Prelude.{◌≡◌, ◌⊎◌, ◌≤◌, ◌<◌, ◌+◌, ◌*◌, ℕ, true, false, IsTrue, length, take, vec_len, slice_index_or};
ghost use Rattle.fl_flash.specs.Flash.{blank};
ghost use Rattle.fl_flash.specs.Media.{ReadAt};
ghost use Rattle.fl_flash.specs.Places.{page_of};

use crate::{Media, MediaFailed};
use fl_base::each_is;

/// Reads so many bytes of a medium to the begin of the room.
pub(crate) fn read_to<M: Media>(
    media: &mut M,
    room: &mut [u8],
    at: u64,
    len: usize,
) -> Result<(), MediaFailed>
    requires within { at + len ≤ length (M.state media.old).content }
    requires room { len ≤ length room.old }
    ensures read { ReadAt (M.state media.old) at result (take len room.new) (M.state media.new) }
    ensures size { length room.new ≡ length room.old }
{
    media.read_at(at, &mut room[..len])
}

// Whether each byte is FF.
fn is_blank(page: &[u8]) -> bool
    ensures { IsTrue result → page.now ≡ blank (length page.now) }
{
    each_is(page, 255)
}

/// Takes note of the pages of a block, whose flags stand from `first` on, whether they are blank.
pub(crate) fn note_blanks(
    flags: &mut Vec<bool>,
    first: usize,
    count: usize,
    block: &[u8],
    size: usize,
)
    requires flags { first + count ≤ vec_len flags.old }
    requires block { count * size ≤ length block.now }
    ensures count { vec_len flags.new ≡ vec_len flags.old }
    ensures inside { (p : ℕ) → p < count → slice_index_or flags.new.items (first + p) false ≡ true → page_of block.now 0 size p ≡ blank size }
    ensures outside { (q : ℕ) → (q < first) ⊎ (first + count ≤ q) → slice_index_or flags.new.items q false ≡ slice_index_or flags.old.items q false }
{
    for p in 0..count {
        flags[first + p] = is_blank(&block[p * size..p * size + size]);
    }
}
