// Programs of a medium's bytes: of one range, whole or torn, and of two ranges at once.
ghost use Rattle.std.specs.Prelude.{◌≡◌, ◌≤◌, ◌+◌, if◌then◌else◌, true, false, IsTrue, length, take, drop, slice_range};
ghost use Rattle.fl_flash.specs.Flash.{all_zero, and_bytes};
ghost use Rattle.fl_flash.specs.Programs.{left_at, ProgramsBoth};
ghost use Rattle.fl_flash.specs.Tear.{front_of, Rewrites};

use crate::tear::{Tear, and_into, front};
use crate::{Media, MediaFailed, PairFailed};

// What a program of these bytes leaves of those in the room, or where it is exactly its bytes, those.
fn left_by(room: &mut [u8], bytes: &[u8], is_exact: bool)
    requires { length room.old ≡ length bytes.now }
    ensures { room.new ≡ (if is_exact then bytes.now else and_bytes room.old bytes.now) }
{
    if is_exact {
        room.copy_from_slice(bytes);
    } else {
        and_into(room, bytes);
    }
}

/// Programs bytes of a medium, whole or torn, by one write. They are exactly what the whole program leaves, or the room
/// has what stands in their range.
pub(crate) fn program_on<M: Media>(
    media: &mut M,
    room: &mut [u8],
    at: u64,
    bytes: &[u8],
    tear: Option<Tear>,
    is_exact: bool,
) -> Result<(), MediaFailed>
    requires within { at + length bytes.now ≤ length (M.state media.old).content }
    requires room { length room.old ≡ length bytes.now }
    requires exact { IsTrue is_exact → IsTrue (M.state media.old).tells → left_at (M.state media.old) at bytes.now ≡ bytes.now }
    requires read { is_exact ≡ false → IsTrue (M.state media.old).tells
        → room.old ≡ slice_range (M.state media.old).content at (at + length bytes.now) }
    ensures rewrites { Rewrites (M.state media.old) at (length bytes.now) (front_of tear (left_at (M.state media.old) at bytes.now)) result (M.state media.new) }
    ensures no_read { (M.state media.new).reads ≡ (M.state media.old).reads }
{
    left_by(room, bytes, is_exact);
    let n = front(tear, room);
    media.write_at(at, &room[..n])
}

/// Programs the first bytes and then the second ones right behind them, which are zero, by one write of a pair. The
/// first ones are exactly what their program leaves, or the room begins with what stands in their range.
pub(crate) fn program_both<M: Media>(
    media: &mut M,
    room: &mut [u8],
    at: u64,
    first: &[u8],
    second: &[u8],
    is_exact: bool,
) -> Result<(), PairFailed>
    requires within { at + (length first.now + length second.now) ≤ length (M.state media.old).content }
    requires room { length room.old ≡ length first.now + length second.now }
    requires exact { IsTrue is_exact → IsTrue (M.state media.old).tells → left_at (M.state media.old) at first.now ≡ first.now }
    requires read { is_exact ≡ false → IsTrue (M.state media.old).tells
        → take (length first.now) room.old ≡ slice_range (M.state media.old).content at (at + length first.now) }
    requires zeros { all_zero second.now ≡ true }
    ensures both { ProgramsBoth (M.state media.old) at first.now second.now result (M.state media.new) }
    ensures no_read { (M.state media.new).reads ≡ (M.state media.old).reads }
{
    let (front, back) = room.split_at_mut(first.len());
    left_by(front, first, is_exact);
    back.copy_from_slice(second);
    media.write_pair(at, room, first.len())
}
