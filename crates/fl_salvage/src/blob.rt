// The bytes of a blob, where the pages of variable data that hold them are there.
ghost use Rattle.std.specs.Prelude.{◌≡◌, ◌≤◌, ◌+◌, ◌-◌, None, Some, IfSome, length, slice_range, IsTrue, IfOk, IfErr, MatchOption};
ghost use Rattle.std.specs.Bool.{OnTrue, OnFalse};
ghost use Rattle.fl_image.specs.Image.{OnlyLooksAt};
ghost use Rattle.fl_salvage.specs.Blobs.{blob_from, content_at, content_in, content_room};
ghost use Rattle.fl_salvage.specs.Faults.{IsUnread};
ghost use Rattle.fl_salvage.specs.Pages.{IsRing};

use crate::fault::SalvageFault;
use crate::ring::RingPages;
use crate::rooms::BlobRoom;
use fl_base::{BlobRef, get_u16, get_u32};
use fl_flash::Media;
use fl_mark::{PageState, state_of};

/// The bytes before the content of a page of variable data.
const HEAD: usize = 8;

/// The bytes of such a page that are no content.
const AROUND: usize = 16;

/// How many bytes of content a page has, where it is committed, has this number and says to have no more than there is room
/// for.
fn content_len(page: &[u8], number: u64) -> Option<usize>
    requires { 24 ≤ length page.now }
    ensures within { MatchOption result (content_in number page.now ≡ None) (λ len. (content_in number page.now ≡ Some (slice_range page.now 8 (8 + len))) × (len ≤ length page.now - 16)) }
{
    if state_of(page) != PageState::Committed {
        return None;
    }
    let len = get_u16(page, 4) as usize;
    if u64::from(get_u32(page, 0)) != number || len > page.len() - AROUND {
        return None;
    }
    Some(len)
}

/// Reads the page of variable data with this number, and says how many bytes of content it has.
fn read_content<M: Media>(
    ring: RingPages,
    number: u64,
    media: &mut M,
    page: &mut [u8],
) -> Result<Option<usize>, SalvageFault>
    requires ring { IsRing ring }
    requires room { length page.old ≡ ring.size }
    ensures looks { OnlyLooksAt (M.state media.old) (M.state media.new) }
    ensures room { length page.new ≡ ring.size }
    ensures content { IfOk result (λ found. IsTrue (M.state media.old).tells → MatchOption found (content_at ring (M.state media.old).content number ≡ None)
        (λ len. content_at ring (M.state media.old).content number ≡ Some (slice_range page.new 8 (8 + len)))) }
    ensures within { IfOk result (λ found. IfSome found (λ len. len ≤ content_room ring)) }
    ensures cause { IfErr result (IsUnread (M.state media.old) (M.state media.new)) }
{
    let place = (number % u64::from(ring.pages)) as u32;
    if !ring.read(place, media, page)? {
        return Ok(None);
    }
    Ok(content_len(page, number))
}

/// Takes the bytes of a blob from the pages that hold them, in place of those in the room, and says whether all of them are
/// there. At most as many pages are read as it has bytes.
pub(crate) fn take_blob<M: Media>(
    ring: RingPages,
    at: BlobRef,
    media: &mut M,
    room: &mut BlobRoom,
) -> Result<bool, SalvageFault>
    requires ring { IsRing ring }
    requires room { length room.old.page.items ≡ ring.size }
    ensures looks { OnlyLooksAt (M.state media.old) (M.state media.new) }
    ensures room { length room.new.page.items ≡ ring.size }
    ensures whole { IfOk result (λ is. IsTrue (M.state media.old).tells → OnTrue is (blob_from (content_at ring (M.state media.old).content) (content_room ring) at.length at.page at.offset at.length ≡ Some room.new.bytes.items)) }
    ensures gone { IfOk result (λ is. IsTrue (M.state media.old).tells → OnFalse is (blob_from (content_at ring (M.state media.old).content) (content_room ring) at.length at.page at.offset at.length ≡ None)) }
    ensures cause { IfErr result (IsUnread (M.state media.old) (M.state media.new)) }
{
    room.bytes.clear();
    let full = ring.size as usize - AROUND;
    let mut offset = usize::from(at.offset);
    let mut left = at.length as usize;
    for i in 0..at.length {
        let number = u64::from(at.page) + u64::from(i);
        let Some(len) = read_content(ring, number, media, &mut room.page)? else {
            return Ok(false);
        };
        let content = &room.page[HEAD..HEAD + len];
        if len <= offset {
            return Ok(false);
        }
        if left <= len - offset {
            room.bytes
                .extend_from_slice(&content[offset..offset + left])?;
            return Ok(true);
        }
        if len != full {
            return Ok(false);
        }
        room.bytes.extend_from_slice(&content[offset..])?;
        left -= len - offset;
        offset = 0;
    }
    Ok(false)
}
