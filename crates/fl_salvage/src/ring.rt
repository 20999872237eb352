// The pages of a ring of an image, read from the medium alone.
ghost use Rattle.std.specs.Prelude.{◌≡◌, ◌<◌, ◌*◌, ◌+◌, length, true, false, IsTrue, IfErr, Ok};
ghost use Rattle.fl_base.specs.Causes.{Rose};
ghost use Rattle.fl_image.specs.Image.{OnlyLooksAt};
ghost use Rattle.fl_plan.specs.Limits.{IsWithin, IsRingSize};
ghost use Rattle.fl_salvage.specs.Pages.{IsRing, page_of, ring_at};

use fl_base::{Geometry, RingPlace};
use fl_flash::{Media, MediaFailed};
use fl_image::HEADER;

/// Where a ring lies: the pages of the image before it, its own, and the bytes of each.
#[derive(Clone, Copy)]
pub(crate) struct RingPages {
    pub(crate) first: u64,
    pub(crate) pages: u32,
    pub(crate) size: u32,
}

impl RingPages {
    /// The pages of a ring with this place.
    pub(crate) fn at(geometry: Geometry, place: RingPlace) -> RingPages
        requires geometry { IsWithin geometry }
        requires blocks { IsRingSize place }
        ensures exact { result ≡ ring_at geometry place }
        ensures within { IsRing result }
    {
        RingPages {
            first: u64::from(place.first_block) * u64::from(geometry.block),
            pages: place.blocks * geometry.block,
            size: geometry.page,
        }
    }

    /// Reads the page at a place of the ring, from 0. False says that the medium ends before it or in it.
    pub(crate) fn read<M: Media>(
        self,
        place: u32,
        media: &mut M,
        page: &mut [u8],
    ) -> Result<bool, MediaFailed>
        requires within { IsRing self }
        requires place { place < self.pages }
        requires room { length page.old ≡ self.size }
        ensures looks { OnlyLooksAt (M.state media.old) (M.state media.new) }
        ensures room { length page.new ≡ self.size }
        ensures missing { result ≡ Ok false → length (page_of self (M.state media.old).content place) < self.size }
        ensures there { result ≡ Ok true → length (page_of self (M.state media.old).content place) ≡ self.size }
        ensures bytes { result ≡ Ok true → IsTrue (M.state media.old).tells → page.new ≡ page_of self (M.state media.old).content place }
        ensures cause { IfErr result (λ failed. Rose (M.state media.old).faults (M.state media.new).faults) }
    {
        let size = u64::from(self.size);
        let at = HEADER as u64 + (self.first + u64::from(place)) * size;
        if media.len() < at + size {
            return Ok(false);
        }
        media.read_at(at, page)?;
        Ok(true)
    }
}
