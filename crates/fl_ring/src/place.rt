// A ring on a flash whose numbers aren't known, for the parts of the search for them: these repair nothing.
ghost use Rattle.std.specs.Prelude.{◌≡◌, ◌<◌, ◌≤◌, ◌+◌, ◌*◌, ◌^◌};
ghost use Rattle.fl_flash.specs.Flash.{pages};
ghost use Rattle.fl_ring.specs.Mounting.{shape_at};
ghost use Rattle.fl_ring.specs.Place.{shape_of, next_of, oldest_of, LiesOn};
ghost use Rattle.fl_ring.specs.Ring.{room};

use crate::ring::Ring;
use fl_base::RingPlace;
use fl_flash::Flash;

impl Ring {
    /// The ring that lies at this place. Its numbers are 0 until they are found.
    pub fn unnumbered<F: Flash>(flash: &F, place: RingPlace) -> Ring
        requires blocks { 3 ≤ place.blocks }
        requires lies { place.first_block + place.blocks ≤ (F.state flash.now).blocks }
        requires few { pages (F.state flash.now) < 2 ^ 32 }
        ensures shape { shape_of result ≡ shape_at place (F.state flash.now).geometry }
        ensures lies { LiesOn result (F.state flash.now) }
        ensures numbers { (oldest_of result ≡ 0) × (next_of result ≡ 0) }
    {
        let geometry = flash.geometry();
        Ring {
            first_block: place.first_block,
            blocks: place.blocks,
            per_block: geometry.block,
            size: geometry.page,
            oldest: 0,
            next: 0,
        }
    }

    /// Its first page on the flash.
    pub fn first_page(&self) -> u32
        ensures { result ≡ (shape_of self.now).first }
    {
        self.first_block * self.per_block
    }

    /// The pages of a block.
    pub fn per_block(&self) -> u32
        ensures pages { result ≡ (shape_of self.now).per_block }
        ensures some { 2 ≤ result }
        ensures few { result ≤ 256 }
    {
        self.per_block
    }

    /// The pages of all its blocks.
    pub fn room(&self) -> u32
        ensures pages { result ≡ room (shape_of self.now) }
        ensures fits { (shape_of self.now).first + result < 2 ^ 32 }
    {
        self.blocks * self.per_block
    }
}
