// The seal of a page.
ghost use Rattle.std.specs.Prelude.{◌≡◌, ◌<◌, ◌+◌, ◌^◌, Bool, length};
ghost use Rattle.fl_model.specs.Work.{Device};
ghost use Rattle.fl_ring.specs.Newest.{number_of};
ghost use Rattle.fl_ring.specs.Place.{shape_of, next_of, LiesOn};
ghost use Rattle.fl_ring.specs.Ring.{RingState};
ghost use Rattle.fl_ring.specs.Sealed.{SealsInMemory, SealsOnFlash};
ghost use Rattle.fl_ring.specs.Sealing.{IsReady, Seals};
ghost use Rattle.fl_frame.specs.Watched.{IsWatched};

use crate::ring::Ring;
use fl_flash::{Flash, FlashFault};

impl Ring {
    /// Seals the next page: its body, its commit mark, and the erase of the block ahead where the oldest block goes.
    /// After an error the ring is to be mounted again.
    pub fn seal<F: Flash>(&mut self, flash: &mut F, body: &[u8]) -> Result<(), FlashFault>
        requires lies { LiesOn self.old (F.state flash.old) }
        requires body { length body.now + 8 ≡ (shape_of self.old).size }
        requires numbered { number_of body.now ≡ next_of self.old }
        requires left { next_of self.old + 1 < 2 ^ 32 }
        ensures seals { (s : RingState) → (rose : Bool) → (device : Device)
            → IsReady self.old (F.state flash.old) s
            → IsWatched (F.state flash.old) (F.state flash.new) rose device
            → Seals s body.now rose device self.old result self.new (F.state flash.new) }
        // Whatever the flash holds, where a field asks for no more:
        ensures memory { SealsInMemory self.old body.now result self.new (F.state flash.new) }
        ensures flash { SealsOnFlash self.old body.now
            (F.state flash.old) result (F.state flash.new) }
    {
        self.seal_page(flash, body)?;
        if !self.advance() {
            return Ok(());
        }
        self.erase_ahead(flash)
    }
}
