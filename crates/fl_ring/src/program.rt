// The four operations on the pages of a ring.
ghost use Rattle.std.specs.Prelude.{◌≡◌, ◌<◌, ◌+◌, ◌-◌, ◌*◌, ◌/◌, ◌%◌, ◌^◌, ◌++◌, ℕ, List, Bool, true, false, length, replicate, IsTrue, OnOk};
ghost use Rattle.fl_flash.specs.Flash.{page_at, ProgramsPage, ErasesBlock};
ghost use Rattle.fl_base.specs.Bytes.{all_are};
ghost use Rattle.fl_model.specs.Work.{Device, Body, Mark, VoidMark, Erase};
ghost use Rattle.fl_ring.specs.Newest.{number_of};
ghost use Rattle.fl_ring.specs.Place.{shape_of, StandsFor, LiesOn};
ghost use Rattle.fl_ring.specs.Ring.{RingState, OnRing, place, blank_end, begun, sealed, voided, erased};
ghost use Rattle.fl_ring.specs.Sealing.{SealsPage};
ghost use Rattle.fl_ring.specs.Step.{Operates, StepEnds};
ghost use Rattle.fl_frame.specs.Watched.{IsWatched};

use crate::ring::Ring;
use fl_flash::{Flash, FlashFault};
use fl_mark::{mark, void_at};

impl Ring {
    /// Programs the body of the next page, which is blank, and then its commit mark.
    pub(crate) fn seal_page<F: Flash>(&self, flash: &mut F, body: &[u8]) -> Result<(), FlashFault>
        requires lies { LiesOn self.now (F.state flash.old) }
        requires body { length body.now + 8 ≡ self.now.size }
        requires numbered { number_of body.now + 1 < 2 ^ 32 }
        ensures { SealsPage self.now body.now (F.state flash.old) result (F.state flash.new) }
    {
        flash.program_pair(self.place_of(self.next), body, &mark())
    }

    /// Programs the void mark of the next page, which is torn.
    pub(crate) fn void_page<F: Flash>(&self, flash: &mut F) -> Result<(), FlashFault>
        requires lies { LiesOn self.now (F.state flash.old) }
        ensures operates { Operates (shape_of self.now) VoidMark (F.state flash.old) result (F.state flash.new) }
        ensures programs { ProgramsPage (F.state flash.old) (place (shape_of self.now) self.now.next) (self.now.size - 4) (replicate 4 0) result (F.state flash.new) }
        ensures step { (s : RingState) → (rose : Bool) → (device : Device) → StandsFor self.now s → OnRing (shape_of self.now) (page_at (F.state flash.old)) s → s.torn ≡ true
            → IsWatched (F.state flash.old) (F.state flash.new) rose device
            → StepEnds (shape_of self.now) VoidMark s (voided (shape_of self.now) s) rose device result (F.state flash.new) }
    {
        flash.program(self.place_of(self.next), void_at(self.size), &mark())
    }

    /// Erases the block ahead.
    pub(crate) fn erase_ahead<F: Flash>(&self, flash: &mut F) -> Result<(), FlashFault>
        requires lies { LiesOn self.now (F.state flash.old) }
        ensures operates { Operates (shape_of self.now) Erase (F.state flash.old) result (F.state flash.new) }
        ensures erases { ErasesBlock (F.state flash.old) (self.now.first_block + (self.now.next / self.now.per_block + 1) % self.now.blocks) result (F.state flash.new) }
        ensures step { (s : RingState) → (rose : Bool) → (device : Device) → StandsFor self.now s → OnRing (shape_of self.now) (page_at (F.state flash.old)) s → s.torn ≡ false → s.dirty ≡ true
            → IsWatched (F.state flash.old) (F.state flash.new) rose device
            → StepEnds (shape_of self.now) Erase s (erased s) rose device result (F.state flash.new) }
    {
        flash.erase(self.ahead_block())
    }
}
