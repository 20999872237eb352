// The first keys of the pages of a ring, read from a flash.
ghost use Rattle.std.specs.Prelude.{◌≡◌, ◌≤◌, length};
ghost use Rattle.fl_ring.specs.Place.{LiesOn};

use crate::first::read_first;
use fl_flash::{Flash, PageBuf};
use fl_page::ReadFault;
use fl_ring::Ring;
use fl_schema::Schema;
use fl_search::FirstKeys;

/// The first keys of the pages of a ring. Each is read from the flash, one read for one key, and a page that isn't
/// committed is void. The buffer holds the page that was asked for last.
#[derive(Drop)]
pub struct PageKeys<'r, 's, 'f, 'b, F: Flash> {
    pub(crate) ring: &'r Ring,
    pub(crate) schema: &'s Schema<8>,
    pub(crate) flash: &'f mut F,
    pub(crate) buf: &'b mut PageBuf,
    pub(crate) faults: u64,
    ghost lies: { LiesOn ring.now (F.state flash.now) },
    ghost room: { length buf.now.bytes ≡ (F.state flash.now).geometry.page },
}

impl<'r, 's, 'f, 'b, F: Flash> FirstKeys for PageKeys<'r, 's, 'f, 'b, F> {
    ghost use Rattle.std.specs.Prelude.{◌≡◌, ℕ, ◌<◌, ◌≤◌, [], ◌∷◌, Option, IsTrue};
    ghost use Rattle.fl_flash.specs.Flash.{FlashState};
    ghost use Rattle.fl_ring.specs.Place.{shape_of};
    ghost use Rattle.fl_schema.specs.Schema.{layout_of};
    ghost use Rattle.fl_find.specs.Pages.{first_on, Holds};
    ghost use Rattle.fl_find.specs.Looking.{BlamesThis, OnlyLooks, LookFails, IsKept, Tells, Since};

    ghost names = { λ k. k.flash.ghost_name ∷ k.buf.ghost_name ∷ [] };

    ghost has = { λ k n. IsKept k.ring.now n };

    ghost tells = { λ k first. Tells (layout_of k.schema.now) k.ring.now (F.state k.flash.now) first };

    ghost calls = { λ k. (F.state k.flash.now).work.reads };

    ghost faults = { λ k. k.faults };

    ghost since = { λ a b. Since a.ring.now (layout_of a.schema.now) (F.state a.flash.now) a.buf.now b.ring.now (layout_of b.schema.now) (F.state b.flash.now) b.buf.now };

    ghost fails = { λ a n fault b. LookFails (layout_of a.schema.now) a.ring.now (F.state a.flash.now) fault (F.state b.flash.now) × BlamesThis (layout_of a.schema.now) a.ring.now (F.state a.flash.now) n fault };

    ghost here = { λ k n. Holds (layout_of k.schema.now) (shape_of k.ring.now) (F.state k.flash.now) n k.buf.now };

    fn first_key(&mut self, number: u32) -> Result<Option<u64>, ReadFault> {
        let read = read_first(self.ring, self.schema, self.flash, self.buf, number);
        if read.is_err() {
            self.faults = self.faults.saturating_add(1);
        }
        read
    }
}
