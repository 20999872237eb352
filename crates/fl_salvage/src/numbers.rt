// The numbers of the pages of a data ring that are written, in order.
ghost use Rattle.std.specs.Prelude.{◌≡◌, ◌<◌, ◌≤◌, length, IsTrue, IfOk, IfErr, OnOk, []};
ghost use Rattle.fl_image.specs.Image.{OnlyLooksAt};
ghost use Rattle.fl_page.specs.Header.{page_number};
ghost use Rattle.fl_schema.specs.Schema.{layout_of};
ghost use Rattle.fl_salvage.specs.Faults.{IsUnread};
ghost use Rattle.fl_salvage.specs.declared.fault.SalvageFault.{SalvageFault};
ghost use Rattle.fl_salvage.specs.declared.found.PageFound.{PageFound};
ghost use Rattle.fl_salvage.specs.Pages.{IsRing, IsInOrder, found_at, numbers_at, page_of, passed_at, with_number};

use crate::fault::SalvageFault;
use crate::found::{PageFound, found_in, number_in};
use crate::passed_over::PassedOver;
use crate::ring::RingPages;
use fl_flash::Media;
use fl_schema::Schema;

/// What the page at a place of a ring is found to be. Where the image has it, it then stands in the room.
fn find_at<M: Media>(
    schema: &Schema<8>,
    ring: RingPages,
    place: u32,
    media: &mut M,
    page: &mut [u8],
) -> Result<PageFound, SalvageFault>
    requires ring { IsRing ring }
    requires place { place < ring.pages }
    requires room { length page.old ≡ ring.size }
    ensures looks { OnlyLooksAt (M.state media.old) (M.state media.new) }
    ensures room { length page.new ≡ ring.size }
    ensures found { IfOk result (λ found. IsTrue (M.state media.old).tells → found ≡ found_at (layout_of schema.now) ring (M.state media.old).content place) }
    ensures page { IfOk result (λ found. IsTrue (M.state media.old).tells → found ≡ PageFound.Rows → page.new ≡ page_of ring (M.state media.old).content place) }
    ensures cause { IfErr result (IsUnread (M.state media.old) (M.state media.new)) }
{
    if !ring.read(place, media, page)? {
        return Ok(PageFound::Missing);
    }
    Ok(found_in(page, ring, place, schema))
}

/// Adds the number of a page that was found so, if it has rows.
fn keep_number(found: PageFound, page: &[u8], numbers: &mut Vec<u32>) -> Result<(), SalvageFault>
    requires room { 24 ≤ length page.now }
    ensures kept { OnOk result (numbers.new.items ≡ with_number found (page_number page.now) numbers.old.items) }
    ensures memory { IfErr result (λ fault. fault ≡ SalvageFault.NoMemory) }
{
    if found != PageFound::Rows {
        return Ok(());
    }
    match numbers.push(number_in(page)) {
        Ok(()) => Ok(()),
        Err(_) => Err(SalvageFault::NoMemory),
    }
}

/// Puts the numbers of the pages with rows into the list, from the least to the greatest, and counts the other pages that
/// aren't blank. Each page is read once.
pub(crate) fn find_numbers<M: Media>(
    schema: &Schema<8>,
    ring: RingPages,
    media: &mut M,
    page: &mut [u8],
    numbers: &mut Vec<u32>,
) -> Result<PassedOver, SalvageFault>
    requires ring { IsRing ring }
    requires room { length page.old ≡ ring.size }
    requires empty { numbers.old.items ≡ [] }
    ensures looks { OnlyLooksAt (M.state media.old) (M.state media.new) }
    ensures room { length page.new ≡ ring.size }
    ensures numbers { IfOk result (λ passed. IsTrue (M.state media.old).tells → IsInOrder (numbers_at (layout_of schema.now) ring (M.state media.old).content ring.pages) numbers.new.items) }
    ensures passed { IfOk result (λ passed. IsTrue (M.state media.old).tells → passed ≡ passed_at (layout_of schema.now) ring (M.state media.old).content ring.pages) }
    ensures cause { IfErr result (IsUnread (M.state media.old) (M.state media.new)) }
{
    let mut passed = PassedOver::none();
    for place in 0..ring.pages {
        let found = find_at(schema, ring, place, media, page)?;
        keep_number(found, page, numbers)?;
        passed = passed.with(found, place);
    }
    numbers.sort_unstable();
    Ok(passed)
}
