// The first key of a page, by its bytes, and read from its place.
ghost use Rattle.std.specs.Prelude.{◌≡◌, ◌+◌, ◌^◌, ◌<◌, ◌≤◌, false, true, Some, length, IsTrue, IfSome, IfOk, IfErr, OnOk};
ghost use Rattle.fl_flash.specs.Flash.{Goes};
ghost use Rattle.fl_mark.specs.Mark.{state_of_page};
ghost use Rattle.fl_mark.specs.declared.page_state.PageState.TheVariants.{Committed};
ghost use Rattle.fl_model.specs.Record.{layout_len};
ghost use Rattle.fl_page.specs.Page.{IsGoodPage};
ghost use Rattle.fl_ring.specs.Place.{shape_of, LiesOn};
ghost use Rattle.fl_schema.specs.Schema.{layout_of};
ghost use Rattle.fl_search.specs.Search.{RoseBy};
ghost use Rattle.fl_find.specs.Pages.{rows_on, first_key, first_on, bytes_at, Holds, IsBadPage, IsFresh};
ghost use Rattle.fl_find.specs.Looking.{BlamesThis, OnlyLooks, LookFails, IsKept, IsSound};

use fl_flash::{Flash, PageBuf};
use fl_mark::{PageState, state_of};
use fl_page::{BadPage, PageView, ReadFault};
use fl_ring::Ring;
use fl_schema::Schema;

/// The first key of the page with this number, by its bytes, or none where it isn't committed.
fn first_in(schema: &Schema<8>, bytes: &[u8], number: u32) -> Result<Option<u64>, BadPage>
    requires { 24 ≤ length bytes.now }
    ensures key { IfOk result (λ key. key ≡ first_key (rows_on (layout_of schema.now) bytes.now)) }
    ensures committed { IfOk result (λ key. IfSome key (λ first. state_of_page bytes.now ≡ Committed)) }
    ensures good { IfOk result (λ key. IfSome key (λ first. IsGoodPage (layout_of schema.now) number bytes.now)) }
    ensures bad { IfErr result (λ bad. IsBadPage (layout_of schema.now) number bytes.now bad) }
    ensures sound { OnOk result (IsSound (layout_of schema.now) number bytes.now) }
{
    let PageState::Committed = state_of(bytes) else {
        return Ok(None);
    };
    match PageView::of(bytes, number, schema) {
        Ok(view) => Ok(Some(view.row(0).key())),
        Err(bad) => Err(bad),
    }
}

/// Reads the page with this number, and gives its first key, or none where it isn't committed.
pub(crate) fn read_first<F: Flash>(
    ring: &Ring,
    schema: &Schema<8>,
    flash: &mut F,
    buf: &mut PageBuf,
    number: u32,
) -> Result<Option<u64>, ReadFault>
    requires lies { LiesOn ring.now (F.state flash.old) }
    requires room { length buf.old.bytes ≡ (F.state flash.old).geometry.page }
    ensures looks { OnlyLooks (F.state flash.old) (F.state flash.new) }
    ensures lies { LiesOn ring.now (F.state flash.new) }
    ensures room { length buf.new.bytes ≡ length buf.old.bytes }
    ensures key { IsTrue (F.state flash.old).media.tells → IfOk result (λ key. key ≡ first_on (layout_of schema.now) (shape_of ring.now) (F.state flash.old) number) }
    ensures sound { IsTrue (F.state flash.old).media.tells → OnOk result (IsSound (layout_of schema.now) number (bytes_at (shape_of ring.now) (F.state flash.old) number)) }
    ensures holds { IfOk result (λ key. IfSome key (λ first. Holds (layout_of schema.now) (shape_of ring.now) (F.state flash.new) number buf.new)) }
    ensures fresh { IsFresh (F.state flash.new) buf.new }
    ensures fails { IsKept ring.now number → IfErr result (λ e. LookFails (layout_of schema.now) ring.now (F.state flash.old) e (F.state flash.new)) }
    ensures blames { IfErr result (BlamesThis (layout_of schema.now) ring.now (F.state flash.old) number) }
    ensures one { OnOk result (RoseBy 1 (F.state flash.old).work.reads (F.state flash.new).work.reads) }
    ensures most { (F.state flash.new).work.reads ≤ (F.state flash.old).work.reads + 1 }
{
    if let Err(fault) = flash.read(ring.place_of(number), buf) {
        return Err(ReadFault::Flash(fault));
    }
    match first_in(schema, buf.bytes(), number) {
        Ok(key) => Ok(key),
        Err(bad) => Err(ReadFault::BadPage(bad)),
    }
}
