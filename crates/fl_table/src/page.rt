// The kept pages of a table, read one at a time.
ghost use Rattle.std.specs.Prelude.{◌≡◌, ◌<◌, ◌≤◌, ◌-◌, Some, length, IsTrue, IfErr, OnOk};
ghost use Rattle.fl_flash.specs.Flash.{page_at};
ghost use Rattle.fl_flash.specs.Media.{next_count};
ghost use Rattle.fl_frame.specs.Contents as contents;
ghost use Rattle.fl_page.specs.Causes.{IsCaused};
ghost use Rattle.fl_frame.specs.Reads.{OnlyReads};

use crate::table::Table;
use fl_flash::{Flash, PageBuf};
use fl_mark::{PageState, state_of};
use fl_page::{PageView, ReadFault};

impl<const KNOTS: usize, const SLOTS: usize> Table<KNOTS, SLOTS> {
    ghost use Rattle.std.specs.Prelude.{ℕ, slice_get, true};
    ghost use Rattle.fl_model.specs.Record.{Plan};
    ghost use Rattle.fl_model.specs.Ring as rings;
    ghost use Rattle.fl_model.specs.Table as model;
    ghost use Rattle.fl_page.specs.Page.{IsGoodPage, rows_in};
    ghost use Rattle.fl_page.specs.View.{page_of, layout_of_page, count_of, rows_of};
    ghost use Rattle.fl_parts.specs.Kept.{IfRead, IsFound, IsHeldAt, ShowsRows};
    ghost use Rattle.fl_table.specs.Look.{layout_in, oldest_in, place_of};
    ghost use Rattle.fl_table.specs.Memory.{next_in, LiesOn};
    ghost use Rattle.fl_table.specs.Standing.{Stands};

    /// Reads the kept page with this number into the buffer, once. False says that the page isn't committed and so is
    /// void; after true the buffer holds it for `view`.
    pub fn read_page<F: Flash>(
        &self,
        flash: &mut F,
        number: u32,
        buf: &mut PageBuf,
    ) -> Result<bool, ReadFault>
        requires lies { LiesOn self.now (F.state flash.old) }
        requires kept { (oldest_in self.now ≤ number) × (number < next_in self.now) }
        requires room { length buf.old.bytes ≡ (F.state flash.old).geometry.page }
        ensures reads { OnlyReads (F.state flash.old) 1 (F.state flash.new) }
        ensures counts { contents.OnlyReads (F.state flash.old) (F.state flash.new) }
        ensures one { OnOk result ((F.state flash.new).work.reads ≡ next_count (F.state flash.old).work.reads) }
        ensures room { length buf.new.bytes ≡ length buf.old.bytes }
        ensures found { IsFound (layout_in self.now) number buf.new.bytes result }
        ensures holds { IsHeldAt (place_of self.now number) result buf.new.holds }
        ensures page { IfRead result (IsTrue (F.state flash.old).media.tells → buf.new.bytes ≡ page_at (F.state flash.old) (place_of self.now number)) }
        ensures stands { (first : ℕ) → (plan : Plan) → (table : model.Table) → (count : ℕ) → IsTrue (F.state flash.old).media.tells →
            Stands self.now (F.state flash.old) first plan table → slice_get table.rows.counts (number - rings.oldest table.rows) ≡ Some count →
            ShowsRows plan table (number - rings.oldest table.rows) count buf.new.bytes result }
        ensures cause { IfErr result (λ fault. IsCaused (F.state flash.old) fault (F.state flash.new)) }
        ensures power { OnOk result ((F.state flash.new).is_on ≡ true) }
    {
        let Some(ring) = &self.ring else {
            unreachable!()
        };
        if let Err(fault) = flash.read(ring.place_of(number), buf) {
            return Err(ReadFault::Flash(fault));
        }
        let PageState::Committed = state_of(buf.bytes()) else {
            return Ok(false);
        };
        match PageView::of(buf.bytes(), number, &self.schema) {
            Ok(_) => Ok(true),
            Err(bad) => Err(ReadFault::BadPage(bad)),
        }
    }

    /// The rows of the page with this number in the buffer, after `read_page` answered true.
    pub fn view<'b>(&'b self, buf: &'b PageBuf, number: u32) -> PageView<'b, 8>
        requires good { IsGoodPage (layout_in self.now) number buf.now.bytes }
        requires size { length buf.now.bytes ≤ 4096 }
        ensures page { page_of result ≡ buf.now.bytes }
        ensures layout { layout_of_page result ≡ layout_in self.now }
        ensures rows { rows_of result ≡ rows_in (layout_in self.now) buf.now.bytes }
        ensures few { count_of result < 65536 }
    {
        let Ok(view) = PageView::of(buf.bytes(), number, &self.schema) else {
            unreachable!()
        };
        view
    }
}
