// A page of variable data: its number in four bytes, the count of its bytes of content in two, two zeros, and the content.
ghost use Rattle.std.specs.Prelude.{◌≡◌, ◌+◌, ◌-◌, ◌<◌, ◌≤◌, true, None, length, IsTrue, IfSome, IfOk, IfErr, OnOk};
ghost use Rattle.fl_mark.specs.Mark.{state_of_page};
ghost use Rattle.fl_mark.specs.declared.page_state.PageState.TheVariants.{Committed};
ghost use Rattle.fl_page.specs.Header.{page_number, page_count};
ghost use Rattle.fl_page.specs.Page.{bad_page};
ghost use Rattle.fl_frame.specs.Contents as contents;
ghost use Rattle.fl_frame.specs.Reads.{OnlyReads};
ghost use Rattle.fl_var.specs.Blobs.{end_fault};
ghost use Rattle.fl_var.specs.Content.{HasContent};
ghost use Rattle.fl_var.specs.Memory.{is_mounted, next_in, waiting_in, page_in, image_in, present, room_in, LiesOn};
ghost use Rattle.fl_var.specs.Reading.{IfUnread, IfBad, IsOfPage};

use crate::var_data::VarData;
use fl_base::{get_u16, get_u32};
use fl_flash::{Flash, PageBuf};
use fl_mark::{PageState, state_of};
use fl_page::{BadPage, ReadFault};

/// What is wrong with a page that may not stand at this number.
pub(crate) fn bad_in(bytes: &[u8], number: u32) -> BadPage
    requires { 16 ≤ length bytes.now }
    ensures { result ≡ bad_page number bytes.now }
{
    BadPage {
        wanted: number,
        found: get_u32(bytes, 0),
        count: u32::from(get_u16(bytes, 4)),
    }
}

/// How many bytes of content a page with this number has, or none where it isn't committed.
fn used_in(bytes: &[u8], number: u32) -> Result<Option<usize>, BadPage>
    requires { 24 ≤ length bytes.now }
    ensures good { IfOk result (λ used. IfSome used (λ n. HasContent number bytes.now × (n ≡ page_count bytes.now))) }
    ensures none { IfOk result (λ used. used ≡ None → state_of_page bytes.now ≡ Committed → ⊥) }
    ensures bad { IfErr result (λ bad. (state_of_page bytes.now ≡ Committed) × (HasContent number bytes.now → ⊥) × (bad ≡ bad_page number bytes.now)) }
{
    let PageState::Committed = state_of(bytes) else {
        return Ok(None);
    };
    let bad = bad_in(bytes, number);
    if bad.found != number || bad.count == 0 || bad.count as usize > bytes.len() - 16 {
        return Err(bad);
    }
    Ok(Some(bad.count as usize))
}

impl VarData {
    /// The fault of a blob that goes on behind the last page and the buffer.
    pub(crate) fn end_fault(&self) -> BadPage
        ensures { result ≡ end_fault self.now }
    {
        let next = self.next_number();
        BadPage {
            wanted: next,
            found: next,
            count: self.waiting.content().len() as u32,
        }
    }

    /// How many bytes of content the page with this number has, or none where it is sealed and not committed. The
    /// buffer holds it then, unless it is the next page.
    pub(crate) fn find_content<F: Flash>(
        &self,
        flash: &mut F,
        number: u32,
        buf: &mut PageBuf,
    ) -> Result<Option<usize>, ReadFault>
        requires mounted { is_mounted self.now ≡ true }
        requires lies { LiesOn self.now (F.state flash.old) }
        requires room { length buf.old.bytes ≡ self.now.geometry.page }
        requires within { number ≤ next_in self.now }
        ensures reads { OnlyReads (F.state flash.old) 1 (F.state flash.new) }
        ensures counts { contents.OnlyReads (F.state flash.old) (F.state flash.new) }
        ensures pending { next_in self.now ≤ number → (F.state flash.new ≡ F.state flash.old) × IfErr result IsOfPage }
        ensures lies { LiesOn self.now (F.state flash.new) }
        ensures room { length buf.new.bytes ≡ length buf.old.bytes }
        ensures good { IsTrue (F.state flash.old).media.tells → IfOk result (λ used. IfSome used (λ n. HasContent number (image_in self.now (F.state flash.old) number) × (n ≡ page_count (image_in self.now (F.state flash.old) number)))) }
        ensures none { IsTrue (F.state flash.old).media.tells → IfOk result (λ used. used ≡ None → (number < next_in self.now) × (state_of_page (page_in self.now (F.state flash.old) number) ≡ Committed → ⊥)) }
        ensures uncommitted { IsTrue (F.state flash.old).media.tells → IfOk result (λ used. used ≡ None → buf.new.bytes ≡ image_in self.now (F.state flash.old) number) }
        ensures bad { IsTrue (F.state flash.old).media.tells → IfErr result (IfBad (λ bad. (state_of_page (image_in self.now (F.state flash.old) number) ≡ Committed)
            × (HasContent number (image_in self.now (F.state flash.old) number) → ⊥) × (bad ≡ bad_page number (image_in self.now (F.state flash.old) number)))) }
        ensures holds { IsTrue (F.state flash.old).media.tells → number < next_in self.now → IfOk result (λ used. buf.new.bytes ≡ page_in self.now (F.state flash.old) number) }
        ensures some { IfOk result (λ used. IfSome used (λ n. (1 ≤ n) × (n ≤ length (present self.now number buf.new.bytes)) × (n ≤ room_in self.now))) }
        ensures fails { IfErr result (λ e. IfUnread (F.state flash.old) e (F.state flash.new)) }
    {
        if number == self.next_number() {
            let len = self.waiting.content().len();
            if len == 0 {
                return Err(ReadFault::BadPage(self.end_fault()));
            }
            return Ok(Some(len));
        }
        let Some(ring) = &self.ring else {
            unreachable!()
        };
        if let Err(fault) = flash.read(ring.place_of(number), buf) {
            return Err(ReadFault::Flash(fault));
        }
        match used_in(buf.bytes(), number) {
            Ok(used) => Ok(used),
            Err(bad) => Err(ReadFault::BadPage(bad)),
        }
    }
}
