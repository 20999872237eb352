// How a cursor goes from row to row.
ghost use Rattle.std.specs.Prelude.{◌≡◌, ◌+◌, ◌<◌, ◌≤◌, ◌^◌, ℕ, true, false, length, Ok, IfOk, IfErr, OnOk, OnErr};
ghost use Rattle.std.specs.Bool.{OnTrue, OnFalse};
ghost use Rattle.fl_frame.specs.Contents.{Contents, contents_of, OnlyReads};
ghost use Rattle.fl_page.specs.Causes.{IsCaused};
ghost use Rattle.fl_table.specs.Look.{oldest_in};
ghost use Rattle.fl_table.specs.Memory.{next_in};

use crate::Cursor;
use crate::place::{Here, Place};
use crate::search::Sought;
use fl_base::Steps;
use fl_flash::Flash;
use fl_page::ReadFault;
use fl_table::Ahead;

impl<const KNOTS: usize, const SLOTS: usize> Cursor<'_, '_, '_, KNOTS, SLOTS> {
    ghost use Rattle.fl_flash.specs.Flash.{FlashState};
    ghost use Rattle.fl_cursor.specs.Cursor.{table_of, mark_of, asked_of, buffer_of, place_of, here_of, is_here, has_ended, IsReady, IsTold, IsPlaced, IfBad, MayBeBad};
    ghost use Rattle.fl_cursor.specs.Ends.{EndsPages};
    ghost use Rattle.fl_cursor.specs.Sound.{IsSoundAhead, pages_end};
    ghost use Rattle.fl_cursor.specs.Going.{Goes, Fails, StepsInPage, took, pages_left, is_start, is_at_pages};
    ghost use Rattle.fl_cursor.specs.declared.place.Place.{Place};

    /// Takes the row with this key, which is here. The next one is looked for from the place on.
    fn take(&mut self, key: u64, here: Here, place: Place)
        ensures { self.new ≡ took key here place self.old }
    {
        self.here = here;
        self.place = if self.mark.is_last(key) {
            Place::Ended
        } else {
            place
        };
        self.mark.after = Some(key);
    }

    /// Goes to the next row in the page in hand, and says whether there is one.
    #[inline(always)]
    fn step_in_page(&mut self) -> bool
        requires placed { IsPlaced (table_of self.old) (buffer_of self.old) (place_of self.old) }
        requires begun { is_start (place_of self.old) ≡ false }
        requires short { length (buffer_of self.old) ≤ 4096 }
        requires few { next_in (table_of self.old) < 2 ^ 32 }
        ensures goes { (contents : Contents) (reads : ℕ) → Goes result contents reads self.old reads self.new }
        ensures sound { (contents : Contents) → IsSoundAhead self.new contents → IsSoundAhead self.old contents }
        ensures place { StepsInPage result self.old self.new }
    {
        let Place::InPage { number, row } = self.place else {
            return false;
        };
        let view = self.table.view(self.rows_buf, number);
        match self.mark.first_in_page(&view, row) {
            Sought::Row(row) => {
                let key = view.row(row).key();
                let next = Place::InPage {
                    number,
                    row: row + 1,
                };
                self.take(key, Here::PageRow { number, row }, next);
                true
            }
            Sought::Behind => {
                self.place = Place::Pages { next: number + 1 };
                false
            }
            Sought::Nowhere => {
                self.place = Place::Ended;
                false
            }
        }
    }

    /// Goes to the next pending row, and says whether there is one.
    fn step_pending(&mut self) -> bool
        requires placed { IsPlaced (table_of self.old) (buffer_of self.old) (place_of self.old) }
        requires behind { is_at_pages (place_of self.old) ≡ false }
        ensures goes { (contents : Contents) (reads : ℕ) → Goes result contents reads self.old reads self.new }
        ensures sound { (contents : Contents) → IsSoundAhead self.new contents → IsSoundAhead self.old contents }
        ensures here { OnFalse result (here_of self.new ≡ here_of self.old) }
        ensures end { OnFalse result (has_ended self.new ≡ true) }
        ensures stays_ended { has_ended self.old ≡ true → result ≡ false }
        ensures behind { is_at_pages (place_of self.new) ≡ false }
    {
        let Place::Pending { row } = self.place else {
            return false;
        };
        match self.mark.first_pending(self.table, row) {
            Sought::Row(row) => {
                let key = self.table.pending_row(row).key();
                self.take(
                    key,
                    Here::PendingRow { row },
                    Place::Pending { row: row + 1 },
                );
                true
            }
            Sought::Behind | Sought::Nowhere => {
                self.place = Place::Ended;
                false
            }
        }
    }

    /// Finds the page of the lowest key that may be given, where that isn't known yet.
    fn find_start<F: Flash>(&mut self, flash: &mut F) -> Result<(), ReadFault>
        requires ready { IsReady self.old (contents_of (F.state flash.old)) }
        requires ordered { oldest_in (table_of self.old) ≤ next_in (table_of self.old) }
        ensures reads_only { OnlyReads (F.state flash.old) (F.state flash.new) }
        ensures cause { IfErr result (λ fault. IsCaused (F.state flash.old) fault (F.state flash.new)) }
        ensures bad_page { IfErr result (IfBad (MayBeBad (table_of self.old) (contents_of (F.state flash.old)))) }
        ensures here { here_of self.new ≡ here_of self.old }
        ensures goes { OnOk result (Goes false (contents_of (F.state flash.old)) (F.state flash.old).work.reads self.old (F.state flash.new).work.reads self.new) }
        ensures fails { OnErr result (Fails (contents_of (F.state flash.old)) (F.state flash.old).work.reads self.old (F.state flash.new).work.reads self.new) }
        ensures sound { OnOk result (IsSoundAhead self.new (contents_of (F.state flash.old)) → IsSoundAhead self.old (contents_of (F.state flash.old))) }
        ensures begun { OnOk result (is_start (place_of self.new) ≡ false) }
        ensures stays_ended { has_ended self.old ≡ true → (has_ended self.new ≡ true) × (F.state flash.new ≡ F.state flash.old) × OnErr result ⊥ }
        ensures behind { is_at_pages (place_of self.old) ≡ false → (is_at_pages (place_of self.new) ≡ false) × (F.state flash.new ≡ F.state flash.old) × OnErr result ⊥ }
    {
        let Place::Start = self.place else {
            return Ok(());
        };
        let lowest = self.mark.lowest();
        let mut steps = Steps::new();
        let Some(number) = self
            .table
            .page_of(flash, lowest, self.rows_buf, &mut steps)?
        else {
            self.place = Place::Pages {
                next: self.table.oldest(),
            };
            return Ok(());
        };
        self.place = Place::InPage { number, row: 0 };
        Ok(())
    }

    /// Goes into the page with this number, which is read once, or past it where it has no rows or its bitmap tells that
    /// none of them is asked for. Where its index entry tells that it begins above the last key that may be given, no row is
    /// left. Behind the pages that may have a row to be given are the pending rows.
    fn read_page<F: Flash>(&mut self, next: u32, end: u32, flash: &mut F) -> Result<(), ReadFault>
        requires ready { IsReady self.old (contents_of (F.state flash.old)) }
        requires next { place_of self.old ≡ Place.Pages next }
        requires end { EndsPages (table_of self.old) (mark_of self.old).top end }
        requires end_is { end ≡ pages_end (table_of self.old) (mark_of self.old).top }
        ensures reads_only { OnlyReads (F.state flash.old) (F.state flash.new) }
        ensures cause { IfErr result (λ fault. IsCaused (F.state flash.old) fault (F.state flash.new)) }
        ensures bad_page { IfErr result (IfBad (MayBeBad (table_of self.old) (contents_of (F.state flash.old)))) }
        ensures here { here_of self.new ≡ here_of self.old }
        ensures goes { OnOk result (Goes false (contents_of (F.state flash.old)) (F.state flash.old).work.reads self.old (F.state flash.new).work.reads self.new) }
        ensures fails { OnErr result (Fails (contents_of (F.state flash.old)) (F.state flash.old).work.reads self.old (F.state flash.new).work.reads self.new) }
        ensures sound { OnOk result (IsSoundAhead self.new (contents_of (F.state flash.old)) → IsSoundAhead self.old (contents_of (F.state flash.old))) }
        ensures begun { is_start (place_of self.new) ≡ false }
        ensures fewer { OnOk result (pages_left (table_of self.old) (place_of self.new) < pages_left (table_of self.old) (place_of self.old)) }
    {
        if end <= next {
            self.place = Place::Pending { row: 0 };
            return Ok(());
        }
        let behind = Place::Pages { next: next + 1 };
        if self.table.rows_of(next) == 0 {
            self.place = behind;
            return Ok(());
        }
        match self
            .table
            .look_ahead(flash, next, self.mark.span, self.mark.top, self.index_buf)?
        {
            Ahead::Wanted => {}
            Ahead::Missed => {
                self.place = behind;
                return Ok(());
            }
            Ahead::Beyond => {
                self.place = Place::Ended;
                return Ok(());
            }
        }
        if !self.table.read_page(flash, next, self.rows_buf)? {
            self.place = behind;
            return Ok(());
        }
        self.place = Place::InPage {
            number: next,
            row: 0,
        };
        Ok(())
    }

    /// Goes to the next row, and says whether there is one. After a fault the key given last stays, and the same rows are
    /// left.
    #[inline(always)]
    pub fn advance<F: Flash>(&mut self, flash: &mut F) -> Result<bool, ReadFault>
        requires { IsReady self.old (contents_of (F.state flash.old)) }
        ensures reads_only { OnlyReads (F.state flash.old) (F.state flash.new) }
        ensures cause { IfErr result (λ fault. IsCaused (F.state flash.old) fault (F.state flash.new)) }
        ensures bad_page { IfErr result (IfBad (MayBeBad (table_of self.old) (contents_of (F.state flash.old)))) }
        ensures here { IfOk result (λ more. is_here self.new ≡ more) }
        ensures goes { IfOk result (λ more. Goes more (contents_of (F.state flash.old)) (F.state flash.old).work.reads self.old (F.state flash.new).work.reads self.new) }
        ensures fails { OnErr result (Fails (contents_of (F.state flash.old)) (F.state flash.old).work.reads self.old (F.state flash.new).work.reads self.new) }
        ensures end { IfOk result (λ more. OnFalse more (has_ended self.new ≡ true)) }
        ensures stays_ended { has_ended self.old ≡ true → (result ≡ Ok false) × (F.state flash.new ≡ F.state flash.old) }

        // Whatever the pages hold: no page between the old place and the new one was looked at and is bad, and where it comes to the end
        // none was from the old place on.
        ensures sound { OnOk result (IsSoundAhead self.new (contents_of (F.state flash.old)) → IsSoundAhead self.old (contents_of (F.state flash.old))) }
        ensures all_sound { IfOk result (λ more. OnFalse more (IsSoundAhead self.old (contents_of (F.state flash.old)))) }

        // Among the pending rows, and where none is left, nothing is read, so no fault comes; it stays there.
        ensures behind { is_at_pages (place_of self.old) ≡ false → (is_at_pages (place_of self.new) ≡ false) × (F.state flash.new ≡ F.state flash.old) × OnErr result ⊥ }
    {
        let next_number = self.table.next_number();
        self.here = Here::Nowhere;
        self.find_start(flash)?;
        if self.step_in_page() {
            return Ok(true);
        }
        let end = self.mark.end_of_pages(self.table, next_number);
        while let Place::Pages { next } = self.place {
            self.read_page(next, end, flash)?;
            if self.step_in_page() {
                return Ok(true);
            }
        }
        Ok(self.step_pending())
    }
}
