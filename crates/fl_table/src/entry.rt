// What the index tells of a page.
ghost use Rattle.std.specs.Prelude.{◌≡◌, ◌+◌, ◌≤◌, length, IsTrue, IfErr, OnOk};
ghost use Rattle.fl_frame.specs.Contents as contents;
ghost use Rattle.fl_page.specs.Causes.{IsCaused};

use crate::table::Table;
use fl_flash::{Flash, PageBuf};
use fl_index::Found;
use fl_page::ReadFault;

impl<const KNOTS: usize, const SLOTS: usize> Table<KNOTS, SLOTS> {
    ghost use Rattle.std.specs.Prelude.{ℕ};
    ghost use Rattle.fl_index.specs.Looking.{entire, bitmap_alone, IfBad, ShowsBitmap};
    ghost use Rattle.fl_model.specs.Record.{Plan};
    ghost use Rattle.fl_model.specs.Table as model;
    ghost use Rattle.fl_parts.specs.Entries.{LookFrom, LookUp, ShowsFound};
    ghost use Rattle.fl_table.specs.Memory.{LiesOn};
    ghost use Rattle.fl_parts.specs.Skipping.{AreFresh, HoldGood, IsBadIndex};
    ghost use Rattle.fl_table.specs.Look.{index_in};
    ghost use Rattle.fl_table.specs.Standing.{Stands};

    /// The index entry of the page with this number, and none where the page isn't indexed, as in a table without an index.
    /// The index page that lists it is read, unless the buffer holds it; so over ascending numbers each index page is read
    /// once.
    pub fn entry_of<F: Flash>(
        &self,
        flash: &mut F,
        number: u32,
        buf: &mut PageBuf,
    ) -> Result<Option<Found>, ReadFault>
        requires lies { LiesOn self.now (F.state flash.old) }
        requires room { length buf.old.bytes ≡ (F.state flash.old).geometry.page }
        ensures stands { (first : ℕ) → (plan : Plan) → (table : model.Table) → IsTrue (F.state flash.old).media.tells → Stands self.now (F.state flash.old) first plan table →
            AreFresh (index_in self.now) (F.state flash.old) buf.old → ShowsFound plan table number result }
        ensures scans { (first : ℕ) → (plan : Plan) → (table : model.Table) → IsTrue (F.state flash.old).media.tells → Stands self.now (F.state flash.old) first plan table →
            AreFresh (index_in self.now) (F.state flash.old) buf.old → LookFrom (index_in self.now) number (F.state flash.old) buf.old result (F.state flash.new) buf.new }
        ensures looks { LookUp entire (index_in self.now) number (F.state flash.old) buf.old result (F.state flash.new) buf.new }
        ensures fresh { IsTrue (F.state flash.old).media.tells → AreFresh (index_in self.now) (F.state flash.old) buf.old → AreFresh (index_in self.now) (F.state flash.new) buf.new }

        // A page that is held isn't bad, and a bad one that is answered stands on the flash.
        ensures good { HoldGood (index_in self.now) buf.old → OnOk result (HoldGood (index_in self.now) buf.new) }
        ensures bad { IfErr result (IfBad (λ bad. IsTrue (F.state flash.old).media.tells → HoldGood (index_in self.now) buf.old → IsBadIndex (index_in self.now) (F.state flash.old) bad)) }
        ensures cause { IfErr result (λ fault. IsCaused (F.state flash.old) fault (F.state flash.new)) }
        ensures counts { contents.OnlyReads (F.state flash.old) (F.state flash.new) }
        ensures one { (F.state flash.new).work.reads ≤ (F.state flash.old).work.reads + 1 }
        ensures room { length buf.new.bytes ≡ length buf.old.bytes }
    {
        match &self.bitmaps {
            Some(index) => index.entry_of(flash, number, buf),
            None => Ok(None),
        }
    }

    /// The bitmap of the page with this number, and none where the page isn't indexed. It is found as the entry is.
    pub fn bitmap_of<F: Flash>(
        &self,
        flash: &mut F,
        number: u32,
        buf: &mut PageBuf,
    ) -> Result<Option<u64>, ReadFault>
        requires lies { LiesOn self.now (F.state flash.old) }
        requires room { length buf.old.bytes ≡ (F.state flash.old).geometry.page }
        ensures stands { (first : ℕ) → (plan : Plan) → (table : model.Table) → IsTrue (F.state flash.old).media.tells → Stands self.now (F.state flash.old) first plan table →
            AreFresh (index_in self.now) (F.state flash.old) buf.old → ShowsBitmap plan table number result }
        ensures scans { (first : ℕ) → (plan : Plan) → (table : model.Table) → IsTrue (F.state flash.old).media.tells → Stands self.now (F.state flash.old) first plan table →
            AreFresh (index_in self.now) (F.state flash.old) buf.old → LookFrom (index_in self.now) number (F.state flash.old) buf.old result (F.state flash.new) buf.new }
        ensures looks { LookUp bitmap_alone (index_in self.now) number (F.state flash.old) buf.old result (F.state flash.new) buf.new }
        ensures fresh { IsTrue (F.state flash.old).media.tells → AreFresh (index_in self.now) (F.state flash.old) buf.old → AreFresh (index_in self.now) (F.state flash.new) buf.new }

        // A page that is held isn't bad, and a bad one that is answered stands on the flash.
        ensures good { HoldGood (index_in self.now) buf.old → OnOk result (HoldGood (index_in self.now) buf.new) }
        ensures bad { IfErr result (IfBad (λ bad. IsTrue (F.state flash.old).media.tells → HoldGood (index_in self.now) buf.old → IsBadIndex (index_in self.now) (F.state flash.old) bad)) }
        ensures cause { IfErr result (λ fault. IsCaused (F.state flash.old) fault (F.state flash.new)) }
        ensures counts { contents.OnlyReads (F.state flash.old) (F.state flash.new) }
        ensures one { (F.state flash.new).work.reads ≤ (F.state flash.old).work.reads + 1 }
        ensures room { length buf.new.bytes ≡ length buf.old.bytes }
    {
        match &self.bitmaps {
            Some(index) => index.bitmap_of(flash, number, buf),
            None => Ok(None),
        }
    }
}
