// A record that is looked up by its key.
ghost use Rattle.std.specs.Prelude.{◌≡◌, ℕ, true, length, IsTrue};
ghost use Rattle.fl_flash.specs.Flash.{Goes};
ghost use Rattle.fl_model.specs.Record.{Plan};
ghost use Rattle.fl_model.specs.Table as model;
ghost use Rattle.fl_frame.specs.Contents.{OnlyReads};
ghost use Rattle.fl_script.specs.ReplyView.{reply_text};
ghost use Rattle.fl_table.specs.Memory.{is_running, LiesOn};
ghost use Rattle.fl_table.specs.Standing.{Stands};
ghost use Rattle.fl_queries.specs.LookSays.{LookSays, ReadsFew, Says};
ghost use Rattle.fl_queries.specs.Looked.{Looks};

use crate::rows::{form_of, line_of};
use fl_base::Steps;
use fl_flash::{Flash, PageBuf};
use fl_page::ReadFault;
use fl_script::Reply;
use fl_store::Table;

/// The reply to a get: the row with the key, that there is none, or why a page isn't read.
pub fn look_up<F: Flash>(table: &Table, key: u64, flash: &mut F, buf: &mut PageBuf) -> Reply
    requires running { is_running table.now ≡ true }
    requires lies { LiesOn table.now (F.state flash.old) }
    requires room { length buf.old.bytes ≡ (F.state flash.old).geometry.page }
    ensures cause { Says (reply_text result) (LookSays table.now key (F.state flash.old) (F.state flash.new)) }
    ensures few { ReadsFew table.now (F.state flash.old) (F.state flash.new) }
    ensures counts { OnlyReads (F.state flash.old) (F.state flash.new) }
    ensures lies { LiesOn table.now (F.state flash.new) }
    ensures room { length buf.new.bytes ≡ length buf.old.bytes }
    ensures looks { (first : ℕ) → (plan : Plan) → (t : model.Table) → IsTrue (F.state flash.old).media.tells → (F.state flash.old).is_on ≡ true → Stands table.now (F.state flash.old) first plan t →
        Looks plan t key (F.state flash.old).media.faults (F.state flash.new).media.faults (F.state flash.old).work.reads (F.state flash.new).work.reads (reply_text result) }
{
    let form = form_of(table);
    let mut steps = Steps::new();
    match table.find(flash, key, buf, &mut steps) {
        Ok(None) => Reply::Absent,
        Ok(Some(place)) => line_of(&table.row_at(buf, place), form),
        Err(ReadFault::Flash(_)) => Reply::ReadFault,
        Err(ReadFault::BadPage(bad)) => {
            let number = bad.wanted;
            Reply::BadPage { number }
        }
    }
}
