// Steps over a table on a flash, and how they are answered.
ghost use Rattle.std.specs.Prelude.{◌≡◌, true, length};
ghost use Rattle.fl_flash.specs.Flash.{Stays};
ghost use Rattle.fl_table.specs.Memory.{LiesOn, is_running};

use super::blobs::open;
use crate::Table;
use crate::answers::{Answer, Lookup, of_flush, of_mount, of_put};
use crate::media::counted;
use crate::stores::{Store, flush, mount, put, runs};
use fl_base::{BlobRef, Steps};
use fl_flash::{Flash, PageBuf};
use fl_page::ReadFault;
use std::alloc::Global;

/// The values of a row.
pub(super) const ROW: &[i64] = &[-7];

#[derive(Clone, Copy)]
pub(super) enum Step {
    Mount,
    /// The key, the values, and the length of the blob, whose bytes are counted from 0.
    Put(u64, &'static [i64], Option<usize>),
    Flush,
    Stand,
    LookUp(u64),
    /// The page and the offset of a blob of 100 bytes.
    Open(u32, u16),
}

/// Steps, each with its answer.
pub(super) type Talk = &'static [(Step, Answer)];

// The first bytes of a blob.
fn first(blob: &[u8], len: Option<usize>) -> Option<&[u8]> {
    let len = len?;
    if len > blob.len() {
        return None;
    }
    Some(&blob[..len])
}

fn look_up<F: Flash>(
    table: &Table,
    flash: &mut F,
    buf: &mut PageBuf,
    key: u64,
) -> Result<Lookup, ReadFault>
    requires running { is_running table.now ≡ true }
    requires lies { LiesOn table.now (F.state flash.old) }
    requires room { length buf.old.bytes ≡ (F.state flash.old).geometry.page }
    ensures lies { LiesOn table.now (F.state flash.new) }
    ensures goes { Stays (F.state flash.old) (F.state flash.new) }
    ensures room { length buf.new.bytes ≡ length buf.old.bytes }
{
    let before = flash.work().reads;
    let mut steps = Steps::new();
    let row = match table.find(flash, key, buf, &mut steps)? {
        Some(place) => Some(table.row_at(buf, place).key()),
        None => None,
    };
    let reads = flash.work().reads.saturating_sub(before);
    let page = table.page_of(flash, key, buf, &mut steps)?;
    Ok((row, reads, table.lookup_limit(key), page))
}

fn looked_up<F: Flash>(table: &Table, flash: &mut F, buf: &mut PageBuf, key: u64) -> Answer
    requires lies { LiesOn table.now (F.state flash.old) }
    requires room { length buf.old.bytes ≡ (F.state flash.old).geometry.page }
    ensures lies { LiesOn table.now (F.state flash.new) }
    ensures goes { Stays (F.state flash.old) (F.state flash.new) }
    ensures room { length buf.new.bytes ≡ length buf.old.bytes }
{
    if !runs(table) {
        return Answer::Unread;
    }
    match look_up(table, flash, buf, key) {
        Ok(lookup) => Answer::LookedUp(lookup),
        Err(_) => Answer::Unread,
    }
}

fn take<F: Flash>(alloc: Global, step: Step, store: &mut Store, flash: &mut F) -> Answer
    requires lies { LiesOn store.old.table (F.state flash.old) }
    requires room { length store.old.buf.bytes ≡ (F.state flash.old).geometry.page }
    ensures goes { Stays (F.state flash.old) (F.state flash.new) }
    ensures lies { LiesOn store.new.table (F.state flash.new) }
    ensures room { length store.new.buf.bytes ≡ length store.old.buf.bytes }
{
    match step {
        Step::Mount => of_mount(mount(&mut store.table, flash, &mut store.buf)),
        Step::Put(key, values, len) => {
            let bytes = counted();
            of_put(put(&mut store.table, flash, key, values, first(&bytes, len)))
        }
        Step::Flush => of_flush(flush(&mut store.table, flash)),
        Step::Stand => Answer::Stands(store.table.is_mounted(), store.table.is_stopped()),
        Step::LookUp(key) => looked_up(&store.table, flash, &mut store.buf, key),
        Step::Open(page, offset) => {
            let at = BlobRef {
                page,
                offset,
                length: 100,
            };
            open(alloc, &store.table, flash, at)
        }
    }
}

/// The first step that isn't answered as it is to be.
pub(super) fn first_wrong<F: Flash>(
    alloc: Global,
    steps: &[(Step, Answer)],
    store: &mut Store,
    flash: &mut F,
) -> Option<usize>
    requires lies { LiesOn store.old.table (F.state flash.old) }
    requires room { length store.old.buf.bytes ≡ (F.state flash.old).geometry.page }
    ensures goes { Stays (F.state flash.old) (F.state flash.new) }
    ensures lies { LiesOn store.new.table (F.state flash.new) }
    ensures room { length store.new.buf.bytes ≡ length store.old.buf.bytes }
{
    for i in 0..steps.len() {
        let (step, want) = steps[i];
        if take(alloc, step, store, flash) != want {
            return Some(i);
        }
    }
    None
}
