// Whole runs against a store that is one plain list of records: a script that wraps its ring is cut at each of its
// operations, by each kind of cut.
mod plain_store;
mod talk;

use crate::asserts::same_at;
use fl_base::{CutKind, NoMemory};
use plain_store::{Cut, PlainStore};
use std::alloc::Global;
use talk::{Talk, is_answered};

/// Puts a record; what comes after a cut is the mount, and the list of what is left.
fn put(
    alloc: Global,
    talk: &mut Talk,
    store: &mut PlainStore,
    cut: &mut Cut,
    key: u64,
) -> Result<(), NoMemory> {
    let line = format!(in alloc; "put t {key} 0")?;
    let stays_on = store.put(key, cut)?;
    talk.add_outcome(line.as_str(), stays_on)?;
    if !stays_on {
        talk.add_mount(alloc, store)?;
    }
    Ok(())
}

fn flush(
    alloc: Global,
    talk: &mut Talk,
    store: &mut PlainStore,
    cut: &mut Cut,
) -> Result<(), NoMemory> {
    let stays_on = store.flush(cut)?;
    talk.add_outcome("flush t", stays_on)?;
    if !stays_on {
        talk.add_mount(alloc, store)?;
    }
    Ok(())
}

/// 24 puts, in pages of three records and some of fewer, round a ring of six pages.
fn put_all(
    alloc: Global,
    talk: &mut Talk,
    store: &mut PlainStore,
    cut: &mut Cut,
) -> Result<(), NoMemory> {
    for key in 1..25 {
        put(alloc, talk, store, cut, key)?;
        if key % 5 == 0 {
            flush(alloc, talk, store, cut)?;
        }
    }
    Ok(())
}

/// Whether these puts are answered right with a cut in them, and a mount behind them.
fn is_right_with(alloc: Global, mut cut: Cut) -> Result<bool, NoMemory> {
    let mut talk = Talk::new(alloc)?;
    let mut store = PlainStore::new(alloc);
    talk.add_cut(alloc, &cut)?;
    put_all(alloc, &mut talk, &mut store, &mut cut)?;
    store.lose();
    talk.add("off", "ok")?;
    talk.add_mount(alloc, &store)?;
    is_answered(alloc, talk)
}

/// The first operation whose cut of a kind isn't answered right.
fn first_misanswered(alloc: Global, kind: CutKind) -> Result<Option<u64>, NoMemory> {
    for left in 1..26 {
        if !is_right_with(alloc, Cut { left, kind })? {
            return Ok(Some(left));
        }
    }
    Ok(None)
}

const KINDS: &[CutKind] = &[
    CutKind::Before,
    CutKind::After,
    CutKind::Half,
    CutKind::Noise(1),
];

#[test]
fn each_operation_is_cut_by_each_kind(rt: HostRuntime) {
    for kind in KINDS {
        same_at(&rt, &first_misanswered(rt.alloc(), *kind), &Ok(None), kind);
    }
}
