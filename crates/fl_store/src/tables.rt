// The tables of an image.
ghost use Rattle.std.specs.Prelude.{◌≡◌, ◌⊎◌, ◌<◌, ◌≤◌, ◌+◌, ◌*◌, ℕ, Bool, List, false, true, length, sum_by, IsTrue, IfOk, IfErr, OnOk};
ghost use Rattle.fl_flash.specs.Flash.{Goes, page_at};
ghost use Rattle.fl_model.specs.Record.{Plan, blocks_of};
ghost use Rattle.fl_model.specs.Table as model;
ghost use Rattle.fl_model.specs.Work.{Device};
ghost use Rattle.fl_frame.specs.Watched.{IsWatched};

use crate::sizes::LoggedTable;
use fl_base::{Name, NoMemory};
use fl_config::Config;
use fl_flash::{Flash, PageBuf};
use fl_table::MountFault;
use std::alloc::Global;

/// A table and its name.
#[derive(Drop)]
pub struct Entry {
    /// The name that its line gives it.
    pub name: Name,
    /// The table and its log, mounted or not.
    pub table: LoggedTable,
}

/// The tables of a configuration. Their rings stand one after another on one flash.
#[derive(Drop)]
pub struct Tables {
    /// One for each line, in the order of the lines.
    pub entries: Vec<Entry>,
}

/// Which table isn't mounted, and why.
#[derive(Clone, Copy, Debug)]
pub struct BadMount {
    /// The place of the table, from 0.
    pub at: usize,
    /// The name of the table.
    pub name: Name,
    /// What its mount answers.
    pub fault: MountFault,
}

impl Tables {
    ghost use Rattle.fl_machine.specs.Reads.{mounts_limit};
    ghost use Rattle.fl_parts.specs.Faults.{MountCausedBy};
    ghost use Rattle.fl_parts.specs.IndexMount.{FewRepairs};
    ghost use Rattle.fl_store.specs.Mounting.{AreSameNames, AreSamePlans, AreUnlogged, MountsInTurn, OutsideStands, RefusesAt, repairs_of, tried};
    ghost use Rattle.fl_store.specs.Repaired.{IsLeft};
    ghost use Rattle.fl_store.specs.Tables.{AreNewTables, Names, LieOn, AreRunning, NoneWaits, StopsAt, TablesStand, TablesMount, pages_of};

    /// The tables of a configuration, one for each line. None of them is mounted.
    pub fn plan(alloc: Global, config: &Config) -> Result<Tables, NoMemory>
        ensures { IfOk result (λ tables. AreNewTables tables.entries.items config.now) }
    {
        let mut entries = Vec::with_capacity(alloc, config.tables())?;
        for i in 0..config.tables() {
            let Ok(table) = LoggedTable::plan(alloc, config.table(i), config.log(i)) else {
                return Err(NoMemory);
            };
            let name = config.name(i);
            entries.push(Entry { name, table })?;
        }
        Ok(Tables { entries })
    }

    /// The place of the first table with this name, if there is one.
    pub fn find(&self, name: Name) -> Option<usize>
        ensures { Names self.now.entries.items name result }
    {
        for at in 0..self.entries.len() {
            if self.entries[at].name.bytes() == name.bytes() {
                return Some(at);
            }
        }
        None
    }

    /// Mounts the tables in their order, up to the first that isn't mounted; those behind it stay as they are, in memory and on
    /// the flash. The buffer has the size of a page.
    pub fn mount<F: Flash>(&mut self, flash: &mut F, buf: &mut PageBuf) -> Result<(), BadMount>
        requires lie { LieOn self.old.entries.items (F.state flash.old) }
        requires room { length buf.old.bytes ≡ (F.state flash.old).geometry.page }
        ensures ends { (plans : List Plan) → (tables : List model.Table) → (rose : Bool) → (device : Device) → IsWatched (F.state flash.old) (F.state flash.new) rose device
            → TablesStand (F.state flash.old) (λ i. false) plans self.old.entries.items tables → TablesMount plans tables rose device result self.new.entries.items (F.state flash.new) }
        ensures found { OnOk result (IsTrue (F.state flash.old).media.tells →
            MountsInTurn (length self.old.entries.items) self.old.entries.items self.new.entries.items (F.state flash.old) (F.state flash.new)) }
        ensures refused { IfErr result (λ bad. IsTrue (F.state flash.old).media.tells →
            RefusesAt self.old.entries.items self.new.entries.items bad (F.state flash.old) (F.state flash.new)) }
        ensures running { OnOk result (AreRunning self.new.entries.items) }
        ensures none { OnOk result (NoneWaits self.new.entries.items) }
        ensures stops { IfErr result (λ bad. StopsAt self.old.entries.items self.new.entries.items bad) }
        ensures cause { IfErr result (λ bad. MountCausedBy (F.state flash.old) bad.fault (F.state flash.new)) }
        ensures repaired { OnOk result (IsTrue (F.state flash.old).media.tells → (plans : List Plan) → (tables : List model.Table) → TablesStand (F.state flash.old) (λ i. false) plans self.old.entries.items tables
            → AreUnlogged self.old.entries.items ⊎ ((rose : Bool) × (device : Device) × IsWatched (F.state flash.old) (F.state flash.new) rose device)
            → (page : ℕ) → page < sum_by blocks_of plans * (F.state flash.old).geometry.block → IsLeft plans (F.state flash.old).geometry page (page_at (F.state flash.old) page) (page_at (F.state flash.new) page)) }
        ensures repairs { FewRepairs (repairs_of (tried result self.old.entries.items)) (F.state flash.old) (F.state flash.new) }
        ensures outside { IsTrue (F.state flash.old).media.tells →
            OutsideStands (tried result self.old.entries.items) (page_at (F.state flash.old)) (page_at (F.state flash.new)) }
        ensures reads { IsTrue (F.state flash.old).media.tells → (F.state flash.new).work.reads ≤ (F.state flash.old).work.reads + 4 * pages_of self.old.entries.items }
        ensures limit { (plans : List Plan) → (tables : List model.Table) → (rose : Bool) → (device : Device) → IsWatched (F.state flash.old) (F.state flash.new) rose device
            → TablesStand (F.state flash.old) (λ i. false) plans self.old.entries.items tables → (F.state flash.new).work.reads ≤ (F.state flash.old).work.reads + mounts_limit plans tables }
        ensures power { OnOk result ((F.state flash.old).is_on ≡ true → (F.state flash.new).is_on ≡ true) }
        ensures goes { Goes (F.state flash.old) (F.state flash.new) }
        ensures lie { LieOn self.new.entries.items (F.state flash.new) }
        ensures room { length buf.new.bytes ≡ length buf.old.bytes }
        ensures as_many { length self.new.entries.items ≡ length self.old.entries.items }
        ensures same { AreSamePlans self.old.entries.items self.new.entries.items }
        ensures names { AreSameNames self.old.entries.items self.new.entries.items }
    {
        for i in 0..self.entries.len() {
            if let Err(fault) = self.entries[i].table.mount(flash, buf) {
                let name = self.entries[i].name;
                return Err(BadMount { at: i, name, fault });
            }
        }
        Ok(())
    }
}
