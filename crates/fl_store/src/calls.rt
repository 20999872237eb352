// The calls of a store: its tables mounted, and records put, flushed and looked up.
ghost use Rattle.std.specs.Prelude.{◌≡◌, ◌<◌, ◌≤◌, ◌+◌, ◌*◌, ◌↔◌, ℕ, Bool, List, false, true, None, Some, length, option_map, slice_get, Ok, Err, IsTrue, IfOk, IfErr, IfSome, OnOk};
ghost use Rattle.fl_flash.specs.Flash.{Goes, page_at};
ghost use Rattle.fl_flash.specs.declared.flash.FlashFault.{FlashFault};
ghost use Rattle.fl_model.specs.Record.{Config, Plan};
ghost use Rattle.fl_model.specs.Table as model;
ghost use Rattle.fl_model.specs.Table.{last_entry};
ghost use Rattle.fl_model.specs.Work.{Device};
ghost use Rattle.fl_frame.specs.Contents.{OnlyReads};
ghost use Rattle.fl_frame.specs.Watched.{IsWatched};
ghost use Rattle.fl_rlc.specs.Paged.{HasMadePage, PutLogged};
ghost use Rattle.fl_rlc.specs.Refusal.{put_refusal, NeedsNoOperation};
ghost use Rattle.fl_rlc.specs.Table as logged;
ghost use Rattle.fl_ring.specs.Written.{Writes};
ghost use Rattle.fl_rlc.specs.Table.{is_running, rings_in, table_in, MayPut};
ghost use Rattle.fl_schema.specs.Schema.{layout_of_row, row_of};
ghost use Rattle.fl_table.specs.BlobAt.{data_in};
ghost use Rattle.fl_parts.specs.Blobs.{most_pages};
ghost use Rattle.fl_parts.specs.Faults.{MountCausedBy};
ghost use Rattle.fl_table.specs.Causes.{FlushCausedBy, PutCausedBy, flush_breaks, put_breaks};
ghost use Rattle.fl_table.specs.Finding.{BlamesFor, HasKeyAt, IsAnswered, LookupFails, is_covered_in, row_in, row_of_place};
ghost use Rattle.fl_table.specs.Look.{counts_in, counts_of, last_key_in};
ghost use Rattle.fl_table.specs.Memory.{pending_in, HasRoom, MaySeal};
ghost use Rattle.fl_parts.specs.IndexMount.{FewRepairs};
ghost use Rattle.fl_table.specs.Mounting.{rings_in as table_rings};
ghost use Rattle.fl_table.specs.Paged.{HasFlushed};
ghost use Rattle.fl_table.specs.Refusal.{RefusesAs};
ghost use Rattle.fl_store.specs.Calls.{Finds, FlushEnds, GetEnds, HavePage, IsRefusedSame, IsRowIn, Located, PutEnds, RunsAt, columns_at, powered};
ghost use Rattle.fl_store.specs.InMemory.{AreSameTables, Becomes, Flushes, LeavesOthers, Takes, has_blobs_at};
ghost use Rattle.fl_store.specs.Mounting.{MountsInTurn, OutsideStands, RefusesAt, repairs_of, tried};
ghost use Rattle.fl_store.specs.Store.{Holds, IsOnMedium};
ghost use Rattle.fl_store.specs.Tables.{AreRunning, LieOn, NoneWaits, StopsAt, TablesMount, pages_of};
ghost use Rattle.fl_store.specs.declared.tables.Entry.{Entry};

use crate::pages::Pages;
use crate::store::Store;
use crate::tables::BadMount;
use fl_base::{Name, Steps};
use fl_flash::{Flash, Media, SimFlash};
use fl_page::ReadFault;
use fl_schema::RowRef;
use fl_table::{FlushFault, PutRefusal, RowAt, TableCounts};

impl<'m, M: Media> Store<'m, M> {
    /// Mounts the tables: the power goes on, and what stands on the flash is found and repaired.
    /// # Errors
    /// Which table isn't mounted, and why. Those before it are mounted; those behind it weren't touched.
    pub fn mount(&mut self, pages: &mut Pages) -> Result<(), BadMount>
        requires lie { LieOn self.old.tables.entries.items (⟦<SimFlash<'m, M> as Flash>⟧.state self.old.flash) }
        requires room { HavePage pages.old (⟦<SimFlash<'m, M> as Flash>⟧.state self.old.flash).geometry.page }
        // A store that holds tables on its pages is mounted as the model mounts them, unless the flash fails.
        ensures mounts { (config : Config) (tables : List model.Table) (rose : Bool) (device : Device) → IsWatched (powered (⟦<SimFlash<'m, M> as Flash>⟧.state self.old.flash)) (⟦<SimFlash<'m, M> as Flash>⟧.state self.new.flash) rose device → Holds config self.old.tables.entries.items (⟦<SimFlash<'m, M> as Flash>⟧.state self.old.flash) false tables →
            IsOnMedium config (⟦<SimFlash<'m, M> as Flash>⟧.state self.new.flash) × TablesMount config.plans tables rose device result self.new.tables.entries.items (⟦<SimFlash<'m, M> as Flash>⟧.state self.new.flash) }
        ensures found { OnOk result (IsTrue (⟦<SimFlash<'m, M> as Flash>⟧.state self.old.flash).media.tells → MountsInTurn (length self.old.tables.entries.items) self.old.tables.entries.items self.new.tables.entries.items (powered (⟦<SimFlash<'m, M> as Flash>⟧.state self.old.flash)) (⟦<SimFlash<'m, M> as Flash>⟧.state self.new.flash)) }
        ensures refused { IfErr result (λ bad. IsTrue (⟦<SimFlash<'m, M> as Flash>⟧.state self.old.flash).media.tells → RefusesAt self.old.tables.entries.items self.new.tables.entries.items bad (powered (⟦<SimFlash<'m, M> as Flash>⟧.state self.old.flash)) (⟦<SimFlash<'m, M> as Flash>⟧.state self.new.flash)) }
        ensures stops { IfErr result (λ bad. StopsAt self.old.tables.entries.items self.new.tables.entries.items bad) }
        ensures cause { IfErr result (λ bad. MountCausedBy (powered (⟦<SimFlash<'m, M> as Flash>⟧.state self.old.flash)) bad.fault (⟦<SimFlash<'m, M> as Flash>⟧.state self.new.flash)) }
        ensures running { OnOk result (AreRunning self.new.tables.entries.items) }
        ensures none { OnOk result (NoneWaits self.new.tables.entries.items) }
        ensures power { OnOk result ((⟦<SimFlash<'m, M> as Flash>⟧.state self.new.flash).is_on ≡ true) }
        ensures repairs { FewRepairs (repairs_of (tried result self.old.tables.entries.items)) (⟦<SimFlash<'m, M> as Flash>⟧.state self.old.flash) (⟦<SimFlash<'m, M> as Flash>⟧.state self.new.flash) }
        ensures outside { IsTrue (⟦<SimFlash<'m, M> as Flash>⟧.state self.old.flash).media.tells → OutsideStands (tried result self.old.tables.entries.items) (page_at (⟦<SimFlash<'m, M> as Flash>⟧.state self.old.flash)) (page_at (⟦<SimFlash<'m, M> as Flash>⟧.state self.new.flash)) }
        ensures reads { IsTrue (⟦<SimFlash<'m, M> as Flash>⟧.state self.old.flash).media.tells → (⟦<SimFlash<'m, M> as Flash>⟧.state self.new.flash).work.reads ≤ (⟦<SimFlash<'m, M> as Flash>⟧.state self.old.flash).work.reads + 4 * pages_of self.old.tables.entries.items }
        ensures same { AreSameTables self.old.tables.entries.items self.new.tables.entries.items }
        ensures goes { Goes (⟦<SimFlash<'m, M> as Flash>⟧.state self.old.flash) (⟦<SimFlash<'m, M> as Flash>⟧.state self.new.flash) }
        ensures lie { LieOn self.new.tables.entries.items (⟦<SimFlash<'m, M> as Flash>⟧.state self.new.flash) }
        ensures room { HavePage pages.new (⟦<SimFlash<'m, M> as Flash>⟧.state self.new.flash).geometry.page }
        ensures as_many { length self.new.tables.entries.items ≡ length self.old.tables.entries.items }
    {
        self.flash.power_on();
        self.tables.mount(&mut self.flash, &mut pages.rows)
    }

    /// The place of the first table with this name, from 0, if there is one. All other calls take it.
    pub fn find(&self, name: &[u8]) -> Option<usize>
        ensures { Finds self.now.tables.entries.items name.now result }
    {
        let Some(name) = Name::of(name) else {
            return None;
        };
        self.tables.find(name)
    }

    /// Puts a record into the table at a place. Its row waits in memory then, until a flush or the put that finds the page full; with
    /// a log it is in the log too.
    /// # Errors
    /// `Stopped`, `Key`, `Columns`, `Value`, `Blob`, `Spent`: the first of them that applies, and nothing changed. `Flash`: an
    /// operation failed. The table is stopped, and the store is to be mounted again.
    pub fn put(
        &mut self,
        at: usize,
        key: u64,
        values: &[i64],
        blob: Option<&[u8]>,
    ) -> Result<(), PutRefusal>
        requires at { at < length self.old.tables.entries.items }
        requires lie { LieOn self.old.tables.entries.items (⟦<SimFlash<'m, M> as Flash>⟧.state self.old.flash) }
        // A mounted store that holds tables holds the one with this record in its place, or says why not.
        ensures ends { (config : Config) (tables : List model.Table) (plan : Plan) (table : model.Table) (rose : Bool) (device : Device) → IsWatched (⟦<SimFlash<'m, M> as Flash>⟧.state self.old.flash) (⟦<SimFlash<'m, M> as Flash>⟧.state self.new.flash) rose device →
            Holds config self.old.tables.entries.items (⟦<SimFlash<'m, M> as Flash>⟧.state self.old.flash) true tables → Located config tables at plan table →
            PutEnds config tables at plan table (record { key = key; values = values.now; blob = option_map (λ b. b.now) blob.entry }) rose device result self.new.tables.entries.items (⟦<SimFlash<'m, M> as Flash>⟧.state self.new.flash) }
        // Whatever the flash holds, and with the power off too, an accepted record is in memory, or an operation failed.
        ensures takes { OnOk result (Becomes (Takes (record { key = key; values = values.now; blob = option_map (λ b. b.now) blob.entry })) self.old.tables.entries.items at self.new.tables.entries.items) }
        ensures exact { (entry : Entry) → slice_get self.old.tables.entries.items at ≡ Some entry → RefusesAs (put_refusal entry.table key values.now (option_map (λ b. length b.now) blob.entry)) result }
        ensures refused { IfErr result (λ e. IsRefusedSame self.old.tables.entries.items (⟦<SimFlash<'m, M> as Flash>⟧.state self.old.flash) e self.new.tables.entries.items (⟦<SimFlash<'m, M> as Flash>⟧.state self.new.flash)) }
        ensures quiet { (entry : Entry) → slice_get self.old.tables.entries.items at ≡ Some entry → put_refusal entry.table key values.now (option_map (λ b. length b.now) blob.entry) ≡ None → NeedsNoOperation entry.table (option_map (λ b. b.now) blob.entry) → (result ≡ Ok tt) × ((⟦<SimFlash<'m, M> as Flash>⟧.state self.new.flash) ≡ (⟦<SimFlash<'m, M> as Flash>⟧.state self.old.flash)) }
        ensures off { (entry : Entry) → slice_get self.old.tables.entries.items at ≡ Some entry → put_refusal entry.table key values.now (option_map (λ b. length b.now) blob.entry) ≡ None → (NeedsNoOperation entry.table (option_map (λ b. b.now) blob.entry) → ⊥) → (⟦<SimFlash<'m, M> as Flash>⟧.state self.old.flash).is_on ≡ false → (result ≡ Err (PutRefusal.Flash FlashFault.PowerLost)) × ((⟦<SimFlash<'m, M> as Flash>⟧.state self.new.flash) ≡ (⟦<SimFlash<'m, M> as Flash>⟧.state self.old.flash)) }
        ensures cause { IfErr result (λ e. PutCausedBy (⟦<SimFlash<'m, M> as Flash>⟧.state self.old.flash) e (⟦<SimFlash<'m, M> as Flash>⟧.state self.new.flash)) }
        ensures leaves { LeavesOthers (put_breaks result) self.old.tables.entries.items at self.new.tables.entries.items }
        ensures running { OnOk result ((i : ℕ) → RunsAt self.old.tables.entries.items i → RunsAt self.new.tables.entries.items i) }
        ensures power { OnOk result ((⟦<SimFlash<'m, M> as Flash>⟧.state self.old.flash).is_on ≡ true → (⟦<SimFlash<'m, M> as Flash>⟧.state self.new.flash).is_on ≡ true) }
        ensures same { AreSameTables self.old.tables.entries.items self.new.tables.entries.items }
        ensures outside { (entry : Entry) → slice_get self.old.tables.entries.items at ≡ Some entry → IsTrue (⟦<SimFlash<'m, M> as Flash>⟧.state self.old.flash).media.tells → logged.OutsideStands entry.table (page_at (⟦<SimFlash<'m, M> as Flash>⟧.state self.old.flash)) (page_at (⟦<SimFlash<'m, M> as Flash>⟧.state self.new.flash)) }
        ensures writes { (entry : Entry) → slice_get self.old.tables.entries.items at ≡ Some entry → Writes (MayPut entry.table (option_map (λ b. b.now) blob.entry)) 0 (rings_in entry.table + most_pages (data_in (table_in entry.table)) (option_map (λ b. b.now) blob.entry)) (⟦<SimFlash<'m, M> as Flash>⟧.state self.old.flash) (⟦<SimFlash<'m, M> as Flash>⟧.state self.new.flash) }
        ensures log_page { (entry : Entry) → slice_get self.old.tables.entries.items at ≡ Some entry → OnOk result (PutLogged entry.table (record { key = key; values = values.now; blob = None }) (⟦<SimFlash<'m, M> as Flash>⟧.state self.old.flash) (⟦<SimFlash<'m, M> as Flash>⟧.state self.new.flash)) }
        ensures sealed { (entry : Entry) → slice_get self.old.tables.entries.items at ≡ Some entry → OnOk result ((HasRoom (table_in entry.table) → ⊥) → HasMadePage entry.table (option_map (λ b. b.now) blob.entry) (⟦<SimFlash<'m, M> as Flash>⟧.state self.old.flash) (⟦<SimFlash<'m, M> as Flash>⟧.state self.new.flash)) }
        ensures reads { (⟦<SimFlash<'m, M> as Flash>⟧.state self.new.flash).work.reads ≡ (⟦<SimFlash<'m, M> as Flash>⟧.state self.old.flash).work.reads }
        ensures media_reads { (entry : Entry) → slice_get self.old.tables.entries.items at ≡ Some entry → (⟦<SimFlash<'m, M> as Flash>⟧.state self.new.flash).media.reads ≤ (⟦<SimFlash<'m, M> as Flash>⟧.state self.old.flash).media.reads + rings_in entry.table + most_pages (data_in (table_in entry.table)) (option_map (λ b. b.now) blob.entry) }
        ensures goes { Goes (⟦<SimFlash<'m, M> as Flash>⟧.state self.old.flash) (⟦<SimFlash<'m, M> as Flash>⟧.state self.new.flash) }
        ensures lie { LieOn self.new.tables.entries.items (⟦<SimFlash<'m, M> as Flash>⟧.state self.new.flash) }
        ensures as_many { length self.new.tables.entries.items ≡ length self.old.tables.entries.items }
    {
        let entry = &mut self.tables.entries[at];
        entry.table.put(&mut self.flash, key, values, blob)
    }

    /// Makes a page of the rows of the table at a place that wait in memory.
    /// # Errors
    /// `Stopped`: the table isn't mounted, and nothing changed. `Flash`: an operation failed. The table is stopped, and the store is to
    /// be mounted again.
    pub fn flush(&mut self, at: usize) -> Result<(), FlushFault>
        requires at { at < length self.old.tables.entries.items }
        requires lie { LieOn self.old.tables.entries.items (⟦<SimFlash<'m, M> as Flash>⟧.state self.old.flash) }
        ensures ends { (config : Config) (tables : List model.Table) (plan : Plan) (table : model.Table) (rose : Bool) (device : Device) → IsWatched (⟦<SimFlash<'m, M> as Flash>⟧.state self.old.flash) (⟦<SimFlash<'m, M> as Flash>⟧.state self.new.flash) rose device →
            Holds config self.old.tables.entries.items (⟦<SimFlash<'m, M> as Flash>⟧.state self.old.flash) true tables → Located config tables at plan table →
            FlushEnds config tables at plan table rose device result self.new.tables.entries.items (⟦<SimFlash<'m, M> as Flash>⟧.state self.new.flash) }
        // Whatever the flash holds, and with the power off too, no row waits in memory then, or an operation failed.
        ensures flushes { OnOk result (Becomes Flushes self.old.tables.entries.items at self.new.tables.entries.items) }
        ensures stopped { (entry : Entry) → slice_get self.old.tables.entries.items at ≡ Some entry → (result ≡ Err FlushFault.Stopped) ↔ (is_running entry.table ≡ false) }
        ensures refused { result ≡ Err FlushFault.Stopped → self.new.tables.entries.items ≡ self.old.tables.entries.items }
        ensures quiet { (entry : Entry) → slice_get self.old.tables.entries.items at ≡ Some entry → is_running entry.table ≡ true → pending_in (table_in entry.table) ≡ 0 → (result ≡ Ok tt) × (self.new.tables.entries.items ≡ self.old.tables.entries.items) × ((⟦<SimFlash<'m, M> as Flash>⟧.state self.new.flash) ≡ (⟦<SimFlash<'m, M> as Flash>⟧.state self.old.flash)) }
        ensures off { (entry : Entry) → slice_get self.old.tables.entries.items at ≡ Some entry → is_running entry.table ≡ true → 1 ≤ pending_in (table_in entry.table) → (⟦<SimFlash<'m, M> as Flash>⟧.state self.old.flash).is_on ≡ false → (result ≡ Err (FlushFault.Flash FlashFault.PowerLost)) × ((⟦<SimFlash<'m, M> as Flash>⟧.state self.new.flash) ≡ (⟦<SimFlash<'m, M> as Flash>⟧.state self.old.flash)) }
        ensures cause { IfErr result (λ e. FlushCausedBy (⟦<SimFlash<'m, M> as Flash>⟧.state self.old.flash) e (⟦<SimFlash<'m, M> as Flash>⟧.state self.new.flash)) }
        ensures leaves { LeavesOthers (flush_breaks result) self.old.tables.entries.items at self.new.tables.entries.items }
        ensures running { OnOk result ((i : ℕ) → RunsAt self.old.tables.entries.items i → RunsAt self.new.tables.entries.items i) }
        ensures power { OnOk result ((⟦<SimFlash<'m, M> as Flash>⟧.state self.old.flash).is_on ≡ true → (⟦<SimFlash<'m, M> as Flash>⟧.state self.new.flash).is_on ≡ true) }
        ensures same { AreSameTables self.old.tables.entries.items self.new.tables.entries.items }
        ensures outside { (entry : Entry) → slice_get self.old.tables.entries.items at ≡ Some entry → IsTrue (⟦<SimFlash<'m, M> as Flash>⟧.state self.old.flash).media.tells → logged.OutsideStands entry.table (page_at (⟦<SimFlash<'m, M> as Flash>⟧.state self.old.flash)) (page_at (⟦<SimFlash<'m, M> as Flash>⟧.state self.new.flash)) }
        ensures writes { (entry : Entry) → slice_get self.old.tables.entries.items at ≡ Some entry → Writes (MaySeal (table_in entry.table)) 0 (table_rings (table_in entry.table)) (⟦<SimFlash<'m, M> as Flash>⟧.state self.old.flash) (⟦<SimFlash<'m, M> as Flash>⟧.state self.new.flash) }
        ensures sealed { (entry : Entry) → slice_get self.old.tables.entries.items at ≡ Some entry → OnOk result (1 ≤ pending_in (table_in entry.table) → HasFlushed (table_in entry.table) (⟦<SimFlash<'m, M> as Flash>⟧.state self.old.flash) (⟦<SimFlash<'m, M> as Flash>⟧.state self.new.flash)) }
        ensures reads { (⟦<SimFlash<'m, M> as Flash>⟧.state self.new.flash).work.reads ≡ (⟦<SimFlash<'m, M> as Flash>⟧.state self.old.flash).work.reads }
        ensures media_reads { (entry : Entry) → slice_get self.old.tables.entries.items at ≡ Some entry → (⟦<SimFlash<'m, M> as Flash>⟧.state self.new.flash).media.reads ≤ (⟦<SimFlash<'m, M> as Flash>⟧.state self.old.flash).media.reads + rings_in entry.table }
        ensures goes { Goes (⟦<SimFlash<'m, M> as Flash>⟧.state self.old.flash) (⟦<SimFlash<'m, M> as Flash>⟧.state self.new.flash) }
        ensures lie { LieOn self.new.tables.entries.items (⟦<SimFlash<'m, M> as Flash>⟧.state self.new.flash) }
        ensures as_many { length self.new.tables.entries.items ≡ length self.old.tables.entries.items }
    {
        self.tables.entries[at].table.flush(&mut self.flash)
    }

    /// How much the table at a place holds.
    pub fn counts(&self, at: usize) -> TableCounts
        requires { at < length self.now.tables.entries.items }
        ensures holds { (config : Config) (tables : List model.Table) (plan : Plan) (table : model.Table) → Holds config self.now.tables.entries.items (⟦<SimFlash<'m, M> as Flash>⟧.state self.now.flash) true tables → Located config tables at plan table → result ≡ counts_of table }
        ensures exact { (entry : Entry) → slice_get self.now.tables.entries.items at ≡ Some entry → result ≡ counts_in (table_in entry.table) }
    {
        self.tables.entries[at].table.table().counts()
    }

    /// The key of the last record of the table at a place, if it has one.
    pub fn last_key(&self, at: usize) -> Option<u64>
        requires { at < length self.now.tables.entries.items }
        ensures holds { (config : Config) (tables : List model.Table) (plan : Plan) (table : model.Table) → Holds config self.now.tables.entries.items (⟦<SimFlash<'m, M> as Flash>⟧.state self.now.flash) true tables → Located config tables at plan table →
            result ≡ option_map (λ entry. entry.kept.key) (last_entry table) }
        ensures exact { (entry : Entry) → slice_get self.now.tables.entries.items at ≡ Some entry → result ≡ last_key_in (table_in entry.table) }
    {
        self.tables.entries[at].table.table().last_key()
    }

    /// How many columns the rows of the table at a place have.
    pub fn columns(&self, at: usize) -> usize
        requires { at < length self.now.tables.entries.items }
        ensures { result ≡ columns_at self.now.tables.entries.items at }
    {
        self.tables.entries[at].table.table().columns()
    }

    /// Whether the records of the table at a place may have blobs.
    pub fn has_blobs(&self, at: usize) -> bool
        requires { at < length self.now.tables.entries.items }
        ensures { result ≡ has_blobs_at self.now.tables.entries.items at }
    {
        self.tables.entries[at].table.table().has_blobs()
    }

    /// The place of the row with this key in the table at a place, and none where no record has it. `row` lends the row.
    /// # Errors
    /// Why a page isn't read.
    pub fn get(
        &mut self,
        at: usize,
        key: u64,
        pages: &mut Pages,
    ) -> Result<Option<RowAt>, ReadFault>
        requires at { at < length self.old.tables.entries.items }
        requires running { RunsAt self.old.tables.entries.items at }
        requires lie { LieOn self.old.tables.entries.items (⟦<SimFlash<'m, M> as Flash>⟧.state self.old.flash) }
        requires room { HavePage pages.old (⟦<SimFlash<'m, M> as Flash>⟧.state self.old.flash).geometry.page }
        ensures finds { (config : Config) (tables : List model.Table) (plan : Plan) (table : model.Table) → Holds config self.old.tables.entries.items (⟦<SimFlash<'m, M> as Flash>⟧.state self.old.flash) true tables → Located config tables at plan table →
            GetEnds plan table key pages.new.rows result }
        // Whatever the pages hold: the row that is found has the key; and of a covered key no page that has to be read is bad, or the
        // first bad one is told, as the lookup in the table says.
        ensures key { IfOk result (λ found. (entry : Entry) → slice_get self.old.tables.entries.items at ≡ Some entry → IfSome found (HasKeyAt (table_in entry.table) pages.new.rows key)) }
        ensures answers { IfOk result (λ found. (entry : Entry) → slice_get self.old.tables.entries.items at ≡ Some entry → IsAnswered (table_in entry.table) (⟦<SimFlash<'m, M> as Flash>⟧.state self.old.flash) key found) }
        ensures here { IfOk result (λ found. IfSome found (IsRowIn self.new.tables.entries.items at pages.new.rows)) }
        ensures holds { (config : Config) (tables : List model.Table) → Holds config self.old.tables.entries.items (⟦<SimFlash<'m, M> as Flash>⟧.state self.old.flash) true tables → Holds config self.new.tables.entries.items (⟦<SimFlash<'m, M> as Flash>⟧.state self.new.flash) true tables }
        ensures fails { IfErr result (λ e. (entry : Entry) → slice_get self.old.tables.entries.items at ≡ Some entry → LookupFails (table_in entry.table) (⟦<SimFlash<'m, M> as Flash>⟧.state self.old.flash) e (⟦<SimFlash<'m, M> as Flash>⟧.state self.new.flash)) }
        ensures blames { (entry : Entry) → slice_get self.old.tables.entries.items at ≡ Some entry → is_covered_in (table_in entry.table) key ≡ true → IfErr result (BlamesFor (table_in entry.table) (⟦<SimFlash<'m, M> as Flash>⟧.state self.old.flash) key) }
        ensures reads { OnlyReads (⟦<SimFlash<'m, M> as Flash>⟧.state self.old.flash) (⟦<SimFlash<'m, M> as Flash>⟧.state self.new.flash) }
        ensures same { self.new.tables ≡ self.old.tables }
        ensures lie { LieOn self.new.tables.entries.items (⟦<SimFlash<'m, M> as Flash>⟧.state self.new.flash) }
        ensures room { HavePage pages.new (⟦<SimFlash<'m, M> as Flash>⟧.state self.new.flash).geometry.page }
    {
        let mut steps = Steps::new();
        let table = self.tables.entries[at].table.table();
        table.find(&mut self.flash, key, &mut pages.rows, &mut steps)
    }

    /// The row that `get` found, while neither the table nor the pages changed since.
    pub fn row<'b>(&'b self, at: usize, place: RowAt, pages: &'b Pages) -> RowRef<'b>
        requires at { at < length self.now.tables.entries.items }
        requires here { IsRowIn self.now.tables.entries.items at pages.now.rows place }
        ensures row { (config : Config) (tables : List model.Table) (plan : Plan) (table : model.Table) → Holds config self.now.tables.entries.items (⟦<SimFlash<'m, M> as Flash>⟧.state self.now.flash) true tables → Located config tables at plan table →
            row_of_place plan table pages.now.rows place ≡ Some (row_of result) }
        ensures exact { (entry : Entry) → slice_get self.now.tables.entries.items at ≡ Some entry → row_in (table_in entry.table) pages.now.rows place ≡ Some (row_of result) }
        ensures columns { length (layout_of_row result).columns ≡ columns_at self.now.tables.entries.items at }
    {
        self.tables.entries[at]
            .table
            .table()
            .row_at(&pages.rows, place)
    }
}
