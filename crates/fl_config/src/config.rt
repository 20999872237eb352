// The configuration so far.
ghost use Rattle.std.specs.Prelude.{◌≡◌, ◌+◌, ◌<◌, ◌≤◌, false, Some, None, IsTrue, IfSome, length, map, slice_get, take, sum_by, ℕ, is_some};
ghost use Rattle.fl_model.specs.Bare.{bare};
ghost use Rattle.fl_model.specs.Record.{blocks_of};
ghost use Rattle.fl_model.specs.Record.{Config as Configured};
ghost use Rattle.fl_model.specs.Image.{medium_len};
ghost use Rattle.fl_words.specs.Config.{too_large, whole};
ghost use Rattle.fl_plan.specs.Plan.{IsConfigOf, IsRingAt};
ghost use Rattle.fl_plan.specs.Limits.{IsWithin, IsRingSize, IsWithinLimits};
ghost use Rattle.fl_plan.specs.Refusal.{config_fault};

use crate::entry::Entry;
use crate::taking::{device_of, table_of};
use crate::words::TableWords;
use arrayvec::ArrayVec;
use fl_base::{Geometry, Name, RingPlace};
use fl_plan::{ConfigRefusal, TableConfig};
use fl_script::{Command, LineRoom};
use std::marker::Model;

/// The bytes in front of the pages of an image.
pub(crate) const HEADER: usize = 1024;

/// The configuration that the lines so far make: a device, and up to four tables.
#[derive(Drop)]
pub struct Config {
    device: Option<Geometry>,
    tables: ArrayVec<Entry, 4>,
    // The blocks of all rings.
    device_blocks: u32,
}

impl Model for Config {
    ghost use Rattle.std.specs.Prelude.{map};
    ghost use Rattle.fl_words.specs.Config.{Lines};
    ghost use Rattle.fl_config.specs.Entry.{plan_in};
    ghost use Rattle.fl_config.specs.Standing.{AreLines};

    ghost Value = { Lines };

    ghost view = { λ c. record { device = c.device; plans = map plan_in c.tables.items } };

    ghost invariant = { λ c. AreLines c.device c.device_blocks c.tables.items };
}

impl Config {
    ghost use Rattle.fl_script.specs.CommandView.{command_view};
    ghost use Rattle.fl_words.specs.Config.{no_lines};
    ghost use Rattle.fl_config.specs.Taking.{Takes};
    ghost use Rattle.fl_config.specs.Entry.{plan_in};
    ghost use Rattle.fl_config.specs.Words.{line_of};
    ghost use Rattle.fl_words.specs.Command as words;
    ghost use Rattle.fl_config.specs.Whole.{is_whole, Makes};

    /// No line yet.
    pub fn new() -> Config
        ensures { result ≡ no_lines }
    {
        Config {
            device: None,
            tables: ArrayVec::new(),
            device_blocks: 0,
        }
    }

    /// Takes one more line, with the room as the line was read into it. A refusal is the first that applies, and
    /// changes nothing. A line that is neither a device nor a table line changes nothing either.
    pub fn add(&mut self, line: &Command, room: &LineRoom) -> Result<(), ConfigRefusal>
        ensures { Takes self.old (command_view line.now room.now) result self.new }
    {
        match line {
            Command::Device { page, block } => self.add_device(*page, *block),
            Command::Table {
                name,
                key,
                rows,
                index,
                var,
                bits,
                base,
                width,
                error,
                blob,
                full,
                log,
            } => self.add_table(&TableWords {
                name: *name,
                key: *key,
                columns: room.bytes(),
                rows: *rows,
                index: *index,
                var: *var,
                bits: *bits,
                base: *base,
                width: *width,
                error: *error,
                blob: *blob,
                full: *full,
                log: *log,
            }),
            _ => Ok(()),
        }
    }

    pub(crate) fn entries(&self) -> &[Entry]
        ensures plans { map plan_in result.now ≡ self.now.plans }
        ensures few { length result.now ≤ 4 }
    {
        self.tables.as_slice()
    }

    pub(crate) fn add_device(&mut self, page: u64, block: u64) -> Result<(), ConfigRefusal>
        ensures { Takes self.old (words.Device page block) result self.new }
    {
        if self.device.is_some() {
            return Err(ConfigRefusal::DeviceTwice);
        }
        self.device = Some(device_of(page, block)?);
        Ok(())
    }

    pub(crate) fn add_table(&mut self, line: &TableWords) -> Result<(), ConfigRefusal>
        ensures { Takes self.old (words.Table (line_of line.now)) result self.new }
    {
        let Some(geometry) = self.device else {
            return Err(ConfigRefusal::TableFirst);
        };
        let table = table_of(geometry, &self.tables, self.device_blocks, line)?;
        self.device_blocks += table.config.blocks() as u32 + table.log_blocks();
        self.tables.push(table);
        Ok(())
    }

    /// Whether there are a device line and a table line at least.
    pub fn is_complete(&self) -> bool
        ensures exact { result ≡ is_whole self.now }
        ensures whole { (knots : ℕ) → result ≡ is_some (whole knots self.now) }
    {
        self.device.is_some() && !self.tables.is_empty()
    }

    /// Bytes per page and pages per block.
    pub fn geometry(&self) -> Geometry
        requires { IsTrue (is_whole self.now) }
        ensures device { self.now.device ≡ Some result }
        ensures within { IsWithin result }
    {
        self.device.unwrap()
    }

    /// The blocks of the device: those of all rings.
    pub fn blocks(&self) -> u32
        ensures exact { result ≡ sum_by blocks_of self.now.plans }
        ensures fits { IfSome self.now.device (λ geometry. too_large geometry self.now.plans ≡ false) }
    {
        self.device_blocks
    }

    /// The bytes of an image: the header and each page of the device.
    pub fn image_len(&self) -> u64
        requires { IsTrue (is_whole self.now) }
        ensures exact { (config : Configured) → Makes self.now config → result ≡ medium_len config }
        ensures least { HEADER ≤ result }
        ensures most { result ≤ 67109888 }
    {
        let geometry = self.geometry();
        HEADER as u64
            + u64::from(self.blocks()) * u64::from(geometry.block) * u64::from(geometry.page)
    }

    /// How many tables there are, at most four.
    pub fn tables(&self) -> usize
        ensures exact { result ≡ length self.now.plans }
        ensures few { result ≤ 4 }
    {
        self.tables.len()
    }

    /// The name of a table, by its number from 0.
    pub fn name(&self, i: usize) -> Name
        requires { i < length self.now.plans }
        ensures { IfSome (slice_get self.now.plans i) (λ plan. result ≡ plan.name) }
    {
        self.tables.as_slice()[i].name
    }

    /// A table without its log, by its number from 0. Its rings stand behind those of the tables before it, without gaps.
    pub fn table(&self, i: usize) -> &TableConfig
        requires { i < length self.now.plans }
        ensures plan { IfSome (slice_get self.now.plans i) (λ plan. IsConfigOf result.now (bare plan)) }
        ensures first { result.now.rows.first_block ≡ sum_by blocks_of (take i self.now.plans) }
        ensures device { self.now.device ≡ Some result.now.geometry }
        ensures limits { IsWithinLimits result.now }
        ensures passes { config_fault result.now ≡ None }
    {
        &self.tables.as_slice()[i].config
    }

    /// The place of the log of a table, by the table's number from 0: behind its other rings. None where it has no log.
    pub fn log(&self, i: usize) -> Option<RingPlace>
        requires { i < length self.now.plans }
        ensures place { IfSome (slice_get self.now.plans i) (λ plan. IsRingAt result (sum_by blocks_of (take i self.now.plans) + plan.data_blocks + plan.index_blocks + plan.var_blocks) plan.log_blocks) }
        ensures size { IfSome result IsRingSize }
        ensures blobs { IfSome (slice_get self.now.plans i) (λ plan. IfSome result (λ place. plan.var_blocks ≡ 0)) }
    {
        self.tables.as_slice()[i].log
    }
}
