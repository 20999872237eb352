//! A logger of a sensor: it stores readings in an image in memory, closes it, and reads a range again.
#![tactic(auto)]

ghost use Rattle.std.specs.Prelude.{◌≡◌, ◌<◌, length, IfOk, IsTrue};
ghost use Rattle.fl_config.specs.Whole.{is_whole};
ghost use Rattle.fl_cursor.specs.Cursor.{table_of, IsReady};
ghost use Rattle.fl_frame.specs.Contents.{contents_of};
ghost use Rattle.fl_schema.specs.Schema.{layout_of_row};
ghost use Rattle.fl_store.specs.Calls.{HavePage, RunsAt, columns_at};
ghost use Rattle.fl_store.specs.Tables.{LieOn};
ghost use Rattle.fl_table.specs.Look.{layout_in};

use fl_base::KeyRange;
use fl_config::Config;
use fl_flash::{Flash, MemMedia, SimFlash};
use fl_page::RowHere;
use fl_schema::RowRef;
use fl_store::{Cursor, Layout, Pages, Store, StoreFault, config_of, make_image};
use std::alloc::Global;
use std::io;

/// Pages of 512 bytes, eight in a block, and one table. Its keys are seconds, its columns tenths of a degree and percents.
const LINES: &[u8] = b"device 512 8\ntable env 4 i16,u8 64 0 0 16 -200 25 2 0";

const START: u64 = 1_700_000_000;

#[derive(Clone, Copy, Debug)]
struct Reading {
    time: u64,
    tenths: i64,
    percent: i64,
}

impl Reading {
    fn of(row: &RowRef<'_>) -> Reading
        requires { length (layout_of_row row.now).columns ≡ 2 }
    {
        Reading {
            time: row.key(),
            tenths: row.value(0),
            percent: row.value(1),
        }
    }
}

/// Makes the image, and stores readings in it. The store is closed at the end, and what is in memory alone is lost.
fn store(alloc: Global, config: &Config, media: &mut MemMedia) -> Result<(), StoreFault>
    requires { IsTrue (is_whole config.now) }
{
    let layout = Layout::new(alloc, config)?;
    let mut pages = Pages::new(alloc, config.geometry().page)?;
    let is_new = make_image(config, media)?;
    let mut store = Store::over(media, config, is_new, layout);
    let end = put_three(&mut store, &mut pages);
    let _media = store.close();
    end
}

/// Mounts the store, and finds the table of the readings in it.
fn ready<'m>(store: &mut Store<'m, MemMedia>, pages: &mut Pages) -> Result<usize, StoreFault>
    requires lie { LieOn store.old.tables.entries.items (⟦<SimFlash<'m, MemMedia> as Flash>⟧.state store.old.flash) }
    requires room { HavePage pages.old (⟦<SimFlash<'m, MemMedia> as Flash>⟧.state store.old.flash).geometry.page }
    ensures at { IfOk result (λ at. at < length store.new.tables.entries.items) }
    ensures running { IfOk result (λ at. RunsAt store.new.tables.entries.items at) }
    ensures columns { IfOk result (λ at. columns_at store.new.tables.entries.items at ≡ 2) }
    ensures lie { LieOn store.new.tables.entries.items (⟦<SimFlash<'m, MemMedia> as Flash>⟧.state store.new.flash) }
    ensures room { HavePage pages.new (⟦<SimFlash<'m, MemMedia> as Flash>⟧.state store.new.flash).geometry.page }
{
    store.mount(pages)?;
    let Some(env) = store.find(b"env") else {
        return Err(StoreFault::Config);
    };
    if store.columns(env) != 2 {
        return Err(StoreFault::Config);
    }
    Ok(env)
}

/// Puts three readings and flushes two. The third waits in memory.
fn put_three<'m>(store: &mut Store<'m, MemMedia>, pages: &mut Pages) -> Result<(), StoreFault>
    requires lie { LieOn store.old.tables.entries.items (⟦<SimFlash<'m, MemMedia> as Flash>⟧.state store.old.flash) }
    requires room { HavePage pages.old (⟦<SimFlash<'m, MemMedia> as Flash>⟧.state store.old.flash).geometry.page }
{
    let env = ready(store, pages)?;
    store.put(env, START, &[-31, 52], None)?;
    store.put(env, START + 60, &[-30, 52], None)?;
    store.flush(env)?;
    store.put(env, START + 120, &[-29, 53], None)?;
    Ok(())
}

/// The next readings that a cursor finds, at most so many.
fn collect<F: Flash>(
    alloc: Global,
    found: &mut Cursor<'_, '_, '_>,
    flash: &mut F,
    most: usize,
) -> Result<Vec<Reading>, StoreFault>
    requires ready { IsReady found.old (contents_of (F.state flash.old)) }
    requires columns { length (layout_in (table_of found.old)).columns ≡ 2 }
{
    let mut readings = Vec::new(alloc);
    for _ in 0..most {
        if !found.advance(flash)? {
            return Ok(readings);
        }
        readings.push(Reading::of(&found.row()))?;
    }
    Ok(readings)
}

/// The readings of the first hour that a mount finds, one a minute.
fn first_hour<'m>(
    alloc: Global,
    store: &mut Store<'m, MemMedia>,
    pages: &mut Pages,
) -> Result<Vec<Reading>, StoreFault>
    requires lie { LieOn store.old.tables.entries.items (⟦<SimFlash<'m, MemMedia> as Flash>⟧.state store.old.flash) }
    requires room { HavePage pages.old (⟦<SimFlash<'m, MemMedia> as Flash>⟧.state store.old.flash).geometry.page }
{
    let env = ready(store, pages)?;
    let hour = KeyRange {
        low: START,
        high: START + 3_600,
    };
    let tables = &store.tables;
    let mut found = tables.scan(env, hour, None, &mut pages.rows, &mut pages.index);
    collect(alloc, &mut found, &mut store.flash, 60)
}

/// Opens the image again, and reads what was stored.
fn read(alloc: Global, config: &Config, media: &mut MemMedia) -> Result<Vec<Reading>, StoreFault>
    requires { IsTrue (is_whole config.now) }
{
    let layout = Layout::new(alloc, config)?;
    let mut pages = Pages::new(alloc, config.geometry().page)?;
    let is_new = make_image(config, media)?;
    let mut store = Store::over(media, config, is_new, layout);
    let readings = first_hour(alloc, &mut store, &mut pages);
    let _media = store.close();
    readings
}

fn log(alloc: Global) -> Result<Vec<Reading>, StoreFault> {
    let config = config_of(alloc, LINES)?;
    let mut media = MemMedia::new(alloc, Vec::new(alloc), config.image_len() as usize)?;
    store(alloc, &config, &mut media)?;
    read(alloc, &config, &mut media)
}

fn main(rt: HostRuntime) -> io::Result<()> {
    match log(rt.alloc()) {
        Ok(readings) => {
            for reading in &readings {
                println!(rt; "{} {} {}", reading.time, reading.tenths, reading.percent)?;
            }
        }
        Err(fault) => println!(rt; "{fault:?}")?,
    }
    Ok(())
}
