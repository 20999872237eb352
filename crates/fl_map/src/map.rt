// The map of an image.
ghost use Rattle.std.specs.Prelude.{◌≡◌, ◌≤◌, ◌<◌, ◌⊎◌, ◌+◌, ◌*◌, ◌^◌, Err, length, IsTrue, IfOk, IfErr, OnOk};
ghost use Rattle.fl_base.specs.Causes.{Appends, AppendsFront, Rose};
ghost use Rattle.fl_flash.specs.Flash.{pages};
ghost use Rattle.fl_frame.specs.Reads.{OnlyLooks};
ghost use Rattle.fl_image_check.specs.Checking.{IsOver};
ghost use Rattle.fl_image.specs.Image.{OnlyLooksAt};
ghost use Rattle.fl_image.specs.declared.status.ToolStatus.{ToolStatus};
ghost use Rattle.fl_map.specs.Canvas.{drawn_of};
ghost use Rattle.fl_map.specs.Drawn.{map_text, no_tables};
ghost use Rattle.fl_map.specs.Map.{AreDrawn, IsDrawnNext, MapEnds, status_of};

use crate::Drawing;
use crate::canvas::Canvas;
use crate::fault::MapFault;
use crate::table::{Checked, Rooms, draw_fault, draw_rings};
use fl_base::{NoMemory, Sink};
use fl_check::{CheckFault, check_table};
use fl_config::Config;
use fl_flash::{Flash, FlashRoom, Media, PageBuf, SimFlash};
use fl_image::{HEADER, ToolStatus, config_of_image};
use fl_script::LineRoom;
use std::alloc::Global;

/// The bytes that a map of so many pages takes, or somewhat more: for each a letter and what stands between letters, or a
/// square.
fn room_for(drawing: Drawing, pages: usize) -> usize
    requires { pages < 2 ^ 32 }
    ensures { result < 2 ^ 40 }
{
    match drawing {
        Drawing::Text => 4096 + pages * 2,
        Drawing::Svg => 4096 + pages * 104,
    }
}

/// The pages of a flash.
fn pages_of<F: Flash>(flash: &F) -> usize
    requires { pages (F.state flash.now) < 2 ^ 32 }
    ensures { result ≡ pages (F.state flash.now) }
{
    flash.blocks() as usize * flash.geometry().block as usize
}

/// The status of a map that isn't drawn.
fn status_of(fault: MapFault) -> ToolStatus
    ensures { result ≡ status_of fault }
{
    match fault {
        MapFault::Flash(_) => ToolStatus::Device,
        MapFault::NoMemory => ToolStatus::NoMemory,
    }
}

/// Checks a table, by its number from 0, and draws it.
fn draw_table<F: Flash>(
    alloc: Global,
    config: &Config,
    i: usize,
    flash: &mut F,
    rooms: &mut Rooms,
    canvas: &mut Canvas,
) -> Result<(), ToolStatus>
    requires table { i < length config.now.plans }
    requires over { IsOver config.now (F.state flash.old) }
    requires room { length rooms.old.page.bytes ≡ (F.state flash.old).geometry.page }
    requires top { canvas.old.top + 2 ^ 38 < 2 ^ 40 }
    ensures looks { OnlyLooks (F.state flash.old) (F.state flash.new) }
    ensures room { length rooms.new.page.bytes ≡ (F.state flash.old).geometry.page }
    ensures drawing { canvas.new.drawing ≡ canvas.old.drawing }
    ensures drawn { OnOk result (IsTrue (F.state flash.old).media.tells → IsDrawnNext canvas.old.drawing config.now (F.state flash.old).media.content i (drawn_of canvas.old) (drawn_of canvas.new)) }
    ensures top { canvas.new.top ≤ canvas.old.top + (60 * 2 ^ 32 + 28) }
    ensures device { result ≡ Err ToolStatus.Device → Rose (F.state flash.old).media.faults (F.state flash.new).media.faults }
    ensures statuses { IfErr result (λ status. (status ≡ ToolStatus.NoMemory) ⊎ (status ≡ ToolStatus.Device)) }
{
    let name = config.name(i);
    let table = config.table(i);
    let log = config.log(i);
    let finding = match check_table(alloc, flash, table, log) {
        Ok(finding) => finding,
        Err(CheckFault::Flash(_)) => return Err(ToolStatus::Device),
        Err(CheckFault::NoMemory) => return Err(ToolStatus::NoMemory),
    };
    let checked = Checked {
        name: &name,
        config: table,
        log,
        finding: &finding,
    };
    match draw_rings(&checked, flash, rooms, canvas) {
        Ok(()) => {}
        Err(fault) => return Err(status_of(fault)),
    }
    match draw_fault(&name, &finding, canvas) {
        Ok(()) => Ok(()),
        Err(_) => Err(ToolStatus::NoMemory),
    }
}

/// Draws the tables in their order.
fn draw_tables<F: Flash>(
    alloc: Global,
    config: &Config,
    flash: &mut F,
    rooms: &mut Rooms,
    canvas: &mut Canvas,
) -> Result<(), ToolStatus>
    requires over { IsOver config.now (F.state flash.old) }
    requires room { length rooms.old.page.bytes ≡ (F.state flash.old).geometry.page }
    requires fresh { drawn_of canvas.old ≡ no_tables canvas.old.drawing }
    ensures looks { OnlyLooks (F.state flash.old) (F.state flash.new) }
    ensures drawing { canvas.new.drawing ≡ canvas.old.drawing }
    ensures drawn { OnOk result (IsTrue (F.state flash.old).media.tells → AreDrawn canvas.old.drawing config.now (F.state flash.old).media.content (length config.now.plans) (drawn_of canvas.new)) }
    ensures device { result ≡ Err ToolStatus.Device → Rose (F.state flash.old).media.faults (F.state flash.new).media.faults }
    ensures statuses { IfErr result (λ status. (status ≡ ToolStatus.NoMemory) ⊎ (status ≡ ToolStatus.Device)) }
{
    for i in 0..config.tables() {
        draw_table(alloc, config, i, flash, rooms, canvas)?;
    }
    Ok(())
}

/// The rooms for so many pages of so many bytes.
fn rooms_for(alloc: Global, size: u32, pages: usize) -> Result<Rooms, NoMemory>
    ensures { IfOk result (λ rooms. length rooms.page.bytes ≡ size) }
{
    Ok(Rooms {
        page: PageBuf::new(alloc, size)?,
        states: Vec::with_capacity(alloc, pages)?,
    })
}

/// Draws the map of the image whose pages are on a flash.
fn draw_image<F: Flash>(
    alloc: Global,
    drawing: Drawing,
    config: &Config,
    flash: &mut F,
) -> Result<Canvas, ToolStatus>
    requires over { IsOver config.now (F.state flash.old) }
    ensures looks { OnlyLooks (F.state flash.old) (F.state flash.new) }
    ensures drawing { IfOk result (λ canvas. canvas.drawing ≡ drawing) }
    ensures drawn { IfOk result (λ canvas. IsTrue (F.state flash.old).media.tells → AreDrawn drawing config.now (F.state flash.old).media.content (length config.now.plans) (drawn_of canvas)) }
    ensures device { result ≡ Err ToolStatus.Device → Rose (F.state flash.old).media.faults (F.state flash.new).media.faults }
    ensures statuses { IfErr result (λ status. (status ≡ ToolStatus.NoMemory) ⊎ (status ≡ ToolStatus.Device)) }
{
    let pages = pages_of(flash);
    let size = flash.geometry().page;
    let Ok(mut rooms) = rooms_for(alloc, size, pages) else {
        return Err(ToolStatus::NoMemory);
    };
    let Ok(mut canvas) = Canvas::new(alloc, drawing, room_for(drawing, pages)) else {
        return Err(ToolStatus::NoMemory);
    };
    draw_tables(alloc, config, flash, &mut rooms, &mut canvas)?;
    Ok(canvas)
}

/// Writes what is drawn.
fn write_map<K: Sink>(canvas: &Canvas, per_block: u32, out: &mut K) -> ToolStatus
    requires { 1 ≤ per_block }
    ensures done { result ≡ ToolStatus.Done → Appends (K.written out.old) (K.written out.new) (map_text canvas.now.drawing per_block (drawn_of canvas.now)) }
    ensures part { result ≡ ToolStatus.OutWrite → AppendsFront (K.written out.old) (K.written out.new) (map_text canvas.now.drawing per_block (drawn_of canvas.now)) }
    ensures statuses { (result ≡ ToolStatus.Done) ⊎ (result ≡ ToolStatus.OutWrite) }
    ensures write { result ≡ ToolStatus.OutWrite → Rose (K.faults out.old) (K.faults out.new) }
    ensures later { K.faults out.old ≤ K.faults out.new }
{
    match canvas.write(per_block, out) {
        Ok(()) => ToolStatus::Done,
        Err(_) => ToolStatus::OutWrite,
    }
}

/// Writes the map of the image on a medium: for each ring of each table what its pages tell and the state of each, and for
/// each table the page that a check finds to break a rule. The image is read whole before anything is written. It mounts no
/// table, and changes nothing.
pub fn map_image<M: Media, K: Sink>(
    alloc: Global,
    drawing: Drawing,
    media: &mut M,
    out: &mut K,
) -> ToolStatus
    // What is written is the map of these bytes, or a front of it where the sink fails; else nothing.
    ensures ends { IsTrue (M.state media.old).tells → MapEnds drawing (M.state media.old).content (K.written out.old) (K.written out.new) result }
    ensures looks { OnlyLooksAt (M.state media.old) (M.state media.new) }

    // Statuses have their causes.
    ensures device { result ≡ ToolStatus.Device → Rose (M.state media.old).faults (M.state media.new).faults }
    ensures write { result ≡ ToolStatus.OutWrite → Rose (K.faults out.old) (K.faults out.new) }
    ensures later { K.faults out.old ≤ K.faults out.new }
{
    let Ok(mut lines) = LineRoom::new(alloc) else {
        return ToolStatus::NoMemory;
    };
    let config = match config_of_image(media, &mut lines) {
        Ok(config) => config,
        Err(status) => return status,
    };
    let geometry = config.geometry();
    let blocks = config.blocks();
    let Ok(room) = FlashRoom::new(alloc, geometry, blocks) else {
        return ToolStatus::NoMemory;
    };
    let mut flash = SimFlash::with_room(media, geometry, blocks, HEADER as u64, room);
    let drawn = draw_image(alloc, drawing, &config, &mut flash);
    let _media = flash.into_media();
    match drawn {
        Ok(canvas) => write_map(&canvas, geometry.block, out),
        Err(status) => status,
    }
}
