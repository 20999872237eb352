// The map of a table: its rings, and what a check finds.
ghost use Rattle.std.specs.Prelude.{◌≡◌, ◌≤◌, ◌<◌, ◌+◌, ◌*◌, ◌^◌, length, IsTrue, IfSome, IfErr, OnOk};
ghost use Rattle.fl_frame.specs.Reads.{OnlyLooks};
ghost use Rattle.fl_check.specs.Whole.{Fits, LogFits};
ghost use Rattle.fl_flash.specs.Flash.{page_at};
ghost use Rattle.fl_map.specs.Canvas.{drawn_of};
ghost use Rattle.fl_map.specs.Table.{with_place, with_place_if, with_rings, with_fault};
ghost use Rattle.fl_map.specs.Reading.{FailsBy};

use crate::canvas::Canvas;
use crate::fault::MapFault;
use crate::finding::{add_fault, add_title, fault_page};
use crate::ring::{Which, read_ring};
use fl_base::{Name, NoMemory, RingPlace};
use fl_check::{Finding, RingName};
use fl_flash::{Flash, PageBuf};
use fl_mark::PageState;
use fl_plan::TableConfig;
use fl_script::TextLine;

/// Room for a page, and for the states of the pages of a ring.
#[derive(Drop)]
pub(crate) struct Rooms {
    pub(crate) page: PageBuf,
    pub(crate) states: Vec<PageState>,
}

/// A table with its name and what a check finds of it.
#[derive(Clone, Copy)]
pub(crate) struct Checked<'t> {
    pub(crate) name: &'t Name,
    pub(crate) config: &'t TableConfig,
    pub(crate) log: Option<RingPlace>,
    pub(crate) finding: &'t Finding,
}

/// Draws the ring of a table at this place.
fn draw_ring<F: Flash>(
    table: &Checked<'_>,
    ring: RingName,
    place: RingPlace,
    row_len: Option<u32>,
    flash: &mut F,
    rooms: &mut Rooms,
    canvas: &mut Canvas,
) -> Result<(), MapFault>
    requires fits { Fits table.now.config.now (F.state flash.old) }
    requires blocks { 3 ≤ place.blocks }
    requires lies { place.first_block + place.blocks ≤ (F.state flash.old).blocks }
    requires room { length rooms.old.page.bytes ≡ table.now.config.now.geometry.page }
    requires short { IfSome row_len (λ n. n ≤ 82) }
    requires top { canvas.old.top + 20 < 2 ^ 40 }
    ensures looks { OnlyLooks (F.state flash.old) (F.state flash.new) }
    ensures room { length rooms.new.page.bytes ≡ table.now.config.now.geometry.page }
    ensures drawing { canvas.new.drawing ≡ canvas.old.drawing }
    ensures drawn { OnOk result (IsTrue (F.state flash.old).media.tells → drawn_of canvas.new ≡
        with_place canvas.old.drawing table.now.name.now table.now.config.now (page_at (F.state flash.old)) table.now.finding.now ring row_len place (drawn_of canvas.old)) }
    ensures top { canvas.new.top ≤ canvas.old.top + 15 * 2 ^ 32 }
    ensures fails { IfErr result (λ e. FailsBy (F.state flash.old) e (F.state flash.new)) }
{
    let which = Which {
        place,
        row_len,
        fault: fault_page(table.finding),
    };
    let note = read_ring(which, flash, &mut rooms.page, &mut rooms.states)?;
    let mut line = TextLine::new();
    add_title(&mut line, table.name, ring);
    canvas.add_ring(&mut line, &note, &rooms.states)?;
    Ok(())
}

/// Draws a ring that a table may not have.
fn draw_ring_if<F: Flash>(
    table: &Checked<'_>,
    ring: RingName,
    place: Option<RingPlace>,
    flash: &mut F,
    rooms: &mut Rooms,
    canvas: &mut Canvas,
) -> Result<(), MapFault>
    requires fits { Fits table.now.config.now (F.state flash.old) }
    requires lies { IfSome place (λ at. (3 ≤ at.blocks) × (at.first_block + at.blocks ≤ (F.state flash.old).blocks)) }
    requires room { length rooms.old.page.bytes ≡ table.now.config.now.geometry.page }
    requires top { canvas.old.top + 20 < 2 ^ 40 }
    ensures looks { OnlyLooks (F.state flash.old) (F.state flash.new) }
    ensures room { length rooms.new.page.bytes ≡ table.now.config.now.geometry.page }
    ensures drawing { canvas.new.drawing ≡ canvas.old.drawing }
    ensures drawn { OnOk result (IsTrue (F.state flash.old).media.tells → drawn_of canvas.new ≡
        with_place_if canvas.old.drawing table.now.name.now table.now.config.now (page_at (F.state flash.old)) table.now.finding.now ring place (drawn_of canvas.old)) }
    ensures top { canvas.new.top ≤ canvas.old.top + 15 * 2 ^ 32 }
    ensures fails { IfErr result (λ e. FailsBy (F.state flash.old) e (F.state flash.new)) }
{
    match place {
        Some(place) => draw_ring(table, ring, place, None, flash, rooms, canvas),
        None => Ok(()),
    }
}

/// Draws the rings of a table: its data, its index, its variable data and its log.
pub(crate) fn draw_rings<F: Flash>(
    table: &Checked<'_>,
    flash: &mut F,
    rooms: &mut Rooms,
    canvas: &mut Canvas,
) -> Result<(), MapFault>
    requires fits { Fits table.now.config.now (F.state flash.old) }
    requires log { LogFits table.now.log (F.state flash.old) }
    requires room { length rooms.old.page.bytes ≡ table.now.config.now.geometry.page }
    requires top { canvas.old.top + 2 ^ 38 < 2 ^ 40 }
    ensures looks { OnlyLooks (F.state flash.old) (F.state flash.new) }
    ensures room { length rooms.new.page.bytes ≡ table.now.config.now.geometry.page }
    ensures drawing { canvas.new.drawing ≡ canvas.old.drawing }
    ensures drawn { OnOk result (IsTrue (F.state flash.old).media.tells → drawn_of canvas.new ≡
        with_rings canvas.old.drawing table.now.name.now table.now.config.now table.now.log (page_at (F.state flash.old)) table.now.finding.now (drawn_of canvas.old)) }
    ensures top { canvas.new.top ≤ canvas.old.top + 60 * 2 ^ 32 }
    ensures fails { IfErr result (λ e. FailsBy (F.state flash.old) e (F.state flash.new)) }
{
    let config = table.config;
    let row_len = Some(config.row_len());
    draw_ring(
        table,
        RingName::Data,
        config.rows,
        row_len,
        flash,
        rooms,
        canvas,
    )?;
    draw_ring_if(table, RingName::Index, config.index, flash, rooms, canvas)?;
    draw_ring_if(table, RingName::Var, config.var, flash, rooms, canvas)?;
    draw_ring_if(table, RingName::Log, table.log, flash, rooms, canvas)?;
    Ok(())
}

/// Draws the page that breaks a rule, where one does.
pub(crate) fn draw_fault(
    name: &Name,
    finding: &Finding,
    canvas: &mut Canvas,
) -> Result<(), NoMemory>
    requires { canvas.old.top + 28 < 2 ^ 40 }
    ensures drawing { canvas.new.drawing ≡ canvas.old.drawing }
    ensures drawn { OnOk result (drawn_of canvas.new ≡ with_fault canvas.old.drawing name.now finding.now (drawn_of canvas.old)) }
    ensures top { canvas.new.top ≤ canvas.old.top + 28 }
{
    let Finding::Fault { ring, page, rule } = *finding else {
        return Ok(());
    };
    let mut line = TextLine::new();
    add_fault(&mut line, name, ring, page, rule);
    canvas.add_words(line.bytes())
}
