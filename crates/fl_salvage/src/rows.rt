// The rows of pages as lines, page by page.
ghost use Rattle.std.specs.Prelude.{◌≡◌, ◌≤◌, length, IsTrue, IfErr};
ghost use Rattle.std.specs.List.{flat_map};
ghost use Rattle.fl_image.specs.Image.{OnlyLooksAt};
ghost use Rattle.fl_page.specs.View.{layout_of_page, rows_of};
ghost use Rattle.fl_schema.specs.Schema.{layout_of};
ghost use Rattle.fl_script.specs.Written.{Written};
ghost use Rattle.fl_salvage.specs.Faults.{IsCaused};
ghost use Rattle.fl_salvage.specs.Rooms.{HasRooms};
ghost use Rattle.fl_salvage.specs.Text.{form_of, page_text, pages_text, row_text, salvaged_text};

use crate::fault::SalvageFault;
use crate::line::write_row;
use crate::rooms::{BlobRoom, Rooms};
use crate::table_pages::TablePages;
use fl_base::Sink;
use fl_csv::header_line;
use fl_flash::Media;
use fl_page::PageView;
use std::alloc::Global;

/// Writes the lines of the rows of a page, as they stand in it.
fn write_rows<M: Media, K: Sink>(
    alloc: Global,
    table: &TablePages,
    view: &PageView<'_, 8>,
    media: &mut M,
    room: &mut BlobRoom,
    out: &mut K,
) -> Result<(), SalvageFault>
    requires room { length room.old.page.items ≡ table.now.rows.size }
    requires layout { layout_of_page view.now ≡ layout_of table.now.schema }
    ensures looks { OnlyLooksAt (M.state media.old) (M.state media.new) }
    ensures room { length room.new.page.items ≡ table.now.rows.size }
    ensures later { K.faults out.old ≤ K.faults out.new }
    ensures writes { IsTrue (M.state media.old).tells → Written (K.written out.old) (K.written out.new) result (flat_map (row_text (form_of table.now) (M.state media.old).content) (rows_of view.now)) }
    ensures cause { IfErr result (IsCaused (M.state media.old) (M.state media.new) (K.faults out.old) (K.faults out.new)) }
{
    for i in 0..view.rows() {
        write_row(alloc, table, &view.row(i), media, room, out)?;
    }
    Ok(())
}

/// Writes the lines of the page with this number, where the one at its place is such a page.
fn write_page<M: Media, K: Sink>(
    alloc: Global,
    table: &TablePages,
    number: u32,
    media: &mut M,
    rooms: &mut Rooms,
    out: &mut K,
) -> Result<(), SalvageFault>
    requires rooms { HasRooms rooms.old table.now.rows.size }
    ensures looks { OnlyLooksAt (M.state media.old) (M.state media.new) }
    ensures rooms { HasRooms rooms.new table.now.rows.size }
    ensures later { K.faults out.old ≤ K.faults out.new }
    ensures writes { IsTrue (M.state media.old).tells → Written (K.written out.old) (K.written out.new) result (page_text (form_of table.now) (M.state media.old).content number) }
    ensures cause { IfErr result (IsCaused (M.state media.old) (M.state media.new) (K.faults out.old) (K.faults out.new)) }
{
    if !table
        .rows
        .read(number % table.rows.pages, media, &mut rooms.page)?
    {
        return Ok(());
    }
    let Ok(view) = PageView::of(&rooms.page, number, &table.schema) else {
        return Ok(());
    };
    write_rows(alloc, table, &view, media, &mut rooms.blob, out)
}

/// Writes the lines of the pages with these numbers.
fn write_pages<M: Media, K: Sink>(
    alloc: Global,
    table: &TablePages,
    numbers: &[u32],
    media: &mut M,
    rooms: &mut Rooms,
    out: &mut K,
) -> Result<(), SalvageFault>
    requires rooms { HasRooms rooms.old table.now.rows.size }
    ensures looks { OnlyLooksAt (M.state media.old) (M.state media.new) }
    ensures later { K.faults out.old ≤ K.faults out.new }
    ensures writes { IsTrue (M.state media.old).tells → Written (K.written out.old) (K.written out.new) result (pages_text (form_of table.now) (M.state media.old).content numbers.now) }
    ensures cause { IfErr result (IsCaused (M.state media.old) (M.state media.new) (K.faults out.old) (K.faults out.new)) }
{
    for i in 0..numbers.len() {
        write_page(alloc, table, numbers[i], media, rooms, out)?;
    }
    Ok(())
}

/// Writes the line of the names, and the lines of the pages with these numbers.
pub(crate) fn write_table<M: Media, K: Sink>(
    alloc: Global,
    table: &TablePages,
    numbers: &[u32],
    media: &mut M,
    rooms: &mut Rooms,
    out: &mut K,
) -> Result<(), SalvageFault>
    requires rooms { HasRooms rooms.old table.now.rows.size }
    ensures looks { OnlyLooksAt (M.state media.old) (M.state media.new) }
    ensures later { K.faults out.old ≤ K.faults out.new }
    ensures writes { IsTrue (M.state media.old).tells → Written (K.written out.old) (K.written out.new) result (salvaged_text (form_of table.now) (M.state media.old).content numbers.now) }
    ensures cause { IfErr result (IsCaused (M.state media.old) (M.state media.new) (K.faults out.old) (K.faults out.new)) }
{
    header_line(table.schema.columns(), table.schema.has_blobs(), out)?;
    write_pages(alloc, table, numbers, media, rooms, out)
}
