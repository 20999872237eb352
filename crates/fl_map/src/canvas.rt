// A map that is drawn into memory, ring by ring.
ghost use Rattle.std.specs.Prelude.{◌≡◌, ◌≤◌, ◌<◌, ◌+◌, ◌*◌, ◌^◌, ◌++◌, [], length, IfOk, OnOk};
ghost use Rattle.fl_base.specs.Causes.{HasCause};
ghost use Rattle.fl_script.specs.Written.{Written};
ghost use Rattle.fl_map.specs.Canvas.{drawn_of};
ghost use Rattle.fl_map.specs.Drawn.{cell_text, cells_to, caption, ring_end, with_ring, with_words, no_tables, width_of, opening, closing, map_text};

use crate::Drawing;
use crate::note::RingNote;
use crate::picture::{add_intro, add_opening, add_square, add_words};
use crate::text::{add_letter, legend};
use crate::words::{add_note, line_pages};
use fl_base::{NoMemory, Sink, SinkFailed};
use fl_mark::PageState;
use fl_script::{TextLine, write_all};
use std::alloc::Global;

/// What is drawn so far, and where the next ring begins in a picture.
#[derive(Drop)]
pub(crate) struct Canvas {
    drawing: Drawing,
    text: Vec<u8>,
    top: usize,
}

/// The i-th page of a ring whose pages begin at `top`.
fn add_cell(
    line: &mut TextLine,
    drawing: Drawing,
    note: &RingNote,
    top: usize,
    i: usize,
    state: PageState,
)
    requires empty { line.old ≡ [] }
    requires some { 1 ≤ note.now.per_block }
    requires few { i < 2 ^ 32 }
    requires top { top < 2 ^ 40 }
    ensures { line.new ≡ cell_text drawing note.now top i state }
{
    match drawing {
        Drawing::Text => add_letter(line, note, i, state),
        Drawing::Svg => add_square(line, note, top, i, state),
    }
}

/// Each page of a ring whose pages begin at `top`.
fn add_cells(
    text: &mut Vec<u8>,
    drawing: Drawing,
    note: &RingNote,
    top: usize,
    states: &[PageState],
) -> Result<(), NoMemory>
    requires some { 1 ≤ note.now.per_block }
    requires few { length states.now < 2 ^ 32 }
    requires top { top < 2 ^ 40 }
    ensures { OnOk result (text.new.items ≡ text.old.items ++ cells_to drawing note.now top states.now (length states.now)) }
{
    for i in 0..states.len() {
        let mut line = TextLine::new();
        add_cell(&mut line, drawing, note, top, i, states[i]);
        text.extend_from_slice(line.bytes())?;
    }
    Ok(())
}

/// A line of words.
fn add_caption(
    text: &mut Vec<u8>,
    drawing: Drawing,
    top: usize,
    words: &[u8],
) -> Result<(), NoMemory>
    requires short { length words.now ≤ 128 }
    requires top { top < 2 ^ 40 }
    ensures { OnOk result (text.new.items ≡ text.old.items ++ caption drawing top words.now) }
{
    let mut line = TextLine::new();
    match drawing {
        Drawing::Text => {
            line.add(words);
            line.add(b"\n");
        }
        Drawing::Svg => add_words(&mut line, top, words),
    }
    text.extend_from_slice(line.bytes())?;
    Ok(())
}

fn ring_end(drawing: Drawing) -> &'static [u8]
    ensures { result.now ≡ ring_end drawing }
{
    match drawing {
        Drawing::Text => b"\n",
        Drawing::Svg => b"",
    }
}

fn closing(drawing: Drawing) -> &'static [u8]
    ensures { result.now ≡ closing drawing }
{
    match drawing {
        Drawing::Text => legend(),
        Drawing::Svg => b"</svg>\n",
    }
}

/// The width of a picture.
fn width_of(per_block: u32) -> usize
    requires { 1 ≤ per_block }
    ensures { result ≡ width_of per_block }
{
    let pages = line_pages(per_block);
    (40 + pages * 12 + pages / per_block as usize * 6).max(600)
}

fn add_opening_of(line: &mut TextLine, drawing: Drawing, per_block: u32, height: usize)
    requires empty { line.old ≡ [] }
    requires some { 1 ≤ per_block }
    ensures { line.new ≡ opening drawing per_block height }
{
    match drawing {
        Drawing::Text => {}
        Drawing::Svg => add_opening(line, width_of(per_block), height),
    }
}

impl Canvas {
    /// A canvas on which no table is drawn, with room for so many bytes.
    pub(crate) fn new(alloc: Global, drawing: Drawing, room: usize) -> Result<Canvas, NoMemory>
        ensures drawing { IfOk result (λ canvas. canvas.drawing ≡ drawing) }
        ensures drawn { IfOk result (λ canvas. drawn_of canvas ≡ no_tables drawing) }
    {
        let mut text = Vec::with_capacity(alloc, room)?;
        match drawing {
            Drawing::Text => {}
            Drawing::Svg => add_intro(&mut text)?,
        }
        Ok(Canvas {
            drawing,
            text,
            top: 48,
        })
    }

    /// One ring more, whose line begins with the words that stand in a line.
    pub(crate) fn add_ring(
        &mut self,
        line: &mut TextLine,
        note: &RingNote,
        states: &[PageState],
    ) -> Result<(), NoMemory>
        requires title { length line.old ≤ 16 }
        requires some { 1 ≤ note.now.per_block }
        requires few { length states.now < 2 ^ 32 }
        requires top { self.old.top + 20 < 2 ^ 40 }
        ensures drawing { self.new.drawing ≡ self.old.drawing }
        ensures drawn { OnOk result (drawn_of self.new ≡ with_ring self.old.drawing line.old note.now states.now (drawn_of self.old)) }
        ensures top { self.new.top ≤ self.old.top + 15 * 2 ^ 32 }
    {
        add_note(line, note);
        add_caption(&mut self.text, self.drawing, self.top, line.bytes())?;
        add_cells(&mut self.text, self.drawing, note, self.top + 20, states)?;
        self.text.extend_from_slice(ring_end(self.drawing))?;
        self.top += 48 + states.len() / line_pages(note.per_block) * 14;
        Ok(())
    }

    /// A line of words below it.
    pub(crate) fn add_words(&mut self, words: &[u8]) -> Result<(), NoMemory>
        requires short { length words.now ≤ 128 }
        requires top { self.old.top + 28 < 2 ^ 40 }
        ensures drawing { self.new.drawing ≡ self.old.drawing }
        ensures drawn { OnOk result (drawn_of self.new ≡ with_words self.old.drawing words.now (drawn_of self.old)) }
        ensures top { self.new.top ≤ self.old.top + 28 }
    {
        add_caption(&mut self.text, self.drawing, self.top, words)?;
        self.top += 28;
        Ok(())
    }

    /// Writes the map of an image whose blocks have so many pages. Where the sink fails a front of it was written.
    pub(crate) fn write<K: Sink>(&self, per_block: u32, out: &mut K) -> Result<(), SinkFailed>
        requires { 1 ≤ per_block }
        ensures text { Written (K.written out.old) (K.written out.new) result (map_text self.now.drawing per_block (drawn_of self.now)) }
        ensures cause { HasCause (K.faults out.old) (K.faults out.new) result }
    {
        let mut line = TextLine::new();
        add_opening_of(&mut line, self.drawing, per_block, self.top);
        write_all(line.bytes(), out)?;
        write_all(&self.text, out)?;
        write_all(closing(self.drawing), out)
    }
}
