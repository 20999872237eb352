// The words of a map, which both drawings have.
ghost use Rattle.std.specs.Prelude.{◌≡◌, ◌≤◌, ◌<◌, ◌+◌, ◌^◌, ◌++◌, [], length};
ghost use Rattle.fl_map.specs.Words.{state_word, is_faulty, is_in_head, line_pages, note_text, numbers_text, rows_text};

use crate::note::{Figures, RingNote};
use fl_mark::PageState;
use fl_script::TextLine;

pub(crate) fn state_word(state: PageState) -> &'static [u8]
    ensures text { result.now ≡ state_word state }
    ensures short { length result.now ≤ 9 }
{
    match state {
        PageState::Blank => b"blank",
        PageState::Torn => b"torn",
        PageState::Committed => b"committed",
        PageState::Void => b"void",
    }
}

/// The pages of the blocks that stand side by side.
pub(crate) fn line_pages(per_block: u32) -> usize
    requires { 1 ≤ per_block }
    ensures exact { result ≡ line_pages per_block }
    ensures some { 1 ≤ result }
    ensures few { result ≤ 64 + per_block }
{
    per_block as usize * (64 / per_block as usize).max(1)
}

impl RingNote {
    /// Whether the i-th page of the ring breaks a rule.
    pub(crate) fn is_faulty(&self, i: usize) -> bool
        requires { i < 2 ^ 32 }
        ensures { result ≡ is_faulty self.now i }
    {
        match self.fault {
            Some(page) => page as usize == self.first as usize + i,
            None => false,
        }
    }

    /// Whether it stands in the head.
    pub(crate) fn is_in_head(&self, i: usize) -> bool
        requires { 1 ≤ self.now.per_block }
        ensures { result ≡ is_in_head self.now i }
    {
        match self.head {
            Some(block) => block as usize == i / self.per_block as usize,
            None => false,
        }
    }
}

fn add_numbers(line: &mut TextLine, figures: Figures)
    requires { length line.old ≤ 16 }
    ensures text { line.new ≡ line.old ++ numbers_text figures }
    ensures short { length line.new ≤ length line.old + 33 }
{
    if figures.committed == 0 {
        line.add(b" first none last none");
        return;
    }
    line.add_number(b" first ", figures.first);
    line.add_number(b" last ", figures.last);
}

fn add_rows(line: &mut TextLine, row_len: Option<u32>, rows: u64)
    requires { length line.old ≤ 80 }
    ensures text { line.new ≡ line.old ++ rows_text row_len rows }
    ensures short { length line.new ≤ length line.old + 26 }
{
    if row_len.is_some() {
        line.add_number(b" rows ", rows);
    }
}

/// What is told of a ring, behind its name and that of its table.
pub(crate) fn add_note(line: &mut TextLine, note: &RingNote)
    requires { length line.old ≤ 16 }
    ensures text { line.new ≡ line.old ++ note_text note.now }
    ensures short { length line.new ≤ 128 }
{
    add_numbers(line, note.figures);
    add_rows(line, note.row_len, note.figures.rows);
    line.add_number(b" waiting ", note.waiting);
}
