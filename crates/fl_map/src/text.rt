// A page of a map as a letter.
ghost use Rattle.std.specs.Prelude.{◌≡◌, ◌≤◌, ◌<◌, ◌^◌, [], length};
ghost use Rattle.fl_map.specs.Text.{letter_of, line_break, block_mark, page_letter, letter_text, legend};

use crate::note::RingNote;
use crate::words::line_pages;
use fl_mark::PageState;
use fl_script::TextLine;

/// The last line.
pub(crate) fn legend() -> &'static [u8]
    ensures { result.now ≡ legend }
{
    b"each letter a page: . blank  # committed  v void  x torn  ! breaks a rule; > before the head\n"
}

fn letter_of(state: PageState) -> &'static [u8]
    ensures text { result.now ≡ letter_of state }
    ensures short { length result.now ≤ 1 }
{
    match state {
        PageState::Blank => b".",
        PageState::Torn => b"x",
        PageState::Committed => b"#",
        PageState::Void => b"v",
    }
}

/// A line ends before its next blocks.
fn line_break(note: &RingNote, i: usize) -> &'static [u8]
    requires { 1 ≤ note.now.per_block }
    ensures text { result.now ≡ line_break note.now i }
    ensures short { length result.now ≤ 1 }
{
    if i % line_pages(note.per_block) == 0 && 0 < i {
        return b"\n";
    }
    b""
}

/// What stands before the first page of a block.
fn block_mark(note: &RingNote, i: usize) -> &'static [u8]
    requires { 1 ≤ note.now.per_block }
    ensures text { result.now ≡ block_mark note.now i }
    ensures short { length result.now ≤ 1 }
{
    if i % note.per_block as usize != 0 {
        return b"";
    }
    if note.is_in_head(i) {
        return b">";
    }
    b" "
}

/// The letter of a page.
fn page_letter(note: &RingNote, i: usize, state: PageState) -> &'static [u8]
    requires { i < 2 ^ 32 }
    ensures text { result.now ≡ page_letter note.now i state }
    ensures short { length result.now ≤ 1 }
{
    if note.is_faulty(i) {
        return b"!";
    }
    letter_of(state)
}

/// The i-th page of a ring.
pub(crate) fn add_letter(line: &mut TextLine, note: &RingNote, i: usize, state: PageState)
    requires empty { line.old ≡ [] }
    requires some { 1 ≤ note.now.per_block }
    requires few { i < 2 ^ 32 }
    ensures { line.new ≡ letter_text note.now i state }
{
    line.add(line_break(note, i));
    line.add(block_mark(note, i));
    line.add(page_letter(note, i, state));
}
