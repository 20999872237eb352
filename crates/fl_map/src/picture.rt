// A page of a map as a square of a picture, and what stands around the squares. Pictures are SVG 1.1.
ghost use Rattle.std.specs.Prelude.{◌≡◌, ◌≤◌, ◌<◌, ◌+◌, ◌*◌, ◌^◌, ◌++◌, [], length, OnOk};
ghost use Rattle.fl_map.specs.Svg.{class_of, page_class, head_class, left_of, top_of, fault_words, place_text, title_text, square_text, words_text, sample_text, label_text, meaning_text, colours, background, meanings, opening_text};

use crate::note::RingNote;
use crate::words::{line_pages, state_word};
use fl_base::NoMemory;
use fl_mark::PageState;
use fl_script::TextLine;

fn class_of(state: PageState) -> &'static [u8]
    ensures text { result.now ≡ class_of state }
    ensures short { length result.now ≤ 1 }
{
    match state {
        PageState::Blank => b"b",
        PageState::Torn => b"t",
        PageState::Committed => b"c",
        PageState::Void => b"v",
    }
}

fn page_class(note: &RingNote, i: usize, state: PageState) -> &'static [u8]
    requires { i < 2 ^ 32 }
    ensures text { result.now ≡ page_class note.now i state }
    ensures short { length result.now ≤ 1 }
{
    if note.is_faulty(i) {
        return b"f";
    }
    class_of(state)
}

fn head_class(note: &RingNote, i: usize) -> &'static [u8]
    requires { 1 ≤ note.now.per_block }
    ensures text { result.now ≡ head_class note.now i }
    ensures short { length result.now ≤ 2 }
{
    if note.is_in_head(i) {
        return b" h";
    }
    b""
}

fn fault_words(note: &RingNote, i: usize) -> &'static [u8]
    requires { i < 2 ^ 32 }
    ensures text { result.now ≡ fault_words note.now i }
    ensures short { length result.now ≤ 15 }
{
    if note.is_faulty(i) {
        return b", breaks a rule";
    }
    b""
}

/// Where the i-th page of a ring stands, from the left.
fn left_of(note: &RingNote, i: usize) -> usize
    requires some { 1 ≤ note.now.per_block }
    ensures exact { result ≡ left_of note.now i }
{
    let in_line = i % line_pages(note.per_block);
    24 + in_line * 12 + in_line / note.per_block as usize * 6
}

/// .. and from the top.
fn top_of(note: &RingNote, top: usize, i: usize) -> usize
    requires some { 1 ≤ note.now.per_block }
    requires few { i < 2 ^ 32 }
    requires top { top < 2 ^ 40 }
    ensures exact { result ≡ top_of note.now top i }
{
    top + i / line_pages(note.per_block) * 14
}

/// The place of a square, and what it shows.
fn add_place(line: &mut TextLine, note: &RingNote, top: usize, i: usize, state: PageState)
    requires empty { line.old ≡ [] }
    requires some { 1 ≤ note.now.per_block }
    requires few { i < 2 ^ 32 }
    requires top { top < 2 ^ 40 }
    ensures text { line.new ≡ place_text note.now top i state }
    ensures short { length line.new ≤ 128 }
{
    line.add_number(b"<rect x='", left_of(note, i));
    line.add_number(b"' y='", top_of(note, top, i));
    line.add(b"' width='10' height='10' class='");
    line.add(page_class(note, i, state));
    line.add(head_class(note, i));
}

/// What a square tells where it is pointed at.
fn add_title(line: &mut TextLine, note: &RingNote, i: usize, state: PageState)
    requires room { length line.old ≤ 128 }
    requires few { i < 2 ^ 32 }
    ensures { line.new ≡ line.old ++ title_text note.now i state }
{
    line.add_number(b"'><title>page ", note.first as usize + i);
    line.add(b" ");
    line.add(state_word(state));
    line.add(fault_words(note, i));
    line.add(b"</title></rect>\n");
}

/// The square of the i-th page of a ring.
pub(crate) fn add_square(
    line: &mut TextLine,
    note: &RingNote,
    top: usize,
    i: usize,
    state: PageState,
)
    requires empty { line.old ≡ [] }
    requires some { 1 ≤ note.now.per_block }
    requires few { i < 2 ^ 32 }
    requires top { top < 2 ^ 40 }
    ensures { line.new ≡ square_text note.now top i state }
{
    add_place(line, note, top, i, state);
    add_title(line, note, i, state);
}

/// A line of words.
pub(crate) fn add_words(line: &mut TextLine, top: usize, words: &[u8])
    requires empty { line.old ≡ [] }
    requires short { length words.now ≤ 128 }
    requires top { top < 2 ^ 40 }
    ensures { line.new ≡ words_text top words.now }
{
    line.add_number(b"<text x='24' y='", top + 12);
    line.add(b"'>");
    line.add(words);
    line.add(b"</text>\n");
}

/// A square of a class.
fn add_sample(line: &mut TextLine, left: usize, class: &[u8])
    requires empty { line.old ≡ [] }
    requires short { length class.now ≤ 8 }
    ensures { line.new ≡ sample_text left class.now }
{
    line.add_number(b"<rect x='", left);
    line.add(b"' y='16' width='10' height='10' class='");
    line.add(class);
    line.add(b"'/>");
}

/// A word beside a square.
fn add_label(line: &mut TextLine, left: usize, word: &[u8])
    requires empty { line.old ≡ [] }
    requires short { length word.now ≤ 16 }
    ensures { line.new ≡ label_text left word.now }
{
    line.add_number(b"<text x='", left);
    line.add(b"' y='25'>");
    line.add(word);
    line.add(b"</text>\n");
}

/// What the squares of a class mean.
fn add_meaning(text: &mut Vec<u8>, left: usize, class: &[u8], word: &[u8]) -> Result<(), NoMemory>
    requires short { (length class.now ≤ 8) × (length word.now ≤ 16) }
    requires left { left < 2 ^ 32 }
    ensures { OnOk result (text.new.items ≡ text.old.items ++ meaning_text left class.now word.now) }
{
    let mut sample = TextLine::new();
    add_sample(&mut sample, left, class);
    text.extend_from_slice(sample.bytes())?;
    let mut label = TextLine::new();
    add_label(&mut label, left + 16, word);
    text.extend_from_slice(label.bytes())?;
    Ok(())
}

/// What the squares of each class mean.
fn add_meanings(text: &mut Vec<u8>) -> Result<(), NoMemory>
    ensures { OnOk result (text.new.items ≡ text.old.items ++ meanings) }
{
    add_meaning(text, 24, b"b", b"blank")?;
    add_meaning(text, 104, b"c", b"committed")?;
    add_meaning(text, 214, b"v", b"void")?;
    add_meaning(text, 284, b"t", b"torn")?;
    add_meaning(text, 354, b"f", b"breaks a rule")?;
    add_meaning(text, 474, b"b h", b"in the head")?;
    Ok(())
}

/// What stands in a picture before the first ring.
pub(crate) fn add_intro(text: &mut Vec<u8>) -> Result<(), NoMemory>
    ensures { OnOk result (text.new.items ≡ text.old.items ++ colours ++ background ++ meanings) }
{
    text.extend_from_slice(
        b"<style type='text/css'>.b{fill:#fff;stroke:#bbb}.c{fill:#4a7fb5}.v{fill:#bbb}.t{fill:#e8a33d}.f{fill:#d62728}.h{stroke:#000}</style>\n",
    )?;
    text.extend_from_slice(b"<rect width='100%' height='100%' fill='#fff'/>\n")?;
    add_meanings(text)
}

/// The first line of a picture.
pub(crate) fn add_opening(line: &mut TextLine, width: usize, height: usize)
    requires { line.old ≡ [] }
    ensures { line.new ≡ opening_text width height }
{
    line.add_number(
        b"<svg xmlns='http://www.w3.org/2000/svg' version='1.1' width='",
        width,
    );
    line.add_number(b"' height='", height);
    line.add(b"' font-family='sans-serif' font-size='12'>\n");
}
