// Where the configuration of an image is another than a script's.
ghost use Rattle.std.specs.Prelude.{◌≡◌};

use crate::config::config_of;
use crate::tail::Tail;
use crate::word::{Word, word_at};
use fl_flash::Media;
use fl_script::LineRoom;

/// The bytes in front of the pages of an image: the lines of its configuration, filled up with spaces.
const HEADER: usize = 1024;

/// Where the configuration of an image is another than a script's.
#[derive(Clone, Copy)]
pub enum HeaderReason {
    /// Its lines are the same, and the image has another length than they make.
    Length {
        image: u64,
        script: u64,
    },
    /// The first word that differs: on this line of the configuration, counted from 1, in this place.
    Word {
        line: usize,
        place: Word,
        image: Word,
        script: Word,
    },
}

fn is_space(byte: u8) -> bool {
    byte == b' ' || byte == b'\n'
}

/// The place of the first byte that differs.
fn first_difference(one: &[u8; HEADER], other: &[u8; HEADER]) -> Option<usize> {
    for (at, byte) in one.iter().enumerate() {
        if *byte != other[at] {
            return Some(at);
        }
    }
    None
}

/// Where the word begins in which this place lies.
fn word_begin(header: &[u8; HEADER], at: usize) -> usize {
    let mut begin: usize = 0;
    for (i, byte) in header.iter().enumerate() {
        if i >= at {
            break;
        }
        if is_space(*byte) {
            begin = i.saturating_add(1);
        }
    }
    begin
}

/// The word that begins here.
fn word_from(header: &[u8; HEADER], begin: usize) -> Word {
    let rest = header.get(begin..).unwrap_or(b"");
    let len = rest
        .iter()
        .position(|byte| is_space(*byte))
        .unwrap_or(rest.len());
    Word::of(rest.get(..len).unwrap_or(rest))
}

/// On which line this place lies, and in which word of it; both count from 1.
fn place_of(header: &[u8; HEADER], at: usize) -> (usize, usize) {
    let mut line: usize = 1;
    let mut word: usize = 1;
    for (i, byte) in header.iter().enumerate() {
        if i >= at {
            break;
        }
        if *byte == b'\n' {
            line = line.saturating_add(1);
            word = 1;
        } else if *byte == b' ' {
            word = word.saturating_add(1);
        }
    }
    (line, word)
}

/// The name of a place of the first line, or of one of the others.
fn name_of(line: usize, word: usize) -> Word {
    let form: &[u8] = if line == 1 {
        b"device PAGE BLOCK"
    } else {
        b"table NAME KEY COLUMNS DATA INDEX VAR BITS BASE WIDTH ERROR BLOB ENDING ENDING ENDING"
    };
    Word::of(word_at(form, word))
}

fn byte_at(header: &[u8; HEADER], at: usize) -> u8 {
    header.get(at).copied().unwrap_or(b' ')
}

/// The word behind the one that ends here; nothing where the line ends too.
fn word_behind(header: &[u8; HEADER], end: usize) -> Word {
    if byte_at(header, end) == b'\n' {
        return Word::of(b"");
    }
    word_from(header, end.saturating_add(1))
}

/// The first word that differs between the script's configuration and the image's, by the first byte that does.
fn word_reason(own: &[u8; HEADER], image: &[u8; HEADER], at: usize) -> HeaderReason {
    let (line, word) = place_of(own, at);
    if is_space(byte_at(own, at)) && is_space(byte_at(image, at)) {
        // One line ends where the other goes on with a word.
        return HeaderReason::Word {
            line,
            place: name_of(line, word.saturating_add(1)),
            image: word_behind(image, at),
            script: word_behind(own, at),
        };
    }
    let begin = word_begin(own, at);
    HeaderReason::Word {
        line,
        place: name_of(line, word),
        image: word_from(image, begin),
        script: word_from(own, begin),
    }
}

/// Where the configuration of the image on a medium is another than the script's. None where the front of the script isn't
/// kept, or its configuration isn't complete, or the medium can't be read. Only its header is read.
pub fn header_reason<M: Media>(
    script: &Tail,
    media: &mut M,
    room: &mut LineRoom,
) -> Option<HeaderReason>
    ensures looks { (M.state media.new).content ≡ (M.state media.old).content }
{
    let config = config_of(script, room)?;
    if !config.is_complete() {
        return None;
    }
    let lengths = HeaderReason::Length {
        image: media.len(),
        script: config.image_len(),
    };
    if media.len() < HEADER as u64 {
        return Some(lengths);
    }
    let mut image = [0; HEADER];
    media.read_at(0, &mut image).ok()?;
    let mut own = [0; HEADER];
    config.header(&mut own);
    let Some(at) = first_difference(&own, &image) else {
        return Some(lengths);
    };
    Some(word_reason(&own, &image, at))
}
