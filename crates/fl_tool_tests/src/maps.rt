// Maps of images made by hand: the states of pages, what rings tell, and a page that breaks a rule.
ghost use Rattle.std.specs.Prelude.{◌≤◌};

use crate::asserts::{same, same_at};
use crate::checks::{Images, Piece, SEAL, image, medium};
use fl_base::{MemSink, NoMemory};
use fl_flash::MemMedia;
use fl_image::ToolStatus;
use fl_map::{Drawing, map_image};
use std::alloc::Global;

// Pages of 64 bytes, two a block, and rings of three blocks: data pages 0 to 5, and index pages 6 to 11.
const PLAIN: &str = "device 64 2\ntable t 8 i32 3 0 0 8 0 10 1 0\n";

const INDEXED: &str = "device 64 2\ntable t 8 i32 3 3 0 64 0 10 1 0\n";

const LEGEND: &str =
    "each letter a page: . blank  # committed  v void  x torn  ! breaks a rule; > before the head\n";

// A picture of one committed page.
const PICTURE: &str =
    "<svg xmlns='http://www.w3.org/2000/svg' version='1.1' width='1000' height='96' font-family='sans-serif' font-size='12'>\n\
<style type='text/css'>.b{fill:#fff;stroke:#bbb}.c{fill:#4a7fb5}.v{fill:#bbb}.t{fill:#e8a33d}.f{fill:#d62728}.h{stroke:#000}</style>\n\
<rect width='100%' height='100%' fill='#fff'/>\n\
<rect x='24' y='16' width='10' height='10' class='b'/><text x='40' y='25'>blank</text>\n\
<rect x='104' y='16' width='10' height='10' class='c'/><text x='120' y='25'>committed</text>\n\
<rect x='214' y='16' width='10' height='10' class='v'/><text x='230' y='25'>void</text>\n\
<rect x='284' y='16' width='10' height='10' class='t'/><text x='300' y='25'>torn</text>\n\
<rect x='354' y='16' width='10' height='10' class='f'/><text x='370' y='25'>breaks a rule</text>\n\
<rect x='474' y='16' width='10' height='10' class='b h'/><text x='490' y='25'>in the head</text>\n\
<text x='24' y='60'>t data first 0 last 0 rows 1 waiting 0</text>\n\
<rect x='24' y='68' width='10' height='10' class='c h'><title>page 0 committed</title></rect>\n\
<rect x='36' y='68' width='10' height='10' class='b h'><title>page 1 blank</title></rect>\n\
<rect x='54' y='68' width='10' height='10' class='b'><title>page 2 blank</title></rect>\n\
<rect x='66' y='68' width='10' height='10' class='b'><title>page 3 blank</title></rect>\n\
<rect x='84' y='68' width='10' height='10' class='b'><title>page 4 blank</title></rect>\n\
<rect x='96' y='68' width='10' height='10' class='b'><title>page 5 blank</title></rect>\n\
</svg>\n";

// Data page 0 with one row: the value 0 with key 1. The number stands at 0, the count of rows at 4.
const ROW: [u8; 28] = [
    0, 0, 0, 0, 1, 0, 0, 0, 1, 0, 0, 0, 0, 0, 0, 0, 1, 0, 0, 0, 0, 0, 0, 0, 0, 0, 0, 0,
];

// Whether a map ends and writes so.
fn is_drawn(
    alloc: Global,
    drawing: Drawing,
    bytes: Vec<u8>,
    failing: Vec<u64>,
    status: ToolStatus,
    wanted: &[u8],
) -> Result<bool, NoMemory> {
    let len = bytes.len();
    let mut media = MemMedia::new(alloc, bytes, len)?;
    let mut out = MemSink::new(alloc, 8192, failing)?;
    let found = map_image(alloc, drawing, &mut media, &mut out);
    Ok(found == status && out.bytes() == wanted)
}

// These lines and that of the letters.
fn with_legend(alloc: Global, lines: &str) -> Result<Vec<u8>, NoMemory> {
    let mut text = Vec::new(alloc);
    text.extend_from_slice(lines.as_bytes())?;
    text.extend_from_slice(LEGEND.as_bytes())?;
    Ok(text)
}

// Whether these lines are the map of such an image, with that of the letters behind them.
fn is_map(
    alloc: Global,
    text: &str,
    pages: u16,
    pieces: &[Piece<'_>],
    lines: &str,
) -> Result<bool, NoMemory> {
    let bytes = image(alloc, text, pages, pieces)?;
    let wanted = with_legend(alloc, lines)?;
    is_drawn(
        alloc,
        Drawing::Text,
        bytes,
        Vec::new(alloc),
        ToolStatus::Done,
        &wanted,
    )
}

const LETTERS: Images = &[
    (
        &[],
        "t data first none last none rows 0 waiting 0\n>.. .. ..\n",
    ),
    (
        &[(0, &ROW), (56, &SEAL)],
        "t data first 0 last 0 rows 1 waiting 0\n>#. .. ..\n",
    ),
    // The page was begun, or given up.
    (
        &[(0, &ROW)],
        "t data first none last none rows 0 waiting 0\n>x. .. ..\n",
    ),
    (
        &[(60, &SEAL)],
        "t data first none last none rows 0 waiting 0\n>v. .. ..\n",
    ),
    // The block ahead waits for its erase.
    (
        &[(60, &SEAL), (124, &SEAL), (188, &SEAL), (256, &[0])],
        "t data first none last none rows 0 waiting 1\n vv>v. x.\n",
    ),
    // A page tells more rows than it has room for.
    (
        &[(0, &ROW), (4, &[4]), (56, &SEAL)],
        "t data first 0 last 0 rows 0 waiting 0\n>!. .. ..\nfault: t data page 0 rule 4\n",
    ),
    // Each block is full, so none is the head.
    (
        &[(124, &SEAL), (252, &SEAL), (380, &SEAL)],
        "t data first none last none rows 0 waiting 0\n !v .v .v\nfault: t data page 0 rule 1\n",
    ),
];

#[test]
fn letters(rt: HostRuntime) {
    for (pieces, wanted) in LETTERS {
        same_at(
            &rt,
            &is_map(rt.alloc(), PLAIN, 384, pieces, wanted),
            &Ok(true),
            wanted,
        );
    }
}

const ONE_ROW: &[Piece<'static>] = &[(0, &ROW), (56, &SEAL)];

#[test]
fn rings_of_a_table(rt: HostRuntime) {
    let wanted =
        "t data first 0 last 0 rows 1 waiting 0\n>#. .. ..\nt index first none last none waiting 0\n>.. .. ..\n";
    same(
        &rt,
        &is_map(rt.alloc(), INDEXED, 768, ONE_ROW, wanted),
        &Ok(true),
    );
}

// Whether this is the picture of an image with one row.
fn is_picture(alloc: Global, wanted: &[u8]) -> Result<bool, NoMemory> {
    let bytes = image(alloc, PLAIN, 384, ONE_ROW)?;
    let none = Vec::new(alloc);
    is_drawn(alloc, Drawing::Svg, bytes, none, ToolStatus::Done, wanted)
}

#[test]
fn squares(rt: HostRuntime) {
    same(&rt, &is_picture(rt.alloc(), PICTURE.as_bytes()), &Ok(true));
}

// Whether no map is drawn of these bytes.
fn is_no_image(alloc: Global, bytes: Vec<u8>) -> Result<bool, NoMemory> {
    let none = Vec::new(alloc);
    is_drawn(alloc, Drawing::Text, bytes, none, ToolStatus::NotImage, b"")
}

// .. of an empty file, of noise, and of an image of another length than its header tells
fn are_no_images(alloc: Global) -> Result<[bool; 3], NoMemory> {
    let nothing = is_no_image(alloc, Vec::new(alloc))?;
    let noise = is_no_image(alloc, vec![in alloc; 0xa5; 4096]?)?;
    let short = is_no_image(alloc, image(alloc, PLAIN, 383, &[])?)?;
    Ok([nothing, noise, short])
}

#[test]
fn no_images(rt: HostRuntime) {
    same(&rt, &are_no_images(rt.alloc()), &Ok([true; 3]));
}

// How a map ends whose medium fails at this call, and how much it writes.
fn map_failing(alloc: Global, call: u64) -> Result<(ToolStatus, usize), NoMemory>
    requires { 1 ≤ call }
{
    let mut media = medium(alloc, PLAIN, 384, ONE_ROW)?;
    media.fail_call(call);
    let mut out = MemSink::new(alloc, 8192, Vec::new(alloc))?;
    let status = map_image(alloc, Drawing::Text, &mut media, &mut out);
    Ok((status, out.bytes().len()))
}

// A medium that fails in any of its calls leaves nothing written.
#[test]
fn a_medium_that_fails(rt: HostRuntime) {
    for call in 1..12 {
        same_at(
            &rt,
            &map_failing(rt.alloc(), call),
            &Ok((ToolStatus::Device, 0)),
            &call,
        );
    }
}

// A sink that fails at its second write keeps what stood before it.
fn is_cut_off(alloc: Global, wanted: &[u8]) -> Result<bool, NoMemory> {
    let bytes = image(alloc, PLAIN, 384, &[])?;
    let second = vec![in alloc; 2]?;
    is_drawn(
        alloc,
        Drawing::Text,
        bytes,
        second,
        ToolStatus::OutWrite,
        wanted,
    )
}

#[test]
fn a_sink_that_fails(rt: HostRuntime) {
    let wanted = b"t data first none last none rows 0 waiting 0\n>.. .. ..\n";
    same(&rt, &is_cut_off(rt.alloc(), wanted), &Ok(true));
}
