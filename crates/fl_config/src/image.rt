// Images of a configuration: made, or found.
ghost use Rattle.std.specs.Prelude.{◌≡◌, ◌+◌, ◌≤◌, ◌<◌, ◌^◌, ◌-◌, ◌≢◌, ◌++◌, length, replicate, slice_get, IfSome, IsTrue, Some, []};
ghost use Rattle.std.specs.List.{flat_map};
ghost use Rattle.fl_base.specs.declared.types.Geometry.{Geometry};
ghost use Rattle.fl_model.specs.Record.{Config as Configured};
ghost use Rattle.fl_model.specs.Image.{medium_len};
ghost use Rattle.fl_words.specs.Medium.{header, device_text, table_text};
ghost use Rattle.fl_config.specs.Opening.{Grows, Opens, Compares};
ghost use Rattle.fl_config.specs.Whole.{is_whole, Makes};

use crate::Config;
use crate::config::HEADER;
use crate::header::HeaderText;
use fl_flash::{Media, MediaFailed};

/// How many blank bytes are written at a time.
const PIECE: usize = 65536;

/// Why an image was not opened.
#[derive(Clone, Copy, Debug, PartialEq, Eq)]
pub enum ImageRefusal {
    /// The medium failed: its count of faults rose in the call.
    Media,
    /// The medium isn't empty and belongs to another configuration. Where its length differs, `wanted` and `found`
    /// are the lengths and `at` is 1,024. Else they are the bytes at the first place of the header that differs.
    Other { wanted: u64, found: u64, at: u32 },
}

impl From<MediaFailed> for ImageRefusal {
    ghost use Rattle.std.specs.Prelude.{◌≡◌};
    ghost use Rattle.fl_config.specs.declared.image.ImageRefusal.TheVariants.{Media};

    ghost from_gives = { λ _ refusal. refusal ≡ Media };

    fn from(_: MediaFailed) -> Self {
        ImageRefusal::Media
    }
}

fn append<M: Media>(media: &mut M, bytes: &[u8]) -> Result<(), MediaFailed>
    ensures { Grows (M.state media.old) bytes.now result (M.state media.new) }
{
    let end = media.len();
    media.write_at(end, bytes)
}

/// Appends so many bytes FF.
fn append_blank<M: Media>(media: &mut M, count: u64) -> Result<(), MediaFailed>
    ensures { Grows (M.state media.old) (replicate count 255) result (M.state media.new) }
{
    let blank = [0xff; PIECE];
    let mut left = count;
    while left > 0 {
        let piece = left.min(PIECE as u64);
        append(media, &blank[..piece as usize])?;
        left -= piece;
    }
    Ok(())
}

fn make<M: Media>(media: &mut M, len: u64, head: &[u8]) -> Result<(), MediaFailed>
    requires head { length head.now ≡ HEADER }
    requires room { HEADER ≤ len }
    ensures { Grows (M.state media.old) (head.now ++ replicate (len - HEADER) 255) result (M.state media.new) }
{
    append(media, head)?;
    append_blank(media, len - HEADER as u64)
}

/// The first place at which the two texts, of one length, differ.
fn compare(wanted: &[u8], found: &[u8]) -> Result<(), ImageRefusal>
    requires same { length wanted.now ≡ length found.now }
    requires few { length wanted.now ≤ HEADER }
    ensures { Compares wanted.now found.now result }
{
    for (at, byte) in wanted.iter().enumerate() {
        if *byte != found[at] {
            return Err(ImageRefusal::Other {
                wanted: u64::from(*byte),
                found: u64::from(found[at]),
                at: at as u32,
            });
        }
    }
    Ok(())
}

fn find<M: Media>(media: &mut M, len: u64, head: &[u8]) -> Result<(), ImageRefusal>
    requires some { (M.state media.old).content ≢ [] }
    requires head { length head.now ≡ HEADER }
    requires room { HEADER ≤ len }
    ensures { Opens len head.now (M.state media.old) result (M.state media.new) }
{
    let found = media.len();
    if found != len {
        return Err(ImageRefusal::Other {
            wanted: len,
            found,
            at: HEADER as u32,
        });
    }
    let mut own = [0; HEADER];
    media.read_at(0, &mut own)?;
    compare(head, &own)
}

fn open<M: Media>(media: &mut M, len: u64, head: &[u8]) -> Result<(), ImageRefusal>
    requires head { length head.now ≡ HEADER }
    requires room { HEADER ≤ len }
    ensures { Opens len head.now (M.state media.old) result (M.state media.new) }
{
    if media.len() == 0 {
        make(media, len, head)?;
        return Ok(());
    }
    find(media, len, head)
}

impl Config {
    fn text(&self) -> HeaderText
        requires { IsTrue (is_whole self.now) }
        ensures { (config : Configured) → Makes self.now config → result ≡ device_text config.geometry ++ flat_map table_text config.plans }
    {
        let mut text = HeaderText::new();
        text.add_device(self.geometry());
        text.add_tables(self.entries());
        text
    }

    /// The device line, as the header of an image has it.
    pub fn device_line(&self) -> HeaderText
        requires { IsTrue (is_whole self.now) }
        ensures { (geometry : Geometry) → self.now.device ≡ Some geometry → result ≡ device_text geometry }
    {
        let mut text = HeaderText::new();
        text.add_device(self.geometry());
        text
    }

    /// The line of a table, by its number from 0, as the header of an image has it.
    pub fn table_line(&self, i: usize) -> HeaderText
        requires { i < length self.now.plans }
        ensures { IfSome (slice_get self.now.plans i) (λ plan. result ≡ table_text plan) }
    {
        let mut text = HeaderText::new();
        text.add_table(&self.entries()[i]);
        text
    }

    /// Writes the header of an image into its 1,024 bytes: the text of the configuration, filled up with spaces.
    pub fn header(&self, into: &mut [u8])
        requires whole { IsTrue (is_whole self.now) }
        requires room { length into.old ≡ HEADER }
        ensures { (config : Configured) → Makes self.now config → into.new ≡ header config }
    {
        let text = self.text();
        let len = text.bytes().len();
        into[..len].copy_from_slice(text.bytes());
        into[len..].fill(b' ');
    }

    /// Opens the image on a medium. An empty medium is made: the header, and all other bytes FF. Another one has to
    /// have the length and the header of this configuration, and is unchanged in any case.
    pub fn open_image<M: Media>(&self, media: &mut M) -> Result<(), ImageRefusal>
        requires { IsTrue (is_whole self.now) }
        ensures { (config : Configured) → Makes self.now config → Opens (medium_len config) (header config) (M.state media.old) result (M.state media.new) }
    {
        let mut head = [0; HEADER];
        self.header(&mut head);
        open(media, self.image_len(), &head)
    }
}
