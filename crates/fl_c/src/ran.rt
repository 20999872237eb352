// A run over the image of a caller.
ghost use Rattle.std.specs.Prelude.{◌≡◌, IfOk, None, map, string_bytes};
ghost use Rattle.fl_session.specs.Words.{image_named};
ghost use Rattle.fl_c.specs.Ran.{RanImage};

use crate::script::Script;
use fl_base::{MemSink, NoMemory};
use fl_flash::MemMedia;
use fl_session::{KNOTS, Status, run};
use std::alloc::Global;

/// What a run left: how it ended, the image, and the replies.
#[derive(Drop)]
pub(crate) struct Ran {
    pub(crate) status: Status,
    pub(crate) media: MemMedia,
    pub(crate) out: MemSink,
}

fn copy_of(alloc: Global, bytes: &[u8]) -> Result<Vec<u8>, NoMemory>
    ensures { IfOk result (λ copy. copy.items ≡ bytes.now) }
{
    let mut copy = Vec::new(alloc);
    copy.extend_from_slice(bytes)?;
    Ok(copy)
}

// The words of a command line that runs a script.
fn words(alloc: Global) -> Result<Vec<String>, NoMemory>
    ensures { IfOk result (λ words. image_named (map (λ word. string_bytes word) words.items) ≡ None → ⊥) }
{
    let mut words = Vec::new(alloc);
    words.push(String::from_str(alloc, "run")?)?;
    words.push(String::from_str(alloc, "image")?)?;
    Ok(words)
}

/// Runs a script over a copy of an image, which has so much room, with so much room for the replies.
pub(crate) fn run_copy(
    alloc: Global,
    image: &[u8],
    room: usize,
    script: &[u8],
    replies: usize,
) -> Result<Ran, NoMemory>
    ensures { IfOk result (λ ran. RanImage KNOTS script.now image.now ran.media.content ran.out.written ran.status) }
{
    let mut media = MemMedia::new(alloc, copy_of(alloc, image)?, room)?;
    let mut script = Script { left: script };
    let mut out = MemSink::new(alloc, replies, Vec::new(alloc))?;
    let words = words(alloc)?;
    let status = run(alloc, &words, &mut media, &mut script, &mut out);
    Ok(Ran { status, media, out })
}
