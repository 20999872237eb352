//! The store for callers in C, as a static library of one call: a script is run over an image in memory. The header
//! `embed/flashts.h` declares it, with what a caller has to see to.
//!
//! The call answers the number of its run's status, as `flashts run` ends, or of what kept the library from it. It keeps no
//! pointer, and there is no state outside of a call.
#![tactic(auto)]

mod ending;
mod ran;
mod script;
#[cfg(test)]
mod tests;

ghost use Rattle.std.specs.Prelude.{◌≡◌, ◌≤◌, ◌<◌, ◌⊎◌, ◌↔◌, length, take};
ghost use Rattle.fl_ends.specs.RunNumber.{number_of};
ghost use Rattle.fl_c.specs.Ending.{bad_length, too_small, IsOwn, line_of};
ghost use Rattle.fl_c.specs.Ran.{IsTooLong, RanOver};

use crate::ending::{Refusal, give, line_of};
use crate::ran::run_copy;
use fl_session::{KNOTS, Status};
use std::alloc::Global;

/// Runs a script over an image, which is the first `image_len` bytes of a buffer, and gives the replies. None of its bytes are a new
/// image. `line` becomes the line that the status names, from 1, and 0 where it names none.
#[unsafe(no_mangle)]
pub extern "C" fn flashts_run(
    alloc: Global,
    image: &mut [u8],
    image_len: &mut usize,
    script: &[u8],
    replies: &mut [u8],
    replies_len: &mut usize,
    line: &mut u64,
) -> u32
    // The image and the replies are those that a run of the script leaves, and number and line tell how it ended.
    ensures ran { IsOwn result ⊎ RanOver KNOTS script.now (take image_len.old image.old) (take image_len.new image.new) (take replies_len.new replies.new) line.new result }
    // The library's own numbers, with their cause, leave everything as it was.
    ensures lengths { (result ≡ bad_length) ↔ (length image.old < image_len.old) }
    ensures small { result ≡ too_small → IsTooLong KNOTS script.now (take image_len.old image.old) (length image.old) (length replies.old) }
    ensures kept { IsOwn result → (image.new ≡ image.old) × (image_len.new ≡ image_len.old) × (replies.new ≡ replies.old) × (replies_len.new ≡ replies_len.old) × (line.new ≡ line.old) }
    ensures fits { IsOwn result ⊎ ((image_len.new ≤ length image.new) × (replies_len.new ≤ length replies.new)) }
{
    let room = image.len();
    let Some(before) = image.get(..*image_len) else {
        return Refusal::BadLength.number();
    };
    let Ok(ran) = run_copy(alloc, before, room, script, replies.len()) else {
        return none_ran(replies_len, line);
    };
    if ran.media.bytes().len() > image.len() || ran.out.bytes().len() > replies.len() {
        return Refusal::TooSmall.number();
    }
    *image_len = give(ran.media.bytes(), image);
    *replies_len = give(ran.out.bytes(), replies);
    ended(&ran.status, line)
}

/// How a call ends whose run ended so.
fn ended(status: &Status, line: &mut u64) -> u32
    ensures number { result ≡ number_of status.now }
    ensures line { line.new ≡ line_of status.now }
{
    *line = line_of(status);
    u32::from(status.number())
}

/// How a call ends for which there was no memory, before anything was done.
fn none_ran(replies_len: &mut usize, line: &mut u64) -> u32
    ensures replies { replies_len.new ≡ 0 }
    ensures number { result ≡ number_of Status.NoMemory }
    ensures line { line.new ≡ line_of Status.NoMemory }
{
    *replies_len = 0;
    ended(&Status::NoMemory, line)
}
