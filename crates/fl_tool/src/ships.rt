// A ship between two files.
use fl_command::{Ending, Exit, ShipJob, ship};
use fl_edge::{
    Access, FileMedia, ReplyBuffer, StandardOutput, is_missing, is_same_file, remove_empty,
};
use fl_flash::Media;
use fl_session::Status;
use std::alloc::Global;
use std::cell::RefCell;
use std::fs::File;
use std::io::{self, Write};
use std::rt::Files;

/// Ships records between the files with these names, and hands out what was written.
pub(crate) fn ship_told<R>(rt: &R, job: ShipJob, image: &str, copy: &str) -> Ending
where
    R: Alloc<A = Global> + Files<File = File> + Print,
{
    let Ok(replies) = ReplyBuffer::new(rt.alloc(), io::writer(rt)) else {
        return Ending::of(Exit::Run(Status::NoMemory));
    };
    let Ok(mut media) = FileMedia::open_image(rt, image, Access::Repair) else {
        return Ending::of(Exit::InUse);
    };
    if is_same_file(rt, image, copy) {
        return Ending::of(Exit::CopyIsImage);
    }
    let was_missing = is_missing(rt, copy);
    let Ok(mut onto) = FileMedia::open_image(rt, copy, Access::Make) else {
        return Ending::of(Exit::CopyInUse);
    };
    let ending = ship_over(rt.alloc(), job, &mut media, &mut onto, replies);
    // The file that was made goes while the medium still has its lock.
    if was_missing && onto.len() == 0 {
        remove_empty(rt, copy);
    }
    ending
}

/// Ships records between the two media, hands out what was written, and tells whether the copy was made.
fn ship_over<M: Media, C: Media, W: Write + Drop>(
    alloc: Global,
    job: ShipJob,
    media: &mut M,
    copy: &mut C,
    replies: ReplyBuffer<W>,
) -> Ending {
    let replies = RefCell::new(replies);
    let mut out = StandardOutput::new(&replies);
    let was_empty = copy.len() == 0;
    let exit = ship(alloc, job, media, copy, &mut out);
    Ending {
        exit: exit.behind(out.hand_out()),
        reason: None,
        made: was_empty && copy.len() > 0 && copy.len() == media.len(),
    }
}
