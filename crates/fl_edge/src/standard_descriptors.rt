// The descriptors of the standard streams.
use std::fs::File;
use std::rt::Files;

/// The descriptors below 3 that were closed when the program began. They are taken before any other file is opened, so that
/// none gets one of them: else what is written on a closed standard output would go into an image.
///
/// On a stream that was closed each read fails, and each write.
#[derive(Drop)]
pub struct StandardDescriptors {
    _taken: [Option<File>; 3],
}

impl StandardDescriptors {
    /// Takes them, until the value is dropped. The system hands out the lowest descriptor that is free, so that three opens
    /// take all of them, whichever were closed. What is opened is the root folder, for reading: it fails each read, since it
    /// is a folder, and each write.
    pub fn taken<R: Files<File = File>>(rt: &R) -> StandardDescriptors {
        StandardDescriptors {
            _taken: [
                File::open(rt, "/").ok(),
                File::open(rt, "/").ok(),
                File::open(rt, "/").ok(),
            ],
        }
    }
}
