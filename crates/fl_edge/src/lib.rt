//! The ends that reach the system: a file, standard input and standard output, and the replies that are held back
//! between the two. File and sink don't tell what they hold, so what is promised of them is little: they fail only
//! where their counts of faults rise.
#![tactic(auto)]

mod file_media;
mod image_file;
mod new_file;
mod prompted;
mod read_ahead;
mod reply_buffer;
mod retried;
mod same_file;
mod standard;
mod standard_descriptors;
mod synced_media;

pub use file_media::FileMedia;
pub use image_file::{Access, ImageFile, ImageInUse};
pub use new_file::{is_missing, remove_empty};
pub use prompted::Prompted;
pub use reply_buffer::ReplyBuffer;
pub use same_file::is_same_file;
pub use standard::{StandardInput, StandardOutput};
pub use standard_descriptors::StandardDescriptors;
pub use synced_media::SyncedMedia;
