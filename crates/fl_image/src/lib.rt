//! The image on a medium: the configuration that its header tells, and how a job over it ends.
#![tactic(auto)]

mod header;
mod image;
mod status;

pub use header::{HEADER, config_of_header, config_of_lines};
pub use image::config_of_image;
pub use status::ToolStatus;
