//! The configuration that the leading lines of a script make, the places of its rings, and the images that have it.
#![tactic(auto)]

mod columns;
mod config;
mod entry;
mod header;
mod image;
mod taking;
mod words;

pub use config::Config;
pub use header::HeaderText;
pub use image::ImageRefusal;
