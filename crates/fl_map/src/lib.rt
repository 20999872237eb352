//! The map of an image: a letter or a square for each page, ring by ring, with what the rings tell and what a check finds.
#![tactic(auto)]

mod canvas;
mod drawing;
mod fault;
mod finding;
mod map;
mod note;
mod picture;
mod ring;
mod table;
mod text;
mod words;

pub use drawing::Drawing;
pub use map::map_image;
