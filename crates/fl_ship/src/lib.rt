//! Shipping: the records of a table of an image that come after those of a copy are put into the copy, which is an image of its own.
#![tactic(auto)]

mod copy;
mod fault;
mod laws;
mod missing;
mod ready;
mod report;
mod rooms;
mod rows;
mod ship;
mod side;
mod status;
mod stop;
mod tables;

pub use fault::ShipFault;
pub use laws::{ships_are_steps, ships_keep, ships_leave_parts, ships_reach_the_end, work_keeps};
pub use rows::ship_rows;
pub use ship::ship_image;
pub use side::Side;
pub use status::ShipStatus;
