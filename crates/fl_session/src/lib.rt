//! A session over an image, and the run of a script.
#![tactic(auto)]

mod begin;
mod commands;
mod cost;
mod executor;
mod generator;
mod laws;
mod load;
mod next;
mod notes;
mod opened;
mod replies;
mod session;
mod whole_run;
mod words;

pub use executor::Executor;
pub use fl_ends::{PendingRows, Status, TableRows};
pub use fl_store::{KNOTS, SLOTS};
pub use laws::{commands_are_exact, uncut_commands_lose_no_power};
pub use opened::Rooms;
pub use session::Session;
pub use whole_run::run;
pub use words::image_of;
