//! The command line as calls: the words that name a job over an image, or a ship between two, the job, and how the program ends,
//! with the number of its status and the text on standard error.
#![tactic(auto)]

mod ending;
mod exit;
mod help;
mod jobs;
mod laws;
mod lines;
mod pending_line;
mod planning;
mod reason;
mod shell_lines;
mod ship_lines;
mod ship_words;
mod shipping;
mod told;
mod words;

pub use ending::Ending;
pub use exit::Exit;
pub use help::Help;
pub use jobs::tool;
pub use laws::failures_have_one_line;
pub use planning::plan;
pub use reason::reason_of;
pub use ship_words::{ShipJob, ship_of};
pub use shipping::ship;
pub use told::{Telling, Told};
pub use words::{ToolJob, tool_of};
