//! How a run of a script and a shell end, by number and with what was pending, and which word names an image: what a program that
//! starts them knows of them.
#![tactic(auto)]

mod pending;
mod run;
mod shell;
mod words;

pub use pending::{PendingRows, TableRows};
pub use run::Status;
pub use shell::{Flushed, ShellEnd, ShellStatus};
pub use words::names_image;
