//! A shell over an image: the commands of a script and their replies, line by line, for people and for programs that hold it open.
//! A line that is no command is answered, and the session goes on.
#![tactic(auto)]

mod answer;
mod begin;
mod describe;
mod flush;
mod heard;
mod next_line;
mod own;
mod refusal;
mod talk;
mod whole_shell;
mod words;

pub use fl_ends::{Flushed, ShellEnd, ShellStatus};
pub use whole_shell::shell;
pub use words::shell_of;
