//! The script language: the commands that lines are, and the texts of replies.
#![tactic(auto)]

mod command;
mod hexadecimal;
mod put;
mod queries;
mod read;
mod reply;
mod reply_line;
mod room;
mod row_line;
mod settings;
mod text_line;
mod word;
mod words;
mod write;

pub use command::{Command, LineFault};
pub use read::read_line;
pub use reply::{BlobNote, Reply};
pub use room::LineRoom;
pub use row_line::RowLine;
pub use text_line::{LINE_BYTES, TextLine};
pub use word::is;
pub use words::{first_word, without_return};
pub use write::{write_all, write_digits, write_reply};
