//! Why a script is refused, in words: what is wrong with a line that is no command, what a configuration line broke, with both
//! values, and where the configuration of an image is another one. The last bytes of a script are kept for that.
#![tactic(auto)]

mod config;
mod form;
mod header;
mod line;
mod tail;
mod text;
mod wanted;
mod word;

pub use config::{ConfigLine, ConfigReason, config_reason, refusal_of};
pub use header::{HeaderReason, header_reason};
pub use line::{LineReason, Misfit, Shape, line_reason};
pub use tail::{Tail, TailSource};
pub use text::Reason;
pub use wanted::Wanted;
pub use word::Word;
