//! The language of scripts: lines and their commands, replies and their texts.
#![tactic(auto)]

mod command;
mod numbers;
mod parse;
mod reply;
mod text;
mod verb;
mod views;
mod words;

pub use command::Cmd;
pub use parse::parse_line;
pub use reply::{Refusal, Reply};
pub use text::reply_text;
pub use zf_base::Stats;
