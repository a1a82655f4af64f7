//! The script of `drive`: its lines, and the commands that they ask for.
#![tactic(auto)]

mod built;
mod command;
mod line;
mod lines;
mod numbers;
mod script;

pub use command::Command;
pub use lines::split_line;
pub use numbers::number_of;
pub use script::{ScriptError, judge_script};
