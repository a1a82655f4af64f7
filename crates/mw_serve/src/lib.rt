//! The command `serve`: a room that is played over links.
#![tactic(auto)]

mod hosting;
mod laws;
mod serve_command;
mod serve_pair;

pub use laws::{all_runs_keep, pair_rooms_keep};
pub use serve_command::cmd_serve;
