//! The texts that answer commands: who plays, what is checked and what is missing, and what a hint
//! costs.
#![tactic(auto)]

mod answers;
mod counting;
mod locations;
mod names;
mod playing;

pub use answers::{help_text, no_such_name, nothing_to_hint, points_text, too_dear_text};
pub use locations::{checked_text, missing_text, remaining_text};
pub use names::name_of;
pub use playing::players_text;
