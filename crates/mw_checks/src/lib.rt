//! The checks of a room: what was checked in each team, and what each slot received for it.
#![tactic(auto)]

mod asking;
mod check;
mod counts;
mod fresh;
mod given;
mod growth;
mod handling;
mod items;
mod lengths;
mod listing;
mod log;
mod places;
mod rows;
mod tail;
mod telling;

pub use check::Check;
pub use growth::CheckGrowth;
pub use log::CheckLog;
