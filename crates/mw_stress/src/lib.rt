//! What `stress` plays: its world, its players and their seed, what their sessions send, and the
//! lines that tell what they received.
#![tactic(auto)]

mod lines;
mod packets;
mod players;
mod reading;
mod seed;
mod taken;
mod world;

pub use lines::text;
pub use packets::{checks_of_one, connect_of_player};
pub use players::stress_players;
pub use reading::add_items;
pub use seed::{StressError, StressSeed, made_seed, players_join};
pub use taken::Taken;
pub use world::stress_world;
