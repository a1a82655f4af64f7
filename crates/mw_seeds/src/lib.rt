//! A joint's seed file: its making, by what rules are asked, whether one is right for the joint, and
//! the lines of its playthrough.
#![tactic(auto)]

mod agreeing;
mod catalog;
mod checking;
mod file_puts;
mod keys;
mod made_seed;
mod making;
mod owners;
mod played_lines;
mod refusal;
mod seed_games;
mod seed_groups;
mod seed_locations;
mod seed_slots;

pub use agreeing::placement_in;
pub use checking::check_seed;
pub use made_seed::{MadeSeed, make_seed, make_seed_by};
pub use making::seed_file;
pub use played_lines::{first_name, with_played};
pub use refusal::SeedRefusal;
