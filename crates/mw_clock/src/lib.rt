//! The world `Clockwork`, whose rules are code, and the commands that make its seed and its tables.
#![tactic(auto)]

mod laws;
mod line;
mod number;
mod rules;
mod run;
mod seed;
mod tables;
mod told;
mod trees;
mod world;

pub use laws::tables_join;
pub use number::gears_of;
pub use rules::{clock_named, clock_rule};
pub use run::run_clockwork;
pub use told::clock_told;
pub use world::world_of;
