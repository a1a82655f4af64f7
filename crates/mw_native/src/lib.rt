//! Rules that a program answers itself.
#![tactic(auto)]

mod pair;
mod told;

pub use pair::Pair;
pub use told::Told;
