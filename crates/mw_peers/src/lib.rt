//! Links for tests, which wait for one another.
#![tactic(auto)]

mod waiting;

pub use waiting::{Coming, WaitingLink};
