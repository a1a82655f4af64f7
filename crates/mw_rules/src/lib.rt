//! Rules over the counts of one slot's items and the list of its places.
#![tactic(auto)]

mod copy;
mod gather;
mod judge;
mod laws;
mod named;
mod rule;
mod ruling;
mod steps;

pub use judge::eval;
pub use laws::{hangs_on_names, names_lie_within, stays_true};
pub use named::Named;
pub use rule::Rule;
pub use ruling::Ruling;
pub use steps::{Steps, eval_counted};
