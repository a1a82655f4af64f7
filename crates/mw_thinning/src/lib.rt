//! Which records of a journal still count, and that a room which goes on from these alone owes what
//! it would have owed.
#![tactic(auto)]

mod laws;

pub use laws::{
    checkpoints_change_nothing, clients_apply_across, histories_owe_the_same,
    shown_is_checked_across, tails_across, thinned_is_the_same,
};
