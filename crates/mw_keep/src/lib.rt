//! A room that is kept in a journal: each call's reply, and what a crash at any moment leaves.
#![tactic(auto)]

mod append;
mod call;
mod error;
mod kept;
pub mod laws;
mod recovery;
mod reply;
mod standing;

pub use call::Call;
pub use error::KeepError;
pub use kept::{KeptRoom, Origin};
pub use recovery::{recover, resume};
pub use reply::{Reply, StopCause};
