//! Checkpoints: what still counts of a room's journal goes into a second one, and a third file
//! names the one that counts.
#![tactic(auto)]

mod appending;
mod checkpointing;
mod choosing;
mod copying;
mod creating;
mod error;
mod files;
mod keys;
mod prepared;
mod preparing;
mod reading;
mod switching;
mod thinning;

pub use checkpointing::checkpoint;
pub use choosing::chosen;
pub use creating::create_pair;
pub use error::PairError;
pub use files::Files;
pub use prepared::Prepared;
pub use preparing::prepare;
pub use switching::{Kept, switch};
pub use thinning::thin;
