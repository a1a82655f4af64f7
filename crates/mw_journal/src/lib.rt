//! Batches of bytes behind gates in a file, which a crash at any moment leaves whole.
#![tactic(auto)]

mod commit;
mod creating;
mod error;
mod gate;
mod header;
mod journal;
mod opening;
mod scan;
mod state;
mod steps;

pub use creating::create;
pub use error::{AppendError, OpenError};
pub use journal::Journal;
pub use opening::open;
pub use state::JournalState;
