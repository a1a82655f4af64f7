//! The run of a script of `drive` on a room that is kept in a journal.
#![tactic(auto)]

mod acting;
mod crash;
mod drive;
mod error;
mod input;
mod performing;
mod printing;
mod run;

pub use acting::stop_error;
pub use crash::drive_error;
pub use drive::drive_on;
pub use error::{DriveError, JournalRefusal};
