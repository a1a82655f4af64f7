//! What a session is owed of an effect: what it hears, its items and its points. `Memory` is the only
//! error that a function here has.
#![tactic(auto)]

mod concerning;
mod hearing;
mod message;
mod owed;
mod receivers;
mod shared;
mod telling;

pub use concerning::may_owe;
pub use hearing::put_heard;
pub use message::{closed, put_packets};
pub use owed::{growth_owed, points_of};
pub use shared::{Shared, shared_of};
pub use telling::Telling;
