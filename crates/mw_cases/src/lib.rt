//! What rows read: the parts of a case, which stand in a line of a table, and the room of two slots that many play.
#![tactic(auto)]

mod case;
mod room_a;

pub use case::part;
pub use room_a::{ROOM_A, ROOM_A_INFO, ROOM_OF_DUO};
