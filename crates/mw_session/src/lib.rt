//! Sessions over links, and workers that serve them side by side.
#![tactic(auto)]

mod desk;
mod ended;
mod room;
mod served;
mod session;
mod worker;

pub use ended::Ended;
pub use room::{RoomEnd, serve_room};
pub use served::Served;
pub use session::serve_session;
