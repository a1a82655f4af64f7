//! The room: what each event makes of it, without its journal.
#![tactic(auto)]

mod acts;
mod changes;
mod connect;
mod entering;
mod event;
mod growths;
mod hinting;
mod packets;
mod people;
mod plan;
mod replay;
mod room;
mod scouting;
mod session;
mod sessions;
mod speaking;
mod state;

pub use event::Event;
pub use plan::Plan;
pub use room::Room;
pub use state::SessionState;
