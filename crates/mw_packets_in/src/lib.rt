//! What a client asks for, read from a message's text.
#![tactic(auto)]

mod bad;
mod connect;
mod further;
mod hints;
mod inbound;
mod laws;
mod locations;
mod message;
mod operations;
mod packet;
mod parts;
mod row;
mod status;
mod storage;
mod tags;
mod told;

pub use bad::{Bad, BadKind};
pub use connect::{Connect, ConnectUpdate, Version};
pub use hints::UpdateHint;
pub use inbound::Inbound;
pub use laws::{bounces_stay, gets_stay, sets_stay};
pub use locations::{LocationChecks, LocationScouts};
pub use message::{packets_of, packets_of_in};
pub use packet::Packet;
pub use status::StatusUpdate;
pub use storage::{Bounce, Get};
pub use tags::has_tag;
