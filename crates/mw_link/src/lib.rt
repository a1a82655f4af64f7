//! Links that texts come and go over, gates that accept links, and dials that ask for them, each
//! with a count of its faults.
#![tactic(auto)]

mod counted;
mod dial;
mod frames;
mod gate;
mod link;
mod log;
mod memory;
mod memory_dial;
mod polled;
mod side;
mod socket;
mod steady;
mod tcp;
mod tcp_dial;

pub use counted::CountedLink;
pub use dial::Dial;
pub use gate::Gate;
pub use link::{Heard, Link, LinkError};
pub use log::Log;
pub use memory::{MemoryGate, MemoryLink};
pub use memory_dial::MemoryDial;
pub use side::{Accepted, Dialled, Side};
pub use socket::{LONGEST_TEXT, SocketLink};
pub use steady::{SteadyGate, SteadyLink};
pub use tcp::TcpGate;
pub use tcp_dial::TcpDial;
