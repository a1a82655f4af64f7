use crate::bad::Bad;
use crate::packet::Packet;

/// An element of a client's message.
#[derive(Drop)]
pub enum Inbound {
    /// It is a packet.
    Good(Packet),
    /// It is none.
    Wrong(Bad),
}
