use mw_base::SessionId;
use mw_packets_in::{Bad as BadPacket, Packet as ClientPacket};

/// What happens to a room.
#[derive(Drop)]
pub enum Event {
    /// A session is opened, at a time in whole seconds.
    Open {
        /// The time.
        time: u64,
    },
    /// A session sends a packet.
    Packet {
        /// The session.
        session: SessionId,
        /// The packet.
        packet: ClientPacket,
    },
    /// A session sends what is no packet.
    Bad {
        /// The session.
        session: SessionId,
        /// What is wrong with it.
        bad: BadPacket,
    },
    /// A session ends.
    Lost {
        /// The session.
        session: SessionId,
    },
}
