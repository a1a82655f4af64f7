use crate::bounced::Bounced;
use crate::data_package::DataPackage;
use crate::people::Connected;
use crate::print::PrintJson;
use crate::room::RoomInfo;
use crate::values::{Retrieved, SetReply};
use mw_base::{List, NetItem, Text};

/// What is wrong with what a client sent.
#[derive(Clone, Copy)]
pub enum InvalidKind {
    /// It is no list of packets, or the packet has no command that there is.
    Cmd,
    /// A member is missing or of another kind, or the packet can't be done.
    Arguments,
}

/// What a room tells a session, after Archipelago's network protocol.
pub enum ServerPacket {
    /// The room, to a session that was just opened.
    RoomInfo(RoomInfo),
    /// The answer to a Connect that is accepted.
    Connected(Connected),
    /// The session's items from a place in its list on.
    ReceivedItems {
        /// The place of the first item, from 0.
        index: u64,
        /// The items.
        items: List<NetItem>,
    },
    /// Locations of the slot that were checked, and its points.
    RoomUpdate {
        /// The new ones, in the order in which they were checked.
        checked_locations: List<i64>,
        /// What the slot's checked locations are worth.
        hint_points: u64,
    },
    /// The answer to a Connect that is refused.
    ConnectionRefused {
        /// Why, a word for each cause.
        errors: List<Text>,
    },
    /// What stands at locations.
    LocationInfo {
        /// Each item with its receiver as player.
        locations: List<NetItem>,
    },
    /// The names of games.
    DataPackage(DataPackage),
    /// The answer to what is no packet, or can't be done.
    InvalidPacket {
        /// What is wrong with it.
        kind: InvalidKind,
        /// The packet's command, where it has one.
        original_cmd: Option<Text>,
        /// Why.
        text: Text,
    },
    /// A text of the room for its players.
    PrintJson(PrintJson),
    /// The answer to a question for values of the data storage.
    Retrieved(Retrieved),
    /// What a change made of a key's value.
    SetReply(SetReply),
    /// A message of a client.
    Bounced(Bounced),
}

/// By hand, so that whoever lets it go calls this, and what it frees is listed once.
impl Drop for ServerPacket {
    fn drop(self) {
        match self {
            ServerPacket::RoomInfo(_) => {}
            ServerPacket::Connected(_) => {}
            ServerPacket::ReceivedItems { index: _, items: _ } => {}
            ServerPacket::RoomUpdate {
                checked_locations: _,
                hint_points: _,
            } => {}
            ServerPacket::ConnectionRefused { errors: _ } => {}
            ServerPacket::LocationInfo { locations: _ } => {}
            ServerPacket::DataPackage(_) => {}
            ServerPacket::InvalidPacket {
                kind: _,
                original_cmd: _,
                text: _,
            } => {}
            ServerPacket::PrintJson(_) => {}
            ServerPacket::Retrieved(_) => {}
            ServerPacket::SetReply(_) => {}
            ServerPacket::Bounced(_) => {}
        }
    }
}
