ghost use Rattle.std.specs.Prelude.{◌<◌, ◌^◌, length};

use mw_base::{List, NetItem, Text};

/// What a packet of the room tells a client.
#[derive(Drop)]
pub enum News {
    /// RoomInfo: the room greets the session.
    Greeted,
    /// Connected: the session plays its slot.
    Joined,
    /// ConnectionRefused, with its errors.
    TurnedAway(List<Text>),
    /// ReceivedItems.
    Received(Received),
    /// Another packet, or none.
    Nothing,
}

/// Items of a slot's list.
#[derive(Drop)]
pub struct Received {
    /// The place of the first item in the list.
    pub index: u64,
    /// The items from there on, fewer than 2^32.
    pub items: List<NetItem>,
    ghost few: { length items < 2 ^ 32 },
}
