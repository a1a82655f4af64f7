ghost use Rattle.std.specs.Prelude.{◌≡◌, IfOk};

use crate::connect::{Connect, ConnectUpdate};
use crate::hints::UpdateHint;
use crate::locations::{LocationChecks, LocationScouts};
use crate::status::StatusUpdate;
use crate::storage::{Bounce, Get};
use mw_base::{List, Memory, Text};
use mw_json::SetPacket;
use std::alloc::Global;

/// What a client asks for, after Archipelago's network protocol. Whole numbers are from -2^63 to
/// 2^64 - 1. Where any value may stand, other numerals stand by their characters. The largest are
/// boxed, so that a list of many packets is small.
pub enum Packet {
    /// The session wants to play a slot.
    Connect(Box<Connect>),
    /// The session wants to hear of other items, or is another kind of client.
    ConnectUpdate(ConnectUpdate),
    /// The whole list of items again.
    Sync,
    /// Locations of the session's own slot are checked.
    LocationChecks(LocationChecks),
    /// What stands at locations of the session's own slot is asked for.
    LocationScouts(LocationScouts),
    /// A hint gets another status.
    UpdateHint(UpdateHint),
    /// The session's slot has a status.
    StatusUpdate(StatusUpdate),
    /// A text to all, or a command.
    Say {
        /// The text.
        text: Text,
    },
    /// The names of games are asked for.
    GetDataPackage {
        /// The games; all where it is absent.
        games: Option<List<Text>>,
    },
    /// A message for other clients.
    Bounce(Box<Bounce>),
    /// Values of the data storage are asked for.
    Get(Get),
    /// A value of the data storage is changed.
    Change(Box<SetPacket>),
    /// Changes of values are to be told to the session.
    SetNotify {
        /// Their keys.
        keys: List<Text>,
    },
}

/// By hand, so that whoever lets it go calls this, and what it frees is listed once.
impl Drop for Packet {
    fn drop(self) {
        match self {
            Packet::Connect(_) => {}
            Packet::ConnectUpdate(_) => {}
            Packet::Sync => {}
            Packet::LocationChecks(_) => {}
            Packet::LocationScouts(_) => {}
            Packet::UpdateHint(_) => {}
            Packet::StatusUpdate(_) => {}
            Packet::Say { text: _ } => {}
            Packet::GetDataPackage { games: _ } => {}
            Packet::Bounce(_) => {}
            Packet::Get(_) => {}
            Packet::Change(_) => {}
            Packet::SetNotify { keys: _ } => {}
        }
    }
}

/// A packet's members on the heap.
pub(crate) fn boxed<T: Drop>(alloc: Global, members: T) -> Result<Box<T>, Memory>
    ensures { IfOk result (λ b. b.value ≡ members) }
{
    Ok(Box::new(alloc, members)?)
}
