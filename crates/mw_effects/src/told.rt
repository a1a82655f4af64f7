ghost use Rattle.std.specs.Prelude.{◌≡◌, IfOk};
ghost use Rattle.mw_protocol.specs.Messages.{packet_text as packet_text_lem};
ghost use Rattle.mw_effects.specs.Views.{told_view};

use mw_base::{Memory, NetItem, Text};
use mw_chat::item_send;
use mw_packets_out::{ServerPacket, packet_text};
use std::alloc::Global;

/// What several sessions are told.
#[derive(Drop)]
pub enum Told {
    /// This packet.
    Packet(ServerPacket),
    /// That an item was found, and who gets it: a print, which is made where somebody hears it.
    Found { item: NetItem, receiver: u16 },
}

impl Told {
    /// The packet as a text.
    pub fn text(&self, alloc: Global) -> Result<Text, Memory>
        ensures { IfOk result (λ t. t ≡ packet_text_lem (told_view self.now)) }
    {
        match self {
            Told::Packet(packet) => packet_text(alloc, packet),
            Told::Found { item, receiver } => {
                let print = item_send(alloc, item, *receiver)?;
                packet_text(alloc, &print)
            }
        }
    }
}
