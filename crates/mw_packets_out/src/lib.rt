//! What a room tells a session, as values and as text.
#![tactic(auto)]

mod bounced;
mod connected;
mod data_package;
mod joining;
mod lists;
mod packet;
mod people;
mod placing;
mod print;
mod refusals;
mod room;
mod room_info;
mod slot_info;
mod values;
mod write;
mod written;

pub use bounced::Bounced;
pub use data_package::DataPackage;
pub use joining::{write_both, write_message, write_with};
pub use lists::{item_tree, texts_tree};
pub use packet::{InvalidKind, ServerPacket};
pub use people::{Connected, NetworkPlayer, NetworkSlot};
pub use print::PrintJson;
pub use room::{GameSum, RoomInfo};
pub use values::{Retrieved, SetReply};
pub use write::packet_text;
