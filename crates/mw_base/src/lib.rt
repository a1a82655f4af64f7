//! Numbers in their ranges, owned texts, bytes and lists, and the plain data that every crate above speaks of.
#![tactic(auto)]

mod growth;
mod hint;
mod ids;
mod item;
mod list;
mod memory;
mod options;
mod spheres;
mod status;
mod text;
mod texts;

pub use growth::Growth;
pub use hint::HintRecord;
pub use ids::{ItemId, LocId, SessionId, SlotId, TeamId};
pub use item::NetItem;
pub use list::{Bytes, List};
pub use memory::Memory;
pub use options::{Permission, RoomOptions};
pub use spheres::{SphereList, Spot};
pub use status::{ClientStatus, HintStatus};
pub use text::Text;
pub use texts::{copy_texts, has_text};
