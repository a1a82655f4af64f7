//! What stands in a room, and the effects of what its members send: checks, gifts, bounces, notices
//! and the data storage. `Memory` is the only error that a function here has.
#![tactic(auto)]

mod bounces;
mod effect;
mod entered;
mod gets;
mod giving;
mod locating;
mod member;
mod naming;
mod news;
mod notices;
mod packages;
mod player;
mod ranges;
mod refusals;
mod scouts;
mod standing;
mod status;
mod storing;
mod told;

pub use bounces::{Named, bouncing, is_named};
pub use effect::{
    Announced, Audience, Effect, NewValue, announcing, answering, nothing, one_told, quiet, telling,
};
pub use gets::reading;
pub use giving::{Given, Giving, at_goal, given_by, is_allowed};
pub use locating::checking;
pub use member::{Member, tags_or, updated};
pub use news::{Pair, found_item, items_for_member, locations_for_member};
pub use notices::watching;
pub use packages::data_package;
pub use player::Player;
pub use ranges::{kept, playable};
pub use refusals::{already_connected, invalid_packet};
pub use scouts::scouts_of;
pub use standing::Standing;
pub use status::{SlotStatus, set_status};
pub use storing::{changing, keys_in, put_stored};
pub use told::Told;
