//! The names of games with their ids, and their checksums.
#![tactic(auto)]

mod game;
mod games;
mod names;
mod played;
mod wanted;

pub use game::{checksum, game_data};
pub use games::package;
pub use names::checksum_of_game;
pub use played::is_played;
