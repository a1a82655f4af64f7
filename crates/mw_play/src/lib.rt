//! A client that plays over a line and keeps its items in a save file.
#![tactic(auto)]

mod end;
mod input;
mod over;
mod player;
mod printing;
mod run;
mod save_error;
mod save_file;
mod saving;
mod turns;
mod words;

pub use end::PlayEnd;
pub use over::{CutShort, Over};
pub use player::Player;
pub use run::run_play;
pub use save_error::{SaveError, SaveRefusal};
pub use save_file::{open_save, save_digest};
pub use turns::{Played, play_on};
pub use words::{PlayWords, read_play_words};
