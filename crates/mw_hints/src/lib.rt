//! The hints of a room: who bought or scouted which, what they cost, and how they are told.
#![tactic(auto)]

mod answer;
mod book;
mod buying;
mod counts;
mod growth;
mod hint;
mod kept;
mod known;
mod listing;
mod names;
mod points;
mod scouting;
mod widening;

pub use answer::{HintAnswer, Wanted};
pub use book::HintBook;
pub use growth::HintGrowth;
pub use hint::Hint;
pub use known::known_locations;
pub use points::cost;
