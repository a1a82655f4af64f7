//! A client of a room: what it hears, the list of items that it keeps, how it is saved, and what it
//! sends.
#![tactic(auto)]

mod answer;
mod body;
mod client;
mod entry;
mod error;
mod hearing;
mod items;
mod laws;
mod news;
mod play;
mod saved;
mod sending;
mod step;

pub use answer::Answer;
pub use client::Client;
pub use error::SavedError;
pub use hearing::news_in;
pub use laws::{lists_only_grow, lists_stay_fronts};
pub use news::{News, Received};
pub use play::{Play, Turn};
pub use saved::saved_list;
pub use sending::{Who, answer_text};
pub use step::Step;
