//! Draws from a stream of words, and the assumed fill.
#![tactic(auto)]

mod allowed;
mod anywhere;
mod assumed;
mod copies;
mod draws;
mod error;
mod generating;
mod going_on;
mod group;
mod item_copy;
mod laws;
mod laying;
mod lists;
mod locality;
mod missable;
mod one_try;
mod opening;
mod openings;
mod order;
mod owned;
mod placement;
mod seed;
mod taken;

pub use draws::{Words, draw, shuffle};
pub use error::FillError;
pub use generating::{generate, generate_by};
pub use laws::has_one_outcome;
pub use one_try::{fill_try, fill_try_by, fill_try_counted};
pub use seed::{GenerateError, Seed};
