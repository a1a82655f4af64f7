//! The three files of a pair room in a folder: made, thinned, and opened to be played.
#![tactic(auto)]

mod choosing;
mod folder_files;
mod making;
mod names;
mod thinning;

pub use choosing::{Chosen, close_chosen, open_chosen};
pub use making::make_pair;
pub use names::PairNames;
pub use thinning::thin_pair;
