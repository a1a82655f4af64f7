//! JSON texts in which each numeral that is no plain whole number stands as a string.
#![tactic(auto)]

mod laws;
mod marking;
mod numeral;
mod piece;
mod put;
mod unmarking;

pub use laws::{marks_are_read, marks_are_undone, numerals_are_told};
pub use marking::mark;
pub use numeral::{is_kept, whole_of};
pub use unmarking::unmark;
