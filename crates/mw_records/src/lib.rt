//! What a room's journal records, as values and as bytes.
#![tactic(auto)]

mod checked;
mod decoding;
mod encoding;
mod error;
mod fields;
mod kinds;
mod parts;
mod record;
mod stop;
mod stored;
mod texts;

pub use checked::CheckedLocations;
pub use decoding::{decode, one_spelling, plain_values_stay};
pub use encoding::encode;
pub use error::RecordError;
pub use record::Record;
pub use stored::Stored;
