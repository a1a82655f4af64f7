use crate::counts::Buyer;
use crate::kept::{Kept, Key};
use crate::widening::Wider;

/// The memory that a hint book needs for more records, taken ahead.
#[derive(Drop)]
pub struct HintGrowth {
    pub(crate) hints: Wider<Key, Kept>,
    pub(crate) buyers: Wider<Buyer, u64>,
}
