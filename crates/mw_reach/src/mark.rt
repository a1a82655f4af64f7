use crate::tally::Tally;

/// The places that were reached at some time, and the counts, to go back to.
#[derive(Drop)]
pub struct Mark {
    pub(crate) tally: Tally,
}
