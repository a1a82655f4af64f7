use crate::frontier::Frontier;
use crate::row::Rows;
use crate::split::Split;
use crate::tally::Tally;

/// The rows of a joint, and room to work in.
pub struct Work {
    pub rows: Rows,
    pub split: Split,
    pub tally: Tally,
    pub frontier: Frontier,
}

/// By hand, so that whoever lets it go calls this, and what it frees is listed once.
impl Drop for Work {
    fn drop(self) {
        let Work {
            rows: _,
            split: _,
            tally: _,
            frontier: _,
        } = self;
    }
}
