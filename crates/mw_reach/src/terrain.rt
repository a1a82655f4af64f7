use crate::row::Rows;
use crate::split::Split;
use mw_multi::{Joint, Placed};

/// What a walk reads and leaves as it is.
pub(crate) struct Terrain<'a, R> {
    pub joint: &'a Joint<'a>,
    /// Who answers the joint's rules.
    pub rules: &'a R,
    /// The joint's steps.
    pub rows: &'a Rows,
    pub split: &'a Split,
    /// What lies at the places.
    pub placed: &'a Placed,
}

/// By hand, since whoever answers rules need not be let go.
impl<R> Drop for Terrain<'_, R> {
    fn drop(self) {
        let Terrain {
            joint: _,
            rules: _,
            rows: _,
            split: _,
            placed: _,
        } = self;
    }
}
