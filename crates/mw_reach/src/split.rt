use crate::table::Table;

/// The steps at each place, split by whether they have to be asked. A leaf is a place that no step waits for; one that a step
/// leads to whose rule always holds is in the list wherever the step's start is.
pub struct Split {
    /// For each place, the numbers of the steps there that have to be asked, ascending.
    pub asked: Table,
    /// For each place, the leaves that the others lead to.
    pub leaves: Table,
}

/// By hand, so that whoever lets it go calls this, and what it frees is listed once.
impl Drop for Split {
    fn drop(self) {
        let Split {
            asked: _,
            leaves: _,
        } = self;
    }
}
