use crate::ids::{LocId, SlotId, TeamId};
use crate::status::HintStatus;

/// What is recorded of hints.
#[derive(Clone, Copy, PartialEq, Eq)]
pub enum HintRecord {
    /// A hint of where a finder's location stands is made.
    Made {
        /// The team.
        team: TeamId,
        /// The slot whose world has the location.
        finder: SlotId,
        /// The location.
        loc: LocId,
        /// Whether it was paid for.
        bought: bool,
        /// The slot that bought or scouted it.
        buyer: SlotId,
        /// Its status.
        status: HintStatus,
    },
    /// The hint of a team, a finder and a location gets a status.
    Marked {
        /// The team.
        team: TeamId,
        /// The slot whose world has the location.
        finder: SlotId,
        /// The location.
        loc: LocId,
        /// Its status.
        status: HintStatus,
    },
}
