//! The least list of places that the rules of joined worlds allow.
#![tactic(auto)]

mod always;
mod build;
mod draft;
mod frontier;
mod goals;
mod lack;
mod leaf;
mod least;
mod mark;
mod notes;
mod prepare;
mod reached;
mod required;
mod row;
mod split;
mod splitting;
mod table;
mod tally;
mod terrain;
mod walk;
mod watch;
mod work;
mod worklist;

pub use goals::{unmet_goal, unmet_goal_by};
pub use lack::Lack;
pub use least::{go_on, go_on_by, reach, reach_by, reach_counted};
pub use mark::Mark;
pub use reached::Reached;
pub use required::{first_lack, first_lack_by, is_required_by, missed_location};
