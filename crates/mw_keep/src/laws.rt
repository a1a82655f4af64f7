//! What is true of every life of a room and of every run of lives, whatever calls and crashes come.
ghost use Rattle.mw_laws.specs.Naming.{NamesFit};

pub use mw_laws::{
    clients_apply, journals_are_named, lives_keep, no_item_twice, shown_is_checked,
    tails_of_the_last_view, taken_was_owed,
};
use mw_multidata::Multidata;
pub use mw_thinning::{
    checkpoints_change_nothing, clients_apply_across, histories_owe_the_same,
    shown_is_checked_across, tails_across, thinned_is_the_same,
};

/// A seed has no slot with more names than there are teams, and each of its locations is one of a
/// slot that is there. So what its room records names only what it has.
pub fn names_fit(multidata: &Multidata)
    ensures { NamesFit multidata.now }
{
    let _ = &multidata.seed_name;
}
