//! Laws of every room: what is true of what its sessions hear and its journal comes to, whatever happens to it.
#![tactic(auto)]

mod laws;

pub use laws::{
    bounces_reach, clients_apply, clients_follow, events_tell, found_stays, gets_are_answered,
    journals_are_named, journals_grow, keys_stay, lives_keep, no_item_twice, no_text, paid_once,
    recorded_is_got, refused_sets_change_nothing, set_is_got, sets_are_told, shared_items_are_one,
    shown_is_checked, slots_never_owe, slots_stay, strangers_are_answered, strangers_hear,
    strangers_hear_no_others, tails_of_the_last_view, taken_was_owed, views_grow, watchers_stay,
    whole_views_are_owed,
};
