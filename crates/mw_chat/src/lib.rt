//! What players say and what is printed to them: chat, commands and prints.
#![tactic(auto)]

mod found;
mod parts;
mod print;
mod prints;
mod say;

pub use found::{hint_print, item_send};
pub use parts::{part_item, part_location, part_player, part_text};
pub use prints::{
    changed_tags, chatted, collected, command_result, joined, left, reached_goal, released,
};
pub use say::{Said, parse_say};
