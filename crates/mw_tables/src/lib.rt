//! World files and players files: read whole, or refused at the first value that breaks their tables.
#![tactic(auto)]

mod format;
mod item_names;
mod judge;
mod link_names;
mod links_shape;
mod named;
mod named_rows;
mod names;
mod once;
mod parts;
mod player_names;
mod player_options;
mod players_reading;
mod players_shape;
mod raw;
mod raw_parts;
mod raw_rule;
mod room_options;
mod rule_forms;
mod rule_names;
mod rules;
mod tables;
mod world_entrances;
mod world_items;
mod world_locations;
mod world_names;
mod world_parts;
mod world_pool;
mod world_reading;
mod world_shape;

pub use mw_json::Refusal as TableRefusal;
pub use players_reading::read_players;
pub use world_reading::read_world;
