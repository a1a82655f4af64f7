ghost use Rattle.std.specs.Prelude.{◌≡◌};

use crate::text::Text;
use std::marker::Model;

/// Who may use a command of the room, and when.
#[derive(Clone, Copy)]
pub enum Permission {
    /// Never.
    Disabled,
    /// At any time, by command.
    Enabled,
    /// By command, after the slot's goal.
    Goal,
    /// By itself at the slot's goal, and by command after it.
    Auto,
    /// By itself at the slot's goal, and by command at any time.
    AutoEnabled,
}

impl Permission {
    ghost use Rattle.mw_base.specs.Permissions.{permission_number};

    /// Its number in Archipelago's network protocol: 0, 1, 2, 6 or 7.
    pub fn number(self) -> u8
        ensures { result ≡ permission_number self }
    {
        match self {
            Permission::Disabled => 0,
            Permission::Enabled => 1,
            Permission::Goal => 2,
            Permission::Auto => 6,
            Permission::AutoEnabled => 7,
        }
    }
}

/// The settings of a room.
#[derive(Drop)]
pub struct RoomOptions {
    /// At most 128 characters; empty where the room asks for none.
    pub password: Text,
    /// The cost of a hint in hundredths of a slot's locations, 0 to 1,000.
    pub hint_cost: u32,
    /// What a checked location is worth, 0 to 1,000,000.
    pub location_check_points: u32,
    /// Who may release the items of its world.
    pub release: Permission,
    /// Who may collect its items.
    pub collect: Permission,
    /// Who may ask what is left: disabled, enabled or goal.
    pub remaining: Permission,
}

impl Model for RoomOptions {
    ghost use Rattle.mw_base.specs.Permissions.{permission_number};
    ghost use Rattle.mw_model.specs.Seed as plain;

    ghost Value = { plain.RoomOptions };

    ghost view = { λ o. record {
      password = o.password;
      hint_cost = o.hint_cost;
      location_check_points = o.location_check_points;
      release = permission_number o.release;
      collect = permission_number o.collect;
      remaining = permission_number o.remaining;
    } };
}
