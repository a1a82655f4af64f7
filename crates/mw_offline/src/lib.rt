//! The commands that don't wait, each with its statuses.
#![tactic(auto)]

mod check_command;
mod creating;
mod drive_command;
mod drive_pair;
mod generate_command;
mod laws;
mod new_pair;
mod new_room;
mod pair_room;
mod reach;
mod reaching;
mod stress_calls;
mod stress_command;
mod stress_room;
mod thin_command;

pub use check_command::cmd_check;
pub use drive_command::cmd_drive;
pub use generate_command::cmd_generate;
pub use laws::{generate_is_one, journals_keep};
pub use mw_causes::{
    CheckCause, DriveCause, GenerateCause, PairDriveCause, RoomCause, SeedCause, Stop, TableCause,
    ThinCause,
};
pub use mw_seeds::seed_file;
pub use mw_words::{
    CheckWords, DriveWords, GenerateWords, NewRoomWords, ReachWords, StressWords, ThinWords,
};
pub use new_room::cmd_new_room;
pub use pair_room::{PairRoom, open_pair_room};
pub use reach::cmd_reach;
pub use stress_command::cmd_stress;
pub use thin_command::cmd_thin;
