//! Why commands end before their work is done: what each cause answers, and how a command then ends;
//! and the files that commands read, each with why it may be refused.
#![tactic(auto)]

mod check_cause;
mod drive_cause;
mod generate_cause;
mod pair_drive_cause;
mod pair_refusal;
mod room_cause;
mod seed;
mod seed_cause;
mod stop;
mod table_cause;
mod tables;
mod telling;
mod thin_cause;

pub use check_cause::CheckCause;
pub use drive_cause::DriveCause;
pub use generate_cause::{GenerateCause, refusal_stop};
pub use pair_drive_cause::{PairDriveCause, choice_stop};
pub use pair_refusal::PairRefusal;
pub use room_cause::{RoomCause, making_stop, room_stop};
pub use seed::{SeedBytes, read_digest, read_seed, read_seed_bytes};
pub use seed_cause::SeedCause;
pub use stop::{Cause, Stop, end};
pub use table_cause::TableCause;
pub use tables::{Tables, join, read_tables};
pub use telling::{end_without_memory, put_file, put_text, tell};
pub use thin_cause::{ThinCause, thin_stop};
