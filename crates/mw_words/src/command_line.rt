//! What a command line asks for.
use mw_base::Text;

/// The words of `generate`.
#[derive(Drop)]
pub struct GenerateWords {
    /// The players file's name.
    pub players: Text,
    /// The name under which the seed file is written.
    pub out_name: Text,
    /// The seed's number.
    pub seed: u64,
    /// How many tries there are, 1 to 1,000.
    pub tries: u32,
}

/// The words of `check`.
#[derive(Drop)]
pub struct CheckWords {
    /// The players file's name.
    pub players: Text,
    /// The seed file's name.
    pub multidata: Text,
}

/// The words of `reach`.
#[derive(Drop)]
pub struct ReachWords {
    /// The players file's name.
    pub players: Text,
}

/// The words of `new-room`.
#[derive(Drop)]
pub struct NewRoomWords {
    /// The seed file's name.
    pub multidata: Text,
    /// The journal's name, or that of CHOICE.
    pub journal: Text,
    /// Whether the journal's name is that of CHOICE, the first of a pair room's three files.
    pub pair: bool,
}

/// The words of `drive`.
#[derive(Drop)]
pub struct DriveWords {
    /// The seed file's name.
    pub multidata: Text,
    /// The journal's name, or that of CHOICE; without one the room is kept in a new journal in
    /// memory.
    pub journal: Option<Text>,
    /// Whether the journal's name, if there is one, is that of CHOICE.
    pub pair: bool,
}

/// The words of `serve`.
#[derive(Drop)]
pub struct ServeWords {
    /// The seed file's name.
    pub multidata: Text,
    /// The journal's name, or that of CHOICE.
    pub journal: Text,
    /// Whether the journal's name is that of CHOICE.
    pub pair: bool,
    /// The address at which clients connect.
    pub bind: Text,
    /// How many clients are served at once, 1 to 64.
    pub workers: u32,
    /// After how many accepted connections the room ends, 1 to 4,294,967,295; None where it goes on.
    pub accept: Option<u64>,
}

/// The words of `stress`.
#[derive(Drop)]
pub struct StressWords {
    /// How many players there are, 1 to 64.
    pub players: u32,
    /// The seed's number.
    pub seed: u64,
}

/// The words of `thin`.
#[derive(Drop)]
pub struct ThinWords {
    /// The seed file's name.
    pub multidata: Text,
    /// The name of CHOICE, the first of a pair room's three files.
    pub choice: Text,
}

/// What a command line asks for.
#[derive(Drop)]
pub enum CommandLine {
    /// A seed file is to be made.
    Generate(GenerateWords),
    /// A seed file is to be judged.
    Check(CheckWords),
    /// What is reached is to be told.
    Reach(ReachWords),
    /// A room's journal is to be made.
    NewRoom(NewRoomWords),
    /// A script is to be run on a room.
    Drive(DriveWords),
    /// A room is to be hosted.
    Serve(ServeWords),
    /// A world that many play is to be driven through generator and room.
    Stress(StressWords),
    /// What still counts of a pair room's journal is to be kept in its other one.
    Thin(ThinWords),
}
