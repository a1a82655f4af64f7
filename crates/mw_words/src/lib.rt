//! The words of the command line, as `clap` reads them, and the command that they ask for.
#![tactic(auto)]

mod arguments;
mod command_line;
mod commands;
mod error;
mod given;
mod number;
mod words;

pub use command_line::{
    CheckWords, CommandLine, DriveWords, GenerateWords, NewRoomWords, ReachWords, ServeWords,
    StressWords, ThinWords,
};
pub use error::WordsError;
pub use given::given_words;
pub use number::number_of;
pub use words::{has_one_meaning, read_words};
