//! Why the tables of a players file are refused.
ghost use Rattle.std.specs.Prelude.{◌≡◌, ◌++◌, IfOk, string_bytes, codes, decimal};
ghost use Rattle.mw_causes.specs.Tables.{table_line, joint_text, unknown_text};
ghost use Rattle.mw_causes.specs.declared.table_cause.TableCause.TheVariants.{TooLong, File, Joined};

use crate::stop::{Cause, Stop};
use mw_base::{Memory, Text};
use mw_json::{Kind, Path, kind_word, path_words};
use mw_multi::{JointRefusal, OptionName};
use std::alloc::Global;

/// Why the tables of a players file are refused.
#[derive(Drop)]
pub enum TableCause {
    /// A players file or world file is over its limit.
    TooLong {
        /// The file's name.
        file: Text,
    },
    /// A players file or world file is refused.
    File {
        /// The file's name.
        file: Text,
        /// The cause.
        kind: Kind,
        /// Where it stands.
        path: Path,
    },
    /// The tables can't be joined.
    Joined {
        /// The cause, which isn't want of memory.
        refusal: JointRefusal,
    },
}

fn long_file_line(alloc: Global, file: &Text) -> Result<String, Memory>
    ensures { IfOk result (λ t. string_bytes t ≡ table_line (TooLong file.now)) }
{
    let file = file.as_str();
    Ok(format!(in alloc; "refused: {file} TooLong /\n")?)
}

fn file_line(alloc: Global, file: &Text, kind: Kind, path: &Path) -> Result<String, Memory>
    ensures { IfOk result (λ t. string_bytes t ≡ table_line (File file.now kind path.now)) }
{
    let file = file.as_str();
    let word = kind_word(kind);
    let place = path_words(alloc, path)?;
    let place = place.as_str();
    Ok(format!(in alloc; "refused: {file} {word} {place}\n")?)
}

fn option_words(alloc: Global, slot: u16, option: OptionName) -> Result<String, Memory>
    ensures { IfOk result (λ t. string_bytes t ≡ unknown_text slot option) }
{
    let slot = u64::from(slot);
    let option = option.name();
    Ok(format!(in alloc; "UnknownName {slot} {option}")?)
}

fn unknown_name_words(
    alloc: Global,
    slot: u16,
    option: OptionName,
    place: u64,
) -> Result<String, Memory>
    ensures { IfOk result (λ t. string_bytes t ≡ unknown_text slot option
        ++ (codes " " ++ decimal place)) }
{
    let front = option_words(alloc, slot, option)?;
    let front = front.as_str();
    Ok(format!(in alloc; "{front} {place}")?)
}

fn joint_words(alloc: Global, refusal: &JointRefusal) -> Result<String, Memory>
    ensures { IfOk result (λ t. string_bytes t ≡ joint_text refusal.now) }
{
    match refusal {
        JointRefusal::GameTwice { world } => Ok(format!(in alloc; "GameTwice {world}")?),
        JointRefusal::UnknownName {
            slot,
            option,
            place,
        } => unknown_name_words(alloc, *slot, *option, *place),
        JointRefusal::LinkGame { link } => Ok(format!(in alloc; "LinkGame {link}")?),
        JointRefusal::LinkName { link, place } => {
            Ok(format!(in alloc; "LinkName {link} {place}")?)
        }
        JointRefusal::TooManyPlaces { have } => Ok(format!(in alloc; "TooManyPlaces {have}")?),
        JointRefusal::TooMuchText { have } => Ok(format!(in alloc; "TooMuchText {have}")?),
        JointRefusal::Memory => Ok(String::from_str(alloc, "no memory")?),
    }
}

fn joint_line(alloc: Global, refusal: &JointRefusal) -> Result<String, Memory>
    ensures { IfOk result (λ t. string_bytes t ≡ table_line (Joined refusal.now)) }
{
    let words = joint_words(alloc, refusal)?;
    let words = words.as_str();
    Ok(format!(in alloc; "refused: {words}\n")?)
}

impl Cause for TableCause {
    ghost use Rattle.mw_causes.specs.Tables.{table_status, table_line};

    ghost status_of = { table_status };

    ghost line_of = { table_line };

    fn status(&self) -> u8 {
        3
    }

    fn line(&self, alloc: Global) -> Result<String, Memory> {
        match self {
            TableCause::TooLong { file } => long_file_line(alloc, file),
            TableCause::File { file, kind, path } => file_line(alloc, file, *kind, path),
            TableCause::Joined { refusal } => joint_line(alloc, refusal),
        }
    }
}

impl From<JointRefusal> for Stop<TableCause> {
    ghost use Rattle.mw_causes.specs.Tables.{joint_stop};

    ghost from_gives = { λ refusal e. e ≡ joint_stop refusal };

    fn from(refusal: JointRefusal) -> Self {
        match refusal {
            JointRefusal::Memory => Stop::Memory,
            refusal => Stop::Refused {
                cause: TableCause::Joined { refusal },
            },
        }
    }
}
