ghost use Rattle.std.specs.Prelude.{◌≡◌, IfOk, map};
ghost use Rattle.mw_script.specs.Commands.{command_view};
ghost use Rattle.mw_script.specs.Gives.{GivesScript};
ghost use Rattle.mw_script.specs.Lines.{lines_of, ended_lines};
ghost use Rattle.mw_script.specs.Script.{first_refused as first_refused_lem, too_long as too_long_lem, commands_in, script_of};

use crate::built::add_line;
use crate::command::Command;
use crate::line::is_line;
use crate::lines::{split_ended, split_line};
use mw_base::{List, Memory};
use mw_json::Workspace;
use std::alloc::Global;
use thiserror::Error;

/// Why a script gives no commands. Lines are counted from 1.
#[derive(Clone, Copy, Debug, PartialEq, Eq, Error)]
pub enum ScriptError {
    /// Memory ran out.
    #[error("no memory")]
    Memory,
    /// The grammar refuses the line, or the script passes its limit there.
    #[error("script refused: line {line}")]
    Refused { line: u64 },
}

impl From<Memory> for ScriptError {
    ghost use Rattle.std.specs.Prelude.{◌≡◌};
    ghost use Rattle.mw_script.specs.declared.script.ScriptError.TheVariants.{Memory as OutOfMemory};

    ghost from_gives = { λ _ e. e ≡ OutOfMemory };

    fn from(_error: Memory) -> Self {
        ScriptError::Memory
    }
}

/// The number of the first line that the grammar refuses.
fn first_refused(script: &[u8]) -> Option<u64>
    ensures { result ≡ first_refused_lem 1 (lines_of script.now) }
{
    let mut rest = script;
    let mut number: u64 = 1;
    while !rest.is_empty() {
        let (line, others) = split_line(rest);
        if !is_line(line) {
            return Some(number);
        }
        rest = others;
        number += 1;
    }
    None
}

/// The line at which a script is refused that goes on after these bytes, its greatest length.
fn too_long(front: &[u8]) -> u64
    ensures { result ≡ too_long_lem (ended_lines front.now) }
{
    let mut rest = front;
    let mut number: u64 = 1;
    while let Some((line, others)) = split_ended(rest) {
        if !is_line(line) {
            return number;
        }
        rest = others;
        number += 1;
    }
    number
}

/// The commands of lines.
fn commands_of(alloc: Global, script: &[u8]) -> Result<List<Command>, Memory>
    ensures { IfOk result (λ commands. map command_view commands
        ≡ commands_in (lines_of script.now)) }
{
    let mut commands = List::new(alloc);
    let mut space = Workspace::new(alloc);
    let mut rest = script;
    while !rest.is_empty() {
        let (line, others) = split_line(rest);
        add_line(alloc, &mut space, &mut commands, line)?;
        rest = others;
    }
    Ok(commands)
}

/// The commands of a script's lines, in order. The script has at most 67,108,864 bytes: of a longer
/// one it is enough to give one byte more. The errors are `Refused` at the first line that the
/// grammar refuses, or else at the line that passes the limit, and `Memory`.
pub fn judge_script(alloc: Global, script: &[u8]) -> Result<List<Command>, ScriptError>
    ensures { GivesScript result (script_of script.now) }
{
    if script.len() > 67_108_864 {
        return Err(ScriptError::Refused {
            line: too_long(&script[..67_108_864]),
        });
    }
    if let Some(line) = first_refused(script) {
        return Err(ScriptError::Refused { line });
    }
    Ok(commands_of(alloc, script)?)
}
