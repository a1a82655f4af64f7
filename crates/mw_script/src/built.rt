ghost use Rattle.std.specs.Prelude.{◌≡◌, ◌++◌, ◌∷◌, [], OnOk, IfOk, map};
ghost use Rattle.std.specs.Option.{option_to_list};
ghost use Rattle.mw_packets_in.specs.PacketsOf.{packets_of as packets_of_lem};
ghost use Rattle.mw_script.specs.Commands.{command_view, sends};
ghost use Rattle.mw_script.specs.Lines.{line_of as line_of_lem};
ghost use Rattle.mw_script.specs.Script.{asked_by};

use crate::command::Command;
use crate::line::{Line, line_of};
use mw_base::{List, Memory};
use mw_json::Workspace;
use mw_packets_in::packets_of_in;
use std::alloc::Global;

/// The command of a session's message.
fn command_by(
    alloc: Global,
    space: &mut Workspace,
    session: u64,
    message: &str,
) -> Result<Option<Command>, Memory>
    ensures { IfOk result (λ found. map command_view (option_to_list found)
        ≡ sends session (packets_of_lem message.now) ∷ []) }
{
    let message = packets_of_in(alloc, space, message)?;
    Ok(Some(Command::Send { session, message }))
}

/// The command of a line; None where it asks for nothing.
fn command_in(alloc: Global, space: &mut Workspace, line: &[u8]) -> Result<Option<Command>, Memory>
    ensures { IfOk result (λ found. map command_view (option_to_list found)
        ≡ asked_by (line_of_lem line.now)) }
{
    match line_of(line) {
        Some(Line::Open(time)) => Ok(Some(Command::Open { time })),
        Some(Line::Text(session, message)) => command_by(alloc, space, session, message),
        Some(Line::Take(session)) => Ok(Some(Command::Take { session })),
        Some(Line::Lost(session)) => Ok(Some(Command::Lose { session })),
        Some(Line::Commit) => Ok(Some(Command::Commit)),
        Some(Line::Crash) => Ok(Some(Command::Crash)),
        Some(Line::Nothing) | None => Ok(None),
    }
}

/// Adds what a line asks for to the commands of the lines before it.
pub(crate) fn add_line(
    alloc: Global,
    space: &mut Workspace,
    commands: &mut List<Command>,
    line: &[u8],
) -> Result<(), Memory>
    ensures { OnOk result (map command_view commands.new
        ≡ map command_view commands.old ++ asked_by (line_of_lem line.now)) }
{
    if let Some(command) = command_in(alloc, space, line)? {
        commands.push(command)?;
    }
    Ok(())
}
