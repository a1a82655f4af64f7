ghost use Rattle.std.specs.Prelude.{◌≡◌, ◌++◌, IfOk, OnOk, string_bytes};
ghost use Rattle.mw_drive.specs.Drive.{message_line, message_lines, gone_line, overrun_line};

use mw_base::{List, Memory, Text};
use std::alloc::Global;
use std::fmt::Write;

/// Adds a message on a line of its own.
fn add_message(out: &mut String, session: u64, text: &Text) -> Result<(), Memory>
    ensures { OnOk result (string_bytes out.new ≡ string_bytes out.old
        ++ message_line session text.now) }
{
    let text = text.as_str();
    write!(out, "{session} {text}\n")?;
    Ok(())
}

/// Messages, each on a line of its own.
pub(crate) fn messages(alloc: Global, session: u64, texts: &List<Text>) -> Result<String, Memory>
    ensures { IfOk result (λ t. string_bytes t ≡ message_lines session texts.now) }
{
    let mut out = String::new(alloc);
    for text in texts.as_slice() {
        add_message(&mut out, session, text)?;
    }
    Ok(out)
}

/// The line of a session that isn't open.
pub(crate) fn gone(alloc: Global, session: u64) -> Result<String, Memory>
    ensures { IfOk result (λ t. string_bytes t ≡ gone_line session) }
{
    Ok(format!(in alloc; "{session} gone\n")?)
}

/// The line of a session that was owed more than it may keep.
pub(crate) fn overrun(alloc: Global, session: u64) -> Result<String, Memory>
    ensures { IfOk result (λ t. string_bytes t ≡ overrun_line session) }
{
    Ok(format!(in alloc; "{session} overrun\n")?)
}
