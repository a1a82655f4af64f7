ghost use Rattle.std.specs.Prelude.{◌≡◌, ◌++◌, IfOk, OnOk, codes, map, string_bytes, if◌then◌else◌};
ghost use Rattle.mw_protocol.specs.Commands.{counted, listed};

use mw_base::{Memory, Text};
use std::alloc::Global;

/// Names in a row, with commas between them.
pub(crate) fn listed(alloc: Global, names: &[&str]) -> Result<String, Memory>
    ensures { IfOk result (λ t. string_bytes t ≡ listed (map (λ n. n.now) names.now)) }
{
    let mut text = String::new(alloc);
    for (i, name) in names.iter().enumerate() {
        push_name(&mut text, i > 0, name)?;
    }
    Ok(text)
}

/// Adds a name, after a comma where others stand before it.
fn push_name(text: &mut String, after: bool, name: &str) -> Result<(), Memory>
    ensures { OnOk result (string_bytes text.new
        ≡ string_bytes text.old ++ (if after then codes ", " ++ name.now else name.now)) }
{
    if after {
        text.push_str(", ")?;
    }
    text.push_str(name)?;
    Ok(())
}

/// How many names there are, a word of what they are, and the names in a row.
pub(crate) fn counted(alloc: Global, word: &str, names: &[&str]) -> Result<Text, Memory>
    ensures { IfOk result (λ t. t ≡ counted word.now (map (λ n. n.now) names.now)) }
{
    let count = names.len();
    let row = listed(alloc, names)?;
    Ok(Text::from_string(format!(in alloc; "{count}{word}{row}")?))
}
