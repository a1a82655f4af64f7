ghost use Rattle.std.specs.Prelude.{◌≡◌, ◌++◌, IfOk, codes, decimal};
ghost use Rattle.mw_protocol.specs.Commands.{help_text, points_text};

use mw_base::{Memory, Text};
use std::alloc::Global;

/// The commands that there are.
pub fn help_text() -> &'static str
    ensures { result.now ≡ help_text }
{
    "!help !players !missing !checked !remaining !release !collect !hint !hint_location"
}

/// The points that a slot has left, and what a hint costs. `Memory` is the only error.
pub fn points_text(alloc: Global, left: u64, price: u64) -> Result<Text, Memory>
    ensures { IfOk result (λ t. t ≡ points_text left price) }
{
    Ok(Text::from_string(format!(in alloc; "{left} points, a hint costs {price}")?))
}

/// Why a hint isn't bought: it costs more than the points that are left. `Memory` is the only
/// error.
pub fn too_dear_text(alloc: Global, price: u64, left: u64) -> Result<Text, Memory>
    ensures { IfOk result (λ t. t
        ≡ decimal price ++ codes " points needed, " ++ decimal left ++ codes " there") }
{
    Ok(Text::from_string(format!(in alloc; "{price} points needed, {left} there")?))
}

/// Why a hint isn't bought: there is no item or location of this name.
pub fn no_such_name() -> &'static str
    ensures { result.now ≡ codes "no such name" }
{
    "no such name"
}

/// Why a hint isn't bought: what it would tell is checked or told already.
pub fn nothing_to_hint() -> &'static str
    ensures { result.now ≡ codes "nothing to hint" }
{
    "nothing to hint"
}
