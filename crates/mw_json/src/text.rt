ghost use Rattle.std.specs.Prelude.{◌≡◌, IfOk};
ghost use Rattle.mw_model.specs.Json.{IsWritable};
ghost use Rattle.mw_model.specs.Spelling.{spelling};
ghost use Rattle.mw_json.specs.View.{view};

use crate::tree::Tree;
use crate::write::compact;
use mw_base::{Memory, Text};
use std::alloc::Global;

/// The compact text of a tree, as a text.
pub fn compact_text(alloc: Global, tree: &Tree) -> Result<Text, Memory>
    requires { IsWritable (view tree.now) }
    ensures { IfOk result (λ t. t ≡ spelling (view tree.now)) }
{
    let bytes = compact(alloc, tree)?;
    let text = unsafe { String::from_utf8_unchecked(bytes.into_vec()) };
    Ok(Text::from_string(text))
}
