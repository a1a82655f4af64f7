ghost use Rattle.std.specs.Prelude.{IfOk, IfErr};
ghost use Rattle.mw_json.specs.View.{view};
ghost use Rattle.mw_json.specs.Files.{IsJudged, IsUnread};

use crate::error::JsonError;
use crate::grammar::refuse;
use crate::read::read_text;
use crate::refusal::{Kind, Refusal};
use crate::tree::Tree;
use std::alloc::Global;

/// The tree of a file, which a grammar may judge. It is refused `NoJson` or `TooDeep` at the whole.
pub fn tree_of_file(alloc: Global, bytes: &[u8]) -> Result<Tree, Refusal>
    ensures ok { IfOk result (λ t. IsJudged bytes.now (view t)) }
    ensures err { IfErr result (λ e. IsUnread bytes.now e) }
{
    match read_text(alloc, bytes) {
        Ok(tree) => Ok(tree),
        Err(JsonError::Memory) => Err(Refusal::Memory),
        Err(JsonError::NoJson) => refuse(alloc, Kind::NoJson),
        Err(JsonError::TooDeep) => refuse(alloc, Kind::TooDeep),
    }
}
