ghost use Rattle.std.specs.Prelude.{◌≡◌, List, IfOk, Err};
ghost use Rattle.mw_model.specs.Items.{NetItem};
ghost use Rattle.mw_client.specs.Bodies.{IsSaved};
ghost use Rattle.mw_client.specs.declared.error.SavedError.TheVariants as errors;

use crate::body::enter_body;
use crate::error::SavedError;
use mw_base::{List as Items, NetItem};
use std::alloc::Global;

/// The list that the bytes of a save file's bodies stand for: each is read after the other, begun
/// with no items.
///
/// `BadBody` comes exactly where they aren't whole bodies.
pub fn saved_list(alloc: Global, bytes: &[u8]) -> Result<Items<NetItem>, SavedError>
    ensures ok { IfOk result (IsSaved bytes.now) }
    ensures bad { result ≡ Err errors.BadBody → (list : List NetItem) → IsSaved bytes.now list → ⊥ }
{
    let mut list = Vec::new(alloc);
    let mut rest = bytes;
    while !rest.is_empty() {
        match enter_body(alloc, &mut list, rest) {
            Ok(size) => rest = rest.split_at(size).1,
            Err(error) => return Err(error),
        }
    }
    Ok(Items::from_vec(list))
}
