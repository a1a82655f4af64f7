ghost use Rattle.std.specs.Prelude.{◌≡◌, List, IfOk, IfSome, length, option_map};
ghost use Rattle.mw_json.specs.View.{view};
ghost use Rattle.mw_protocol.specs.Storage.{Kept, bytes_kept, is_private, value_or, within_limits};
ghost use Rattle.mw_storage.specs.Refusals.{GivesBy, changed_view};

use crate::refusal::StoreRefusal;
use mw_base::Memory;
use mw_json::{Tree, copy};
use std::alloc::Global;

const MOST_BYTES: u64 = 4_194_304;

const MOST_KEYS: u64 = 65_536;

/// What a change makes of a value.
#[derive(Drop)]
pub struct Changed {
    /// The value that was kept, or that the change begins with where none was.
    pub old: Tree,
    /// The value after the operations.
    pub new: Tree,
}

/// Whether a key is one of those that are read alone: whether it begins with `_read_`.
pub fn is_private(key: &str) -> bool
    ensures { result ≡ is_private key.now }
{
    key.as_bytes().starts_with(b"_read_")
}

/// A copy of the value that a change begins with.
pub(crate) fn first_value(
    alloc: Global,
    found: Option<&Tree>,
    default: &Tree,
) -> Result<Tree, Memory>
    ensures { IfOk result (λ t.
        view t ≡ value_or (view default.now) (option_map (λ t. view t.now) found.entry)) }
{
    match found {
        Some(value) => copy(alloc, value),
        None => copy(alloc, default),
    }
}

/// A change that leaves what stands within the limits.
pub(crate) fn within_limits(
    bytes: Option<u64>,
    keys: u64,
    changed: Changed,
) -> Result<Changed, StoreRefusal>
    ensures answer { (standing : List Kept)
        → IfSome bytes (λ n. n ≡ bytes_kept standing) → keys ≡ length standing
        → GivesBy changed_view result (within_limits standing (changed_view changed)) }
    ensures same { IfOk result (λ c. c ≡ changed) }
{
    let Some(bytes) = bytes else {
        return Err(StoreRefusal::Memory);
    };
    if bytes > MOST_BYTES || keys > MOST_KEYS {
        return Err(StoreRefusal::StoreFull { bytes, keys });
    }
    Ok(changed)
}
