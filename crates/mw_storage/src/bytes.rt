ghost use Rattle.std.specs.Prelude.{◌≡◌, ◌<◌, ◌^◌, ℕ, List, length, IfSome, option_map};
ghost use Rattle.mw_model.specs.Json.{Json, IsWritable};
ghost use Rattle.mw_json.specs.View.{view};
ghost use Rattle.mw_protocol.specs.Storage.{Kept, put, value_of, bytes_kept};
ghost use Rattle.mw_storage.specs.Stored.{IsKeepable};

use crate::size::text_size;
use mw_json::Tree;

/// The bytes that stand once a value is kept under a key, of which `old` is the value before; None
/// where there was no count, or no `u64` counts them.
#[tactic(auto, using(crate::proofs::Counting::counted_there, crate::proofs::Counting::counted_new))]
pub(crate) fn bytes_after(
    bytes: Option<u64>,
    old: Option<&Tree>,
    key: &str,
    value: &Tree,
) -> Option<u64>
    requires old { IfSome old (λ t. IsKeepable (view t.now)) }
    requires value { IsWritable (view value.now) }
    ensures { (kept : List Kept) → IfSome bytes (λ n. n ≡ bytes_kept kept)
        → option_map (λ t. view t.now) old.entry ≡ value_of key.now kept
        → IfSome result (λ n. n ≡ bytes_kept (put key.now (view value.now) kept)) }
{
    let total = bytes?;
    let new = text_size(value)?;
    match old {
        Some(old) => total.checked_sub(text_size(old)?)?.checked_add(new),
        None => total.checked_add(key.len() as u64)?.checked_add(new),
    }
}

/// The keys that stand once a key is kept, of which `old` is the value before.
#[tactic(auto, using(crate::proofs::Counting::keys_there, crate::proofs::Counting::keys_new))]
pub(crate) fn keys_after(keys: usize, old: Option<&Tree>) -> u64
    requires { keys < 2 ^ 63 }
    ensures { (kept : List Kept) → keys ≡ length kept → (key : List ℕ) (value : Json)
        → option_map (λ t. view t.now) old.entry ≡ value_of key kept
        → result ≡ length (put key value kept) }
{
    match old {
        Some(_) => keys as u64,
        None => keys as u64 + 1,
    }
}
