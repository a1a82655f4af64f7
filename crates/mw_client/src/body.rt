ghost use Rattle.std.specs.Prelude.{◌≡◌, ◌<◌, ◌≤◌, ◌^◌, ◌∷◌, ◌++◌, false, IfOk, IfSome, IfNone, OnOk, Err, length, drop};
ghost use Rattle.std.specs.Int.{w32, to_be_bytes};
ghost use Rattle.std.specs.List.{AllByRecursion};
ghost use Rattle.mw_client.specs.Bodies.{Begins, Body, IsEntry, after_body, body_bytes, kind_byte};
ghost use Rattle.mw_client.specs.Entering.{Enters};
ghost use Rattle.mw_client.specs.declared.error.SavedError.TheVariants as errors;

use crate::entry::{ENTRY, entries_of, put_entries};
use crate::error::SavedError;
use mw_base::{Bytes, List, Memory, NetItem};
use std::alloc::Global;

/// The bytes of a body with these entries, which replace a list or are put behind it.
pub(crate) fn body_of(alloc: Global, replaces: bool, items: &[NetItem]) -> Result<Bytes, Memory>
    requires { length items.now < 2 ^ 32 }
    ensures bytes { IfOk result (λ b. b
        ≡ body_bytes record { replaces = replaces; items = items.now }) }
    ensures are { OnOk result (AllByRecursion IsEntry items.now) }
{
    let count = items.len() as u32;
    let mut bytes = Vec::new(alloc);
    bytes.push(u8::from(replaces))?;
    bytes.extend_from_slice(&count.to_be_bytes())?;
    put_entries(&mut bytes, items)?;
    Ok(Bytes::from_vec(bytes))
}

/// What stands before the entries of a body.
#[derive(Clone, Copy)]
struct Head {
    /// Whether they replace the list.
    replaces: bool,
    /// How many there are.
    count: u32,
}

/// What stands before the entries of the body that begins a text; None only where none begins it.
fn head_of(text: &[u8]) -> Option<Head>
    ensures some { IfSome result (λ h. text.now
        ≡ kind_byte h.replaces ∷ to_be_bytes w32 h.count ++ drop 5 text.now) }
    ensures enough { IfSome result (λ h. h.replaces ≡ false → 1 ≤ h.count) }
    ensures few { IfSome result (λ h. h.count < 2 ^ 32) }
    ensures none { IfNone result ((b : Body) → Begins text.now b → ⊥) }
{
    let [kind, a, b, c, d, ..] = text else {
        return None;
    };
    let count = u32::from_be_bytes([*a, *b, *c, *d]);
    match kind {
        0 if count > 0 => Some(Head {
            replaces: false,
            count,
        }),
        1 => Some(Head {
            replaces: true,
            count,
        }),
        _ => None,
    }
}

/// Puts entries behind those of a list, or in their place.
fn enter(list: &mut Vec<NetItem>, replaces: bool, mut entries: Vec<NetItem>) -> Result<(), Memory>
    ensures { OnOk result (list.new.items
        ≡ after_body list.old.items record { replaces = replaces; items = entries.items }) }
{
    if replaces {
        *list = entries;
        return Ok(());
    }
    list.append(&mut entries)?;
    Ok(())
}

/// Does to a list what the body says that begins a text, and gives its length. `BadBody` comes
/// only where none begins it.
pub(crate) fn enter_body(
    alloc: Global,
    list: &mut Vec<NetItem>,
    text: &[u8],
) -> Result<usize, SavedError>
    ensures entered { IfOk result (λ n. Enters text.now n list.old.items list.new.items) }
    ensures within { IfOk result (λ n. (0 < n) × (n ≤ length text.now)) }
    ensures bad { result ≡ Err errors.BadBody → (b : Body) → Begins text.now b → ⊥ }
{
    let Some(head) = head_of(text) else {
        return Err(SavedError::BadBody);
    };
    let count = head.count as usize;
    let size = 5 + ENTRY * count;
    if text.len() < size {
        return Err(SavedError::BadBody);
    }
    let (_, rest) = text.split_at(5);
    let (part, _) = rest.split_at(ENTRY * count);
    let entries = entries_of(alloc, part, count)?;
    enter(list, head.replaces, entries)?;
    Ok(size)
}
