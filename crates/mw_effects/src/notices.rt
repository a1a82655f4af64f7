ghost use Rattle.std.specs.Prelude.{◌≡◌, ◌∷◌, ℕ, List, IfOk, OnOk};
ghost use Rattle.mw_protocol.specs.Storing.{is_passed_over as is_passed_over_lem, watched as watched_lem, watching as watching_lem};
ghost use Rattle.mw_effects.specs.Parts.{IsQuiet};
ghost use Rattle.mw_effects.specs.Views.{effect_view};

use crate::effect::{Effect, quiet};
use crate::member::Member;
use mw_base::{List, Memory, Text, copy_texts, has_text};
use mw_storage::is_private;
use std::alloc::Global;

/// A session watches at most this many keys.
const MOST_KEYS: usize = 1_024;

/// Whether a key isn't watched: it is read alone, or watched already, or there are enough.
fn is_passed_over(keys: &[Text], key: &str) -> bool
    ensures { result ≡ is_passed_over_lem keys.now key.now }
{
    is_private(key) || has_text(keys, key) || keys.len() >= MOST_KEYS
}

/// One key more, where it is to be watched.
fn watch(alloc: Global, keys: &mut List<Text>, key: &Text) -> Result<(), Memory>
    ensures { OnOk result ((more : List (List ℕ))
        → watched_lem keys.new more ≡ watched_lem keys.old (key.now ∷ more)) }
{
    if !is_passed_over(keys.as_slice(), key.as_str()) {
        keys.push(Text::of(alloc, key.as_str())?)?;
    }
    Ok(())
}

/// The watched keys with others.
fn watched(alloc: Global, before: &[Text], more: &[Text]) -> Result<List<Text>, Memory>
    ensures { IfOk result (λ ks. ks ≡ watched_lem before.now more.now) }
{
    let mut keys = copy_texts(alloc, before)?;
    for key in more {
        watch(alloc, &mut keys, key)?;
    }
    Ok(keys)
}

/// The effect of a wish to be told of changes of keys.
pub fn watching(alloc: Global, member: &Member, keys: &[Text]) -> Result<Effect, Memory>
    ensures quiet { IfOk result (λ e. IsQuiet e) }
    ensures is { IfOk result (λ e. effect_view e ≡ watching_lem member.now keys.now) }
{
    let keys = watched(alloc, member.keys.as_slice(), keys)?;
    let tags = copy_texts(alloc, member.tags.as_slice())?;
    let new = Member {
        team: member.team,
        slot: member.slot,
        mask: member.mask,
        tags,
        keys,
    };
    let (answers, announced) = (List::new(alloc), List::new(alloc));
    Ok(quiet(alloc, answers, false, Some(new), announced))
}
