ghost use Rattle.std.specs.Prelude.{◌≡◌, ◌<◌, ◌^◌, Err, None, length, IfOk};
ghost use Rattle.mw_json.specs.View.{view};
ghost use Rattle.mw_protocol.specs.Spelled.{IsValue};
ghost use Rattle.mw_records.specs.Reading.{Gives, IsRead, is_compact, key_at, text_at, value_at, value_of as value_of_lem};
ghost use Rattle.mw_records.specs.declared.stop.Stop.TheVariants as stops;

use crate::fields::u32_of;
use crate::stop::Stop;
use mw_base::{Memory, Text};
use mw_json::{JsonError, Tree, can_write, compact, read_kept};
use std::alloc::Global;

/// A text's bytes.
#[tactic(auto, unfolding(crate::specs::Reading::text_at))]
fn text_of<'a>(bytes: &mut &'a [u8]) -> Result<&'a [u8], Stop>
    ensures value { Gives (λ x. (x.now, bytes.new.now)) result (text_at bytes.old.now) }
    ensures short { IfOk result (λ x. length x.now < 2 ^ 32) }
{
    let len = u32_of(bytes)? as usize;
    if bytes.len() < len {
        return Err(Stop::Bad);
    }
    let (text, rest) = bytes.split_at(len);
    *bytes = rest;
    Ok(text)
}

/// A key.
#[tactic(auto, unfolding(crate::specs::Reading::key_at), using(crate::proofs::Values::utf8_tests))]
pub(crate) fn key_of(alloc: Global, bytes: &mut &[u8]) -> Result<Text, Stop>
    ensures value { Gives (λ x. (x, bytes.new.now)) result (key_at bytes.old.now) }
    ensures short { IfOk result (λ x. length x < 2 ^ 32) }
{
    let text = text_of(bytes)?;
    match std::str::from_utf8(text) {
        Ok(key) => Ok(Text::of(alloc, key)?),
        Err(_) => Err(Stop::Bad),
    }
}

/// The tree of a text.
fn tree_of(alloc: Global, text: &[u8]) -> Result<Tree, Stop>
    ensures ok { IfOk result (λ t. IsRead text.now (view t)) }
    ensures bad { result ≡ Err stops.Bad → value_of_lem text.now ≡ None }
{
    match read_kept(alloc, text) {
        Ok(tree) => Ok(tree),
        Err(JsonError::Memory) => Err(Stop::Memory),
        Err(JsonError::NoJson) => Err(Stop::Bad),
        Err(JsonError::TooDeep) => Err(Stop::Bad),
    }
}

/// Whether a text is the compact text of its kept reading.
fn is_own(alloc: Global, text: &[u8], tree: &Tree) -> Result<bool, Memory>
    ensures { IfOk result (λ own. own ≡ is_compact text.now (view tree.now)) }
{
    if !can_write(tree) {
        return Ok(false);
    }
    let again = compact(alloc, tree)?;
    Ok(again.as_slice() == text)
}

/// The value of a text that is the compact text of its own kept reading.
fn value_of(alloc: Global, text: &[u8]) -> Result<Tree, Stop>
    requires { length text.now < 2 ^ 32 }
    ensures value { Gives view result (value_of_lem text.now) }
    ensures kept { IfOk result (λ t. IsValue (view t)) }
{
    let tree = tree_of(alloc, text)?;
    if is_own(alloc, text, &tree)? {
        Ok(tree)
    } else {
        Err(Stop::Bad)
    }
}

/// A value.
#[tactic(auto, unfolding(crate::specs::Reading::value_at))]
pub(crate) fn value_in(alloc: Global, bytes: &mut &[u8]) -> Result<Tree, Stop>
    ensures value { Gives (λ x. (view x, bytes.new.now)) result (value_at bytes.old.now) }
    ensures kept { IfOk result (λ x. IsValue (view x)) }
{
    let text = text_of(bytes)?;
    value_of(alloc, text)
}
