//! What a client sends.
ghost use Rattle.std.specs.Prelude.{◌≡◌, IfOk, codes, map, option_to_list};
ghost use Rattle.mw_model.specs.Json.{IsWritable, item, many, no_items, words};
ghost use Rattle.mw_model.specs.Trees.{id_json, items_of};
ghost use Rattle.mw_protocol.specs.Messages.{text_or_null, version_json};
ghost use Rattle.mw_json.specs.View.{view};
ghost use Rattle.mw_client.specs.Sending.{answer_texts, checks_json, connect_json, sync_json, text_of_one};

use crate::answer::Answer;
use mw_base::{List, LocId, Memory, Text};
use mw_json::{Field, Tree, array_tree, compact_text, id_tree, object, push_tree, words_tree};
use std::alloc::Global;

/// Who plays.
#[derive(Drop)]
pub struct Who {
    /// The slot's name in its team.
    pub name: Text,
    /// The game that the slot plays.
    pub game: Text,
    /// The room's password, where one is given.
    pub password: Option<Text>,
}

/// The password, or null where none is given.
fn password_tree(alloc: Global, password: &Option<Text>) -> Result<Tree, Memory>
    ensures value { IfOk result (λ t. view t ≡ text_or_null password.now) }
    ensures writable { IfOk result (λ t. IsWritable (view t)) }
{
    match password {
        Some(text) => words_tree(alloc, text.as_str()),
        None => Ok(Tree::Null),
    }
}

/// The tags of a client that wants no prints.
fn tags_tree(alloc: Global) -> Result<Tree, Memory>
    ensures value { IfOk result (λ t. view t ≡ many (item (words (codes "NoText")) no_items)) }
    ensures writable { IfOk result (λ t. IsWritable (view t)) }
{
    let mut tags = List::new(alloc);
    push_tree(&mut tags, words_tree(alloc, "NoText")?)?;
    Ok(array_tree(tags))
}

/// The version of the protocol that it speaks.
fn version_tree(alloc: Global) -> Result<Tree, Memory>
    ensures value { IfOk result (λ t. view t ≡ version_json) }
    ensures writable { IfOk result (λ t. IsWritable (view t)) }
{
    object(
        alloc,
        &mut [
            ("build", Field::Number(0)),
            ("class", Field::Words("Version")),
            ("major", Field::Number(0)),
            ("minor", Field::Number(5)),
        ],
    )
}

/// A Connect.
fn connect_tree(alloc: Global, who: &Who) -> Result<Tree, Memory>
    ensures value { IfOk result (λ t. view t ≡ connect_json who.now) }
    ensures writable { IfOk result (λ t. IsWritable (view t)) }
{
    object(
        alloc,
        &mut [
            ("cmd", Field::Words("Connect")),
            ("game", Field::Words(who.game.as_str())),
            ("items_handling", Field::Number(7)),
            ("name", Field::Words(who.name.as_str())),
            (
                "password",
                Field::Built(password_tree(alloc, &who.password)),
            ),
            ("tags", Field::Built(tags_tree(alloc))),
            ("version", Field::Built(version_tree(alloc))),
        ],
    )
}

/// Locations by their numbers.
fn locations_tree(alloc: Global, locations: &[LocId]) -> Result<Tree, Memory>
    ensures value { IfOk result (λ t. view t ≡ many (items_of (map id_json locations.now))) }
    ensures writable { IfOk result (λ t. IsWritable (view t)) }
{
    let mut trees = List::new(alloc);
    for location in locations {
        push_tree(&mut trees, id_tree(location.get()))?;
    }
    Ok(array_tree(trees))
}

/// A LocationChecks.
fn checks_tree(alloc: Global, locations: &[LocId]) -> Result<Tree, Memory>
    ensures value { IfOk result (λ t. view t ≡ checks_json locations.now) }
    ensures writable { IfOk result (λ t. IsWritable (view t)) }
{
    object(
        alloc,
        &mut [
            ("cmd", Field::Words("LocationChecks")),
            ("locations", Field::Built(locations_tree(alloc, locations))),
        ],
    )
}

/// A Sync.
fn sync_tree(alloc: Global) -> Result<Tree, Memory>
    ensures value { IfOk result (λ t. view t ≡ sync_json) }
    ensures writable { IfOk result (λ t. IsWritable (view t)) }
{
    object(alloc, &mut [("cmd", Field::Words("Sync"))])
}

/// The text of a message of one packet.
#[tactic(auto, unfolding(crate::specs::Sending::text_of_one))]
fn text_of(alloc: Global, packet: Tree) -> Result<Text, Memory>
    requires { IsWritable (view packet) }
    ensures { IfOk result (λ t. t ≡ text_of_one (view packet)) }
{
    let mut packets = List::new(alloc);
    push_tree(&mut packets, packet)?;
    compact_text(alloc, &array_tree(packets))
}

/// The message of an answer; none for checks where there are none. `Memory` is its only error.
pub fn answer_text(
    alloc: Global,
    who: &Who,
    locations: &[LocId],
    answer: Answer,
) -> Result<Option<Text>, Memory>
    ensures { IfOk result (λ t. option_to_list t ≡ answer_texts who.now locations.now answer) }
{
    match answer {
        Answer::Connect => Ok(Some(text_of(alloc, connect_tree(alloc, who)?)?)),
        Answer::Checks if locations.is_empty() => Ok(None),
        Answer::Checks => Ok(Some(text_of(alloc, checks_tree(alloc, locations)?)?)),
        Answer::Sync => Ok(Some(text_of(alloc, sync_tree(alloc)?)?)),
    }
}
