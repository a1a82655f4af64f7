//! The tables of `Clockwork` and of its player as they are written.
ghost use Rattle.std.specs.Prelude.{◌≡◌, ◌+◌, ◌*◌, ◌<◌, ◌≤◌, ◌++◌, ◌∷◌, [], IfOk, OnOk, map};
ghost use Rattle.mw_model.specs.Json.{IsWritable, ItemsAreWritable, words};
ghost use Rattle.mw_json.specs.View.{view, items_view};
ghost use Rattle.mw_tables.specs.WorldOf.{WorldOf};
ghost use Rattle.mw_tables.specs.PlayersOf.{PlayersOf};
ghost use Rattle.mw_clock.specs.Clockwork.{IsSize, clockwork, players};
ghost use Rattle.mw_clock.specs.Words.{IsFileName};
ghost use Rattle.mw_clock.specs.Tables.{floor_json, floors_json, gears_json, stair_json, stairs_json, location_json, box_json, boxes_json, bell_json, item_json, items_json, pool_json, bell_place_json, goal_json, list_json, world_json, world_text, player_json, players_json, players_text};

use crate::world::{box_name, floor_name, stair_name};
use mw_base::{Bytes, List, Memory, Text};
use mw_json::{Field, Tree, compact, object, push_tree, words_tree};
use std::alloc::Global;

/// The name of a floor.
fn floor_tree(alloc: Global, number: u32) -> Result<Tree, Memory>
    ensures value { IfOk result (λ t. view t ≡ floor_json number) }
    ensures writable { IfOk result (λ t. IsWritable (view t)) }
{
    let name = floor_name(alloc, number)?;
    words_tree(alloc, name.as_str())
}

/// The names of the floors below this one.
#[tactic(auto, using(crate::proofs::Growing::floors_json_more))]
fn floors_tree(alloc: Global, number: u32) -> Result<Tree, Memory>
    ensures value { IfOk result (λ t. view t ≡ list_json (floors_json number)) }
    ensures writable { IfOk result (λ t. IsWritable (view t)) }
{
    let mut trees = List::new(alloc);
    for i in 0..number {
        push_tree(&mut trees, floor_tree(alloc, i)?)?;
    }
    Ok(Tree::Many(trees))
}

/// The rule that takes so many gears.
fn gears_tree(alloc: Global, count: u32) -> Result<Tree, Memory>
    ensures value { IfOk result (λ t. view t ≡ gears_json count) }
    ensures writable { IfOk result (λ t. IsWritable (view t)) }
{
    object(
        alloc,
        &mut [
            ("count", Field::Number(u64::from(count))),
            ("has", Field::Words("Gear")),
        ],
    )
}

/// The stair from a floor to the next.
fn stair_tree(alloc: Global, number: u32) -> Result<Tree, Memory>
    requires { number ≤ 20 }
    ensures value { IfOk result (λ t. view t ≡ stair_json number) }
    ensures writable { IfOk result (λ t. IsWritable (view t)) }
{
    let name = stair_name(alloc, number + 1)?;
    object(
        alloc,
        &mut [
            ("from", Field::Built(floor_tree(alloc, number))),
            ("name", Field::Words(name.as_str())),
            ("rule", Field::Built(gears_tree(alloc, number + 1))),
            ("to", Field::Built(floor_tree(alloc, number + 1))),
        ],
    )
}

/// The stairs from the floors below this one.
#[tactic(auto, using(crate::proofs::Growing::stairs_json_more))]
fn stairs_tree(alloc: Global, number: u32) -> Result<Tree, Memory>
    requires { number ≤ 20 }
    ensures value { IfOk result (λ t. view t ≡ list_json (stairs_json number)) }
    ensures writable { IfOk result (λ t. IsWritable (view t)) }
{
    let mut trees = List::new(alloc);
    for i in 0..number {
        push_tree(&mut trees, stair_tree(alloc, i)?)?;
    }
    Ok(Tree::Many(trees))
}

/// A location on a floor.
fn location_tree(alloc: Global, name: &str, id: u32, region: u32) -> Result<Tree, Memory>
    ensures value { IfOk result (λ t. view t ≡ location_json name.now id region) }
    ensures writable { IfOk result (λ t. IsWritable (view t)) }
{
    object(
        alloc,
        &mut [
            ("id", Field::Number(u64::from(id))),
            ("name", Field::Words(name)),
            ("region", Field::Built(floor_tree(alloc, region))),
            ("rule", Field::Flag(true)),
        ],
    )
}

/// Adds a box on a floor.
fn push_box(alloc: Global, trees: &mut List<Tree>, number: u32, region: u32) -> Result<(), Memory>
    requires { ItemsAreWritable (items_view trees.old) }
    ensures value { OnOk result (map view trees.new
        ≡ map view trees.old ++ box_json number region ∷ []) }
    ensures writable { OnOk result (ItemsAreWritable (items_view trees.new)) }
{
    let name = box_name(alloc, number)?;
    let tree = location_tree(alloc, name.as_str(), number, region)?;
    push_tree(trees, tree)
}

/// Adds the two boxes of a floor.
#[tactic(auto, using(crate::proofs::Growing::two_more))]
fn push_boxes(alloc: Global, trees: &mut List<Tree>, floor: u32) -> Result<(), Memory>
    requires floor { floor ≤ 20 }
    requires trees { ItemsAreWritable (items_view trees.old) }
    ensures value { OnOk result (map view trees.new ≡ map view trees.old
        ++ box_json (2 * floor + 1) floor ∷ box_json (2 * floor + 2) floor ∷ []) }
    ensures writable { OnOk result (ItemsAreWritable (items_view trees.new)) }
{
    push_box(alloc, trees, 2 * floor + 1, floor)?;
    push_box(alloc, trees, 2 * floor + 2, floor)
}

/// The boxes on the floors below this one.
#[tactic(auto, using(crate::proofs::Growing::boxes_json_more))]
fn boxes(alloc: Global, number: u32) -> Result<List<Tree>, Memory>
    requires { number ≤ 20 }
    ensures value { IfOk result (λ trees. map view trees ≡ boxes_json number) }
    ensures writable { IfOk result (λ trees. ItemsAreWritable (items_view trees)) }
{
    let mut trees = List::new(alloc);
    for i in 0..number {
        push_boxes(alloc, &mut trees, i)?;
    }
    Ok(trees)
}

/// The boxes, and the bell.
fn locations_tree(alloc: Global, gears: u32) -> Result<Tree, Memory>
    requires { gears ≤ 20 }
    ensures value { IfOk result (λ t. view t
        ≡ list_json (boxes_json gears ++ bell_json gears ∷ [])) }
    ensures writable { IfOk result (λ t. IsWritable (view t)) }
{
    let mut trees = boxes(alloc, gears)?;
    let bell = location_tree(alloc, "Bell", 2 * gears + 1, gears)?;
    push_tree(&mut trees, bell)?;
    Ok(Tree::Many(trees))
}

/// An item.
fn item_tree<'a>(alloc: Global, name: &'a str, id: u32, class: &'a str) -> Result<Tree, Memory>
    ensures value { IfOk result (λ t. view t ≡ item_json name.entry.now id class.entry.now) }
    ensures writable { IfOk result (λ t. IsWritable (view t)) }
{
    object(
        alloc,
        &mut [
            ("class", Field::Words(class)),
            ("id", Field::Number(u64::from(id))),
            ("name", Field::Words(name)),
        ],
    )
}

/// The gear and the oil.
fn items_tree(alloc: Global) -> Result<Tree, Memory>
    ensures value { IfOk result (λ t. view t ≡ items_json) }
    ensures writable { IfOk result (λ t. IsWritable (view t)) }
{
    let mut trees = List::new(alloc);
    push_tree(&mut trees, item_tree(alloc, "Gear", 1, "progression")?)?;
    push_tree(&mut trees, item_tree(alloc, "Oil", 2, "filler")?)?;
    Ok(Tree::Many(trees))
}

/// A list of one.
fn list_of_one(alloc: Global, tree: Tree) -> Result<Tree, Memory>
    requires { IsWritable (view tree) }
    ensures value { IfOk result (λ t. view t ≡ list_json (view tree ∷ [])) }
    ensures writable { IfOk result (λ t. IsWritable (view t)) }
{
    let mut trees = List::new(alloc);
    push_tree(&mut trees, tree)?;
    Ok(Tree::Many(trees))
}

/// So many gears.
fn entry_tree(alloc: Global, gears: u32) -> Result<Tree, Memory>
    ensures value { IfOk result (λ t. view t ≡ pool_json gears) }
    ensures writable { IfOk result (λ t. IsWritable (view t)) }
{
    object(
        alloc,
        &mut [
            ("count", Field::Number(u64::from(gears))),
            ("item", Field::Words("Gear")),
        ],
    )
}

/// The pool: the gears.
fn pool_tree(alloc: Global, gears: u32) -> Result<Tree, Memory>
    ensures value { IfOk result (λ t. view t ≡ list_json (pool_json gears ∷ [])) }
    ensures writable { IfOk result (λ t. IsWritable (view t)) }
{
    list_of_one(alloc, entry_tree(alloc, gears)?)
}

/// The bell.
fn bell_tree(alloc: Global) -> Result<Tree, Memory>
    ensures value { IfOk result (λ t. view t ≡ bell_place_json) }
    ensures writable { IfOk result (λ t. IsWritable (view t)) }
{
    object(alloc, &mut [("location", Field::Words("Bell"))])
}

/// The bell can be reached.
fn goal_tree(alloc: Global) -> Result<Tree, Memory>
    ensures value { IfOk result (λ t. view t ≡ goal_json) }
    ensures writable { IfOk result (λ t. IsWritable (view t)) }
{
    object(alloc, &mut [("can_reach", Field::Built(bell_tree(alloc)))])
}

/// The world file of so many gears.
fn world_tree(alloc: Global, gears: u32) -> Result<Tree, Memory>
    requires { IsSize gears }
    ensures value { IfOk result (λ t. view t ≡ world_json gears) }
    ensures writable { IfOk result (λ t. IsWritable (view t)) }
{
    object(
        alloc,
        &mut [
            ("entrances", Field::Built(stairs_tree(alloc, gears))),
            ("filler", Field::Words("Oil")),
            ("format", Field::Words("mw-world-1")),
            ("game", Field::Words("Clockwork")),
            ("goal", Field::Built(goal_tree(alloc))),
            ("items", Field::Built(items_tree(alloc))),
            ("locations", Field::Built(locations_tree(alloc, gears))),
            ("pool", Field::Built(pool_tree(alloc, gears))),
            ("regions", Field::Built(floors_tree(alloc, gears + 1))),
        ],
    )
}

/// The text of the world file of so many gears.
#[tactic(auto, unfolding(crate::specs::Tables::world_text))]
pub(crate) fn world_file(alloc: Global, gears: u32) -> Result<Bytes, Memory>
    requires { IsSize gears }
    ensures text { IfOk result (λ bytes. bytes ≡ world_text gears) }
    ensures stands { IfOk result (λ bytes. WorldOf bytes (Ok (clockwork gears))) }
{
    compact(alloc, &world_tree(alloc, gears)?)
}

/// The player, whose world is in this file.
fn player_tree(alloc: Global, file: &Text) -> Result<Tree, Memory>
    ensures value { IfOk result (λ t. view t ≡ player_json file.now) }
    ensures writable { IfOk result (λ t. IsWritable (view t)) }
{
    let names = list_of_one(alloc, words_tree(alloc, "Player")?);
    object(
        alloc,
        &mut [
            ("names", Field::Built(names)),
            ("world", Field::Words(file.as_str())),
        ],
    )
}

/// The players file that names this world file.
fn players_tree(alloc: Global, file: &Text) -> Result<Tree, Memory>
    ensures value { IfOk result (λ t. view t ≡ players_json file.now) }
    ensures writable { IfOk result (λ t. IsWritable (view t)) }
{
    let player = list_of_one(alloc, player_tree(alloc, file)?);
    object(
        alloc,
        &mut [
            ("format", Field::Words("mw-players-1")),
            ("players", Field::Built(player)),
        ],
    )
}

/// The text of the players file that names this world file.
#[tactic(auto, unfolding(crate::specs::Tables::players_text))]
pub(crate) fn players_file(alloc: Global, file: &Text) -> Result<Bytes, Memory>
    requires { IsFileName file.now }
    ensures text { IfOk result (λ bytes. bytes ≡ players_text file.now) }
    ensures stands { IfOk result (λ bytes. PlayersOf bytes (Ok (players file.now))) }
{
    compact(alloc, &players_tree(alloc, file)?)
}
