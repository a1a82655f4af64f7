ghost use Rattle.std.specs.Prelude.{◌≡◌, ◌≤◌, ◌++◌, [], ◌∷◌, true, IfOk, length};
ghost use Rattle.std.specs.List.{AllZip};
ghost use Rattle.mw_rules.specs.Rule.{always, has};
ghost use Rattle.mw_rules.specs.View.{view};
ghost use Rattle.mw_multi.specs.Steps.{rule_list, world_rules};
ghost use Rattle.mw_native.specs.Told.{IsNamed};

use crate::joints::{joint_of, players_in, world_in};
use mw_base::{List, Memory};
use mw_fill::{Seed, generate, generate_by};
use mw_multi::{Joint, Put, TreeRules, World};
use mw_native::{Pair, Told};
use mw_rules::{Named, Rule};
use std::alloc::Global;
use std::test::Fail;

/// First is always there, Second takes a sword, and so does the goal. The places are Menu, First and Second.
const SWORDS: &str =
    r#"{"format":"mw-world-1","game":"G","regions":["Menu"],"items":[{"name":"Sword","id":1,"class":"progression"},{"name":"Coin","id":2,"class":"filler"}],"entrances":[],"locations":[{"name":"First","id":1,"region":"Menu","rule":true},{"name":"Second","id":2,"region":"Menu","rule":{"has":"Sword"}}],"pool":[{"item":"Sword","count":1}],"filler":"Coin","goal":{"has":"Sword"}}"#;

/// Here the first location takes the key, and the second is always there.
const KEYS: &str =
    r#"{"format":"mw-world-1","game":"H","regions":["Menu"],"items":[{"name":"Key","id":1,"class":"progression"},{"name":"Shell","id":2,"class":"filler"}],"entrances":[],"locations":[{"name":"Chest","id":1,"region":"Menu","rule":{"has":"Key"}},{"name":"Shelf","id":2,"region":"Menu","rule":true}],"pool":[{"item":"Key","count":1}],"filler":"Shell","goal":{"has":"Key"}}"#;

const ANN: &str = r#"{"format":"mw-players-1","players":[{"names":["Ann"],"world":"swords"}]}"#;

const BOB: &str = r#"{"format":"mw-players-1","players":[{"names":["Bob"],"world":"keys"}]}"#;

const BOTH: &str =
    r#"{"format":"mw-players-1","players":[{"names":["Ann"],"world":"swords"},{"names":["Bob"],"world":"keys"}]}"#;

/// No items and no places.
fn nothing(alloc: Global) -> Named
    ensures { IsNamed always result }
{
    let items = List::new(alloc);
    let places = List::new(alloc);
    Named { items, places }
}

/// The first item.
fn first_item(alloc: Global) -> Result<Named, Memory>
    ensures { IfOk result (IsNamed (has 0 1)) }
{
    let items = List::from_vec(vec![in alloc; 0]?);
    let places = List::new(alloc);
    Ok(Named { items, places })
}

/// What the rules of the swords name.
fn sword_names(alloc: Global) -> Result<List<Named>, Memory>
    ensures names { IfOk result (AllZip IsNamed (always ∷ has 0 1 ∷ has 0 1 ∷ [])) }
    ensures three { IfOk result (λ named. length named ≡ 3) }
{
    let second = first_item(alloc)?;
    let goal = first_item(alloc)?;
    let named = vec![in alloc; nothing(alloc), second, goal]?;
    Ok(List::from_vec(named))
}

/// Whether it is the rule that always holds.
fn is_open(rule: &Rule) -> bool
    ensures { result ≡ true → view rule.now ≡ always }
{
    matches!(rule, Rule::Always)
}

/// Whether it is the rule that takes one of the first item.
fn takes_one(rule: &Rule) -> bool
    ensures { result ≡ true → view rule.now ≡ has 0 1 }
{
    matches!(rule, Rule::Has { item: 0, count: 1 })
}

/// Whether the world's rules are those of the swords.
fn has_swords(world: &World) -> bool
    ensures { result ≡ true → world_rules world.now ≡ always ∷ has 0 1 ∷ has 0 1 ∷ [] }
{
    let [] = world.entrances.as_slice() else {
        return false;
    };
    let [first, second] = world.locations.as_slice() else {
        return false;
    };
    is_open(&first.rule) && takes_one(&second.rule) && takes_one(&world.goal)
}

/// Whether the world's rules are those of the keys.
fn has_keys(world: &World) -> bool
    ensures { result ≡ true → world_rules world.now ≡ has 0 1 ∷ always ∷ has 0 1 ∷ [] }
{
    let [] = world.entrances.as_slice() else {
        return false;
    };
    let [first, second] = world.locations.as_slice() else {
        return false;
    };
    takes_one(&first.rule) && is_open(&second.rule) && takes_one(&world.goal)
}

/// Whether the joint is of the swords alone.
fn is_of_swords(joint: &Joint) -> bool
    ensures { result ≡ true → rule_list joint.now ≡ always ∷ has 0 1 ∷ has 0 1 ∷ [] }
{
    let [slot] = joint.slots.as_slice() else {
        return false;
    };
    let world = slot.world;
    has_swords(world)
}

/// Whether the joint is of the keys alone.
fn is_of_keys(joint: &Joint) -> bool
    ensures { result ≡ true → rule_list joint.now ≡ has 0 1 ∷ always ∷ has 0 1 ∷ [] }
{
    let [slot] = joint.slots.as_slice() else {
        return false;
    };
    let world = slot.world;
    has_keys(world)
}

/// Whether the joint is of the swords and then the keys.
fn is_of_both(joint: &Joint) -> bool
    ensures { result ≡ true → rule_list joint.now
        ≡ (always ∷ has 0 1 ∷ has 0 1 ∷ []) ++ (has 0 1 ∷ always ∷ has 0 1 ∷ []) }
{
    let [ann, bob] = joint.slots.as_slice() else {
        return false;
    };
    let first = ann.world;
    let second = bob.world;
    has_swords(first) && has_keys(second)
}

/// The seed by a closure that answers by the number.
fn seed_by_closure(alloc: Global, joint: &Joint, seed: u64) -> Result<Seed, Fail> {
    if !is_of_swords(joint) {
        return Err(Fail::from("other rules"));
    }
    let named = sword_names(alloc)?;
    let rules = Told::new(named, |number, counts, _places| match number {
        0 => true,
        1 | 2 => counts[0] >= 1,
        _ => false,
    });
    Ok(generate_by(alloc, joint, &rules, seed, 10)?)
}

/// The seed by that closure and the trees of a joint of the keys.
fn seed_by_pair(alloc: Global, joint: &Joint, second: &Joint, seed: u64) -> Result<Seed, Fail> {
    if !is_of_both(joint) || !is_of_keys(second) {
        return Err(Fail::from("other rules"));
    }
    let named = sword_names(alloc)?;
    let told = Told::new(named, |number, counts, _places| match number {
        0 => true,
        1 | 2 => counts[0] >= 1,
        _ => false,
    });
    let trees = TreeRules::of(alloc, second)?;
    match Pair::new(told, trees) {
        Ok(rules) => Ok(generate_by(alloc, joint, &rules, seed, 10)?),
        Err(_) => Err(Fail::from("too many rules")),
    }
}

/// The worlds of two files.
fn both_worlds(alloc: Global) -> Result<List<World>, Fail> {
    let mut worlds = world_of(alloc, SWORDS)?;
    worlds.push(world_in(alloc, KEYS)?)?;
    Ok(worlds)
}

/// The world of a file alone.
fn world_of(alloc: Global, file: &str) -> Result<List<World>, Fail> {
    let mut worlds = List::new(alloc);
    worlds.push(world_in(alloc, file)?)?;
    Ok(worlds)
}

/// Whether the first location has a placement's sword, and the second its coin.
fn is_sword_first(placement: &[Put]) -> bool {
    let sword = Put {
        place: 1,
        receiver: 1,
        item: 0,
    };
    let coin = Put {
        place: 2,
        receiver: 1,
        item: 1,
    };
    placement == [sword, coin].as_slice()
}

/// Fails at the first of ten seeds of which that isn't so.
fn put_sword_first(alloc: Global, joint: &Joint) -> Result<(), Fail> {
    for seed in 0..10 {
        let found = seed_by_closure(alloc, joint, seed)?;
        if !is_sword_first(found.placement.as_slice()) {
            return Err(Fail::new(seed));
        }
    }
    Ok(())
}

#[test]
fn a_closure_answers_the_rules_of_one_sword(rt: HostRuntime) -> Result<(), Fail> {
    let players = players_in(rt.alloc(), ANN)?;
    let worlds = world_of(rt.alloc(), SWORDS)?;
    put_sword_first(rt.alloc(), &joint_of(rt.alloc(), &worlds, &players)?)
}

/// Whether a seed of both by the closure and trees is that by the trees of both.
fn is_by_trees(alloc: Global, joint: &Joint, keys: &Joint, seed: u64) -> Result<bool, Fail> {
    let found = seed_by_pair(alloc, joint, keys, seed)?;
    let by_trees = generate(alloc, joint, seed, 10)?;
    Ok(
        found.stream == by_trees.stream
            && found.placement.as_slice() == by_trees.placement.as_slice(),
    )
}

/// Fails at the first of ten seeds of which that isn't so.
fn each_is_by_trees(alloc: Global, joint: &Joint, keys: &Joint) -> Result<(), Fail> {
    for seed in 0..10 {
        if !is_by_trees(alloc, joint, keys, seed)? {
            return Err(Fail::new(seed));
        }
    }
    Ok(())
}

/// Fails where that isn't so with the keys of Bob alone.
fn are_by_trees(alloc: Global, joint: &Joint) -> Result<(), Fail> {
    let players = players_in(alloc, BOB)?;
    let worlds = world_of(alloc, KEYS)?;
    each_is_by_trees(alloc, joint, &joint_of(alloc, &worlds, &players)?)
}

#[test]
fn a_closure_and_trees_answer_as_the_trees_of_both(rt: HostRuntime) -> Result<(), Fail> {
    let players = players_in(rt.alloc(), BOTH)?;
    let worlds = both_worlds(rt.alloc())?;
    are_by_trees(rt.alloc(), &joint_of(rt.alloc(), &worlds, &players)?)
}
