ghost use Rattle.std.specs.Prelude.{◌≡◌, ◌∷◌, [], true, IfOk, length, map};
ghost use Rattle.std.specs.List.{AllZip};
ghost use Rattle.mw_rules.specs.Rule.{always, has};
ghost use Rattle.mw_rules.specs.View.{view};
ghost use Rattle.mw_multi.specs.Steps.{location_rule, rule_list};
ghost use Rattle.mw_native.specs.Told.{IsNamed};
ghost use Rattle.mw_bench.specs.Rules.{cave_rule, lake_rule, vault_rule, our_rules};

use crate::reaching::reach_times;
use mw_base::{List, Memory};
use mw_fill::GenerateError;
use mw_multi::{Joint, Location};
use mw_native::Told;
use mw_rules::{Named, Rule};
use std::alloc::Global;

/// The caves: four locations whose rules have up to eight forms.
pub(crate) const WORLD: &str = r#"{"format":"mw-world-1","game":"Caves","regions":["Menu"],
  "items":[{"name":"Sword","id":1,"class":"progression"},{"name":"Shield","id":2,"class":"progression"},
    {"name":"Lamp","id":3,"class":"progression"},{"name":"Boat","id":4,"class":"progression"},
    {"name":"Coin","id":5,"class":"filler"}],
  "entrances":[],
  "locations":[{"name":"Meadow","id":1,"region":"Menu","rule":true},
    {"name":"Cave","id":2,"region":"Menu","rule":{"or":[{"and":[{"has":"Sword"},{"has":"Shield"}]},{"has":"Lamp"}]}},
    {"name":"Lake","id":3,"region":"Menu","rule":{"and":[{"has":"Lamp"},{"or":[{"has":"Shield"},{"has":"Sword"}]}]}},
    {"name":"Vault","id":4,"region":"Menu","rule":{"or":[{"and":[{"has":"Boat"},{"has":"Lamp"}]},{"and":[{"has":"Boat"},{"has":"Sword"},{"has":"Shield"}]}]}}],
  "pool":[{"item":"Sword","count":1},{"item":"Shield","count":1},{"item":"Lamp","count":1},{"item":"Boat","count":1}],
  "filler":"Coin","goal":{"has":"Boat"}}"#;

/// Whether it is the rule that always holds.
fn is_open(rule: &Rule) -> bool
    ensures { result ≡ true → view rule.now ≡ always }
{
    matches!(rule, Rule::Always)
}

/// Whether it is the rule that takes one of the item.
fn takes(rule: &Rule, wanted: u32) -> bool
    ensures { result ≡ true → view rule.now ≡ has wanted 1 }
{
    match rule {
        Rule::Has { item, count: 1 } => *item == wanted,
        _ => false,
    }
}

/// Whether it is the rule of the cave.
fn is_cave(rule: &Rule) -> bool
    ensures { result ≡ true → view rule.now ≡ cave_rule }
{
    let Rule::Or(ways) = rule else {
        return false;
    };
    let [Rule::And(armed), lit] = ways.as_slice() else {
        return false;
    };
    let [sword, shield] = armed.as_slice() else {
        return false;
    };
    takes(sword, 0) && takes(shield, 1) && takes(lit, 2)
}

/// Whether it is the rule of the lake.
fn is_lake(rule: &Rule) -> bool
    ensures { result ≡ true → view rule.now ≡ lake_rule }
{
    let Rule::And(parts) = rule else {
        return false;
    };
    let [lit, Rule::Or(armed)] = parts.as_slice() else {
        return false;
    };
    let [shield, sword] = armed.as_slice() else {
        return false;
    };
    takes(lit, 2) && takes(shield, 1) && takes(sword, 0)
}

/// Whether it is the rule of the vault.
fn is_vault(rule: &Rule) -> bool
    ensures { result ≡ true → view rule.now ≡ vault_rule }
{
    let Rule::Or(ways) = rule else {
        return false;
    };
    let [Rule::And(lit), Rule::And(armed)] = ways.as_slice() else {
        return false;
    };
    let [boat, lamp] = lit.as_slice() else {
        return false;
    };
    let [ship, sword, shield] = armed.as_slice() else {
        return false;
    };
    takes(boat, 3) && takes(lamp, 2) && takes(ship, 3) && takes(sword, 0) && takes(shield, 1)
}

/// Whether these are the rules of the caves' locations.
fn are_caves(locations: &[Location]) -> bool
    ensures { result ≡ true → map location_rule locations.now
        ≡ always ∷ cave_rule ∷ lake_rule ∷ vault_rule ∷ [] }
{
    let [meadow, cave, lake, vault] = locations else {
        return false;
    };
    is_open(&meadow.rule) && is_cave(&cave.rule) && is_lake(&lake.rule) && is_vault(&vault.rule)
}

/// Whether the joint is that of the caves.
pub(crate) fn is_known(joint: &Joint) -> bool
    ensures { result ≡ true → rule_list joint.now ≡ our_rules }
{
    let [slot] = joint.slots.as_slice() else {
        return false;
    };
    let world = slot.world;
    let [] = world.entrances.as_slice() else {
        return false;
    };
    are_caves(world.locations.as_slice()) && takes(&world.goal, 3)
}

/// These items and no places.
fn items_named(alloc: Global, numbers: &[u32]) -> Result<Named, Memory>
    ensures { IfOk result (λ named. (named.items ≡ numbers.now) × (named.places ≡ [])) }
{
    let mut items = List::new(alloc);
    for &number in numbers {
        items.push(number)?;
    }
    let places = List::new(alloc);
    Ok(Named { items, places })
}

/// What each rule names, in the order of their numbers.
fn names(alloc: Global) -> Result<List<Named>, Memory>
    ensures names { IfOk result (AllZip IsNamed our_rules) }
    ensures five { IfOk result (λ named. length named ≡ 5) }
{
    let mut named = List::new(alloc);
    named.push(items_named(alloc, &[])?)?;
    named.push(items_named(alloc, &[0, 1, 2])?)?;
    named.push(items_named(alloc, &[0, 1, 2])?)?;
    named.push(items_named(alloc, &[0, 1, 2, 3])?)?;
    named.push(items_named(alloc, &[3])?)?;
    Ok(named)
}

/// `reach_times` for the caves by a closure.
pub(crate) fn reach_by_closure(
    alloc: Global,
    joint: &Joint,
    times: u32,
) -> Result<u64, GenerateError>
    requires { rule_list joint.now ≡ our_rules }
{
    let named = names(alloc)?;
    let rules = Told::new(named, |number, counts, _places| match number {
        0 => true,
        1 => (counts[0] >= 1 && counts[1] >= 1) || counts[2] >= 1,
        2 => counts[2] >= 1 && (counts[1] >= 1 || counts[0] >= 1),
        3 => {
            (counts[3] >= 1 && counts[2] >= 1)
                || (counts[3] >= 1 && counts[0] >= 1 && counts[1] >= 1)
        }
        4 => counts[3] >= 1,
        _ => false,
    });
    reach_times(alloc, joint, &rules, times)
}
