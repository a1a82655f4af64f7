//! The world that `stress` plays.
ghost use Rattle.std.specs.Prelude.{◌≡◌, ◌+◌, ◌<◌, ◌++◌, ◌∷◌, [], IfOk, OnOk, codes, decimal};
ghost use Rattle.mw_stress.specs.Stress as plain;

use mw_base::{ItemId, List, LocId, Memory, Text};
use mw_multi::{Class, Entrance, Item, LocKind, Location, PoolEntry, World};
use mw_rules::Rule;
use std::alloc::Global;

/// The name of a region.
fn region_name(alloc: Global, number: u32) -> Result<Text, Memory>
    ensures { IfOk result (λ t. t ≡ plain.region number) }
{
    if number == 0 {
        return Text::of(alloc, "Menu");
    }
    Ok(Text::from_string(format!(in alloc; "R{number}")?))
}

/// The names of the ten regions.
#[tactic(auto, using(crate::proofs::Growing::regions_more))]
fn regions(alloc: Global) -> Result<List<Text>, Memory>
    ensures { IfOk result (λ names. names ≡ plain.regions_below 10) }
{
    let mut regions = List::new(alloc);
    for i in 0..10 {
        regions.push(region_name(alloc, i)?)?;
    }
    Ok(regions)
}

/// The name of an entrance.
fn entrance_name(alloc: Global, number: u32) -> Result<Text, Memory>
    ensures { IfOk result (λ t. t ≡ codes "E" ++ decimal number) }
{
    Ok(Text::from_string(format!(in alloc; "E{number}")?))
}

/// The entrance from a region to the next.
fn entrance_from(alloc: Global, number: u32) -> Result<Entrance, Memory>
    requires { number < 9 }
    ensures { IfOk result (λ e. e ≡ plain.entrance number) }
{
    Ok(Entrance {
        name: entrance_name(alloc, number + 1)?,
        from: number,
        to: number + 1,
        rule: Rule::Has {
            item: number,
            count: 1,
        },
    })
}

/// The nine entrances.
#[tactic(auto, using(crate::proofs::Growing::entrances_more))]
fn entrances(alloc: Global) -> Result<List<Entrance>, Memory>
    ensures { IfOk result (λ entrances. entrances ≡ plain.entrances_below 9) }
{
    let mut entrances = List::new(alloc);
    for i in 0..9 {
        entrances.push(entrance_from(alloc, i)?)?;
    }
    Ok(entrances)
}

/// The name of a spot.
fn spot_name(alloc: Global, number: u32) -> Result<Text, Memory>
    ensures { IfOk result (λ t. t ≡ codes "Spot " ++ decimal number) }
{
    Ok(Text::from_string(format!(in alloc; "Spot {number}")?))
}

/// The spot behind so many.
fn spot_behind(alloc: Global, number: u32) -> Result<Location, Memory>
    requires { number < 60 }
    ensures { IfOk result (λ l. l ≡ plain.spot number) }
{
    Ok(Location {
        name: spot_name(alloc, number + 1)?,
        id: LocId::new(i64::from(number) + 1),
        region: number / 6,
        kind: LocKind::Default,
        rule: Rule::Always,
        event: None,
    })
}

/// The sixty spots.
#[tactic(auto, using(crate::proofs::Growing::spots_more))]
fn spots(alloc: Global) -> Result<List<Location>, Memory>
    ensures { IfOk result (λ spots. spots ≡ plain.spots_below 60) }
{
    let mut spots = List::new(alloc);
    for i in 0..60 {
        spots.push(spot_behind(alloc, i)?)?;
    }
    Ok(spots)
}

/// The name of a key.
fn key_name(alloc: Global, number: u32) -> Result<Text, Memory>
    ensures { IfOk result (λ t. t ≡ codes "Key " ++ decimal number) }
{
    Ok(Text::from_string(format!(in alloc; "Key {number}")?))
}

/// The key behind so many.
fn key_behind(alloc: Global, number: u32) -> Result<Item, Memory>
    requires { number < 9 }
    ensures { IfOk result (λ i. i ≡ plain.key number) }
{
    Ok(Item {
        name: key_name(alloc, number + 1)?,
        id: ItemId::new(i64::from(number) + 1),
        class: Class::Progression,
    })
}

/// The nine keys.
#[tactic(auto, using(crate::proofs::Growing::keys_more))]
fn keys(alloc: Global) -> Result<List<Item>, Memory>
    ensures { IfOk result (λ keys. keys ≡ plain.keys_below 9) }
{
    let mut keys = List::new(alloc);
    for i in 0..9 {
        keys.push(key_behind(alloc, i)?)?;
    }
    Ok(keys)
}

/// Adds what is found beside the keys.
fn push_others(alloc: Global, items: &mut List<Item>) -> Result<(), Memory>
    ensures { OnOk result (items.new ≡ items.old ++ plain.others) }
{
    items.push(Item {
        name: Text::of(alloc, "Gem")?,
        id: ItemId::new(10),
        class: Class::Useful,
    })?;
    items.push(Item {
        name: Text::of(alloc, "Snare")?,
        id: ItemId::new(11),
        class: Class::Trap,
    })?;
    items.push(Item {
        name: Text::of(alloc, "Coin")?,
        id: ItemId::new(12),
        class: Class::Filler,
    })
}

/// The keys, and what is found beside them.
fn items(alloc: Global) -> Result<List<Item>, Memory>
    ensures { IfOk result (λ items. items ≡ plain.keys_below 9 ++ plain.others) }
{
    let mut items = keys(alloc)?;
    push_others(alloc, &mut items)?;
    Ok(items)
}

/// One copy of each key.
#[tactic(auto, using(crate::proofs::Growing::singles_more))]
fn singles(alloc: Global) -> Result<List<PoolEntry>, Memory>
    ensures { IfOk result (λ pool. pool ≡ plain.singles_below 9) }
{
    let mut pool = List::new(alloc);
    for item in 0..9 {
        pool.push(PoolEntry { item, count: 1 })?;
    }
    Ok(pool)
}

/// The keys, six gems and three snares.
fn pool(alloc: Global) -> Result<List<PoolEntry>, Memory>
    ensures { IfOk result (λ pool. pool ≡ plain.singles_below 9
        ++ plain.copies 9 6 ∷ plain.copies 10 3 ∷ []) }
{
    let mut pool = singles(alloc)?;
    pool.push(PoolEntry { item: 9, count: 6 })?;
    pool.push(PoolEntry { item: 10, count: 3 })?;
    Ok(pool)
}

/// The numbers of the nine keys.
#[tactic(auto, using(crate::proofs::Growing::items_more))]
fn wanted(alloc: Global) -> Result<List<u32>, Memory>
    ensures { IfOk result (λ wanted. wanted ≡ plain.items_below 9) }
{
    let mut wanted = List::new(alloc);
    for item in 0..9 {
        wanted.push(item)?;
    }
    Ok(wanted)
}

/// The world that `stress` plays: ten regions in a row, each behind a key of its own, with six
/// spots in each; nine keys, six gems and three snares; all keys are wanted.
pub fn stress_world(alloc: Global) -> Result<World, Memory>
    ensures { IfOk result (λ w. w ≡ plain.world) }
{
    Ok(World {
        game: Text::of(alloc, "Stress")?,
        origin: 0,
        regions: regions(alloc)?,
        entrances: entrances(alloc)?,
        locations: spots(alloc)?,
        items: items(alloc)?,
        pool: pool(alloc)?,
        filler: 11,
        goal: Rule::HasAll(wanted(alloc)?),
    })
}
