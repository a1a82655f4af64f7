//! The tables of `Clockwork`.
ghost use Rattle.std.specs.Prelude.{◌≡◌, ◌+◌, ◌*◌, ◌<◌, ◌≤◌, ◌++◌, ◌∷◌, [], IfOk, OnOk, codes, decimal};
ghost use Rattle.mw_clock.specs.Clockwork.{IsSize, floor, floors_below, stair, stairs_below, open_location, box, boxes_below, bell, gear, oil, clockwork};

use mw_base::{ItemId, List, LocId, Memory, Text};
use mw_multi::{Class, Entrance, Item, LocKind, Location, PoolEntry, World};
use mw_rules::Rule;
use std::alloc::Global;

/// The name of a floor.
pub(crate) fn floor_name(alloc: Global, number: u32) -> Result<Text, Memory>
    ensures { IfOk result (λ t. t ≡ floor number) }
{
    if number == 0 {
        return Text::of(alloc, "Menu");
    }
    Ok(Text::from_string(format!(in alloc; "Floor {number}")?))
}

/// The name of the stair to a floor.
pub(crate) fn stair_name(alloc: Global, number: u32) -> Result<Text, Memory>
    ensures { IfOk result (λ t. t ≡ codes "Stair " ++ decimal number) }
{
    Ok(Text::from_string(format!(in alloc; "Stair {number}")?))
}

/// The name of a box.
pub(crate) fn box_name(alloc: Global, number: u32) -> Result<Text, Memory>
    ensures { IfOk result (λ t. t ≡ codes "Box " ++ decimal number) }
{
    Ok(Text::from_string(format!(in alloc; "Box {number}")?))
}

/// The names of the floors below this one.
#[tactic(auto, using(crate::proofs::Growing::floors_more))]
fn floors(alloc: Global, number: u32) -> Result<List<Text>, Memory>
    ensures { IfOk result (λ floors. floors ≡ floors_below number) }
{
    let mut floors = List::new(alloc);
    for i in 0..number {
        floors.push(floor_name(alloc, i)?)?;
    }
    Ok(floors)
}

/// The stair from a floor to the next.
fn stair_from(alloc: Global, number: u32) -> Result<Entrance, Memory>
    requires { number ≤ 20 }
    ensures { IfOk result (λ e. e ≡ stair number) }
{
    Ok(Entrance {
        name: stair_name(alloc, number + 1)?,
        from: number,
        to: number + 1,
        rule: Rule::Has {
            item: 0,
            count: number + 1,
        },
    })
}

/// The stairs from the floors below this one.
#[tactic(auto, using(crate::proofs::Growing::stairs_more))]
fn stairs(alloc: Global, number: u32) -> Result<List<Entrance>, Memory>
    requires { number ≤ 20 }
    ensures { IfOk result (λ stairs. stairs ≡ stairs_below number) }
{
    let mut stairs = List::new(alloc);
    for i in 0..number {
        stairs.push(stair_from(alloc, i)?)?;
    }
    Ok(stairs)
}

/// A location on a floor, open to whoever is there.
fn location(name: Text, id: u32, region: u32) -> Location
    requires { 1 ≤ id }
    ensures { result ≡ open_location name id region }
{
    Location {
        name,
        id: LocId::new(i64::from(id)),
        region,
        kind: LocKind::Default,
        rule: Rule::Always,
        event: None,
    }
}

/// Adds a box on a floor.
fn push_box(
    alloc: Global,
    locations: &mut List<Location>,
    number: u32,
    region: u32,
) -> Result<(), Memory>
    requires { 1 ≤ number }
    ensures { OnOk result (locations.new ≡ locations.old ++ box number region ∷ []) }
{
    let name = box_name(alloc, number)?;
    locations.push(location(name, number, region))
}

/// Adds the two boxes of a floor.
fn push_boxes(alloc: Global, locations: &mut List<Location>, floor: u32) -> Result<(), Memory>
    requires { floor ≤ 20 }
    ensures { OnOk result (locations.new
        ≡ locations.old ++ box (2 * floor + 1) floor ∷ box (2 * floor + 2) floor ∷ []) }
{
    push_box(alloc, locations, 2 * floor + 1, floor)?;
    push_box(alloc, locations, 2 * floor + 2, floor)
}

/// The boxes on the floors below this one.
#[tactic(auto, using(crate::proofs::Growing::boxes_more))]
fn boxes(alloc: Global, number: u32) -> Result<List<Location>, Memory>
    requires { number ≤ 20 }
    ensures { IfOk result (λ boxes. boxes ≡ boxes_below number) }
{
    let mut boxes = List::new(alloc);
    for i in 0..number {
        push_boxes(alloc, &mut boxes, i)?;
    }
    Ok(boxes)
}

/// The boxes, and the bell.
fn locations(alloc: Global, gears: u32) -> Result<List<Location>, Memory>
    requires { gears ≤ 20 }
    ensures { IfOk result (λ ls. ls ≡ boxes_below gears ++ bell gears ∷ []) }
{
    let mut locations = boxes(alloc, gears)?;
    let name = Text::of(alloc, "Bell")?;
    locations.push(location(name, 2 * gears + 1, gears))?;
    Ok(locations)
}

/// The gear and the oil.
fn items(alloc: Global) -> Result<List<Item>, Memory>
    ensures { IfOk result (λ items. items ≡ gear ∷ oil ∷ []) }
{
    let mut items = List::new(alloc);
    items.push(Item {
        name: Text::of(alloc, "Gear")?,
        id: ItemId::new(1),
        class: Class::Progression,
    })?;
    items.push(Item {
        name: Text::of(alloc, "Oil")?,
        id: ItemId::new(2),
        class: Class::Filler,
    })?;
    Ok(items)
}

/// So many gears.
fn pool(alloc: Global, gears: u32) -> Result<List<PoolEntry>, Memory>
    ensures { IfOk result (λ pool. pool ≡ record { item = 0; count = gears } ∷ []) }
{
    let mut pool = List::new(alloc);
    pool.push(PoolEntry {
        item: 0,
        count: gears,
    })?;
    Ok(pool)
}

/// `Clockwork` with 1 to 20 gears.
pub fn world_of(alloc: Global, gears: u32) -> Result<World, Memory>
    requires { IsSize gears }
    ensures { IfOk result (λ w. w ≡ clockwork gears) }
{
    Ok(World {
        game: Text::of(alloc, "Clockwork")?,
        origin: 0,
        regions: floors(alloc, gears + 1)?,
        entrances: stairs(alloc, gears)?,
        locations: locations(alloc, gears)?,
        items: items(alloc)?,
        pool: pool(alloc, gears)?,
        filler: 1,
        goal: Rule::CanReach {
            place: 3 * gears + 1,
        },
    })
}
