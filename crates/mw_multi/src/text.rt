ghost use Rattle.std.specs.Prelude.{◌≡◌, ◌≤◌, ◌*◌, All, length, map, sum_by};
ghost use Rattle.mw_multi.specs.Names.{IsName};
ghost use Rattle.mw_multi.specs.WorldKept.{item_name, entrance_name, location_name};
ghost use Rattle.mw_multi.specs.JointOf.{name_text, world_text};

use crate::entrance::Entrance;
use crate::item::Item;
use crate::location::Location;
use crate::world::World;
use mw_base::Text;

/// How much text a name has: its bytes, and 24 more.
#[tactic(auto, using(crate::proofs::Lengths::name_text_bound))]
fn name_in(name: &Text) -> u64
    requires { IsName 128 name.now }
    ensures value { result ≡ name_text name.now }
    ensures bound { result ≤ 539 }
{
    name.as_str().len() as u64 + 24
}

/// How much text regions have.
fn regions_in(regions: &[Text]) -> u64
    requires few { length regions.now ≤ 10000 }
    requires names { All (IsName 128) regions.now }
    ensures value { result ≡ sum_by name_text regions.now }
    ensures bound { result ≤ 539 * length regions.now }
{
    let mut total = 0;
    for region in regions {
        total += name_in(region);
    }
    total
}

/// How much text items have.
fn items_in(items: &[Item]) -> u64
    requires few { length items.now ≤ 10000 }
    requires names { All (λ i. IsName 128 i.name) items.now }
    ensures value { result ≡ sum_by name_text (map item_name items.now) }
    ensures bound { result ≤ 539 * length items.now }
{
    let mut total = 0;
    for item in items {
        total += name_in(&item.name);
    }
    total
}

/// How much text entrances have.
fn entrances_in(entrances: &[Entrance]) -> u64
    requires few { length entrances.now ≤ 10000 }
    requires names { All (λ e. IsName 128 e.name) entrances.now }
    ensures value { result ≡ sum_by name_text (map entrance_name entrances.now) }
    ensures bound { result ≤ 539 * length entrances.now }
{
    let mut total = 0;
    for entrance in entrances {
        total += name_in(&entrance.name);
    }
    total
}

/// How much text locations have.
fn locations_in(locations: &[Location]) -> u64
    requires few { length locations.now ≤ 10000 }
    requires names { All (λ l. IsName 128 l.name) locations.now }
    ensures value { result ≡ sum_by name_text (map location_name locations.now) }
    ensures bound { result ≤ 539 * length locations.now }
{
    let mut total = 0;
    for location in locations {
        total += name_in(&location.name);
    }
    total
}

/// How much text a world's names have.
fn world_in(world: &World) -> u64
    ensures value { result ≡ world_text world.now }
    ensures bound { result ≤ 18865539 }
{
    let game = name_in(&world.game);
    let regions = regions_in(world.regions.as_slice());
    let items = items_in(world.items.as_slice());
    let entrances = entrances_in(world.entrances.as_slice());
    let locations = locations_in(world.locations.as_slice());
    game + regions + items + entrances + locations
}

/// How much text the names of all worlds have, each world counted once.
pub(crate) fn text_in(worlds: &[World]) -> u64
    requires { length worlds.now ≤ 1024 }
    ensures { result ≡ sum_by world_text worlds.now }
{
    let mut total = 0;
    for world in worlds {
        total += world_in(world);
    }
    total
}
