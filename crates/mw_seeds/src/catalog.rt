//! The items of receivers' worlds by their ids: one index for a world, however many slots and links
//! are of it.
ghost use Rattle.std.specs.Prelude.{◌≡◌, ℤ, IfOk, Some, map, true};
ghost use Rattle.mw_multi.specs.Indexes.{index_of_id};
ghost use Rattle.mw_multi.specs.Joint.{LinkKept};
ghost use Rattle.mw_multi.specs.WorldKept.{item_id};
ghost use Rattle.mw_seeds.specs.FilePuts.{link_items, receiver_items};
ghost use Rattle.mw_seeds.specs.Agreeing.{has_flags as plain_has_flags, where_flags, slot_items};

use crate::seed_slots::class_flags;
use mw_base::{ItemId, List, Memory};
use mw_multi::{HasId, IdIndex, Item, Joint, Link, Slot, World, index_ids};
use std::alloc::Global;
use std::marker::Model;
use std::rc::Rc;

/// The items of a world, with the place of each id; slots of one world share the places.
#[derive(Drop)]
pub(crate) struct Catalog<'a> {
    world: &'a World,
    places: Rc<IdIndex>,
}

impl<'a> Model for Catalog<'a> {
    ghost use Rattle.std.specs.Prelude.{◌≡◌, ℤ, List, map};
    ghost use Rattle.std.specs.Ordering.{int_eq};
    ghost use Rattle.std.specs.HashMap as hash;
    ghost use Rattle.mw_multi.specs.Indexes.{index_of_id};
    ghost use Rattle.mw_multi.specs.World as plain;
    ghost use Rattle.mw_multi.specs.WorldKept.{item_id};

    ghost Value = { List plain.Item };

    ghost view = { λ c. c.world.now.items };

    ghost invariant = { λ c. (q : ℤ)
        → hash.get int_eq c.places.value q ≡ index_of_id (map item_id c.world.now.items) q };
}

/// Whether these are the flags of the item's class.
fn has_flags(flags: u8, item: &Item) -> bool
    ensures { result ≡ plain_has_flags flags (Some item.now) }
{
    flags == class_flags(item.class)
}

/// Whether two tables have the same ids.
fn same_ids(a: &[Item], b: &[Item]) -> bool
    ensures { result ≡ true → map item_id a.now ≡ map item_id b.now }
{
    if a.len() != b.len() {
        return false;
    }
    for (index, item) in a.iter().enumerate() {
        if item.id_number() != b[index].id_number() {
            return false;
        }
    }
    true
}

impl<'a> Catalog<'a> {
    /// The catalog of a world.
    fn of(alloc: Global, world: &'a World) -> Result<Catalog<'a>, Memory>
        ensures { IfOk result (λ c. c ≡ world.now.items) }
    {
        let index = index_ids(alloc, world.items.as_slice())?;
        let places = Rc::new(alloc, index)?;
        Ok(Catalog { world, places })
    }

    /// Whether it is of a world of the same game and the same ids.
    fn is_of(&self, world: &World) -> bool
        ensures { result ≡ true → map item_id self.now ≡ map item_id world.now.items }
    {
        let own = self.world;
        own.game.as_str() == world.game.as_str()
            && same_ids(own.items.as_slice(), world.items.as_slice())
    }

    /// The catalog of a world with the same ids, by the same index.
    fn share(&self, world: &'a World) -> Result<Catalog<'a>, Memory>
        requires { map item_id self.now ≡ map item_id world.now.items }
        ensures { IfOk result (λ c. c ≡ world.now.items) }
    {
        let places = self.places.clone()?;
        Ok(Catalog { world, places })
    }

    /// Where the item of this id stands, if these are its flags.
    pub(crate) fn find(&self, item: ItemId, flags: u8) -> Option<u32>
        ensures { result ≡ where_flags flags self.now (index_of_id (map item_id self.now) item) }
    {
        let index = *self.places.as_ref().get(&item.get())?;
        let world = self.world;
        if has_flags(flags, world.items.get(index as usize)?) {
            Some(index)
        } else {
            None
        }
    }
}

/// The catalog of a world, by the index of an earlier catalog of it where there is one.
fn catalog_for<'a>(
    alloc: Global,
    earlier: &[Catalog<'a>],
    world: &'a World,
) -> Result<Catalog<'a>, Memory>
    ensures { IfOk result (λ c. c ≡ world.now.items) }
{
    for catalog in earlier {
        if catalog.is_of(world) {
            return catalog.share(world);
        }
    }
    Catalog::of(alloc, world)
}

/// The catalogs of all slots. An index is made once for each world.
fn catalogs_of_slots<'a>(alloc: Global, slots: &[Slot<'a>]) -> Result<List<Catalog<'a>>, Memory>
    ensures { IfOk result (λ cs. cs ≡ map slot_items slots.now) }
{
    let mut catalogs = List::new(alloc);
    for slot in slots {
        let catalog = catalog_for(alloc, catalogs.as_slice(), slot.world)?;
        catalogs.push(catalog)?;
    }
    Ok(catalogs)
}

/// The world of a link's members.
fn world_of_link<'a>(slots: &[Slot<'a>], shared: &Link<'a>) -> &'a World
    requires { LinkKept slots.now shared.now }
    ensures { result.now.items ≡ link_items slots.now shared.now }
{
    let link = shared.link;
    let members = link.members.as_slice();
    let slot = &slots[members[0].get() as usize - 1];
    slot.world
}

/// The catalogs of all slots, then those of all links.
pub(crate) fn catalogs_of<'a>(alloc: Global, joint: &Joint<'a>) -> Result<List<Catalog<'a>>, Memory>
    ensures { IfOk result (λ cs. cs ≡ receiver_items joint.now) }
{
    let slots = joint.slots.as_slice();
    let mut catalogs = catalogs_of_slots(alloc, slots)?;
    for link in joint.links.as_slice() {
        let world = world_of_link(slots, link);
        let catalog = catalog_for(alloc, catalogs.as_slice(), world)?;
        catalogs.push(catalog)?;
    }
    Ok(catalogs)
}
