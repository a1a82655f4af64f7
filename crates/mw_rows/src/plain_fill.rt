ghost use Rattle.std.specs.Prelude.{◌≡◌, IfOk, length};
ghost use Rattle.mw_reach.specs.Reached.{IsBagFor, IsMadeFor, KeepsRules};

use crate::plain_pieces::{
    Opening, Piece, copies_of, openings_of, owns, push_shuffled, shuffle_entries,
};
use mw_base::{List, Memory};
use mw_fill::{FillError, GenerateError, Seed, Words};
use mw_multi::{Bag, Class, Joint, LocKind, Placed, Placement};
use mw_reach::{Lack, Reached, first_lack, reach};
use std::alloc::Global;

/// The kinds of locations in the order in which fillers and traps stand at them. Other items stand at none of the first
/// kind.
const KINDS: [LocKind; 3] = [LocKind::Excluded, LocKind::Priority, LocKind::Default];

/// The list that a copy is placed by, and whether all that is required holds in it, so that the copy may be missed.
#[derive(Drop)]
struct Ground {
    reached: Reached,
    is_enough: bool,
}

/// Whether a location is free, takes the copy, and is in the list where there is one; a copy that nobody has to find may
/// stand outside of it in the world of a slot that wants no more than goals.
fn fits(opening: &Opening, piece: &Piece, ground: Option<&Ground>) -> bool {
    let accepts = if piece.receiver == opening.slot {
        piece.home
    } else {
        piece.away
    };
    let may_stand = match ground {
        Some(ground) => {
            let may_be_missed = ground.is_enough && piece.minimal && opening.minimal;
            may_be_missed || ground.reached.has(opening.stands.place)
        }
        None => true,
    };
    accepts && may_stand && !opening.is_taken
}

/// Puts a copy at the first location that fits, by kind and then by order.
fn put(openings: &mut [Opening], piece: &Piece, ground: Option<&Ground>) -> Result<(), FillError> {
    let first = match piece.class {
        Class::Filler | Class::Trap => 0,
        _ => 1,
    };
    for kind in &KINDS[first..] {
        for opening in openings.iter_mut() {
            if opening.kind == *kind && fits(opening, piece, ground) {
                opening.stands.receiver = piece.receiver;
                opening.stands.item = piece.item;
                opening.is_taken = true;
                return Ok(());
            }
        }
    }
    Err(FillError::Stuck {
        slot: piece.receiver,
        item: piece.item,
    })
}

/// One more of an item, where that is an item's number.
fn add(bag: &mut Bag, number: u32)
    ensures { length bag.new ≡ length bag.old }
{
    if (number as usize) < bag.as_slice().len() && bag.count(number) < 1_000_000 {
        bag.add(number, 1);
    }
}

/// Adds an item of a receiver, once for each owner.
fn add_owned(bag: &mut Bag, joint: &Joint, receiver: u16, item: u32)
    ensures { length bag.new ≡ length bag.old }
{
    for (before, slot) in joint.slots.as_slice().iter().enumerate() {
        if owns(joint, before as u16 + 1, receiver) {
            add(bag, slot.first_item.saturating_add(item));
        }
    }
}

/// Adds copies.
fn add_pieces(bag: &mut Bag, joint: &Joint, pieces: &[Piece])
    ensures { length bag.new ≡ length bag.old }
{
    for piece in pieces {
        add_owned(bag, joint, piece.receiver, piece.item);
    }
}

/// Adds the copies that lie at places of the list.
fn add_reached(bag: &mut Bag, joint: &Joint, openings: &[Opening], reached: &Reached)
    ensures { length bag.new ≡ length bag.old }
{
    for opening in openings {
        let stands = &opening.stands;
        if opening.is_taken && reached.has(stands.place) {
            add_owned(bag, joint, stands.receiver, stands.item);
        }
    }
}

/// How many of the copies that are put lie at places of the list.
fn found_in(openings: &[Opening], reached: &Reached) -> usize {
    let mut found = 0usize;
    for opening in openings {
        if opening.is_taken && reached.has(opening.stands.place) {
            found = found.saturating_add(1);
        }
    }
    found
}

/// Makes the list anew with the starting items, the copies that are still to be put, and those that lie at places of
/// the list, and answers whether more lie there then.
fn collect(
    alloc: Global,
    joint: &Joint,
    later: &[Piece],
    openings: &[Opening],
    reached: &mut Reached,
) -> Result<bool, Memory>
    requires made { IsMadeFor joint.now reached.old }
    requires rules { KeepsRules joint.now reached.old }
    ensures made { IsMadeFor joint.now reached.new }
    ensures rules { KeepsRules joint.now reached.new }
{
    let before = found_in(openings, reached);
    // Reading the joint makes known what its type keeps.
    let _ = &joint.slots;
    let placed = Placed::events(alloc, joint)?;
    let mut bag = Bag::starting(alloc, joint)?;
    add_pieces(&mut bag, joint, later);
    add_reached(&mut bag, joint, openings, reached);
    reach(joint, &bag, &placed, reached);
    Ok(found_in(openings, reached) > before)
}

/// The least list with these copies in hand, and with what is put where it lies: that is collected until nothing more is
/// found, which takes at most a round for each copy that is put, and one more.
fn reached_with(
    alloc: Global,
    joint: &Joint,
    later: &[Piece],
    openings: &[Opening],
    put: usize,
) -> Result<Reached, Memory>
    ensures made { IfOk result (IsMadeFor joint.now) }
    ensures rules { IfOk result (KeepsRules joint.now) }
{
    let mut reached = Reached::new(alloc, joint)?;
    let mut more = true;
    for _ in 0..=put {
        if more {
            more = collect(alloc, joint, later, openings, &mut reached)?;
        }
    }
    Ok(reached)
}

/// Puts the copies in their order: those that rules ask for where they are reached with the later ones in hand.
fn place_all(
    alloc: Global,
    joint: &Joint,
    openings: &mut [Opening],
    pieces: &[Piece],
) -> Result<(), FillError> {
    for (index, piece) in pieces.iter().enumerate() {
        let ground = match piece.class {
            Class::Progression => {
                let later = &pieces[index + 1..];
                let reached = reached_with(alloc, joint, later, openings, index)?;
                let is_enough = first_lack(joint, &reached).is_none();
                Some(Ground { reached, is_enough })
            }
            _ => None,
        };
        put(openings, piece, ground.as_ref())?;
    }
    Ok(())
}

/// What stands at the locations in the end, in ascending order of places.
fn placement_of(alloc: Global, joint: &Joint, openings: &[Opening]) -> Placement {
    let mut placement = List::new(alloc);
    for place in 0..joint.place_count() {
        for opening in openings {
            if opening.stands.place == place {
                let _ = placement.push(opening.stands);
            }
        }
    }
    placement
}

/// The placement of a try, or the first copy that finds no location.
pub(crate) fn plain_try(
    alloc: Global,
    joint: &Joint,
    seed: u64,
    stream: u64,
) -> Result<Placement, FillError> {
    let mut words = Words::new(seed, stream);
    let mut pieces = Vec::new(alloc);
    let mut openings = openings_of(alloc, joint);
    push_shuffled(&mut pieces, joint, &mut words, &[Class::Progression]);
    shuffle_entries(&mut words, openings.as_mut_slice());
    push_shuffled(&mut pieces, joint, &mut words, &[Class::Useful]);
    push_shuffled(
        &mut pieces,
        joint,
        &mut words,
        &[Class::Filler, Class::Trap],
    );
    place_all(alloc, joint, openings.as_mut_slice(), pieces.as_slice())?;
    Ok(placement_of(alloc, joint, openings.as_slice()))
}

/// The first thing that is lacking with these copies in hand.
fn lack_with(alloc: Global, joint: &Joint, copies: &[Piece]) -> Result<Option<Lack>, Memory> {
    Ok(first_lack(joint, &reached_with(alloc, joint, copies, &[], 0)?))
}

/// The first try's placement, or why there is none: a goal that isn't met, a location that isn't reached, then too little
/// room.
pub(crate) fn plain_seed(
    alloc: Global,
    joint: &Joint,
    seed: u64,
    tries: u64,
) -> Result<Seed, GenerateError> {
    let copies = copies_of(alloc, joint);
    match lack_with(alloc, joint, copies.as_slice())? {
        Some(Lack::Goal { slot }) => return Err(GenerateError::NotBeatable { slot }),
        Some(Lack::Location { slot, place }) => return Err(GenerateError::NotFull { slot, place }),
        None => {}
    }
    let have = copies.len() as u64;
    let room = openings_of(alloc, joint).len() as u64;
    if room < have {
        return Err(GenerateError::TooManyItems { have, room });
    }
    for stream in 0..tries {
        if let Ok(placement) = plain_try(alloc, joint, seed, stream) {
            return Ok(Seed { placement, stream });
        }
    }
    Err(GenerateError::Exhausted)
}
