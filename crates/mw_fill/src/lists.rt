ghost use Rattle.std.specs.Prelude.{◌≡◌, ◌<◌, ◌^◌, List, IfOk, OnOk, length};
ghost use Rattle.mw_multi.specs.Joint as plain_joint;
ghost use Rattle.mw_fill.specs.ListsKept.{AreKept, AreShort};
ghost use Rattle.mw_fill.specs.Draws.{start_of, words_of, at_place, shuffled, place_after};
ghost use Rattle.mw_fill.specs.Try as plain;
ghost use Rattle.mw_fill.specs.Try.{shuffled_lists};

use crate::copies::copies_of;
use crate::draws::{Words, shuffle_entries};
use crate::group::Group;
use crate::item_copy::ItemCopy;
use crate::opening::Opening;
use crate::openings::openings_of;
use mw_base::{List, Memory};
use mw_multi::Joint;
use std::alloc::Global;
use std::marker::Model;

/// Copies and locations, in the order of the tables or of a try's shuffles.
#[derive(Drop)]
pub(crate) struct Lists {
    /// The copies that rules ask for.
    pub asked: List<ItemCopy>,
    /// The locations with an id.
    pub openings: List<Opening>,
    /// The useful copies.
    pub helping: List<ItemCopy>,
    /// The filler and trap copies.
    pub filling: List<ItemCopy>,
}

impl Model for Lists {
    ghost use Rattle.mw_fill.specs.Try as plain;

    ghost Value = { plain.Lists };

    ghost view = { λ l. record {
      asked = l.asked;
      openings = l.openings;
      helping = l.helping;
      filling = l.filling;
    } };
}

/// The copies and the locations of a joint, in the order of its tables; `Memory` where memory ran
/// out.
pub(crate) fn stock_of(alloc: Global, joint: &Joint) -> Result<Lists, Memory>
    ensures lists { IfOk result (λ stock. stock ≡ plain.stock_of joint.now) }
    ensures kept { IfOk result (AreKept joint.now) }
    ensures short { IfOk result AreShort }
{
    let asked = copies_of(alloc, joint, Group::Asked)?;
    let openings = openings_of(alloc, joint)?;
    let helping = copies_of(alloc, joint, Group::Helping)?;
    let filling = copies_of(alloc, joint, Group::Filling)?;
    Ok(Lists {
        asked,
        openings,
        helping,
        filling,
    })
}

/// A copy of the entries, in the order that the next words give; `Memory` where memory ran out.
fn shuffled_copy<T: Copy>(
    alloc: Global,
    words: &mut Words,
    entries: &[T],
) -> Result<List<T>, Memory>
    requires { length entries.now < 2 ^ 32 }
    ensures list { IfOk result (λ list. list
        ≡ shuffled (words_of words.old) words.old.word_pos entries.now) }
    ensures words { OnOk result (words.new
        ≡ at_place words.old (place_after words.old.word_pos entries.now)) }
{
    let mut copy = Vec::from_slice(alloc, entries)?;
    shuffle_entries(words, copy.as_mut_slice());
    Ok(List::from_vec(copy))
}

/// The lists of a try: those of the stock, in the order that the stream's words give; `Memory`
/// where memory ran out.
pub(crate) fn lists_of(
    alloc: Global,
    stock: &Lists,
    seed: u64,
    stream: u64,
) -> Result<Lists, Memory>
    requires { AreShort stock.now }
    ensures lists { IfOk result (λ lists. lists
        ≡ shuffled_lists stock.now (words_of (start_of seed stream))) }
    ensures kept { IfOk result (λ lists. (joint : plain_joint.Joint) → AreKept joint stock.now
        → AreKept joint lists) }
{
    let mut words = Words::new(seed, stream);
    let asked = shuffled_copy(alloc, &mut words, stock.asked.as_slice())?;
    let openings = shuffled_copy(alloc, &mut words, stock.openings.as_slice())?;
    let helping = shuffled_copy(alloc, &mut words, stock.helping.as_slice())?;
    let filling = shuffled_copy(alloc, &mut words, stock.filling.as_slice())?;
    Ok(Lists {
        asked,
        openings,
        helping,
        filling,
    })
}
