use crate::link::Link;
use crate::players::Players;
use crate::slot::Slot;
use mw_base::List;
use std::marker::Model;

/// The worlds of all slots joined. A slot points at its world's tables, so that a world that many slots play stands
/// once. Places and items are numbered over all slots, slot by slot: a slot's places are its regions in table order and
/// then its locations.
#[derive(Drop)]
pub struct Joint<'a> {
    /// The players file.
    pub players: &'a Players,
    /// 1 to 1,024 slots; the first one has number 1. Together they have at most 200,000 places.
    pub slots: List<Slot<'a>>,
    /// What slots share; slots and links are at most 1,024. The first link is the receiver after the last slot.
    pub links: List<Link<'a>>,
}

impl<'a> Model for Joint<'a> {
    ghost use Rattle.std.specs.Coded.{codes};
    ghost use Rattle.mw_multi.specs.RuleCode.{coded_rule};
    ghost use Rattle.mw_multi.specs.Joint as plain;
    ghost use Rattle.mw_multi.specs.Joint.{IsJoint};

    ghost Value = { plain.Joint };

    ghost coded = { Prim.hlevel (codes, coded_rule) };

    ghost view = { λ j. record {
      teams = j.players.now.teams;
      room = j.players.now.room;
      slots = j.slots;
      links = j.links;
    } };

    ghost invariant = { λ j. IsJoint record {
      teams = j.players.now.teams;
      room = j.players.now.room;
      slots = j.slots;
      links = j.links;
    } };
}
