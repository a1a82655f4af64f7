use crate::tree::{Member, Tree};
use mw_base::{List, Text};
use std::marker::Model;

/// What is done to a value of the data storage, and with what.
#[derive(Drop)]
pub struct Operation {
    /// Its name, which may be no operation's.
    pub name: Text,
    /// Its operand: whole numbers from -2^63 to 2^64 - 1, the members of each object in order, at
    /// most 62 deep.
    pub value: Tree,
}

impl Model for Operation {
    ghost use Rattle.std.specs.Coded.{codes};
    ghost use Rattle.mw_model.specs.Passed.{IsPassed};
    ghost use Rattle.mw_model.specs.Sets as plain;
    ghost use Rattle.mw_json.specs.TreeCode.{coded_json};
    ghost use Rattle.mw_json.specs.View.{view as tree_view};

    ghost Value = { plain.Operation };

    ghost coded = { Prim.hlevel (codes, coded_json) };

    ghost view = { λ o. record { name = o.name; value = tree_view o.value } };

    ghost invariant = { λ o. IsPassed (tree_view o.value) };
}

/// A change of the data storage, as a client asks for it.
#[derive(Drop)]
pub struct SetPacket {
    /// The key whose value is changed.
    pub key: Text,
    /// The value that the operations begin with where none is kept, like an operand.
    pub default: Tree,
    /// Whether the client is told what came of it.
    pub want_reply: bool,
    /// What is done, in order.
    pub operations: List<Operation>,
    /// Further members, in ascending byte order of their names, none of them named `cmd`, `key`,
    /// `default`, `want_reply` or `operations`; their values are like operands.
    pub further: List<Member>,
}

impl Model for SetPacket {
    ghost use Rattle.std.specs.Coded.{codes};
    ghost use Rattle.mw_model.specs.Sets as plain;
    ghost use Rattle.mw_json.specs.Sets.{IsSet};
    ghost use Rattle.mw_json.specs.TreeCode.{coded_json, coded_members};
    ghost use Rattle.mw_json.specs.View.{view as tree_view, members_view};

    ghost Value = { plain.SetPacket };

    ghost coded = { Prim.hlevel (codes, coded_json, coded_members) };

    ghost view = { λ s. record {
      key = s.key;
      fallback = tree_view s.default;
      want_reply = s.want_reply;
      operations = s.operations;
      further = members_view s.further;
    } };

    ghost invariant = { λ s. IsSet record {
      key = s.key;
      fallback = tree_view s.default;
      want_reply = s.want_reply;
      operations = s.operations;
      further = members_view s.further;
    } };
}
