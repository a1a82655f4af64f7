use mw_base::{Memory, Text};
use mw_json::{Tree, compact};
use std::alloc::Global;
use std::marker::Model;

/// A key of the data storage, and what it holds.
#[derive(Drop)]
pub struct Stored {
    /// The key, shorter than 2^32 bytes.
    pub key: Text,
    /// The value: whole numbers from -2^63 to 2^64 - 1, other numerals by their characters, the
    /// members of each object in order, at most 64 deep, its compact text shorter than 2^32 bytes.
    /// So it is what its compact text is read as with its numerals.
    pub value: Tree,
}

impl Model for Stored {
    ghost use Rattle.std.specs.Coded.{codes};
    ghost use Rattle.std.specs.Prelude.{◌<◌, ◌^◌, length};
    ghost use Rattle.mw_json.specs.TreeCode.{coded_json};
    ghost use Rattle.mw_json.specs.View.{view as tree_view};
    ghost use Rattle.mw_protocol.specs.Spelled.{IsValue};
    ghost use Rattle.mw_records.specs.Fields as plain;

    ghost Value = { plain.Stored };

    ghost coded = { Prim.hlevel (codes, coded_json) };

    ghost view = { λ s. record { key = s.key; value = tree_view s.value } };

    ghost invariant = { λ s. (length s.key < 2 ^ 32) × IsValue (tree_view s.value) };
}

impl Stored {
    ghost use Rattle.std.specs.Option.{SomeIff};
    ghost use Rattle.std.specs.Prelude.{◌<◌, ◌≤◌, ◌^◌, IfOk, length};
    ghost use Rattle.mw_json.specs.View.{view as tree_view};
    ghost use Rattle.mw_model.specs.Json.{depth, IsOrdered, IsWritable};
    ghost use Rattle.mw_model.specs.Spelling.{spelling};

    /// A key and its value; None exactly where the key or the value's compact text has 2^32 bytes
    /// or more.
    pub fn new(alloc: Global, key: Text, value: Tree) -> Result<Option<Self>, Memory>
        requires writable { IsWritable (tree_view value) }
        requires ordered { IsOrdered (tree_view value) }
        requires shallow { depth (tree_view value) ≤ 64 }
        ensures { IfOk result (λ o. SomeIff o
            ((length key < 2 ^ 32) × (length (spelling (tree_view value)) < 2 ^ 32))
            (record { key = key; value = tree_view value })) }
    {
        let text = compact(alloc, &value)?;
        if key.as_str().len() < 0x1_0000_0000 && text.len() < 0x1_0000_0000 {
            Ok(Some(Stored { key, value }))
        } else {
            Ok(None)
        }
    }
}
