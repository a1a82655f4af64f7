ghost use Rattle.std.specs.Prelude.{◌≡◌, IfOk};
ghost use Rattle.mw_model.specs.Json.{IsWritable};
ghost use Rattle.mw_protocol.specs.Messages.{print_json};
ghost use Rattle.mw_json.specs.View.{view};

use crate::placing::{copied_list, put_copies};
use mw_base::{List, Memory, Text};
use mw_json::{Field, Member, Tree, members, object_tree, put, words_tree};
use std::alloc::Global;
use std::marker::Model;

/// A text of the room for its players.
#[derive(Drop)]
pub struct PrintJson {
    /// What kind of print it is: the member `type`.
    pub kind: Text,
    /// What a print of its kind tells beside its parts, in ascending byte order of names, which
    /// stand between `data` and `type`.
    pub further: List<Member>,
    /// Its parts: the member `data`.
    pub content: List<Tree>,
}

impl Model for PrintJson {
    ghost use Rattle.std.specs.Prelude.{map};
    ghost use Rattle.std.specs.Coded.{codes};
    ghost use Rattle.mw_json.specs.TreeCode.{coded_json, coded_members};
    ghost use Rattle.mw_json.specs.View.{view as tree_view, members_view};
    ghost use Rattle.mw_protocol.specs.Messages as plain;
    ghost use Rattle.mw_packets_out.specs.Kept.{IsPrint};

    ghost Value = { plain.PrintJson };

    ghost coded = { Prim.hlevel (codes, coded_json, coded_members) };

    ghost view = { λ p. record {
      kind = p.kind;
      further = members_view p.further;
      content = map tree_view p.content;
    } };

    ghost invariant = { λ p. IsPrint record {
      kind = p.kind;
      further = members_view p.further;
      content = map tree_view p.content;
    } };
}

/// A print as an object.
pub(crate) fn print_tree(alloc: Global, it: &PrintJson) -> Result<Tree, Memory>
    ensures value { IfOk result (λ t. view t ≡ print_json it.now) }
    ensures writable { IfOk result (λ t. IsWritable (view t)) }
{
    let mut parts = members(
        alloc,
        &mut [
            ("cmd", Field::Words("PrintJSON")),
            (
                "data",
                Field::Built(copied_list(alloc, it.content.as_slice())),
            ),
        ],
    )?;
    put_copies(alloc, &mut parts, it.further.as_slice())?;
    let kind = words_tree(alloc, it.kind.as_str())?;
    put(alloc, &mut parts, "type", kind)?;
    Ok(object_tree(parts))
}
