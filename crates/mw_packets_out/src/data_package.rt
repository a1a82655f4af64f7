ghost use Rattle.std.specs.Prelude.{◌≡◌, IfOk};
ghost use Rattle.mw_model.specs.Json.{IsWritable};
ghost use Rattle.mw_protocol.specs.Messages.{data_package_json};
ghost use Rattle.mw_json.specs.View.{view};

use mw_base::Memory;
use mw_json::{Field, Tree, copy, object};
use std::alloc::Global;
use std::marker::Model;

/// The names of games, as a tree that can be written and is read again as it stands.
#[derive(Drop)]
pub struct DataPackage {
    /// An object of the games, without numbers that aren't whole, each object's members ascending
    /// in byte order of their names.
    pub content: Tree,
}

impl Model for DataPackage {
    ghost use Rattle.mw_model.specs.Json.{IsOrdered, IsWritable};
    ghost use Rattle.mw_json.specs.View.{view as tree_view};
    ghost use Rattle.mw_json.specs.contracts.tree.Tree.{the_row};
    ghost use Rattle.mw_json.specs.declared.tree.Tree.{Tree};

    ghost Value = { Tree };

    ghost coded = { the_row.coded };

    ghost view = { λ d. d.content };

    ghost invariant = { λ d. IsWritable (tree_view d.content) × IsOrdered (tree_view d.content) };
}

/// The names of games, as an object.
pub(crate) fn data_package_tree(alloc: Global, it: &DataPackage) -> Result<Tree, Memory>
    ensures value { IfOk result (λ t. view t ≡ data_package_json (view it.now)) }
    ensures writable { IfOk result (λ t. IsWritable (view t)) }
{
    object(
        alloc,
        &mut [
            ("cmd", Field::Words("DataPackage")),
            ("data", Field::Built(copy(alloc, &it.content))),
        ],
    )
}
