ghost use Rattle.std.specs.Prelude.{◌≡◌, IfOk};
ghost use Rattle.mw_base.specs.Permissions.{permission_number};
ghost use Rattle.mw_model.specs.Json.{IsWritable};
ghost use Rattle.mw_json.specs.View.{view};
ghost use Rattle.mw_multidata.specs.Written.{permission_word, server_json};

use mw_base::{Memory, Permission, RoomOptions};
use mw_json::{Field, Tree, object};
use std::alloc::Global;

/// A permission's word.
fn word_of(permission: Permission) -> &'static str
    ensures { result.now ≡ permission_word (permission_number permission) }
{
    match permission {
        Permission::Disabled => "disabled",
        Permission::Enabled => "enabled",
        Permission::Goal => "goal",
        Permission::Auto => "auto",
        Permission::AutoEnabled => "auto_enabled",
    }
}

/// The settings of the room, as an object.
pub(crate) fn server_tree(alloc: Global, server: &RoomOptions) -> Result<Tree, Memory>
    ensures value { IfOk result (λ t. view t ≡ server_json server.now) }
    ensures writable { IfOk result (λ t. IsWritable (view t)) }
{
    let cost = u64::from(server.hint_cost);
    let points = u64::from(server.location_check_points);
    object(
        alloc,
        &mut [
            ("collect", Field::Words(word_of(server.collect))),
            ("hint_cost", Field::Number(cost)),
            ("location_check_points", Field::Number(points)),
            ("password", Field::Words(server.password.as_str())),
            ("release", Field::Words(word_of(server.release))),
            ("remaining", Field::Words(word_of(server.remaining))),
        ],
    )
}
