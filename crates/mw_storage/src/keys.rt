ghost use Rattle.std.specs.Prelude.{◌≡◌, ◌≤◌, map, option_map};
ghost use Rattle.indexmap.specs.IndexMap.{spare};
ghost use Rattle.mw_json.specs.View.{view};
ghost use Rattle.mw_protocol.specs.Storage.{put, value_of};
ghost use Rattle.mw_storage.specs.Stored.{entry_view};

use indexmap::IndexMap;
use mw_base::Text;
use mw_json::Tree;

/// The value of a key.
pub(crate) fn find<'a>(kept: &'a IndexMap<String, Tree>, key: &str) -> Option<&'a Tree>
    ensures { option_map (λ t. view t.now) result
        ≡ value_of key.now (map entry_view kept.now.entries) }
{
    kept.get(key)
}

/// Keeps a value under a key, where there is room for one more.
pub(crate) fn insert(kept: &mut IndexMap<String, Tree>, key: Text, value: Tree)
    requires { 1 ≤ spare kept.old }
    ensures { map entry_view kept.new.entries
        ≡ put key (view value) (map entry_view kept.old.entries) }
{
    let _old = kept.insert(key.into_string(), value).unwrap();
}
