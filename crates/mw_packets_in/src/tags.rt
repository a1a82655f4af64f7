ghost use Rattle.std.specs.Prelude.{◌≡◌};
ghost use Rattle.mw_protocol.specs.Connecting.{has_tag as has_tag_lem};

use mw_base::{List, Text, has_text};

/// Whether a client's tags, where it gives some, have this one.
pub fn has_tag(tags: &Option<List<Text>>, tag: &str) -> bool
    ensures { result ≡ has_tag_lem tags.now tag.now }
{
    match tags {
        Some(tags) => has_text(tags.as_slice(), tag),
        None => false,
    }
}
