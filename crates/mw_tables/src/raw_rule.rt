use mw_base::{List, Text};
use mw_json::Seen;

/// A rule as it is written, with items, regions and locations by their names.
#[derive(Drop)]
pub(crate) enum RawRule {
    Always,
    Never,
    Has { item: Text, count: u32 },
    HasAll(List<Text>),
    HasAny(List<Text>),
    Count { items: List<Text>, at_least: u32 },
    Region(Text),
    Location(Text),
    And(List<RawRule>),
    Or(List<RawRule>),
}

impl Seen for RawRule {
    ghost use Rattle.mw_tables.specs.Raw as plain;
    ghost use Rattle.mw_tables.specs.RawView.{raw_view};

    ghost Plain = { plain.RawRule };

    ghost seen = { raw_view };
}
