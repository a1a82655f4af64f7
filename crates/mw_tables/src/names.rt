ghost use Rattle.mw_tables.specs.RuleNames.{raw_location_name};
ghost use Rattle.mw_tables.specs.WorldNames.{raw_entrance_name, raw_location_id};

use crate::raw::{RawEntrance, RawLocation};
use mw_multi::{HasId, Named};

impl Named for RawEntrance {
    ghost name_of = { raw_entrance_name };

    fn name(&self) -> &str {
        self.name.as_str()
    }
}

impl Named for RawLocation {
    ghost name_of = { raw_location_name };

    fn name(&self) -> &str {
        self.name.as_str()
    }
}

impl HasId for RawLocation {
    ghost id_of = { raw_location_id };

    fn id_number(&self) -> Option<i64> {
        match &self.id {
            Some(id) => Some(id.get()),
            None => None,
        }
    }
}
