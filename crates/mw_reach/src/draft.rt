use crate::notes::Notes;
use crate::row::{Row, Rows};
use crate::table::Table;
use mw_base::{List, Memory};
use std::alloc::Global;
use std::marker::Model;

/// Rows to which steps are added.
#[derive(Drop)]
pub struct Draft {
    pub rows: List<Row>,
    pub origins: List<u32>,
    pub by_place: Notes,
    pub by_item: Notes,
}

impl Model for Draft {
    ghost use Rattle.mw_reach.specs.declared.row.Rows.{Rows};

    ghost Value = { Rows };

    ghost view = { λ d. record {
      rows = d.rows;
      origins = d.origins;
      by_place = d.by_place;
      by_item = d.by_item;
    } };
}

impl Draft {
    ghost use Rattle.std.specs.Prelude.{◌≡◌, IfOk};

    /// The rows as they are, to be read; `Memory` where memory ran out.
    pub fn finish(self, alloc: Global) -> Result<Rows, Memory>
        ensures { IfOk result (λ rows. rows ≡ self) }
    {
        let Draft {
            rows,
            origins,
            by_place,
            by_item,
        } = self;
        let by_place = Table::of(alloc, &by_place)?;
        let by_item = Table::of(alloc, &by_item)?;
        Ok(Rows {
            rows,
            origins,
            by_place,
            by_item,
        })
    }
}
