use crate::table::Table;
use mw_base::List;

/// Where a step starts, and the number of its rule.
#[derive(Clone, Copy)]
pub struct Start {
    /// A place, by its number over all slots.
    pub from: u32,
    /// The rule's number over all slots.
    pub rule: u32,
}

/// A rule and the slot that owns it, by their numbers.
#[derive(Clone, Copy)]
pub struct RuleOfSlot {
    /// The slot, by its index from 0.
    pub slot: u32,
    /// The rule's number over all slots.
    pub rule: u32,
}

/// A step into a place. It holds no rule, only the rule's number.
#[derive(Clone, Copy)]
pub struct Row {
    /// The slot, by its index from 0.
    pub slot: u32,
    /// None for the step into a slot's origin, which starts nowhere and has no rule to ask.
    pub start: Option<Start>,
    /// The place that it leads to, by its number over all slots.
    pub to: u32,
}

/// The steps of a joint by number, and which of them a place or an item may open.
pub struct Rows {
    /// The steps, slot by slot: the origin, the entrances, the locations.
    pub rows: List<Row>,
    /// The numbers of the steps into origins.
    pub origins: List<u32>,
    /// For each place, the numbers of the steps that start there or whose rule names it, ascending.
    pub by_place: Table,
    /// For each item, the numbers of the steps whose rule names it, ascending.
    pub by_item: Table,
}

/// By hand, so that whoever lets them go calls this, and what they free is listed once.
impl Drop for Rows {
    fn drop(self) {
        let Rows {
            rows: _,
            origins: _,
            by_place: _,
            by_item: _,
        } = self;
    }
}
