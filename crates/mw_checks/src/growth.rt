ghost use Rattle.std.specs.Prelude.{◌≡◌, ◌≤◌, IfOk, vec_capacity, []};
ghost use Rattle.mw_base.specs.Space.{HasSpace};

use crate::check::Check;
use mw_base::{Growth, Memory};
use std::alloc::Global;

/// The memory that a log needs for more checks, taken ahead.
#[derive(Drop)]
pub struct CheckGrowth {
    pub(crate) order: Growth<Check>,
    pub(crate) checks: Vec<Check>,
}

impl CheckGrowth {
    /// Room for this many more checks after these.
    pub(crate) fn of(alloc: Global, order: &Vec<Check>, more: usize) -> Result<CheckGrowth, Memory>
        ensures order { IfOk result (λ g. HasSpace order.now g.order more) }
        ensures empty { IfOk result (λ g. g.checks.items ≡ []) }
        ensures checks { IfOk result (λ g. more ≤ vec_capacity g.checks) }
    {
        let checks = Vec::with_capacity(alloc, more)?;
        let order = Growth::of(alloc, order, more)?;
        Ok(CheckGrowth { order, checks })
    }
}
