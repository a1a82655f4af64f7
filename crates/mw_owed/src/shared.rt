ghost use Rattle.std.specs.Prelude.{IfOk};
ghost use Rattle.mw_owed.specs.Shared.{IsShared};

use crate::receivers::receivers_of;
use crate::telling::{Telling, tellings_of};
use mw_base::Memory;
use mw_checks::CheckLog;
use mw_effects::Effect;
use std::alloc::Global;

/// What is found once for all sessions: the packets for several, and who gets what an effect's new
/// checks found.
#[derive(Drop)]
pub struct Shared<'a> {
    pub tellings: Vec<Telling<'a>>,
    pub receivers: Vec<u16>,
}

/// What all sessions share of an effect.
pub fn shared_of<'a>(
    alloc: Global,
    log: &CheckLog,
    effect: &'a Effect,
) -> Result<Shared<'a>, Memory>
    ensures { IfOk result (λ s. IsShared log.now.seed effect.now s) }
{
    let tellings = tellings_of(alloc, effect.announced.as_slice())?;
    let receivers = receivers_of(alloc, log, effect.new.as_slice())?;
    Ok(Shared {
        tellings,
        receivers,
    })
}
