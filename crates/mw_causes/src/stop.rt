//! Why a command ends before its work is done, and how it then ends.
ghost use Rattle.std.specs.Prelude.{◌≡◌, IfErr, OnOk};
ghost use Rattle.std.specs.Io.KnownBytes.{Keeps};
ghost use Rattle.mw_causes.specs.Ends.{Ended, told_by};

use crate::telling::{end_without_memory, tell};
use mw_base::Memory;
use mw_edges::Sink;
use std::alloc::Global;

/// Why a command ends before its work is done.
#[derive(Drop)]
pub enum Stop<C> {
    /// The folder, the source or the out sink failed.
    Fault,
    /// Memory ran out.
    Memory,
    /// What was read is refused.
    Refused {
        /// The command's own cause.
        cause: C,
    },
}

/// A cause of a command's own, with its status and its line.
pub trait Cause: Drop {
    ghost use Rattle.std.specs.Prelude.{◌≡◌, ◌≢◌, ℕ, List, IfOk, string_bytes};

    /// The status.
    ghost status_of: { Self → ℕ };

    /// The line on the error sink.
    ghost line_of: { Self → List ℕ };

    /// The status, which is not that of a fault.
    fn status(&self) -> u8
        ensures is { result ≡ status_of self.now }
        ensures own { result ≢ 5 };

    /// The line on the error sink.
    fn line(&self, alloc: Global) -> Result<String, Memory>
        ensures { IfOk result (λ t. string_bytes t ≡ line_of self.now) };
}

impl<C: Drop> From<Memory> for Stop<C> {
    ghost use Rattle.mw_causes.specs.declared.stop.Stop.TheVariants.{Memory as OutOfMemory};

    ghost from_gives = { λ _ e. e ≡ OutOfMemory };

    fn from(_error: Memory) -> Self {
        Stop::Memory
    }
}

/// Tells a cause, and answers its status. Where memory for its line is wanting, that is the cause.
fn end_stopped<C: Cause, E: Sink>(alloc: Global, err: &mut E, stop: &Stop<C>) -> u8
    ensures ended { Ended C.status_of C.line_of stop.now result
        (told_by E.held E.refusals err.old err.new) }
    ensures fault { result ≡ 5 → stop.now ≡ Stop.Fault }
{
    match stop {
        Stop::Fault => {
            tell(err, "device failed\n");
            5
        }
        Stop::Memory => end_without_memory(err),
        Stop::Refused { cause } => match cause.line(alloc) {
            Ok(line) => {
                tell(err, line.as_str());
                cause.status()
            }
            Err(_) => end_without_memory(err),
        },
    }
}

/// The status of a command: 0 where all is done, and else that of the cause, which is told: 5 for a
/// fault, 6 for want of memory, and the cause's own for a refusal. Where memory for a refusal's line
/// is wanting, that is told.
pub fn end<C: Cause, E: Sink>(alloc: Global, err: &mut E, outcome: Result<(), Stop<C>>) -> u8
    ensures done { OnOk outcome (result ≡ 0) }
    ensures kept { OnOk outcome (Keeps (E.held err.old) (E.held err.new)) }
    ensures ended { IfErr outcome
        (λ stop. Ended C.status_of C.line_of stop result
        (told_by E.held E.refusals err.old err.new)) }
    ensures fault { result ≡ 5 → outcome ≡ Err Stop.Fault }
{
    match outcome {
        Ok(()) => 0,
        Err(stop) => end_stopped(alloc, err, &stop),
    }
}
