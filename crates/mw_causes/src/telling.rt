//! What a command puts on its sinks, and writes to its folder.
ghost use Rattle.std.specs.Prelude.{◌≡◌, ◌≢◌, ◌⊎◌, ◌≤◌, ℕ, List, IfErr, OnErr, OnOk, codes};
ghost use Rattle.std.specs.Io.KnownBytes.{Appends};
ghost use Rattle.mw_edges.specs.Causes.{PutsFront, Rose, Tells};
ghost use Rattle.mw_edges.specs.Folders.{IsWritten};

use crate::stop::Stop;
use mw_base::Text;
use mw_edges::{Folder, FolderError, Sink, SinkError};
use std::alloc::Global;

/// Puts a command's text: `Fault` where the sink failed, `Memory` where it had no memory.
pub fn put_text<C: Drop, O: Sink>(out: &mut O, text: &str) -> Result<(), Stop<C>>
    ensures done { OnOk result (Appends (O.held out.old) (O.held out.new) text.now) }
    ensures front { OnErr result (PutsFront (O.held out.old) (O.held out.new) text.now) }
    ensures late { IfErr result (λ stop. (stop ≡ Stop.Fault) ⊎ (stop ≡ Stop.Memory)) }
    ensures fault { result ≡ Err Stop.Fault → Rose (O.faults out.old) (O.faults out.new) }
    ensures later { O.faults out.old ≤ O.faults out.new }
{
    match out.put(text.as_bytes()) {
        Ok(()) => Ok(()),
        Err(SinkError::Failed) => Err(Stop::Fault),
        Err(SinkError::Memory) => Err(Stop::Memory),
    }
}

/// Writes a file of a command: `Fault` where the folder failed, `Memory` where it had no memory.
pub fn put_file<C: Drop, F: Folder>(
    alloc: Global,
    folder: &mut F,
    name: &Text,
    bytes: &[u8],
) -> Result<(), Stop<C>>
    ensures done { OnOk result
        (IsWritten (F.holds folder.old name.now) (F.holds folder.new name.now) bytes.now) }
    ensures others { (n : List ℕ) → n ≢ name.now → F.holds folder.new n ≡ F.holds folder.old n }
    ensures late { IfErr result (λ stop. (stop ≡ Stop.Fault) ⊎ (stop ≡ Stop.Memory)) }
    ensures fault { result ≡ Err Stop.Fault → Rose (F.faults folder.old) (F.faults folder.new) }
    ensures later { F.faults folder.old ≤ F.faults folder.new }
    ensures refused { OnErr result (Rose (F.refusals folder.old) (F.refusals folder.new)) }
    ensures counted { F.refusals folder.old ≤ F.refusals folder.new }
{
    match folder.write_file(alloc, name, bytes) {
        Ok(()) => Ok(()),
        Err(FolderError::Failed) => Err(Stop::Fault),
        Err(FolderError::Memory) => Err(Stop::Memory),
    }
}

/// Puts a line, or a front of it where the sink refuses.
pub fn tell<E: Sink>(err: &mut E, line: &str)
    ensures { Tells (E.held err.old) (E.held err.new) (E.refusals err.old)
        (E.refusals err.new) line.now }
{
    let _ = err.put(line.as_bytes());
}

/// Tells that memory ran out, and answers its status, 6. It takes none.
pub fn end_without_memory<E: Sink>(err: &mut E) -> u8
    ensures status { result ≡ 6 }
    ensures line { Tells (E.held err.old) (E.held err.new) (E.refusals err.old) (E.refusals err.new)
        (codes "no memory\n") }
{
    tell(err, "no memory\n");
    6
}
