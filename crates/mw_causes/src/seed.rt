//! Reads a seed file.
ghost use Rattle.std.specs.Prelude.{◌≡◌, ◌≤◌, ◌≢◌, IfOk, IfErr, ℕ, List, Ok, Some, false, length};
ghost use Rattle.mw_edges.specs.Causes.{Rose};
ghost use Rattle.mw_edges.specs.Folders.{SameImages};
ghost use Rattle.mw_model.specs.Seed.{Seed};
ghost use Rattle.mw_multidata.specs.SeedOf.{SeedOf};
ghost use Rattle.mw_causes.specs.SeedFiles.{DigestedIn, IsFile, SeedIn, IsSeedStopped, max_seed_file};

use crate::seed_cause::SeedCause;
use crate::stop::Stop;
use mw_base::{Bytes, Text};
use mw_edges::{FileRead, Folder, FolderError};
use mw_multidata::{DataRefusal, Multidata, digest, read};
use std::alloc::Global;

/// The greatest length of a seed file, in bytes.
const MAX_SEED_FILE: u64 = 67_108_864;

/// Reads a file that has at most a seed file's length.
fn read_bytes<F: Folder>(
    alloc: Global,
    folder: &mut F,
    name: &Text,
) -> Result<Bytes, Stop<SeedCause>>
    ensures ok { IfOk result (IsFile (F.holds folder.old name.now)) }
    ensures err { IfErr result
        (IsSeedStopped (F.holds folder.old name.now) (F.may_fail folder.old)) }
    ensures fault { result ≡ Err Stop.Fault → Rose (F.faults folder.old) (F.faults folder.new) }
    ensures later { F.faults folder.old ≤ F.faults folder.new }
    ensures same { (n : List ℕ) → F.holds folder.new n ≡ F.holds folder.old n }
    ensures crash { (n : List ℕ) → SameImages (F.images folder.old n) (F.images folder.new n) }
    ensures opened { (n : List ℕ) → F.is_open folder.new n ≡ F.is_open folder.old n }
{
    match folder.read_file(alloc, name, MAX_SEED_FILE) {
        Ok(FileRead::Whole(bytes)) => Ok(bytes),
        Ok(FileRead::Longer) => Err(Stop::Refused {
            cause: SeedCause::TooLong,
        }),
        Err(FolderError::Failed) => Err(Stop::Fault),
        Err(FolderError::Memory) => Err(Stop::Memory),
    }
}

/// The seed of a file's bytes.
fn seed_of(alloc: Global, bytes: &[u8]) -> Result<Multidata, Stop<SeedCause>>
    requires { length bytes.now ≤ max_seed_file }
    ensures ok { IfOk result (λ m. SeedOf bytes.now (Ok m)) }
    ensures err { IfErr result (IsSeedStopped (Some (Some bytes.now)) false) }
    ensures fault { result ≢ Err Stop.Fault }
{
    match read(alloc, bytes) {
        Ok(multidata) => Ok(multidata),
        Err(DataRefusal::Memory) => Err(Stop::Memory),
        Err(DataRefusal::Named { kind, path }) => Err(Stop::Refused {
            cause: SeedCause::File { kind, path },
        }),
    }
}

/// The bytes of a seed file, and what they hold.
#[derive(Drop)]
pub struct SeedBytes {
    /// The bytes.
    pub bytes: Bytes,
    /// What they hold.
    pub multidata: Multidata,
}

/// Reads and judges a seed file, and gives its bytes and what they hold.
///
/// `Fault` where the folder failed, `Memory` where memory ran out, and else a refusal: of the length
/// or of what stands in the file.
#[tactic(auto, using(crate::proofs::SeedReading::unread_seed))]
pub fn read_seed_bytes<F: Folder>(
    alloc: Global,
    folder: &mut F,
    name: &Text,
) -> Result<SeedBytes, Stop<SeedCause>>
    ensures ok { IfOk result
        (λ s. IsFile (F.holds folder.old name.now) s.bytes × SeedOf s.bytes (Ok s.multidata)) }
    ensures err { IfErr result
        (IsSeedStopped (F.holds folder.old name.now) (F.may_fail folder.old)) }
    ensures fault { result ≡ Err Stop.Fault → Rose (F.faults folder.old) (F.faults folder.new) }
    ensures later { F.faults folder.old ≤ F.faults folder.new }
    ensures same { (n : List ℕ) → F.holds folder.new n ≡ F.holds folder.old n }
    ensures crash { (n : List ℕ) → SameImages (F.images folder.old n) (F.images folder.new n) }
    ensures opened { (n : List ℕ) → F.is_open folder.new n ≡ F.is_open folder.old n }
{
    let bytes = read_bytes(alloc, folder, name)?;
    let multidata = seed_of(alloc, bytes.as_slice())?;
    Ok(SeedBytes { bytes, multidata })
}

/// Reads and judges a seed file, and gives what it holds alone. The errors are those of
/// `read_seed_bytes`.
pub fn read_seed<F: Folder>(
    alloc: Global,
    folder: &mut F,
    name: &Text,
) -> Result<Multidata, Stop<SeedCause>>
    ensures ok { IfOk result (SeedIn (F.holds folder.old name.now)) }
    ensures err { IfErr result
        (IsSeedStopped (F.holds folder.old name.now) (F.may_fail folder.old)) }
    ensures fault { result ≡ Err Stop.Fault → Rose (F.faults folder.old) (F.faults folder.new) }
    ensures later { F.faults folder.old ≤ F.faults folder.new }
    ensures same { (n : List ℕ) → F.holds folder.new n ≡ F.holds folder.old n }
{
    let SeedBytes {
        bytes: _,
        multidata,
    } = read_seed_bytes(alloc, folder, name)?;
    Ok(multidata)
}

/// Reads and judges a seed file, and gives the SHA-256 of its bytes alone. The errors are those of
/// `read_seed_bytes`.
pub fn read_digest<F: Folder>(
    alloc: Global,
    folder: &mut F,
    name: &Text,
) -> Result<[u8; 32], Stop<SeedCause>>
    ensures ok { IfOk result
        (λ digest. (seed : Seed) × DigestedIn (F.holds folder.old name.now) seed digest) }
    ensures err { IfErr result
        (IsSeedStopped (F.holds folder.old name.now) (F.may_fail folder.old)) }
    ensures fault { result ≡ Err Stop.Fault → Rose (F.faults folder.old) (F.faults folder.new) }
    ensures later { F.faults folder.old ≤ F.faults folder.new }
    ensures same { (n : List ℕ) → F.holds folder.new n ≡ F.holds folder.old n }
    ensures crash { (n : List ℕ) → SameImages (F.images folder.old n) (F.images folder.new n) }
    ensures opened { (n : List ℕ) → F.is_open folder.new n ≡ F.is_open folder.old n }
{
    let SeedBytes {
        bytes,
        multidata: _,
    } = read_seed_bytes(alloc, folder, name)?;
    Ok(digest(bytes.as_slice()))
}
