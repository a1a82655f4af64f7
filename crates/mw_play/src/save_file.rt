//! A save file: a journal of a digest of its own, whose text is bodies.
ghost use Rattle.std.specs.Prelude.{◌≡◌, ◌≢◌, ◌≤◌, ℕ, List, [], Some, IfErr, IfOk};
ghost use Rattle.std.specs.declared.option.Option.{Option};
ghost use Rattle.mw_client.specs.Bodies.{IsSaved};
ghost use Rattle.mw_journal.specs.Journal.{disk_after};
ghost use Rattle.mw_journal.specs.Opening.{RefusesCreate, RefusesOpen};
ghost use Rattle.mw_play.specs.Saves.{HoldsList, KeepsList, RefusesSave, RefusesText, WasSaved};
ghost use Rattle.mw_play.specs.Saves.{save_digest as save_digest_lem};

use crate::save_error::{SaveError, SaveRefusal};
use mw_base::{List as Items, Memory, NetItem, Text};
use mw_client::{SavedError, saved_list};
use mw_disk::Disk;
use mw_journal::{Journal, OpenError, create, open};
use sha2::{Digest, Sha256};
use std::alloc::Global;

/// The digest of the save file of a slot: that of its game, a line feed and its name.
pub fn save_digest(alloc: Global, game: &Text, name: &Text) -> Result<[u8; 32], Memory>
    ensures { IfOk result (λ d. d ≡ save_digest_lem game.now name.now) }
{
    let mut text = String::from_str(alloc, game.as_str())?;
    text.push_str("\n")?;
    text.push_str(name.as_str())?;
    Ok(Sha256::digest(text.as_bytes()))
}

/// The error of a save file that has bytes for one of its journal.
fn unopened(error: OpenError) -> SaveError
    ensures { (told : Option (List ℕ)) (digest : List ℕ) (before after : ℕ)
        → ((f : List ℕ) → told ≡ Some f → f ≢ []) → RefusesOpen told digest before after error
        → RefusesSave told digest before after result }
{
    match error {
        OpenError::DiskFault => SaveError::DiskFault,
        OpenError::NotJournal { at: _ } => SaveError::Refused {
            refusal: SaveRefusal::NotJournal,
        },
        OpenError::OtherSeed { found: _ } => SaveError::Refused {
            refusal: SaveRefusal::OtherSeed,
        },
        OpenError::NotEmpty | OpenError::Memory => SaveError::Memory,
    }
}

/// The error of a save file that isn't made.
fn unmade(error: OpenError) -> SaveError
    ensures { (told : Option (List ℕ)) (digest : List ℕ) (before after : ℕ)
        → RefusesCreate told before after error → RefusesSave told digest before after result }
{
    match error {
        OpenError::DiskFault => SaveError::DiskFault,
        OpenError::NotEmpty
        | OpenError::NotJournal { at: _ }
        | OpenError::OtherSeed { found: _ }
        | OpenError::Memory => SaveError::Memory,
    }
}

/// The list of a text of bodies, or why there is none.
fn list_of(alloc: Global, text: &[u8]) -> Result<Items<NetItem>, SaveError>
    ensures ok { IfOk result (IsSaved text.now) }
    ensures refused { IfErr result (RefusesText text.now) }
{
    match saved_list(alloc, text) {
        Ok(list) => Ok(list),
        Err(SavedError::BadBody) => Err(SaveError::Refused {
            refusal: SaveRefusal::BadBody,
        }),
        Err(SavedError::Memory) => Err(SaveError::Memory),
    }
}

/// Opens a save file that has bytes.
fn read_save<D: Disk>(
    alloc: Global,
    disk: D,
    digest: &[u8; 32],
) -> Result<(Journal<D>, Items<NetItem>), (D, SaveError)>
    requires { (f : List ℕ) → D.told disk ≡ Some f → f ≢ [] }
    ensures keeps { IfOk result (λ r. KeepsList D.may_leave digest.now r.0 r.1) }
    ensures told { IfOk result (λ r. (f : List ℕ) → D.told disk ≡ Some f
        → HoldsList f digest.now r.1) }
    ensures refused { IfErr result (λ e. RefusesSave (D.told disk) digest.now
        (D.faults disk) (D.faults e.0) e.1) }
    ensures count { D.faults disk ≤ D.faults (disk_after result) }
{
    match open(alloc, disk, digest) {
        Ok((journal, text)) => match list_of(alloc, text.as_slice()) {
            Ok(list) => Ok((journal, list)),
            Err(error) => Err((journal.into_disk(), error)),
        },
        Err((disk, error)) => Err((disk, unopened(error))),
    }
}

/// Opens the save file on a disk, and gives its journal and the list that it stands for. Where it
/// has no byte, it is first made a journal without bodies.
///
/// `NotJournal` and `OtherSeed` come exactly where there are bytes that are no journal, or one of
/// another digest; `BadBody` exactly where the journal's text isn't whole bodies. `DiskFault` comes
/// only where the disk's count rose.
pub fn open_save<D: Disk>(
    alloc: Global,
    disk: D,
    digest: &[u8; 32],
) -> Result<(Journal<D>, Items<NetItem>), (D, SaveError)>
    ensures keeps { IfOk result (λ r. KeepsList D.may_leave digest.now r.0 r.1) }
    ensures told { IfOk result (λ r. (f : List ℕ) → D.told disk ≡ Some f
        → WasSaved f digest.now r.1) }
    ensures refused { IfErr result (λ e. RefusesSave (D.told disk) digest.now
        (D.faults disk) (D.faults e.0) e.1) }
    ensures count { D.faults disk ≤ D.faults (disk_after result) }
{
    match create(alloc, disk, digest) {
        Ok(journal) => Ok((journal, Items::new(alloc))),
        Err((disk, OpenError::NotEmpty)) => read_save(alloc, disk, digest),
        Err((disk, error)) => Err((disk, unmade(error))),
    }
}
