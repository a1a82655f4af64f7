//! A pair room whose journal is played.
ghost use Rattle.std.specs.Prelude.{◌≡◌, ◌≤◌, Ok, IfErr, IfOk, OnErr, OnOk};
ghost use Rattle.mw_edges.specs.Causes.{Rose};
ghost use Rattle.mw_multidata.specs.Digest.{digest_of};
ghost use Rattle.mw_multidata.specs.SeedOf.{SeedOf};
ghost use Rattle.mw_causes.specs.SeedFiles.{IsFile};
ghost use Rattle.mw_pair.specs.Choosing.{IsOpenedRoom};
ghost use Rattle.mw_pair.specs.Folders.{AreOpen, AreShut};
ghost use Rattle.mw_offline.specs.FilesAround.{files_around};
ghost use Rattle.mw_offline.specs.PairDriving.{ChoiceStays, IsRefusedChoice, RoomStopped};
ghost use Rattle.mw_offline.specs.PairFiles.{PairLeaves, PairOthersStay};

use mw_base::{Memory, Text};
use mw_causes::{PairDriveCause, SeedBytes, Stop, choice_stop, read_seed_bytes};
use mw_edges::Folder;
use mw_multidata::digest;
use mw_pair::{Chosen, PairNames, open_chosen};
use std::alloc::Global;

/// A pair room that is played: its seed, the names of its files, and their disks.
#[derive(Drop)]
pub struct PairRoom<D> {
    /// The seed file, as it was read.
    pub seed: SeedBytes,
    /// The names of the three files.
    pub names: PairNames,
    /// Their open disks.
    pub room: Chosen<D>,
}

/// Opens the journal that CHOICE names under the digest of a seed.
fn open_named<F: Folder>(
    alloc: Global,
    folder: &mut F,
    seed: SeedBytes,
    choice: &Text,
) -> Result<PairRoom<F::Drive>, Stop<PairDriveCause>>
    requires { SeedOf seed.bytes (Ok seed.multidata) }
    ensures same { IfOk result (λ r. (r.seed ≡ seed) × (r.names ≡ choice.now)) }
    ensures opened { IfOk result (λ r. IsOpenedRoom F.Drive.told F.Drive.may_leave F.Drive.faults
        (F.holds folder.old) (F.images folder.old) choice.now (digest_of seed.bytes) r.room) }
    ensures open { OnOk result (AreOpen (F.is_open folder.new) choice.now) }
    ensures shut { OnOk result (AreShut (F.is_open folder.old) choice.now) }
    ensures refused { IfErr result (IsRefusedChoice
        (files_around F.holds F.images F.is_open F.may_fail F.faults folder.old folder.new)
        choice.now (digest_of seed.bytes)) }
    ensures others { PairOthersStay (files_around F.holds F.images F.is_open F.may_fail F.faults
        folder.old folder.new) choice.now }
    ensures fault { result ≡ Err Stop.Fault → Rose (F.faults folder.old) (F.faults folder.new) }
    ensures later { F.faults folder.old ≤ F.faults folder.new }
{
    let names = match PairNames::of(alloc, choice) {
        Ok(names) => names,
        Err(Memory) => return Err(Stop::Memory),
    };
    match open_chosen(alloc, folder, &names, &digest(seed.bytes.as_slice())) {
        Ok(room) => Ok(PairRoom { seed, names, room }),
        Err(error) => Err(choice_stop(error)),
    }
}

/// Reads the seed file of a pair room, opens its three files, and tells by CHOICE which journal is
/// played. Where it gives no room the files are closed again.
///
/// The seed file is judged first. The journal that is played isn't judged yet.
pub fn open_pair_room<F: Folder>(
    alloc: Global,
    folder: &mut F,
    multidata: &Text,
    choice: &Text,
) -> Result<PairRoom<F::Drive>, Stop<PairDriveCause>>
    ensures names { IfOk result (λ r. r.names ≡ choice.now) }
    ensures seed { IfOk result (λ r. IsFile (F.holds folder.old multidata.now) r.seed.bytes
        × SeedOf r.seed.bytes (Ok r.seed.multidata)) }
    ensures opened { IfOk result (λ r. IsOpenedRoom F.Drive.told F.Drive.may_leave F.Drive.faults
        (F.holds folder.old) (F.images folder.old) choice.now (digest_of r.seed.bytes) r.room) }
    ensures open { OnOk result (AreOpen (F.is_open folder.new) choice.now) }
    ensures shut { OnOk result (AreShut (F.is_open folder.old) choice.now) }
    ensures stopped { IfErr result (RoomStopped
        (files_around F.holds F.images F.is_open F.may_fail F.faults folder.old folder.new)
        multidata.now choice.now) }
    ensures leaves { OnErr result (PairLeaves
        (files_around F.holds F.images F.is_open F.may_fail F.faults folder.old folder.new)
        choice.now) }
    ensures stays { OnErr result (ChoiceStays
        (files_around F.holds F.images F.is_open F.may_fail F.faults folder.old folder.new)
        multidata.now choice.now) }
    ensures others { PairOthersStay (files_around F.holds F.images F.is_open F.may_fail F.faults
        folder.old folder.new) choice.now }
    ensures fault { result ≡ Err Stop.Fault → Rose (F.faults folder.old) (F.faults folder.new) }
    ensures later { F.faults folder.old ≤ F.faults folder.new }
{
    let seed = match read_seed_bytes(alloc, folder, multidata) {
        Ok(seed) => seed,
        Err(stop) => return Err(Stop::from(stop)),
    };
    match open_named(alloc, folder, seed, choice) {
        Ok(room) => Ok(room),
        Err(stop) => Err(stop),
    }
}
