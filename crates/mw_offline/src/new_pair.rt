//! The command `new-room --pair`.
ghost use Rattle.std.specs.Prelude.{◌≡◌, ◌≤◌, ◌⊎◌, IfErr, OnOk};
ghost use Rattle.mw_edges.specs.Causes.{Rose};
ghost use Rattle.mw_causes.specs.Ends.{HasLeft};
ghost use Rattle.mw_pair.specs.Making.{BytesStay, IsMadeIn};
ghost use Rattle.std.specs.Io.KnownBytes.{Keeps};
ghost use Rattle.mw_offline.specs.FilesAround.{files_around};
ghost use Rattle.mw_offline.specs.PairFiles.{PairOthersStay};
ghost use Rattle.mw_offline.specs.PairRooms.{HasMakingCause, HasPairCause, MakesPair, MakesSomePair};

use mw_base::Text;
use mw_causes::{RoomCause, Stop, making_stop, put_text, read_digest};
use mw_edges::{Folder, Sink};
use mw_pair::{PairNames, make_pair};
use mw_words::NewRoomWords;
use std::alloc::Global;

/// Makes three empty journals in files without bytes, or in ones that aren't there.
fn make_journals<F: Folder>(
    alloc: Global,
    folder: &mut F,
    choice: &Text,
    digest: &[u8; 32],
) -> Result<(), Stop<RoomCause>>
    ensures made { OnOk result
        (IsMadeIn (F.holds folder.old) (F.images folder.new) choice.now digest.now) }
    ensures refused { IfErr result (HasMakingCause (F.holds folder.old) choice.now) }
    ensures bytes { BytesStay (F.holds folder.old) (F.holds folder.new) (F.images folder.old)
        (F.images folder.new) choice.now }
    ensures others { PairOthersStay (files_around F.holds F.images F.is_open F.may_fail F.faults
        folder.old folder.new) choice.now }
    ensures fault { result ≡ Err Stop.Fault → Rose (F.faults folder.old) (F.faults folder.new) }
    ensures later { F.faults folder.old ≤ F.faults folder.new }
{
    let names = PairNames::of(alloc, choice)?;
    match make_pair(alloc, folder, &names, digest) {
        Ok(()) => Ok(()),
        Err(error) => Err(making_stop(error)),
    }
}

/// Does all that `new-room --pair` does but for its error line.
pub(crate) fn new_pair<F: Folder, O: Sink>(
    alloc: Global,
    words: &NewRoomWords,
    folder: &mut F,
    out: &mut O,
) -> Result<(), Stop<RoomCause>>
    ensures done { OnOk result
        (MakesPair (files_around F.holds F.images F.is_open F.may_fail F.faults
        folder.old folder.new) words.now (O.held out.old) (O.held out.new)) }
    ensures left { IfErr result
        (HasLeft (HasPairCause (files_around F.holds F.images F.is_open F.may_fail F.faults
        folder.old folder.new) words.now)
        (Keeps (O.held out.old) (O.held out.new))
        (MakesSomePair (files_around F.holds F.images F.is_open F.may_fail F.faults
        folder.old folder.new) words.now (O.held out.old) (O.held out.new))
        (Rose (F.faults folder.old) (F.faults folder.new)
        ⊎ Rose (O.faults out.old) (O.faults out.new))) }
    ensures fault { result ≡ Err Stop.Fault
        → Rose (F.faults folder.old) (F.faults folder.new)
        ⊎ Rose (O.faults out.old) (O.faults out.new) }
    ensures others { PairOthersStay (files_around F.holds F.images F.is_open F.may_fail F.faults
        folder.old folder.new) words.now.journal }
    ensures bytes { BytesStay (F.holds folder.old) (F.holds folder.new) (F.images folder.old)
        (F.images folder.new) words.now.journal }
{
    let digest = read_digest(alloc, folder, &words.multidata)?;
    make_journals(alloc, folder, &words.journal, &digest)?;
    put_text(out, "room made\n")
}
