ghost use Rattle.std.specs.Prelude.{◌≡◌};
ghost use Rattle.mw_checkpoint.specs.Pair.{HasPrepared};

use crate::files::Files;
use mw_disk::Disk;
use std::marker::Model;

/// A switch to the other journal, all of whose records are safe: each image of CHOICE stands for a
/// text, each of the journal that it names for records, and each of the other for what counts of
/// them.
#[derive(Drop)]
pub struct Prepared<D: Disk> {
    pub(crate) files: Files<D>,
    pub(crate) digest: [u8; 32],
    /// The number of the other journal.
    pub(crate) other: u8,
    /// How many records count.
    pub(crate) kept: u64,
    /// How many records there are.
    pub(crate) of: u64,
}

impl<D: Disk> Model for Prepared<D> {
    ghost use Rattle.mw_checkpoint.specs.Pair.{HasPrepared, Made};

    ghost Value = { Made D };

    ghost view = { λ p. record {
      files = p.files;
      digest = p.digest;
      other = p.other;
      kept = p.kept;
      of = p.of;
    } };

    ghost invariant = { λ p. HasPrepared D.may_leave (record {
      files = p.files;
      digest = p.digest;
      other = p.other;
      kept = p.kept;
      of = p.of;
    }) };
}

impl<D: Disk> Prepared<D> {
    /// The switch of three files that are so.
    pub(crate) fn new(
        files: Files<D>,
        digest: [u8; 32],
        other: u8,
        kept: u64,
        of: u64,
    ) -> Prepared<D>
        requires { HasPrepared D.may_leave (record {
          files = files;
          digest = digest;
          other = other;
          kept = kept;
          of = of;
        }) }
        ensures { result ≡ record {
          files = files;
          digest = digest;
          other = other;
          kept = kept;
          of = of;
        } }
    {
        Prepared {
            files,
            digest,
            other,
            kept,
            of,
        }
    }
}
