use mw_json::{Kind, Path};

/// Why no room was recovered.
#[derive(Drop)]
pub enum KeepError {
    /// The seed file is refused.
    BadSeed {
        /// The cause.
        kind: Kind,
        /// Where it stands.
        path: Path,
    },
    /// The disk failed, and its count of faults rose.
    DiskFault,
    /// The bytes are no journal.
    NotJournal {
        /// The place of what is wrong or missing.
        at: u64,
    },
    /// The journal belongs to another seed file.
    OtherSeed {
        /// The digest that stands in it.
        found: [u8; 32],
    },
    /// The journal's bodies, joined, aren't whole records of the seed's.
    BadRecord {
        /// The first place in them at which no record begins, or one that names a team, a slot or a
        /// location of it that the seed hasn't.
        at: u64,
    },
    /// Memory ran out.
    Memory,
}
