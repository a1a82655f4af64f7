use thiserror::Error;

/// Why a save file is refused.
#[derive(Clone, Copy, Debug, PartialEq, Eq, Error)]
pub enum SaveRefusal {
    /// The bytes are no journal.
    #[error("NotJournal")]
    NotJournal,
    /// The file is of another game or of another name.
    #[error("OtherSeed")]
    OtherSeed,
    /// What it holds isn't whole bodies.
    #[error("BadBody")]
    BadBody,
}

/// Why a save file gives no list.
#[derive(Clone, Copy, Debug, PartialEq, Eq, Error)]
pub enum SaveError {
    /// The disk failed, and its count of faults rose.
    #[error("disk failed")]
    DiskFault,
    /// The file is refused.
    #[error("save refused: {refusal}")]
    Refused {
        /// Why.
        refusal: SaveRefusal,
    },
    /// Memory ran out.
    #[error("no memory")]
    Memory,
}
