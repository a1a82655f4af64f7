/// A call of a file of the system, with its answer. `B` is how bytes are kept.
#[derive(Drop)]
pub enum FileEvent<B> {
    /// Its length was asked for.
    Length {
        /// The length, or nothing after an error.
        answer: Option<u64>,
    },
    /// Bytes were read.
    Read {
        /// The place of the first.
        at: u64,
        /// How many were asked for.
        room: usize,
        /// Those that were given, or nothing after an error.
        answer: Option<B>,
    },
    /// Bytes were written.
    Write {
        /// The place of the first.
        at: u64,
        /// The bytes.
        bytes: B,
        /// How many of them were taken, or nothing after an error.
        answer: Option<usize>,
    },
    /// Its length was set.
    Resize {
        /// The length.
        len: u64,
        /// Whether it was done.
        done: bool,
    },
    /// Its bytes were made safe.
    Sync {
        /// Whether it was done.
        done: bool,
    },
    /// Its name was made safe, where the file was made when it was opened.
    SyncFolder {
        /// Whether it was done.
        done: bool,
    },
}
