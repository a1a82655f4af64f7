/// Whether a journal takes further batches.
#[derive(Clone, Copy)]
pub enum JournalState {
    /// It does.
    Whole,
    /// The disk failed in an append: every further append answers `DiskFault`.
    Faulted,
    /// The disk ran out of memory in an append: every further append answers `Memory`.
    OutOfMemory,
}
