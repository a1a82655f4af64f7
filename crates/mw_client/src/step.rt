use mw_base::Bytes;

/// What a client has to do once it heard a ReceivedItems.
#[derive(Drop)]
pub enum Step {
    /// Nothing: its list stays.
    Same,
    /// Its list is another, and this body leads to it.
    Save(Bytes),
    /// The index is neither 0 nor its list's length: it asks for the whole list by a Sync.
    AskSync,
}
