/// The packets that have further members.
#[derive(Clone, Copy)]
pub(crate) enum Row {
    /// A message for other clients.
    Bounce,
    /// A question for values of the data storage.
    Get,
    /// A change of the data storage.
    Set,
}
