use mw_base::Text;

/// What is wrong with what a client sent.
#[derive(Clone, Copy)]
pub enum BadKind {
    /// It is no list of packets, or the packet has no command that there is.
    Cmd,
    /// A member is missing, or of another kind than its command wants.
    Arguments,
}

/// What stands in a packet's place where it is none.
#[derive(Drop)]
pub struct Bad {
    /// What is wrong.
    pub kind: BadKind,
    /// The command, where one is given.
    pub cmd: Option<Text>,
    /// Why, in words for the client.
    pub why: Text,
}
