//! The definitions of a room and its protocol, over plain data alone: records, packets, messages, and what is owed to whom.
#![tactic(auto)]
