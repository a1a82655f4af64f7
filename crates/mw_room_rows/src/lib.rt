//! Tests alone: the worked rows of what a room stands on, of the room, and of the room that is kept in
//! a journal with what a crash leaves of it, and what no clause says of them.
#![tactic(auto)]

#[cfg(test)]
mod calls;
#[cfg(test)]
mod cases;
#[cfg(test)]
mod chat;
#[cfg(test)]
mod checkpoints;
#[cfg(test)]
mod checks;
#[cfg(test)]
mod client_members;
#[cfg(test)]
mod client_packets;
#[cfg(test)]
mod commits;
#[cfg(test)]
mod crashes;
#[cfg(test)]
mod disks;
#[cfg(test)]
mod game_names;
#[cfg(test)]
mod hints;
#[cfg(test)]
mod logs;
#[cfg(test)]
mod messages;
#[cfg(test)]
mod records;
#[cfg(test)]
mod refusals;
#[cfg(test)]
mod refused_checkpoints;
#[cfg(test)]
mod replays;
#[cfg(test)]
mod replies;
#[cfg(test)]
mod rooms;
#[cfg(test)]
mod server_packets;
#[cfg(test)]
mod storage;
#[cfg(test)]
mod storage_numerals;
