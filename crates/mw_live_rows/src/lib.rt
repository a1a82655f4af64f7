//! Tests alone: the worked rows of rooms that are served over links, of clients and their whole runs,
//! and what no clause says of them.
#![tactic(auto)]

#[cfg(test)]
mod client;
#[cfg(test)]
mod faults;
#[cfg(test)]
mod loopback;
#[cfg(test)]
mod play_faults;
#[cfg(test)]
mod play_runs;
#[cfg(test)]
mod play_saves;
#[cfg(test)]
mod play_turns;
#[cfg(test)]
mod play_words;
#[cfg(test)]
mod served;
