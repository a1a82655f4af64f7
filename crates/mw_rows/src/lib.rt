//! Tests alone: the worked rows of the generator, its files, the lock and the links, and what no
//! clause says of them.
#![tactic(auto)]

#[cfg(test)]
mod cases;
#[cfg(test)]
mod disks;
#[cfg(test)]
mod draws;
#[cfg(test)]
mod edges;
#[cfg(test)]
mod ids;
#[cfg(test)]
mod joints;
#[cfg(test)]
mod journals;
#[cfg(test)]
mod lock_race;
#[cfg(test)]
mod lock_sums;
#[cfg(test)]
mod lock_workers;
#[cfg(test)]
mod native;
#[cfg(test)]
mod numerals;
#[cfg(test)]
mod plain_fill;
#[cfg(test)]
mod plain_pieces;
#[cfg(test)]
mod random_worlds;
#[cfg(test)]
mod reaching;
#[cfg(test)]
mod rules;
#[cfg(test)]
mod seed_files;
#[cfg(test)]
mod sockets;
#[cfg(test)]
mod systems;
#[cfg(test)]
mod tables;
#[cfg(test)]
mod trees;
