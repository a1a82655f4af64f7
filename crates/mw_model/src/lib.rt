//! The definitions that contracts of several crates cite, over plain data alone.
#![tactic(auto)]
