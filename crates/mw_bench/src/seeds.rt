use mw_fill::{generate, generate_by};
use mw_multi::{Joint, TreeRules};
use std::alloc::Global;

/// How many tries a seed may take.
const TRIES: u32 = 100;

/// Makes so many seeds, and tells how many tries they took.
pub(crate) fn seeds(alloc: Global, joint: &Joint, times: u32) -> Option<u64> {
    let mut tries = 0u64;
    for seed in 0..times {
        let found = generate(alloc, joint, u64::from(seed), TRIES).ok()?;
        tries = tries.saturating_add(found.stream);
    }
    Some(tries)
}

/// `seeds` by rules that are given as trees.
pub(crate) fn seeds_by_trees(alloc: Global, joint: &Joint, times: u32) -> Option<u64> {
    let rules = TreeRules::of(alloc, joint).ok()?;
    let mut tries = 0u64;
    for seed in 0..times {
        let found = generate_by(alloc, joint, &rules, u64::from(seed), TRIES).ok()?;
        tries = tries.saturating_add(found.stream);
    }
    Some(tries)
}
