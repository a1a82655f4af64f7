use crate::caves;
use crate::reaching::reach_by_trees;
use crate::seeds::{seeds, seeds_by_trees};
use mw_multi::Joint;
use std::alloc::Global;

/// What takes time.
#[derive(Clone, Copy, Drop)]
pub(crate) enum Work {
    /// Seeds by the joint's own rules.
    Generate,
    /// Seeds by rules that are given as trees.
    GenerateBy,
    /// Lists of the places that are reached, by trees.
    Tree,
    /// Lists of the places of the caves that are reached, by a closure.
    Closure,
}

impl Work {
    /// The work of this name.
    pub(crate) fn named(word: &str) -> Option<Work> {
        match word {
            "generate" => Some(Work::Generate),
            "generate_by" => Some(Work::GenerateBy),
            "tree" => Some(Work::Tree),
            "closure" => Some(Work::Closure),
            _ => None,
        }
    }

    /// Does it so many times: how many tries the seeds took, or how many places the last list has. None where memory runs out,
    /// no seed is found, or the joint isn't that of the caves where it has to be.
    pub(crate) fn run(self, alloc: Global, joint: &Joint, times: u32) -> Option<u64> {
        match self {
            Work::Generate => seeds(alloc, joint, times),
            Work::GenerateBy => seeds_by_trees(alloc, joint, times),
            Work::Tree => reach_by_trees(alloc, joint, times).ok(),
            Work::Closure => {
                if !caves::is_known(joint) {
                    return None;
                }
                caves::reach_by_closure(alloc, joint, times).ok()
            }
        }
    }
}
