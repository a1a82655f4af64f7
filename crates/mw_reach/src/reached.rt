use crate::mark::Mark;
use crate::prepare::work_of;
use crate::tally::Tally;
use crate::work::Work;
use mw_base::Memory;
use mw_multi::{Joint, TreeRules};
use mw_rules::Ruling;
use std::alloc::Global;

/// The list of places that reach gives for a joint, with all that reach needs, so that it takes no memory.
pub struct Reached {
    pub(crate) trees: Option<TreeRules>,
    pub(crate) work: Work,
}

/// By hand, so that whoever lets a list go calls this, and what it frees is listed once.
impl Drop for Reached {
    fn drop(self) {
        let Reached { trees: _, work: _ } = self;
    }
}

impl Reached {
    ghost use Rattle.std.specs.Prelude.{◌≡◌, ℕ, false, IfOk};
    ghost use Rattle.mw_multi.specs.Joint.{Joint};
    ghost use Rattle.mw_multi.specs.Steps.{rule_list};
    ghost use Rattle.mw_reach.specs.Reached.{IsMadeFor, KeepsRules, IsMarkOf, IsAsLarge, places_in};

    /// For the joint, with rules of its own as trees; `Memory` where memory ran out. No place is in it yet.
    pub fn new(alloc: Global, joint: &Joint) -> Result<Reached, Memory>
        ensures for_joint { IfOk result (IsMadeFor joint.now) }
        ensures rules { IfOk result (KeepsRules joint.now) }
        ensures empty { IfOk result (λ reached. (p : ℕ) → places_in reached p ≡ false) }
    {
        let trees = TreeRules::of(alloc, joint)?;
        let work = work_of(alloc, joint, &trees)?;
        Ok(Reached {
            trees: Some(trees),
            work,
        })
    }

    /// For the joint, whose rules are asked of others; `Memory` where memory ran out. No place is in it yet.
    pub fn new_by<R: Ruling>(alloc: Global, joint: &Joint, rules: &R) -> Result<Reached, Memory>
        requires rules { R.stands_for rules.now (rule_list joint.now) }
        ensures for_joint { IfOk result (IsMadeFor joint.now) }
        ensures empty { IfOk result (λ reached. (p : ℕ) → places_in reached p ≡ false) }
    {
        let work = work_of(alloc, joint, rules)?;
        Ok(Reached { trees: None, work })
    }

    /// Whether the place is in the list. A number that no place has is not.
    pub fn has(&self, place: u32) -> bool
        ensures { result ≡ places_in self.now place }
    {
        match self.work.tally.done.get(place as usize) {
            Some(&done) => done,
            None => false,
        }
    }

    /// A mark of the list as it is; `Memory` where memory ran out.
    pub fn mark(&self, alloc: Global) -> Result<Mark, Memory>
        ensures { IfOk result (IsMarkOf self.now) }
    {
        let done = Vec::from_slice(alloc, self.work.tally.done.as_slice())?;
        let counts = Vec::from_slice(alloc, self.work.tally.counts.as_slice())?;
        let tally = Tally { done, counts };
        Ok(Mark { tally })
    }

    /// Makes the list what it was at a mark, whose memory it takes.
    pub fn go_back(&mut self, mark: Mark)
        requires fits { IsAsLarge self.old mark }
        ensures kept { (joint : Joint) → IsMadeFor joint self.old → IsMadeFor joint self.new }
        ensures rules { (joint : Joint) → KeepsRules joint self.old → KeepsRules joint self.new }
        ensures back { IsMarkOf self.new mark }
    {
        self.work.tally = mark.tally;
    }
}
