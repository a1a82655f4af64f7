ghost use Rattle.std.specs.Prelude.{◌≡◌};
ghost use Rattle.mw_multi.specs.Steps.{rule_list};
ghost use Rattle.mw_reach.specs.Reached.{IsBagFor};

use crate::joints::{joint_of, players_in, world_in};
use mw_base::{List, Memory};
use mw_multi::{Bag, Joint, Placed, Players, TreeRules};
use mw_reach::{Reached, reach_by, unmet_goal_by};
use mw_rules::{Named, Ruling, Steps};
use std::alloc::Global;
use std::marker::Brand;
use std::sync::ledger::{Blank, Ledger};
use std::test::Fail;

/// A cave that a sword opens: the places are Menu, Cave, First and Second.
const WORLD: &str =
    r#"{"format":"mw-world-1","game":"G","regions":["Menu","Cave"],"items":[{"name":"Sword","id":1,"class":"progression"},{"name":"Coin","id":2,"class":"filler"}],"entrances":[{"name":"Down","from":"Menu","to":"Cave","rule":{"has":"Sword"}}],"locations":[{"name":"First","id":1,"region":"Menu","rule":true},{"name":"Second","id":2,"region":"Cave","rule":true}],"pool":[{"item":"Sword","count":1}],"filler":"Coin","goal":{"has":"Sword"}}"#;

const PLAYERS: &str = r#"{"format":"mw-players-1","players":[{"names":["Ann"],"world":"w.json"}]}"#;

/// A joint's rules, asked through a type of the test's own.
#[derive(Drop)]
struct Asked {
    trees: TreeRules,
}

impl Ruling for Asked {
    ghost stands_for = { λ asked rules. rules ≡ asked.trees };

    fn count(&self) -> u32 {
        self.trees.count()
    }

    fn ask<L: Ledger>(
        &self,
        number: u32,
        counts: &[u32],
        places: &[bool],
        steps: &mut Steps<L>,
    ) -> bool {
        self.trees.ask(number, counts, places, steps)
    }

    fn named(&self, number: u32) -> &Named {
        self.trees.named(number)
    }
}

/// Which of the place numbers up to 3 are in the list, and the first slot whose goal isn't met.
type ToldReached = ([bool; 4], Option<u16>);

/// What is reached with a bag and the events, by rules that are asked of `Asked`.
fn reached_by<L: Ledger>(
    blank: Blank,
    alloc: Global,
    joint: &Joint,
    base: &Bag,
    asked: &Asked,
) -> Result<ToldReached, Memory>
    requires name { blank.name ≡ L.name }
    requires parts { (blank.parts ≡ L.parts) × (blank.parts ≡ 1) }
    requires rules { rule_list joint.now ≡ asked.now.trees }
    requires base { IsBagFor joint.now base.now }
{
    // Reading the joint makes known what its type keeps.
    let _ = &joint.slots;
    let placed = Placed::events(alloc, joint)?;
    let mut reached = Reached::new_by(alloc, joint, asked)?;
    let mut steps = Steps::<L>::new(blank);
    reach_by(joint, asked, base, &placed, &mut reached, &mut steps);
    let unmet = unmet_goal_by(joint, asked, &reached, &mut steps);
    let places = [
        reached.has(0),
        reached.has(1),
        reached.has(2),
        reached.has(3),
    ];
    Ok((places, unmet))
}

/// The same with a counter of its own.
fn reached_with(alloc: Global, joint: &Joint, base: &Bag) -> Result<ToldReached, Memory>
    requires { IsBagFor joint.now base.now }
{
    let asked = Asked {
        trees: TreeRules::of(alloc, joint)?,
    };
    reached_by::<Brand>(Blank::new(1), alloc, joint, base, &asked)
}

/// Whether two places are reached from the start and the goal isn't met, and all with everything, and it is.
fn is_reached(alloc: Global, joint: &Joint) -> Result<bool, Memory> {
    let (places, unmet) = reached_with(alloc, joint, &Bag::starting(alloc, joint)?)?;
    let (all, unmet_with_all) = reached_with(alloc, joint, &Bag::everything(alloc, joint)?)?;
    Ok(
        places == [true, false, true, false]
            && unmet == Some(1)
            && all == [true; 4]
            && unmet_with_all.is_none(),
    )
}

/// Whether that is so of the players of this file.
fn is_reached_by(alloc: Global, players: &Players) -> Result<bool, Fail> {
    let worlds = List::from_vec(vec![in alloc; world_in(alloc, WORLD)?]?);
    Ok(is_reached(alloc, &joint_of(alloc, &worlds, players)?)?)
}

#[test]
fn rules_are_asked_of_a_type_of_ones_own(rt: HostRuntime) -> Result<(), Fail> {
    let players = players_in(rt.alloc(), PLAYERS)?;
    assert!(rt; is_reached_by(rt.alloc(), &players)?);
    Ok(())
}
