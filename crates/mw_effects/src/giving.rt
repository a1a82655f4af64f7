ghost use Rattle.std.specs.Prelude.{◌≡◌, ◌++◌, [], IfOk, map};
ghost use Rattle.mw_base.specs.Permissions.{permission_number};
ghost use Rattle.mw_checks.specs.Log.{AreFresh, checks_of};
ghost use Rattle.mw_protocol.specs.Asked.{asked_by};
ghost use Rattle.mw_protocol.specs.Checks.{unseen};
ghost use Rattle.mw_protocol.specs.Commands.{at_goal as at_goal_lem, is_allowed as is_allowed_lem, is_automatic as is_automatic_lem, where_new};
ghost use Rattle.mw_protocol.specs.Standing.{steps};
ghost use Rattle.mw_records.specs.Records.{record_view};
ghost use Rattle.mw_effects.specs.Given.{IsGiven, asking, given_where};
ghost use Rattle.mw_effects.specs.Parts.{standing_of};

use crate::member::Member;
use crate::news::Pair;
use crate::standing::Standing;
use mw_base::{List, Memory, Permission};
use mw_records::Record;
use std::alloc::Global;

/// Releases and collects that are recorded, and the checks that they come to.
#[derive(Drop)]
pub struct Given {
    pub records: List<Record>,
    pub new: List<Pair>,
}

/// What a member's slot gives, or gets.
#[derive(Clone, Copy)]
pub enum Giving {
    /// All that its world holds.
    Release,
    /// All that other worlds hold for it.
    Collect,
}

/// The record of it.
fn record_of(giving: Giving, member: &Member) -> Record
    ensures { record_view result ≡ asking giving member.now.team member.now.slot }
{
    let (team, slot) = (member.team, member.slot);
    match giving {
        Giving::Release => Record::Release { team, slot },
        Giving::Collect => Record::Collect { team, slot },
    }
}

/// The checks that it makes new after those that are given.
fn asked_new(
    standing: &Standing,
    giving: Giving,
    member: &Member,
    given: &[Pair],
) -> Result<List<Pair>, Memory>
    requires { AreFresh standing.now.log.seed standing.now.log.checked member.now.team given.now }
    ensures checks { IfOk result (λ ps. checks_of member.now.team ps
        ≡ unseen (standing.now.log.checked ++ checks_of member.now.team given.now)
        (asked_by standing.now.log.seed (asking giving member.now.team member.now.slot))) }
    ensures fresh { IfOk result (λ ps. AreFresh standing.now.log.seed
        (standing.now.log.checked ++ checks_of member.now.team given.now) member.now.team ps) }
{
    let log = &standing.log;
    match giving {
        Giving::Release => log.released(member.team, member.slot, given),
        Giving::Collect => log.collected(member.team, member.slot, given),
    }
}

/// Nothing is given yet.
fn none_given(alloc: Global) -> Given
    ensures records { map record_view result.records ≡ [] }
    ensures new { result.new ≡ [] }
{
    Given {
        records: List::new(alloc),
        new: List::new(alloc),
    }
}

/// A record more, where it asks for a check that isn't there yet.
fn give(standing: &Standing, giving: Giving, member: &Member, given: Given) -> Result<Given, Memory>
    requires { IsGiven standing.now member.now.team given }
    ensures given { IfOk result (λ g. IsGiven standing.now member.now.team g) }
    ensures records { IfOk result (λ g. map record_view g.records
        ≡ map record_view given.records ++ where_new standing.now.log.seed
        (steps standing.now.log.seed (standing_of standing.now) (map record_view given.records))
        (asking giving member.now.team member.now.slot)) }
{
    let more = asked_new(standing, giving, member, given.new.as_slice())?;
    if more.len() == 0 {
        return Ok(given);
    }
    let Given { mut records, new } = given;
    records.push(record_of(giving, member))?;
    let mut new = new.into_vec();
    new.append(&mut more.into_vec())?;
    Ok(Given {
        records,
        new: List::from_vec(new),
    })
}

/// What a member's slot gives, or gets, where that is something.
pub fn given_by(
    alloc: Global,
    standing: &Standing,
    giving: Giving,
    member: &Member,
) -> Result<Given, Memory>
    ensures given { IfOk result (λ g. IsGiven standing.now member.now.team g) }
    ensures records { IfOk result (λ g. map record_view g.records
        ≡ where_new standing.now.log.seed (standing_of standing.now)
        (asking giving member.now.team member.now.slot)) }
{
    let given = give(standing, giving, member, none_given(alloc))?;
    Ok(given)
}

/// Whether this is done at the goal itself.
fn is_automatic(permission: Permission) -> bool
    ensures { result ≡ is_automatic_lem (permission_number permission) }
{
    matches!(permission, Permission::Auto | Permission::AutoEnabled)
}

/// Whether this is allowed to a slot of a status.
pub fn is_allowed(permission: Permission, status: u8) -> bool
    ensures { result ≡ is_allowed_lem (permission_number permission) status }
{
    match permission {
        Permission::Disabled => false,
        Permission::Enabled | Permission::AutoEnabled => true,
        Permission::Goal | Permission::Auto => status == 30,
    }
}

/// A record more, where it is done at the goal itself.
fn give_where(
    standing: &Standing,
    permission: Permission,
    giving: Giving,
    member: &Member,
    given: Given,
) -> Result<Given, Memory>
    requires { IsGiven standing.now member.now.team given }
    ensures given { IfOk result (λ g. IsGiven standing.now member.now.team g) }
    ensures records { IfOk result (λ g. map record_view g.records
        ≡ map record_view given.records ++ given_where (permission_number permission)
        standing.now.log.seed (steps standing.now.log.seed (standing_of standing.now)
        (map record_view given.records)) (asking giving member.now.team member.now.slot)) }
{
    if !is_automatic(permission) {
        return Ok(given);
    }
    let given = give(standing, giving, member, given)?;
    Ok(given)
}

/// What a member's slot gets, and then gives, at its goal.
pub fn at_goal(alloc: Global, standing: &Standing, member: &Member) -> Result<Given, Memory>
    ensures given { IfOk result (λ g. IsGiven standing.now member.now.team g) }
    ensures records { IfOk result (λ g. map record_view g.records ≡ at_goal_lem
        standing.now.log.seed (standing_of standing.now) member.now.team member.now.slot) }
{
    let server = &standing.seed().server;
    let none = none_given(alloc);
    let got = give_where(standing, server.collect, Giving::Collect, member, none)?;
    let given = give_where(standing, server.release, Giving::Release, member, got)?;
    Ok(given)
}
