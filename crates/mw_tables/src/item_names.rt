ghost use Rattle.std.specs.Prelude.{◌≡◌};
ghost use Rattle.mw_json.specs.Grammar.{Gives};
ghost use Rattle.std.specs.Option.{option_copied};
ghost use Rattle.mw_json.specs.declared.refusal.Kind.TheVariants.{UnknownName as NoSuchName};
ghost use Rattle.mw_multi.specs.WorldKept.{is_event, has_id};
ghost use Rattle.mw_multi.specs.RulesKept.{is_progression_item};
ghost use Rattle.mw_tables.specs.RuleNames.{region_named, known_item, item_such, may_be_asked, rule_item};
ghost use Rattle.mw_tables.specs.WorldNames.{may_fill};

use crate::judge::{judge, known};
use crate::tables::Tables;
use mw_json::{Kind, Refusal};
use mw_multi::{Class, Item};
use std::alloc::Global;

/// The region of a name.
pub(crate) fn region_in(alloc: Global, tables: &Tables, name: &str) -> Result<u32, Refusal>
    ensures { Gives result (region_named tables.now name.now) }
{
    known(alloc, tables.region(name))
}

/// The item of a name.
pub(crate) fn item_in(alloc: Global, tables: &Tables, name: &str) -> Result<u32, Refusal>
    ensures { Gives result (known_item tables.now name.now) }
{
    known(alloc, tables.item(name))
}

fn asks(item: Option<&Item>) -> bool
    ensures { result ≡ is_progression_item (option_copied item.entry) }
{
    match item {
        Some(item) => item.class == Class::Progression,
        None => false,
    }
}

/// The item is one that a rule may ask for.
pub(crate) fn judge_progression(alloc: Global, tables: &Tables, item: u32) -> Result<(), Refusal>
    ensures { Gives result (may_be_asked tables.now item) }
{
    let asked = asks(tables.world().items.get(item as usize));
    judge(alloc, asked, Kind::RuleItemNotProgression)
}

/// An item that a rule may ask for.
#[tactic(auto, unfolding(crate::specs::RuleNames::item_such))]
pub(crate) fn rule_item_in(alloc: Global, tables: &Tables, name: &str) -> Result<u32, Refusal>
    ensures { Gives result (rule_item tables.now name.now) }
{
    let item = item_in(alloc, tables, name)?;
    judge_progression(alloc, tables, item)?;
    Ok(item)
}

fn is_an_event(item: Option<&Item>) -> bool
    ensures { result ≡ is_event (option_copied item.entry) }
{
    match item {
        Some(item) => item.id.is_none(),
        None => false,
    }
}

/// An item without id.
#[tactic(auto, unfolding(crate::specs::RuleNames::item_such))]
pub(crate) fn event_item_in(alloc: Global, tables: &Tables, name: &str) -> Result<u32, Refusal>
    ensures { Gives result (item_such is_event NoSuchName tables.now name.now) }
{
    let item = item_in(alloc, tables, name)?;
    let fits = is_an_event(tables.world().items.get(item as usize));
    judge(alloc, fits, Kind::UnknownName)?;
    Ok(item)
}

fn has_an_id(item: Option<&Item>) -> bool
    ensures { result ≡ has_id (option_copied item.entry) }
{
    match item {
        Some(item) => item.id.is_some(),
        None => false,
    }
}

/// An item with an id.
#[tactic(auto, unfolding(crate::specs::RuleNames::item_such))]
pub(crate) fn pool_item_in(alloc: Global, tables: &Tables, name: &str) -> Result<u32, Refusal>
    ensures { Gives result (item_such has_id NoSuchName tables.now name.now) }
{
    let item = item_in(alloc, tables, name)?;
    let fits = has_an_id(tables.world().items.get(item as usize));
    judge(alloc, fits, Kind::UnknownName)?;
    Ok(item)
}

fn fills(item: Option<&Item>) -> bool
    ensures { result ≡ may_fill (option_copied item.entry) }
{
    match item {
        Some(item) => item.id.is_some() && item.class == Class::Filler,
        None => false,
    }
}

/// An item with an id and of class filler.
#[tactic(auto, unfolding(crate::specs::RuleNames::item_such))]
pub(crate) fn filler_item_in(alloc: Global, tables: &Tables, name: &str) -> Result<u32, Refusal>
    ensures { Gives result (item_such may_fill NoSuchName tables.now name.now) }
{
    let item = item_in(alloc, tables, name)?;
    let fits = fills(tables.world().items.get(item as usize));
    judge(alloc, fits, Kind::UnknownName)?;
    Ok(item)
}
