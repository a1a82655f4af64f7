//! What the packets of a text tell a client.
ghost use Rattle.std.specs.Prelude.{◌≡◌, IfOk, Result, map};
ghost use Rattle.mw_model.specs.Json.{members as object_json};
ghost use Rattle.mw_json.specs.View.{view, items_view, members_view};
ghost use Rattle.mw_json.specs.Grammar.{Breach, Gives, GivesBy, text_at};
ghost use Rattle.mw_client.specs.News as plain;
ghost use Rattle.mw_client.specs.News.{errors_at, news_named as news_named_lem, or_nothing as or_nothing_lem, received_at, turned_away_at};
ghost use Rattle.mw_client.specs.Hearing.{each_news, message_news as message_news_lem, news_in as news_in_lem, news_of as news_of_lem};
ghost use Rattle.mw_client.specs.Views.{news_view};

use crate::items::net_items_in;
use crate::news::{News, Received};
use mw_base::{List, Memory, Text};
use mw_json::{
    JsonError, Member, Refusal, Tree, each, field_in, find, list_of, number_in, read_kept, text_of,
};
use std::alloc::Global;

/// A copy of a text.
fn text_in(alloc: Global, tree: &Tree) -> Result<Text, Refusal>
    ensures { Gives result (text_at (view tree.now)) }
{
    let text = text_of(alloc, tree)?;
    Ok(Text::of(alloc, text)?)
}

/// Why a Connect was refused.
#[tactic(auto, unfolding(crate::specs::News::errors_at))]
fn errors_in(alloc: Global, tree: &Tree) -> Result<List<Text>, Refusal>
    ensures { Gives result (errors_at (view tree.now)) }
{
    let items = list_of(alloc, tree)?;
    each(alloc, items, text_in)
}

/// The members of a ConnectionRefused.
#[tactic(auto, unfolding(crate::specs::News::turned_away_at))]
fn turned_away_of(alloc: Global, members: &[Member]) -> Result<News, Refusal>
    ensures { GivesBy news_view result (turned_away_at (members_view members.now)) }
{
    let errors = field_in(alloc, members, "errors", errors_in)?;
    Ok(News::TurnedAway(errors))
}

/// The members of a ReceivedItems.
#[tactic(auto, unfolding(crate::specs::News::received_at))]
fn received_of(alloc: Global, members: &[Member]) -> Result<News, Refusal>
    ensures { GivesBy news_view result (received_at (members_view members.now)) }
{
    let index = field_in(alloc, members, "index", |a, t| number_in(a, t, 0, u64::MAX))?;
    let items = field_in(alloc, members, "items", net_items_in)?;
    Ok(News::Received(Received { index, items }))
}

/// What a packet tells whose members were read; nothing where they aren't so.
fn or_nothing(answer: Result<News, Refusal>) -> Result<News, Memory>
    ensures { (read : Result plain.News Breach) → GivesBy news_view answer read
        → IfOk result (λ n. news_view n ≡ or_nothing_lem read) }
{
    match answer {
        Ok(news) => Ok(news),
        Err(Refusal::Memory) => Err(Memory),
        Err(Refusal::Named { .. }) => Ok(News::Nothing),
    }
}

/// What an object with a command tells.
fn news_named(alloc: Global, cmd: &str, members: &[Member]) -> Result<News, Memory>
    ensures { IfOk result (λ n. news_view n ≡ news_named_lem cmd.now (members_view members.now)) }
{
    match cmd {
        "RoomInfo" => Ok(News::Greeted),
        "Connected" => Ok(News::Joined),
        "ConnectionRefused" => or_nothing(turned_away_of(alloc, members)),
        "ReceivedItems" => or_nothing(received_of(alloc, members)),
        _ => Ok(News::Nothing),
    }
}

/// What an object tells.
fn object_news(alloc: Global, parts: &[Member]) -> Result<News, Memory>
    ensures { IfOk result (λ n. news_view n
        ≡ news_of_lem (object_json (members_view parts.now))) }
{
    match find(parts, "cmd") {
        Some(Tree::Words(cmd)) => news_named(alloc, cmd.as_str(), parts),
        _ => Ok(News::Nothing),
    }
}

/// What an element of a message tells.
fn news_of(alloc: Global, tree: &Tree) -> Result<News, Memory>
    ensures { IfOk result (λ n. news_view n ≡ news_of_lem (view tree.now)) }
{
    match tree {
        Tree::Members(parts) => object_news(alloc, parts.as_slice()),
        _ => Ok(News::Nothing),
    }
}

/// What the elements of a message tell, in order.
fn all_news(alloc: Global, items: &[Tree]) -> Result<List<News>, Memory>
    ensures { IfOk result (λ l. map news_view l ≡ each_news (items_view items.now)) }
{
    let mut found = List::with_capacity(alloc, items.len())?;
    for item in items {
        found.push(news_of(alloc, item)?)?;
    }
    Ok(found)
}

/// What a message tells.
fn message_news(alloc: Global, tree: &Tree) -> Result<List<News>, Memory>
    ensures { IfOk result (λ l. map news_view l ≡ message_news_lem (view tree.now)) }
{
    match tree {
        Tree::Many(items) => all_news(alloc, items.as_slice()),
        _ => Ok(List::new(alloc)),
    }
}

/// What the packets of a text tell, in order. A text that is no JSON list, or nests deeper than 64,
/// has none. `Memory` is its only error.
pub fn news_in(alloc: Global, text: &Text) -> Result<List<News>, Memory>
    ensures { IfOk result (λ l. map news_view l ≡ news_in_lem text.now) }
{
    let text = text.as_str();
    match read_kept(alloc, text.as_bytes()) {
        Ok(tree) => message_news(alloc, &tree),
        Err(JsonError::Memory) => Err(Memory),
        Err(JsonError::NoJson) => Ok(List::new(alloc)),
        Err(JsonError::TooDeep) => Ok(List::new(alloc)),
    }
}
