ghost use Rattle.std.specs.Prelude.{◌≡◌, ◌<◌, ◌^◌, ◌↔◌, ◌++◌, IsTrue, IfOk, OnErr, OnOk, length};
ghost use Rattle.mw_client.specs.Lists.{IsStep, client_after};

use crate::body::body_of;
use crate::step::Step;
use mw_base::{List, Memory, NetItem};
use std::alloc::Global;
use std::marker::Model;
use std::mem::replace;

/// The list of the items that a client received, which contracts see.
#[derive(Drop)]
pub struct Client {
    alloc: Global,
    list: List<NetItem>,
}

impl Model for Client {
    ghost use Rattle.std.specs.Prelude.{List};
    ghost use Rattle.mw_model.specs.Items as plain;

    ghost Value = { List plain.NetItem };

    ghost view = { λ c. c.list };
}

/// Whether two items are the same.
fn is_same(item: &NetItem, other: &NetItem) -> bool
    ensures { IsTrue result ↔ (item.now ≡ other.now) }
{
    item.item == other.item
        && item.location == other.location
        && item.player == other.player
        && item.flags == other.flags
}

/// Whether two lists have the same items, one by one.
fn are_same(items: &[NetItem], others: &[NetItem]) -> bool
    ensures { IsTrue result ↔ (items.now ≡ others.now) }
{
    if items.len() != others.len() {
        return false;
    }
    for (i, item) in items.iter().enumerate() {
        if !is_same(item, &others[i]) {
            return false;
        }
    }
    true
}

/// A copy of items.
fn copied(alloc: Global, items: &[NetItem]) -> Result<List<NetItem>, Memory>
    ensures { IfOk result (λ l. l ≡ items.now) }
{
    Ok(List::from_vec(Vec::from_slice(alloc, items)?))
}

/// Puts items behind those of a list. After `Memory` the list is as before.
fn extend(alloc: Global, list: &mut List<NetItem>, items: &[NetItem]) -> Result<(), Memory>
    ensures ok { OnOk result (list.new ≡ list.old ++ items.now) }
    ensures err { OnErr result (list.new ≡ list.old) }
{
    let mut all = replace(list, List::new(alloc)).into_vec();
    let grown = all.extend_from_slice(items);
    *list = List::from_vec(all);
    grown?;
    Ok(())
}

impl Client {
    /// A client that begins with a list.
    pub fn new(alloc: Global, list: &List<NetItem>) -> Result<Client, Memory>
        ensures { IfOk result (λ c. c ≡ list.now) }
    {
        let list = copied(alloc, list.as_slice())?;
        Ok(Client { alloc, list })
    }

    /// Its list.
    pub fn list(&self) -> &List<NetItem>
        ensures { result.now ≡ self.now }
    {
        &self.list
    }

    /// Takes these items for its list.
    fn take_whole(&mut self, items: &[NetItem]) -> Result<Step, Memory>
        requires { length items.now < 2 ^ 32 }
        ensures list { OnOk result (self.new ≡ items.now) }
        ensures step { IfOk result (IsStep self.old 0 items.now) }
        ensures memory { OnErr result (self.new ≡ self.old) }
    {
        if are_same(self.list.as_slice(), items) {
            return Ok(Step::Same);
        }
        let body = body_of(self.alloc, true, items)?;
        self.list = copied(self.alloc, items)?;
        Ok(Step::Save(body))
    }

    /// Puts items behind its list, which isn't empty.
    fn take_more(&mut self, items: &[NetItem]) -> Result<Step, Memory>
        requires some { 0 < length self.old }
        requires few { length items.now < 2 ^ 32 }
        ensures list { OnOk result (self.new ≡ self.old ++ items.now) }
        ensures step { IfOk result (IsStep self.old (length self.old) items.now) }
        ensures memory { OnErr result (self.new ≡ self.old) }
    {
        if items.is_empty() {
            return Ok(Step::Same);
        }
        let body = body_of(self.alloc, false, items)?;
        extend(self.alloc, &mut self.list, items)?;
        Ok(Step::Save(body))
    }

    /// Hears a ReceivedItems: with index 0 its items are the list, with the list's length as index
    /// they come behind it, and any other index changes nothing and asks for Sync. Gives what is
    /// then to be done. After `Memory` the list is as before.
    pub fn heard(&mut self, index: u64, items: &List<NetItem>) -> Result<Step, Memory>
        requires { length items.now < 2 ^ 32 }
        ensures list { OnOk result (self.new ≡ (client_after self.old index items.now).list) }
        ensures step { IfOk result (IsStep self.old index items.now) }
        ensures memory { OnErr result (self.new ≡ self.old) }
    {
        if index == 0 {
            return self.take_whole(items.as_slice());
        }
        if index == self.list.len() as u64 {
            return self.take_more(items.as_slice());
        }
        Ok(Step::AskSync)
    }
}
