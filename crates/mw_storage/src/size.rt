ghost use Rattle.std.specs.Prelude.{◌≡◌, ◌≤◌, length, decimal, IfSome};
ghost use Rattle.json.specs.Print.{escape, escape_byte};
ghost use Rattle.mw_model.specs.Json.{IsInRange, IsWritable, ItemsAreWritable, MembersAreWritable};
ghost use Rattle.mw_model.specs.Spelling.{number_text, spelling};
ghost use Rattle.mw_json.specs.View.{view, items_view, members_view};
ghost use Rattle.mw_storage.specs.Sizes.{quoted_size, size, items_size, members_size};

use mw_json::{Member, Tree};

/// How many digits a number has.
fn digits(n: u64) -> u64
    ensures value { result ≡ length (decimal n) }
    ensures few { result ≤ 20 }
{
    let mut left = n;
    let mut count = 1;
    while left >= 10 {
        left /= 10;
        count += 1;
    }
    count
}

fn number_size(z: i128) -> u64
    requires { IsInRange z }
    ensures { result ≡ length (number_text z) }
{
    if z >= 0 {
        digits(z as u64)
    } else {
        digits((-z) as u64) + 1
    }
}

/// How many bytes stand in a string for a byte.
#[tactic(auto, unfolding(json::specs::Print::escape_byte))]
fn byte_size(byte: u8) -> u64
    ensures { result ≡ length (escape_byte byte) }
{
    match byte {
        34 | 92 | 8 | 12 | 10 | 13 | 9 => 2,
        0..=31 => 6,
        _ => 1,
    }
}

/// The bytes of a text in quotes; None only where no `u64` counts them.
fn quoted_size(text: &str) -> Option<u64>
    ensures { IfSome result (λ n. n ≡ quoted_size text.now) }
{
    let mut total = 2u64;
    for byte in text.as_bytes() {
        total = total.checked_add(byte_size(*byte))?;
    }
    Some(total)
}

/// The bytes of a value's compact text; None only where no `u64` counts them.
#[cycle(size)]
fn size(tree: &Tree) -> Option<u64>
    requires { IsWritable (view tree.now) }
    ensures { IfSome result (λ n. n ≡ size (view tree.now)) }
{
    match tree {
        Tree::Null | Tree::Flag(true) => Some(4),
        Tree::Flag(false) => Some(5),
        Tree::Whole(z) => Some(number_size(*z)),
        Tree::NotWhole => unreachable!(),
        Tree::Numeral(text) => Some(text.as_str().len() as u64),
        Tree::Words(text) => quoted_size(text.as_str()),
        Tree::Many(items) => items_size(items.as_slice())?.max(1).checked_add(1),
        Tree::Members(members) => members_size(members.as_slice())?.max(1).checked_add(1),
    }
}

#[cycle(size)]
fn items_size(items: &[Tree]) -> Option<u64>
    requires { ItemsAreWritable (items_view items.now) }
    ensures { IfSome result (λ n. n ≡ items_size (items_view items.now)) }
{
    let mut total = 0u64;
    for item in items {
        total = total.checked_add(size(item)?)?.checked_add(1)?;
    }
    Some(total)
}

#[cycle(size)]
fn members_size(members: &[Member]) -> Option<u64>
    requires { MembersAreWritable (members_view members.now) }
    ensures { IfSome result (λ n. n ≡ members_size (members_view members.now)) }
{
    let mut total = 0u64;
    for member in members {
        let name = quoted_size(member.name.as_str())?;
        let value = size(&member.value)?;
        total = total.checked_add(name)?.checked_add(value)?.checked_add(2)?;
    }
    Some(total)
}

/// The bytes of a value's compact text; None only where no `u64` counts them.
#[tactic(auto, using(crate::proofs::Printed::size_is))]
pub(crate) fn text_size(tree: &Tree) -> Option<u64>
    requires { IsWritable (view tree.now) }
    ensures { IfSome result (λ n. n ≡ length (spelling (view tree.now))) }
{
    size(tree)
}
