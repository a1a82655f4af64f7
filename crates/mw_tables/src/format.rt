ghost use Rattle.std.specs.Prelude.{◌≡◌, ℕ, List};
ghost use Rattle.mw_json.specs.View.{view, members_view};
ghost use Rattle.mw_json.specs.Grammar.{Gives};
ghost use Rattle.mw_tables.specs.WorldShape.{format_at, format_in as format_in_members};

use mw_json::{Kind, Member, Refusal, Tree, field_in, refuse, text_of};
use std::alloc::Global;

#[tactic(auto, unfolding(crate::specs::WorldShape::format_at))]
fn format_in(alloc: Global, tree: &Tree, format: &str) -> Result<(), Refusal>
    ensures { Gives result (format_at format.now (view tree.now)) }
{
    if text_of(alloc, tree)? == format {
        Ok(())
    } else {
        refuse(alloc, Kind::OtherFormat)
    }
}

/// The file is of this format.
pub(crate) fn judge_format(alloc: Global, members: &[Member], format: &str) -> Result<(), Refusal>
    ensures { (word : List ℕ) → word ≡ format.now
        → Gives result (format_in_members word (members_view members.now)) }
{
    field_in(alloc, members, "format", |a, t| format_in(a, t, format))
}
