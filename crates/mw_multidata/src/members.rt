ghost use Rattle.std.specs.Prelude.{◌≡◌};
ghost use Rattle.std.specs.Ordering.{nat_cmp};
ghost use Rattle.mw_model.specs.Ascending.{Ascend};
ghost use Rattle.mw_model.specs.Seed.{has_number};

use mw_base::SlotId;

/// Whether a slot is among these, which ascend. It searches for where the slot would stand.
pub(crate) fn is_among(members: &[SlotId], slot: SlotId) -> bool
    requires { Ascend nat_cmp members.now }
    ensures { result ≡ has_number members.now slot }
{
    let before = members.partition_point(|member| member.get() < slot.get());
    match members.get(before) {
        None => false,
        Some(member) => member.get() == slot.get(),
    }
}
