ghost use Rattle.std.specs.Prelude.{◌≡◌, ◌<◌};
ghost use Rattle.mw_multi.specs.Joint.{place_total};
ghost use Rattle.mw_spheres.specs.Spots.{IsSpot, spot_place};

use mw_base::Spot;
use mw_multi::Joint;

/// The number over all slots of a spot's location.
pub(crate) fn place_of(joint: &Joint, spot: Spot) -> u32
    requires { IsSpot joint.now.slots spot }
    ensures value { result ≡ spot_place joint.now.slots spot }
    ensures within { result < place_total joint.now.slots }
{
    let slot = &joint.slots.as_slice()[spot.slot as usize - 1];
    slot.location_place(spot.index)
}
