ghost use Rattle.mw_multidata.specs.SeedKept.{IsSeed};
ghost use Rattle.mw_effects.specs.Playable.{IsPlayable};

use mw_multidata::Multidata;

/// A seed keeps its rules.
pub fn kept(seed: &Multidata)
    ensures { IsSeed seed.now }
{
    let _ = &seed.seed_name;
}

fn in_range(seed: &Multidata)
    requires { IsSeed seed.now }
    ensures { IsPlayable seed.now }
{
    let _ = seed;
}

/// A seed has slots, groups and teams in their ranges, by its rules.
pub fn playable(seed: &Multidata)
    ensures { IsPlayable seed.now }
{
    kept(seed);
    in_range(seed);
}
