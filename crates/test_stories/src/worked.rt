//! Values of definitions that no story reaches: the function is empty, and its contract has the values.

ghost use Rattle.std.specs.Prelude.{◌≡◌};
ghost use Rattle.conf_types.specs.Configuration.{Configuration};
ghost use Rattle.ctl_world.specs.World.{first};

/// A controller learns 16,384 hosts and 2,048 neighbours at most.
pub fn how_much_is_learned()
    ensures hosts { (conf : Configuration) → (first conf).hosts.limit ≡ 16384 }
    ensures neighbours { (conf : Configuration) → (first conf).neighbours.limit ≡ 2048 }
{}
