//! Numbers by chance.

ghost use Rattle.std.specs.Prelude.{◌<◌};

/// A number below a bound, by the next of a row of numbers that looks like chance and is the same from one
/// seed on (a linear congruential generator: D. E. Knuth, The Art of Computer Programming 2, 3.3.4).
pub fn draw(seed: &mut u64, bound: u64) -> u64
    requires { 0 < bound }
    ensures { result < bound }
{
    *seed = seed
        .wrapping_mul(6_364_136_223_846_793_005)
        .wrapping_add(1_442_695_040_888_963_407);
    (*seed >> 33) % bound
}
