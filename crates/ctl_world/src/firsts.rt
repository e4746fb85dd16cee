//! From which number on the connections of a datapath stand.

ghost use Rattle.std.specs.Prelude.{◌≡◌, ◌==◌, ℕ, false, true, Some, IsTrue};
ghost use Rattle.std.specs.Option.{option_map_or};
ghost use Rattle.ctl_world.specs.Firsts.{begins, first_number};

use indexmap::IndexMap;
use net_base::DpId;

/// For each datapath with connections a number that none of them is below.
pub(crate) type Firsts = IndexMap<DpId, u32>;

/// The number of a datapath; 0 where memory lacked for them.
pub(crate) fn first_number(firsts: &Option<Firsts>, dp: DpId) -> Option<u32>
    ensures { result ≡ first_number firsts.now dp }
{
    match firsts {
        Some(numbers) => numbers.get(&dp).copied(),
        None => Some(0),
    }
}

fn begins(firsts: &Option<Firsts>, dp: DpId, number: u32) -> bool
    ensures { result ≡ begins firsts.now dp number }
{
    match first_number(firsts, dp) {
        Some(first) => first <= number,
        None => false,
    }
}

/// Whether memory sufficed for a lesser number.
fn put(numbers: &mut Firsts, dp: DpId, number: u32) -> bool
    requires { begins (Some numbers.old) dp number ≡ false }
    ensures kept { IsTrue result → (d : DpId) (n : ℕ) → begins (Some numbers.old) d n ≡ true → begins (Some numbers.new) d n ≡ true }
    ensures noted { IsTrue result → begins (Some numbers.new) dp number ≡ true }
{
    match numbers.insert(dp, number) {
        Ok(_) => true,
        Err(_) => false,
    }
}

/// A connection of this number may be the datapath's.
pub(crate) fn note(firsts: &mut Option<Firsts>, dp: DpId, number: u32)
    ensures kept { (d : DpId) (n : ℕ) → begins firsts.old d n ≡ true → begins firsts.new d n ≡ true }
    ensures noted { begins firsts.new dp number ≡ true }
{
    if begins(firsts, dp, number) {
        return;
    }
    if let Some(numbers) = firsts {
        if put(numbers, dp, number) {
            return;
        }
    }
    *firsts = None;
}

/// The same of a connection that may have a datapath.
pub(crate) fn note_any(firsts: &mut Option<Firsts>, dp: Option<DpId>, number: u32)
    ensures kept { (d : DpId) (n : ℕ) → begins firsts.old d n ≡ true → begins firsts.new d n ≡ true }
    ensures noted { option_map_or (λ d. begins firsts.new d number) dp true ≡ true }
{
    if let Some(dp) = dp {
        note(firsts, dp, number);
    }
}

/// No connection is the datapath's.
pub(crate) fn leave(firsts: &mut Option<Firsts>, dp: DpId)
    ensures { (d : DpId) (n : ℕ) → (dp.0 == d.0) ≡ false → begins firsts.old d n ≡ true → begins firsts.new d n ≡ true }
{
    if let Some(numbers) = firsts {
        numbers.swap_remove(&dp);
    }
}
