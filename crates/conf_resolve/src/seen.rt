//! Numbers that were seen so far, each found by one look.

ghost use Rattle.std.specs.Prelude.{◌≡◌, ◌==◌, ◌||◌, ◌+◌, ℕ, IfOk, OnOk, if◌then◌else◌};
ghost use Rattle.std.specs.Ordering.{nat_cmp};
ghost use Rattle.std.specs.BTreeSet.{btree_set_len, contains};

use net_base::NoMemory;
use std::collections::BTreeSet;

/// Whether the number was seen; from now on it is. The only error is that memory runs out.
pub fn see_number(seen: &mut BTreeSet<u128>, number: u128) -> Result<bool, NoMemory>
    ensures was { IfOk result (λ was. was ≡ contains nat_cmp seen.old number) }
    ensures is { OnOk result ((n : ℕ) → contains nat_cmp seen.new n ≡ (contains nat_cmp seen.old n || number == n)) }
    ensures len { IfOk result (λ was. btree_set_len seen.new ≡ btree_set_len seen.old + (if was then 0 else 1)) }
{
    let was = seen.contains(&number);
    seen.insert(number)?;
    Ok(was)
}
