//! How many interfaces of a datapath mirror each port.

ghost use Rattle.std.specs.Prelude.{◌≡◌, ◌+◌, ◌^◌, ◌==◌, ◌||◌, ◌<◌, ℕ, false, IfOk, OnOk, count_by, if◌then◌else◌};
ghost use Rattle.std.specs.Ordering.{nat_cmp};
ghost use Rattle.std.specs.BTreeSet.{contains};
ghost use Rattle.conf_limits.specs.Mirrors.{times};
ghost use Rattle.conf_types.specs.Membership.{is_mirror_of, is_mirrored};

use conf_resolve::see_number;
use conf_types::{Dp, Port};
use net_base::{NoMemory, PortNo};
use std::alloc::Global;
use std::collections::{BTreeMap, BTreeSet};

/// How many interfaces mirror each port, by its number.
type Counts = BTreeMap<u64, usize>;

/// A datapath, and how many of its interfaces mirror each port.
#[derive(Drop)]
pub(crate) struct Mirrored<'a> {
    dp: &'a Dp,
    counts: Counts,
    ghost right: { (n : ℕ) → times counts n ≡ count_by (λ m. is_mirror_of m n) dp.now.ports },
}

fn times(counts: &Counts, number: u64) -> usize
    ensures { result ≡ times counts.now number }
{
    match counts.get(&number) {
        Some(count) => *count,
        None => 0,
    }
}

/// Counts a number once more.
fn count_number(counts: &mut Counts, number: u64) -> Result<(), NoMemory>
    requires { times counts.old number + 1 < 2 ^ 64 }
    ensures { OnOk result ((n : ℕ) → times counts.new n ≡ times counts.old n + (if number == n then 1 else 0)) }
{
    let count = times(counts, number);
    counts.insert(number, count + 1)?;
    Ok(())
}

/// Counts a number once more, unless it was seen; from now on it is.
fn count_unseen(counts: &mut Counts, seen: &mut BTreeSet<u128>, number: u64) -> Result<(), NoMemory>
    requires { contains nat_cmp seen.old number ≡ false → times counts.old number + 1 < 2 ^ 64 }
    ensures seen { OnOk result ((n : ℕ) → contains nat_cmp seen.new n ≡ (contains nat_cmp seen.old n || number == n)) }
    ensures counts { OnOk result ((n : ℕ) → times counts.new n ≡ times counts.old n + (if contains nat_cmp seen.old number then 0 else if number == n then 1 else 0)) }
{
    let was = see_number(seen, u128::from(number))?;
    if was {
        return Ok(());
    }
    count_number(counts, number)
}

/// Counts an interface at each port that it mirrors.
fn count_mirror(alloc: Global, counts: &mut Counts, port: &Port) -> Result<(), NoMemory>
    requires { (n : ℕ) → times counts.old n + 1 < 2 ^ 64 }
    ensures { OnOk result ((n : ℕ) → times counts.new n ≡ times counts.old n + (if is_mirror_of port.now n then 1 else 0)) }
{
    let mut seen = BTreeSet::new(alloc);
    for no in port.mirror.as_slice() {
        let number = u64::from(no.get());
        count_unseen(counts, &mut seen, number)?;
    }
    Ok(())
}

fn count_mirrors(alloc: Global, ports: &[Port]) -> Result<Counts, NoMemory>
    ensures { IfOk result (λ counts. (n : ℕ) → times counts n ≡ count_by (λ m. is_mirror_of m n) ports.now) }
{
    let mut counts = BTreeMap::new(alloc);
    for port in ports {
        count_mirror(alloc, &mut counts, port)?;
    }
    Ok(counts)
}

impl<'a> Mirrored<'a> {
    pub(crate) fn of(alloc: Global, dp: &'a Dp) -> Result<Mirrored<'a>, NoMemory>
        ensures { IfOk result (λ made. made.dp.now ≡ dp.now) }
    {
        let counts = count_mirrors(alloc, dp.ports.as_slice())?;
        Ok(Mirrored { dp, counts })
    }

    /// How many interfaces mirror the port.
    pub(crate) fn mirrors(&self, no: PortNo) -> usize
        ensures { result ≡ count_by (λ m. is_mirror_of m no) self.now.dp.now.ports }
    {
        times(&self.counts, u64::from(no.get()))
    }

    /// Whether some interface mirrors the port.
    pub(crate) fn is_mirrored(&self, no: PortNo) -> bool
        ensures { result ≡ is_mirrored self.now.dp.now no }
    {
        self.mirrors(no) > 0
    }
}
