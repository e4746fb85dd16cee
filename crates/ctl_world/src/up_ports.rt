//! The ports that a switch told to be up, found by number.

ghost use Rattle.std.specs.Prelude.{◌≡◌, ◌==◌, ◌&&◌, ℕ, map, filter, IfOk};
ghost use Rattle.std.specs.List.{list_any};

use net_base::{NoMemory, PortNo};
use std::alloc::Global;
use std::marker::Model;
use switch_session::PortTold;

/// The numbers of these ports, from the least on. Contracts see the list.
#[derive(Drop)]
pub(crate) struct UpPorts {
    numbers: Vec<u32>,
}

impl Model for UpPorts {
    ghost use Rattle.std.specs.Prelude.{List, ℕ};
    ghost use Rattle.std.specs.List.Sorted.{IsNonDecreasing};

    ghost Value = { List ℕ };

    ghost view = { λ it. it.numbers.items };

    ghost invariant = { λ it. IsNonDecreasing it.numbers.items };
}

fn numbers_of(alloc: Global, told: &[PortTold]) -> Result<Vec<u32>, NoMemory>
    ensures { IfOk result (λ numbers. numbers.items ≡ map (λ t. t.no) (filter (λ t. t.up) told.now)) }
{
    told.iter()
        .filter(|port| port.up)
        .map(|port| port.no.get())
        .collect(alloc)
}

impl UpPorts {
    /// Those that were told to be up.
    pub(crate) fn of(alloc: Global, told: &[PortTold]) -> Result<UpPorts, NoMemory>
        ensures { IfOk result (λ ups. (no : ℕ) → list_any (λ n. n == no) ups ≡ list_any (λ t. t.no == no && t.up) told.now) }
    {
        let mut numbers = numbers_of(alloc, told)?;
        numbers.sort_unstable();
        Ok(UpPorts { numbers })
    }

    /// Whether the port with this number is up.
    pub(crate) fn has(&self, no: PortNo) -> bool
        ensures { result ≡ list_any (λ n. n == no) self.now }
    {
        self.numbers.as_slice().binary_search(&no.get()).is_ok()
    }
}
