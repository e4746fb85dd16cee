ghost use Rattle.std.specs.Prelude.{◌≡◌, IfOk, OnErr};
ghost use Rattle.bgp_peer.specs.declared.known.Known.{Known as Behind};
ghost use Rattle.bgp_peer.specs.StandsFor.{StandsFor, IsSpent};
ghost use Rattle.bgp_peer.specs.Turns.{begun, turn, said};

use crate::known::Known;
use crate::peer::Peering;
use crate::saying::BgpSayings;
use bgp_routes::BgpRoute;
use fg_outside::Happening;
use net_base::NoMemory;
use std::alloc::{AllocError, Global};

/// A BGP speaker that waits for its peer to connect. Contracts see what it stands for, or that it is spent.
#[derive(Drop)]
pub struct Bgp {
    alloc: Global,
    known: Known,
    is_spent: bool,
}

impl Bgp {
    /// A speaker to which nothing happened yet. It takes no memory.
    pub fn new(alloc: Global, peering: Peering) -> Bgp
        ensures { StandsFor result (begun peering) }
    {
        Bgp {
            alloc,
            known: Known::new(alloc, peering),
            is_spent: false,
        }
    }

    /// Takes in what happens, and gives what is said and closed on connections, in order. After `NoMemory` the
    /// speaker is spent, and answers so from then on.
    pub fn turn(&mut self, what: &Happening) -> Result<BgpSayings, NoMemory>
        ensures known { IfOk result (λ _. (k : Behind) → StandsFor self.old k → StandsFor self.new (turn what.now k)) }
        ensures says { IfOk result (λ given. (k : Behind) → StandsFor self.old k → given ≡ said (turn what.now k)) }
        ensures spent { OnErr result (IsSpent self.new) }
        ensures stays_spent { IsSpent self.old → IsSpent self.new }
        ensures spent_says_nothing { IfOk result (λ _. IsSpent self.old → ⊥) }
    {
        if self.is_spent {
            return Err(AllocError);
        }
        self.is_spent = true;
        self.known.work(self.alloc, what)?;
        let none = BgpSayings::new(self.alloc);
        let sayings = std::mem::replace(&mut self.known.peer.said, none);
        self.is_spent = false;
        Ok(sayings)
    }

    /// The moment that was shown last, in milliseconds.
    pub fn moment(&self) -> u64
        ensures { (k : Behind) → StandsFor self.now k → result ≡ k.peer.moment.0 }
    {
        self.known.peer.moment.0
    }

    /// The routes that the peer announced, by address and length.
    pub fn routes(&self) -> &[BgpRoute]
        ensures { (k : Behind) → StandsFor self.now k → result.now ≡ k.peer.routes }
    {
        self.known.peer.routes.as_slice()
    }
}
