ghost use Rattle.std.specs.Prelude.{◌≡◌, IfOk, OnErr};
ghost use Rattle.bgp_speaker.specs.Speaking.{Speaking, StandsFor, IsSpent, begun, said, turn};

use crate::texts::Texts;
use bgp_peer::{Bgp, BgpSayings, Peering};
use bgp_routes::BgpRoute;
use fg_outside::Happening;
use net_base::{Bytes, NoMemory};
use std::alloc::{AllocError, Global};
use yaml_tree::{Key, Tree};

/// What a turn of a speaker comes to.
#[derive(Debug, Drop)]
pub struct Spoken {
    /// What is said and closed on connections, in order.
    pub sayings: BgpSayings,
    /// The text of the configuration with the routes that there are then, where it isn't the last one.
    pub text: Option<Bytes>,
}

/// The speaker of a router of a configuration. Contracts see what it stands for, or that it is spent.
#[derive(Drop)]
pub struct Speaker {
    alloc: Global,
    bgp: Bgp,
    texts: Texts,
    is_spent: bool,
}

impl Speaker {
    /// A speaker to which nothing happened yet: between whom BGP is spoken, and the document of the configuration with
    /// the key of the VLAN behind whose routes those of the peer stand, where the document has it.
    pub fn new(
        alloc: Global,
        peering: Peering,
        vlan: Option<Key>,
        tree: Tree,
    ) -> Result<Speaker, NoMemory>
        ensures { IfOk result (λ made. StandsFor made (begun peering vlan tree)) }
    {
        let texts = Texts::new(alloc, vlan, tree)?;
        Ok(Speaker {
            alloc,
            bgp: Bgp::new(alloc, peering),
            texts,
            is_spent: false,
        })
    }

    /// Takes in what happens, and gives what is said and closed on connections, and the text of the configuration
    /// where that changes. After `NoMemory` the speaker is spent, and answers so from then on.
    pub fn turn(&mut self, what: &Happening) -> Result<Spoken, NoMemory>
        ensures known { IfOk result (λ _. (s : Speaking) → StandsFor self.old s → StandsFor self.new (turn what.now s)) }
        ensures says { IfOk result (λ spoken. (s : Speaking) → StandsFor self.old s → spoken.sayings ≡ said (turn what.now s)) }
        ensures text { IfOk result (λ spoken. (s : Speaking) → StandsFor self.old s → spoken.text ≡ (turn what.now s).text) }
        ensures spent { OnErr result (IsSpent self.new) }
        ensures stays_spent { IsSpent self.old → IsSpent self.new }
        ensures spent_says_nothing { IfOk result (λ _. IsSpent self.old → ⊥) }
    {
        if self.is_spent {
            return Err(AllocError);
        }
        self.is_spent = true;
        let sayings = self.bgp.turn(what)?;
        let text = self.texts.follow(self.alloc, self.bgp.routes())?;
        self.is_spent = false;
        Ok(Spoken { sayings, text })
    }

    /// The moment that was shown last, in milliseconds.
    pub fn moment(&self) -> u64
        ensures { (s : Speaking) → StandsFor self.now s → result ≡ s.known.peer.moment.0 }
    {
        self.bgp.moment()
    }

    /// The routes that the peer announced, by address and length.
    pub fn routes(&self) -> &[BgpRoute]
        ensures { (s : Speaking) → StandsFor self.now s → result.now ≡ s.known.peer.routes }
    {
        self.bgp.routes()
    }
}
