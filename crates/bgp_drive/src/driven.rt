ghost use Rattle.std.specs.Prelude.{IfOk};
ghost use Rattle.bgp_speaker.specs.Speaking.{begun};
ghost use Rattle.bgp_drive.specs.Speech.{StandsFor};

use crate::lines::sayings_of;
use crate::records::records_at;
use bgp_peer::Peering;
use bgp_speaker::{Speaker, Spoken};
use fg_outside::Happening;
use hub_drive::{Machine, Taken};
use net_base::NoMemory;
use std::alloc::Global;
use yaml_tree::{Key, Tree};

/// A BGP speaker as a hub drives it.
#[derive(Drop)]
pub struct DrivenSpeaker {
    speaker: Speaker,
}

impl DrivenSpeaker {
    /// A speaker to which nothing happened yet: between whom BGP is spoken, and the document of the configuration with
    /// the key of the VLAN behind whose routes those of the peer stand, where the document has it.
    pub fn new(
        alloc: Global,
        peering: Peering,
        vlan: Option<Key>,
        tree: Tree,
    ) -> Result<DrivenSpeaker, NoMemory>
        ensures { IfOk result (λ made. StandsFor made (begun peering vlan tree)) }
    {
        let speaker = Speaker::new(alloc, peering, vlan, tree)?;
        Ok(DrivenSpeaker { speaker })
    }
}

impl Machine for DrivenSpeaker {
    ghost use Rattle.bgp_drive.specs.Speech.{drives};

    ghost runs = { drives };

    fn turn(&mut self, alloc: Global, what: &Happening) -> Result<Taken, NoMemory> {
        let Spoken { sayings, text } = self.speaker.turn(what)?;
        let moment = self.speaker.moment();
        let prints = records_at(alloc, moment, sayings.as_slice(), &text)?;
        let sayings = sayings_of(alloc, sayings.as_slice())?;
        Ok(Taken {
            moment,
            sayings,
            prints,
        })
    }
}
