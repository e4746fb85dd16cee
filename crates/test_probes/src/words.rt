//! What reads configurations by their first byte.

use net_base::{NoMemory, TryCopy};
use probe_hub::{Links, ReadsLinks};
use std::alloc::Global;

/// What reads configurations: by their first byte, 1 where the link is watched, and 0 where it isn't.
#[derive(Drop)]
pub struct Words {
    pub watched: Links,
    pub free: Links,
}

impl ReadsLinks for Words {
    ghost use Rattle.test_probes.specs.Words.{links_of};

    ghost links_of = { links_of };

    fn read(&self, alloc: Global, text: &[u8]) -> Result<Option<Links>, NoMemory> {
        match text {
            [] => Ok(None),
            [first, ..] => {
                if *first == 1 {
                    Ok(Some(self.watched.copy(alloc)?))
                } else if *first == 0 {
                    Ok(Some(self.free.copy(alloc)?))
                } else {
                    Ok(None)
                }
            }
        }
    }
}
