ghost use Rattle.std.specs.Prelude.{◌≡◌, ℕ, List, Option, IfOk};
ghost use Rattle.probe_hub.specs.declared.links.Links.{Links as Read};

use crate::links::Links;
use net_base::NoMemory;
use std::alloc::Global;

/// What reads the links of a configuration out of its text.
pub trait ReadsLinks {
    /// The links that a text has, where it is accepted.
    ghost links_of: { Self → List ℕ → Option Read };

    /// The links of a text; `None` exactly where it isn't accepted.
    fn read(&self, alloc: Global, text: &[u8]) -> Result<Option<Links>, NoMemory>
        ensures { IfOk result (λ read. read ≡ links_of self.now text.now) };
}
