ghost use Rattle.std.specs.Prelude.{◌≡◌};
ghost use Rattle.conf_gather.specs.declared.refused.LoadRefused.TheVariants.{Memory};

use conf_shape::ConfFault;
use net_base::{NoMemory, Text};
use yaml_subset::YamlFault;

/// Why files give no tree. The texts are whole names of files.
#[derive(Debug, Drop)]
pub enum LoadRefused {
    /// A read of the file failed.
    Read(Text),
    /// The file isn't a text of the YAML subset: its first fault.
    Yaml(Text, YamlFault),
    /// A document, a section or an include list is of a wrong type, or two files give one name.
    Conf(ConfFault),
    /// The file was reached before.
    IncludeTwice(Text),
    /// The file lies more than 8 includes deep.
    IncludeDepth(Text),
    /// The file isn't there, and has to be.
    Absent(Text),
    /// Memory ran out.
    Memory,
}

impl From<NoMemory> for LoadRefused {
    ghost from_gives = { λ _ refused. refused ≡ Memory };

    fn from(_: NoMemory) -> LoadRefused {
        LoadRefused::Memory
    }
}
