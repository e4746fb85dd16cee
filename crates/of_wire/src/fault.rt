ghost use Rattle.std.specs.Prelude.{◌≡◌};
ghost use Rattle.of_wire.specs.Causes.{cause_number};
ghost use Rattle.of_wire.specs.declared.fault.PartRefused.TheVariants.{Memory};

use net_base::NoMemory;

/// What is wrong with the bytes of a part of a message.
#[derive(Clone, Copy, Debug, PartialEq, Eq)]
pub enum PartCause {
    /// The bytes end before the part does.
    Short = 1,
    /// A match of another type, or a field that isn't known.
    BadClass = 2,
    /// A length that isn't that of what it counts.
    BadLength = 3,
    /// Padding that isn't zero.
    BadPad = 4,
    /// A field or an instruction that stood before.
    Repeated = 5,
    /// A field without what has to stand before it (OpenFlow 1.3, 7.2.3.6).
    Prerequisite = 6,
    /// An action that isn't known.
    UnknownAction = 7,
    /// An instruction that isn't known, or that stands out of its order.
    UnknownInstr = 8,
}

impl PartCause {
    /// The number of the cause, 1 to 8 in the order of the variants.
    pub fn number(self) -> u8
        ensures { result ≡ cause_number self }
    {
        self as u8
    }
}

/// A fault, and the place of the first byte that it is about, counted from the first byte that was
/// handed in.
#[derive(Clone, Copy, Debug, PartialEq, Eq)]
pub struct PartFault {
    pub at: u32,
    pub cause: PartCause,
}

/// Why a part was not read.
#[derive(Clone, Copy, Debug, PartialEq, Eq)]
pub enum PartRefused {
    /// The bytes spell no such part.
    At(PartFault),
    /// Memory ran out.
    Memory,
}

impl From<NoMemory> for PartRefused {
    ghost from_gives = { λ _ e. e ≡ Memory };

    fn from(_e: NoMemory) -> PartRefused {
        PartRefused::Memory
    }
}
