ghost use Rattle.std.specs.Prelude.{◌≡◌};
ghost use Rattle.bgp_messages.specs.Faults.{code_of, row, subcode_of};
ghost use Rattle.bgp_messages.specs.declared.fault.Refused.TheVariants.{Memory};

use net_base::NoMemory;

/// What a NOTIFICATION tells, by its error code and subcode (RFC 4271, 4.5).
#[derive(Clone, Copy, Debug, PartialEq, Eq)]
pub enum Fault {
    /// 1/1: the marker isn't all ones.
    ConnectionNotSynchronized,
    /// 1/2: a length under 19, above 4096, or one that a message of the type can't have.
    BadMessageLength,
    /// 1/3: a type that isn't known.
    BadMessageType,
    /// 2/0: the lengths of an OPEN's parameters disagree.
    OpenUnspecific,
    /// 2/1: another version than 4.
    UnsupportedVersionNumber,
    /// 2/2: another AS than the peer's.
    BadPeerAs,
    /// 2/3: the identifier 0.
    BadBgpIdentifier,
    /// 2/4: a parameter that isn't capabilities.
    UnsupportedOptionalParameter,
    /// 2/6: a hold time of 1 or 2 seconds.
    UnacceptableHoldTime,
    /// 3/1: lengths that disagree, or an attribute that stood before.
    MalformedAttributeList,
    /// 3/2: an attribute that isn't known and isn't optional.
    UnrecognizedWellKnownAttribute,
    /// 3/3: prefixes without ORIGIN, AS_PATH or NEXT_HOP.
    MissingWellKnownAttribute,
    /// 3/4: one of these that is optional or not transitive.
    AttributeFlagsError,
    /// 3/5: an attribute of a length that its type doesn't have.
    AttributeLengthError,
    /// 3/6: an origin above 2.
    InvalidOriginAttribute,
    /// 3/10: a prefix above 32 bits, or one that is cut.
    InvalidNetworkField,
    /// 3/11: an AS_PATH that isn't made of segments.
    MalformedAsPath,
    /// 4/0: nothing was heard for the hold time.
    HoldTimerExpired,
    /// 5/0: a message that isn't awaited.
    FiniteStateMachineError,
    /// 6/0: the session is ended for another reason.
    Cease,
}

impl Fault {
    /// The error code, and the subcode, which is 0 where there is none.
    fn row(self) -> (u8, u8)
        ensures { result ≡ row self }
    {
        match self {
            Fault::ConnectionNotSynchronized => (1, 1),
            Fault::BadMessageLength => (1, 2),
            Fault::BadMessageType => (1, 3),
            Fault::OpenUnspecific => (2, 0),
            Fault::UnsupportedVersionNumber => (2, 1),
            Fault::BadPeerAs => (2, 2),
            Fault::BadBgpIdentifier => (2, 3),
            Fault::UnsupportedOptionalParameter => (2, 4),
            Fault::UnacceptableHoldTime => (2, 6),
            Fault::MalformedAttributeList => (3, 1),
            Fault::UnrecognizedWellKnownAttribute => (3, 2),
            Fault::MissingWellKnownAttribute => (3, 3),
            Fault::AttributeFlagsError => (3, 4),
            Fault::AttributeLengthError => (3, 5),
            Fault::InvalidOriginAttribute => (3, 6),
            Fault::InvalidNetworkField => (3, 10),
            Fault::MalformedAsPath => (3, 11),
            Fault::HoldTimerExpired => (4, 0),
            Fault::FiniteStateMachineError => (5, 0),
            Fault::Cease => (6, 0),
        }
    }

    /// The error code.
    pub fn code(self) -> u8
        ensures { result ≡ code_of self }
    {
        self.row().0
    }

    /// The error subcode, 0 where there is none.
    pub fn subcode(self) -> u8
        ensures { result ≡ subcode_of self }
    {
        self.row().1
    }
}

/// Why a message was not read.
#[derive(Clone, Copy, Debug, PartialEq, Eq)]
pub enum Refused {
    /// The first thing that is wrong with it.
    Fault(Fault),
    /// Memory ran out.
    Memory,
}

impl From<NoMemory> for Refused {
    ghost from_gives = { λ _ e. e ≡ Memory };

    fn from(_e: NoMemory) -> Refused {
        Refused::Memory
    }
}
