use net_base::Text;

/// A limit on the size of a configuration.
#[derive(Clone, Copy, Debug, PartialEq, Eq)]
pub enum LimitName {
    Dps,
    Ports,
    Vlans,
    Mirrors,
    Special,
    Rules,
    AclEntries,
    AclOutputs,
    Members,
    Vips,
    RouterVlans,
    Routes,
    Gateways,
    RouteItems,
}

/// What is wrong with a configuration.
#[derive(Clone, Copy, Debug, PartialEq, Eq)]
pub enum ConfCause {
    /// No map of this kind has this key.
    UnknownKey,
    /// The key, or the form of the value, is one that is left out.
    LeftOut,
    /// A key that has to be there isn't.
    Missing,
    /// The value is of another type.
    WrongType,
    /// The value is of the type, and outside its range.
    OutOfRange,
    /// The text doesn't spell what it has to.
    BadText,
    /// What is named isn't there.
    Unresolved,
    /// What may be given once is given again.
    Duplicate,
    /// The check with this number isn't met.
    Conflict(u8),
    /// There are more than this limit allows.
    TooMany(LimitName),
}

/// What is wrong, and where: the keys and the places in lists (from 0) that lead there, joined by
/// points, or one point for the whole document.
#[derive(Debug, Drop)]
pub struct ConfFault {
    pub path: Text,
    pub cause: ConfCause,
}

/// Why a document gives no configuration.
#[derive(Debug, Drop)]
pub enum ConfRefused {
    /// Its first fault.
    At(ConfFault),
    /// Memory ran out.
    Memory,
}
