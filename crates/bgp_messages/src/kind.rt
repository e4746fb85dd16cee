ghost use Rattle.std.specs.Prelude.{◌≡◌};
ghost use Rattle.bgp_messages.specs.Kinds.{number_of, kind_of, is_length};

/// The type of a message (RFC 4271, 4.1).
#[derive(Clone, Copy, Debug, PartialEq, Eq)]
pub enum Kind {
    Open,
    Update,
    Notification,
    KeepAlive,
}

impl Kind {
    /// Its number, 1 to 4.
    pub fn number(self) -> u8
        ensures { result ≡ number_of self }
    {
        match self {
            Kind::Open => 1,
            Kind::Update => 2,
            Kind::Notification => 3,
            Kind::KeepAlive => 4,
        }
    }

    /// The type with this number; `None` exactly outside 1 to 4.
    pub fn of_number(number: u8) -> Option<Kind>
        ensures { result ≡ kind_of number }
    {
        match number {
            1 => Some(Kind::Open),
            2 => Some(Kind::Update),
            3 => Some(Kind::Notification),
            4 => Some(Kind::KeepAlive),
            _ => None,
        }
    }

    /// Whether a message of this type may have so many bytes, its header among them (RFC 4271, 6.1).
    pub fn may_have(self, len: u16) -> bool
        ensures { result ≡ is_length self len }
    {
        match self {
            Kind::Open => len >= 29,
            Kind::Update => len >= 23,
            Kind::Notification => len >= 21,
            Kind::KeepAlive => len == 19,
        }
    }
}
