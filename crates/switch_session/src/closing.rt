ghost use Rattle.std.specs.Prelude.{◌≡◌};
ghost use Rattle.switch_session.specs.Closings.{number_of, name_of};

/// Why a connection ends.
#[derive(Clone, Copy, Debug, PartialEq, Eq)]
pub enum Closing {
    /// The switch doesn't speak OpenFlow 1.3.
    WrongVersion,
    /// A frame that spells no message, or a header with a length under 8.
    BadFrame,
    /// The datapath isn't in the configuration.
    UnknownDp,
    /// The switch has too few flow tables.
    TooFewTables,
    /// It is an auxiliary connection (OpenFlow 1.3, 6.3.5).
    Auxiliary,
    /// Another connection of the same datapath takes its place.
    Replaced,
    /// The switch said an ERROR (7.4.4), with its type and code.
    SwitchError { kind: u16, code: u16 },
    /// No byte came for too long.
    Silent,
    /// The switch reads too slowly what is said to it.
    Overfull,
    /// Reading or writing failed.
    LinkFault,
    /// The switch ended the connection.
    End,
}

impl Closing {
    /// Its number, 1 to 11.
    pub fn number(&self) -> u8
        ensures { result ≡ number_of self.now }
    {
        match self {
            Closing::WrongVersion => 1,
            Closing::BadFrame => 2,
            Closing::UnknownDp => 3,
            Closing::TooFewTables => 4,
            Closing::Auxiliary => 5,
            Closing::Replaced => 6,
            Closing::SwitchError { .. } => 7,
            Closing::Silent => 8,
            Closing::Overfull => 9,
            Closing::LinkFault => 10,
            Closing::End => 11,
        }
    }

    /// Its name, as it stands in a line.
    pub fn name(&self) -> &'static str
        ensures { result.now ≡ name_of self.now }
    {
        match self {
            Closing::WrongVersion => "WrongVersion",
            Closing::BadFrame => "BadFrame",
            Closing::UnknownDp => "UnknownDp",
            Closing::TooFewTables => "TooFewTables",
            Closing::Auxiliary => "Auxiliary",
            Closing::Replaced => "Replaced",
            Closing::SwitchError { .. } => "SwitchError",
            Closing::Silent => "Silent",
            Closing::Overfull => "Overfull",
            Closing::LinkFault => "LinkFault",
            Closing::End => "End",
        }
    }
}
