// The rows of the table of messages, by the optional parameters that they have.
ghost use Rattle.std.specs.Prelude.{◌≡◌};
ghost use Rattle.isup.specs.Rows.{has};

// The name of an optional parameter.
#[derive(Clone, Copy, Debug, PartialEq, Eq)]
pub enum ParameterName {
    Redirecting = 0x0B,
    Original = 0x28,
    Information = 0x13,
    MayDivert = 0x29,
    Announced = 0x2C,
    Diversion = 0x36,
    Redirection = 0x0C,
    Restriction = 0x40,
}

// Two messages with the same parameters share a row.
#[derive(Clone, Copy, Debug, PartialEq, Eq)]
pub enum Row {
    Initial,
    Backward,
    Connected,
    Bare,
}

impl Row {
    // Whether a name is one of the row's; other names are passed over.
    // A name stays an octet: a row is asked for any, also for those that no message knows.
    pub fn has(self, name: u8) -> bool
        ensures { result ≡ has self name }
    {
        match self {
            Row::Initial => matches!(name, 0x0B | 0x28 | 0x13),
            Row::Backward => matches!(name, 0x29 | 0x2C | 0x36 | 0x0C | 0x40),
            Row::Connected => matches!(name, 0x40),
            Row::Bare => false,
        }
    }
}
