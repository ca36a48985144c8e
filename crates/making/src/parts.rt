// The raw parts of a message: codes and numbers that may be out of range, absent, or in the wrong message.
// Codes are numbers here and the types are beside those of isup, since a value that is in range already could not be refused.
use isup::message::{Notice, Redirection, Restriction};
use numbers::number::{Number, Party};

// The parts that one or the other message must have.
#[derive(Clone, Copy, Debug, Default, PartialEq, Eq)]
pub struct Mandatory {
    pub service: Option<u8>,
    pub called: Option<Number>,
    pub status: Option<u8>,
    pub event: Option<u8>,
    pub cause: Option<u8>,
}

// The codes of the redirection information.
#[derive(Clone, Copy, Debug, PartialEq, Eq)]
pub struct RawInformation {
    pub indicator: u8,
    pub count: u8,
    pub reason: u8,
}

// The redirecting number, the original called number and the redirection information.
#[derive(Clone, Copy, Debug, Default, PartialEq, Eq)]
pub struct RawRedirection {
    pub redirecting: Option<Party<Number>>,
    pub original: Option<Party<Number>>,
    pub information: Option<RawInformation>,
}

// The codes of the call diversion information.
#[derive(Clone, Copy, Debug, PartialEq, Eq)]
pub struct RawDiversion {
    pub notification: u8,
    pub reason: u8,
}

// The announcement of a diversion, the call diversion information and the redirection number.
#[derive(Clone, Copy, Debug, Default, PartialEq, Eq)]
pub struct RawNotice {
    pub announced: bool,
    pub diversion: Option<RawDiversion>,
    pub number: Option<Number>,
}

// All that a message may be made from: its call and leg, its type octet, and the parts.
#[derive(Clone, Copy, Debug, Default, PartialEq, Eq)]
pub struct Parts {
    pub call: u8,
    pub leg: u8,
    pub kind: u8,
    pub mandatory: Mandatory,
    pub redirection: RawRedirection,
    pub may_divert: bool,
    pub notice: RawNotice,
    pub restriction: Option<u8>,
}

// The optional parts, once they are found whole and in range.
#[derive(Clone, Copy, Debug, PartialEq, Eq)]
pub(crate) struct Optional {
    pub(crate) redirection: Option<Redirection<Number>>,
    pub(crate) may_divert: bool,
    pub(crate) notice: Option<Notice<Number>>,
    pub(crate) restriction: Option<Restriction>,
}
