// Why octets are no message.
ghost use Rattle.std.specs.Prelude.{◌≡◌, Some};
ghost use Rattle.decode.specs.declared.fault.MessageFault.TheVariants.{Value};
ghost use Rattle.decode.specs.Faults.{fault_number, fault_place, fault_within};

use numbers::number::NumberFault;

// Each with the place of the field, the parameter or the early 00 that it is about.
#[derive(Clone, Copy, Debug, PartialEq, Eq)]
pub enum MessageFault {
    // Fewer than 3 octets or more than 255.
    Length,
    // The type octet is none of the six.
    Kind,
    // A mandatory field runs past the end.
    Missing(usize),
    // A pointer leads elsewhere, or octets are left over.
    Pointer(usize),
    // A parameter passes the end, or the closing 00 is missing or not last.
    Optional(usize),
    // A value outside the tables, with a number's own fault.
    Value(usize, Option<NumberFault>),
    // A name of the message's row is met twice.
    Repeated(usize),
    // Parts that stand all or none are broken up.
    Group(usize),
}

impl MessageFault {
    // The number by which callers know the fault.
    pub fn number(self) -> u8
        ensures { result ≡ fault_number self }
    {
        // A table, since `self as u8` wants cases that hold nothing.
        match self {
            MessageFault::Length => 1,
            MessageFault::Kind => 2,
            MessageFault::Missing(_) => 3,
            MessageFault::Pointer(_) => 4,
            MessageFault::Optional(_) => 5,
            MessageFault::Value(_, _) => 6,
            MessageFault::Repeated(_) => 7,
            MessageFault::Group(_) => 8,
        }
    }

    // The place of what is at fault.
    pub fn place(self) -> usize
        ensures { result ≡ fault_place self }
    {
        match self {
            MessageFault::Length => 0,
            MessageFault::Kind => 2,
            MessageFault::Missing(place)
            | MessageFault::Pointer(place)
            | MessageFault::Optional(place)
            | MessageFault::Value(place, _)
            | MessageFault::Repeated(place)
            | MessageFault::Group(place) => place,
        }
    }

    // A number's own fault inside this one.
    pub fn within(self) -> Option<NumberFault>
        ensures { result ≡ fault_within self }
    {
        match self {
            MessageFault::Value(_, fault) => fault,
            _ => None,
        }
    }
}

// A number's fault and the place of the number's field.
#[derive(Clone, Copy, Debug, PartialEq, Eq)]
pub struct FaultAt {
    pub place: usize,
    pub fault: NumberFault,
}

impl From<FaultAt> for MessageFault {
    ghost from_gives = { λ f r. r ≡ Value f.place (Some f.fault) };

    fn from(f: FaultAt) -> MessageFault {
        MessageFault::Value(f.place, Some(f.fault))
    }
}
