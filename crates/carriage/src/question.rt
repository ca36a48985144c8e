// What is asked of the envelopes that wait.
use isup::message::Exchange;

// Does it go from one exchange to another?
#[derive(Clone, Copy, Debug, PartialEq, Eq)]
pub struct Between {
    pub from: Exchange,
    pub to: Exchange,
}

// Is its message of a call?
#[derive(Clone, Copy, Debug, PartialEq, Eq)]
pub struct OfCall {
    pub call: u8,
}
