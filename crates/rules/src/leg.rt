// The legs of a call.
use isup::message::{Exchange, Redirection};
use numbers::number::Number;

// The state of a leg is that of its far end, at the exchange of its called number.
#[derive(Clone, Copy, Debug, PartialEq, Eq)]
pub enum LegState {
    Sent,
    Offered,
    Alerting,
    Diverted,
    Answered,
    Ended,
}

// A leg runs from the exchange near to the exchange far, to the number called; a leg above 0 has the
// redirection of its initial address. Its near end is the caller, or the far end of the leg before it.
#[derive(Clone, Copy, Debug, PartialEq, Eq)]
pub struct Leg<N = Number> {
    pub near: Exchange,
    pub far: Exchange,
    pub state: LegState,
    pub called: N,
    pub redirection: Option<Redirection<N>>,
}
