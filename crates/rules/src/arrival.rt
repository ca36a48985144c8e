// What a message is to the end of a leg that it comes to.
use isup::message::{Backward, Cause, Event, Redirection, Restriction};
use numbers::number::Number;

// What is told back along a leg, with its parameters: progress or alerting (address complete, call progress), or
// an answer (answer, connect).
#[derive(Clone, Copy, Debug, PartialEq, Eq)]
pub enum Indication<N = Number> {
    Progress(Event, Backward<N>),
    Answer(Option<Restriction>),
}

// What counts at the end of a leg. An address counts by its redirection alone: the called number and the service are
// those of the leg's record.
#[derive(Clone, Copy, Debug, PartialEq, Eq)]
pub enum Arrival<N = Number> {
    Address(Option<Redirection<N>>),
    ForwardRelease(Cause),
    Indicated(Indication<N>),
    BackwardRelease(Cause),
}
