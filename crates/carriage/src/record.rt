// The carrier that holds envelopes as they are.
use super::list::ListCarrier;
use isup::message::Envelope;

// As many envelopes as may wait, however much memory is handed.
pub use super::list::MOST;

pub type RecordCarrier<'a> = ListCarrier<'a, Envelope>;
