// What a caller is told.
use isup::message::Cause;
use numbers::number::Number;

// What a note is of: progress, alerting, answer, or a release with its cause.
#[derive(Clone, Copy, Debug, PartialEq, Eq)]
pub enum NoteKind {
    Progress,
    Alerting,
    Answer,
    Release(Cause),
}

// A note for the caller of a call: whether it says that the call was diverted, and the number that it shows.
#[derive(Clone, Copy, Debug, PartialEq, Eq)]
pub struct Note<N = Number> {
    pub call: u8,
    pub kind: NoteKind,
    pub diverted: bool,
    pub shown: Option<N>,
}
