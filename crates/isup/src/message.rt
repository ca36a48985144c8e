// The six messages and what they carry.
ghost use Rattle.std.specs.Prelude.{◌≤◌};

use numbers::number::{Number, Party};

pub mod ranges;

// What the call's connection must be fit for.
#[derive(Clone, Copy, Debug, PartialEq, Eq)]
pub enum Service {
    Speech = 0x00,
    Digital64 = 0x02,
    Audio = 0x03,
}

// Why a call was diverted.
#[derive(Clone, Copy, Debug, PartialEq, Eq)]
pub enum Reason {
    Unknown = 0,
    Busy = 1,
    NoReply = 2,
    Unconditional = 3,
    DeflectionAlerting = 4,
    DeflectionImmediate = 5,
    MobileUnreachable = 6,
}

// What a diverting party allows the caller to be told: nothing, the diversion with the new number, or the diversion alone.
#[derive(Clone, Copy, Debug, PartialEq, Eq)]
pub enum Notification {
    Unknown = 0,
    NotAllowed = 1,
    WithNumber = 2,
    WithoutNumber = 3,
}

// What an exchange further on may tell of the diversions so far.
#[derive(Clone, Copy, Debug, PartialEq, Eq)]
pub enum Indicator {
    Diverted = 3,
    AllRestricted = 4,
    NumberRestricted = 6,
}

// Whether the number that is reached may be shown to the caller.
#[derive(Clone, Copy, Debug, PartialEq, Eq)]
pub enum Restriction {
    Allowed = 0x00,
    Restricted = 0x01,
}

// What an address complete says of the called line.
#[derive(Clone, Copy, Debug, PartialEq, Eq)]
pub enum LineStatus {
    Free = 0x04,
    NoIndication = 0x00,
}

// What a call progress reports.
#[derive(Clone, Copy, Debug, PartialEq, Eq)]
pub enum Event {
    Alerting = 0x01,
    Progress = 0x02,
}

// The way of an envelope along a leg: away from the caller or towards it.
#[derive(Clone, Copy, Debug, PartialEq, Eq)]
pub enum Way {
    Forward = 0,
    Back = 1,
}

// A number from LOW to HIGH.
#[derive(Clone, Copy, Debug, PartialEq, Eq)]
pub struct Ranged<const LOW: u8, const HIGH: u8> {
    value: u8,
    ghost low: { LOW ≤ value },
    ghost high: { value ≤ HIGH },
}

// Why a call is released, 1 to 127.
pub type Cause = Ranged<1, 127>;

// How often a call has been diverted, 1 to 5.
pub type Count = Ranged<1, 5>;

// An exchange, 0 to 7.
pub type Exchange = Ranged<0, 7>;

// The circuit of a message: its call, 0 to 63, and the call's leg, 0 to 5.
// Not two ranged numbers: whoever asks a circuit for its call or its leg wants a number.
#[derive(Clone, Copy, Debug, PartialEq, Eq)]
pub struct Circuit {
    call: u8,
    leg: u8,
    ghost calls: { call ≤ 63 },
    ghost legs: { leg ≤ 5 },
}

// What an initial address tells of the diversions so far.
#[derive(Clone, Copy, Debug, PartialEq, Eq)]
pub struct RedirectionInformation {
    pub indicator: Indicator,
    pub count: Count,
    pub reason: Reason,
}

// The redirecting number, the original called number and the redirection information: all or none.
#[derive(Clone, Copy, Debug, PartialEq, Eq)]
pub struct Redirection<N> {
    pub redirecting: Party<N>,
    pub original: Party<N>,
    pub information: RedirectionInformation,
}

// The call diversion information of a notice.
#[derive(Clone, Copy, Debug, PartialEq, Eq)]
pub struct DiversionInformation {
    pub notification: Notification,
    pub reason: Reason,
}

// The notice of a diversion that goes back towards the caller: what may be told of it, and the redirection number.
#[derive(Clone, Copy, Debug, PartialEq, Eq)]
pub struct Notice<N> {
    pub information: DiversionInformation,
    pub number: N,
}

// The optional parts of an address complete and of a call progress.
#[derive(Clone, Copy, Debug, PartialEq, Eq)]
pub struct Backward<N> {
    pub may_divert: bool,
    pub notice: Option<Notice<N>>,
    pub restriction: Option<Restriction>,
}

// The type octet of a message.
#[derive(Clone, Copy, Debug, PartialEq, Eq)]
pub enum MessageKind {
    InitialAddress = 0x01,
    AddressComplete = 0x06,
    CallProgress = 0x2C,
    Answer = 0x09,
    Connect = 0x07,
    Release = 0x0C,
}

// It goes with its circuit as a pair or as two arguments: whoever reads a message or writes it takes the two apart at once.
#[derive(Clone, Copy, Debug, PartialEq, Eq)]
pub enum Message<N = Number> {
    InitialAddress(Service, N, Option<Redirection<N>>),
    AddressComplete(LineStatus, Backward<N>),
    CallProgress(Event, Backward<N>),
    Answer(Option<Restriction>),
    Connect(Option<Restriction>),
    Release(Cause),
}

// A message on its circuit, on its way from one exchange to another.
#[derive(Clone, Copy, Debug, PartialEq, Eq)]
pub struct Envelope<N = Number> {
    pub from: Exchange,
    pub to: Exchange,
    pub way: Way,
    pub circuit: Circuit,
    pub message: Message<N>,
}
