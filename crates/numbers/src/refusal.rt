// What a call is refused with, and the number by which callers know it.
ghost use Rattle.std.specs.Prelude.{◌≡◌};
ghost use Rattle.numbers.specs.Refusals.{refusal_number};

#[derive(Clone, Copy, Debug, PartialEq, Eq)]
pub enum Refusal {
    // The memory handed in is too short for what is to be written.
    TooShort = 9,
    // A part is outside its range, does not belong there, or lacks its companions.
    OutOfRange = 10,
    // Too few cells of the option store are free.
    NoFreeCell = 11,
    // None of the cells that are to be emptied is held.
    NotHeld = 12,
    // Something waits on the carrier that a network is to be set up with.
    NotEmpty = 13,
    // As many wait on the carrier as it has room for.
    Full = 15,
    // The number has no route.
    NoRoute = 16,
    // The call is in use.
    CallInUse = 17,
    // Nothing waits from the one exchange to the other.
    NothingWaits = 18,
    // The leg or call is not there, or is in another state.
    OtherState = 19,
    // The number holds no record by which it may deflect.
    NoDeflection = 20,
    // The call has been diverted as often as the limit allows.
    LimitReached = 21,
    // The caller is up.
    CallerUp = 22,
    // Messages of the call wait.
    MessagesWait = 23,
}

impl Refusal {
    // The number by which callers know the refusal. A method and no `From`: its name says which number that is.
    pub fn number(self) -> u8
        ensures { result ≡ refusal_number self }
    {
        self as u8
    }
}
