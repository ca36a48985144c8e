// What is asked of the network, and what it answers.
ghost use Rattle.isup.specs.Codes.{known};
ghost use Rattle.rules.specs.Parts.{event_number, line_event};
ghost use Rattle.std.specs.Prelude.{◌≡◌};

use super::note::Note;
use isup::codes::UnknownCode;
use isup::message::Service;
use numbers::number::Number;
use numbers::refusal::Refusal;

// What a line reports, by its number from 1 to 6.
#[derive(Clone, Copy, Debug, PartialEq, Eq)]
pub enum LineEvent {
    BusyNetwork = 1,
    BusyUser = 2,
    Alerting = 3,
    NoReply = 4,
    Answer = 5,
    HangsUp = 6,
}

impl From<LineEvent> for u8 {
    ghost from_gives = { λ event number. number ≡ event_number event };

    fn from(event: LineEvent) -> u8 {
        event as u8
    }
}

impl TryFrom<u8> for LineEvent {
    type Error = UnknownCode;

    ghost try_from_gives = { λ number r. r ≡ known number (line_event number) };

    fn try_from(number: u8) -> Result<LineEvent, UnknownCode> {
        match number {
            1 => Ok(LineEvent::BusyNetwork),
            2 => Ok(LineEvent::BusyUser),
            3 => Ok(LineEvent::Alerting),
            4 => Ok(LineEvent::NoReply),
            5 => Ok(LineEvent::Answer),
            6 => Ok(LineEvent::HangsUp),
            _ => Err(UnknownCode(number)),
        }
    }
}

// A call of the network, with its arguments; calls, exchanges, legs and events are any numbers from 0 to 255, since one
// that is out of range is refused in its turn.
#[derive(Clone, Copy, Debug, PartialEq, Eq)]
pub enum Request<N = Number> {
    Open {
        call: u8,
        exchange: u8,
        number: N,
        service: Service,
    },
    Step {
        from: u8,
        to: u8,
    },
    Report {
        call: u8,
        leg: u8,
        event: u8,
    },
    Deflect {
        call: u8,
        leg: u8,
        target: N,
    },
    HangUp {
        call: u8,
    },
    Clear {
        call: u8,
    },
}

// What the network grants: the call that was opened, a step with its note, or, of all other requests, that it is done.
#[derive(Clone, Copy, Debug, PartialEq, Eq)]
pub enum Granted<N = Number> {
    Opened(u8),
    Stepped(Option<Note<N>>),
    Done,
}

// What the network answers.
pub type Answer<N = Number> = Result<Granted<N>, Refusal>;
