// What is held for a number: when calls to it are diverted, where to, and what may be told of it.
ghost use Rattle.std.specs.Prelude.{◌≡◌};
ghost use Rattle.isup.specs.Codes.{known};
ghost use Rattle.options.specs.Records.{kind_place, serves, service_count, services_in, option_of};

use isup::codes::UnknownCode;
use isup::message::Service;
use numbers::number::Number;
use std::slice;

// When a diversion is made: always, when the line is busy, when nobody answers, or at the called party's own request.
#[derive(Clone, Copy, Debug, PartialEq, Eq)]
pub enum Kind {
    Unconditional,
    Busy,
    NoReply,
    Deflection,
}

// What a diverting party allows the caller to be told: nothing, the diversion with the new number, or the diversion alone.
// A type of its own beside `Notification`: a message may say that it is unknown, a store may not.
#[derive(Clone, Copy, Debug, PartialEq, Eq)]
pub enum NotificationOption {
    NotAllowed,
    WithNumber,
    WithoutNumber,
}

// Where calls go, what the caller may be told of it, and whether the party's own number may be told further on.
#[derive(Clone, Copy)]
pub struct Record<N = Number> {
    pub target: N,
    pub option: NotificationOption,
    pub may_release: bool,
}

// The parts that a record is asked for with: an option from 1 to 3 and a release mark 0 or 1 are those of a record.
// Option and mark are numbers here, since only a number can be out of its range.
#[derive(Clone, Copy)]
pub struct RawRecord {
    pub target: Number,
    pub option: u8,
    pub mark: u8,
}

// One service, or all three of them.
#[derive(Clone, Copy, Debug, PartialEq, Eq)]
pub enum Services {
    One(Service),
    All,
}

static ALL: [Service; 3] = [Service::Speech, Service::Digital64, Service::Audio];

// The kind's place among the four.
impl From<Kind> for u8 {
    ghost from_gives = { λ kind place. place ≡ kind_place kind };

    fn from(kind: Kind) -> u8 {
        kind as u8
    }
}

impl Services {
    // The services meant.
    pub fn each(&self) -> &[Service]
        ensures { result.now ≡ services_in self.now }
    {
        match self {
            Services::One(only) => slice::from_ref(only),
            Services::All => &ALL,
        }
    }

    // Is a service among those meant?
    pub fn has(self, service: Service) -> bool
        ensures { result ≡ serves self service }
    {
        match self {
            Services::One(only) => only == service,
            Services::All => true,
        }
    }

    // How many services are meant.
    pub fn count(self) -> usize
        ensures { result ≡ service_count self }
    {
        self.each().len()
    }
}

// The option with a number from 1 to 3.
impl TryFrom<u8> for NotificationOption {
    type Error = UnknownCode;

    ghost try_from_gives = { λ number r. r ≡ known number (option_of number) };

    fn try_from(number: u8) -> Result<NotificationOption, UnknownCode> {
        match number {
            1 => Ok(NotificationOption::NotAllowed),
            2 => Ok(NotificationOption::WithNumber),
            3 => Ok(NotificationOption::WithoutNumber),
            _ => Err(UnknownCode(number)),
        }
    }
}

// The record of its raw parts; the option is judged first.
impl TryFrom<RawRecord> for Record {
    ghost use Rattle.options.specs.Records.{record_read};

    type Error = UnknownCode;

    ghost try_from_gives = { λ raw r. r ≡ record_read raw };

    fn try_from(raw: RawRecord) -> Result<Record, UnknownCode> {
        let option = NotificationOption::try_from(raw.option)?;
        let may_release = match raw.mark {
            0 => false,
            1 => true,
            _ => return Err(UnknownCode(raw.mark)),
        };
        Ok(Record {
            target: raw.target,
            option,
            may_release,
        })
    }
}
