// The code of each value, and the value of each code.
// Each type has its own two tables: neither one impl for all types that have codes nor a macro that writes impls is to be had.
ghost use Rattle.std.specs.Prelude.{◌≡◌};
ghost use Rattle.numbers.specs.declared.refusal.Refusal.TheVariants.{OutOfRange};
ghost use Rattle.isup.specs.Codes.{known, kind_code, kind_of, name_code, name_of, service_code, service_of, reason_code, reason_of, notification_code, notification_of, indicator_code, indicator_of, restriction_code, restriction_of, status_code, status_of, event_code, event_of, way_code, way_of};

use crate::message::{
    Event, Indicator, LineStatus, MessageKind, Notification, Reason, Restriction, Service, Way,
};
use crate::row::ParameterName;
use numbers::refusal::Refusal;

// A code that no value has.
#[derive(Clone, Copy, Debug, PartialEq, Eq)]
pub struct UnknownCode(pub u8);

// A code that no value has is out of range.
impl From<UnknownCode> for Refusal {
    ghost from_gives = { λ _ refusal. refusal ≡ OutOfRange };

    fn from(_unknown: UnknownCode) -> Refusal {
        Refusal::OutOfRange
    }
}

impl From<Service> for u8 {
    ghost from_gives = { λ service code. code ≡ service_code service };

    fn from(service: Service) -> u8 {
        service as u8
    }
}

impl TryFrom<u8> for Service {
    type Error = UnknownCode;

    ghost try_from_gives = { λ code r. r ≡ known code (service_of code) };

    fn try_from(code: u8) -> Result<Service, UnknownCode> {
        match code {
            0x00 => Ok(Service::Speech),
            0x02 => Ok(Service::Digital64),
            0x03 => Ok(Service::Audio),
            _ => Err(UnknownCode(code)),
        }
    }
}

impl From<Reason> for u8 {
    ghost from_gives = { λ reason code. code ≡ reason_code reason };

    fn from(reason: Reason) -> u8 {
        reason as u8
    }
}

impl TryFrom<u8> for Reason {
    type Error = UnknownCode;

    ghost try_from_gives = { λ code r. r ≡ known code (reason_of code) };

    fn try_from(code: u8) -> Result<Reason, UnknownCode> {
        match code {
            0 => Ok(Reason::Unknown),
            1 => Ok(Reason::Busy),
            2 => Ok(Reason::NoReply),
            3 => Ok(Reason::Unconditional),
            4 => Ok(Reason::DeflectionAlerting),
            5 => Ok(Reason::DeflectionImmediate),
            6 => Ok(Reason::MobileUnreachable),
            _ => Err(UnknownCode(code)),
        }
    }
}

impl From<Notification> for u8 {
    ghost from_gives = { λ notification code. code ≡ notification_code notification };

    fn from(notification: Notification) -> u8 {
        notification as u8
    }
}

impl TryFrom<u8> for Notification {
    type Error = UnknownCode;

    ghost try_from_gives = { λ code r. r ≡ known code (notification_of code) };

    fn try_from(code: u8) -> Result<Notification, UnknownCode> {
        match code {
            0 => Ok(Notification::Unknown),
            1 => Ok(Notification::NotAllowed),
            2 => Ok(Notification::WithNumber),
            3 => Ok(Notification::WithoutNumber),
            _ => Err(UnknownCode(code)),
        }
    }
}

impl From<Indicator> for u8 {
    ghost from_gives = { λ indicator code. code ≡ indicator_code indicator };

    fn from(indicator: Indicator) -> u8 {
        indicator as u8
    }
}

impl TryFrom<u8> for Indicator {
    type Error = UnknownCode;

    ghost try_from_gives = { λ code r. r ≡ known code (indicator_of code) };

    fn try_from(code: u8) -> Result<Indicator, UnknownCode> {
        match code {
            3 => Ok(Indicator::Diverted),
            4 => Ok(Indicator::AllRestricted),
            6 => Ok(Indicator::NumberRestricted),
            _ => Err(UnknownCode(code)),
        }
    }
}

impl From<Restriction> for u8 {
    ghost from_gives = { λ restriction code. code ≡ restriction_code restriction };

    fn from(restriction: Restriction) -> u8 {
        restriction as u8
    }
}

impl TryFrom<u8> for Restriction {
    type Error = UnknownCode;

    ghost try_from_gives = { λ code r. r ≡ known code (restriction_of code) };

    fn try_from(code: u8) -> Result<Restriction, UnknownCode> {
        match code {
            0x00 => Ok(Restriction::Allowed),
            0x01 => Ok(Restriction::Restricted),
            _ => Err(UnknownCode(code)),
        }
    }
}

impl From<LineStatus> for u8 {
    ghost from_gives = { λ status code. code ≡ status_code status };

    fn from(status: LineStatus) -> u8 {
        status as u8
    }
}

impl TryFrom<u8> for LineStatus {
    type Error = UnknownCode;

    ghost try_from_gives = { λ code r. r ≡ known code (status_of code) };

    fn try_from(code: u8) -> Result<LineStatus, UnknownCode> {
        match code {
            0x04 => Ok(LineStatus::Free),
            0x00 => Ok(LineStatus::NoIndication),
            _ => Err(UnknownCode(code)),
        }
    }
}

impl From<Event> for u8 {
    ghost from_gives = { λ event code. code ≡ event_code event };

    fn from(event: Event) -> u8 {
        event as u8
    }
}

impl TryFrom<u8> for Event {
    type Error = UnknownCode;

    ghost try_from_gives = { λ code r. r ≡ known code (event_of code) };

    fn try_from(code: u8) -> Result<Event, UnknownCode> {
        match code {
            0x01 => Ok(Event::Alerting),
            0x02 => Ok(Event::Progress),
            _ => Err(UnknownCode(code)),
        }
    }
}

impl From<Way> for u8 {
    ghost from_gives = { λ way code. code ≡ way_code way };

    fn from(way: Way) -> u8 {
        way as u8
    }
}

impl TryFrom<u8> for Way {
    type Error = UnknownCode;

    ghost try_from_gives = { λ code r. r ≡ known code (way_of code) };

    fn try_from(code: u8) -> Result<Way, UnknownCode> {
        match code {
            0 => Ok(Way::Forward),
            1 => Ok(Way::Back),
            _ => Err(UnknownCode(code)),
        }
    }
}

impl From<MessageKind> for u8 {
    ghost from_gives = { λ kind code. code ≡ kind_code kind };

    fn from(kind: MessageKind) -> u8 {
        kind as u8
    }
}

impl TryFrom<u8> for MessageKind {
    type Error = UnknownCode;

    ghost try_from_gives = { λ code r. r ≡ known code (kind_of code) };

    fn try_from(code: u8) -> Result<MessageKind, UnknownCode> {
        match code {
            0x01 => Ok(MessageKind::InitialAddress),
            0x06 => Ok(MessageKind::AddressComplete),
            0x2C => Ok(MessageKind::CallProgress),
            0x09 => Ok(MessageKind::Answer),
            0x07 => Ok(MessageKind::Connect),
            0x0C => Ok(MessageKind::Release),
            _ => Err(UnknownCode(code)),
        }
    }
}

impl From<ParameterName> for u8 {
    ghost from_gives = { λ name code. code ≡ name_code name };

    fn from(name: ParameterName) -> u8 {
        name as u8
    }
}

impl TryFrom<u8> for ParameterName {
    type Error = UnknownCode;

    ghost try_from_gives = { λ code r. r ≡ known code (name_of code) };

    fn try_from(code: u8) -> Result<ParameterName, UnknownCode> {
        match code {
            0x0B => Ok(ParameterName::Redirecting),
            0x28 => Ok(ParameterName::Original),
            0x13 => Ok(ParameterName::Information),
            0x29 => Ok(ParameterName::MayDivert),
            0x2C => Ok(ParameterName::Announced),
            0x36 => Ok(ParameterName::Diversion),
            0x0C => Ok(ParameterName::Redirection),
            0x40 => Ok(ParameterName::Restriction),
            _ => Err(UnknownCode(code)),
        }
    }
}
