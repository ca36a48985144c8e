// Numbers and messages as text.
ghost use Rattle.script.specs.Answers.{backward_text, circuit_text, event_text, information_text, message_text, notice_text, number_text, party_text, redirection_text, restriction_text, service_text, status_text};
ghost use Rattle.std.specs.Prelude.{Some};

use isup::message::{
    Backward, Circuit, Event, LineStatus, Message, Notice, Redirection, RedirectionInformation,
    Restriction, Service,
};
use numbers::number::{Number, Party};
use std::fmt;

// A value of another crate that is to be written. A trait's impl stands in the crate of the trait or of the type, and the
// words are the script's, so the value is wrapped.
#[derive(Clone, Copy)]
pub(crate) struct Text<T>(pub T);

impl fmt::Display for Text<Number> {
    ghost output = { λ t. Some (number_text t.0) };

    fn fmt<W: fmt::Write>(&self, f: &mut fmt::Formatter<W>) -> fmt::Result {
        for digit in self.0.digits() {
            write!(f, "{digit}")?;
        }
        Ok(())
    }
}

impl fmt::Display for Text<Party<Number>> {
    ghost output = { λ t. Some (party_text t.0) };

    fn fmt<W: fmt::Write>(&self, f: &mut fmt::Formatter<W>) -> fmt::Result {
        let Party { number, restricted } = self.0;
        let mark = if restricted { " restricted" } else { "" };
        write!(f, "{}{mark}", Text(number))
    }
}

impl fmt::Display for Text<Service> {
    ghost output = { λ t. Some (service_text t.0) };

    fn fmt<W: fmt::Write>(&self, f: &mut fmt::Formatter<W>) -> fmt::Result {
        f.write_str(match self.0 {
            Service::Speech => "speech",
            Service::Digital64 => "64k",
            Service::Audio => "audio",
        })
    }
}

impl fmt::Display for Text<LineStatus> {
    ghost output = { λ t. Some (status_text t.0) };

    fn fmt<W: fmt::Write>(&self, f: &mut fmt::Formatter<W>) -> fmt::Result {
        f.write_str(match self.0 {
            LineStatus::Free => "free",
            LineStatus::NoIndication => "none",
        })
    }
}

impl fmt::Display for Text<Event> {
    ghost output = { λ t. Some (event_text t.0) };

    fn fmt<W: fmt::Write>(&self, f: &mut fmt::Formatter<W>) -> fmt::Result {
        f.write_str(match self.0 {
            Event::Alerting => "alerting",
            Event::Progress => "progress",
        })
    }
}

impl fmt::Display for Text<RedirectionInformation> {
    ghost output = { λ t. Some (information_text t.0) };

    fn fmt<W: fmt::Write>(&self, f: &mut fmt::Formatter<W>) -> fmt::Result {
        write!(
            f,
            "indicator {} count {} reason {}",
            u8::from(self.0.indicator),
            self.0.count.value(),
            u8::from(self.0.reason)
        )
    }
}

// Nothing is written of none. A wrapper of any option would take three lines from here, and add a `map` at each use.
impl fmt::Display for Text<Option<Redirection<Number>>> {
    ghost output = { λ t. Some (redirection_text t.0) };

    fn fmt<W: fmt::Write>(&self, f: &mut fmt::Formatter<W>) -> fmt::Result {
        let Some(redirection) = self.0 else {
            return Ok(());
        };
        write!(
            f,
            " redirecting {} original {} {}",
            Text(redirection.redirecting),
            Text(redirection.original),
            Text(redirection.information)
        )
    }
}

impl fmt::Display for Text<Option<Notice<Number>>> {
    ghost output = { λ t. Some (notice_text t.0) };

    fn fmt<W: fmt::Write>(&self, f: &mut fmt::Formatter<W>) -> fmt::Result {
        let Some(notice) = self.0 else {
            return Ok(());
        };
        write!(
            f,
            " notice option {} reason {} number {}",
            u8::from(notice.information.notification),
            u8::from(notice.information.reason),
            Text(notice.number)
        )
    }
}

impl fmt::Display for Text<Option<Restriction>> {
    ghost output = { λ t. Some (restriction_text t.0) };

    fn fmt<W: fmt::Write>(&self, f: &mut fmt::Formatter<W>) -> fmt::Result {
        f.write_str(match self.0 {
            None => "",
            Some(Restriction::Allowed) => " number-shown",
            Some(Restriction::Restricted) => " number-restricted",
        })
    }
}

impl fmt::Display for Text<Backward<Number>> {
    ghost output = { λ t. Some (backward_text t.0) };

    fn fmt<W: fmt::Write>(&self, f: &mut fmt::Formatter<W>) -> fmt::Result {
        let mark = if self.0.may_divert { " may-divert" } else { "" };
        write!(
            f,
            "{mark}{}{}",
            Text(self.0.notice),
            Text(self.0.restriction)
        )
    }
}

impl fmt::Display for Text<Circuit> {
    ghost output = { λ t. Some (circuit_text t.0) };

    fn fmt<W: fmt::Write>(&self, f: &mut fmt::Formatter<W>) -> fmt::Result {
        write!(f, "call {} leg {}", self.0.call(), self.0.leg())
    }
}

// A message and the circuit that it is about.
#[derive(Clone, Copy)]
pub(crate) struct OnCircuit {
    pub circuit: Circuit,
    pub message: Message,
}

impl fmt::Display for OnCircuit {
    ghost output = { λ m. Some (message_text m.circuit m.message) };

    fn fmt<W: fmt::Write>(&self, f: &mut fmt::Formatter<W>) -> fmt::Result {
        let on = Text(self.circuit);
        match self.message {
            Message::InitialAddress(service, called, redirection) => write!(
                f,
                "message IAM {on} service {} called {}{}",
                Text(service),
                Text(called),
                Text(redirection)
            ),
            Message::AddressComplete(status, backward) => {
                write!(f, "message ACM {on} {}{}", Text(status), Text(backward))
            }
            Message::CallProgress(event, backward) => {
                write!(f, "message CPG {on} {}{}", Text(event), Text(backward))
            }
            Message::Answer(restriction) => write!(f, "message ANM {on}{}", Text(restriction)),
            Message::Connect(restriction) => write!(f, "message CON {on}{}", Text(restriction)),
            Message::Release(cause) => write!(f, "message REL {on} cause {}", cause.value()),
        }
    }
}
