// Making a message.
ghost use Rattle.std.specs.Prelude.{◌≡◌};
ghost use Rattle.making.specs.Making.{backward_in, restriction_alone, initial_in, complete_in, progress_in, connected_in, release_in, message_in};
ghost use Rattle.making.specs.Parts.{Made};
ghost use Rattle.making.specs.Refusing.{or_refused};

use crate::groups::optional;
use crate::parts::{Mandatory, Optional, Parts};
use isup::message::{
    Backward, Cause, Circuit, Event, LineStatus, Message, MessageKind, Restriction, Service,
};
use numbers::number::Number;
use numbers::refusal::Refusal;

impl Optional {
    // The optional parts of an address complete or a call progress, and no others.
    fn backward(self) -> Result<Backward<Number>, Refusal>
        ensures { result ≡ or_refused (backward_in self) }
    {
        let Optional {
            redirection: None,
            may_divert,
            notice,
            restriction,
        } = self
        else {
            return Err(Refusal::OutOfRange);
        };
        Ok(Backward {
            may_divert,
            notice,
            restriction,
        })
    }

    // The restriction, if any, and no other optional part.
    fn restriction_alone(self) -> Result<Option<Restriction>, Refusal>
        ensures { result ≡ or_refused (restriction_alone self) }
    {
        let Optional {
            redirection: None,
            may_divert: false,
            notice: None,
            restriction,
        } = self
        else {
            return Err(Refusal::OutOfRange);
        };
        Ok(restriction)
    }
}

// The parts of a message whose optional parts are whole and in range.
#[derive(Clone, Copy)]
pub(crate) struct Contents {
    pub(crate) mandatory: Mandatory,
    pub(crate) optional: Optional,
}

// Each row names all the parts that it has and that it lacks: a test for 'no others' would hide which these are.
impl Contents {
    fn initial_address(self) -> Result<Message, Refusal>
        ensures { result ≡ or_refused (initial_in self.mandatory self.optional) }
    {
        let Contents {
            mandatory: Mandatory {
                service: Some(service),
                called: Some(called),
                status: None,
                event: None,
                cause: None,
            },
            optional: Optional {
                redirection,
                may_divert: false,
                notice: None,
                restriction: None,
            },
        } = self
        else {
            return Err(Refusal::OutOfRange);
        };
        let service = Service::try_from(service)?;
        Ok(Message::InitialAddress(service, called, redirection))
    }

    fn address_complete(self) -> Result<Message, Refusal>
        ensures { result ≡ or_refused (complete_in self.mandatory self.optional) }
    {
        let Mandatory {
            service: None,
            called: None,
            status: Some(status),
            event: None,
            cause: None,
        } = self.mandatory
        else {
            return Err(Refusal::OutOfRange);
        };
        let status = LineStatus::try_from(status)?;
        let parts = self.optional.backward()?;
        Ok(Message::AddressComplete(status, parts))
    }

    fn call_progress(self) -> Result<Message, Refusal>
        ensures { result ≡ or_refused (progress_in self.mandatory self.optional) }
    {
        let Mandatory {
            service: None,
            called: None,
            status: None,
            event: Some(event),
            cause: None,
        } = self.mandatory
        else {
            return Err(Refusal::OutOfRange);
        };
        let event = Event::try_from(event)?;
        let parts = self.optional.backward()?;
        Ok(Message::CallProgress(event, parts))
    }

    // What an answer or a connect carries: no mandatory part, and the restriction, if any.
    fn connected(self) -> Result<Option<Restriction>, Refusal>
        ensures { result ≡ or_refused (connected_in self.mandatory self.optional) }
    {
        let Mandatory {
            service: None,
            called: None,
            status: None,
            event: None,
            cause: None,
        } = self.mandatory
        else {
            return Err(Refusal::OutOfRange);
        };
        self.optional.restriction_alone()
    }

    fn release(self) -> Result<Message, Refusal>
        ensures { result ≡ or_refused (release_in self.mandatory self.optional) }
    {
        let Mandatory {
            service: None,
            called: None,
            status: None,
            event: None,
            cause: Some(cause),
        } = self.mandatory
        else {
            return Err(Refusal::OutOfRange);
        };
        let None = self.optional.restriction_alone()? else {
            return Err(Refusal::OutOfRange);
        };
        let cause = Cause::new(cause).ok_or(Refusal::OutOfRange)?;
        Ok(Message::Release(cause))
    }

    // The message of a type octet.
    fn message(self, kind: u8) -> Result<Message, Refusal>
        ensures { result ≡ or_refused (message_in kind self.mandatory self.optional) }
    {
        match MessageKind::try_from(kind)? {
            MessageKind::InitialAddress => self.initial_address(),
            MessageKind::AddressComplete => self.address_complete(),
            MessageKind::CallProgress => self.call_progress(),
            MessageKind::Answer => Ok(Message::Answer(self.connected()?)),
            MessageKind::Connect => Ok(Message::Connect(self.connected()?)),
            MessageKind::Release => self.release(),
        }
    }
}

// The message whose parts these are, on its circuit, or a refusal where they are the parts of none: one is out of range,
// missing, not of the message's row, or without its companions.
pub fn make_message(parts: &Parts) -> Result<(Circuit, Message), Refusal>
    ensures { Made parts.now result }
{
    let circuit = Circuit::new(parts.call, parts.leg).ok_or(Refusal::OutOfRange)?;
    let optional = optional(parts)?;
    let contents = Contents {
        mandatory: parts.mandatory,
        optional,
    };
    let message = contents.message(parts.kind)?;
    Ok((circuit, message))
}
