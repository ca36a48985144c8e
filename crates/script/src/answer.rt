// What a line answers.
ghost use Rattle.script.specs.Answers.{answer as answer_of, answer_text, message_read_text, number_read_text, within_text};
ghost use Rattle.script.specs.Lines.{asked};
ghost use Rattle.std.specs.Prelude.{◌≡◌, Some};

use crate::display::{OnCircuit, Text};
use crate::line::Command;
use decode::fault::MessageFault;
use decode::reading::read;
use isup::message::{Circuit, Message};
use numbers::number::reading::read_number;
use numbers::number::{Number, NumberFault, Party};
use std::fmt;

type NumberRead = Result<(Party<Number>, usize), NumberFault>;

type MessageRead = Result<(Circuit, Message), MessageFault>;

// What was read, or its fault.
#[derive(Clone, Copy, Debug, PartialEq, Eq)]
pub enum Answer {
    Number(NumberRead),
    Message(MessageRead),
}

// What a line answers, if it asks for anything.
pub fn answer_to(command: &Option<Command>) -> Option<Answer>
    ensures { result ≡ answer_of (asked command.now) }
{
    Some(match command.as_ref()? {
        Command::Number {
            octets,
            may_restrict,
        } => Answer::Number(read_number(octets.as_slice(), *may_restrict)),
        Command::Read { octets } => Answer::Message(read(octets.as_slice())),
    })
}

impl fmt::Display for Text<NumberRead> {
    ghost output = { λ t. Some (number_read_text t.0) };

    fn fmt<W: fmt::Write>(&self, f: &mut fmt::Formatter<W>) -> fmt::Result {
        match self.0 {
            Ok((party, used)) => {
                let mark = if party.restricted { " restricted" } else { "" };
                write!(f, "number {} used {used}{mark}", Text(party.number))
            }
            Err(fault) => write!(f, "fault {}", fault.number()),
        }
    }
}

impl fmt::Display for Text<Option<NumberFault>> {
    ghost output = { λ t. Some (within_text t.0) };

    fn fmt<W: fmt::Write>(&self, f: &mut fmt::Formatter<W>) -> fmt::Result {
        let Some(fault) = self.0 else {
            return Ok(());
        };
        write!(f, " number {}", fault.number())
    }
}

impl fmt::Display for Text<MessageRead> {
    ghost output = { λ t. Some (message_read_text t.0) };

    fn fmt<W: fmt::Write>(&self, f: &mut fmt::Formatter<W>) -> fmt::Result {
        match self.0 {
            Ok((circuit, message)) => OnCircuit { circuit, message }.fmt(f),
            Err(fault) => write!(
                f,
                "fault {} at {}{}",
                fault.number(),
                fault.place(),
                Text(fault.within())
            ),
        }
    }
}

impl fmt::Display for Answer {
    ghost output = { λ a. Some (answer_text a) };

    fn fmt<W: fmt::Write>(&self, f: &mut fmt::Formatter<W>) -> fmt::Result {
        match self {
            Answer::Number(read) => Text(*read).fmt(f),
            Answer::Message(read) => Text(*read).fmt(f),
        }
    }
}
