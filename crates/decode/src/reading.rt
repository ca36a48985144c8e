// Reading a message, front to back.
ghost use Rattle.std.specs.Prelude.{◌≡◌, ◌≤◌, length};
ghost use Rattle.decode.specs.Messages.{redirection_in, notice_in, service_in, backward_of, initial_address_in, address_complete_in, call_progress_in, answer_in, connect_in, release_in, message_in, read_message};
ghost use Rattle.decode.specs.Reading.{ReadAsCoded, EveryCodingIsRead, OnlyCodingsAreRead, OneMessageToACoding};

use crate::fault::MessageFault;
use crate::mandatory::Mandatory;
use crate::optional::{Gathered, party};
use crate::values::cause;
use isup::groups::all_or_none;
use isup::message::{
    Backward, Circuit, Event, LineStatus, Message, MessageKind, Notice, Redirection, Service,
};
use isup::row::Row;
use numbers::number::Number;

// 0B, 28 and 13: all or none. The length is the place of the fault, here and in `notice`.
fn redirection(g: &Gathered, length: usize) -> Result<Option<Redirection<Number>>, MessageFault>
    ensures { result ≡ redirection_in g.now length }
{
    let group = all_or_none(g.redirecting, g.original, g.information);
    let group = group.map_err(|_| MessageFault::Group(length))?;
    // By `else`, since a `map` costs the copy of a group (some 40 instructions) more, and reading is the slower half.
    let Some((redirecting, original, information)) = group else {
        return Ok(None);
    };
    Ok(Some(Redirection {
        redirecting,
        original,
        information,
    }))
}

// 2C, 36 and 0C: all or none.
fn notice(g: &Gathered, length: usize) -> Result<Option<Notice<Number>>, MessageFault>
    ensures { result ≡ notice_in g.now length }
{
    let group = all_or_none(g.announced.then_some(()), g.diversion, g.redirection);
    let group = group.map_err(|_| MessageFault::Group(length))?;
    // By `else`, as above.
    let Some((_, information, number)) = group else {
        return Ok(None);
    };
    Ok(Some(Notice {
        information,
        number,
    }))
}

// The fixed octets of an initial address.
fn service(octets: &[u8]) -> Result<Service, MessageFault>
    ensures { result ≡ service_in octets.now }
{
    let mut m = Mandatory { octets, place: 3 };
    m.exact(0x00)?;
    m.exact(0x20)?;
    m.exact(0x01)?;
    m.exact(0x0A)?;
    m.coded()
}

fn initial_address(octets: &[u8]) -> Result<Message, MessageFault>
    ensures { result ≡ initial_address_in octets.now }
{
    let service = service(octets)?;
    let mut m = Mandatory { octets, place: 8 };
    let field = m.variable()?;
    let called = party(field.content, false, field.place)?;
    let g = m.optional(Row::Initial, field.end())?;
    let redirection = redirection(&g, octets.len())?;
    Ok(Message::InitialAddress(service, called.number, redirection))
}

// The optional parts of an address complete and of a call progress.
fn backward(g: &Gathered, length: usize) -> Result<Backward<Number>, MessageFault>
    ensures { result ≡ backward_of g.now length }
{
    let notice = notice(g, length)?;
    Ok(Backward {
        may_divert: g.may_divert,
        notice,
        restriction: g.restriction,
    })
}

fn address_complete(octets: &[u8]) -> Result<Message, MessageFault>
    ensures { result ≡ address_complete_in octets.now }
{
    let mut m = Mandatory { octets, place: 3 };
    let status: LineStatus = m.coded()?;
    m.exact(0x14)?;
    let g = m.tail(Row::Backward)?;
    let back = backward(&g, octets.len())?;
    Ok(Message::AddressComplete(status, back))
}

fn call_progress(octets: &[u8]) -> Result<Message, MessageFault>
    ensures { result ≡ call_progress_in octets.now }
{
    let mut m = Mandatory { octets, place: 3 };
    let event: Event = m.coded()?;
    let g = m.tail(Row::Backward)?;
    let back = backward(&g, octets.len())?;
    Ok(Message::CallProgress(event, back))
}

fn answer(octets: &[u8]) -> Result<Message, MessageFault>
    ensures { result ≡ answer_in octets.now }
{
    let g = Mandatory { octets, place: 3 }.tail(Row::Connected)?;
    Ok(Message::Answer(g.restriction))
}

fn connect(octets: &[u8]) -> Result<Message, MessageFault>
    ensures { result ≡ connect_in octets.now }
{
    let mut m = Mandatory { octets, place: 3 };
    m.exact(0x04)?;
    m.exact(0x14)?;
    let g = m.tail(Row::Connected)?;
    Ok(Message::Connect(g.restriction))
}

fn release(octets: &[u8]) -> Result<Message, MessageFault>
    ensures { result ≡ release_in octets.now }
{
    let mut m = Mandatory { octets, place: 3 };
    let field = m.variable()?;
    let cause = cause(field.content).ok_or(MessageFault::Value(field.place, None))?;
    let _ = m.optional(Row::Bare, field.end())?;
    Ok(Message::Release(cause))
}

// The message of the type octet. Where it is inlined each message is copied once more.
#[inline(never)]
fn message(octets: &[u8]) -> Result<Message, MessageFault>
    requires { 3 ≤ length octets.now }
    ensures { result ≡ message_in octets.now }
{
    let kind = MessageKind::try_from(octets[2]).map_err(|_| MessageFault::Kind)?;
    match kind {
        MessageKind::InitialAddress => initial_address(octets),
        MessageKind::AddressComplete => address_complete(octets),
        MessageKind::CallProgress => call_progress(octets),
        MessageKind::Answer => answer(octets),
        MessageKind::Connect => connect(octets),
        MessageKind::Release => release(octets),
    }
}

// The length, the circuit, and the message of the type octet. Apart from `read`, whose second clause then follows from the first.
fn front_to_back(octets: &[u8]) -> Result<(Circuit, Message), MessageFault>
    ensures { result ≡ read_message octets.now }
{
    if octets.len() < 3 || octets.len() > 255 {
        return Err(MessageFault::Length);
    }
    let circuit = Circuit::from_octets(octets[0], octets[1]).ok_or(MessageFault::Value(0, None))?;
    let message = message(octets)?;
    Ok((circuit, message))
}

// Reads a message with its circuit, or answers the first fault. Octets are accepted exactly where they are a coding of some
// message, and it is that message that is answered.
pub fn read(octets: &[u8]) -> Result<(Circuit, Message), MessageFault>
    ensures answer { result ≡ read_message octets.now }
    ensures coded { ReadAsCoded octets.now result }
{
    front_to_back(octets)
}

// What the definition of reading is worth: it reads every coding as its message and nothing else, and so no string of octets
// codes two messages.
pub fn codings_are_read_as_their_messages()
    ensures every { EveryCodingIsRead }
    ensures only { OnlyCodingsAreRead }
    ensures one { OneMessageToACoding }
{}
