// Writing messages octet for octet.
#![tactic(auto)]

ghost use Rattle.std.specs.Prelude.{◌≡◌};
ghost use Rattle.numbers.specs.Drafts.{Adds};
ghost use Rattle.isup.specs.declared.message.Message.TheVariants.{InitialAddress};
ghost use Rattle.encode.specs.Sending.{only_restriction};
ghost use Rattle.encode.specs.Writing.{body, MessageWritten};

use isup::message::{Backward, Circuit, Message, MessageKind, Redirection, Restriction, Service};
use numbers::draft::Draft;
use numbers::number::{Number, Party};
use numbers::refusal::Refusal;
use part::Part;

mod optional;
mod part;
pub mod worked;

// An initial address behind its circuit. The pointer to the optional part counts itself, the called number's length and its content.
fn draft_initial(
    service: Service,
    called: Number,
    redirection: Option<Redirection<Number>>,
    draft: &mut Draft,
)
    ensures { Adds draft.old draft.new (body (InitialAddress service called redirection)) }
{
    let called = Party::from(called);
    let len = called.content_len() as u8;
    let pointer = if redirection.is_some() { 2 + len } else { 0x00 };
    let kind = MessageKind::InitialAddress as u8;
    draft.push_all(&[kind, 0x00, 0x20, 0x01, 0x0A, service.into()]);
    draft.push_all(&[0x02, pointer, len]);
    called.draft(draft);
    // By `if let`, since the `draft` of an `Option` is lent a copy, which takes a tenth more instructions where there is none.
    if let Some(redirection) = redirection {
        redirection.draft(draft);
    }
}

// The optional parts of an answer or a connect: those of an address complete that has no others.
fn only_restriction(restriction: Option<Restriction>) -> Backward<Number>
    ensures { result ≡ only_restriction restriction }
{
    Backward {
        may_divert: false,
        notice: None,
        restriction,
    }
}

// A message behind its circuit.
impl Part for Message<Number> {
    ghost octets = { body };

    fn draft(&self, draft: &mut Draft) {
        match self {
            Message::InitialAddress(service, called, redirection) => draft_initial(
                *service,
                *called,
                *redirection,
                draft,
            ),
            Message::AddressComplete(status, backward) => {
                draft.push_all(&[MessageKind::AddressComplete as u8, (*status).into(), 0x14]);
                backward.draft(draft);
            }
            Message::CallProgress(event, backward) => {
                draft.push_all(&[MessageKind::CallProgress as u8, (*event).into()]);
                backward.draft(draft);
            }
            Message::Answer(restriction) => {
                draft.push(MessageKind::Answer as u8);
                only_restriction(*restriction).draft(draft);
            }
            Message::Connect(restriction) => {
                draft.push_all(&[MessageKind::Connect as u8, 0x04, 0x14]);
                only_restriction(*restriction).draft(draft);
            }
            Message::Release(cause) => {
                draft.push_all(&[MessageKind::Release as u8, 0x02, 0x00]);
                draft.push_all(&[2, 0x82, 0x80 | cause.value()]);
            }
        }
    }
}

// Writes the message on the circuit at the front of the memory and answers the count of its octets.
// The order of the optional parameters is open.
pub fn write(
    circuit: Circuit,
    message: &Message<Number>,
    memory: &mut [u8],
) -> Result<usize, Refusal>
    ensures { MessageWritten circuit message.now memory.old memory.new result }
{
    let mut draft = Draft::new();
    draft.push_all(&circuit.octets());
    message.draft(&mut draft);
    draft.write_to(memory)
}
