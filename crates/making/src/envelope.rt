// Making an envelope.
ghost use Rattle.making.specs.Parts.{EnvelopeMade};

use isup::message::{Circuit, Envelope, Exchange, Message, Way};
use numbers::refusal::Refusal;

// The envelope of a message from one exchange to another, or a refusal where an exchange is not 0 to 7 or the way not 0 or 1.
// Exchanges and way are numbers here, since they are what is judged.
pub fn make_envelope(
    from: u8,
    to: u8,
    way: u8,
    circuit: Circuit,
    message: Message,
) -> Result<Envelope, Refusal>
    ensures { EnvelopeMade from to way circuit message result }
{
    let from = Exchange::new(from).ok_or(Refusal::OutOfRange)?;
    let to = Exchange::new(to).ok_or(Refusal::OutOfRange)?;
    let way = Way::try_from(way)?;
    Ok(Envelope {
        from,
        to,
        way,
        circuit,
        message,
    })
}
