// Envelopes made into frames and read from them.
ghost use Rattle.std.specs.Prelude.{◌≡◌, Some};
ghost use Rattle.frames.specs.Frames.{envelope_of};
ghost use Rattle.frames.specs.Framing.{envelope_in};

use super::Frame;
use decode::reading::read;
use encode::write;
use isup::message::{Envelope, Exchange, Way};

// The envelope that octets are the frame of, if they are one.
fn envelope_in(octets: &[u8]) -> Option<Envelope>
    ensures { result ≡ envelope_in octets.now }
{
    let [high, low, from, to, way, rest @ ..] = octets else {
        return None;
    };
    let from = Exchange::new(*from)?;
    let to = Exchange::new(*to)?;
    let way = Way::try_from(*way).ok()?;
    // From, to and way are three of the octets that follow the length.
    let size = (u16::from_be_bytes([*high, *low]) as usize).checked_sub(3)?;
    let (circuit, message) = read(rest.get(..size)?).ok()?;
    Some(Envelope {
        from,
        to,
        way,
        circuit,
        message,
    })
}

// The octets of an envelope's frame. No message has more than 50, so there is always room.
fn octets_of(e: &Envelope) -> [u8; 64]
    ensures { envelope_in result ≡ Some e.now }
{
    let mut octets = [0; 64];
    let size = write(e.circuit, &e.message, &mut octets[5..]).unwrap();
    let [high, low] = (3 + size as u16).to_be_bytes();
    octets[..5].copy_from_slice(&[high, low, e.from.value(), e.to.value(), u8::from(e.way)]);
    octets
}

impl Frame {
    // The frame of an envelope.
    pub fn new(e: &Envelope) -> Frame
        ensures reads { envelope_in result.octets ≡ Some e.now }
        ensures holds { envelope_of result ≡ e.now }
    {
        Frame {
            octets: octets_of(e),
        }
    }

    // The envelope that the frame holds.
    pub fn envelope(&self) -> Envelope
        ensures reads { envelope_in self.now.octets ≡ Some result }
        ensures holds { result ≡ envelope_of self.now }
    {
        envelope_in(&self.octets).unwrap()
    }
}
