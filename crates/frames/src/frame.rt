// A frame: an envelope in 64 octets.
ghost use Rattle.std.specs.Prelude.{◌≡◌, true, length, is_some};
ghost use Rattle.frames.specs.Framing.{envelope_in};

pub mod framing;
mod keeping;

// The length of what follows in two octets, the high one first, then from, to, way and the message. What stands behind the
// message is open. The octets stand in the frame itself, since the owner lends its memory.
#[derive(Clone, Copy)]
pub struct Frame {
    octets: [u8; 64],
    ghost whole: { length octets ≡ 64 },
    ghost coded: { is_some (envelope_in octets) ≡ true },
}
