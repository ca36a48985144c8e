// A frame as the slot of a carrier.
ghost use Rattle.frames.specs.Frames.{envelope_of};

use super::Frame;
use carriage::question::Between;
use carriage::slot::Slot;
use isup::message::Envelope;

impl Slot for Frame {
    ghost kept = { envelope_of };

    fn of(e: &Envelope) -> Frame {
        Frame::new(e)
    }

    fn envelope(&self) -> Envelope {
        Frame::envelope(self)
    }

    // Its third and fourth octets say it; the message need not be read.
    #[tactic(auto, using(crate::proofs::Parts::frame_from, crate::proofs::Parts::frame_to))]
    fn goes(&self, ends: Between) -> bool {
        self.octets[2] == ends.from.value() && self.octets[3] == ends.to.value()
    }

    // The circuit stands in the message, which only its reader takes apart.
    fn is_of_call(&self, call: u8) -> bool {
        Frame::envelope(self).circuit.call() == call
    }
}
