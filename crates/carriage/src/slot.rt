// What an envelope is kept in while it waits, and what is asked of it there.
ghost use Rattle.std.specs.Prelude.{◌≡◌};
ghost use Rattle.isup.specs.declared.message.Envelope.{Envelope};
ghost use Rattle.numbers.specs.declared.number.Number.{Number};
ghost use Rattle.carriage.specs.Carried.{between, of_call};

use super::question::{Between, OfCall};
use isup::message::Envelope;
use waiting::Question;

// A slot means the envelope that it keeps.
pub trait Slot: Copy {
    ghost kept: { Self → Envelope Number };

    // The slot that keeps an envelope.
    fn of(e: &Envelope) -> Self
        ensures { kept result ≡ e.now };

    // The envelope that it keeps.
    fn envelope(&self) -> Envelope
        ensures { result ≡ kept self.now };

    // Does its envelope go from one exchange to another?
    fn goes(&self, ends: Between) -> bool
        ensures { result ≡ between ends (kept self.now) };

    // Is its envelope's message of a call?
    fn is_of_call(&self, call: u8) -> bool
        ensures { result ≡ of_call call (kept self.now) };
}

impl Slot for Envelope {
    ghost kept = { λ e. e };

    fn of(e: &Envelope) -> Envelope {
        *e
    }

    fn envelope(&self) -> Envelope {
        *self
    }

    fn goes(&self, ends: Between) -> bool {
        self.from == ends.from && self.to == ends.to
    }

    fn is_of_call(&self, call: u8) -> bool {
        self.circuit.call() == call
    }
}

impl<S: Slot> Question<S> for Between {
    ghost fits = { λ ends slot. between ends (S.Slot.kept slot) };

    fn asks(&self, slot: &S) -> bool {
        slot.goes(*self)
    }
}

impl<S: Slot> Question<S> for OfCall {
    ghost fits = { λ question slot. of_call question.call (S.Slot.kept slot) };

    fn asks(&self, slot: &S) -> bool {
        slot.is_of_call(self.call)
    }
}
