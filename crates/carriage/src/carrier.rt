// What a carrier is, and what can be done with any of them.
ghost use Rattle.std.specs.Prelude.{◌≡◌, ◌+◌, length, count_by};
ghost use Rattle.isup.specs.declared.message.Envelope.{Envelope};
ghost use Rattle.numbers.specs.declared.number.Number.{Number};
ghost use Rattle.waiting.specs.Items.{Waiting, holding, added, earliest, without_earliest};
ghost use Rattle.carriage.specs.Carried.{between, of_call, put_answer};

use super::question::Between;
use isup::message::Envelope;
use numbers::refusal::Refusal;

// A carrier means a capacity, which nothing changes, and the list of the envelopes that wait, the earliest first.
pub trait Carrier {
    ghost waiting: { Self → Waiting (Envelope Number) };

    // Adds an envelope at the end; refused exactly when as many wait as the capacity.
    fn put(&mut self, e: Envelope) -> Result<(), Refusal>
        ensures answer { result ≡ put_answer (waiting self.old) }
        ensures after { waiting self.new ≡ holding (waiting self.old) (added (waiting self.old).places (waiting self.old).items e) };

    // The earliest from one exchange to another.
    fn look(&self, ends: Between) -> Option<Envelope>
        ensures { result ≡ earliest (between ends) (waiting self.now).items };

    // Takes the earliest from one exchange to another, and nothing else.
    fn take(&mut self, ends: Between) -> Option<Envelope>
        ensures answer { result ≡ earliest (between ends) (waiting self.old).items }
        ensures after { waiting self.new ≡ holding (waiting self.old) (without_earliest (between ends) (waiting self.old).items) };

    // The free places: with those that wait they make up the capacity.
    fn free(&self) -> usize
        ensures { result + length (waiting self.now).items ≡ (waiting self.now).places };

    // How many wait for a call.
    fn waiting_for(&self, call: u8) -> usize
        ensures { result ≡ count_by (of_call call) (waiting self.now).items };
}
