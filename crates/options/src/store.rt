// What an option store is.
ghost use Rattle.std.specs.Prelude.{◌≡◌, Bool, Option};
ghost use Rattle.isup.specs.declared.message.Service.{Service};
ghost use Rattle.numbers.specs.declared.number.Number.{Number};
ghost use Rattle.options.specs.declared.record.Kind.{Kind};
ghost use Rattle.options.specs.declared.record.Record.{Record};

use super::record::{Kind, Record};
use isup::message::Service;
use numbers::number::Number;

// A store means, for each number, service and kind, a record or none, and for each number whether it is withheld.
// Asking changes neither.
pub trait Store {
    ghost held: { Self → Number → Service → Kind → Option (Record Number) };

    ghost withheld: { Self → Number → Bool };

    // The three stand apart, since a store means a function of the three.
    fn record(&self, number: &Number, service: Service, kind: Kind) -> Option<Record>
        ensures { result ≡ held self.now number.now service kind };

    fn is_withheld(&self, number: &Number) -> bool
        ensures { result ≡ withheld self.now number.now };
}
