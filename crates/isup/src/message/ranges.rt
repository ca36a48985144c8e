// Values of the types that have a range.
ghost use Rattle.std.specs.Prelude.{◌≡◌, ◌≤◌};
ghost use Rattle.isup.specs.Ranges.{in_range, circuit_in, circuit_from, circuit_octets};

use super::{Circuit, Ranged};

impl<const LOW: u8, const HIGH: u8> Ranged<LOW, HIGH> {
    // The number, if it is in the range. As the library's NonZeroU8 has `new` and no TryFrom: with it each use would name the type
    // of the error that it throws away.
    pub fn new(value: u8) -> Option<Ranged<LOW, HIGH>>
        ensures { result ≡ in_range LOW HIGH value }
    {
        if value < LOW || value > HIGH {
            return None;
        }
        Some(Ranged { value })
    }

    pub fn value(self) -> u8
        ensures is { result ≡ self.entry.value }
        ensures bound { result ≤ HIGH }
    {
        self.value
    }
}

impl Circuit {
    // The circuit of a call and a leg, if both are in range. As `Ranged::new`.
    pub fn new(call: u8, leg: u8) -> Option<Circuit>
        ensures { result ≡ circuit_in call leg }
    {
        if call > 63 || leg > 5 {
            return None;
        }
        Some(Circuit { call, leg })
    }

    // The circuit that two octets are worth, the low one first.
    // No TryFrom: a pair of octets does not say which is the low one.
    pub fn from_octets(low: u8, high: u8) -> Option<Circuit>
        ensures { result ≡ circuit_from low high }
    {
        let value = u16::from_le_bytes([low, high]);
        if value > 511 {
            return None;
        }
        Circuit::new((value >> 3) as u8, (value & 0x07) as u8)
    }

    // Its two octets, the low one first.
    pub fn octets(self) -> [u8; 2]
        ensures { result ≡ circuit_octets self }
    {
        (self.call as u16 * 8 + self.leg as u16).to_le_bytes()
    }

    pub fn call(self) -> u8
        ensures is { result ≡ self.call }
        ensures bound { result ≤ 63 }
    {
        self.call
    }

    pub fn leg(self) -> u8
        ensures is { result ≡ self.leg }
        ensures bound { result ≤ 5 }
    {
        self.leg
    }
}
