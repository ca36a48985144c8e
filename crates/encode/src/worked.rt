// Values that are worked out by hand, and that the definitions give again.
ghost use Rattle.std.specs.Prelude.{◌≡◌, false, [], ◌∷◌, Err};
ghost use Rattle.numbers.specs.declared.number.NumberFault.TheVariants.{Filler};
ghost use Rattle.numbers.specs.Digits.{plain, number_of};
ghost use Rattle.numbers.specs.Reading.{read_number, number_fault_number};
ghost use Rattle.isup.specs.Ranges.{circuit_of};
ghost use Rattle.isup.specs.Coding.{Coded};
ghost use Rattle.encode.specs.Writing.{written};
ghost use Rattle.encode.specs.Worked.{opening, opening_octets};

// The contents of 4012 and of 40123, the fault of a filler that is not 0, and the octets of an opening.
pub fn worked_values()
    ensures even { plain (number_of (4 ∷ 0 ∷ 1 ∷ 2 ∷ [])) ≡ 0x03 ∷ 0x10 ∷ 0x04 ∷ 0x21 ∷ [] }
    ensures odd { plain (number_of (4 ∷ 0 ∷ 1 ∷ 2 ∷ 3 ∷ [])) ≡ 0x83 ∷ 0x10 ∷ 0x04 ∷ 0x21 ∷ 0x03 ∷ [] }
    ensures fault { read_number false (0x83 ∷ 0x10 ∷ 0x04 ∷ 0x21 ∷ 0x13 ∷ []) ≡ Err Filler }
    ensures number { number_fault_number Filler ≡ 3 }
    ensures coded { Coded (circuit_of 0 0) opening opening_octets }
    ensures same { written (circuit_of 0 0) opening ≡ opening_octets }
{}
