// Reading the content octets of a number.
ghost use Rattle.std.specs.Prelude.{◌≡◌, ℕ, ◌+◌, ◌*◌, ◌≤◌, length, slice_index};
ghost use Rattle.numbers.specs.Reading.{number_fault_number, unpack, read_digits, read_number, NumbersAreReadAsCoded, OneNumberToACoding};

use super::{Number, NumberFault, Party};

impl NumberFault {
    // The number by which callers know the fault. A method and no `From`: its name says which number that is.
    pub fn number(self) -> u8
        ensures { result ≡ number_fault_number self }
    {
        self as u8
    }
}

// The halves of at most 8 octets, with zeros behind them: the earlier of two stands in the low half.
fn halves(octets: &[u8]) -> [u8; 16]
    requires { length octets.now ≤ 8 }
    ensures len { length result ≡ 16 }
    ensures each { (k : ℕ) → slice_index result k ≡ slice_index (unpack octets.now) k }
{
    let mut halves = [0; 16];
    // By places: a pair that `chunks_mut` lends has to be matched by a pattern with an arm for other lengths.
    for (k, octet) in octets.iter().enumerate() {
        halves[2 * k] = octet & 0x0F;
        halves[2 * k + 1] = octet >> 4;
    }
    halves
}

// The digits, then the filler behind an odd count of them.
fn digits_and_filler(
    octets: &[u8],
    restricted: bool,
    count: usize,
) -> Result<(Party<Number>, usize), NumberFault>
    requires { (3 ≤ count) × ((count ≤ 15) × ((count ≤ 2 * length octets.now) × (2 * length octets.now ≤ count + 1))) }
    ensures { result ≡ read_digits restricted count octets.now }
{
    let halves = halves(octets);
    // By `else`: with `map_err` and `?` a goal stayed open.
    let Ok(number) = Number::try_from(&halves[..count]) else {
        return Err(NumberFault::Digit);
    };
    if halves[count] != 0 {
        return Err(NumberFault::Filler);
    }
    Ok((Party { number, restricted }, octets.len()))
}

// Reads a number's content, told whether it may be restricted: the number under its mark and how many octets held digits.
// The pair and the bool are as those who read write them: a type of its own for either would be taken apart at once.
pub fn read_number(octets: &[u8], may_restrict: bool) -> Result<(Party<Number>, usize), NumberFault>
    ensures { result ≡ read_number may_restrict octets.now }
{
    let [nature, plan, digits @ ..] = octets else {
        return Err(NumberFault::Count);
    };
    let odd = if *nature >= 0x80 { 1 } else { 0 };
    let count = (2 * digits.len()).saturating_sub(odd);
    if count < 3 || count > 15 {
        return Err(NumberFault::Count);
    }
    if *nature != 0x03 && *nature != 0x83 {
        return Err(NumberFault::NatureOrPlan);
    }
    match *plan {
        0x10 => digits_and_filler(digits, false, count),
        0x14 if may_restrict => digits_and_filler(digits, true, count),
        _ => Err(NumberFault::NatureOrPlan),
    }
}

// Octets are accepted exactly where they are the content of a number, and it is that number that is answered.
pub fn numbers_are_read_as_coded()
    ensures read { NumbersAreReadAsCoded }
    ensures one { OneNumberToACoding }
{}
