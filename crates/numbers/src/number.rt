// A telephone number: 3 to 15 digits, each 0 to 9.
ghost use Rattle.std.specs.Prelude.{◌≡◌, ℕ, ◌≤◌, length, slice_index};

pub mod comparing;
pub mod making;
pub mod reading;
pub mod writing;

// The digits stand at the front and zeros behind them, so that equal numbers are equal values.
// An array and a count, since an `ArrayVec` is not `Copy`, and numbers are copied everywhere.
#[derive(Clone, Copy, Debug)]
pub struct Number {
    digits: [u8; 15],
    count: usize,
    ghost whole: { length digits ≡ 15 },
    ghost low: { 3 ≤ count },
    ghost high: { count ≤ 15 },
    ghost each: { (k : ℕ) → slice_index digits k ≤ 9 },
    ghost rest: { (k : ℕ) → count ≤ k → slice_index digits k ≡ 0 },
}

// A number and its presentation mark: whether its holder restricted that it is presented.
#[derive(Clone, Copy, Debug, PartialEq, Eq)]
pub struct Party<N> {
    pub number: N,
    pub restricted: bool,
}

// Why octets are no number, by the number that callers know.
#[derive(Clone, Copy, Debug, PartialEq, Eq)]
pub enum NumberFault {
    // The count of digits is not 3 to 15.
    Count = 1,
    // A digit is above 9.
    Digit = 2,
    // The half octet behind an odd count of digits is not 0.
    Filler = 3,
    // The nature or the plan octet is not one that may stand here.
    NatureOrPlan = 4,
}
