// Making a number from its digits.
ghost use Rattle.std.specs.Prelude.{◌≡◌, false, MatchResult};
ghost use Rattle.numbers.specs.declared.refusal.Refusal.TheVariants.{OutOfRange};
ghost use Rattle.numbers.specs.Digits.{digits_of, Lawful};
ghost use Rattle.numbers.specs.Reading.{EqualDigitsEqualNumbers};

use super::{Number, Party};
use crate::refusal::Refusal;

impl TryFrom<&[u8]> for Number {
    type Error = Refusal;

    ghost try_from_gives = { λ digits r. MatchResult r (λ n. digits_of n ≡ digits.now) (λ e. (e ≡ OutOfRange) × (Lawful digits.now → ⊥)) };

    // The number with exactly these digits, or a refusal where they are not 3 to 15 digits from 0 to 9.
    fn try_from(digits: &[u8]) -> Result<Number, Refusal> {
        let count = digits.len();
        if count < 3 || count > 15 || digits.iter().any(|digit| *digit > 9) {
            return Err(Refusal::OutOfRange);
        }
        let mut all = [0; 15];
        all[..count].copy_from_slice(digits);
        Ok(Number { digits: all, count })
    }
}

impl Number {
    // The number with exactly these digits, or a refusal where they are not 3 to 15 digits from 0 to 9.
    // Beside `TryFrom`, since it takes digits that stand in an array as they are: `from_digits(&[4, 0, 1, 2])`.
    pub fn from_digits(digits: &[u8]) -> Result<Number, Refusal>
        ensures { MatchResult result (λ n. digits_of n ≡ digits.now) (λ e. (e ≡ OutOfRange) × (Lawful digits.now → ⊥)) }
    {
        Number::try_from(digits)
    }

    // The digits, first to last.
    pub fn digits(&self) -> &[u8]
        ensures { result.now ≡ digits_of self.now }
    {
        &self.digits[..self.count]
    }
}

// A number that carries no mark: nothing restricts that it is presented.
impl From<Number> for Party<Number> {
    ghost from_gives = { λ number party. party ≡ record { number = number; restricted = false } };

    fn from(number: Number) -> Party<Number> {
        Party {
            number,
            restricted: false,
        }
    }
}

// Two numbers with the same digits are the same value.
pub fn equal_digits_are_equal_numbers()
    ensures { EqualDigitsEqualNumbers }
{}
