// Writing the content octets of a number.
ghost use Rattle.std.specs.Prelude.{◌≡◌, ℕ, ◌<◌, ◌≤◌, [], ◌∷◌, length, slice_index};
ghost use Rattle.numbers.specs.Digits.{pack, content};
ghost use Rattle.numbers.specs.Drafts.{Adds, Written};

use super::{Number, Party};
use crate::draft::Draft;
use crate::refusal::Refusal;

// Adds digits to a draft, two to an octet, the earlier in the low half; one that is left is filled with 0.
// By slice patterns in a loop: a `while let` takes about a tenth more instructions, and `chunks(2)` more still.
fn draft_digits(digits: &[u8], draft: &mut Draft)
    requires { (k : ℕ) → slice_index digits.now k ≤ 9 }
    ensures { Adds draft.old draft.new (pack digits.now) }
{
    let mut left = digits;
    loop {
        match left {
            [low, high, rest @ ..] => {
                draft.push((high << 4) | low);
                left = rest;
            }
            [last] => {
                draft.push(*last);
                return;
            }
            [] => return,
        }
    }
}

impl Party<Number> {
    // How many octets the content takes.
    pub fn content_len(&self) -> usize
        ensures count { result ≡ length (content self.now) }
        ensures bound { result ≤ 10 }
    {
        2 + (self.number.digits().len() + 1) / 2
    }

    // Adds the content to a draft.
    pub fn draft(&self, draft: &mut Draft)
        ensures { Adds draft.old draft.new (content self.now) }
    {
        let digits = self.number.digits();
        let nature = if digits.len() % 2 == 1 { 0x83 } else { 0x03 };
        let plan = if self.restricted { 0x14 } else { 0x10 };
        draft.push_all(&[nature, plan]);
        draft_digits(digits, draft);
    }
}

// Writes the content at the front of the memory and answers the count of its octets.
pub fn write_number(party: &Party<Number>, memory: &mut [u8]) -> Result<usize, Refusal>
    ensures { Written (content party.now) memory.old memory.new result }
{
    let mut draft = Draft::new();
    party.draft(&mut draft);
    draft.write_to(memory)
}
