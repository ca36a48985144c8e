// Adding to a draft, and writing it out.
ghost use Rattle.std.specs.Prelude.{◌≡◌, [], ◌∷◌};
ghost use Rattle.numbers.specs.Drafts.{drafted, Adds, Written};

use super::Draft;
use crate::refusal::Refusal;

impl Draft {
    pub fn new() -> Draft
        ensures { drafted result ≡ [] }
    {
        Draft {
            octets: [0; 64],
            len: 0,
        }
    }

    // One octet more.
    pub fn push(&mut self, octet: u8)
        ensures { Adds self.old self.new (octet ∷ []) }
    {
        let at = self.len;
        if at < 64 {
            self.octets[at] = octet;
            self.len = at + 1;
        }
    }

    // Some octets more. One by one, since most are few: a copy of the slice takes a quarter more instructions.
    pub fn push_all(&mut self, octets: &[u8])
        ensures { Adds self.old self.new octets.now }
    {
        for octet in octets {
            self.push(*octet);
        }
    }

    // Writes the draft at the front of the memory and answers the count of its octets.
    pub fn write_to(&self, memory: &mut [u8]) -> Result<usize, Refusal>
        ensures { Written (drafted self.now) memory.old memory.new result }
    {
        let len = self.len;
        if memory.len() < len {
            return Err(Refusal::TooShort);
        }
        memory[..len].copy_from_slice(&self.octets[..len]);
        Ok(len)
    }
}
