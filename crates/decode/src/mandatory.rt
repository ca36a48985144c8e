// Reading the mandatory part of a message, front to back.
ghost use Rattle.std.specs.Prelude.{◌≡◌, ◌+◌, ◌^◌, ◌<◌, ◌≤◌, length, Ok, Err, MatchResult, OnOk, IfOk, Result};
ghost use Rattle.std.specs.Result.{result_ok};
ghost use Rattle.isup.specs.declared.codes.UnknownCode.{UnknownCode};
ghost use Rattle.decode.specs.Faults.{or_value_fault};
ghost use Rattle.decode.specs.Messages.{octet_in, exact_in, variable_in, optional_in, tail_in};

use crate::fault::MessageFault;
use crate::optional::{Gathered, read_optional};
use crate::parameter::OptionalPart;
use isup::codes::UnknownCode;
use isup::row::Row;

// A message's octets and the place that the reader has come to. Each who reads writes the place to begin at: where a function made
// the reader, its octets were equal to the message's but not the same to the proof, and two proofs stayed open.
#[derive(Drop)]
pub(crate) struct Mandatory<'a> {
    pub(crate) octets: &'a [u8],
    pub(crate) place: usize,
}

// The content of a variable field and the place of its length octet.
#[derive(Clone, Copy)]
pub(crate) struct Field<'a> {
    pub(crate) content: &'a [u8],
    pub(crate) place: usize,
}

// `moved` and `same` stand at each method that moves: a definition of the two would take the places and the octets of both moments, and
// say it no shorter.
impl<'a> Mandatory<'a> {
    // An octet that must be there.
    pub(crate) fn octet(&mut self) -> Result<u8, MessageFault>
        ensures read { result ≡ octet_in self.old.octets.now self.old.place }
        ensures moved { OnOk result (self.new.place ≡ self.old.place + 1) }
        ensures same { self.new.octets.now ≡ self.old.octets.now }
    {
        let at = self.place;
        let octet = self.octets.get(at).ok_or(MessageFault::Missing(at))?;
        self.place = at + 1;
        Ok(*octet)
    }

    // An octet that can have one value only.
    pub(crate) fn exact(&mut self, octet: u8) -> Result<(), MessageFault>
        ensures read { result ≡ exact_in self.old.octets.now self.old.place octet }
        ensures moved { OnOk result (self.new.place ≡ self.old.place + 1) }
        ensures same { self.new.octets.now ≡ self.old.octets.now }
    {
        let at = self.place;
        if self.octet()? != octet {
            return Err(MessageFault::Value(at, None));
        }
        Ok(())
    }

    // The value that an octet is the code of.
    pub(crate) fn coded<T: TryFrom<u8, Error = UnknownCode> + Copy>(
        &mut self,
    ) -> Result<T, MessageFault>
        ensures read { MatchResult (octet_in self.old.octets.now self.old.place) (λ code. (r : Result T UnknownCode) × (T.try_from_gives code r × (result ≡ or_value_fault (result_ok r) self.old.place))) (λ f. result ≡ Err f) }
        ensures moved { OnOk result (self.new.place ≡ self.old.place + 1) }
        ensures same { self.new.octets.now ≡ self.old.octets.now }
    {
        let at = self.place;
        let code = self.octet()?;
        T::try_from(code).map_err(|_| MessageFault::Value(at, None))
    }

    // The variable field that the pointer at the place leads to; the place moves to the next pointer.
    pub(crate) fn variable(&mut self) -> Result<Field<'a>, MessageFault>
        ensures read { MatchResult result (λ v. variable_in self.old.octets.now self.old.place ≡ Ok v.content.now) (λ f. variable_in self.old.octets.now self.old.place ≡ Err f) }
        ensures place { IfOk result (λ v. v.place ≡ self.old.place + 2) }
        ensures fits { IfOk result (λ v. v.place + 1 + length v.content.now ≤ length self.old.octets.now) }
        ensures moved { OnOk result (self.new.place ≡ self.old.place + 1) }
        ensures same { self.new.octets.now ≡ self.old.octets.now }
    {
        let at = self.place;
        if self.octet()? != 2 {
            return Err(MessageFault::Pointer(at));
        }
        let place = at + 2;
        let length = self.octets.get(place).ok_or(MessageFault::Missing(place))?;
        let begin = place + 1;
        let content = self.octets.get(begin..begin + *length as usize);
        let content = content.ok_or(MessageFault::Missing(place))?;
        Ok(Field { content, place })
    }

    // The optional part, by the pointer at the place; it begins where the mandatory part ends.
    pub(crate) fn optional(&self, row: Row, end: usize) -> Result<Gathered, MessageFault>
        requires { (self.now.place < end) × (end ≤ length self.now.octets.now) }
        ensures { result ≡ optional_in row self.now.octets.now self.now.place end }
    {
        let at = self.place;
        let pointer = self.octets[at] as usize;
        if pointer == 0 {
            if end < self.octets.len() {
                return Err(MessageFault::Pointer(end));
            }
            return Ok(Gathered::default());
        }
        if pointer != end - at {
            return Err(MessageFault::Pointer(at));
        }
        read_optional(row, OptionalPart::new(self.octets, end))
    }

    // The optional part of a message without a variable field.
    pub(crate) fn tail(&self, row: Row) -> Result<Gathered, MessageFault>
        ensures { result ≡ tail_in row self.now.octets.now self.now.place }
    {
        let at = self.place;
        if at >= self.octets.len() {
            return Err(MessageFault::Missing(at));
        }
        self.optional(row, at + 1)
    }
}

impl Field<'_> {
    // The place behind the field.
    pub(crate) fn end(&self) -> usize
        requires { self.now.place + 1 + length self.now.content.now ≤ 2 ^ 63 }
        ensures { result ≡ self.now.place + 1 + length self.now.content.now }
    {
        self.place + 1 + self.content.len()
    }
}
