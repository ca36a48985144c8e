// The reader of the optional part: it goes through the message's own octets, one parameter after another.
ghost use Rattle.std.specs.Prelude.{◌≡◌, ◌<◌, ◌≤◌, length, OnOk};
ghost use Rattle.decode.specs.Parameters.{part_of, step_of, step_at, after, InItsCase, AllInTheirCase};

use crate::fault::MessageFault;
use isup::codes::UnknownCode;
use isup::row::ParameterName;

// A parameter: its content, a part of the message's octets, and the place of its name. Each case holds the two by itself, so that
// whoever takes a case apart has them at hand.
#[derive(Clone, Copy)]
pub enum OptionalParameter<'a> {
    Redirecting(&'a [u8], usize),
    Original(&'a [u8], usize),
    Information(&'a [u8], usize),
    MayDivert(&'a [u8], usize),
    Announced(&'a [u8], usize),
    Diversion(&'a [u8], usize),
    Redirection(&'a [u8], usize),
    Restriction(&'a [u8], usize),
    // A name that no message knows. That `next` puts no other here is its promise and no invariant of a type for such names:
    // anyone may make a value of any name, and a narrower type would ask more of those who do.
    Foreign(u8, &'a [u8], usize),
}

impl<'a> OptionalParameter<'a> {
    pub fn name(&self) -> u8
        ensures { result ≡ (part_of self.now).name }
    {
        match *self {
            OptionalParameter::Redirecting(..) => ParameterName::Redirecting.into(),
            OptionalParameter::Original(..) => ParameterName::Original.into(),
            OptionalParameter::Information(..) => ParameterName::Information.into(),
            OptionalParameter::MayDivert(..) => ParameterName::MayDivert.into(),
            OptionalParameter::Announced(..) => ParameterName::Announced.into(),
            OptionalParameter::Diversion(..) => ParameterName::Diversion.into(),
            OptionalParameter::Redirection(..) => ParameterName::Redirection.into(),
            OptionalParameter::Restriction(..) => ParameterName::Restriction.into(),
            OptionalParameter::Foreign(name, _, _) => name,
        }
    }

    pub fn place(&self) -> usize
        ensures { result ≡ (part_of self.now).place }
    {
        match *self {
            OptionalParameter::Redirecting(_, at)
            | OptionalParameter::Original(_, at)
            | OptionalParameter::Information(_, at)
            | OptionalParameter::MayDivert(_, at)
            | OptionalParameter::Announced(_, at)
            | OptionalParameter::Diversion(_, at)
            | OptionalParameter::Redirection(_, at)
            | OptionalParameter::Restriction(_, at)
            | OptionalParameter::Foreign(_, _, at) => at,
        }
    }
}

// The case of a name.
fn named<'a>(name: u8, content: &'a [u8], at: usize) -> OptionalParameter<'a>
    ensures name { (part_of result).name ≡ name }
    ensures content { (part_of result).content ≡ content.now }
    ensures place { (part_of result).place ≡ at }
    ensures known { InItsCase result }
{
    match ParameterName::try_from(name) {
        Ok(ParameterName::Redirecting) => OptionalParameter::Redirecting(content, at),
        Ok(ParameterName::Original) => OptionalParameter::Original(content, at),
        Ok(ParameterName::Information) => OptionalParameter::Information(content, at),
        Ok(ParameterName::MayDivert) => OptionalParameter::MayDivert(content, at),
        Ok(ParameterName::Announced) => OptionalParameter::Announced(content, at),
        Ok(ParameterName::Diversion) => OptionalParameter::Diversion(content, at),
        Ok(ParameterName::Redirection) => OptionalParameter::Redirection(content, at),
        Ok(ParameterName::Restriction) => OptionalParameter::Restriction(content, at),
        Err(UnknownCode(other)) => OptionalParameter::Foreign(other, content, at),
    }
}

// A message's octets and the place that the reader has come to.
#[derive(Drop)]
pub struct OptionalPart<'a> {
    octets: &'a [u8],
    place: usize,
}

impl<'a> OptionalPart<'a> {
    pub fn new(octets: &'a [u8], place: usize) -> OptionalPart<'a>
        ensures { (result.octets.now ≡ octets.now) × (result.place ≡ place) }
    {
        OptionalPart { octets, place }
    }

    // The parameter at the place, or none at the closing 00, and moves behind it; a fault moves nothing.
    pub fn next(&mut self) -> Result<Option<OptionalParameter<'a>>, MessageFault>
        ensures answer { step_of result ≡ step_at self.old.octets.now self.old.place }
        ensures known { AllInTheirCase result }
        ensures moved { self.new.place ≡ after (step_at self.old.octets.now self.old.place) self.old.place }
        ensures within { self.old.place ≤ length self.old.octets.now → self.new.place ≤ length self.old.octets.now }
        ensures onward { OnOk result (self.old.place < self.new.place) }
        ensures same { self.new.octets.now ≡ self.old.octets.now }
    {
        let at = self.place;
        let left = self.octets.get(at..).ok_or(MessageFault::Optional(at))?;
        match left {
            [0] => {
                self.place = at + 1;
                Ok(None)
            }
            [0, ..] => Err(MessageFault::Optional(at)),
            [name, length, rest @ ..] => {
                let n = *length as usize;
                let content = rest.get(..n).ok_or(MessageFault::Optional(at))?;
                self.place = at + 2 + n;
                Ok(Some(named(*name, content, at)))
            }
            _ => Err(MessageFault::Optional(at)),
        }
    }
}
