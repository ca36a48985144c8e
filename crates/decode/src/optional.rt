// What the optional part of a message says.
ghost use Rattle.std.specs.Prelude.{◌≡◌, ◌≤◌, length, MatchResult, OnErr, Ok, Err};
ghost use Rattle.numbers.specs.Reading.{read_number};
ghost use Rattle.decode.specs.Parameters.{part_of, InItsCase};
ghost use Rattle.decode.specs.Optional.{number_at, value_of, add_of, end_of, optional_from};

use crate::fault::{FaultAt, MessageFault};
use crate::parameter::{OptionalParameter, OptionalPart};
use crate::values::{diversion, information, restriction};
use isup::message::{DiversionInformation, RedirectionInformation, Restriction};
use isup::row::Row;
use numbers::number::reading::read_number;
use numbers::number::{Number, Party};

// The values of the parameters.
#[derive(Clone, Copy, Default)]
pub(crate) struct Gathered {
    pub redirecting: Option<Party<Number>>,
    pub original: Option<Party<Number>>,
    pub information: Option<RedirectionInformation>,
    // 29 and 2C say no more than that they are there.
    pub may_divert: bool,
    pub announced: bool,
    pub diversion: Option<DiversionInformation>,
    pub redirection: Option<Number>,
    pub restriction: Option<Restriction>,
}

// What one walk over the parameters has come to: their values up to the first fault among them, and the first name met again.
#[derive(Clone, Copy, Default)]
pub(crate) struct Walk {
    pub gathered: Gathered,
    pub fault: Option<MessageFault>,
    pub again: Option<usize>,
}

impl Gathered {
    // Takes the value of one parameter beside those of others; a fault changes nothing.
    fn gather(&mut self, p: OptionalParameter) -> Result<(), MessageFault>
        requires { InItsCase p }
        ensures value { MatchResult result (λ _. value_of self.old (part_of p.entry) ≡ Ok self.new) (λ f. value_of self.old (part_of p.entry) ≡ Err f) }
        ensures same { OnErr result (self.new ≡ self.old) }
    {
        let fault = MessageFault::Value(p.place(), None);
        match p {
            OptionalParameter::Redirecting(content, at) => {
                self.redirecting = Some(party(content, true, at)?);
            }
            OptionalParameter::Original(content, at) => {
                self.original = Some(party(content, true, at)?);
            }
            OptionalParameter::Information(content, _) => {
                self.information = Some(information(content).ok_or(fault)?);
            }
            OptionalParameter::MayDivert([0x02], _) => self.may_divert = true,
            OptionalParameter::Announced([0xFB], _) => self.announced = true,
            OptionalParameter::MayDivert(..) | OptionalParameter::Announced(..) => {
                return Err(fault);
            }
            OptionalParameter::Diversion(content, _) => {
                self.diversion = Some(diversion(content).ok_or(fault)?);
            }
            OptionalParameter::Redirection(content, at) => {
                self.redirection = Some(party(content, false, at)?.number);
            }
            OptionalParameter::Restriction(content, _) => {
                self.restriction = Some(restriction(content).ok_or(fault)?);
            }
            OptionalParameter::Foreign(..) => {}
        }
        Ok(())
    }
}

impl Walk {
    // Goes over one parameter more of the row, told whether its name was met before. Where it is inlined the walk is kept in
    // registers and moved about, which takes a tenth more instructions.
    #[inline(never)]
    fn add(&mut self, p: OptionalParameter, met: bool)
        requires { InItsCase p }
        ensures { self.new ≡ add_of self.old (part_of p.entry) met }
    {
        if met {
            self.again = self.again.or(Some(p.place()));
        } else if self.fault.is_none() {
            self.fault = self.gathered.gather(p).err();
        }
    }

    // What the walk found: a name met again comes before a fault of a value.
    fn end(self) -> Result<Gathered, MessageFault>
        ensures { result ≡ end_of self }
    {
        if let Some(place) = self.again {
            return Err(MessageFault::Repeated(place));
        }
        if let Some(fault) = self.fault {
            return Err(fault);
        }
        Ok(self.gathered)
    }
}

// The number at a place, under its mark, told as `read_number` is whether it may be restricted.
pub(crate) fn party(
    content: &[u8],
    may_restrict: bool,
    at: usize,
) -> Result<Party<Number>, MessageFault>
    ensures { result ≡ number_at at (read_number may_restrict content.now) }
{
    let read = read_number(content, may_restrict).map_err(|fault| FaultAt { place: at, fault });
    let (party, _) = read?;
    Ok(party)
}

// Reads what is left of the optional part in one walk: faults of its structure come first, then names met again, then values.
pub(crate) fn read_optional(row: Row, mut part: OptionalPart) -> Result<Gathered, MessageFault>
    requires { part.place ≤ length part.octets.now }
    ensures { result ≡ optional_from row part.entry.octets.now part.entry.place }
{
    let mut met = [false; 256];
    let mut walk = Walk::default();
    // No `for`, since `next` may fault and `?` ends the walk there.
    while let Some(p) = part.next()? {
        let name = p.name();
        if row.has(name) {
            walk.add(p, met[name as usize]);
            met[name as usize] = true;
        }
    }
    walk.end()
}
