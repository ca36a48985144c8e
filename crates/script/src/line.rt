// One line of a script.
ghost use Rattle.script.specs.Lines.{Gives, asked, command, meaning};
ghost use Rattle.script.specs.Texts.{error_text};
ghost use Rattle.std.specs.Prelude.{◌≡◌, map, Some};
ghost use Rattle.script.specs.declared.line.LineError.TheVariants.{Memory as memory};

use crate::words::{octets, words};
use std::alloc::{AllocError, AllocFailed, Global};
use std::fmt;

// What a line asks for.
#[derive(Debug, PartialEq, Eq, Drop)]
pub enum Command {
    // read a number's content; whether it may be restricted is a bool, as the reader of numbers takes it
    Number { octets: Vec<u8>, may_restrict: bool },
    // read a message
    Read { octets: Vec<u8> },
}

// Why a line is none of the script's.
#[derive(Clone, Copy, Debug, PartialEq, Eq)]
pub enum LineError<'a> {
    UnknownWord(&'a str),
    OctetsMissing,
    NotOctets(&'a str),
    Memory,
}

// A derived Display would say nothing of the text, which the transcript's contract needs.
impl fmt::Display for LineError<'_> {
    ghost output = { λ e. Some (error_text e) };

    fn fmt<W: fmt::Write>(&self, f: &mut fmt::Formatter<W>) -> fmt::Result {
        match *self {
            LineError::UnknownWord(word) => write!(f, "unknown word {word}"),
            LineError::OctetsMissing => f.write_str("octets missing"),
            LineError::NotOctets(word) => write!(
                f,
                "octets are pairs of hexadecimal digits: {word}"
            ),
            LineError::Memory => f.write_str("memory is wanting"),
        }
    }
}

// Collecting the words fails with the one error of memory, pushing an octet with the other.
impl From<AllocError> for LineError<'_> {
    ghost from_gives = { λ _ r. r ≡ memory };

    fn from(_e: AllocError) -> Self {
        LineError::Memory
    }
}

impl<T: Drop> From<AllocFailed<T>> for LineError<'_> {
    ghost from_gives = { λ _ r. r ≡ memory };

    fn from(_e: AllocFailed<T>) -> Self {
        LineError::Memory
    }
}

// What a line with words asks for.
fn command_of<'a>(heap: Global, first: &'a str, more: &[&'a str]) -> Result<Command, LineError<'a>>
    ensures { Gives (λ c. asked (Some c)) result (command first.now (map (λ w. w.now) more.now)) }
{
    match first {
        "number" => Ok(Command::Number {
            octets: octets(heap, more)?,
            may_restrict: false,
        }),
        "number14" => Ok(Command::Number {
            octets: octets(heap, more)?,
            may_restrict: true,
        }),
        "read" => Ok(Command::Read {
            octets: octets(heap, more)?,
        }),
        _ => Err(LineError::UnknownWord(first)),
    }
}

// What a line asks for, if it is neither blank nor a remark, which begins with '#'.
pub fn parse<'a>(heap: Global, line: &'a str) -> Result<Option<Command>, LineError<'a>>
    ensures { Gives asked result (meaning line.now) }
{
    if line.starts_with('#') {
        return Ok(None);
    }
    let words = words(heap, line)?;
    match words.as_slice() {
        [] => Ok(None),
        [first, more @ ..] => command_of(heap, first, more).map(Some),
    }
}
