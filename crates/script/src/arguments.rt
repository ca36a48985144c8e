// What the arguments of a program ask for.
ghost use Rattle.script.specs.Arguments.{argument_text, one_argument, request, requested};
ghost use Rattle.std.specs.Prelude.{◌≡◌, map, Some, string_bytes};

use std::fmt;

// Where a script is to come from, if one is to be carried out.
#[derive(Clone, Copy, Debug, PartialEq, Eq)]
pub enum Source<'a> {
    Help,
    Input,
    File(&'a str),
}

#[derive(Clone, Copy, Debug, PartialEq, Eq)]
pub enum ArgumentError<'a> {
    UnknownOption(&'a str),
    TooMany,
}

// A derived Display would say nothing of the text.
impl fmt::Display for ArgumentError<'_> {
    ghost output = { λ e. Some (argument_text e) };

    fn fmt<W: fmt::Write>(&self, f: &mut fmt::Formatter<W>) -> fmt::Result {
        match *self {
            ArgumentError::UnknownOption(word) => write!(f, "unknown option {word}"),
            ArgumentError::TooMany => f.write_str("more than one argument"),
        }
    }
}

// An argument that begins with '-' is an option.
fn one_argument<'a>(word: &'a str) -> Result<Source<'a>, ArgumentError<'a>>
    ensures { requested result ≡ one_argument word.now }
{
    if word == "--help" {
        return Ok(Source::Help);
    }
    if word.starts_with('-') {
        return Err(ArgumentError::UnknownOption(word));
    }
    Ok(Source::File(word))
}

// What the arguments behind the program's name ask for.
pub fn source_of<'a>(arguments: &'a [String]) -> Result<Source<'a>, ArgumentError<'a>>
    ensures { requested result ≡ request (map string_bytes arguments.now) }
{
    match arguments {
        [] => Ok(Source::Input),
        [word] => one_argument(word.as_str()),
        _ => Err(ArgumentError::TooMany),
    }
}
