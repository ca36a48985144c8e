// The words of a line, and the octets that words spell.
ghost use Rattle.script.specs.Lines.{Gives, after, hex_value, octet_of, octets as octets_of, spelt};
ghost use Rattle.script.specs.Words.{words as words_of};
ghost use Rattle.std.specs.Prelude.{◌≡◌, map, IfOk, vec_items};

use crate::line::LineError;
use std::alloc::{AllocError, Global};

// The words of a text: what stands between its spaces.
pub(crate) fn words(heap: Global, text: &str) -> Result<Vec<&str>, AllocError>
    ensures { IfOk result (λ v. map (λ w. w.now) v.items ≡ words_of text.now) }
{
    text.split(' ')
        .filter(|piece| !piece.is_empty())
        .collect(heap)
}

// The value of a hexadecimal digit.
fn hex_value(digit: u8) -> Option<u8>
    ensures { result ≡ hex_value digit }
{
    Some(char::from(digit).to_digit(16)? as u8)
}

// The octet that a pair of digits spells.
fn octet(pair: &[u8]) -> Option<u8>
    ensures { result ≡ octet_of pair.now }
{
    let [high, low] = pair else {
        return None;
    };
    Some(16 * hex_value(*high)? + hex_value(*low)?)
}

// Adds the octets that a word spells. The kit's `hex` would make a list for each word, with an error of its own.
fn add_octets<'a>(octets: &mut Vec<u8>, word: &'a str) -> Result<(), LineError<'a>>
    ensures { Gives (λ _. octets.new.items) result (after octets.old.items (spelt word.now)) }
{
    for pair in word.as_bytes().chunks(2) {
        octets.push(octet(pair).ok_or(LineError::NotOctets(word))?)?;
    }
    Ok(())
}

// The octets that words spell one after another. They are made in memory that is handed in, so this is no TryFrom.
pub fn octets<'a>(heap: Global, words: &[&'a str]) -> Result<Vec<u8>, LineError<'a>>
    ensures { Gives vec_items result (octets_of (map (λ w. w.now) words.now)) }
{
    if words.is_empty() {
        return Err(LineError::OctetsMissing);
    }
    let mut octets = Vec::new(heap);
    for word in words {
        add_octets(&mut octets, word)?;
    }
    Ok(octets)
}
