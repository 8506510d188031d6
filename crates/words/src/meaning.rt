// What the bytes of a word say.
ghost use Rattle.std.specs.Prelude.{◌≡◌, ◌+◌, ◌*◌, ◌&&◌, if◌then◌else◌, Some, None, MatchBool, nat_le};
ghost use Rattle.std.specs.Str.Parse.{digits_value};
ghost use Rattle.std.specs.Char.{IsAsciiDigit, IsNotAsciiDigit, digit_value};
ghost use Rattle.words.specs.Bytes.{digit};
ghost use Rattle.words.specs.Words.{largest, no_leading_zero, good_number, good_name, Means};

use crate::spelling::{gate, kind};
use crate::token::Word;

// How many bytes a name has at most.
const LONGEST: usize = 16;

// The largest number.
const LARGEST: u32 = 65535;

// Whether there is some byte, and no zero at the front but in 0 itself.
fn has_no_leading_zero(text: &[u8]) -> bool
    ensures { result ≡ no_leading_zero text.now }
{
    match text {
        [] => false,
        [_] => true,
        [first, ..] => *first != b'0',
    }
}

fn is_digit(byte: u8) -> bool
    ensures value { result ≡ digit byte }
    ensures cases { MatchBool result (IsAsciiDigit byte) (IsNotAsciiDigit byte) }
{
    byte.is_ascii_digit()
}

// The value with the digit `byte` at its end; none where the byte is no digit, or the value too large.
fn with_digit(value: u32, byte: u8) -> Option<u32>
    ensures { result ≡ (if digit byte && nat_le (value * 10 + digit_value byte) largest then Some (value * 10 + digit_value byte) else None) }
{
    if !is_digit(byte) {
        return None;
    }
    let digit = u32::from(byte - b'0');
    if value > (LARGEST - digit) / 10 {
        return None;
    }
    Some(value * 10 + digit)
}

// The value of a good number.
// Not by parse: it wants a str, and takes a plus sign and leading zeros.
fn number(text: &[u8]) -> Option<u32>
    ensures { result ≡ (if good_number text.now then Some (digits_value 10 text.now) else None) }
{
    if !has_no_leading_zero(text) {
        return None;
    }
    text.iter()
        .try_fold(0, |value, byte| with_digit(value, *byte))
}

fn is_name(text: &[u8]) -> bool
    ensures { result ≡ good_name text.now }
{
    text.len() <= LONGEST && text.first().is_some_and(|byte| byte.is_ascii_alphabetic())
}

// The word that the bytes `text` at `place` are, if they are a good one.
// Early returns: a chain of or_else would be six closures over the same two names.
pub(crate) fn meaning<'a>(text: &'a [u8], place: usize) -> Option<Word<'a>>
    ensures { Means text.now place result }
{
    if let Some(kind) = kind(text) {
        return Some(Word::Fixed { text, place, kind });
    }
    if let Some(gate) = gate(text) {
        return Some(Word::Gate { text, place, gate });
    }
    if let Some(value) = number(text) {
        return Some(Word::Number { text, place, value });
    }
    if is_name(text) {
        return Some(Word::Name { text, place });
    }
    None
}
