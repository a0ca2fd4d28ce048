//! The words of a line: names, numbers, bytes.

ghost use Rattle.std.specs.Prelude.{◌≡◌, ◌-◌, ◌^◌, ◌≤◌, min, IfOk, IfSome, map};
ghost use Rattle.std.specs.List.{list_all};
ghost use Rattle.script_text.specs.Words.{words_of, is_digit, is_number, value_of, number_in, bytes_of};

use hex::FromHexError;
use repl_data::{Bytes, Items, NoMemory};
use std::alloc::{AllocError, Global};

/// The words of a line, which are separated by one space each.
pub(crate) fn words_of(alloc: Global, line: &[u8]) -> Result<Vec<&[u8]>, AllocError>
    ensures { IfOk result (λ words. map (λ word. word.now) words.items ≡ words_of line.now) }
{
    line.split(|b| *b == b' ').collect(alloc)
}

fn are_digits(word: &[u8]) -> bool
    ensures { result ≡ list_all is_digit word.now }
{
    word.iter().all(|b| b'0' <= *b && *b <= b'9')
}

fn is_number(word: &[u8]) -> bool
    ensures { result ≡ is_number word.now }
{
    match word {
        [] => false,
        [first, others @ ..] => are_digits(word) && (*first != b'0' || others.is_empty()),
    }
}

/// The value of decimal digits, or `u128::MAX` where it is greater.
fn value_of(digits: &[u8]) -> u128
    ensures { result ≡ min (value_of digits.now) (2 ^ 128 - 1) }
{
    let mut value = 0u128;
    for digit in digits {
        value = value
            .saturating_mul(10)
            .saturating_add(u128::from(digit.saturating_sub(b'0')));
    }
    value
}

/// The number that the word is in decimal without a leading zero, if it lies between these.
pub(crate) fn number_in(low: u64, high: u64, word: &[u8]) -> Option<u64>
    ensures value { result ≡ number_in low high word.now }
    ensures within { IfSome result (λ n. n ≤ high) }
{
    if !is_number(word) {
        return None;
    }
    let value = value_of(word);
    if value < u128::from(low) || value > u128::from(high) {
        return None;
    }
    Some(value as u64)
}

/// The bytes that the word spells in hexadecimal digits of either case, if they are at least one.
pub(crate) fn bytes_of(alloc: Global, word: &[u8]) -> Result<Option<Bytes>, NoMemory>
    ensures { IfOk result (λ bytes. bytes ≡ bytes_of word.now) }
{
    if word.is_empty() {
        return Ok(None);
    }
    match hex::decode(alloc, word) {
        Ok(bytes) => Ok(Some(Items::from_vec(bytes))),
        Err(FromHexError::OutOfMemory) => Err(NoMemory),
        Err(_) => Ok(None),
    }
}
