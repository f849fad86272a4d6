ghost use Rattle.std.specs.Prelude.{◌≡◌, ◌-◌, ◌≤◌, ◌<◌, ◌^◌, min, IsTrue, false, length};
ghost use Rattle.std.specs.List.{list_all};
ghost use Rattle.script_words.specs.WordForm.{is_digit, is_numeral, number_of, number_fit, count_fit};

use crate::limits::{Fit, Limit};

/// Above every number of 32 bits.
const HUGE: u64 = 1 << 32;

fn is_digit(byte: u8) -> bool
    ensures { result ≡ is_digit byte }
{
    byte >= b'0' && byte <= b'9'
}

fn are_digits(word: &[u8]) -> bool
    ensures { result ≡ list_all is_digit word.now }
{
    word.iter().all(|byte| is_digit(*byte))
}

fn is_numeral(word: &[u8]) -> bool
    ensures { result ≡ is_numeral word.now }
{
    !word.is_empty() && are_digits(word) && (word[0] != b'0' || word.len() == 1)
}

/// The number, or `HUGE` where it is not below that.
fn number(word: &[u8]) -> u64
    requires { IsTrue (list_all is_digit word.now) }
    ensures { result ≡ min (number_of word.now) (2 ^ 32) }
{
    let mut number = 0;
    for digit in word {
        number = (10 * number + u64::from(*digit - b'0')).min(HUGE);
    }
    number
}

/// Whether the word is a number from `low` up to `high`.
pub fn number_fit(low: u32, high: u32, word: &[u8]) -> Fit
    ensures { result ≡ number_fit low high word.now }
{
    if !is_numeral(word) {
        return Fit::Unfit;
    }
    let number = number(word);
    if u64::from(low) <= number && number <= u64::from(high) {
        Fit::Fits
    } else {
        Fit::Unfit
    }
}

/// Whether the word is a number from 1 up to `most`, or passes the limit.
pub fn count_fit(limit: Limit, most: u32, word: &[u8]) -> Fit
    ensures { result ≡ count_fit limit most word.now }
{
    if !is_numeral(word) {
        return Fit::Unfit;
    }
    let number = number(word);
    if number == 0 {
        Fit::Unfit
    } else if number <= u64::from(most) {
        Fit::Fits
    } else {
        Fit::Over(limit)
    }
}

/// The number that the word writes, or the greatest of 32 bits where it is above that; 0 for another word.
pub fn read_number(word: &[u8]) -> u32
    ensures numeral { IsTrue (is_numeral word.now) → result ≡ min (number_of word.now) (2 ^ 32 - 1) }
    ensures other { is_numeral word.now ≡ false → result ≡ 0 }
{
    if !is_numeral(word) {
        return 0;
    }
    u32::try_from(number(word)).unwrap_or(u32::MAX)
}
