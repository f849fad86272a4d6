ghost use Rattle.std.specs.Prelude.{◌≡◌, ◌&&◌, ◌<◌, ◌^◌, IsTrue, IfOk, length};
ghost use Rattle.script_words.specs.WordForm.{is_hex_digit, hex_value, are_hex_pairs, hex_bytes, hex_fit};

use crate::limits::{Fit, Limit};
use std::alloc::Global;
use tect_ids::{Bytes, Items, NoMemory};

fn is_hex_digit(byte: u8) -> bool
    ensures { result ≡ is_hex_digit byte }
{
    byte >= b'0' && byte <= b'9' || byte >= b'a' && byte <= b'f'
}

fn hex_value(digit: u8) -> u8
    requires { IsTrue (is_hex_digit digit) }
    ensures value { result ≡ hex_value digit }
    ensures small { result < 16 }
{
    if digit <= b'9' {
        digit - b'0'
    } else {
        digit - b'a' + 10
    }
}

fn are_hex_pairs(word: &[u8]) -> bool
    ensures { result ≡ are_hex_pairs word.now }
{
    let mut rest = word;
    'pairs: loop {
        match rest {
            [] => return true,
            [_] => return false,
            [high, low, more @ ..] => {
                if !(is_hex_digit(*high) && is_hex_digit(*low)) {
                    return false;
                }
                rest = more;
            }
        }
    }
}

/// Whether the word is bytes in hexadecimal, and few enough for a block.
pub fn hex_fit(word: &[u8]) -> Fit
    ensures { result ≡ hex_fit word.now }
{
    if word.is_empty() || !are_hex_pairs(word) {
        return Fit::Unfit;
    }
    if word.len() > 65_536 {
        return Fit::Over(Limit::Block);
    }
    Fit::Fits
}

/// The bytes that the word writes.
pub fn read_hex(alloc: Global, word: &[u8]) -> Result<Bytes, NoMemory>
    requires { hex_fit word.now ≡ Fit.Fits }
    ensures { IfOk result (λ bytes. bytes ≡ hex_bytes word.now) }
{
    let mut bytes = Vec::new(alloc);
    let mut rest = word;
    'pairs: loop {
        match rest {
            [high, low, more @ ..] => {
                bytes.push(16 * hex_value(*high) + hex_value(*low))?;
                rest = more;
            }
            _ => return Items::from_vec(bytes),
        }
    }
}
