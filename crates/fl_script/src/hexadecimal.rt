// Bytes from hexadecimal digits.
ghost use Rattle.std.specs.Prelude.{◌≡◌, ◌*◌, ◌%◌, ◌<◌, ◌==◌, not, Some, None, length, map, unwrap_or, MatchOption, MatchBool};
ghost use Rattle.std.specs.List.{list_all};
ghost use Rattle.fl_words.specs.Grammar.{hex_bytes, hex_value};
ghost use Rattle.fl_script.specs.Pairs.{pairs_of};

use std::simd::prelude::*;

/// What a byte answers that is no digit.
const NO_DIGIT: u8 = 16;

/// So many bytes are decoded at a time, from twice as many digits.
const BLOCK: usize = 16;

/// The difference between a letter and its capital.
const CASE: u8 = b'a' - b'A';

/// The value of each digit in either case, or `NO_DIGIT`.
fn digit_values(digits: u8x32) -> u8x32
    ensures { result ≡ map (λ byte. unwrap_or (hex_value byte) NO_DIGIT) digits }
{
    let numbers = digits - u8x32::splat(b'0');
    let letters = (digits | u8x32::splat(CASE)) - u8x32::splat(b'a');
    // What lies six or more behind `a` is no digit.
    let others = letters.simd_min(u8x32::splat(6)) + u8x32::splat(10);
    numbers.simd_lt(u8x32::splat(10)).select(numbers, others)
}

/// None of the values is `NO_DIGIT`.
fn are_digits(values: u8x32) -> bool
    ensures { result ≡ list_all (λ value. not (value == NO_DIGIT)) values }
{
    values.simd_eq(u8x32::splat(NO_DIGIT)).to_bitmask() == 0
}

/// The byte that each two values are.
fn joined(values: u8x32) -> u8x16
    ensures { result ≡ pairs_of values }
{
    let high: u8x16 = values.shuffle(
        values,
        [0, 2, 4, 6, 8, 10, 12, 14, 16, 18, 20, 22, 24, 26, 28, 30],
    );
    let low: u8x16 = values.shuffle(
        values,
        [1, 3, 5, 7, 9, 11, 13, 15, 17, 19, 21, 23, 25, 27, 29, 31],
    );
    high * u8x16::splat(16) + low
}

/// Writes the byte that each two digits are, a block at a time, and tells whether all of them are digits.
fn decode_blocks(digits: &[u8], bytes: &mut [u8]) -> bool
    requires pairs { length digits.now ≡ 2 * length bytes.old }
    requires whole { length bytes.old % BLOCK ≡ 0 }
    ensures { MatchBool result (hex_bytes digits.now ≡ Some bytes.new) (hex_bytes digits.now ≡ None) }
{
    let mut all = true;
    'parts: for i in 0..bytes.len() / BLOCK {
        let values = digit_values(u8x32::from_slice(&digits[2 * BLOCK * i..]));
        all &= are_digits(values);
        joined(values).copy_to_slice(&mut bytes[BLOCK * i..]);
    }
    all
}

/// Writes the byte that each two digits of less than a block are, and tells whether all of them are digits. Zeros fill the
/// block up, since they are digits.
fn decode_rest(digits: &[u8], bytes: &mut [u8]) -> bool
    requires pairs { length digits.now ≡ 2 * length bytes.old }
    requires less { length bytes.old < BLOCK }
    ensures { MatchBool result (hex_bytes digits.now ≡ Some bytes.new) (hex_bytes digits.now ≡ None) }
{
    let mut padded = [b'0'; 2 * BLOCK];
    padded[..digits.len()].copy_from_slice(digits);
    let values = digit_values(u8x32::from_array(padded));
    let block = joined(values).to_array();
    bytes.copy_from_slice(&block[..bytes.len()]);
    are_digits(values)
}

/// Writes the byte that each two digits are, and tells whether all of them are digits.
///
/// No branch depends on a digit: a processor would guess it wrong for every other digit of a blob.
pub(crate) fn decode_pairs(digits: &[u8], bytes: &mut [u8]) -> bool
    requires { length digits.now ≡ 2 * length bytes.old }
    ensures { MatchBool result (hex_bytes digits.now ≡ Some bytes.new) (hex_bytes digits.now ≡ None) }
{
    let whole = bytes.len() - bytes.len() % BLOCK;
    let (blocks, rest) = bytes.split_at_mut(whole);
    let front = decode_blocks(&digits[..2 * whole], blocks);
    let back = decode_rest(&digits[2 * whole..], rest);
    front & back
}
