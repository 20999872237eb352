// The words of a line: each is of its form or isn't.
ghost use Rattle.std.specs.Prelude.{◌≡◌, ◌<◌, ◌≤◌, ◌+◌, ◌-◌, ◌*◌, ◌^◌, pos, neg_ℤ, MatchOption, MatchResult, true, false};
ghost use Rattle.fl_model.specs.Record.{bytes_equal};
ghost use Rattle.fl_words.specs.Grammar as grammar;
ghost use Rattle.fl_script.specs.Lines.{is_column};

use crate::LineFault;
use arrayvec::ArrayVec;
use fl_base::{CutKind, Name, Op};

/// Whether the word is this text.
#[tactic(auto, using(crate::proofs::Texts::same_test))]
pub fn is(word: &[u8], text: &[u8]) -> bool
    ensures { result ≡ bytes_equal word.now text.now }
{
    word == text
}

/// The number that the word is.
pub(crate) fn number(word: &[u8]) -> Result<u64, LineFault>
    ensures { MatchResult result (λ value. grammar.number word.now ≡ Ok value) (λ e. (grammar.number word.now ≡ Err grammar.Number) × (e ≡ LineFault.Number)) }
{
    if word.is_empty() {
        return Err(LineFault::Number);
    }
    let mut value: u64 = 0;
    for byte in word {
        if !byte.is_ascii_digit() {
            return Err(LineFault::Number);
        }
        let Some(longer) = with_digit(value, *byte) else {
            return Err(LineFault::Number);
        };
        value = longer;
    }
    Ok(value)
}

fn with_digit(value: u64, digit: u8) -> Option<u64>
    requires { 48 ≤ digit }
    ensures { MatchOption result (2 ^ 64 ≤ value * 10 + (digit - 48)) (λ longer. longer ≡ value * 10 + (digit - 48)) }
{
    value.checked_mul(10)?.checked_add(u64::from(digit - b'0'))
}

/// The number that the word is, from a least to a greatest one.
pub(crate) fn number_in(low: u64, high: u64, word: &[u8]) -> Result<u64, LineFault>
    ensures { MatchResult result (λ value. grammar.number_in low high word.now ≡ Ok value) (λ e. (grammar.number_in low high word.now ≡ Err grammar.Number) × (e ≡ LineFault.Number)) }
{
    let value = number(word)?;
    if value < low || high < value {
        return Err(LineFault::Number);
    }
    Ok(value)
}

/// The signed number that the word is.
pub(crate) fn signed(word: &[u8]) -> Result<i64, LineFault>
    ensures { MatchResult result (λ value. grammar.signed word.now ≡ Ok value) (λ e. (grammar.signed word.now ≡ Err grammar.Number) × (e ≡ LineFault.Number)) }
{
    match word {
        [b'-', digits @ ..] => negative(number(digits)?),
        _ => i64::try_from(number(word)?).map_err(|_| LineFault::Number),
    }
}

fn negative(size: u64) -> Result<i64, LineFault>
    ensures { MatchResult result (λ value. (size ≤ 2 ^ 63) × (value ≡ neg_ℤ (pos size))) (λ e. (2 ^ 63 < size) × (e ≡ LineFault.Number)) }
{
    if size == 1 << 63 {
        return Ok(i64::MIN);
    }
    match i64::try_from(size) {
        Ok(value) => Ok(-value),
        Err(_) => Err(LineFault::Number),
    }
}

/// The name that the word is.
pub(crate) fn name(word: &[u8]) -> Result<Name, LineFault>
    ensures { MatchResult result (λ name. (grammar.is_name word.now ≡ true) × (name ≡ word.now)) (λ e. (grammar.is_name word.now ≡ false) × (e ≡ LineFault.Form)) }
{
    Name::of(word).ok_or(LineFault::Form)
}

pub(crate) fn cursor(word: &[u8]) -> Result<u64, LineFault>
    ensures { MatchResult result (λ value. grammar.cursor_of word.now ≡ Some value) (λ e. (grammar.cursor_of word.now ≡ None) × (e ≡ LineFault.Form)) }
{
    match word {
        [digit @ b'0'..=b'3'] => Ok(u64::from(*digit - b'0')),
        _ => Err(LineFault::Form),
    }
}

#[tactic(auto, using(crate::proofs::Texts::other_length))]
pub(crate) fn op(word: &[u8]) -> Result<Op, LineFault>
    ensures { MatchResult result (λ value. grammar.op_of word.now ≡ Some value) (λ e. (grammar.op_of word.now ≡ None) × (e ≡ LineFault.Form)) }
{
    match word {
        b"lt" => Ok(Op::Lt),
        b"le" => Ok(Op::Le),
        b"eq" => Ok(Op::Eq),
        b"ne" => Ok(Op::Ne),
        b"ge" => Ok(Op::Ge),
        b"gt" => Ok(Op::Gt),
        _ => Err(LineFault::Form),
    }
}

/// How the operation is torn, but for `noise`, which has a seed.
pub(crate) fn cut_kind(word: &[u8]) -> Result<CutKind, LineFault>
    ensures { MatchResult result (λ value. grammar.cut_kind word.now ≡ Some value) (λ e. (grammar.cut_kind word.now ≡ None) × (e ≡ LineFault.Form)) }
{
    if is(word, b"before") {
        Ok(CutKind::Before)
    } else if is(word, b"after") {
        Ok(CutKind::After)
    } else if is(word, b"half") {
        Ok(CutKind::Half)
    } else {
        Err(LineFault::Form)
    }
}

/// A column number of at most three digits.
#[tactic(auto, using(crate::proofs::Lists::few, crate::proofs::Lists::digits))]
fn column(part: &[u8]) -> Result<u64, LineFault>
    ensures { MatchResult result (λ value. (is_column part.now ≡ true) × (value ≡ grammar.value_of part.now)) (λ e. (is_column part.now ≡ false) × (e ≡ LineFault.Form)) }
{
    if part.len() > 3 {
        return Err(LineFault::Form);
    }
    match number(part) {
        Ok(value) => Ok(value),
        Err(_) => Err(LineFault::Form),
    }
}

/// One to eight column numbers, joined by commas.
pub(crate) fn columns(word: &[u8]) -> Result<ArrayVec<u64, 8>, LineFault>
    ensures { MatchResult result (λ columns. grammar.columns_of word.now ≡ Some columns.items) (λ e. (grammar.columns_of word.now ≡ None) × (e ≡ LineFault.Form)) }
{
    let mut columns = ArrayVec::new();
    for part in word.split(|byte| *byte == b',') {
        if columns.is_full() {
            return Err(LineFault::Form);
        }
        columns.push(column(part)?);
    }
    Ok(columns)
}
