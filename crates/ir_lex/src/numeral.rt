// Numbers.
ghost use Rattle.std.specs.Prelude.{◌≡◌, ◌^◌, ◌<◌, ◌≤◌, IfSome, IfNone, nat_lt, is_ok, Ok, true};
ghost use Rattle.std.specs.List.{list_all};
ghost use Rattle.std.specs.Char.{digit_value, is_digit};
ghost use Rattle.std.specs.Str.Parse.{digits_value};
ghost use Rattle.ir_lex.specs.Numerals.{are_digits};
ghost use Rattle.ir_lex.specs.Scanner.{digits, magnitude, small, unsigned, numeral, number_at, number_of};

use crate::token::{LexKind, Number};

// The value of a digit or a letter, 36 for any other byte.
fn digit_value(byte: u8) -> u8
    ensures { result ≡ digit_value byte }
{
    match byte {
        b'0'..=b'9' => byte - b'0',
        b'A'..=b'Z' => byte - b'A' + 10,
        b'a'..=b'z' => byte - b'a' + 10,
        _ => 36,
    }
}

fn are_all_digits(digits: &[u8], base: u8) -> bool
    ensures { result ≡ list_all (λ d. is_digit d base) digits.now }
{
    digits.iter().all(|digit| digit_value(*digit) < base)
}

fn are_digits(digits: &[u8], base: u8) -> bool
    ensures { result ≡ are_digits base digits.now }
{
    !digits.is_empty() && are_all_digits(digits, base)
}

// The value of digits, where it is below 2^128.
#[tactic(auto, using(crate::proofs::Values::value_more, crate::proofs::Values::value_over, crate::proofs::Values::value_done))]
fn value(digits: &[u8], base: u8) -> Option<u128>
    requires { 0 < base }
    ensures some { IfSome result (λ v. v ≡ digits_value base digits.now) }
    ensures none { IfNone result (2 ^ 128 ≤ digits_value base digits.now) }
{
    let mut sum: u128 = 0;
    for digit in digits {
        sum = sum
            .checked_mul(u128::from(base))?
            .checked_add(u128::from(digit_value(*digit)))?;
    }
    Some(sum)
}

// The value of a run that is digits alone.
fn digits(run: &[u8], base: u8) -> Result<u128, LexKind>
    requires { 0 < base }
    ensures { result ≡ small (digits base run.now) }
{
    if !are_digits(run, base) {
        return Err(LexKind::BadByte);
    }
    value(run, base).ok_or(LexKind::NumberTooLarge)
}

// The value of a run of letters and digits.
fn magnitude(run: &[u8]) -> Result<u128, LexKind>
    ensures { result ≡ small (magnitude run.now) }
{
    match run {
        [] => Err(LexKind::BadByte),
        [b'0'] => Ok(0),
        [b'0', b'x', rest @ ..] => digits(rest, 16),
        [b'0', rest @ ..] => digits(rest, 8),
        _ => digits(run, 10),
    }
}

/// The magnitude of a number, with or without a sign.
pub(crate) fn numeral(spelling: &[u8]) -> Result<u128, LexKind>
    ensures { result ≡ numeral spelling.now }
{
    match spelling {
        [b'+' | b'-', run @ ..] => magnitude(run),
        run => magnitude(run),
    }
}

fn number_at(spelling: &[u8], magnitude: u128) -> Number
    ensures { result ≡ number_at spelling.now magnitude }
{
    Number {
        negative: matches!(spelling, [b'-', ..]) && magnitude != 0,
        magnitude,
    }
}

/// The number that a spelling stands for.
pub(crate) fn number_of(spelling: &[u8]) -> Number
    requires { is_ok (numeral spelling.now) ≡ true }
    ensures magnitude { numeral spelling.now ≡ Ok result.magnitude }
    ensures signed { result ≡ number_at spelling.now result.magnitude }
{
    number_at(spelling, numeral(spelling).unwrap())
}

/// The number that a spelling stands for, 0 where it stands for none below 2^128.
pub(crate) fn number_or_nought(spelling: &[u8]) -> Number
    ensures { result ≡ number_of spelling.now }
{
    number_at(spelling, numeral(spelling).unwrap_or(0))
}
