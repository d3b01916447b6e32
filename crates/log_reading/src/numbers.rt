// Decimal numbers.
ghost use Rattle.std.specs.Prelude.{◌≡◌, ◌<◌, ◌≤◌, ◌^◌, true, length, IfSome, IfNone, IfOk};
ghost use Rattle.std.specs.List.{list_all};
ghost use Rattle.std.specs.Char.{is_digit, digit_value};
ghost use Rattle.std.specs.Str.Parse.{digits_value};
ghost use Rattle.log_lines.specs.Fields.{is_numeral, number, exactly, value_limit};

use log_lines::LogKind;

/// The limit of a thread's number.
pub const THREADS: u64 = 64;

/// The limit of every other number but a value.
pub const NUMBERS: u64 = 1 << 32;

fn are_digits(bytes: &[u8]) -> bool
    ensures { result ≡ list_all (λ d. is_digit d 10) bytes.now }
{
    bytes.iter().all(|byte| byte.is_ascii_digit())
}

fn is_numeral(field: &[u8]) -> bool
    ensures { result ≡ is_numeral field.now }
{
    match field {
        [] => false,
        [first, more @ ..] => are_digits(field) && (more.is_empty() || *first != b'0'),
    }
}

fn digit_value(digit: u8) -> u8
    requires { is_digit digit 10 ≡ true }
    ensures { result ≡ digit_value digit }
{
    digit - b'0'
}

// The value of digits, where it is below 2^128.
#[tactic(auto, using(crate::proofs::Digits::value_more, crate::proofs::Digits::value_over, crate::proofs::Digits::value_done))]
fn value(digits: &[u8]) -> Option<u128>
    requires { list_all (λ d. is_digit d 10) digits.now ≡ true }
    ensures some { IfSome result (λ v. v ≡ digits_value 10 digits.now) }
    ensures none { IfNone result (2 ^ 128 ≤ digits_value 10 digits.now) }
{
    let mut sum: u128 = 0;
    for digit in digits {
        sum = sum
            .checked_mul(10)?
            .checked_add(u128::from(digit_value(*digit)))?;
    }
    Some(sum)
}

/// A number below 2^128.
pub fn numeral(field: &[u8]) -> Result<u128, LogKind>
    ensures { result ≡ number value_limit field.now }
{
    if !is_numeral(field) {
        return Err(LogKind::Unexpected);
    }
    match value(field) {
        Some(value) => Ok(value),
        None => Err(LogKind::BadNumber),
    }
}

// The value of digits, where it is below the limit.
fn value_below(limit: u64, digits: &[u8]) -> Option<u32>
    requires limit { limit ≤ 2 ^ 32 }
    requires digits { list_all (λ d. is_digit d 10) digits.now ≡ true }
    ensures some { IfSome result (λ v. (v ≡ digits_value 10 digits.now) × (v < limit)) }
    ensures none { IfNone result (limit ≤ digits_value 10 digits.now) }
{
    match value(digits) {
        Some(value) if value < u128::from(limit) => Some(value as u32),
        _ => None,
    }
}

/// A number below the limit.
pub fn number(limit: u64, field: &[u8]) -> Result<u32, LogKind>
    requires { limit ≤ 2 ^ 32 }
    ensures number { result ≡ number limit field.now }
    ensures below { IfOk result (λ n. n < limit) }
{
    if !is_numeral(field) {
        return Err(LogKind::Unexpected);
    }
    match value_below(limit, field) {
        Some(value) => Ok(value),
        None => Err(LogKind::BadNumber),
    }
}

/// The number `n`.
pub fn exactly(n: u32, field: &[u8]) -> Result<u32, LogKind>
    ensures { result ≡ exactly n field.now }
{
    if !is_numeral(field) {
        return Err(LogKind::Unexpected);
    }
    match value(field) {
        Some(value) if value == u128::from(n) => Ok(n),
        _ => Err(LogKind::BadNumber),
    }
}
