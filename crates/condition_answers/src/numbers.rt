// Numbers in outcomes.
ghost use Rattle.std.specs.Prelude.{◌≡◌, ◌≤◌, ◌^◌, true, IfSome, IfNone};
ghost use Rattle.std.specs.List.{list_all};
ghost use Rattle.std.specs.Char.{is_digit, digit_value};
ghost use Rattle.std.specs.Str.Parse.{digits_value};
ghost use Rattle.condition_answers.specs.Outcomes.{are_digits, number_in};

fn are_all_digits(bytes: &[u8]) -> bool
    ensures { result ≡ list_all (λ d. is_digit d 10) bytes.now }
{
    bytes.iter().all(|byte| byte.is_ascii_digit())
}

fn are_digits(word: &[u8]) -> bool
    ensures { result ≡ are_digits word.now }
{
    !word.is_empty() && are_all_digits(word)
}

fn digit_value(digit: u8) -> u8
    requires { is_digit digit 10 ≡ true }
    ensures { result ≡ digit_value digit }
{
    digit - b'0'
}

// The value of digits, where it is below 2^128.
#[tactic(auto, using(crate::proofs::Digits::value_more, crate::proofs::Digits::value_over, crate::proofs::Digits::value_done))]
fn value(digits: &[u8]) -> Option<u128>
    requires { list_all (λ d. is_digit d 10) digits.now ≡ true }
    ensures some { IfSome result (λ v. v ≡ digits_value 10 digits.now) }
    ensures none { IfNone result (2 ^ 128 ≤ digits_value 10 digits.now) }
{
    let mut sum: u128 = 0;
    for digit in digits {
        sum = sum
            .checked_mul(10)?
            .checked_add(u128::from(digit_value(*digit)))?;
    }
    Some(sum)
}

/// The number that the word writes, where it is one below 2^128.
pub fn number(word: &[u8]) -> Option<u128>
    ensures { result ≡ number_in word.now }
{
    if !are_digits(word) {
        return None;
    }
    match value(word) {
        Some(value) => Some(value),
        None => None,
    }
}
