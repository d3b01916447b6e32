// Values in outcomes.
ghost use Rattle.std.specs.Prelude.{◌≡◌, ◌++◌, ◌∷◌, List, map, false, IfOk};
ghost use Rattle.condition_answers.specs.Outcomes.{Text, value_by, value_of, opens, closes, values_from};

use crate::numbers::number;
use conditions::Value;
use std::alloc::{AllocError, Global};
use text_forms::Listing;

// The value that a word writes, by the number that it writes, if it is one.
fn value_by(number: Option<u128>, word: &[u8]) -> Value
    ensures { result ≡ value_by number word.now }
{
    match number {
        Some(number) => Value::Number(number),
        None => if word == b"NULL".as_slice() {
            Value::Null
        } else {
            Value::Other
        },
    }
}

/// The value that a word writes.
pub fn value_of(word: &[u8]) -> Value
    ensures { result ≡ value_of word.now }
{
    value_by(number(word), word)
}

// Whether the word begins with `{`.
fn opens(word: &[u8]) -> bool
    ensures { result ≡ opens word.now }
{
    match word {
        [first, ..] => *first == b'{',
        [] => false,
    }
}

// Whether it ends with `}`.
fn closes(word: &[u8]) -> bool
    ensures { result ≡ closes word.now }
{
    !word.is_empty() && word[word.len() - 1] == b'}'
}

// Adds the value that a word begins, or goes on inside braces. It answers whether the next word stands inside braces.
fn add_value(word: &[u8], inside: bool, values: &mut Listing<Value>) -> Result<bool, AllocError>
    ensures { IfOk result (λ next. (rest : List Text) → values.new ++ values_from next rest ≡ values.old ++ values_from inside (word.now ∷ rest)) }
{
    if inside {
        return Ok(!closes(word));
    }
    if opens(word) {
        values.push(Value::Other)?;
        return Ok(!closes(word));
    }
    values.push(value_of(word))?;
    Ok(false)
}

/// The values that these words write; what stands in braces is one value.
pub fn values_of(alloc: Global, words: &[&[u8]]) -> Result<Listing<Value>, AllocError>
    ensures { IfOk result (λ values. values ≡ values_from false (map (λ word. word.now) words.now)) }
{
    let mut values = Listing::new(alloc);
    let mut inside = false;
    let mut left = words;
    'each: while let [word, rest @ ..] = left {
        inside = add_value(word, inside, &mut values)?;
        left = rest;
    }
    Ok(values)
}
