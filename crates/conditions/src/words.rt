// The words of conditions.
ghost use Rattle.std.specs.Prelude.{◌≡◌, map};
ghost use Rattle.name_scopes.specs.Names.{found};
ghost use Rattle.conditions.specs.Words.{claim_words, ending_words, claim_of, ending_of, thread_of, unit_of, digits_of};
ghost use Rattle.conditions.specs.Grammar.{claim_in, word_in};

use crate::tree::{Claim, Ending};

/// A word and what it says.
type Row<T> = (&'static [u8], T);

static CLAIMS: [Row<Claim>; 3] = [
    (b"exists", Claim::Exists),
    (b"never", Claim::Never),
    (b"always", Claim::Always),
];

static ENDINGS: [Row<Ending>; 17] = [
    (b"done", Ending::Done),
    (b"waiting", Ending::Waiting),
    (b"stop", Ending::Stop),
    (b"HeapFull", Ending::HeapFull),
    (b"ThreadsFull", Ending::ThreadsFull),
    (b"DivideByZero", Ending::DivideByZero),
    (b"NullAccess", Ending::NullAccess),
    (b"OutOfRange", Ending::OutOfRange),
    (b"BadCast", Ending::BadCast),
    (b"DeadCell", Ending::DeadCell),
    (b"DataRace", Ending::DataRace),
    (b"StackNotReady", Ending::StackNotReady),
    (b"StackTypes", Ending::StackTypes),
    (b"Uncaught", Ending::Uncaught),
    (b"NullCall", Ending::NullCall),
    (b"NoBody", Ending::NoBody),
    (b"ClientMisuse", Ending::ClientMisuse),
];

/// What a word of a list stands for: the thread and the ending that have that name, or where none has it the first one.
#[derive(Clone, Copy, Debug, PartialEq, Eq)]
pub struct Word {
    pub thread: u32,
    pub ending: Ending,
}

// What the first row with that word says.
fn look_up<T: Copy>(mut rows: &[Row<T>], word: &[u8]) -> Option<T>
    ensures { result ≡ found (map (λ r. (r.0.now, r.1)) rows.entry.now) word.now }
{
    while let [row, rest @ ..] = rows {
        if word == row.0 {
            return Some(row.1);
        }
        rows = rest;
    }
    None
}

/// What a condition claims that begins with that word.
pub fn claim_of(word: &[u8]) -> Option<Claim>
    ensures { result ≡ claim_of word.now }
{
    look_up(&CLAIMS, word)
}

/// The ending that has that word.
pub fn ending_of(word: &[u8]) -> Option<Ending>
    ensures { result ≡ ending_of word.now }
{
    look_up(&ENDINGS, word)
}

// A decimal digit.
fn unit_of(byte: u8) -> Option<u32>
    ensures { result ≡ unit_of byte }
{
    if byte.is_ascii_digit() {
        Some(u32::from(byte - b'0'))
    } else {
        None
    }
}

// The number of two digits, below 64.
fn digits_of(first: u8, second: u8) -> Option<u32>
    ensures { result ≡ digits_of first second }
{
    let ten = unit_of(first)?;
    let unit = unit_of(second)?;
    let number = ten * 10 + unit;
    if ten != 0 && number < 64 {
        Some(number)
    } else {
        None
    }
}

/// The thread that has that name: `t` and its number, as outcomes print it.
pub fn thread_of(word: &[u8]) -> Option<u32>
    ensures { result ≡ thread_of word.now }
{
    match word {
        [b't', unit] => unit_of(*unit),
        [b't', ten, unit] => digits_of(*ten, *unit),
        _ => None,
    }
}

/// What a condition claims that begins with that word, or `exists` where none does.
pub fn claim_in(word: &[u8]) -> Claim
    ensures { result ≡ claim_in word.now }
{
    claim_of(word).unwrap_or(Claim::Exists)
}

/// What a word of a list stands for.
pub fn word_in(word: &[u8]) -> Word
    ensures { result ≡ word_in word.now }
{
    Word {
        thread: thread_of(word).unwrap_or(0),
        ending: ending_of(word).unwrap_or(Ending::Done),
    }
}
