// What begins at the front of some bytes.
ghost use Rattle.std.specs.Prelude.{◌≡◌, ◌+◌, ◌<◌, ◌≤◌, length, drop, take, slice_index, IfSome, IfOk};
ghost use Rattle.std.specs.List.{prefix_len};
ghost use Rattle.ir_lex.specs.Bytes.{goes_on};
ghost use Rattle.ir_lex.specs.Scanner.{named, signed, mark_of, marked, begun, judged, none_begun, lexeme};

use crate::numeral::numeral;
use crate::token::{LexKind, Mark, TokenKind};

/// The bytes of the longest token.
const LONGEST_TOKEN: usize = 65_536;

// Whether a byte goes on with a token of that kind.
fn goes_on(kind: TokenKind, byte: u8) -> bool
    ensures { result ≡ goes_on kind byte }
{
    match kind {
        TokenKind::Global | TokenKind::Local | TokenKind::Object => {
            byte.is_ascii_alphanumeric() || matches!(byte, b'_' | b'-' | b'.')
        }
        TokenKind::Directive => byte.is_ascii_alphabetic() || byte == b'_',
        TokenKind::Word => byte.is_ascii_alphanumeric() || byte == b'_',
        TokenKind::Number => byte.is_ascii_alphanumeric(),
        TokenKind::Mark(_) => false,
    }
}

// How many bytes at the front go on with a token of that kind.
fn run_len(bytes: &[u8], kind: TokenKind) -> usize
    ensures len { result ≡ prefix_len (goes_on kind) bytes.now }
    ensures within { result ≤ length bytes.now }
{
    let mut end = 0;
    while end < bytes.len() && goes_on(kind, bytes[end]) {
        end += 1;
    }
    end
}

// ---- the longest spelling at the front: its kind, and how many bytes it has

// Behind the sigil of that kind.
fn named(bytes: &[u8], kind: TokenKind) -> Option<(TokenKind, usize)>
    requires { 0 < length bytes.now }
    ensures found { result ≡ named kind (drop 1 bytes.now) }
    ensures within { IfSome result (λ x. x.1 ≤ length bytes.now) }
{
    match run_len(&bytes[1..], kind) {
        0 => None,
        len => Some((kind, len + 1)),
    }
}

// Behind a sign.
fn signed(bytes: &[u8]) -> Option<(TokenKind, usize)>
    requires { 0 < length bytes.now }
    ensures found { result ≡ signed (slice_index bytes.now 0) (drop 1 bytes.now) }
    ensures within { IfSome result (λ x. x.1 ≤ length bytes.now) }
{
    match bytes {
        [_, b'0'..=b'9', ..] => Some((
            TokenKind::Number,
            run_len(&bytes[1..], TokenKind::Number) + 1,
        )),
        [b'-', b'>', ..] => Some((TokenKind::Mark(Mark::Arrow), 2)),
        _ => None,
    }
}

fn mark_of(byte: u8) -> Option<Mark>
    ensures { result ≡ mark_of byte }
{
    match byte {
        b'(' => Some(Mark::Open),
        b')' => Some(Mark::Close),
        b'{' => Some(Mark::OpenBrace),
        b'}' => Some(Mark::CloseBrace),
        b'<' => Some(Mark::Less),
        b'>' => Some(Mark::Greater),
        b'[' => Some(Mark::OpenBracket),
        b']' => Some(Mark::CloseBracket),
        b'=' => Some(Mark::Equals),
        b':' => Some(Mark::Colon),
        b'&' => Some(Mark::Ampersand),
        _ => None,
    }
}

fn marked(byte: u8) -> Option<(TokenKind, usize)>
    ensures found { result ≡ marked byte }
    ensures within { IfSome result (λ x. x.1 ≡ 1) }
{
    let mark = mark_of(byte)?;
    Some((TokenKind::Mark(mark), 1))
}

fn begun(bytes: &[u8]) -> Option<(TokenKind, usize)>
    requires { 0 < length bytes.now }
    ensures found { result ≡ begun (slice_index bytes.now 0) (drop 1 bytes.now) }
    ensures within { IfSome result (λ x. x.1 ≤ length bytes.now) }
{
    match bytes[0] {
        b'a'..=b'z' | b'A'..=b'Z' => {
            Some((TokenKind::Word, run_len(&bytes[1..], TokenKind::Word) + 1))
        }
        b'0'..=b'9' => Some((
            TokenKind::Number,
            run_len(&bytes[1..], TokenKind::Number) + 1,
        )),
        b'@' => named(bytes, TokenKind::Global),
        b'%' => named(bytes, TokenKind::Local),
        b'$' => named(bytes, TokenKind::Object),
        b'.' => named(bytes, TokenKind::Directive),
        b'+' | b'-' => signed(bytes),
        byte => marked(byte),
    }
}

// ---- the token

// The fault where no spelling begins with that byte.
fn none_begun(byte: u8) -> LexKind
    ensures { result ≡ none_begun byte }
{
    match byte {
        b'@' | b'%' | b'$' | b'.' => LexKind::BadName,
        _ => LexKind::BadByte,
    }
}

// The kind of a whole spelling, or its fault.
fn judged(kind: TokenKind, spelling: &[u8]) -> Result<TokenKind, LexKind>
    ensures { result ≡ judged kind spelling.now }
{
    if spelling.len() > LONGEST_TOKEN {
        return Err(LexKind::TooLong);
    }
    if kind == TokenKind::Number {
        numeral(spelling)?;
    }
    Ok(kind)
}

/// The token at the front, its kind and how many bytes it has, or its fault. None where there are no bytes.
pub(crate) fn lexeme(bytes: &[u8]) -> Result<Option<(TokenKind, usize)>, LexKind>
    ensures found { result ≡ lexeme bytes.now }
    ensures within { IfOk result (λ o. IfSome o (λ x. x.1 ≤ length bytes.now)) }
{
    if bytes.is_empty() {
        return Ok(None);
    }
    let (kind, len) = begun(bytes).ok_or(none_begun(bytes[0]))?;
    let kind = judged(kind, &bytes[..len])?;
    Ok(Some((kind, len)))
}
