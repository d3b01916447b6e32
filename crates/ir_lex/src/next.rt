// The next token of a text.
ghost use Rattle.std.specs.Prelude.{◌≡◌, ◌≤◌, ◌<◌, ◌↔◌, length, Ok, Err, Some, None, IfOk, IfErr, IfSome};
ghost use Rattle.ir_lex.specs.declared.token.Token.{Token};
ghost use Rattle.ir_lex.specs.declared.token.LexFault.{LexFault};
ghost use Rattle.ir_lex.specs.declared.token.Number.{Number};
ghost use Rattle.ir_lex.specs.declared.token.TokenKind.TheVariants as kinds;
ghost use Rattle.ir_lex.specs.Numerals.{Means, IsNumber};
ghost use Rattle.ir_lex.specs.Texts.{OnlyGap, IsNext, IsNextFault, spelling_of};
ghost use Rattle.ir_lex.specs.Scanner.{next_of};

use crate::gap::gap_len;
use crate::lexeme::lexeme;
use crate::numeral::number_of;
use crate::token::{LexFault, Number, Token};

#[tactic(auto, unfolding(crate::specs::Scanner::next_of))]
pub(crate) fn scan(text: &[u8], at: usize) -> Result<Option<Token>, LexFault>
    requires { at ≤ length text.now }
    ensures found { result ≡ next_of text.now at }
    ensures behind { IfOk result (λ o. IfSome o (λ t. at ≤ t.from)) }
    ensures in_order { IfOk result (λ o. IfSome o (λ t. t.from ≤ t.to)) }
    ensures within { IfOk result (λ o. IfSome o (λ t. t.to ≤ length text.now)) }
    ensures place { IfErr result (λ f. f.place ≤ length text.now) }
{
    let from = at + gap_len(&text[at..]);
    match lexeme(&text[from..]) {
        Ok(Some((kind, len))) => Ok(Some(Token {
            kind,
            from,
            to: from + len,
        })),
        Ok(None) => Ok(None),
        Err(kind) => Err(LexFault { kind, place: from }),
    }
}

/// The token that begins next in a text, at a place or behind the blanks and comments there. None where only blanks and
/// comments are left, up to the text's end; a fault where something else stands that is no token. It takes no memory, and
/// looks at each byte from `at` up to the token's end a few times at most, and at the one behind it.
pub fn next_token(text: &[u8], at: usize) -> Result<Option<Token>, LexFault>
    requires { at ≤ length text.now }
    ensures token { (t : Token) → (result ≡ Ok (Some t)) ↔ IsNext text.now at t }
    ensures end { (result ≡ Ok None) ↔ OnlyGap text.now at }
    ensures fault { (f : LexFault) → (result ≡ Err f) ↔ IsNextFault text.now at f }

    // What follows from it for the places.
    ensures behind { IfOk result (λ o. IfSome o (λ t. at ≤ t.from)) }
    ensures some { IfOk result (λ o. IfSome o (λ t. t.from < t.to)) }
    ensures within { IfOk result (λ o. IfSome o (λ t. t.to ≤ length text.now)) }
    ensures place { IfErr result (λ f. f.place ≤ length text.now) }

    // `number` may be called with a number token.
    ensures number { IfOk result (λ o. IfSome o (λ t. t.kind ≡ kinds.Number → IsNumber (spelling_of text.now t))) }
{
    scan(text, at)
}

/// The number that a number token of a text stands for. It takes no memory.
pub fn number(text: &[u8], token: &Token) -> Number
    requires in_order { token.now.from ≤ token.now.to }
    requires within { token.now.to ≤ length text.now }
    requires number { IsNumber (spelling_of text.now token.now) }
    ensures means { Means (spelling_of text.now token.now) result }
    ensures only { (n : Number) → Means (spelling_of text.now token.now) n → n ≡ result }
{
    number_of(&text[token.from..token.to])
}
