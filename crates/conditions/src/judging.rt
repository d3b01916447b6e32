// The words, names and numbers of a text, token by token.
ghost use Rattle.std.specs.Prelude.{◌≡◌, [], ◌∷◌, true};
ghost use Rattle.text_forms.specs.declared.symbol.Symbol.TheVariants as symbols;
ghost use Rattle.text_forms.specs.declared.fault.FaultKind.TheVariants as kinds;
ghost use Rattle.text_forms.specs.Tokens.{at, has, first, goes_on_behind};
ghost use Rattle.demands.specs.Demands.{demand, Meets};
ghost use Rattle.ir_lex.specs.Walk.{tokens_from};
ghost use Rattle.ir_lex.specs.Scanner.{number_of};
ghost use Rattle.conditions.specs.declared.fault.ConditionKind.TheVariants.{Text};
ghost use Rattle.conditions.specs.declared.before.Before.TheVariants as places;
ghost use Rattle.conditions.specs.Demands.{word_stands, after, number_follows, number_fits, word_fits, own_demand, token_demand, token_demands};
ghost use Rattle.conditions.specs.Judged.{is_before, judged_tokens};

use crate::before::Before;
use crate::fault::{ConditionFault, ConditionKind};
use crate::parts::{GLOBALS, WORDS, is_count};
use crate::words::{claim_of, ending_of, thread_of};
use ir_lex::{Cursor, Number};
use name_scopes::Scope;
use text_forms::{FaultKind, Symbol};

/// No token follows one of these.
const LAST: [Symbol; 5] = [
    Symbol::End,
    Symbol::BadByte,
    Symbol::BadName,
    Symbol::NumberTooLarge,
    Symbol::TooLong,
];

/// How a word is judged by the token that follows it, where the word names that thread or no thread.
fn word_stands(before: Before, thread: Option<u32>) -> Before
    ensures { result ≡ word_stands before thread }
{
    match (before, thread) {
        (Before::Outside, _) | (_, None) => Before::Word,
        (_, Some(_)) => Before::Thread,
    }
}

/// How a token is judged by the token that follows it.
fn after(before: Before, cursor: &Cursor) -> Before
    requires { goes_on_behind cursor.now ≡ true }
    ensures { result ≡ after before (first cursor.now) }
{
    if cursor.at_any(&WORDS) {
        word_stands(before, thread_of(cursor.spelling()))
    } else if cursor.at(Symbol::BraceClose) {
        Before::Outside
    } else {
        Before::Else
    }
}

/// Whether a token may stand there that is a number or is none.
fn number_follows(before: Before, number: bool) -> bool
    ensures { result ≡ number_follows before number }
{
    match before {
        Before::Thread => number,
        Before::Word => !number,
        _ => true,
    }
}

/// Whether the token may stand there, as a number or as none.
fn follows(before: Before, cursor: &Cursor) -> bool
    requires { goes_on_behind cursor.now ≡ true }
    ensures { result ≡ number_follows before (has (symbols.Number ∷ []) (first cursor.now).symbol) }
{
    number_follows(before, cursor.at(Symbol::Number))
}

/// Whether that number may stand there.
fn number_fits(before: Before, number: Number) -> bool
    ensures { result ≡ number_fits before number }
{
    match before {
        Before::Thread => is_count(number),
        _ => !number.negative,
    }
}

/// Whether that word may stand there.
fn word_fits(before: Before, word: &[u8]) -> bool
    ensures { result ≡ word_fits before word.now }
{
    match before {
        Before::Outside => claim_of(word).is_some(),
        _ => thread_of(word).is_some() || ending_of(word).is_some(),
    }
}

/// One demand.
fn meet(kind: ConditionKind, place: usize, met: bool) -> Result<(), ConditionFault>
    ensures { Meets (demand place kind met) result }
{
    if met {
        Ok(())
    } else {
        Err(ConditionFault::At { kind, place })
    }
}

/// A number.
#[tactic(auto, unfolding(ir_lex::specs::TokenForms::numeral))]
fn judge_number(before: Before, cursor: &Cursor) -> Result<(), ConditionFault>
    requires { at (symbols.Number ∷ []) cursor.now ≡ true }
    ensures { Meets (demand (first cursor.now).place (Text kinds.Unexpected) (number_fits before (number_of (first cursor.now).spelling))) result }
{
    match cursor.ahead().numeral() {
        Ok(numeral) => meet(
            ConditionKind::Text(FaultKind::Unexpected),
            cursor.place(),
            number_fits(before, numeral.number),
        ),
        Err(_) => Err(ConditionFault::Memory),
    }
}

/// What a token has to meet by itself.
fn judge_own(names: &Scope<u32>, before: Before, cursor: &Cursor) -> Result<(), ConditionFault>
    requires { goes_on_behind cursor.now ≡ true }
    ensures { Meets (own_demand names.now before (first cursor.now)) result }
{
    if cursor.at(Symbol::Number) {
        return judge_number(before, cursor);
    }
    let word = cursor.spelling();
    if cursor.at_any(&WORDS) {
        return meet(
            ConditionKind::Unknown,
            cursor.place(),
            word_fits(before, word),
        );
    }
    if cursor.at_any(&GLOBALS) {
        return meet(
            ConditionKind::Unknown,
            cursor.place(),
            names.find(word).is_some(),
        );
    }
    Ok(())
}

/// A token, by what stands before it.
#[tactic(auto, using(crate::proofs::TokenJudging::not_followed, crate::proofs::TokenJudging::followed))]
fn judge_token(names: &Scope<u32>, before: Before, cursor: &Cursor) -> Result<(), ConditionFault>
    requires { goes_on_behind cursor.now ≡ true }
    ensures { Meets (token_demand names.now before (first cursor.now)) result }
{
    if !follows(before, cursor) {
        return Err(ConditionFault::At {
            kind: ConditionKind::Text(FaultKind::Unexpected),
            place: cursor.place(),
        });
    }
    judge_own(names, before, cursor)
}

/// Whether a place is judged.
fn is_before(place: usize, stop: Option<usize>) -> bool
    ensures { result ≡ is_before place stop }
{
    match stop {
        Some(stop) => place < stop,
        None => true,
    }
}

/// The tokens of a text up to a place, or all.
pub fn judge_tokens(
    names: &Scope<u32>,
    text: &[u8],
    stop: Option<usize>,
) -> Result<(), ConditionFault>
    ensures { Meets (token_demands names.now places.Outside (judged_tokens stop (tokens_from text.now 0))) result }
{
    let mut cursor = Cursor::new(text);
    let mut before = Before::Outside;
    'each: while is_before(cursor.place(), stop) && !cursor.at_any(&LAST) {
        judge_token(names, before, &cursor)?;
        before = after(before, &cursor);
        cursor.bump();
    }
    Ok(())
}
