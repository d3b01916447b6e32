//! The names and numbers of a text, token by token.
ghost use Rattle.std.specs.Prelude.{◌≡◌, [], ◌∷◌, true};
ghost use Rattle.text_forms.specs.declared.symbol.Symbol.TheVariants as symbols;
ghost use Rattle.text_forms.specs.Tokens.{at, first, goes_on_behind};
ghost use Rattle.name_scopes.specs.Names.{found};
ghost use Rattle.demands.specs.Demands.{demand, Meets};
ghost use Rattle.ir_lex.specs.Walk.{tokens_from};
ghost use Rattle.ir_lex.specs.Scanner.{number_of};
ghost use Rattle.client_script.specs.Numbers.{is_count};
ghost use Rattle.client_script.specs.declared.fault.ScriptKind.TheVariants.{Text, Unknown};
ghost use Rattle.text_forms.specs.declared.fault.FaultKind.TheVariants as kinds;
ghost use Rattle.client_script.specs.Demands.{global_fits, token_demand, token_demands};
ghost use Rattle.client_script.specs.Judged.{is_before, judged_tokens};

use crate::fault::{ScriptFault, ScriptKind};
use crate::parts::{GLOBALS, is_count};
use bundle_names::Sort;
use ir_lex::Cursor;
use name_scopes::Scope;
use text_forms::{FaultKind, Symbol};

/// Nothing stands behind a token of these.
pub(crate) const LAST: [Symbol; 5] = [
    Symbol::End,
    Symbol::BadByte,
    Symbol::BadName,
    Symbol::NumberTooLarge,
    Symbol::TooLong,
];

/// Whether what a global name stands for may stand after that token.
fn global_fits(before: Symbol, sort: Option<Sort>) -> bool
    ensures { result ≡ global_fits before sort }
{
    match before {
        Symbol::Push => matches!(sort, Some(Sort::Function(_))),
        _ => matches!(
            sort,
            Some(Sort::Constant(_) | Sort::GlobalCell(_) | Sort::Function(_))
        ),
    }
}

/// One demand.
fn meet(kind: ScriptKind, place: usize, met: bool) -> Result<(), ScriptFault>
    ensures { Meets (demand place kind met) result }
{
    if met {
        Ok(())
    } else {
        Err(ScriptFault::At { kind, place })
    }
}

/// A number.
#[tactic(auto, unfolding(ir_lex::specs::TokenForms::numeral))]
fn judge_number(cursor: &Cursor) -> Result<(), ScriptFault>
    requires { at (symbols.Number ∷ []) cursor.now ≡ true }
    ensures { Meets (demand (first cursor.now).place (Text kinds.Unexpected) (is_count (number_of (first cursor.now).spelling))) result }
{
    match cursor.ahead().numeral() {
        Ok(numeral) => meet(
            ScriptKind::Text(FaultKind::Unexpected),
            cursor.place(),
            is_count(numeral.number),
        ),
        Err(_) => Err(ScriptFault::Memory),
    }
}

/// A global name.
fn judge_global(names: &Scope<Sort>, before: Symbol, cursor: &Cursor) -> Result<(), ScriptFault>
    ensures { Meets (demand (first cursor.now).place Unknown (global_fits before (found names.now (first cursor.now).spelling))) result }
{
    let sort = names.find(cursor.spelling()).copied();
    meet(
        ScriptKind::Unknown,
        cursor.place(),
        global_fits(before, sort),
    )
}

/// A token, by the one before it.
fn judge_token(names: &Scope<Sort>, before: Symbol, cursor: &Cursor) -> Result<(), ScriptFault>
    requires { goes_on_behind cursor.now ≡ true }
    ensures { Meets (token_demand names.now before (first cursor.now)) result }
{
    if cursor.at(Symbol::Number) {
        judge_number(cursor)
    } else if cursor.at_any(&GLOBALS) {
        judge_global(names, before, cursor)
    } else {
        Ok(())
    }
}

/// Whether a place is judged.
fn is_before(place: usize, stop: Option<usize>) -> bool
    ensures { result ≡ is_before place stop }
{
    match stop {
        Some(stop) => place < stop,
        None => true,
    }
}

/// The tokens of a text up to a place, or all.
pub fn judge_tokens(
    names: &Scope<Sort>,
    text: &[u8],
    stop: Option<usize>,
) -> Result<(), ScriptFault>
    ensures { Meets (token_demands names.now symbols.End (judged_tokens stop (tokens_from text.now 0))) result }
{
    let mut cursor = Cursor::new(text);
    let mut before = Symbol::End;
    'each: while is_before(cursor.place(), stop) && !cursor.at_any(&LAST) {
        judge_token(names, before, &cursor)?;
        before = cursor.symbol();
        cursor.bump();
    }
    Ok(())
}
