//! The names and numbers of a text, token by token.
ghost use Rattle.std.specs.Prelude.{◌≡◌, [], ◌∷◌, true, OnOk};
ghost use Rattle.text_forms.specs.declared.symbol.Symbol.TheVariants as symbols;
ghost use Rattle.text_forms.specs.Tokens.{at, first, goes_on_behind};
ghost use Rattle.name_scopes.specs.Names.{found};
ghost use Rattle.demands.specs.Demands.{demand, Meets};
ghost use Rattle.ir_lex.specs.Walk.{tokens_from};
ghost use Rattle.hail_load.specs.Names.{global_fits, is_given_behind, object_demand, given_with, number_demand, token_demand, token_demands};
ghost use Rattle.hail_load.specs.Judged.{is_before, judged_tokens};

use crate::fault::{HailFault, HailKind};
use crate::tokens::GLOBALS;
use bundle_names::Sort;
use ir_lex::Cursor;
use name_scopes::Scope;
use std::alloc::{AllocError, Global};
use text_forms::{FaultKind, Symbol};

/// Nothing stands behind a token of these.
const LAST: [Symbol; 5] = [
    Symbol::End,
    Symbol::BadByte,
    Symbol::BadName,
    Symbol::NumberTooLarge,
    Symbol::TooLong,
];

/// Whether what a global name stands for belongs behind that token.
fn global_fits(before: Symbol, sort: Option<Sort>) -> bool
    ensures { result ≡ global_fits before sort }
{
    match before {
        Symbol::Less => matches!(sort, Some(Sort::Written(_))),
        Symbol::DotInit | Symbol::Ampersand => matches!(sort, Some(Sort::GlobalCell(_))),
        _ => matches!(
            sort,
            Some(Sort::Constant(_) | Sort::GlobalCell(_) | Sort::Function(_))
        ),
    }
}

/// Whether an object gets its name behind that token.
fn is_given_behind(before: Symbol) -> bool
    ensures { result ≡ is_given_behind before }
{
    matches!(before, Symbol::DotNew | Symbol::DotNewhybrid)
}

/// One demand.
fn meet(kind: HailKind, place: usize, met: bool) -> Result<(), HailFault>
    ensures { Meets (demand place kind met) result }
{
    if met {
        Ok(())
    } else {
        Err(HailFault::At { kind, place })
    }
}

/// The name of an object.
fn judge_object(given: &Scope<()>, before: Symbol, cursor: &Cursor) -> Result<(), HailFault>
    ensures { Meets (object_demand given.now before (first cursor.now)) result }
{
    let is_there = given.find(cursor.spelling()).is_some();
    if is_given_behind(before) {
        meet(HailKind::Duplicate, cursor.place(), !is_there)
    } else {
        meet(HailKind::Unknown, cursor.place(), is_there)
    }
}

/// A number.
#[tactic(auto, unfolding(ir_lex::specs::TokenForms::numeral))]
fn judge_number(before: Symbol, cursor: &Cursor) -> Result<(), HailFault>
    requires { at (symbols.Number ∷ []) cursor.now ≡ true }
    ensures { Meets (number_demand before (first cursor.now)) result }
{
    if !matches!(before, Symbol::SquareOpen | Symbol::Greater) {
        return Ok(());
    }
    match cursor.ahead().numeral() {
        Ok(numeral) => meet(
            HailKind::Text(FaultKind::Unexpected),
            cursor.place(),
            !numeral.number.negative,
        ),
        // (a number is never refused)
        Err(_) => Err(HailFault::Memory),
    }
}

/// A global name.
fn judge_global(names: &Scope<Sort>, before: Symbol, cursor: &Cursor) -> Result<(), HailFault>
    ensures { Meets (demand (first cursor.now).place HailKind.Unknown (global_fits before (found names.now (first cursor.now).spelling))) result }
{
    let sort = names.find(cursor.spelling()).copied();
    meet(HailKind::Unknown, cursor.place(), global_fits(before, sort))
}

/// A token, by the one before it.
fn judge_token(
    names: &Scope<Sort>,
    given: &Scope<()>,
    before: Symbol,
    cursor: &Cursor,
) -> Result<(), HailFault>
    requires { goes_on_behind cursor.now ≡ true }
    ensures { Meets (token_demand names.now given.now before (first cursor.now)) result }
{
    if cursor.at(Symbol::Object) {
        judge_object(given, before, cursor)
    } else if cursor.at(Symbol::Number) {
        judge_number(before, cursor)
    } else if cursor.at_any(&GLOBALS) {
        judge_global(names, before, cursor)
    } else {
        Ok(())
    }
}

/// The names that are given behind a token.
fn give(
    alloc: Global,
    given: &mut Scope<()>,
    before: Symbol,
    cursor: &Cursor,
) -> Result<(), AllocError>
    requires { goes_on_behind cursor.now ≡ true }
    ensures { OnOk result (given.new ≡ given_with given.old before (first cursor.now)) }
{
    if cursor.at(Symbol::Object) && is_given_behind(before) {
        given.define(alloc, cursor.spelling(), ())?;
    }
    Ok(())
}

/// Whether a place is judged.
fn is_before(place: usize, stop: Option<usize>) -> bool
    ensures { result ≡ is_before place stop }
{
    match stop {
        Some(stop) => place < stop,
        None => true,
    }
}

/// The tokens of a text up to a place, or all.
pub fn judge_tokens(
    alloc: Global,
    names: &Scope<Sort>,
    text: &[u8],
    stop: Option<usize>,
) -> Result<(), HailFault>
    ensures { Meets (token_demands names.now [] symbols.End (judged_tokens stop (tokens_from text.now 0))) result }
{
    let mut cursor = Cursor::new(text);
    let mut given = Scope::new(alloc);
    let mut before = Symbol::End;
    'each: while is_before(cursor.place(), stop) && !cursor.at_any(&LAST) {
        judge_token(names, &given, before, &cursor)?;
        give(alloc, &mut given, before, &cursor)?;
        before = cursor.symbol();
        cursor.bump();
    }
    Ok(())
}
