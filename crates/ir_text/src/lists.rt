//! Names, operands and the lists that instructions and items are made of.
ghost use Rattle.std.specs.Prelude.{◌≡◌, ◌<◌, [], ◌∷◌, true, false, length, IfOk};
ghost use Rattle.text_forms.specs.Tokens.{is_last, first, too_many_at};
ghost use Rattle.text_forms.specs.Forms.{up_to, up_to_from};
ghost use Rattle.text_forms.specs.Texts.{none_last};
ghost use Rattle.text_forms.specs.Reading.{read};
ghost use Rattle.text_forms.specs.Answers.{Gives, with_front};
ghost use Rattle.ir_lex.specs.TokenForms.{name};
ghost use Rattle.ir_tree.specs.Lists.{optional, globals, global, local, bracketed, bracketed_pair, global_list, local_list, type_list, value, values, dest, exc, keep, pass_values, throw_exc, new_stack_clause};
ghost use Rattle.ir_text.specs.NameLists.{at_least_one};
ghost use Rattle.text_forms.specs.declared.symbol.Symbol.TheVariants as symbols;

use ir_lex::{Cursor, Name};
use ir_tree::{Arguments, Destination, ExceptionClause, NewStackClause, Operand};
use std::alloc::{AllocError, Global};
use text_forms::{Fault, FaultKind, Listing, ReadError, Symbol, passes_limit};

/// The symbols of global names: the names of common instructions are names like any others.
pub const GLOBALS: [Symbol; 10] = [
    Symbol::Global,
    Symbol::UvmNewStack,
    Symbol::UvmKillStack,
    Symbol::UvmThreadExit,
    Symbol::UvmCurrentStack,
    Symbol::UvmSetThreadlocal,
    Symbol::UvmGetThreadlocal,
    Symbol::UvmFutexWait,
    Symbol::UvmFutexWake,
    Symbol::UvmFutexWaitTimeout,
];

/// The symbols that a value is: a local or a global name.
const VALUES: [Symbol; 11] = [
    Symbol::Local,
    Symbol::Global,
    Symbol::UvmNewStack,
    Symbol::UvmKillStack,
    Symbol::UvmThreadExit,
    Symbol::UvmCurrentStack,
    Symbol::UvmSetThreadlocal,
    Symbol::UvmGetThreadlocal,
    Symbol::UvmFutexWait,
    Symbol::UvmFutexWake,
    Symbol::UvmFutexWaitTimeout,
];

/// How many names or values one list may have.
pub const LIST_LIMIT: usize = 256;

/// An element that begins here passes the limit of its list.
pub fn too_many(cursor: &Cursor) -> Fault
    ensures { result ≡ too_many_at (first cursor.now).place }
{
    Fault {
        kind: FaultKind::TooMany,
        place: cursor.place(),
    }
}

/// G
#[tactic(auto, unfolding(ir_tree::specs::Lists::global))]
pub fn global(cursor: &mut Cursor, alloc: Global) -> Result<Name, ReadError>
    ensures { Gives result cursor.new (read global cursor.old) }
{
    cursor.name(alloc, &GLOBALS)
}

/// L
#[tactic(auto, unfolding(ir_tree::specs::Lists::local))]
pub fn local(cursor: &mut Cursor, alloc: Global) -> Result<Name, ReadError>
    ensures { Gives result cursor.new (read local cursor.old) }
{
    cursor.name(alloc, &[Symbol::Local])
}

/// `< G >`
#[tactic(auto, unfolding(ir_tree::specs::Lists::bracketed))]
pub fn bracketed(cursor: &mut Cursor, alloc: Global) -> Result<Name, ReadError>
    ensures { Gives result cursor.new (read bracketed cursor.old) }
{
    cursor.mark(Symbol::Less)?;
    let name = global(cursor, alloc)?;
    cursor.mark(Symbol::Greater)?;
    Ok(name)
}

/// `< G G >`
#[tactic(auto, unfolding(ir_tree::specs::Lists::bracketed_pair))]
pub fn bracketed_pair(cursor: &mut Cursor, alloc: Global) -> Result<(Name, Name), ReadError>
    ensures { Gives result cursor.new (read bracketed_pair cursor.old) }
{
    cursor.mark(Symbol::Less)?;
    let first = global(cursor, alloc)?;
    let second = global(cursor, alloc)?;
    cursor.mark(Symbol::Greater)?;
    Ok((first, second))
}

/// The names up to a mark, behind those of the same list that are read.
#[tactic(auto, using(ir_lex::specs::Lemmas::Cursors::one_goes_on))]
pub fn names(
    cursor: &mut Cursor,
    alloc: Global,
    front: Listing<Name>,
    symbols: &[Symbol],
    closing: Symbol,
) -> Result<Listing<Name>, ReadError>
    requires names { none_last symbols.now ≡ true }
    requires closing { is_last closing ≡ false }
    ensures { Gives result cursor.new (with_front front (read (up_to_from (length front) 256 (closing ∷ []) (name symbols.now)) cursor.old)) }
{
    let mut names = front;
    'each: while !cursor.at(closing) {
        if passes_limit(names.len(), LIST_LIMIT, cursor.at_any(symbols)) {
            return Err(ReadError::Fault(too_many(cursor)));
        }
        names.push(cursor.name(alloc, symbols)?)?;
    }
    cursor.bump();
    Ok(names)
}

/// The names up to a mark.
pub fn names_to(
    cursor: &mut Cursor,
    alloc: Global,
    symbols: &[Symbol],
    closing: Symbol,
) -> Result<Listing<Name>, ReadError>
    requires names { none_last symbols.now ≡ true }
    requires closing { is_last closing ≡ false }
    ensures { Gives result cursor.new (read (up_to 256 (closing ∷ []) (name symbols.now)) cursor.old) }
{
    names(cursor, alloc, Listing::new(alloc), symbols, closing)
}

/// One name as a list of one.
pub fn alone(alloc: Global, name: Name) -> Result<Listing<Name>, AllocError>
    ensures { IfOk result (λ names. names ≡ name ∷ []) }
{
    let mut names = Listing::new(alloc);
    names.push(name)?;
    Ok(names)
}

/// The names up to a mark, of which there is at least one.
pub fn at_least_one(
    cursor: &mut Cursor,
    alloc: Global,
    symbols: &[Symbol],
    closing: Symbol,
) -> Result<Listing<Name>, ReadError>
    requires names { none_last symbols.now ≡ true }
    requires closing { is_last closing ≡ false }
    ensures read { Gives result cursor.new (read (at_least_one symbols.now closing) cursor.old) }
    ensures some { IfOk result (λ names. 0 < length names) }
{
    let first = cursor.name(alloc, symbols)?;
    let front = alone(alloc, first)?;
    names(cursor, alloc, front, symbols, closing)
}

/// `( G* )`
#[tactic(auto, unfolding(ir_tree::specs::Lists::global_list, ir_tree::specs::Lists::global))]
pub fn global_list(cursor: &mut Cursor, alloc: Global) -> Result<Listing<Name>, ReadError>
    ensures { Gives result cursor.new (read global_list cursor.old) }
{
    cursor.mark(Symbol::Open)?;
    let names = names_to(cursor, alloc, &GLOBALS, Symbol::Close)?;
    Ok(names)
}

/// `( L* )`
#[tactic(auto, unfolding(ir_tree::specs::Lists::local_list, ir_tree::specs::Lists::local))]
pub fn local_list(cursor: &mut Cursor, alloc: Global) -> Result<Listing<Name>, ReadError>
    ensures { Gives result cursor.new (read local_list cursor.old) }
{
    cursor.mark(Symbol::Open)?;
    let names = names_to(cursor, alloc, &[Symbol::Local], Symbol::Close)?;
    Ok(names)
}

/// `< G* >`
#[tactic(auto, unfolding(ir_tree::specs::Lists::type_list, ir_tree::specs::Lists::global))]
pub fn type_list(cursor: &mut Cursor, alloc: Global) -> Result<Listing<Name>, ReadError>
    ensures { Gives result cursor.new (read type_list cursor.old) }
{
    cursor.mark(Symbol::Less)?;
    let names = names_to(cursor, alloc, &GLOBALS, Symbol::Greater)?;
    Ok(names)
}

/// `L | G`
#[tactic(auto, unfolding(ir_tree::specs::Lists::value))]
pub fn value(cursor: &mut Cursor, alloc: Global) -> Result<Operand, ReadError>
    ensures { Gives result cursor.new (read value cursor.old) }
{
    if cursor.at(Symbol::Local) {
        Ok(Operand::Local(local(cursor, alloc)?))
    } else {
        Ok(Operand::Global(global(cursor, alloc)?))
    }
}

/// The values up to `)`
#[tactic(auto, using(ir_lex::specs::Lemmas::Cursors::one_goes_on))]
fn values_to(cursor: &mut Cursor, alloc: Global) -> Result<Listing<Operand>, ReadError>
    ensures { Gives result cursor.new (read (up_to 256 (symbols.Close ∷ []) value) cursor.old) }
{
    let mut values = Listing::new(alloc);
    'each: while !cursor.at(Symbol::Close) {
        if passes_limit(values.len(), LIST_LIMIT, cursor.at_any(&VALUES)) {
            return Err(ReadError::Fault(too_many(cursor)));
        }
        values.push(value(cursor, alloc)?)?;
    }
    cursor.bump();
    Ok(values)
}

/// `( value* )`
#[tactic(auto, unfolding(ir_tree::specs::Lists::values))]
pub fn values(cursor: &mut Cursor, alloc: Global) -> Result<Arguments, ReadError>
    ensures { Gives result cursor.new (read values cursor.old) }
{
    let place = cursor.mark(Symbol::Open)?;
    let values = values_to(cursor, alloc)?;
    Ok(Arguments { place, values })
}

/// `L ( value* )`
#[tactic(auto, unfolding(ir_tree::specs::Lists::dest))]
pub fn dest(cursor: &mut Cursor, alloc: Global) -> Result<Destination, ReadError>
    ensures { Gives result cursor.new (read dest cursor.old) }
{
    let block = local(cursor, alloc)?;
    let arguments = values(cursor, alloc)?;
    Ok(Destination { block, arguments })
}

/// `EXC ( dest dest )`
#[tactic(auto, unfolding(ir_tree::specs::Lists::exc))]
fn exc(cursor: &mut Cursor, alloc: Global) -> Result<ExceptionClause, ReadError>
    ensures { Gives result cursor.new (read exc cursor.old) }
{
    cursor.mark(Symbol::Exc)?;
    cursor.mark(Symbol::Open)?;
    let normal = dest(cursor, alloc)?;
    let exceptional = dest(cursor, alloc)?;
    cursor.mark(Symbol::Close)?;
    Ok(ExceptionClause {
        normal,
        exceptional,
    })
}

/// `exc?`
pub fn optional_exc(
    cursor: &mut Cursor,
    alloc: Global,
) -> Result<Option<ExceptionClause>, ReadError>
    ensures { Gives result cursor.new (read (optional symbols.Exc exc) cursor.old) }
{
    if cursor.at(Symbol::Exc) {
        Ok(Some(exc(cursor, alloc)?))
    } else {
        Ok(None)
    }
}

/// `KEEPALIVE ( L* )`
#[tactic(auto, unfolding(ir_tree::specs::Lists::keep))]
fn keep(cursor: &mut Cursor, alloc: Global) -> Result<Listing<Name>, ReadError>
    ensures { Gives result cursor.new (read keep cursor.old) }
{
    cursor.mark(Symbol::Keepalive)?;
    local_list(cursor, alloc)
}

/// `keep?`
pub fn optional_keep(cursor: &mut Cursor, alloc: Global) -> Result<Option<Listing<Name>>, ReadError>
    ensures { Gives result cursor.new (read (optional symbols.Keepalive keep) cursor.old) }
{
    if cursor.at(Symbol::Keepalive) {
        Ok(Some(keep(cursor, alloc)?))
    } else {
        Ok(None)
    }
}

/// `PASS_VALUES < G* > ( value* )`
#[tactic(auto, unfolding(ir_tree::specs::Lists::pass_values))]
fn pass_values(cursor: &mut Cursor, alloc: Global) -> Result<NewStackClause, ReadError>
    ensures { Gives result cursor.new (read pass_values cursor.old) }
{
    cursor.mark(Symbol::PassValues)?;
    let types = type_list(cursor, alloc)?;
    let values = values(cursor, alloc)?;
    Ok(NewStackClause::PassValues { types, values })
}

/// `THROW_EXC value`, or the same with brackets
#[tactic(auto, unfolding(ir_tree::specs::Lists::throw_exc))]
fn throw_exc(cursor: &mut Cursor, alloc: Global) -> Result<NewStackClause, ReadError>
    ensures { Gives result cursor.new (read throw_exc cursor.old) }
{
    cursor.mark(Symbol::ThrowExc)?;
    if !cursor.at(Symbol::Open) {
        let exception = value(cursor, alloc)?;
        return Ok(NewStackClause::ThrowExc { exception });
    }
    cursor.mark(Symbol::Open)?;
    let exception = value(cursor, alloc)?;
    cursor.mark(Symbol::Close)?;
    Ok(NewStackClause::ThrowExc { exception })
}

/// new
#[tactic(auto, unfolding(ir_tree::specs::Lists::new_stack_clause))]
pub fn new_stack_clause(cursor: &mut Cursor, alloc: Global) -> Result<NewStackClause, ReadError>
    ensures { Gives result cursor.new (read new_stack_clause cursor.old) }
{
    if cursor.at(Symbol::PassValues) {
        pass_values(cursor, alloc)
    } else {
        throw_exc(cursor, alloc)
    }
}
