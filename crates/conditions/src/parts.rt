// What conditions are made of: values, atoms, lists.
ghost use Rattle.std.specs.Prelude.{◌≡◌, [], ◌∷◌};
ghost use Rattle.text_forms.specs.declared.symbol.Symbol.TheVariants as symbols;
ghost use Rattle.text_forms.specs.Forms.{until};
ghost use Rattle.text_forms.specs.Reading.{read, whole};
ghost use Rattle.text_forms.specs.Answers.{Gives, GivesAll, with_front};
ghost use Rattle.conditions.specs.Judged.{all_of};
ghost use Rattle.conditions.specs.Numbers.{is_count, count_in};
ghost use Rattle.conditions.specs.Grammar.{global_in, atom_of, value, told, telling, word, worded, global, last, atom, list, lists, claim, condition, conditions};

use crate::tree::{Atom, Claim, Condition, Value};
use crate::words::{Word, claim_in, word_in};
use ir_lex::{Cursor, Number, Numeral};
use name_scopes::Scope;
use std::alloc::Global;
use text_forms::{Listing, ReadError, Symbol};

/// The symbols of global names: the names of common instructions are names like any others.
pub const GLOBALS: [Symbol; 10] = [
    Symbol::Global,
    Symbol::UvmNewStack,
    Symbol::UvmKillStack,
    Symbol::UvmThreadExit,
    Symbol::UvmCurrentStack,
    Symbol::UvmSetThreadlocal,
    Symbol::UvmGetThreadlocal,
    Symbol::UvmFutexWait,
    Symbol::UvmFutexWake,
    Symbol::UvmFutexWaitTimeout,
];

/// The symbols of the words of a list.
pub const WORDS: [Symbol; 2] = [Symbol::Other, Symbol::Stop];

/// Whether a number is from 0 to 2^32 - 1.
pub fn is_count(number: Number) -> bool
    ensures { result ≡ is_count number }
{
    !number.negative && number.magnitude < 4_294_967_296
}

/// The number, or 0 where it is none from 0 to 2^32 - 1.
fn count_in(numeral: Numeral) -> u32
    ensures { result ≡ count_in numeral }
{
    if is_count(numeral.number) {
        numeral.number.magnitude as u32
    } else {
        0
    }
}

/// `N | NULL`
#[tactic(auto, unfolding(crate::specs::Grammar::value))]
fn value(cursor: &mut Cursor) -> Result<Value, ReadError>
    ensures { Gives result cursor.new (read value cursor.old) }
{
    if cursor.at(Symbol::Null) {
        cursor.mark(Symbol::Null)?;
        Ok(Value::Null)
    } else {
        let numeral = cursor.numeral()?;
        Ok(Value::Number(numeral.number.magnitude))
    }
}

/// `N = value`
#[tactic(auto, unfolding(crate::specs::Grammar::told))]
fn told(cursor: &mut Cursor) -> Result<(u32, Value), ReadError>
    ensures { Gives result cursor.new (read told cursor.old) }
{
    let numeral = cursor.numeral()?;
    cursor.mark(Symbol::Equals)?;
    let value = value(cursor)?;
    Ok((count_in(numeral), value))
}

/// `N = value`, which may be left out
#[tactic(auto, unfolding(crate::specs::Grammar::telling))]
fn telling(cursor: &mut Cursor) -> Result<Option<(u32, Value)>, ReadError>
    ensures { Gives result cursor.new (read telling cursor.old) }
{
    if cursor.at(Symbol::Number) {
        let told = told(cursor)?;
        Ok(Some(told))
    } else {
        Ok(None)
    }
}

/// What a word of a list stands for.
#[tactic(auto, using(ir_lex::specs::Lemmas::Cursors::among_goes_on), unfolding(crate::specs::Grammar::word))]
fn word(cursor: &mut Cursor) -> Result<Word, ReadError>
    ensures { Gives result cursor.new (read word cursor.old) }
{
    if !cursor.at_any(&WORDS) {
        return Err(ReadError::Fault(cursor.fault()));
    }
    let word = word_in(cursor.spelling());
    cursor.bump();
    Ok(word)
}

/// What a word asks, either with a number and a value after it or with nothing after it.
fn atom_of(word: Word, told: Option<(u32, Value)>) -> Atom
    ensures { result ≡ atom_of word told }
{
    match told {
        None => Atom::Ends(word.ending),
        Some((number, value)) => Atom::Returned {
            thread: word.thread,
            number,
            value,
        },
    }
}

/// `word N = value | word`
#[tactic(auto, unfolding(crate::specs::Grammar::worded))]
fn worded(cursor: &mut Cursor) -> Result<Atom, ReadError>
    ensures { Gives result cursor.new (read worded cursor.old) }
{
    let word = word(cursor)?;
    let told = telling(cursor)?;
    Ok(atom_of(word, told))
}

/// The number of a global, or 0 where none has the name.
fn global_in(names: &Scope<u32>, name: &[u8]) -> u32
    ensures { result ≡ global_in names.now name.now }
{
    names.find(name).copied().unwrap_or(0)
}

/// `G`, as the number of the global
#[tactic(auto, using(ir_lex::specs::Lemmas::Cursors::among_goes_on), unfolding(crate::specs::Grammar::global))]
fn global(cursor: &mut Cursor, names: &Scope<u32>) -> Result<u32, ReadError>
    ensures { Gives result cursor.new (read (global names.now) cursor.old) }
{
    if !cursor.at_any(&GLOBALS) {
        return Err(ReadError::Fault(cursor.fault()));
    }
    let global = global_in(names, cursor.spelling());
    cursor.bump();
    Ok(global)
}

/// `G = value`
#[tactic(auto, unfolding(crate::specs::Grammar::last))]
fn last(cursor: &mut Cursor, names: &Scope<u32>) -> Result<Atom, ReadError>
    ensures { Gives result cursor.new (read (last names.now) cursor.old) }
{
    let global = global(cursor, names)?;
    cursor.mark(Symbol::Equals)?;
    let value = value(cursor)?;
    Ok(Atom::Final { global, value })
}

/// `word N = value | word | G = value`
#[tactic(auto, unfolding(crate::specs::Grammar::atom))]
fn atom(cursor: &mut Cursor, names: &Scope<u32>) -> Result<Atom, ReadError>
    ensures { Gives result cursor.new (read (atom names.now) cursor.old) }
{
    if cursor.at_any(&GLOBALS) {
        last(cursor, names)
    } else {
        worded(cursor)
    }
}

/// The members of a list up to `)`
#[tactic(auto, using(ir_lex::specs::Lemmas::Cursors::one_goes_on))]
fn atoms(cursor: &mut Cursor, alloc: Global, names: &Scope<u32>) -> Result<Listing<Atom>, ReadError>
    ensures { Gives result cursor.new (read (until (symbols.Close ∷ []) (atom names.now)) cursor.old) }
{
    let mut atoms = Listing::new(alloc);
    'each: while !cursor.at(Symbol::Close) {
        atoms.push(atom(cursor, names)?)?;
    }
    cursor.bump();
    Ok(atoms)
}

/// `( atom* )`
#[tactic(auto, unfolding(crate::specs::Grammar::list))]
fn list(cursor: &mut Cursor, alloc: Global, names: &Scope<u32>) -> Result<Listing<Atom>, ReadError>
    ensures { Gives result cursor.new (read (list names.now) cursor.old) }
{
    cursor.mark(Symbol::Open)?;
    atoms(cursor, alloc, names)
}

/// The lists after the first one, up to `}`
#[tactic(auto, using(ir_lex::specs::Lemmas::Cursors::one_goes_on))]
fn more_lists(
    cursor: &mut Cursor,
    alloc: Global,
    names: &Scope<u32>,
    first: Listing<Atom>,
) -> Result<Listing<Listing<Atom>>, ReadError>
    ensures { Gives result cursor.new (with_front (first ∷ []) (read (until (symbols.BraceClose ∷ []) (list names.now)) cursor.old)) }
{
    let mut lists = Listing::new(alloc);
    lists.push(first)?;
    'each: while !cursor.at(Symbol::BraceClose) {
        lists.push(list(cursor, alloc, names)?)?;
    }
    cursor.bump();
    Ok(lists)
}

/// `list+ }`
#[tactic(auto, unfolding(crate::specs::Grammar::lists))]
fn lists(
    cursor: &mut Cursor,
    alloc: Global,
    names: &Scope<u32>,
) -> Result<Listing<Listing<Atom>>, ReadError>
    ensures { Gives result cursor.new (read (lists names.now) cursor.old) }
{
    let first = list(cursor, alloc, names)?;
    more_lists(cursor, alloc, names, first)
}

/// The word that a condition begins with.
#[tactic(auto, using(ir_lex::specs::Lemmas::Cursors::one_goes_on), unfolding(crate::specs::Grammar::claim))]
fn claim(cursor: &mut Cursor) -> Result<Claim, ReadError>
    ensures { Gives result cursor.new (read claim cursor.old) }
{
    if !cursor.at(Symbol::Other) {
        return Err(ReadError::Fault(cursor.fault()));
    }
    let claim = claim_in(cursor.spelling());
    cursor.bump();
    Ok(claim)
}

/// `word { list+ }`
#[tactic(auto, unfolding(crate::specs::Grammar::condition))]
fn condition(cursor: &mut Cursor, alloc: Global, names: &Scope<u32>) -> Result<Condition, ReadError>
    ensures { Gives result cursor.new (read (condition names.now) cursor.old) }
{
    let claim = claim(cursor)?;
    cursor.mark(Symbol::BraceOpen)?;
    let lists = lists(cursor, alloc, names)?;
    Ok(Condition { claim, lists })
}

/// The conditions after the first one, up to the end of the text
fn more_conditions(
    cursor: &mut Cursor,
    alloc: Global,
    names: &Scope<u32>,
    first: Condition,
) -> Result<Listing<Condition>, ReadError>
    ensures { GivesAll result (all_of (with_front (first ∷ []) (read (until (symbols.End ∷ []) (condition names.now)) cursor.old))) }
{
    let mut conditions = Listing::new(alloc);
    conditions.push(first)?;
    'each: while !cursor.at(Symbol::End) {
        conditions.push(condition(cursor, alloc, names)?)?;
    }
    Ok(conditions)
}

/// The conditions up to the end of the text.
#[tactic(auto, unfolding(crate::specs::Grammar::conditions))]
pub fn conditions(
    cursor: &mut Cursor,
    alloc: Global,
    names: &Scope<u32>,
) -> Result<Listing<Condition>, ReadError>
    ensures { GivesAll result (whole (conditions names.now) cursor.old) }
{
    let first = condition(cursor, alloc, names)?;
    more_conditions(cursor, alloc, names, first)
}
