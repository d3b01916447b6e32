//! What entries are made of: numbers, actions, edits, arguments and replies.
ghost use Rattle.std.specs.Prelude.{◌≡◌, [], ◌∷◌};
ghost use Rattle.text_forms.specs.declared.symbol.Symbol.TheVariants as symbols;
ghost use Rattle.text_forms.specs.Forms.{until};
ghost use Rattle.text_forms.specs.Reading.{read};
ghost use Rattle.text_forms.specs.Answers.{Gives};
ghost use Rattle.ir_tree.specs.Lists.{global};
ghost use Rattle.client_script.specs.Numbers.{is_count, count_in};
ghost use Rattle.client_script.specs.Grammar.{count, action, popping, pushing, edit, kept_value, argument, pass, way, rebind, reply, ending};

use crate::mentions::Shared;
use crate::told::{pushed, told};
use crate::tree::{Action, Argument, Edit, Pushed, Reply, With};
use ir_lex::{Cursor, Name, Number, Numeral};
use std::alloc::Global;
use text_forms::{Listing, ReadError, Symbol};

/// The symbols of global names: the names of common instructions are names like any others.
pub const GLOBALS: [Symbol; 10] = [
    Symbol::Global,
    Symbol::UvmNewStack,
    Symbol::UvmKillStack,
    Symbol::UvmThreadExit,
    Symbol::UvmCurrentStack,
    Symbol::UvmSetThreadlocal,
    Symbol::UvmGetThreadlocal,
    Symbol::UvmFutexWait,
    Symbol::UvmFutexWake,
    Symbol::UvmFutexWaitTimeout,
];

/// Whether a number is from 0 to 2^32 - 1.
pub fn is_count(number: Number) -> bool
    ensures { result ≡ is_count number }
{
    !number.negative && number.magnitude < 4_294_967_296
}

/// The number, or 0 where it is none from 0 to 2^32 - 1.
fn count_in(numeral: Numeral) -> u32
    ensures { result ≡ count_in numeral }
{
    if is_count(numeral.number) {
        numeral.number.magnitude as u32
    } else {
        0
    }
}

/// N
#[tactic(auto, unfolding(crate::specs::Grammar::count))]
fn count(cursor: &mut Cursor) -> Result<u32, ReadError>
    ensures { Gives result cursor.new (read count cursor.old) }
{
    let numeral = cursor.numeral()?;
    Ok(count_in(numeral))
}

/// `frames | kept N | watch N | unwatch N`
#[tactic(auto, unfolding(crate::specs::Grammar::action))]
pub fn action(cursor: &mut Cursor) -> Result<Action, ReadError>
    ensures { Gives result cursor.new (read action cursor.old) }
{
    if cursor.at(Symbol::Frames) {
        cursor.mark(Symbol::Frames)?;
        Ok(Action::TellFrames)
    } else if cursor.at(Symbol::Kept) {
        cursor.mark(Symbol::Kept)?;
        let frame = count(cursor)?;
        Ok(Action::TellKept(frame))
    } else if cursor.at(Symbol::Watch) {
        cursor.mark(Symbol::Watch)?;
        let watchpoint = count(cursor)?;
        Ok(Action::Watch {
            watchpoint,
            enabled: true,
        })
    } else {
        cursor.mark(Symbol::Unwatch)?;
        let watchpoint = count(cursor)?;
        Ok(Action::Watch {
            watchpoint,
            enabled: false,
        })
    }
}

/// G
#[tactic(auto, unfolding(ir_tree::specs::Lists::global))]
fn global(cursor: &mut Cursor, alloc: Global) -> Result<Name, ReadError>
    ensures { Gives result cursor.new (read global cursor.old) }
{
    cursor.name(alloc, &GLOBALS)
}

/// `pop N`, which may be left out
#[tactic(auto, unfolding(crate::specs::Grammar::popping))]
fn popping(cursor: &mut Cursor) -> Result<u32, ReadError>
    ensures { Gives result cursor.new (read popping cursor.old) }
{
    if cursor.at(Symbol::Pop) {
        cursor.mark(Symbol::Pop)?;
        count(cursor)
    } else {
        Ok(0)
    }
}

/// `push G`, which may be left out
#[tactic(auto, unfolding(crate::specs::Grammar::pushing))]
fn pushing(cursor: &mut Cursor, alloc: Global, code: &Shared) -> Result<Option<Pushed>, ReadError>
    ensures { Gives result cursor.new (read (pushing code.now) cursor.old) }
{
    if cursor.at(Symbol::Push) {
        cursor.mark(Symbol::Push)?;
        let name = global(cursor, alloc)?;
        Ok(pushed(code, &name))
    } else {
        Ok(None)
    }
}

/// `edit?`
#[tactic(auto, unfolding(crate::specs::Grammar::edit))]
fn edit(cursor: &mut Cursor, alloc: Global, code: &Shared) -> Result<Edit, ReadError>
    ensures { Gives result cursor.new (read (edit code.now) cursor.old) }
{
    let pop = popping(cursor)?;
    let push = pushing(cursor, alloc, code)?;
    Ok(Edit { pop, push })
}

/// `kept N N`
#[tactic(auto, unfolding(crate::specs::Grammar::kept_value))]
fn kept_value(cursor: &mut Cursor) -> Result<Argument, ReadError>
    ensures { Gives result cursor.new (read kept_value cursor.old) }
{
    cursor.mark(Symbol::Kept)?;
    let frame = count(cursor)?;
    let value = count(cursor)?;
    Ok(Argument::KeptValue { frame, value })
}

/// `G | kept N N`
#[tactic(auto, unfolding(crate::specs::Grammar::argument))]
fn argument(cursor: &mut Cursor, alloc: Global, code: &Shared) -> Result<Argument, ReadError>
    ensures { Gives result cursor.new (read (argument code.now) cursor.old) }
{
    if cursor.at(Symbol::Kept) {
        kept_value(cursor)
    } else {
        let name = global(cursor, alloc)?;
        let argument = told(alloc, code, &name)?;
        Ok(argument)
    }
}

/// The arguments up to `)`
#[tactic(auto, using(ir_lex::specs::Lemmas::Cursors::one_goes_on))]
fn arguments(
    cursor: &mut Cursor,
    alloc: Global,
    code: &Shared,
) -> Result<Listing<Argument>, ReadError>
    ensures { Gives result cursor.new (read (until (symbols.Close ∷ []) (argument code.now)) cursor.old) }
{
    let mut arguments = Listing::new(alloc);
    'each: while !cursor.at(Symbol::Close) {
        arguments.push(argument(cursor, alloc, code)?)?;
    }
    cursor.bump();
    Ok(arguments)
}

/// `pass ( arg* )`
#[tactic(auto, unfolding(crate::specs::Grammar::pass))]
fn pass(cursor: &mut Cursor, alloc: Global, code: &Shared) -> Result<With, ReadError>
    ensures { Gives result cursor.new (read (pass code.now) cursor.old) }
{
    cursor.mark(Symbol::Pass)?;
    cursor.mark(Symbol::Open)?;
    let arguments = arguments(cursor, alloc, code)?;
    Ok(With::Pass(arguments))
}

/// `pass ( arg* ) | throw arg`
#[tactic(auto, unfolding(crate::specs::Grammar::way))]
fn way(cursor: &mut Cursor, alloc: Global, code: &Shared) -> Result<With, ReadError>
    ensures { Gives result cursor.new (read (way code.now) cursor.old) }
{
    if cursor.at(Symbol::Pass) {
        pass(cursor, alloc, code)
    } else {
        cursor.mark(Symbol::ThrowReply)?;
        let exception = argument(cursor, alloc, code)?;
        Ok(With::Throw(exception))
    }
}

/// `rebind arg with`
#[tactic(auto, unfolding(crate::specs::Grammar::rebind))]
fn rebind(cursor: &mut Cursor, alloc: Global, code: &Shared) -> Result<Reply, ReadError>
    ensures { Gives result cursor.new (read (rebind code.now) cursor.old) }
{
    cursor.mark(Symbol::Rebind)?;
    let stack = argument(cursor, alloc, code)?;
    let with = way(cursor, alloc, code)?;
    Ok(Reply::Rebind { stack, with })
}

/// `with | rebind arg with | exit | stop`
#[tactic(auto, unfolding(crate::specs::Grammar::reply))]
fn reply(cursor: &mut Cursor, alloc: Global, code: &Shared) -> Result<Reply, ReadError>
    ensures { Gives result cursor.new (read (reply code.now) cursor.old) }
{
    if cursor.at(Symbol::Rebind) {
        rebind(cursor, alloc, code)
    } else if cursor.at(Symbol::Exit) {
        cursor.mark(Symbol::Exit)?;
        Ok(Reply::Exit)
    } else if cursor.at(Symbol::Stop) {
        cursor.mark(Symbol::Stop)?;
        Ok(Reply::Stop)
    } else {
        let with = way(cursor, alloc, code)?;
        Ok(Reply::Resume(with))
    }
}

/// `edit? reply`
#[tactic(auto, unfolding(crate::specs::Grammar::ending))]
pub fn ending(cursor: &mut Cursor, alloc: Global, code: &Shared) -> Result<(Edit, Reply), ReadError>
    ensures { Gives result cursor.new (read (ending code.now) cursor.old) }
{
    let edit = edit(cursor, alloc, code)?;
    let reply = reply(cursor, alloc, code)?;
    Ok((edit, reply))
}
