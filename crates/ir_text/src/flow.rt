//! Instructions that say where the function goes on, or that enter or leave one. Each reader gives the place of the word, too.
ghost use Rattle.text_forms.specs.declared.symbol.Symbol.TheVariants as symbols;
ghost use Rattle.std.specs.Prelude.{◌≡◌, [], ◌∷◌, IfOk};
ghost use Rattle.text_forms.specs.Forms.{up_to};
ghost use Rattle.text_forms.specs.Reading.{read};
ghost use Rattle.text_forms.specs.Answers.{Gives};
ghost use Rattle.ir_tree.specs.Control.{branch, branch2, switch_case, switch, call, tailcall, alone, ret, throw, control};

use crate::lists::{
    GLOBALS, bracketed, dest, global, optional_exc, optional_keep, too_many, value, values,
};
use ir_lex::Cursor;
use ir_tree::{Arguments, Case, ControlFlow, Operand};
use std::alloc::{AllocError, Global};
use text_forms::{Listing, ReadError, Symbol, passes_limit};

/// How many cases a `SWITCH` may have.
const CASE_LIMIT: usize = 1024;

/// `BRANCH dest`
#[tactic(auto, unfolding(ir_tree::specs::Control::branch))]
fn branch(cursor: &mut Cursor, alloc: Global) -> Result<(usize, ControlFlow), ReadError>
    ensures { Gives result cursor.new (read branch cursor.old) }
{
    let place = cursor.mark(Symbol::Branch)?;
    let destination = dest(cursor, alloc)?;
    Ok((place, ControlFlow::Branch { destination }))
}

/// `BRANCH2 c dest dest`
#[tactic(auto, unfolding(ir_tree::specs::Control::branch2))]
fn branch2(cursor: &mut Cursor, alloc: Global) -> Result<(usize, ControlFlow), ReadError>
    ensures { Gives result cursor.new (read branch2 cursor.old) }
{
    let place = cursor.mark(Symbol::Branch2)?;
    let condition = value(cursor, alloc)?;
    let if_one = dest(cursor, alloc)?;
    let if_zero = dest(cursor, alloc)?;
    Ok((
        place,
        ControlFlow::Branch2 {
            condition,
            if_one,
            if_zero,
        },
    ))
}

/// `G dest`
#[tactic(auto, unfolding(ir_tree::specs::Control::switch_case))]
fn switch_case(cursor: &mut Cursor, alloc: Global) -> Result<Case, ReadError>
    ensures { Gives result cursor.new (read switch_case cursor.old) }
{
    let constant = global(cursor, alloc)?;
    let destination = dest(cursor, alloc)?;
    Ok(Case {
        constant,
        destination,
    })
}

/// The cases up to `}`
#[tactic(auto, using(ir_lex::specs::Lemmas::Cursors::one_goes_on))]
fn cases(cursor: &mut Cursor, alloc: Global) -> Result<Listing<Case>, ReadError>
    ensures { Gives result cursor.new (read (up_to 1024 (symbols.BraceClose ∷ []) switch_case) cursor.old) }
{
    let mut cases = Listing::new(alloc);
    'each: while !cursor.at(Symbol::BraceClose) {
        if passes_limit(cases.len(), CASE_LIMIT, cursor.at_any(&GLOBALS)) {
            return Err(ReadError::Fault(too_many(cursor)));
        }
        cases.push(switch_case(cursor, alloc)?)?;
    }
    cursor.bump();
    Ok(cases)
}

/// `SWITCH < T > a dest { case* }`
#[tactic(auto, unfolding(ir_tree::specs::Control::switch))]
fn switch(cursor: &mut Cursor, alloc: Global) -> Result<(usize, ControlFlow), ReadError>
    ensures { Gives result cursor.new (read switch cursor.old) }
{
    let place = cursor.mark(Symbol::Switch)?;
    let of_type = bracketed(cursor, alloc)?;
    let operand = value(cursor, alloc)?;
    let default = dest(cursor, alloc)?;
    cursor.mark(Symbol::BraceOpen)?;
    let cases = cases(cursor, alloc)?;
    Ok((
        place,
        ControlFlow::Switch {
            of_type,
            operand,
            default,
            cases,
        },
    ))
}

/// `CALL < S > f ( value* ) exc? keep?`
#[tactic(auto, unfolding(ir_tree::specs::Control::call))]
fn call(cursor: &mut Cursor, alloc: Global) -> Result<(usize, ControlFlow), ReadError>
    ensures { Gives result cursor.new (read call cursor.old) }
{
    let place = cursor.mark(Symbol::Call)?;
    let signature = bracketed(cursor, alloc)?;
    let callee = value(cursor, alloc)?;
    let arguments = values(cursor, alloc)?;
    let exception = optional_exc(cursor, alloc)?;
    let keepalive = optional_keep(cursor, alloc)?;
    Ok((
        place,
        ControlFlow::Call {
            signature,
            callee,
            arguments,
            exception,
            keepalive,
        },
    ))
}

/// `TAILCALL < S > f ( value* )`
#[tactic(auto, unfolding(ir_tree::specs::Control::tailcall))]
fn tailcall(cursor: &mut Cursor, alloc: Global) -> Result<(usize, ControlFlow), ReadError>
    ensures { Gives result cursor.new (read tailcall cursor.old) }
{
    let place = cursor.mark(Symbol::Tailcall)?;
    let signature = bracketed(cursor, alloc)?;
    let callee = value(cursor, alloc)?;
    let arguments = values(cursor, alloc)?;
    Ok((
        place,
        ControlFlow::Tailcall {
            signature,
            callee,
            arguments,
        },
    ))
}

/// One value as a list of one.
fn alone(alloc: Global, value: Operand) -> Result<Arguments, AllocError>
    ensures { IfOk result (λ list. list ≡ alone value) }
{
    let place = match &value {
        Operand::Local(name) => name.place,
        Operand::Global(name) => name.place,
    };
    let mut values = Listing::new(alloc);
    values.push(value)?;
    Ok(Arguments { place, values })
}

/// `RET ( value* )`, or `RET value`
#[tactic(auto, unfolding(ir_tree::specs::Control::ret))]
fn ret(cursor: &mut Cursor, alloc: Global) -> Result<(usize, ControlFlow), ReadError>
    ensures { Gives result cursor.new (read ret cursor.old) }
{
    let place = cursor.mark(Symbol::Ret)?;
    if cursor.at(Symbol::Open) {
        let values = values(cursor, alloc)?;
        return Ok((place, ControlFlow::Ret { values }));
    }
    let values = alone(alloc, value(cursor, alloc)?)?;
    Ok((place, ControlFlow::Ret { values }))
}

/// `THROW e`
#[tactic(auto, unfolding(ir_tree::specs::Control::throw))]
fn throw(cursor: &mut Cursor, alloc: Global) -> Result<(usize, ControlFlow), ReadError>
    ensures { Gives result cursor.new (read throw cursor.old) }
{
    let place = cursor.mark(Symbol::Throw)?;
    let exception = value(cursor, alloc)?;
    Ok((place, ControlFlow::Throw { exception }))
}

/// Any of them
#[tactic(auto, unfolding(ir_tree::specs::Control::control))]
pub fn control(cursor: &mut Cursor, alloc: Global) -> Result<(usize, ControlFlow), ReadError>
    ensures { Gives result cursor.new (read control cursor.old) }
{
    match cursor.symbol() {
        Symbol::Branch => branch(cursor, alloc),
        Symbol::Branch2 => branch2(cursor, alloc),
        Symbol::Switch => switch(cursor, alloc),
        Symbol::Call => call(cursor, alloc),
        Symbol::Tailcall => tailcall(cursor, alloc),
        Symbol::Ret => ret(cursor, alloc),
        _ => throw(cursor, alloc),
    }
}
