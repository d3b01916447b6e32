//! Instructions that ask the client, or that go from one stack to another. Each reader gives the place of the word, too.
ghost use Rattle.text_forms.specs.declared.symbol.Symbol.TheVariants as symbols;
ghost use Rattle.text_forms.specs.Reading.{read};
ghost use Rattle.text_forms.specs.Answers.{Gives};
ghost use Rattle.ir_tree.specs.Lists.{optional};
ghost use Rattle.ir_tree.specs.Stacks.{trap, wpexc, watchpoint, wpbranch, trapping_form, returning, killing, swapstack, threadlocal, newthread, stack_switch};

use crate::lists::{dest, new_stack_clause, optional_exc, optional_keep, type_list, value};
use ir_lex::{Cursor, Name};
use ir_tree::{Destination, ExceptionClause, NewStackClause, Operand, StackSwitch, Trapping};
use std::alloc::Global;
use text_forms::{Listing, ReadError, Symbol};

/// `TRAP < T* > exc? keep?`
#[tactic(auto, unfolding(ir_tree::specs::Stacks::trap))]
fn trap(cursor: &mut Cursor, alloc: Global) -> Result<(usize, Trapping), ReadError>
    ensures { Gives result cursor.new (read trap cursor.old) }
{
    let place = cursor.mark(Symbol::Trap)?;
    let types = type_list(cursor, alloc)?;
    let exception = optional_exc(cursor, alloc)?;
    let keepalive = optional_keep(cursor, alloc)?;
    Ok((
        place,
        Trapping::Trap {
            types,
            exception,
            keepalive,
        },
    ))
}

/// `WPEXC ( dest )`
#[tactic(auto, unfolding(ir_tree::specs::Stacks::wpexc))]
fn wpexc(cursor: &mut Cursor, alloc: Global) -> Result<Destination, ReadError>
    ensures { Gives result cursor.new (read wpexc cursor.old) }
{
    cursor.mark(Symbol::Wpexc)?;
    cursor.mark(Symbol::Open)?;
    let destination = dest(cursor, alloc)?;
    cursor.mark(Symbol::Close)?;
    Ok(destination)
}

/// `wpexc?`
fn optional_wpexc(cursor: &mut Cursor, alloc: Global) -> Result<Option<Destination>, ReadError>
    ensures { Gives result cursor.new (read (optional symbols.Wpexc wpexc) cursor.old) }
{
    if cursor.at(Symbol::Wpexc) {
        Ok(Some(wpexc(cursor, alloc)?))
    } else {
        Ok(None)
    }
}

/// `WATCHPOINT n < T* > dest dest wpexc? keep?`
#[tactic(auto, unfolding(ir_tree::specs::Stacks::watchpoint))]
fn watchpoint(cursor: &mut Cursor, alloc: Global) -> Result<(usize, Trapping), ReadError>
    ensures { Gives result cursor.new (read watchpoint cursor.old) }
{
    let place = cursor.mark(Symbol::Watchpoint)?;
    let number = cursor.numeral()?;
    let types = type_list(cursor, alloc)?;
    let disabled = dest(cursor, alloc)?;
    let enabled = dest(cursor, alloc)?;
    let exceptional = optional_wpexc(cursor, alloc)?;
    let keepalive = optional_keep(cursor, alloc)?;
    Ok((
        place,
        Trapping::Watchpoint {
            number,
            types,
            disabled,
            enabled,
            exceptional,
            keepalive,
        },
    ))
}

/// `WPBRANCH n dest dest`
#[tactic(auto, unfolding(ir_tree::specs::Stacks::wpbranch))]
fn wpbranch(cursor: &mut Cursor, alloc: Global) -> Result<(usize, Trapping), ReadError>
    ensures { Gives result cursor.new (read wpbranch cursor.old) }
{
    let place = cursor.mark(Symbol::Wpbranch)?;
    let number = cursor.numeral()?;
    let disabled = dest(cursor, alloc)?;
    let enabled = dest(cursor, alloc)?;
    Ok((
        place,
        Trapping::Wpbranch {
            number,
            disabled,
            enabled,
        },
    ))
}

/// Any of those that ask the client
#[tactic(auto, unfolding(ir_tree::specs::Stacks::trapping_form))]
pub fn trapping_form(cursor: &mut Cursor, alloc: Global) -> Result<(usize, Trapping), ReadError>
    ensures { Gives result cursor.new (read trapping_form cursor.old) }
{
    match cursor.symbol() {
        Symbol::Trap => trap(cursor, alloc),
        Symbol::Watchpoint => watchpoint(cursor, alloc),
        _ => wpbranch(cursor, alloc),
    }
}

/// What stands behind `RET_WITH`.
type Returning = (
    Listing<Name>,
    (
        NewStackClause,
        (Option<ExceptionClause>, Option<Listing<Name>>),
    ),
);

/// `RET_WITH < T* > new exc? keep?`
#[tactic(auto, unfolding(ir_tree::specs::Stacks::returning))]
fn returning(cursor: &mut Cursor, alloc: Global) -> Result<Returning, ReadError>
    ensures { Gives result cursor.new (read returning cursor.old) }
{
    cursor.mark(Symbol::RetWith)?;
    let types = type_list(cursor, alloc)?;
    let entered = new_stack_clause(cursor, alloc)?;
    let exception = optional_exc(cursor, alloc)?;
    let keepalive = optional_keep(cursor, alloc)?;
    Ok((types, (entered, (exception, keepalive))))
}

/// `KILL_OLD new`
#[tactic(auto, unfolding(ir_tree::specs::Stacks::killing))]
fn killing(cursor: &mut Cursor, alloc: Global) -> Result<NewStackClause, ReadError>
    ensures { Gives result cursor.new (read killing cursor.old) }
{
    cursor.mark(Symbol::KillOld)?;
    let entered = new_stack_clause(cursor, alloc)?;
    Ok(entered)
}

/// `SWAPSTACK s RET_WITH < T* > new exc? keep?`, or `SWAPSTACK s KILL_OLD new`
#[tactic(auto, unfolding(ir_tree::specs::Stacks::swapstack))]
fn swapstack(cursor: &mut Cursor, alloc: Global) -> Result<(usize, StackSwitch), ReadError>
    ensures { Gives result cursor.new (read swapstack cursor.old) }
{
    let place = cursor.mark(Symbol::Swapstack)?;
    let stack = value(cursor, alloc)?;
    if cursor.at(Symbol::RetWith) {
        let (types, (entered, (exception, keepalive))) = returning(cursor, alloc)?;
        return Ok((
            place,
            StackSwitch::SwapReturning {
                stack,
                types,
                entered,
                exception,
                keepalive,
            },
        ));
    }
    let entered = killing(cursor, alloc)?;
    Ok((place, StackSwitch::SwapKilling { stack, entered }))
}

/// `THREADLOCAL ( value )`
#[tactic(auto, unfolding(ir_tree::specs::Stacks::threadlocal))]
fn threadlocal(cursor: &mut Cursor, alloc: Global) -> Result<Operand, ReadError>
    ensures { Gives result cursor.new (read threadlocal cursor.old) }
{
    cursor.mark(Symbol::Threadlocal)?;
    cursor.mark(Symbol::Open)?;
    let reference = value(cursor, alloc)?;
    cursor.mark(Symbol::Close)?;
    Ok(reference)
}

/// `tl?`
fn optional_threadlocal(cursor: &mut Cursor, alloc: Global) -> Result<Option<Operand>, ReadError>
    ensures { Gives result cursor.new (read (optional symbols.Threadlocal threadlocal) cursor.old) }
{
    if cursor.at(Symbol::Threadlocal) {
        Ok(Some(threadlocal(cursor, alloc)?))
    } else {
        Ok(None)
    }
}

/// `NEWTHREAD s tl? new exc?`
#[tactic(auto, unfolding(ir_tree::specs::Stacks::newthread))]
fn newthread(cursor: &mut Cursor, alloc: Global) -> Result<(usize, StackSwitch), ReadError>
    ensures { Gives result cursor.new (read newthread cursor.old) }
{
    let place = cursor.mark(Symbol::Newthread)?;
    let stack = value(cursor, alloc)?;
    let threadlocal = optional_threadlocal(cursor, alloc)?;
    let entered = new_stack_clause(cursor, alloc)?;
    let exception = optional_exc(cursor, alloc)?;
    Ok((
        place,
        StackSwitch::Newthread {
            stack,
            threadlocal,
            entered,
            exception,
        },
    ))
}

/// Any of those that go from one stack to another
#[tactic(auto, unfolding(ir_tree::specs::Stacks::stack_switch))]
pub fn stack_switch(cursor: &mut Cursor, alloc: Global) -> Result<(usize, StackSwitch), ReadError>
    ensures { Gives result cursor.new (read stack_switch cursor.old) }
{
    match cursor.symbol() {
        Symbol::Swapstack => swapstack(cursor, alloc),
        _ => newthread(cursor, alloc),
    }
}
