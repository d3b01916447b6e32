//! Common instructions: those that stand under names.
ghost use Rattle.text_forms.specs.declared.symbol.Symbol.TheVariants as symbols;
ghost use Rattle.text_forms.specs.Forms.{◌▸◌, ◌◂◌};
ghost use Rattle.text_forms.specs.Reading.{read};
ghost use Rattle.text_forms.specs.Answers.{Gives};
ghost use Rattle.ir_lex.specs.TokenForms.{mark};
ghost use Rattle.ir_tree.specs.Lists.{global};
ghost use Rattle.ir_tree.specs.CommonForms.{one_value, two_values, three_values, new_stack, kill_stack, thread_exit, current_stack, set_threadlocal, get_threadlocal, futex_wait, futex_wake, futex_wait_timeout, common_inst};

use crate::lists::{bracketed, global, value};
use ir_lex::{Cursor, Name};
use ir_tree::{CommonInst, Operand};
use std::alloc::Global;
use text_forms::{ReadError, Symbol};

/// The names that are of no instruction in the profile.
const LEFT_OUT: [Symbol; 1] = [Symbol::Global];

/// `( value )`
#[tactic(auto, unfolding(ir_tree::specs::CommonForms::one_value))]
fn one_value(cursor: &mut Cursor, alloc: Global) -> Result<Operand, ReadError>
    ensures { Gives result cursor.new (read one_value cursor.old) }
{
    cursor.mark(Symbol::Open)?;
    let operand = value(cursor, alloc)?;
    cursor.mark(Symbol::Close)?;
    Ok(operand)
}

/// `( value value )`
#[tactic(auto, unfolding(ir_tree::specs::CommonForms::two_values))]
fn two_values(cursor: &mut Cursor, alloc: Global) -> Result<(Operand, Operand), ReadError>
    ensures { Gives result cursor.new (read two_values cursor.old) }
{
    cursor.mark(Symbol::Open)?;
    let first = value(cursor, alloc)?;
    let second = value(cursor, alloc)?;
    cursor.mark(Symbol::Close)?;
    Ok((first, second))
}

/// `( value value value )`
#[tactic(auto, unfolding(ir_tree::specs::CommonForms::three_values))]
fn three_values(
    cursor: &mut Cursor,
    alloc: Global,
) -> Result<(Operand, Operand, Operand), ReadError>
    ensures { Gives result cursor.new (read three_values cursor.old) }
{
    cursor.mark(Symbol::Open)?;
    let first = value(cursor, alloc)?;
    let second = value(cursor, alloc)?;
    let third = value(cursor, alloc)?;
    cursor.mark(Symbol::Close)?;
    Ok((first, second, third))
}

/// `< [ S ] >`
fn signature(cursor: &mut Cursor, alloc: Global) -> Result<Name, ReadError>
    ensures { Gives result cursor.new (read (mark symbols.Less ▸ mark symbols.SquareOpen ▸ global ◂ mark symbols.SquareClose ◂ mark symbols.Greater) cursor.old) }
{
    cursor.mark(Symbol::Less)?;
    cursor.mark(Symbol::SquareOpen)?;
    let signature = global(cursor, alloc)?;
    cursor.mark(Symbol::SquareClose)?;
    cursor.mark(Symbol::Greater)?;
    Ok(signature)
}

/// `@uvm.new_stack < [ S ] > ( f )`
#[tactic(auto, unfolding(ir_tree::specs::CommonForms::new_stack))]
fn new_stack(cursor: &mut Cursor, alloc: Global) -> Result<CommonInst, ReadError>
    ensures { Gives result cursor.new (read new_stack cursor.old) }
{
    cursor.mark(Symbol::UvmNewStack)?;
    let signature = signature(cursor, alloc)?;
    let function = one_value(cursor, alloc)?;
    Ok(CommonInst::NewStack {
        signature,
        function,
    })
}

/// `@uvm.kill_stack ( s )`
#[tactic(auto, unfolding(ir_tree::specs::CommonForms::kill_stack))]
fn kill_stack(cursor: &mut Cursor, alloc: Global) -> Result<CommonInst, ReadError>
    ensures { Gives result cursor.new (read kill_stack cursor.old) }
{
    cursor.mark(Symbol::UvmKillStack)?;
    let stack = one_value(cursor, alloc)?;
    Ok(CommonInst::KillStack { stack })
}

/// `@uvm.thread_exit`, behind which `( )` may stand
#[tactic(auto, unfolding(ir_tree::specs::CommonForms::thread_exit))]
fn thread_exit(cursor: &mut Cursor) -> Result<CommonInst, ReadError>
    ensures { Gives result cursor.new (read thread_exit cursor.old) }
{
    cursor.mark(Symbol::UvmThreadExit)?;
    Ok(CommonInst::ThreadExit)
}

/// `@uvm.current_stack`, behind which `( )` may stand
#[tactic(auto, unfolding(ir_tree::specs::CommonForms::current_stack))]
fn current_stack(cursor: &mut Cursor) -> Result<CommonInst, ReadError>
    ensures { Gives result cursor.new (read current_stack cursor.old) }
{
    cursor.mark(Symbol::UvmCurrentStack)?;
    Ok(CommonInst::CurrentStack)
}

/// `@uvm.set_threadlocal ( r )`
#[tactic(auto, unfolding(ir_tree::specs::CommonForms::set_threadlocal))]
fn set_threadlocal(cursor: &mut Cursor, alloc: Global) -> Result<CommonInst, ReadError>
    ensures { Gives result cursor.new (read set_threadlocal cursor.old) }
{
    cursor.mark(Symbol::UvmSetThreadlocal)?;
    let reference = one_value(cursor, alloc)?;
    Ok(CommonInst::SetThreadlocal { reference })
}

/// `@uvm.get_threadlocal`, behind which `( )` may stand
#[tactic(auto, unfolding(ir_tree::specs::CommonForms::get_threadlocal))]
fn get_threadlocal(cursor: &mut Cursor) -> Result<CommonInst, ReadError>
    ensures { Gives result cursor.new (read get_threadlocal cursor.old) }
{
    cursor.mark(Symbol::UvmGetThreadlocal)?;
    Ok(CommonInst::GetThreadlocal)
}

/// `@uvm.futex.wait < T > ( p v )`
#[tactic(auto, unfolding(ir_tree::specs::CommonForms::futex_wait))]
fn futex_wait(cursor: &mut Cursor, alloc: Global) -> Result<CommonInst, ReadError>
    ensures { Gives result cursor.new (read futex_wait cursor.old) }
{
    cursor.mark(Symbol::UvmFutexWait)?;
    let of_type = bracketed(cursor, alloc)?;
    let (location, value) = two_values(cursor, alloc)?;
    Ok(CommonInst::FutexWait {
        of_type,
        location,
        value,
    })
}

/// `@uvm.futex.wake < T > ( p n )`
#[tactic(auto, unfolding(ir_tree::specs::CommonForms::futex_wake))]
fn futex_wake(cursor: &mut Cursor, alloc: Global) -> Result<CommonInst, ReadError>
    ensures { Gives result cursor.new (read futex_wake cursor.old) }
{
    cursor.mark(Symbol::UvmFutexWake)?;
    let of_type = bracketed(cursor, alloc)?;
    let (location, count) = two_values(cursor, alloc)?;
    Ok(CommonInst::FutexWake {
        of_type,
        location,
        count,
    })
}

/// `@uvm.futex.wait_timeout < T > ( p v n )`
#[tactic(auto, unfolding(ir_tree::specs::CommonForms::futex_wait_timeout))]
fn futex_wait_timeout(cursor: &mut Cursor, alloc: Global) -> Result<CommonInst, ReadError>
    ensures { Gives result cursor.new (read futex_wait_timeout cursor.old) }
{
    cursor.mark(Symbol::UvmFutexWaitTimeout)?;
    let of_type = bracketed(cursor, alloc)?;
    let (location, value, limit) = three_values(cursor, alloc)?;
    Ok(CommonInst::FutexWaitTimeout {
        of_type,
        location,
        value,
        limit,
    })
}

/// Any of them. At every other name the profile leaves an instruction out.
#[tactic(auto, unfolding(ir_tree::specs::CommonForms::common_inst))]
pub fn common_inst(cursor: &mut Cursor, alloc: Global) -> Result<CommonInst, ReadError>
    ensures { Gives result cursor.new (read common_inst cursor.old) }
{
    match cursor.symbol() {
        Symbol::UvmNewStack => new_stack(cursor, alloc),
        Symbol::UvmKillStack => kill_stack(cursor, alloc),
        Symbol::UvmThreadExit => thread_exit(cursor),
        Symbol::UvmCurrentStack => current_stack(cursor),
        Symbol::UvmSetThreadlocal => set_threadlocal(cursor, alloc),
        Symbol::UvmGetThreadlocal => get_threadlocal(cursor),
        Symbol::UvmFutexWait => futex_wait(cursor, alloc),
        Symbol::UvmFutexWake => futex_wake(cursor, alloc),
        Symbol::UvmFutexWaitTimeout => futex_wait_timeout(cursor, alloc),
        _ => Err(ReadError::Fault(cursor.refusal(&LEFT_OUT))),
    }
}
