// Instructions that ask the client, or that go from one stack to another.
ghost use Rattle.std.specs.Prelude.{◌≡◌, ◌++◌, OnOk};
ghost use Rattle.ir_print.specs.Words.{text, optional_words};
ghost use Rattle.ir_print.specs.Stacks.{wpexc_words, watched_words, trapping_words, threadlocal_words, ret_with_words, stack_switch_words};

use crate::lists::{
    dest, exc_and_keep, new_stack_clause, optional_exc, optional_keep, type_list, value,
};
use crate::spellings::spelling;
use crate::words::{number, put};
use ir_lex::Name;
use ir_tree::{Destination, ExceptionClause, NewStackClause, Operand, StackSwitch, Trapping};
use std::alloc::AllocError;
use text_forms::{Listing, Symbol};

#[tactic(auto, using(crate::specs::Lemmas::Texts::text_append), unfolding(crate::specs::Stacks::wpexc_words))]
fn wpexc(out: &mut Vec<u8>, space: &[u8], to: &Destination) -> Result<(), AllocError>
    ensures { OnOk result (out.new.items ≡ out.old.items ++ text (wpexc_words space.now to.now)) }
{
    put(out, space, spelling(Symbol::Wpexc))?;
    out.push(b'(')?;
    dest(out, b"", to)?;
    out.push(b')')?;
    Ok(())
}

fn optional_wpexc(out: &mut Vec<u8>, to: &Option<Destination>) -> Result<(), AllocError>
    ensures { OnOk result (out.new.items ≡ out.old.items ++ text (optional_words wpexc_words to.now)) }
{
    match to {
        Some(to) => wpexc(out, b" ", to)?,
        None => {}
    }
    Ok(())
}

#[tactic(auto, using(crate::specs::Lemmas::Texts::text_append), unfolding(crate::specs::Stacks::watched_words))]
fn watched(
    out: &mut Vec<u8>,
    disabled: &Destination,
    enabled: &Destination,
    exceptional: &Option<Destination>,
    keepalive: &Option<Listing<Name>>,
) -> Result<(), AllocError>
    ensures { OnOk result (out.new.items ≡ out.old.items ++ text (watched_words disabled.now enabled.now exceptional.now keepalive.now)) }
{
    dest(out, b" ", disabled)?;
    dest(out, b" ", enabled)?;
    optional_wpexc(out, exceptional)?;
    optional_keep(out, keepalive)?;
    Ok(())
}

#[tactic(auto, using(crate::specs::Lemmas::Texts::text_append), unfolding(crate::specs::Stacks::trapping_words))]
pub fn trapping(out: &mut Vec<u8>, space: &[u8], trapping: &Trapping) -> Result<(), AllocError>
    ensures { OnOk result (out.new.items ≡ out.old.items ++ text (trapping_words space.now trapping.now)) }
{
    match trapping {
        Trapping::Trap {
            types,
            exception,
            keepalive,
        } => {
            put(out, space, spelling(Symbol::Trap))?;
            type_list(out, b" ", types)?;
            exc_and_keep(out, exception, keepalive)?;
        }
        Trapping::Watchpoint {
            number: watchpoint,
            types,
            disabled,
            enabled,
            exceptional,
            keepalive,
        } => {
            put(out, space, spelling(Symbol::Watchpoint))?;
            number(out, b" ", watchpoint)?;
            type_list(out, b" ", types)?;
            watched(out, disabled, enabled, exceptional, keepalive)?;
        }
        Trapping::Wpbranch {
            number: watchpoint,
            disabled,
            enabled,
        } => {
            put(out, space, spelling(Symbol::Wpbranch))?;
            number(out, b" ", watchpoint)?;
            dest(out, b" ", disabled)?;
            dest(out, b" ", enabled)?;
        }
    }
    Ok(())
}

#[tactic(auto, using(crate::specs::Lemmas::Texts::text_append), unfolding(crate::specs::Stacks::threadlocal_words))]
fn threadlocal(out: &mut Vec<u8>, space: &[u8], operand: &Operand) -> Result<(), AllocError>
    ensures { OnOk result (out.new.items ≡ out.old.items ++ text (threadlocal_words space.now operand.now)) }
{
    put(out, space, spelling(Symbol::Threadlocal))?;
    out.push(b'(')?;
    value(out, b"", operand)?;
    out.push(b')')?;
    Ok(())
}

fn optional_threadlocal(out: &mut Vec<u8>, operand: &Option<Operand>) -> Result<(), AllocError>
    ensures { OnOk result (out.new.items ≡ out.old.items ++ text (optional_words threadlocal_words operand.now)) }
{
    match operand {
        Some(operand) => threadlocal(out, b" ", operand)?,
        None => {}
    }
    Ok(())
}

#[tactic(auto, using(crate::specs::Lemmas::Texts::text_append), unfolding(crate::specs::Stacks::ret_with_words))]
fn ret_with(
    out: &mut Vec<u8>,
    space: &[u8],
    types: &Listing<Name>,
    entered: &NewStackClause,
    exception: &Option<ExceptionClause>,
    keepalive: &Option<Listing<Name>>,
) -> Result<(), AllocError>
    ensures { OnOk result (out.new.items ≡ out.old.items ++ text (ret_with_words space.now types.now entered.now exception.now keepalive.now)) }
{
    put(out, space, spelling(Symbol::RetWith))?;
    type_list(out, b"", types)?;
    new_stack_clause(out, b" ", entered)?;
    exc_and_keep(out, exception, keepalive)?;
    Ok(())
}

#[tactic(auto, using(crate::specs::Lemmas::Texts::text_append), unfolding(crate::specs::Stacks::stack_switch_words))]
pub fn stack_switch(out: &mut Vec<u8>, space: &[u8], switch: &StackSwitch) -> Result<(), AllocError>
    ensures { OnOk result (out.new.items ≡ out.old.items ++ text (stack_switch_words space.now switch.now)) }
{
    match switch {
        StackSwitch::SwapReturning {
            stack,
            types,
            entered,
            exception,
            keepalive,
        } => {
            put(out, space, spelling(Symbol::Swapstack))?;
            value(out, b" ", stack)?;
            ret_with(out, b" ", types, entered, exception, keepalive)?;
        }
        StackSwitch::SwapKilling { stack, entered } => {
            put(out, space, spelling(Symbol::Swapstack))?;
            value(out, b" ", stack)?;
            put(out, b" ", spelling(Symbol::KillOld))?;
            new_stack_clause(out, b" ", entered)?;
        }
        StackSwitch::Newthread {
            stack,
            threadlocal,
            entered,
            exception,
        } => {
            put(out, space, spelling(Symbol::Newthread))?;
            value(out, b" ", stack)?;
            optional_threadlocal(out, threadlocal)?;
            new_stack_clause(out, b" ", entered)?;
            optional_exc(out, exception)?;
        }
    }
    Ok(())
}
