// Instructions that read and write memory.
ghost use Rattle.std.specs.Prelude.{◌≡◌, ◌++◌, OnOk};
ghost use Rattle.ir_print.specs.Words.{text};
ghost use Rattle.ir_print.specs.Accesses.{order_words, weak_words, stored_words, exchanged_words, access_words};

use crate::lists::{bracketed, optional_exc, value};
use crate::operators;
use crate::spellings::spelling;
use crate::words::put;
use ir_lex::Name;
use ir_tree::{Access, ExceptionClause, Operand, WrittenOrder};
use std::alloc::AllocError;
use text_forms::Symbol;

#[tactic(auto, unfolding(crate::specs::Accesses::order_words))]
fn order(out: &mut Vec<u8>, space: &[u8], order: &WrittenOrder) -> Result<(), AllocError>
    ensures { OnOk result (out.new.items ≡ out.old.items ++ text (order_words space.now order.now)) }
{
    put(out, space, operators::order(order.order))?;
    Ok(())
}

#[tactic(auto, unfolding(crate::specs::Accesses::weak_words))]
fn weak(out: &mut Vec<u8>, space: &[u8], weak: bool) -> Result<(), AllocError>
    ensures { OnOk result (out.new.items ≡ out.old.items ++ text (weak_words space.now weak)) }
{
    if weak {
        put(out, space, spelling(Symbol::Weak))?;
    }
    Ok(())
}

#[tactic(auto, using(crate::specs::Lemmas::Texts::text_append), unfolding(crate::specs::Accesses::stored_words))]
fn store_operands(
    out: &mut Vec<u8>,
    of_type: &Name,
    location: &Operand,
    stored: &Operand,
    exception: &Option<ExceptionClause>,
) -> Result<(), AllocError>
    ensures { OnOk result (out.new.items ≡ out.old.items ++ text (stored_words of_type.now location.now stored.now exception.now)) }
{
    bracketed(out, b" ", of_type)?;
    value(out, b" ", location)?;
    value(out, b" ", stored)?;
    optional_exc(out, exception)?;
    Ok(())
}

#[tactic(auto, using(crate::specs::Lemmas::Texts::text_append), unfolding(crate::specs::Accesses::exchanged_words))]
fn exchange_operands(
    out: &mut Vec<u8>,
    of_type: &Name,
    location: &Operand,
    expected: &Operand,
    desired: &Operand,
    exception: &Option<ExceptionClause>,
) -> Result<(), AllocError>
    ensures { OnOk result (out.new.items ≡ out.old.items ++ text (exchanged_words of_type.now location.now expected.now desired.now exception.now)) }
{
    bracketed(out, b" ", of_type)?;
    value(out, b" ", location)?;
    value(out, b" ", expected)?;
    value(out, b" ", desired)?;
    optional_exc(out, exception)?;
    Ok(())
}

#[tactic(auto, using(crate::specs::Lemmas::Texts::text_append), unfolding(crate::specs::Accesses::access_words))]
pub fn access(out: &mut Vec<u8>, space: &[u8], access: &Access) -> Result<(), AllocError>
    ensures { OnOk result (out.new.items ≡ out.old.items ++ text (access_words space.now access.now)) }
{
    match access {
        Access::Load {
            order: memory_order,
            of_type,
            location,
            exception,
        } => {
            put(out, space, spelling(Symbol::Load))?;
            order(out, b" ", memory_order)?;
            bracketed(out, b" ", of_type)?;
            value(out, b" ", location)?;
            optional_exc(out, exception)?;
        }
        Access::Store {
            order: memory_order,
            of_type,
            location,
            value: stored,
            exception,
        } => {
            put(out, space, spelling(Symbol::Store))?;
            order(out, b" ", memory_order)?;
            store_operands(out, of_type, location, stored, exception)?;
        }
        Access::Cmpxchg {
            weak: is_weak,
            success,
            failure,
            of_type,
            location,
            expected,
            desired,
            exception,
        } => {
            put(out, space, spelling(Symbol::Cmpxchg))?;
            weak(out, b" ", *is_weak)?;
            order(out, b" ", success)?;
            order(out, b" ", failure)?;
            exchange_operands(out, of_type, location, expected, desired, exception)?;
        }
        Access::Atomicrmw {
            order: memory_order,
            op,
            of_type,
            location,
            operand,
            exception,
        } => {
            put(out, space, spelling(Symbol::Atomicrmw))?;
            order(out, b" ", memory_order)?;
            put(out, b" ", operators::update(*op))?;
            store_operands(out, of_type, location, operand, exception)?;
        }
        Access::Fence {
            order: memory_order,
        } => {
            put(out, space, spelling(Symbol::Fence))?;
            order(out, b" ", memory_order)?;
        }
    }
    Ok(())
}
