//! Instructions that read and write memory. Each reader gives the place of the word, too.
ghost use Rattle.std.specs.Prelude.{◌≡◌};
ghost use Rattle.text_forms.specs.Reading.{read};
ghost use Rattle.text_forms.specs.Answers.{Gives};
ghost use Rattle.ir_tree.specs.Words.{one_of, update_words};
ghost use Rattle.ir_tree.specs.Accesses.{optional_order, order_at, load, store, weak, cmpxchg, atomicrmw, fence, access};

use crate::lists::{bracketed, optional_exc, value};
use crate::words::{order, update_op};
use ir_lex::Cursor;
use ir_tree::{Access, WrittenOrder};
use mu_base::Order;
use std::alloc::Global;
use text_forms::{ReadError, Symbol};

/// The words of memory orders.
const ORDERS: [Symbol; 7] = [
    Symbol::NotAtomic,
    Symbol::Relaxed,
    Symbol::Consume,
    Symbol::Acquire,
    Symbol::Release,
    Symbol::AcqRel,
    Symbol::SeqCst,
];

/// `ord?`
#[tactic(auto, unfolding(ir_tree::specs::Accesses::optional_order))]
fn optional_order(cursor: &mut Cursor) -> Result<Option<WrittenOrder>, ReadError>
    ensures { Gives result cursor.new (read optional_order cursor.old) }
{
    if cursor.at_any(&ORDERS) {
        Ok(Some(order(cursor)?))
    } else {
        Ok(None)
    }
}

/// An order that is left out is `NOT_ATOMIC`, with the place of the instruction's word.
fn order_at(place: usize, order: Option<WrittenOrder>) -> WrittenOrder
    ensures { result ≡ order_at place order }
{
    match order {
        None => WrittenOrder {
            place,
            order: Order::NotAtomic,
        },
        Some(order) => order,
    }
}

/// `LOAD ord? < T > p exc?`
#[tactic(auto, unfolding(ir_tree::specs::Accesses::load))]
fn load(cursor: &mut Cursor, alloc: Global) -> Result<(usize, Access), ReadError>
    ensures { Gives result cursor.new (read load cursor.old) }
{
    let place = cursor.mark(Symbol::Load)?;
    let order = order_at(place, optional_order(cursor)?);
    let of_type = bracketed(cursor, alloc)?;
    let location = value(cursor, alloc)?;
    let exception = optional_exc(cursor, alloc)?;
    Ok((
        place,
        Access::Load {
            order,
            of_type,
            location,
            exception,
        },
    ))
}

/// `STORE ord? < T > p a exc?`
#[tactic(auto, unfolding(ir_tree::specs::Accesses::store))]
fn store(cursor: &mut Cursor, alloc: Global) -> Result<(usize, Access), ReadError>
    ensures { Gives result cursor.new (read store cursor.old) }
{
    let place = cursor.mark(Symbol::Store)?;
    let order = order_at(place, optional_order(cursor)?);
    let of_type = bracketed(cursor, alloc)?;
    let location = value(cursor, alloc)?;
    let value = value(cursor, alloc)?;
    let exception = optional_exc(cursor, alloc)?;
    Ok((
        place,
        Access::Store {
            order,
            of_type,
            location,
            value,
            exception,
        },
    ))
}

/// `WEAK?`
#[tactic(auto, unfolding(ir_tree::specs::Accesses::weak))]
fn weak(cursor: &mut Cursor) -> Result<bool, ReadError>
    ensures { Gives result cursor.new (read weak cursor.old) }
{
    if cursor.at(Symbol::Weak) {
        cursor.mark(Symbol::Weak)?;
        Ok(true)
    } else {
        Ok(false)
    }
}

/// `CMPXCHG WEAK? s f < T > p e d exc?`
#[tactic(auto, unfolding(ir_tree::specs::Accesses::cmpxchg))]
fn cmpxchg(cursor: &mut Cursor, alloc: Global) -> Result<(usize, Access), ReadError>
    ensures { Gives result cursor.new (read cmpxchg cursor.old) }
{
    let place = cursor.mark(Symbol::Cmpxchg)?;
    let weak = weak(cursor)?;
    let success = order(cursor)?;
    let failure = order(cursor)?;
    let of_type = bracketed(cursor, alloc)?;
    let location = value(cursor, alloc)?;
    let expected = value(cursor, alloc)?;
    let desired = value(cursor, alloc)?;
    let exception = optional_exc(cursor, alloc)?;
    Ok((
        place,
        Access::Cmpxchg {
            weak,
            success,
            failure,
            of_type,
            location,
            expected,
            desired,
            exception,
        },
    ))
}

/// `ATOMICRMW ord RMW < T > p a exc?`
#[tactic(auto, unfolding(ir_tree::specs::Accesses::atomicrmw))]
fn atomicrmw(cursor: &mut Cursor, alloc: Global) -> Result<(usize, Access), ReadError>
    ensures { Gives result cursor.new (read atomicrmw cursor.old) }
{
    let place = cursor.mark(Symbol::Atomicrmw)?;
    let order = order(cursor)?;
    let (_, op) = update_op(cursor)?;
    let of_type = bracketed(cursor, alloc)?;
    let location = value(cursor, alloc)?;
    let operand = value(cursor, alloc)?;
    let exception = optional_exc(cursor, alloc)?;
    Ok((
        place,
        Access::Atomicrmw {
            order,
            op,
            of_type,
            location,
            operand,
            exception,
        },
    ))
}

/// `FENCE ord`
#[tactic(auto, unfolding(ir_tree::specs::Accesses::fence))]
fn fence(cursor: &mut Cursor) -> Result<(usize, Access), ReadError>
    ensures { Gives result cursor.new (read fence cursor.old) }
{
    let place = cursor.mark(Symbol::Fence)?;
    let order = order(cursor)?;
    Ok((place, Access::Fence { order }))
}

/// Any of them
#[tactic(auto, unfolding(ir_tree::specs::Accesses::access))]
pub fn access(cursor: &mut Cursor, alloc: Global) -> Result<(usize, Access), ReadError>
    ensures { Gives result cursor.new (read access cursor.old) }
{
    match cursor.symbol() {
        Symbol::Load => load(cursor, alloc),
        Symbol::Store => store(cursor, alloc),
        Symbol::Cmpxchg => cmpxchg(cursor, alloc),
        Symbol::Atomicrmw => atomicrmw(cursor, alloc),
        _ => fence(cursor),
    }
}
