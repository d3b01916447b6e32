//! Instructions that compute a value from values. Each reader gives the place of the word, too.
ghost use Rattle.text_forms.specs.Reading.{read};
ghost use Rattle.text_forms.specs.Answers.{Gives};
ghost use Rattle.ir_tree.specs.Computations.{binary, compare, convert, refcast, select, bracketed_field, extractvalue, insertvalue, computation};

use crate::lists::{bracketed, bracketed_pair, global, optional_exc, value};
use crate::words::{binary_op, compare_op, convert_op};
use ir_lex::{Cursor, Name, Numeral};
use ir_tree::Computation;
use std::alloc::Global;
use text_forms::{ReadError, Symbol};

/// `BIN < T > a b exc?`
#[tactic(auto, unfolding(ir_tree::specs::Computations::binary))]
fn binary(cursor: &mut Cursor, alloc: Global) -> Result<(usize, Computation), ReadError>
    ensures { Gives result cursor.new (read binary cursor.old) }
{
    let (place, op) = binary_op(cursor)?;
    let of_type = bracketed(cursor, alloc)?;
    let left = value(cursor, alloc)?;
    let right = value(cursor, alloc)?;
    let exception = optional_exc(cursor, alloc)?;
    Ok((
        place,
        Computation::Binary {
            op,
            of_type,
            left,
            right,
            exception,
        },
    ))
}

/// `CMP < T > a b`
#[tactic(auto, unfolding(ir_tree::specs::Computations::compare))]
fn compare(cursor: &mut Cursor, alloc: Global) -> Result<(usize, Computation), ReadError>
    ensures { Gives result cursor.new (read compare cursor.old) }
{
    let (place, op) = compare_op(cursor)?;
    let of_type = bracketed(cursor, alloc)?;
    let left = value(cursor, alloc)?;
    let right = value(cursor, alloc)?;
    Ok((
        place,
        Computation::Compare {
            op,
            of_type,
            left,
            right,
        },
    ))
}

/// `TRUNC < A B > a`, and the same for `ZEXT` and `SEXT`
#[tactic(auto, unfolding(ir_tree::specs::Computations::convert))]
fn convert(cursor: &mut Cursor, alloc: Global) -> Result<(usize, Computation), ReadError>
    ensures { Gives result cursor.new (read convert cursor.old) }
{
    let (place, op) = convert_op(cursor)?;
    let (from, to) = bracketed_pair(cursor, alloc)?;
    let operand = value(cursor, alloc)?;
    Ok((
        place,
        Computation::Convert {
            op,
            from,
            to,
            operand,
        },
    ))
}

/// `REFCAST < A B > a`
#[tactic(auto, unfolding(ir_tree::specs::Computations::refcast))]
fn refcast(cursor: &mut Cursor, alloc: Global) -> Result<(usize, Computation), ReadError>
    ensures { Gives result cursor.new (read refcast cursor.old) }
{
    let place = cursor.mark(Symbol::Refcast)?;
    let (from, to) = bracketed_pair(cursor, alloc)?;
    let operand = value(cursor, alloc)?;
    Ok((place, Computation::Refcast { from, to, operand }))
}

/// `SELECT < C T > c a b`
#[tactic(auto, unfolding(ir_tree::specs::Computations::select))]
fn select(cursor: &mut Cursor, alloc: Global) -> Result<(usize, Computation), ReadError>
    ensures { Gives result cursor.new (read select cursor.old) }
{
    let place = cursor.mark(Symbol::Select)?;
    let (condition_type, of_type) = bracketed_pair(cursor, alloc)?;
    let condition = value(cursor, alloc)?;
    let if_one = value(cursor, alloc)?;
    let if_zero = value(cursor, alloc)?;
    Ok((
        place,
        Computation::Select {
            condition_type,
            of_type,
            condition,
            if_one,
            if_zero,
        },
    ))
}

/// `< T n >`
#[tactic(auto, unfolding(ir_tree::specs::Computations::bracketed_field))]
pub fn bracketed_field(cursor: &mut Cursor, alloc: Global) -> Result<(Name, Numeral), ReadError>
    ensures { Gives result cursor.new (read bracketed_field cursor.old) }
{
    cursor.mark(Symbol::Less)?;
    let of_type = global(cursor, alloc)?;
    let field = cursor.numeral()?;
    cursor.mark(Symbol::Greater)?;
    Ok((of_type, field))
}

/// `EXTRACTVALUE < T n > a`
#[tactic(auto, unfolding(ir_tree::specs::Computations::extractvalue))]
fn extractvalue(cursor: &mut Cursor, alloc: Global) -> Result<(usize, Computation), ReadError>
    ensures { Gives result cursor.new (read extractvalue cursor.old) }
{
    let place = cursor.mark(Symbol::Extractvalue)?;
    let (of_type, field) = bracketed_field(cursor, alloc)?;
    let operand = value(cursor, alloc)?;
    Ok((
        place,
        Computation::Extractvalue {
            of_type,
            field,
            operand,
        },
    ))
}

/// `INSERTVALUE < T n > a b`
#[tactic(auto, unfolding(ir_tree::specs::Computations::insertvalue))]
fn insertvalue(cursor: &mut Cursor, alloc: Global) -> Result<(usize, Computation), ReadError>
    ensures { Gives result cursor.new (read insertvalue cursor.old) }
{
    let place = cursor.mark(Symbol::Insertvalue)?;
    let (of_type, field) = bracketed_field(cursor, alloc)?;
    let operand = value(cursor, alloc)?;
    let value = value(cursor, alloc)?;
    Ok((
        place,
        Computation::Insertvalue {
            of_type,
            field,
            operand,
            value,
        },
    ))
}

/// Any of them
#[tactic(auto, unfolding(ir_tree::specs::Computations::computation))]
pub fn computation(cursor: &mut Cursor, alloc: Global) -> Result<(usize, Computation), ReadError>
    ensures { Gives result cursor.new (read computation cursor.old) }
{
    match cursor.symbol() {
        Symbol::Add
        | Symbol::Sub
        | Symbol::Mul
        | Symbol::Sdiv
        | Symbol::Srem
        | Symbol::Udiv
        | Symbol::Urem
        | Symbol::Shl
        | Symbol::Lshr
        | Symbol::Ashr
        | Symbol::And
        | Symbol::Or
        | Symbol::Xor => binary(cursor, alloc),
        Symbol::Eq
        | Symbol::Ne
        | Symbol::Slt
        | Symbol::Sle
        | Symbol::Sgt
        | Symbol::Sge
        | Symbol::Ult
        | Symbol::Ule
        | Symbol::Ugt
        | Symbol::Uge => compare(cursor, alloc),
        Symbol::Trunc | Symbol::Zext | Symbol::Sext => convert(cursor, alloc),
        Symbol::Refcast => refcast(cursor, alloc),
        Symbol::Select => select(cursor, alloc),
        Symbol::Extractvalue => extractvalue(cursor, alloc),
        _ => insertvalue(cursor, alloc),
    }
}
