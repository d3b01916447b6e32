// Instructions that compute a value from values.
ghost use Rattle.std.specs.Prelude.{◌≡◌, ◌++◌, OnOk};
ghost use Rattle.ir_print.specs.Words.{text};
ghost use Rattle.ir_print.specs.Computations.{computation_words};

use crate::lists::{bracketed, bracketed_field, bracketed_pair, optional_exc, value};
use crate::operators::{binary, compare, convert};
use crate::spellings::spelling;
use crate::words::put;
use ir_tree::Computation;
use std::alloc::AllocError;
use text_forms::Symbol;

#[tactic(auto, using(crate::specs::Lemmas::Texts::text_append), unfolding(crate::specs::Computations::computation_words))]
pub fn computation(
    out: &mut Vec<u8>,
    space: &[u8],
    computation: &Computation,
) -> Result<(), AllocError>
    ensures { OnOk result (out.new.items ≡ out.old.items ++ text (computation_words space.now computation.now)) }
{
    match computation {
        Computation::Binary {
            op,
            of_type,
            left,
            right,
            exception,
        } => {
            put(out, space, binary(*op))?;
            bracketed(out, b" ", of_type)?;
            value(out, b" ", left)?;
            value(out, b" ", right)?;
            optional_exc(out, exception)?;
        }
        Computation::Compare {
            op,
            of_type,
            left,
            right,
        } => {
            put(out, space, compare(*op))?;
            bracketed(out, b" ", of_type)?;
            value(out, b" ", left)?;
            value(out, b" ", right)?;
        }
        Computation::Convert {
            op,
            from,
            to,
            operand,
        } => {
            put(out, space, convert(*op))?;
            bracketed_pair(out, b" ", from, to)?;
            value(out, b" ", operand)?;
        }
        Computation::Refcast { from, to, operand } => {
            put(out, space, spelling(Symbol::Refcast))?;
            bracketed_pair(out, b" ", from, to)?;
            value(out, b" ", operand)?;
        }
        Computation::Select {
            condition_type,
            of_type,
            condition,
            if_one,
            if_zero,
        } => {
            put(out, space, spelling(Symbol::Select))?;
            bracketed_pair(out, b" ", condition_type, of_type)?;
            value(out, b" ", condition)?;
            value(out, b" ", if_one)?;
            value(out, b" ", if_zero)?;
        }
        Computation::Extractvalue {
            of_type,
            field,
            operand,
        } => {
            put(out, space, spelling(Symbol::Extractvalue))?;
            bracketed_field(out, b" ", of_type, field)?;
            value(out, b" ", operand)?;
        }
        Computation::Insertvalue {
            of_type,
            field,
            operand,
            value: inserted,
        } => {
            put(out, space, spelling(Symbol::Insertvalue))?;
            bracketed_field(out, b" ", of_type, field)?;
            value(out, b" ", operand)?;
            value(out, b" ", inserted)?;
        }
    }
    Ok(())
}
