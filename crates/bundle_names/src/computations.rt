// Names in instructions that compute.
ghost use Rattle.demands.specs.Demands.{Meets};
ghost use Rattle.bundle_names.specs.ComputationUses.{computation_use};

use crate::fault::NameFault;
use crate::function_names::FunctionNames;
use crate::globals::Sort;
use crate::uses::{use_exception, use_operand, use_type};
use ir_tree::Computation;
use name_scopes::Scope;

pub fn use_in_computation(
    globals: &Scope<Sort>,
    function: &FunctionNames,
    computation: &Computation,
) -> Result<(), NameFault>
    ensures { Meets (computation_use globals.now function.now computation.now) result }
{
    match computation {
        Computation::Binary {
            of_type,
            left,
            right,
            exception,
            ..
        } => {
            use_type(globals, of_type)?;
            use_operand(globals, function, left)?;
            use_operand(globals, function, right)?;
            use_exception(globals, function, exception)
        }
        Computation::Compare {
            of_type,
            left,
            right,
            ..
        } => {
            use_type(globals, of_type)?;
            use_operand(globals, function, left)?;
            use_operand(globals, function, right)
        }
        Computation::Convert {
            from,
            to,
            operand,
            ..
        } => {
            use_type(globals, from)?;
            use_type(globals, to)?;
            use_operand(globals, function, operand)
        }
        Computation::Refcast { from, to, operand } => {
            use_type(globals, from)?;
            use_type(globals, to)?;
            use_operand(globals, function, operand)
        }
        Computation::Select {
            condition_type,
            of_type,
            condition,
            if_one,
            if_zero,
        } => {
            use_type(globals, condition_type)?;
            use_type(globals, of_type)?;
            use_operand(globals, function, condition)?;
            use_operand(globals, function, if_one)?;
            use_operand(globals, function, if_zero)
        }
        Computation::Extractvalue {
            of_type,
            operand,
            ..
        } => {
            use_type(globals, of_type)?;
            use_operand(globals, function, operand)
        }
        Computation::Insertvalue {
            of_type,
            operand,
            value,
            ..
        } => {
            use_type(globals, of_type)?;
            use_operand(globals, function, operand)?;
            use_operand(globals, function, value)
        }
    }
}
