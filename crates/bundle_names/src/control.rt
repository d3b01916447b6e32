// Names in instructions that say where the function goes on.
ghost use Rattle.demands.specs.Demands.{Meets};
ghost use Rattle.bundle_names.specs.Uses.{each};
ghost use Rattle.bundle_names.specs.ControlUses.{case_use, control_use};

use crate::fault::NameFault;
use crate::function_names::FunctionNames;
use crate::globals::Sort;
use crate::uses::{
    use_constant, use_destination, use_exception, use_keepalive, use_operand, use_operands,
    use_signature, use_type,
};
use ir_tree::{Case, ControlFlow};
use name_scopes::Scope;

fn use_in_cases(
    globals: &Scope<Sort>,
    function: &FunctionNames,
    cases: &[Case],
) -> Result<(), NameFault>
    ensures { Meets (each (case_use globals.now function.now) cases.now) result }
{
    let mut left = cases;
    'each: while let [first, more @ ..] = left {
        use_constant(globals, &first.constant)?;
        use_destination(globals, function, &first.destination)?;
        left = more;
    }
    Ok(())
}

pub fn use_in_control(
    globals: &Scope<Sort>,
    function: &FunctionNames,
    control: &ControlFlow,
) -> Result<(), NameFault>
    ensures { Meets (control_use globals.now function.now control.now) result }
{
    match control {
        ControlFlow::Branch { destination } => use_destination(globals, function, destination),
        ControlFlow::Branch2 {
            condition,
            if_one,
            if_zero,
        } => {
            use_operand(globals, function, condition)?;
            use_destination(globals, function, if_one)?;
            use_destination(globals, function, if_zero)
        }
        ControlFlow::Switch {
            of_type,
            operand,
            default,
            cases,
        } => {
            use_type(globals, of_type)?;
            use_operand(globals, function, operand)?;
            use_destination(globals, function, default)?;
            use_in_cases(globals, function, cases.as_slice())
        }
        ControlFlow::Call {
            signature,
            callee,
            arguments,
            exception,
            keepalive,
        } => {
            use_signature(globals, signature)?;
            use_operand(globals, function, callee)?;
            use_operands(globals, function, arguments.values.as_slice())?;
            use_exception(globals, function, exception)?;
            use_keepalive(function, keepalive)
        }
        ControlFlow::Tailcall {
            signature,
            callee,
            arguments,
        } => {
            use_signature(globals, signature)?;
            use_operand(globals, function, callee)?;
            use_operands(globals, function, arguments.values.as_slice())
        }
        ControlFlow::Ret { values } => use_operands(globals, function, values.values.as_slice()),
        ControlFlow::Throw { exception } => use_operand(globals, function, exception),
    }
}
