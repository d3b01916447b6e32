// Names in instructions that ask the client, enter another stack or start a thread.
ghost use Rattle.demands.specs.Demands.{Meets};
ghost use Rattle.bundle_names.specs.StackUses.{trapping_use, switch_use};

use crate::fault::NameFault;
use crate::function_names::FunctionNames;
use crate::globals::Sort;
use crate::uses::{
    use_destination, use_entered, use_exception, use_keepalive, use_operand, use_optional,
    use_optional_destination, use_types,
};
use ir_tree::{StackSwitch, Trapping};
use name_scopes::Scope;

pub fn use_in_trapping(
    globals: &Scope<Sort>,
    function: &FunctionNames,
    trapping: &Trapping,
) -> Result<(), NameFault>
    ensures { Meets (trapping_use globals.now function.now trapping.now) result }
{
    match trapping {
        Trapping::Trap {
            types,
            exception,
            keepalive,
        } => {
            use_types(globals, types.as_slice())?;
            use_exception(globals, function, exception)?;
            use_keepalive(function, keepalive)
        }
        Trapping::Watchpoint {
            types,
            disabled,
            enabled,
            exceptional,
            keepalive,
            ..
        } => {
            use_types(globals, types.as_slice())?;
            use_destination(globals, function, disabled)?;
            use_destination(globals, function, enabled)?;
            use_optional_destination(globals, function, exceptional)?;
            use_keepalive(function, keepalive)
        }
        Trapping::Wpbranch {
            disabled,
            enabled,
            ..
        } => {
            use_destination(globals, function, disabled)?;
            use_destination(globals, function, enabled)
        }
    }
}

pub fn use_in_switch(
    globals: &Scope<Sort>,
    function: &FunctionNames,
    switch: &StackSwitch,
) -> Result<(), NameFault>
    ensures { Meets (switch_use globals.now function.now switch.now) result }
{
    match switch {
        StackSwitch::SwapReturning {
            stack,
            types,
            entered,
            exception,
            keepalive,
        } => {
            use_operand(globals, function, stack)?;
            use_types(globals, types.as_slice())?;
            use_entered(globals, function, entered)?;
            use_exception(globals, function, exception)?;
            use_keepalive(function, keepalive)
        }
        StackSwitch::SwapKilling { stack, entered } => {
            use_operand(globals, function, stack)?;
            use_entered(globals, function, entered)
        }
        StackSwitch::Newthread {
            stack,
            threadlocal,
            entered,
            exception,
        } => {
            use_operand(globals, function, stack)?;
            use_optional(globals, function, threadlocal)?;
            use_entered(globals, function, entered)?;
            use_exception(globals, function, exception)
        }
    }
}
