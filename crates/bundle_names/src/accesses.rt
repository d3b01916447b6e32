// Names in instructions that read and write memory.
ghost use Rattle.demands.specs.Demands.{Meets};
ghost use Rattle.bundle_names.specs.AccessUses.{access_use};

use crate::fault::NameFault;
use crate::function_names::FunctionNames;
use crate::globals::Sort;
use crate::uses::{use_exception, use_operand, use_type};
use ir_tree::Access;
use name_scopes::Scope;

pub fn use_in_access(
    globals: &Scope<Sort>,
    function: &FunctionNames,
    access: &Access,
) -> Result<(), NameFault>
    ensures { Meets (access_use globals.now function.now access.now) result }
{
    match access {
        Access::Load {
            of_type,
            location,
            exception,
            ..
        } => {
            use_type(globals, of_type)?;
            use_operand(globals, function, location)?;
            use_exception(globals, function, exception)
        }
        Access::Store {
            of_type,
            location,
            value,
            exception,
            ..
        } => {
            use_type(globals, of_type)?;
            use_operand(globals, function, location)?;
            use_operand(globals, function, value)?;
            use_exception(globals, function, exception)
        }
        Access::Cmpxchg {
            of_type,
            location,
            expected,
            desired,
            exception,
            ..
        } => {
            use_type(globals, of_type)?;
            use_operand(globals, function, location)?;
            use_operand(globals, function, expected)?;
            use_operand(globals, function, desired)?;
            use_exception(globals, function, exception)
        }
        Access::Atomicrmw {
            of_type,
            location,
            operand,
            exception,
            ..
        } => {
            use_type(globals, of_type)?;
            use_operand(globals, function, location)?;
            use_operand(globals, function, operand)?;
            use_exception(globals, function, exception)
        }
        Access::Fence { .. } => Ok(()),
    }
}
