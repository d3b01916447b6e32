// Names in instructions that make objects or find places in them.
ghost use Rattle.demands.specs.Demands.{Meets};
ghost use Rattle.bundle_names.specs.ObjectUses.{allocation_use, addressing_use};

use crate::fault::NameFault;
use crate::function_names::FunctionNames;
use crate::globals::Sort;
use crate::uses::{use_exception, use_operand, use_type};
use ir_tree::{Addressing, Allocation};
use name_scopes::Scope;

pub fn use_in_allocation(
    globals: &Scope<Sort>,
    function: &FunctionNames,
    allocation: &Allocation,
) -> Result<(), NameFault>
    ensures { Meets (allocation_use globals.now function.now allocation.now) result }
{
    match allocation {
        Allocation::New { of_type, exception } => {
            use_type(globals, of_type)?;
            use_exception(globals, function, exception)
        }
        Allocation::Newhybrid {
            of_type,
            length_type,
            length,
            exception,
        } => {
            use_type(globals, of_type)?;
            use_type(globals, length_type)?;
            use_operand(globals, function, length)?;
            use_exception(globals, function, exception)
        }
        Allocation::Alloca { of_type, exception } => {
            use_type(globals, of_type)?;
            use_exception(globals, function, exception)
        }
    }
}

pub fn use_in_addressing(
    globals: &Scope<Sort>,
    function: &FunctionNames,
    addressing: &Addressing,
) -> Result<(), NameFault>
    ensures { Meets (addressing_use globals.now function.now addressing.now) result }
{
    match addressing {
        Addressing::Getiref { of_type, reference } => {
            use_type(globals, of_type)?;
            use_operand(globals, function, reference)
        }
        Addressing::Getfieldiref {
            of_type,
            location,
            ..
        } => {
            use_type(globals, of_type)?;
            use_operand(globals, function, location)
        }
        Addressing::Getelemiref {
            of_type,
            index_type,
            location,
            index,
        } => {
            use_type(globals, of_type)?;
            use_type(globals, index_type)?;
            use_operand(globals, function, location)?;
            use_operand(globals, function, index)
        }
        Addressing::Shiftiref {
            of_type,
            offset_type,
            location,
            offset,
        } => {
            use_type(globals, of_type)?;
            use_type(globals, offset_type)?;
            use_operand(globals, function, location)?;
            use_operand(globals, function, offset)
        }
        Addressing::Getvarpartiref { of_type, location } => {
            use_type(globals, of_type)?;
            use_operand(globals, function, location)
        }
    }
}
