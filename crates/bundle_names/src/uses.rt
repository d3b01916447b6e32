// Uses of names, and of what instructions are made of.
ghost use Rattle.std.specs.Prelude.{◌≡◌};
ghost use Rattle.std.specs.Option.{option_map_or};
ghost use Rattle.demands.specs.Demands.{none, Meets};
ghost use Rattle.bundle_names.specs.Uses.{each, is_operand, global_use, type_use, signature_use, constant_use, type_uses, local_use, operand_use, operand_uses, destination_use, exception_use, keepalive_use, entered_use};

use crate::fault::{NameFault, NameKind, fault_at};
use crate::function_names::FunctionNames;
use crate::globals::Sort;
use ir_lex::Name;
use ir_tree::{Destination, ExceptionClause, NewStackClause, Operand};
use name_scopes::Scope;
use text_forms::Listing;

/// A type.
pub fn use_type(globals: &Scope<Sort>, name: &Name) -> Result<(), NameFault>
    ensures { Meets (type_use globals.now name.now) result }
{
    match globals.find(name.text.as_slice()) {
        Some(Sort::Written(_)) => Ok(()),
        Some(_) => Err(fault_at(NameKind::WrongKind, name)),
        None => Err(fault_at(NameKind::Unknown, name)),
    }
}

/// A signature.
pub fn use_signature(globals: &Scope<Sort>, name: &Name) -> Result<(), NameFault>
    ensures { Meets (signature_use globals.now name.now) result }
{
    match globals.find(name.text.as_slice()) {
        Some(Sort::Signature(_)) => Ok(()),
        Some(_) => Err(fault_at(NameKind::WrongKind, name)),
        None => Err(fault_at(NameKind::Unknown, name)),
    }
}

/// A constant.
pub fn use_constant(globals: &Scope<Sort>, name: &Name) -> Result<(), NameFault>
    ensures { Meets (constant_use globals.now name.now) result }
{
    match globals.find(name.text.as_slice()) {
        Some(Sort::Constant(_)) => Ok(()),
        Some(_) => Err(fault_at(NameKind::WrongKind, name)),
        None => Err(fault_at(NameKind::Unknown, name)),
    }
}

/// A constant, a global or a function.
fn use_global_operand(globals: &Scope<Sort>, name: &Name) -> Result<(), NameFault>
    ensures { Meets (global_use is_operand globals.now name.now) result }
{
    match globals.find(name.text.as_slice()) {
        Some(Sort::Constant(_) | Sort::GlobalCell(_) | Sort::Function(_)) => Ok(()),
        Some(_) => Err(fault_at(NameKind::WrongKind, name)),
        None => Err(fault_at(NameKind::Unknown, name)),
    }
}

/// A block or a variable of the function.
fn use_local(scope: &Scope<()>, name: &Name) -> Result<(), NameFault>
    ensures { Meets (local_use scope.now name.now) result }
{
    match scope.find(name.text.as_slice()) {
        Some(_) => Ok(()),
        None => Err(fault_at(NameKind::Unknown, name)),
    }
}

pub fn use_types(globals: &Scope<Sort>, names: &[Name]) -> Result<(), NameFault>
    ensures { Meets (type_uses globals.now names.now) result }
{
    let mut left = names;
    'each: while let [first, more @ ..] = left {
        use_type(globals, first)?;
        left = more;
    }
    Ok(())
}

pub fn use_constants(globals: &Scope<Sort>, names: &[Name]) -> Result<(), NameFault>
    ensures { Meets (each (constant_use globals.now) names.now) result }
{
    let mut left = names;
    'each: while let [first, more @ ..] = left {
        use_constant(globals, first)?;
        left = more;
    }
    Ok(())
}

fn use_variables(variables: &Scope<()>, names: &[Name]) -> Result<(), NameFault>
    ensures { Meets (each (local_use variables.now) names.now) result }
{
    let mut left = names;
    'each: while let [first, more @ ..] = left {
        use_local(variables, first)?;
        left = more;
    }
    Ok(())
}

pub fn use_operand(
    globals: &Scope<Sort>,
    function: &FunctionNames,
    operand: &Operand,
) -> Result<(), NameFault>
    ensures { Meets (operand_use globals.now function.now operand.now) result }
{
    match operand {
        Operand::Local(name) => use_local(&function.variables, name),
        Operand::Global(name) => use_global_operand(globals, name),
    }
}

pub fn use_operands(
    globals: &Scope<Sort>,
    function: &FunctionNames,
    operands: &[Operand],
) -> Result<(), NameFault>
    ensures { Meets (operand_uses globals.now function.now operands.now) result }
{
    let mut left = operands;
    'each: while let [first, more @ ..] = left {
        use_operand(globals, function, first)?;
        left = more;
    }
    Ok(())
}

pub fn use_optional(
    globals: &Scope<Sort>,
    function: &FunctionNames,
    operand: &Option<Operand>,
) -> Result<(), NameFault>
    ensures { Meets (option_map_or (operand_use globals.now function.now) operand.now none) result }
{
    match operand {
        None => Ok(()),
        Some(operand) => use_operand(globals, function, operand),
    }
}

pub fn use_destination(
    globals: &Scope<Sort>,
    function: &FunctionNames,
    destination: &Destination,
) -> Result<(), NameFault>
    ensures { Meets (destination_use globals.now function.now destination.now) result }
{
    use_local(&function.blocks, &destination.block)?;
    use_operands(globals, function, destination.arguments.values.as_slice())
}

pub fn use_optional_destination(
    globals: &Scope<Sort>,
    function: &FunctionNames,
    destination: &Option<Destination>,
) -> Result<(), NameFault>
    ensures { Meets (option_map_or (destination_use globals.now function.now) destination.now none) result }
{
    match destination {
        None => Ok(()),
        Some(destination) => use_destination(globals, function, destination),
    }
}

pub fn use_exception(
    globals: &Scope<Sort>,
    function: &FunctionNames,
    exception: &Option<ExceptionClause>,
) -> Result<(), NameFault>
    ensures { Meets (exception_use globals.now function.now exception.now) result }
{
    match exception {
        None => Ok(()),
        Some(exception) => {
            use_destination(globals, function, &exception.normal)?;
            use_destination(globals, function, &exception.exceptional)
        }
    }
}

pub fn use_keepalive(
    function: &FunctionNames,
    keepalive: &Option<Listing<Name>>,
) -> Result<(), NameFault>
    ensures { Meets (keepalive_use function.now keepalive.now) result }
{
    match keepalive {
        None => Ok(()),
        Some(names) => use_variables(&function.variables, names.as_slice()),
    }
}

pub fn use_entered(
    globals: &Scope<Sort>,
    function: &FunctionNames,
    entered: &NewStackClause,
) -> Result<(), NameFault>
    ensures { Meets (entered_use globals.now function.now entered.now) result }
{
    match entered {
        NewStackClause::PassValues { types, values } => {
            use_types(globals, types.as_slice())?;
            use_operands(globals, function, values.values.as_slice())
        }
        NewStackClause::ThrowExc { exception } => use_operand(globals, function, exception),
    }
}
