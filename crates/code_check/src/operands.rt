// Operands, lists of arguments, and types that are named.
ghost use Rattle.std.specs.Prelude.{◌≡◌, Some, is_some, length, option_copied, IfOk};
ghost use Rattle.demands.specs.Demands.{Judges, Meets, demand};
ghost use Rattle.name_scopes.specs.Names.{found};
ghost use Rattle.check_tables.specs.declared.fault.CheckKind.TheVariants.{NotLocal, OperandType};
ghost use Rattle.check_tables.specs.Types.{ref_void};
ghost use Rattle.check_tables.specs.Lookups.{noted_class, definition_named};
ghost use Rattle.check_tables.specs.TypeTests.{is_int, is_index_type};
ghost use Rattle.checked_code.specs.Operands.{is_class, operand_demands, int64_demands, of_type, member_demands, argument_demands, type_demand, value_type_demand, value_type_demands, noted_list, variable_demands, global_source, source_of, sources_of, numbers_in};

use bundle_names::Sort;
use check_tables::{CheckFault, CheckKind, Tables, fault_at};
use checked_code::{Locals, Source, Variable};
use ir_lex::Name;
use ir_tree::{Arguments, Operand};
use std::alloc::Global;
use text_forms::Listing;

/// One demand, with the kind and the place of its fault.
pub fn demand(met: bool, kind: CheckKind, place: usize) -> Result<(), CheckFault>
    ensures { Meets (demand place kind met) result }
{
    if met {
        Ok(())
    } else {
        Err(fault_at(kind, place))
    }
}

/// Whether there are both classes, and they are the same.
pub fn is_class(class: Option<u32>, wanted: Option<u32>) -> bool
    ensures { result ≡ is_class class wanted }
{
    match (class, wanted) {
        (Some(class), Some(wanted)) => class == wanted,
        _ => false,
    }
}

/// A variable of the block so far.
fn variable(locals: &Locals, name: &Name) -> Result<Variable, CheckFault>
    ensures found { IfOk result (λ v. found locals.now.names name.now.text ≡ Some v) }
    ensures met { Meets (demand name.now.place NotLocal (is_some (found locals.now.names name.now.text))) result }
{
    match locals.names.find(name.text.as_slice()) {
        Some(variable) => Ok(*variable),
        None => Err(fault_at(CheckKind::NotLocal, name.place)),
    }
}

/// Where the value of a constant, a global or a function comes from.
fn global_source(tables: &Tables, name: &Name) -> Source
    ensures { result ≡ global_source (found tables.now.globals.names name.now.text) }
{
    match tables.globals.names.find(name.text.as_slice()) {
        Some(Sort::Constant(n)) => Source::Constant(*n),
        Some(Sort::GlobalCell(n)) => Source::GlobalCell(*n),
        Some(Sort::Function(n)) => Source::Function(*n),
        _ => Source::Constant(0),
    }
}

/// An operand of the class that is wanted.
pub fn operand(
    tables: &Tables,
    locals: &Locals,
    kind: CheckKind,
    operand: &Operand,
    wanted: Option<u32>,
) -> Result<Source, CheckFault>
    ensures { Judges (operand_demands tables.now locals.now kind operand.now wanted) (source_of tables.now locals.now operand.now) result }
{
    match operand {
        Operand::Local(name) => {
            let variable = variable(locals, name)?;
            demand(is_class(Some(variable.class), wanted), kind, name.place)?;
            Ok(Source::Variable(variable.number))
        }
        Operand::Global(name) => {
            demand(
                is_class(tables.class_of_global(name), wanted),
                kind,
                name.place,
            )?;
            Ok(global_source(tables, name))
        }
    }
}

/// An operand that is an int of 64 bits.
pub fn int64_operand(
    tables: &Tables,
    locals: &Locals,
    operand: &Operand,
) -> Result<Source, CheckFault>
    ensures { Judges (int64_demands tables.now locals.now operand.now) (source_of tables.now locals.now operand.now) result }
{
    match operand {
        Operand::Local(name) => {
            let variable = variable(locals, name)?;
            let met = tables.is_class_of_int64(Some(variable.class));
            demand(met, CheckKind::OperandType, name.place)?;
            Ok(Source::Variable(variable.number))
        }
        Operand::Global(name) => {
            let met = tables.is_class_of_int64(tables.class_of_global(name));
            demand(met, CheckKind::OperandType, name.place)?;
            Ok(global_source(tables, name))
        }
    }
}

/// An operand of the type with this name.
pub fn of_type(
    tables: &Tables,
    locals: &Locals,
    given: &Operand,
    name: &Name,
) -> Result<Source, CheckFault>
    ensures { Judges (of_type tables.now locals.now given.now name.now) (source_of tables.now locals.now given.now) result }
{
    operand(
        tables,
        locals,
        CheckKind::OperandType,
        given,
        tables.class_named(name),
    )
}

/// An operand that is an exception: a reference to an object of type void.
pub fn thrown(tables: &Tables, locals: &Locals, exception: &Operand) -> Result<Source, CheckFault>
    ensures { Judges (operand_demands tables.now locals.now OperandType exception.now (Some (ref_void tables.now.types))) (source_of tables.now locals.now exception.now) result }
{
    let wanted = Some(tables.types.ref_void());
    operand(tables, locals, CheckKind::OperandType, exception, wanted)
}

/// Operands of these classes.
fn members(
    alloc: Global,
    tables: &Tables,
    locals: &Locals,
    operands: &[Operand],
    classes: &[u32],
) -> Result<Listing<Source>, CheckFault>
    requires { length operands.now ≡ length classes.now }
    ensures { Judges (member_demands tables.now locals.now operands.now classes.now) (sources_of tables.now locals.now operands.now) result }
{
    let mut sources = Listing::new(alloc);
    let mut left = operands;
    let mut wanted = classes;
    'each: while let ([first, more @ ..], [class, others @ ..]) = (left, wanted) {
        sources.push(operand(tables, locals, CheckKind::ArgumentType, first, Some(*class))?)?;
        left = more;
        wanted = others;
    }
    Ok(sources)
}

/// A list of arguments: as many as there are classes, and each of its class.
#[tactic(auto, unfolding(checked_code::specs::Operands::argument_demands))]
pub fn arguments(
    alloc: Global,
    tables: &Tables,
    locals: &Locals,
    arguments: &Arguments,
    wanted: Option<&[u32]>,
) -> Result<Listing<Source>, CheckFault>
    ensures { Judges (argument_demands tables.now locals.now arguments.now (option_copied wanted.entry)) (sources_of tables.now locals.now arguments.now.values) result }
{
    match wanted {
        Some(classes) if classes.len() == arguments.values.len() => {
            members(alloc, tables, locals, arguments.values.as_slice(), classes)
        }
        _ => Err(fault_at(CheckKind::ArgumentCount, arguments.place)),
    }
}

/// A type that passes a test.
pub fn type_demand(name: &Name, met: bool) -> Result<(), CheckFault>
    ensures { Meets (type_demand name.now met) result }
{
    demand(met, CheckKind::OperandType, name.place)
}

/// A type of ints.
pub fn int_type(tables: &Tables, name: &Name) -> Result<u32, CheckFault>
    ensures { Judges (type_demand name.now (is_int (definition_named tables.now name.now))) (noted_class tables.now name.now) result }
{
    type_demand(name, tables.is_int(name))?;
    Ok(tables.noted_class(name))
}

/// A type of indexes.
pub fn type_of_index(tables: &Tables, name: &Name) -> Result<u32, CheckFault>
    ensures { Judges (type_demand name.now (is_index_type (definition_named tables.now name.now))) (noted_class tables.now name.now) result }
{
    type_demand(name, tables.is_index_type(name))?;
    Ok(tables.noted_class(name))
}

/// A type that variables may have.
pub fn value_type(tables: &Tables, name: &Name) -> Result<u32, CheckFault>
    ensures { Judges (value_type_demand tables.now name.now) (noted_class tables.now name.now) result }
{
    type_demand(name, tables.is_value_type(name))?;
    Ok(tables.noted_class(name))
}

/// Types that variables may have.
pub fn value_types(
    alloc: Global,
    tables: &Tables,
    names: &[Name],
) -> Result<Listing<u32>, CheckFault>
    ensures { Judges (value_type_demands tables.now names.now) (noted_list tables.now names.now) result }
{
    let mut classes = Listing::new(alloc);
    let mut left = names;
    'each: while let [first, more @ ..] = left {
        classes.push(value_type(tables, first)?)?;
        left = more;
    }
    Ok(classes)
}

/// Variables of any type.
pub fn kept(alloc: Global, locals: &Locals, names: &[Name]) -> Result<Listing<u32>, CheckFault>
    ensures { Judges (variable_demands locals.now names.now) (numbers_in locals.now names.now) result }
{
    let mut numbers = Listing::new(alloc);
    let mut left = names;
    'each: while let [first, more @ ..] = left {
        numbers.push(variable(locals, first)?.number)?;
        left = more;
    }
    Ok(numbers)
}
