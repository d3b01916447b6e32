// Instructions that compute a value from values.
ghost use Rattle.std.specs.Prelude.{◌≡◌, None, Some, IfOk};
ghost use Rattle.demands.specs.Demands.{Judges, Meets};
ghost use Rattle.ir_tree.specs.declared.computing.Computation.TheVariants as forms;
ghost use Rattle.check_tables.specs.Types.{class_in};
ghost use Rattle.check_tables.specs.Lookups.{or_zero, definition_named};
ghost use Rattle.code_check.specs.Gifts.{listed};
ghost use Rattle.checked_code.specs.Computations.{compares, converts, field_named, field_demands, computation_demands, computation_gives, computation_code};

use crate::gifts::{Gift, or_zero};
use crate::operands::{int_type, is_class, of_type, operand, type_demand, value_type};
use check_tables::{CheckFault, CheckKind, Field, Tables, fault_at};
use checked_code::{ComputationForm, Locals};
use ir_lex::{Name, Numeral};
use ir_tree::{Computation, Operand};
use mu_base::{BinaryOp, CompareOp, ConvertOp};
use mu_values::is_conversion;

fn compares(tables: &Tables, op: CompareOp, name: &Name) -> bool
    ensures { result ≡ compares op (definition_named tables.now name.now) }
{
    match op {
        CompareOp::Eq | CompareOp::Ne => tables.is_scalar(name),
        _ => tables.is_int(name),
    }
}

/// Whether the change of width leads from the one type to the other.
fn converts(tables: &Tables, op: ConvertOp, from: &Name, to: &Name) -> bool
    ensures { result ≡ converts op (definition_named tables.now from.now) (definition_named tables.now to.now) }
{
    match (tables.width(from), tables.width(to)) {
        (Some(from), Some(to)) => is_conversion(op, from, to),
        _ => false,
    }
}

/// A field of a struct that is a value type.
fn field(tables: &Tables, name: &Name, number: Numeral) -> Result<Field, CheckFault>
    ensures met { Meets (field_demands tables.now name.now number) result }
    ensures of_type { IfOk result (λ f. field_named tables.now name.now number ≡ Some f.of_type) }
    ensures number { IfOk result (λ f. f.number ≡ number.number.magnitude) }
{
    type_demand(name, tables.is_struct(name) && tables.is_value_type(name))?;
    match tables.field(name, number.number) {
        Some(field) => Ok(field),
        None => Err(fault_at(CheckKind::BadIndex, number.place)),
    }
}

/// `ADD` and its like.
fn binary(
    tables: &Tables,
    locals: &Locals,
    op: BinaryOp,
    name: &Name,
    left: &Operand,
    right: &Operand,
) -> Result<ComputationForm, CheckFault>
    ensures { Judges (computation_demands tables.now locals.now (forms.Binary op name.now left.now right.now None)) (computation_code tables.now locals.now (forms.Binary op name.now left.now right.now None)) result }
{
    let class = int_type(tables, name)?;
    let left = of_type(tables, locals, left, name)?;
    let right = of_type(tables, locals, right, name)?;
    Ok(ComputationForm::Binary {
        op,
        class,
        left,
        right,
    })
}

/// `EQ` and its like.
fn compare(
    tables: &Tables,
    locals: &Locals,
    op: CompareOp,
    name: &Name,
    left: &Operand,
    right: &Operand,
) -> Result<ComputationForm, CheckFault>
    ensures { Judges (computation_demands tables.now locals.now (forms.Compare op name.now left.now right.now)) (computation_code tables.now locals.now (forms.Compare op name.now left.now right.now)) result }
{
    type_demand(name, compares(tables, op, name))?;
    let left = of_type(tables, locals, left, name)?;
    let right = of_type(tables, locals, right, name)?;
    Ok(ComputationForm::Compare {
        op,
        class: tables.noted_class(name),
        left,
        right,
    })
}

/// `TRUNC`, `ZEXT` and `SEXT`.
fn convert(
    tables: &Tables,
    locals: &Locals,
    op: ConvertOp,
    from: &Name,
    to: &Name,
    operand: &Operand,
) -> Result<ComputationForm, CheckFault>
    ensures { Judges (computation_demands tables.now locals.now (forms.Convert op from.now to.now operand.now)) (computation_code tables.now locals.now (forms.Convert op from.now to.now operand.now)) result }
{
    let class = int_type(tables, from)?;
    type_demand(to, converts(tables, op, from, to))?;
    let operand = of_type(tables, locals, operand, from)?;
    Ok(ComputationForm::Convert {
        op,
        from: class,
        to: tables.noted_class(to),
        operand,
    })
}

/// `REFCAST`.
fn refcast(
    tables: &Tables,
    locals: &Locals,
    from: &Name,
    to: &Name,
    operand: &Operand,
) -> Result<ComputationForm, CheckFault>
    ensures { Judges (computation_demands tables.now locals.now (forms.Refcast from.now to.now operand.now)) (computation_code tables.now locals.now (forms.Refcast from.now to.now operand.now)) result }
{
    type_demand(from, tables.is_castable(from))?;
    type_demand(to, tables.are_cast(from, to))?;
    let operand = of_type(tables, locals, operand, from)?;
    Ok(ComputationForm::Refcast {
        from: tables.noted_class(from),
        to: tables.noted_class(to),
        operand,
    })
}

/// What a `SELECT` chooses by.
#[derive(Clone, Copy)]
struct Condition<'a> {
    /// The type of the operand.
    of_type: &'a Name,
    /// The operand that is 1 or 0.
    operand: &'a Operand,
}

/// `SELECT`.
fn select(
    tables: &Tables,
    locals: &Locals,
    condition: Condition,
    name: &Name,
    if_one: &Operand,
    if_zero: &Operand,
) -> Result<ComputationForm, CheckFault>
    ensures { Judges (computation_demands tables.now locals.now (forms.Select condition.entry.of_type.now name.now condition.entry.operand.now if_one.now if_zero.now)) (computation_code tables.now locals.now (forms.Select condition.entry.of_type.now name.now condition.entry.operand.now if_one.now if_zero.now)) result }
{
    let given = tables.class_named(condition.of_type);
    let one_bit = Some(tables.types.int1());
    type_demand(condition.of_type, is_class(given, one_bit))?;
    let class = value_type(tables, name)?;
    let condition = of_type(tables, locals, condition.operand, condition.of_type)?;
    let if_one = of_type(tables, locals, if_one, name)?;
    let if_zero = of_type(tables, locals, if_zero, name)?;
    Ok(ComputationForm::Select {
        class,
        condition,
        if_one,
        if_zero,
    })
}

/// `EXTRACTVALUE`.
fn extractvalue(
    tables: &Tables,
    locals: &Locals,
    name: &Name,
    number: Numeral,
    operand: &Operand,
) -> Result<ComputationForm, CheckFault>
    ensures { Judges (computation_demands tables.now locals.now (forms.Extractvalue name.now number operand.now)) (computation_code tables.now locals.now (forms.Extractvalue name.now number operand.now)) result }
{
    let field = field(tables, name, number)?;
    let operand = of_type(tables, locals, operand, name)?;
    Ok(ComputationForm::Extractvalue {
        class: tables.noted_class(name),
        field: field.number,
        operand,
    })
}

/// `INSERTVALUE`.
fn insertvalue(
    tables: &Tables,
    locals: &Locals,
    name: &Name,
    number: Numeral,
    changed: &Operand,
    value: &Operand,
) -> Result<ComputationForm, CheckFault>
    ensures { Judges (computation_demands tables.now locals.now (forms.Insertvalue name.now number changed.now value.now)) (computation_code tables.now locals.now (forms.Insertvalue name.now number changed.now value.now)) result }
{
    let field = field(tables, name, number)?;
    let changed = of_type(tables, locals, changed, name)?;
    let wanted = tables.types.class(field.of_type);
    let value = operand(tables, locals, CheckKind::OperandType, value, wanted)?;
    Ok(ComputationForm::Insertvalue {
        class: tables.noted_class(name),
        field: field.number,
        operand: changed,
        value,
    })
}

/// An instruction that computes a value from values.
pub fn computation(
    tables: &Tables,
    locals: &Locals,
    computation: &Computation,
) -> Result<ComputationForm, CheckFault>
    ensures { Judges (computation_demands tables.now locals.now computation.now) (computation_code tables.now locals.now computation.now) result }
{
    match computation {
        Computation::Binary {
            op,
            of_type,
            left,
            right,
            ..
        } => binary(tables, locals, *op, of_type, left, right),
        Computation::Compare {
            op,
            of_type,
            left,
            right,
        } => compare(tables, locals, *op, of_type, left, right),
        Computation::Convert {
            op,
            from,
            to,
            operand,
        } => convert(tables, locals, *op, from, to, operand),
        Computation::Refcast { from, to, operand } => refcast(tables, locals, from, to, operand),
        Computation::Select {
            condition_type,
            of_type,
            condition,
            if_one,
            if_zero,
        } => {
            let condition = Condition {
                of_type: condition_type,
                operand: condition,
            };
            select(tables, locals, condition, of_type, if_one, if_zero)
        }
        Computation::Extractvalue {
            of_type,
            field,
            operand,
        } => extractvalue(tables, locals, of_type, *field, operand),
        Computation::Insertvalue {
            of_type,
            field,
            operand,
            value,
        } => insertvalue(tables, locals, of_type, *field, operand, value),
    }
}

/// The class of a field's type, and 0 where there is no such field.
fn noted_field(tables: &Tables, name: &Name, number: Numeral) -> u32
    ensures { result ≡ or_zero (class_in tables.now.types (field_named tables.now name.now number)) }
{
    match tables.field(name, number.number) {
        Some(field) => or_zero(tables.types.class(field.of_type)),
        None => 0,
    }
}

/// What such an instruction gives.
pub fn computation_gift<'a>(tables: &'a Tables, computation: &'a Computation) -> Gift<'a>
    ensures { listed tables.now result ≡ computation_gives tables.now computation.now }
{
    match computation {
        Computation::Compare { .. } => Gift::One(tables.types.int1()),
        Computation::Extractvalue { of_type, field, .. } => {
            Gift::One(noted_field(tables, of_type, *field))
        }
        Computation::Binary { of_type, .. }
        | Computation::Convert { to: of_type, .. }
        | Computation::Refcast { to: of_type, .. }
        | Computation::Select { of_type, .. }
        | Computation::Insertvalue { of_type, .. } => Gift::One(tables.noted_class(of_type)),
    }
}
