// Computations.
ghost use Rattle.std.specs.Prelude.{◌≡◌, ℕ, ◌≤◌, [], ◌∷◌, Some, IsSome, IfOk};
ghost use Rattle.checked_code.specs.Checking.{bundle_tables};
ghost use Rattle.typed_heap.specs.Places.{with_some};
ghost use Rattle.mu_model.specs.Acts as acts;
ghost use Rattle.mu_model.specs.Types.{class_width};
ghost use Rattle.mu_model.specs.ComputationForms.{result_or_fault, bit, binary_act, compare_act, convert_act, refcast_act, select_act, extractvalue_act, insertvalue_act};
ghost use Rattle.model_numbers.specs.Sources.{value_at};
ghost use Rattle.step_forms.specs.Asked.{asked, lists_of, Lists};
ghost use Rattle.step_forms.specs.AtOnce.{scalar_or_fault};

use crate::act::Act;
use crate::operands::{is_one, read, scalar, scalars};
use crate::parts::{StructField, divided};
use crate::room::Room;
use crate::variables::Variables;
use checked_code::{Checked, Source};
use mu_base::{BinaryOp, CompareOp, ConvertOp};
use mu_model::Case;
use mu_types::TypeDef;
use mu_values::Scalar;
use std::alloc::AllocError;

/// The integer with these bits, where any were computed.
fn integer(width: u32, computed: Option<u128>) -> Option<Scalar>
    ensures { scalar_or_fault result ≡ result_or_fault width computed }
{
    match computed {
        Some(bits) => Some(Scalar::Int { width, bits }),
        None => None,
    }
}

/// What ADD and its like give. None comes exactly where a divisor is 0. The width is that of the operands.
#[tactic(auto, using(crate::specs::OperandLaws::operands))]
#[inline(always)]
pub(crate) fn binary_scalar(
    code: &Checked,
    vars: &Variables,
    op: BinaryOp,
    class: u32,
    left: Source,
    right: Source,
) -> Option<Scalar>
    requires { IsSome (binary_act (bundle_tables code.now) op class (value_at code.now vars.now left) (value_at code.now vars.now right)) }
    ensures { binary_act (bundle_tables code.now) op class (value_at code.now vars.now left) (value_at code.now vars.now right) ≡ Some (scalar_or_fault result) }
{
    let a = scalar(code, vars, left);
    let b = scalar(code, vars, right);
    match (a, b) {
        (Scalar::Int { width, bits: a }, Scalar::Int { bits: b, .. }) => integer(
            width,
            mu_values::binary(op, width, a, b),
        ),
        _ => unreachable!(),
    }
}

fn given_or_fault(computed: Option<Scalar>) -> Act
    ensures { (ls : Lists) → asked result ls ≡ scalar_or_fault computed }
{
    match computed {
        Some(scalar) => Act::Gives(scalar),
        None => Act::Faults(Case::DivideByZero),
    }
}

/// ADD and its like.
pub fn binary(
    code: &Checked,
    vars: &Variables,
    op: BinaryOp,
    class: u32,
    left: Source,
    right: Source,
) -> Act
    requires { IsSome (binary_act (bundle_tables code.now) op class (value_at code.now vars.now left) (value_at code.now vars.now right)) }
    ensures { (ls : Lists) → binary_act (bundle_tables code.now) op class (value_at code.now vars.now left) (value_at code.now vars.now right) ≡ Some (asked result ls) }
{
    given_or_fault(binary_scalar(code, vars, op, class, left, right))
}

fn bit(holds: bool) -> u128
    ensures { result ≡ bit holds }
{
    if holds { 1 } else { 0 }
}

/// What EQ and its like give.
#[tactic(auto, using(crate::specs::OperandLaws::comparisons))]
#[inline(always)]
pub(crate) fn compare_scalar(
    code: &Checked,
    vars: &Variables,
    op: CompareOp,
    left: Source,
    right: Source,
) -> Scalar
    requires { IsSome (compare_act op (value_at code.now vars.now left) (value_at code.now vars.now right)) }
    ensures { compare_act op (value_at code.now vars.now left) (value_at code.now vars.now right) ≡ Some (acts.Gives ((result ∷ []) ∷ [])) }
{
    let a = scalar(code, vars, left);
    let b = scalar(code, vars, right);
    let bits = bit(mu_values::compare(op, &a, &b));
    Scalar::Int { width: 1, bits }
}

/// EQ and its like.
pub fn compare(code: &Checked, vars: &Variables, op: CompareOp, left: Source, right: Source) -> Act
    requires { IsSome (compare_act op (value_at code.now vars.now left) (value_at code.now vars.now right)) }
    ensures { (ls : Lists) → compare_act op (value_at code.now vars.now left) (value_at code.now vars.now right) ≡ Some (asked result ls) }
{
    Act::Gives(compare_scalar(code, vars, op, left, right))
}

/// The width of the ints of a class.
#[tactic(auto, using(crate::specs::OperandLaws::widths))]
fn width(code: &Checked, class: u32) -> u32
    requires there { IsSome (class_width (bundle_tables code.now) class) }
    requires few { (w : ℕ) → class_width (bundle_tables code.now) class ≡ Some w → w ≤ 128 }
    ensures { class_width (bundle_tables code.now) class ≡ Some result }
{
    match code.classes().definition(class) {
        TypeDef::Int { width } => *width as u32,
        _ => unreachable!(),
    }
}

/// What TRUNC, ZEXT and SEXT give. The width before is that of the operand.
#[tactic(auto, using(crate::specs::OperandLaws::conversions_there))]
pub(crate) fn convert_scalar(
    code: &Checked,
    vars: &Variables,
    op: ConvertOp,
    from: u32,
    to: u32,
    operand: Source,
) -> Scalar
    requires { IsSome (convert_act (bundle_tables code.now) op from to (value_at code.now vars.now operand)) }
    ensures { convert_act (bundle_tables code.now) op from to (value_at code.now vars.now operand) ≡ Some (acts.Gives ((result ∷ []) ∷ [])) }
{
    match scalar(code, vars, operand) {
        Scalar::Int {
            width: before,
            bits,
        } => {
            let after = width(code, to);
            Scalar::Int {
                width: after,
                bits: mu_values::convert(op, before, after, bits),
            }
        }
        _ => unreachable!(),
    }
}

/// TRUNC, ZEXT and SEXT.
pub fn convert(
    code: &Checked,
    vars: &Variables,
    op: ConvertOp,
    from: u32,
    to: u32,
    operand: Source,
) -> Act
    requires { IsSome (convert_act (bundle_tables code.now) op from to (value_at code.now vars.now operand)) }
    ensures { (ls : Lists) → convert_act (bundle_tables code.now) op from to (value_at code.now vars.now operand) ≡ Some (asked result ls) }
{
    Act::Gives(convert_scalar(code, vars, op, from, to, operand))
}

/// REFCAST
#[tactic(auto, using(crate::specs::OperandLaws::operands))]
pub fn refcast(code: &Checked, vars: &Variables, class: u32, operand: Source) -> Act
    requires { IsSome (refcast_act class (value_at code.now vars.now operand)) }
    ensures { (ls : Lists) → refcast_act class (value_at code.now vars.now operand) ≡ Some (asked result ls) }
{
    Act::Casts {
        class,
        scalar: scalar(code, vars, operand),
    }
}

/// A value is given: as itself where it is one scalar, else by way of the room.
fn give_value(value: &[Scalar], room: &mut Room) -> Result<Act, AllocError>
    ensures { IfOk result (λ act. asked act (lists_of room.new) ≡ acts.Gives (value.now ∷ [])) }
{
    match value {
        [scalar] => Ok(Act::Gives(*scalar)),
        _ => {
            room.values.clear();
            room.values.push_slice(value)?;
            Ok(Act::GivesValues)
        }
    }
}

/// The value of an operand is given.
#[tactic(auto, using(crate::specs::OperandLaws::operands))]
fn give(
    code: &Checked,
    vars: &Variables,
    source: Source,
    room: &mut Room,
) -> Result<Act, AllocError>
    requires { IsSome (value_at code.now vars.now source) }
    ensures { IfOk result (λ act. with_some (value_at code.now vars.now source) (λ v. Some (acts.Gives (v ∷ []))) ≡ Some (asked act (lists_of room.new))) }
{
    let value = read(code, vars, source);
    give_value(scalars(&value), room)
}

/// SELECT
#[tactic(auto, using(crate::specs::OperandLaws::operands))]
pub fn select(
    code: &Checked,
    vars: &Variables,
    condition: Source,
    if_one: Source,
    if_zero: Source,
    room: &mut Room,
) -> Result<Act, AllocError>
    requires { IsSome (select_act (value_at code.now vars.now condition) (value_at code.now vars.now if_one) (value_at code.now vars.now if_zero)) }
    ensures { IfOk result (λ act. select_act (value_at code.now vars.now condition) (value_at code.now vars.now if_one) (value_at code.now vars.now if_zero) ≡ Some (asked act (lists_of room.new))) }
{
    if is_one(code, vars, condition) {
        give(code, vars, if_one, room)
    } else {
        give(code, vars, if_zero, room)
    }
}

/// EXTRACTVALUE
#[tactic(auto, using(crate::specs::OperandLaws::operands))]
pub fn extractvalue(
    code: &Checked,
    vars: &Variables,
    field: StructField,
    operand: Source,
    room: &mut Room,
) -> Result<Act, AllocError>
    requires { IsSome (extractvalue_act (bundle_tables code.now) field.class field.number (value_at code.now vars.now operand)) }
    ensures { IfOk result (λ act. extractvalue_act (bundle_tables code.now) field.class field.number (value_at code.now vars.now operand) ≡ Some (asked act (lists_of room.new))) }
{
    let value = read(code, vars, operand);
    let parts = divided(code, field, scalars(&value));
    give_value(parts.field, room)
}

/// INSERTVALUE
#[tactic(auto, using(crate::specs::OperandLaws::operands))]
pub fn insertvalue(
    code: &Checked,
    vars: &Variables,
    field: StructField,
    operand: Source,
    value: Source,
    room: &mut Room,
) -> Result<Act, AllocError>
    requires { IsSome (insertvalue_act (bundle_tables code.now) field.class field.number (value_at code.now vars.now operand) (value_at code.now vars.now value)) }
    ensures { IfOk result (λ act. insertvalue_act (bundle_tables code.now) field.class field.number (value_at code.now vars.now operand) (value_at code.now vars.now value) ≡ Some (asked act (lists_of room.new))) }
{
    let operand = read(code, vars, operand);
    let value = read(code, vars, value);
    let parts = divided(code, field, scalars(&operand));
    room.scalars.clear();
    room.scalars.extend_from_slice(parts.before)?;
    room.scalars.extend_from_slice(scalars(&value))?;
    room.scalars.extend_from_slice(parts.behind)?;
    room.values.clear();
    room.values.push_slice(room.scalars.as_slice())?;
    Ok(Act::GivesValues)
}
