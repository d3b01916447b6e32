// The values of operands, and their classes.
ghost use Rattle.std.specs.Prelude.{◌≡◌, ◌<◌, [], ◌∷◌, ◌++◌, Some, IsSome, IsSomeAnd, OnOk, OnErr, length, map, slice_get};
ghost use Rattle.checked_code.specs.Constants.{constant_values};
ghost use Rattle.checked_code.specs.Checking.{bundle_tables};
ghost use Rattle.check_tables.specs.Lookups.{funcref_of, signature_in};
ghost use Rattle.mu_model.specs.Operands.{scalar_in, bits_in, all_some};
ghost use Rattle.mu_model.specs.ComputationForms.{bit};
ghost use Rattle.model_numbers.specs.Sources.{value_at, values_at, class_at, classes_at, goal_at};
ghost use Rattle.model_numbers.specs.Numbered.{kept_at};
ghost use Rattle.step_forms.specs.Reading.{scalars_read};

use crate::variables::Variables;
use check_tables::{Signature, Tables};
use checked_code::{Checked, Source, Target};
use mu_base::Types;
use mu_values::{Scalar, Slots};
use std::alloc::AllocError;

/// The value of a constant that is there.
#[tactic(auto, using(crate::specs::ConstantLaws::constants))]
pub(crate) fn constant(code: &Checked, n: u32) -> &[Scalar]
    requires { IsSome (slice_get (constant_values (bundle_tables code.now) code.now) n) }
    ensures { slice_get (constant_values (bundle_tables code.now) code.now) n ≡ Some result.now }
{
    code.constant(n).as_slice()
}

/// The one scalar of a value that has one.
#[tactic(auto, using(crate::specs::OperandLaws::operands))]
#[inline]
pub(crate) fn lent(value: &[Scalar]) -> &Scalar
    requires { IsSome (scalar_in (Some value.now)) }
    ensures { scalar_in (Some value.now) ≡ Some result.now }
{
    match value {
        [scalar] => scalar,
        _ => unreachable!(),
    }
}

/// The same, copied. Every frequent instruction reads its operands so, and is not to make a call for each.
#[inline(always)]
fn only(value: &[Scalar]) -> Scalar
    requires { IsSome (scalar_in (Some value.now)) }
    ensures { scalar_in (Some value.now) ≡ Some result }
{
    *lent(value)
}

/// The value of an operand that has one scalar. It takes constant time and no memory.
#[tactic(auto, using(crate::specs::OperandLaws::operands))]
#[inline(always)]
pub fn scalar(code: &Checked, vars: &Variables, source: Source) -> Scalar
    requires { IsSome (scalar_in (value_at code.now vars.now source)) }
    ensures { scalar_in (value_at code.now vars.now source) ≡ Some result }
{
    match source {
        Source::Variable(n) => only(vars.at(n)),
        Source::Constant(n) => only(constant(code, n)),
        Source::GlobalCell(n) => Scalar::Place { object: n, at: 0 },
        Source::Function(n) => Scalar::Func(n),
    }
}

/// Whether an integer of one bit is 1.
#[tactic(auto, using(crate::specs::OperandLaws::flags))]
pub(crate) fn is_one(code: &Checked, vars: &Variables, source: Source) -> bool
    requires { IsSome (bits_in (Some 1) (value_at code.now vars.now source)) }
    ensures { bits_in (Some 1) (value_at code.now vars.now source) ≡ Some (bit result) }
{
    match scalar(code, vars, source) {
        Scalar::Int { bits, .. } => bits == 1,
        _ => unreachable!(),
    }
}

/// The value of an operand: scalars that stand somewhere, or one that is made.
#[derive(Clone, Copy)]
pub(crate) enum Reading<'a> {
    Held(&'a [Scalar]),
    Made(Scalar),
}

/// The value of an operand that is there.
#[tactic(auto, using(crate::specs::OperandLaws::operands))]
pub(crate) fn read<'a>(code: &'a Checked, vars: &'a Variables, source: Source) -> Reading<'a>
    requires { IsSome (value_at code.now vars.now source) }
    ensures { value_at code.now vars.now source ≡ Some (scalars_read result) }
{
    match source {
        Source::Variable(n) => Reading::Held(vars.at(n)),
        Source::Constant(n) => Reading::Held(constant(code, n)),
        Source::GlobalCell(n) => Reading::Made(Scalar::Place { object: n, at: 0 }),
        Source::Function(n) => Reading::Made(Scalar::Func(n)),
    }
}

/// The scalars that were read.
pub(crate) fn scalars<'a>(read: &'a Reading<'a>) -> &'a [Scalar]
    ensures { result.now ≡ scalars_read read.now }
{
    match read {
        Reading::Held(scalars) => scalars,
        Reading::Made(scalar) => std::slice::from_ref(scalar),
    }
}

/// Adds the value of an operand to a list. Where no memory is found the list is as it was.
#[tactic(auto, using(crate::specs::OperandLaws::operands))]
#[inline(always)]
pub fn push_value(
    code: &Checked,
    vars: &Variables,
    source: Source,
    out: &mut Slots,
) -> Result<(), AllocError>
    requires { IsSome (value_at code.now vars.now source) }
    ensures ok { OnOk result (IsSomeAnd (value_at code.now vars.now source) (λ v. out.new.values ≡ out.old.values ++ v ∷ [])) }
    ensures stays { OnErr result (out.new.values ≡ out.old.values) }
{
    match source {
        Source::Variable(n) => out.push_slice(vars.at(n)),
        Source::Constant(n) => out.push_slice(constant(code, n)),
        Source::GlobalCell(n) => out.push_scalar(Scalar::Place { object: n, at: 0 }),
        Source::Function(n) => out.push_scalar(Scalar::Func(n)),
    }
}

fn source_at(sources: &[Source], n: usize) -> Source
    requires { n < length sources.now }
    ensures { slice_get sources.now n ≡ Some result }
{
    sources[n]
}

/// The values of operands, in place of what the list held. Where no memory is found some may be missing.
#[tactic(auto, using(crate::specs::OperandLists::values))]
pub fn read_values(
    code: &Checked,
    vars: &Variables,
    sources: &[Source],
    out: &mut Slots,
) -> Result<(), AllocError>
    requires { IsSome (values_at code.now vars.now sources.now) }
    ensures { OnOk result (values_at code.now vars.now sources.now ≡ Some out.new.values) }
{
    out.clear();
    for n in 0..sources.len() {
        push_value(code, vars, source_at(sources, n), out)?;
    }
    Ok(())
}

/// The arguments of a destination, in place of what the list held. Where no memory is found some may be missing.
#[tactic(auto, using(crate::specs::OperandLaws::operands))]
pub fn read_goal(
    code: &Checked,
    vars: &Variables,
    target: &Target,
    out: &mut Slots,
) -> Result<(), AllocError>
    requires { IsSome (goal_at code.now vars.now target.now) }
    ensures { OnOk result (goal_at code.now vars.now target.now ≡ Some (record { block = target.now.block; values = out.new.values })) }
{
    read_values(code, vars, target.arguments.as_slice(), out)
}

#[tactic(auto, using(crate::specs::OperandLaws::classes))]
fn number_at(numbers: &[u32], n: usize) -> u32
    requires { IsSome (slice_get numbers.now n) }
    ensures { slice_get numbers.now n ≡ Some result }
{
    numbers[n]
}

#[tactic(auto, using(crate::specs::OperandLaws::classes))]
fn signature_at(tables: &Tables, n: usize) -> &Signature
    requires { IsSome (slice_get tables.now.signatures n) }
    ensures { slice_get tables.now.signatures n ≡ Some result.now }
{
    &tables.signatures.as_slice()[n]
}

/// The class of the references to a function that is there.
#[tactic(auto, using(crate::specs::OperandLaws::classes))]
fn funcref(tables: &Tables, function: u32) -> u32
    requires { IsSome (funcref_of (signature_in tables.now (slice_get tables.now.functions function))) }
    ensures { funcref_of (signature_in tables.now (slice_get tables.now.functions function)) ≡ Some result }
{
    let signature = number_at(tables.functions.as_slice(), function as usize);
    signature_at(tables, signature as usize).funcref
}

/// The class of an operand.
#[tactic(auto, using(crate::specs::OperandLaws::classes))]
fn class(tables: &Tables, types: &[u32], source: Source) -> u32
    requires { IsSome (class_at tables.now types.now source) }
    ensures { class_at tables.now types.now source ≡ Some result }
{
    match source {
        Source::Variable(n) => number_at(types, n as usize),
        Source::Constant(n) => number_at(tables.constants.as_slice(), n as usize),
        Source::GlobalCell(n) => number_at(tables.global_cells.as_slice(), n as usize),
        Source::Function(n) => funcref(tables, n),
    }
}

/// The classes of operands, in place of what the list held, where those of the block's variables are these. Where no memory is found
/// some may be missing.
#[tactic(auto, using(crate::specs::OperandLists::classes))]
pub fn read_classes(
    code: &Checked,
    types: &[u32],
    sources: &[Source],
    out: &mut Types,
) -> Result<(), AllocError>
    requires { IsSome (classes_at (bundle_tables code.now) types.now sources.now) }
    ensures { OnOk result (classes_at (bundle_tables code.now) types.now sources.now ≡ Some out.new.members) }
{
    let tables = code.tables();
    out.clear();
    for n in 0..sources.len() {
        out.push(class(tables, types, source_at(sources, n)))?;
    }
    Ok(())
}

/// These classes, in place of what the list held. Where no memory is found some may be missing.
#[tactic(auto, using(crate::specs::OperandLists::copies))]
pub fn copy_classes(classes: &[u32], out: &mut Types) -> Result<(), AllocError>
    ensures { OnOk result (out.new.members ≡ classes.now) }
{
    out.clear();
    for n in 0..classes.len() {
        out.push(name_at(classes, n))?;
    }
    Ok(())
}

/// The classes of variables, in place of what the list held.
#[tactic(auto, using(crate::specs::OperandLists::numbers))]
fn kept_classes(types: &[u32], names: &[u32], out: &mut Types) -> Result<(), AllocError>
    requires { IsSome (all_some (map (slice_get types.now) names.now)) }
    ensures { OnOk result (all_some (map (slice_get types.now) names.now) ≡ Some out.new.members) }
{
    out.clear();
    for n in 0..names.len() {
        out.push(number_at(types, name_at(names, n) as usize))?;
    }
    Ok(())
}

/// The values of variables, in place of what the list held.
#[tactic(auto, using(crate::specs::OperandLists::numbered))]
fn kept_values(vars: &Variables, names: &[u32], out: &mut Slots) -> Result<(), AllocError>
    requires { IsSome (all_some (map (slice_get vars.now) names.now)) }
    ensures { OnOk result (all_some (map (slice_get vars.now) names.now) ≡ Some out.new.values) }
{
    out.clear();
    for n in 0..names.len() {
        out.push_slice(vars.at(name_at(names, n)))?;
    }
    Ok(())
}

fn name_at(names: &[u32], n: usize) -> u32
    requires { n < length names.now }
    ensures { slice_get names.now n ≡ Some result }
{
    names[n]
}

/// The variables that a client may see, with their classes, in place of what the lists held. Where no memory is found some may be
/// missing.
#[tactic(auto, using(crate::specs::OperandLaws::operands))]
pub fn read_kept(
    types: &[u32],
    vars: &Variables,
    names: &[u32],
    classes: &mut Types,
    values: &mut Slots,
) -> Result<(), AllocError>
    requires { IsSome (kept_at types.now vars.now names.now) }
    ensures { OnOk result (kept_at types.now vars.now names.now ≡ Some (record { types = classes.new.members; values = values.new.values })) }
{
    kept_classes(types, names, classes)?;
    kept_values(vars, names, values)
}
