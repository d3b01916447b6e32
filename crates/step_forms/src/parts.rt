// Parts of the values of structs.
ghost use Rattle.std.specs.Prelude.{◌≡◌, ◌+◌, ◌<◌, ◌≤◌, Some, IsSome, IsSomeAnd, length, slice_get, take, drop};
ghost use Rattle.std.specs.List.{All};
ghost use Rattle.type_definitions.specs.Same.{IsGraph};
ghost use Rattle.check_tables.specs.TypeTests.{fields_of};
ghost use Rattle.checked_code.specs.Checking.{bundle_tables};
ghost use Rattle.typed_heap.specs.Objects.{leaf_classes};
ghost use Rattle.typed_heap.specs.Places.{leaves_together};
ghost use Rattle.mu_model.specs.ComputationForms.{part_of};

use checked_code::Checked;
use mu_types::{Classes, TypeDef};
use mu_values::Scalar;

/// A field of a struct.
#[derive(Clone, Copy, Debug, PartialEq, Eq)]
pub struct StructField {
    /// The class of the struct.
    pub class: u32,
    /// The number of the field, counted from 0.
    pub number: usize,
}

/// The field with that number of a struct of that class.
pub(crate) fn field_of(class: u32, number: usize) -> StructField
    ensures class { result.class ≡ class }
    ensures number { result.number ≡ number }
{
    StructField { class, number }
}

/// A value in three parts: what stands before a field, the field, and what stands behind it.
#[derive(Clone, Copy)]
pub(crate) struct Parts<'a> {
    pub(crate) before: &'a [Scalar],
    pub(crate) field: &'a [Scalar],
    pub(crate) behind: &'a [Scalar],
}

/// The fields of a struct.
#[tactic(auto, using(crate::proofs::Fields::fields))]
fn fields(classes: &Classes, class: u32) -> &[u32]
    requires there { IsSome (fields_of (slice_get classes.now.definitions class)) }
    requires graph { IsGraph classes.now.definitions }
    ensures is { fields_of (slice_get classes.now.definitions class) ≡ Some result.now }
    ensures within { All (λ t. t < length classes.now.definitions) result.now }
{
    match classes.definition(class) {
        TypeDef::Struct { fields } => fields.as_slice(),
        _ => unreachable!(),
    }
}

fn type_at(types: &[u32], n: usize) -> u32
    requires { n < length types.now }
    ensures { slice_get types.now n ≡ Some result }
{
    types[n]
}

/// The first scalars of a value, or all where there are not so many.
fn front(value: &[Scalar], many: usize) -> &[Scalar]
    ensures { result.now ≡ take many value.now }
{
    if many < value.len() {
        &value[..many]
    } else {
        value
    }
}

/// The scalars of a value without the first ones.
fn back(value: &[Scalar], many: usize) -> &[Scalar]
    ensures { result.now ≡ drop many value.now }
{
    if many < value.len() {
        &value[many..]
    } else {
        &[]
    }
}

fn leaf_count(classes: &Classes, t: u32) -> usize
    requires { t < length classes.now.definitions }
    ensures { result ≡ length (leaf_classes classes.now.definitions t) }
{
    classes.leaves(t).len()
}

/// What stands behind the leaves of these types.
#[tactic(auto, using(crate::proofs::Fields::leaves))]
fn behind<'a>(classes: &Classes, types: &[u32], value: &'a [Scalar]) -> &'a [Scalar]
    requires { All (λ t. t < length classes.now.definitions) types.now }
    ensures { result.now ≡ drop (leaves_together classes.now.definitions types.now) value.now }
{
    let mut left = value;
    for n in 0..types.len() {
        left = back(left, leaf_count(classes, type_at(types, n)));
    }
    left
}

/// The parts of a value about a field.
#[tactic(auto, using(crate::proofs::Fields::parts))]
pub(crate) fn divided<'a>(code: &Checked, field: StructField, value: &'a [Scalar]) -> Parts<'a>
    requires { IsSome (part_of (bundle_tables code.now) field.class field.number) }
    ensures before { IsSomeAnd (part_of (bundle_tables code.now) field.class field.number) (λ q. result.before.now ≡ take q.before value.now) }
    ensures field { IsSomeAnd (part_of (bundle_tables code.now) field.class field.number) (λ q. result.field.now ≡ take q.size (drop q.before value.now)) }
    ensures behind { IsSomeAnd (part_of (bundle_tables code.now) field.class field.number) (λ q. result.behind.now ≡ drop (q.before + q.size) value.now) }
{
    let classes = code.classes();
    let fields = fields(classes, field.class);
    let rest = behind(classes, &fields[..field.number], value);
    let size = leaf_count(classes, type_at(fields, field.number));
    Parts {
        before: front(value, value.len() - rest.len()),
        field: front(rest, size),
        behind: back(rest, size),
    }
}
