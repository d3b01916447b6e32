// Judging constants by their types.
ghost use Rattle.std.specs.Prelude.{◌≡◌, ◌^◌, ◌<◌, ◌≤◌, None, Some, length, slice_get, slice_index, nat_lt, IsSomeAnd};
ghost use Rattle.std.specs.List.{All};
ghost use Rattle.type_definitions.specs.Same.{same, IsGraph};
ghost use Rattle.mu_values.specs.Constants.{fits, is_reference, is_count, member_count, member_type, member_demands, width_of, constant_demands, HasMembers, Judged};

use crate::literals::{ConstFault, ConstKind, Literal, LiteralKind};
use mu_types::{Classes, TypeDef};
use text_forms::Listing;

/// Whether a number is less than 2^n.
fn is_below(magnitude: u128, n: u128) -> bool
    ensures { result ≡ nat_lt magnitude (2 ^ n) }
{
    if n >= 128 {
        true
    } else {
        magnitude < 1 << n as u32
    }
}

/// Whether a number is at least -2^(width-1) and less than 2^width.
fn number_fits(negative: bool, magnitude: u128, width: u128) -> bool
    ensures { result ≡ fits negative magnitude width }
{
    if negative {
        magnitude == 0 || is_below(magnitude - 1, width.saturating_sub(1))
    } else {
        is_below(magnitude, width)
    }
}

/// The width of an int.
pub(crate) fn int_width(definition: &TypeDef) -> Option<u128>
    ensures { result ≡ width_of (Some definition.now) }
{
    match definition {
        TypeDef::Int { width } => Some(*width),
        _ => None,
    }
}

fn may_be_null(definition: &TypeDef) -> bool
    ensures { result ≡ is_reference (Some definition.now) }
{
    matches!(
        definition,
        TypeDef::Ref(_)
            | TypeDef::Iref(_)
            | TypeDef::FuncRef(_)
            | TypeDef::StackRef
            | TypeDef::ThreadRef
    )
}

fn has_members(definition: &TypeDef, many: usize) -> bool
    ensures { result ≡ is_count (member_count (Some definition.now)) many }
{
    match definition {
        TypeDef::Struct { fields } => fields.len() == many,
        TypeDef::Array { length, .. } => *length == many as u128,
        _ => false,
    }
}

fn type_of_member(definition: &TypeDef, k: usize) -> u32
    requires { IsSomeAnd (member_count (Some definition.now)) (λ n. k < n) }
    ensures { result ≡ member_type (Some definition.now) k }
{
    match definition {
        TypeDef::Struct { fields } => fields.as_slice()[k],
        TypeDef::Array { element, .. } => *element,
        _ => 0,
    }
}

fn member_fits(classes: &Classes, t: u32, k: usize, types: &[u32], member: u32) -> bool
    requires graph { IsGraph classes.now.definitions }
    requires t { t < length classes.now.definitions }
    requires k { IsSomeAnd (member_count (slice_get classes.now.definitions t)) (λ n. k < n) }
    requires types { All (λ c. c < length classes.now.definitions) types.now }
    requires member { member < length types.now }
    ensures { result ≡ same classes.now.definitions (slice_index types.now member) (member_type (slice_get classes.now.definitions t) k) }
{
    let wanted = type_of_member(classes.definition(t), k);
    classes.same(types[member as usize], wanted)
}

fn place_at(places: &[u32], k: usize) -> usize
    ensures { result ≡ slice_index places.now k }
{
    if k < places.len() {
        places[k] as usize
    } else {
        0
    }
}

fn judge_members(
    classes: &Classes,
    t: u32,
    types: &[u32],
    members: &[u32],
    places: &[u32],
) -> Result<(), ConstFault>
    requires graph { IsGraph classes.now.definitions }
    requires t { t < length classes.now.definitions }
    requires count { member_count (slice_get classes.now.definitions t) ≡ Some (length members.now) }
    requires types { All (λ c. c < length classes.now.definitions) types.now }
    requires members { All (λ n. n < length types.now) members.now }
    ensures { Judged (member_demands classes.now.definitions types.now (slice_get classes.now.definitions t) members.now places.now (length members.now) 0) result }
{
    for k in 0..members.len() {
        if !member_fits(classes, t, k, types, members[k]) {
            return Err(ConstFault {
                kind: ConstKind::WrongShape,
                place: place_at(places, k),
            });
        }
    }
    Ok(())
}

/// Judges a literal by the type that it is a constant of, where `types` are the types of all constants by number. A refusal names
/// the first demand that is not met: `WrongShape` at a number for another type than an int, `OutOfWidth` at a number that does not
/// fit the width, `NotNullable` at NULL for a type that is no reference, `WrongShape` at a list for a type that is neither struct
/// nor array or that has another number of members, and `WrongShape` at the first member of another type. The types of members
/// are compared by two look-ups each; it takes no memory.
pub fn judge_const(
    classes: &Classes,
    t: u32,
    literal: &Literal,
    types: &Listing<u32>,
) -> Result<(), ConstFault>
    requires graph { IsGraph classes.now.definitions }
    requires t { t < length classes.now.definitions }
    requires types { All (λ c. c < length classes.now.definitions) types.now }
    requires members { HasMembers (length types.now) literal.now.kind }
    ensures { Judged (constant_demands classes.now.definitions types.now t literal.now) result }
{
    let definition = classes.definition(t);
    let place = literal.place;
    match &literal.kind {
        LiteralKind::Number {
            negative,
            magnitude,
        } => match int_width(definition) {
            None => Err(ConstFault {
                kind: ConstKind::WrongShape,
                place,
            }),
            Some(width) => if number_fits(*negative, *magnitude, width) {
                Ok(())
            } else {
                Err(ConstFault {
                    kind: ConstKind::OutOfWidth,
                    place,
                })
            },
        },
        LiteralKind::Null => if may_be_null(definition) {
            Ok(())
        } else {
            Err(ConstFault {
                kind: ConstKind::NotNullable,
                place,
            })
        },
        LiteralKind::Members { constants, places } => {
            if !has_members(definition, constants.len()) {
                return Err(ConstFault {
                    kind: ConstKind::WrongShape,
                    place,
                });
            }
            judge_members(
                classes,
                t,
                types.as_slice(),
                constants.as_slice(),
                places.as_slice(),
            )
        }
    }
}
