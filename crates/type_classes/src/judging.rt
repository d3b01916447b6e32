// The first pass: the arguments of each definition.
ghost use Rattle.std.specs.Prelude.{◌≡◌, ℕ, ◌+◌, ◌<◌, ◌≤◌, ◌==◌, Option, None, Some, length, slice_get, slice_index};
ghost use Rattle.std.specs.List.{list_any};
ghost use Rattle.demands.specs.Demands.{first_unmet};
ghost use Rattle.mu_types.specs.TypeDemands.{can_be_part, judged, allows, place, wrong_arguments, each};

use mu_types::{LONGEST_ARRAY, TypeFault, TypeKind, WIDTHS};
use text_forms::Listing;
use type_definitions::TypeDef;

fn member(list: &[u32], k: usize) -> usize
    ensures { result ≡ slice_index list.now k }
{
    if k < list.len() { list[k] as usize } else { 0 }
}

/// Place k of definition t, 0 where none is given.
pub fn place_of(places: &[Listing<u32>], t: usize, k: usize) -> usize
    ensures { result ≡ place places.now t k }
{
    if t < places.len() {
        member(places[t].as_slice(), k)
    } else {
        0
    }
}

fn is_width(width: u128) -> bool
    ensures { result ≡ list_any (λ allowed. allowed == width) WIDTHS }
{
    WIDTHS.iter().any(|allowed| *allowed == width)
}

fn is_part(all: &[TypeDef], t: u32) -> bool
    ensures { result ≡ can_be_part (slice_get all.now t) }
{
    let t = t as usize;
    t < all.len() && !matches!(all[t], TypeDef::Void | TypeDef::Hybrid { .. })
}

fn judged_arguments(definition: &TypeDef) -> usize
    ensures { result ≡ judged definition.now }
{
    match definition {
        TypeDef::Int { .. } => 1,
        TypeDef::Struct { fields } => fields.len(),
        TypeDef::Array { .. } => 2,
        TypeDef::Hybrid { fixed, element: _ } => fixed.as_slice().len() + 1,
        _ => 0,
    }
}

fn is_allowed(all: &[TypeDef], definition: &TypeDef, k: usize) -> bool
    requires { k < judged definition.now }
    ensures { result ≡ allows all.now definition.now k }
{
    match definition {
        TypeDef::Int { width } => is_width(*width),
        TypeDef::Struct { fields } => is_part(all, fields.as_slice()[k]),
        TypeDef::Array { element, length } => {
            if k == 0 {
                is_part(all, *element)
            } else {
                1 <= *length && *length <= LONGEST_ARRAY
            }
        }
        TypeDef::Hybrid { fixed, element } => {
            let fixed = fixed.as_slice();
            is_part(all, if k < fixed.len() { fixed[k] } else { *element })
        }
        _ => true,
    }
}

fn wrong_argument(all: &[TypeDef], places: &[Listing<u32>], t: usize) -> Option<TypeFault>
    requires { t < length all.now }
    ensures { result ≡ first_unmet (wrong_arguments all.now places.now t) }
{
    let definition = &all[t];
    for k in 0..judged_arguments(definition) {
        if !is_allowed(all, definition, k) {
            let place = place_of(places, t, k + 1);
            return Some(TypeFault::At {
                kind: TypeKind::WrongArgument,
                place,
            });
        }
    }
    None
}

/// The first argument, of the first so many definitions, that is not allowed.
pub fn first_wrong_argument(
    all: &[TypeDef],
    places: &[Listing<u32>],
    many: usize,
) -> Option<TypeFault>
    requires { many ≤ length all.now }
    ensures { result ≡ first_unmet (each (wrong_arguments all.now places.now) many 0) }
{
    for t in 0..many {
        if let Some(fault) = wrong_argument(all, places, t) {
            return Some(fault);
        }
    }
    None
}
