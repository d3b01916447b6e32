// The arguments of a definition, one by one.
ghost use Rattle.std.specs.Prelude.{◌≡◌, ◌&&◌, ◌==◌, ◌<◌, ◌++◌, length, slice_index};
ghost use Rattle.type_definitions.specs.Definition.{constructor, number, arguments};

use type_definitions::TypeDef;

/// How many arguments there are.
pub fn arity(definition: &TypeDef) -> usize
    ensures { result ≡ length (arguments definition.now) }
{
    match definition {
        TypeDef::Struct { fields } => fields.len(),
        TypeDef::Hybrid { fixed, element: _ } => fixed.as_slice().len() + 1,
        TypeDef::Sig { takes, gives } => takes.as_slice().len() + gives.as_slice().len(),
        TypeDef::Array { .. } | TypeDef::Ref(_) | TypeDef::Iref(_) | TypeDef::FuncRef(_) => 1,
        _ => 0,
    }
}

fn after(list: &[u32], rest: &[u32], k: usize) -> u32
    requires { k < length (list.now ++ rest.now) }
    ensures { result ≡ slice_index (list.now ++ rest.now) k }
{
    if k < list.len() {
        list[k]
    } else {
        rest[k - list.len()]
    }
}

/// The argument with that number, counted from 0.
pub fn argument(definition: &TypeDef, k: usize) -> u32
    requires { k < length (arguments definition.now) }
    ensures { result ≡ slice_index (arguments definition.now) k }
{
    match definition {
        TypeDef::Struct { fields } => fields.as_slice()[k],
        TypeDef::Array { element, .. } => *element,
        TypeDef::Hybrid { fixed, element } => if k < fixed.len() {
            fixed.as_slice()[k]
        } else {
            *element
        },
        TypeDef::Ref(t) | TypeDef::Iref(t) | TypeDef::FuncRef(t) => *t,
        TypeDef::Sig { takes, gives } => after(takes.as_slice(), gives.as_slice(), k),
        _ => 0,
    }
}

pub fn code(definition: &TypeDef) -> u8
    ensures { result ≡ constructor definition.now }
{
    match definition {
        TypeDef::Int { .. } => 0,
        TypeDef::Struct { .. } => 1,
        TypeDef::Array { .. } => 2,
        TypeDef::Hybrid { .. } => 3,
        TypeDef::Void => 4,
        TypeDef::Ref(_) => 5,
        TypeDef::Iref(_) => 6,
        TypeDef::FuncRef(_) => 7,
        TypeDef::StackRef => 8,
        TypeDef::ThreadRef => 9,
        TypeDef::Sig { .. } => 10,
    }
}

pub fn size(definition: &TypeDef) -> u128
    ensures { result ≡ number definition.now }
{
    match definition {
        TypeDef::Int { width } => *width,
        TypeDef::Array { length, .. } => *length,
        TypeDef::Sig { takes, .. } => takes.len() as u128,
        _ => 0,
    }
}

/// Whether the two have one constructor and one number.
pub fn are_alike(a: &TypeDef, b: &TypeDef) -> bool
    ensures { result ≡ ((constructor a.now == constructor b.now) && (number a.now == number b.now)) }
{
    code(a) == code(b) && size(a) == size(b)
}
