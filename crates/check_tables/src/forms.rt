// What the forms of instructions ask of the types that they name.
ghost use Rattle.std.specs.Prelude.{◌≡◌, Some, is_some, option_map, IfSome};
ghost use Rattle.mu_values.specs.Constants.{width_of};
ghost use Rattle.check_tables.specs.Types.{definition_in};
ghost use Rattle.check_tables.specs.Lookups.{definition_named, leaves_named};
ghost use Rattle.check_tables.specs.TypeTests.{is_int, is_scalar, is_sized, is_no_hybrid, is_value_type, is_castable, are_cast, is_hybrid, is_struct, fields_of, fixed_fields_of, field_at, element_of, repeated_of, is_int64, is_index_type};

use crate::tables::Tables;
use ir_lex::{Name, Number};
use mu_types::TypeDef;

/// The most leaves of a variable's type.
const MOST_LEAVES_OF_A_VARIABLE: usize = 256;

/// The most bits of an index.
const MOST_BITS_OF_AN_INDEX: u128 = 64;

/// A field that is there: its number, and the number of its type.
#[derive(Clone, Copy, Debug, PartialEq, Eq)]
pub struct Field {
    pub number: usize,
    pub of_type: u32,
}

/// The member with that number, as it is written.
fn member(fields: &[u32], n: Number) -> Option<Field>
    ensures of_type { option_map (λ f. f.of_type) result ≡ field_at (Some fields.now) n }
    ensures number { IfSome result (λ f. f.number ≡ n.magnitude) }
{
    if n.negative {
        return None;
    }
    let Ok(number) = usize::try_from(n.magnitude) else {
        return None;
    };
    match fields.get(number) {
        Some(of_type) => Some(Field {
            number,
            of_type: *of_type,
        }),
        None => None,
    }
}

impl Tables {
    /// Whether the name is that of an int.
    pub fn is_int(&self, name: &Name) -> bool
        ensures { result ≡ is_int (definition_named self.now name.now) }
    {
        matches!(self.definition_named(name), Some(TypeDef::Int { .. }))
    }

    /// Whether the name is that of an int or of a reference.
    pub fn is_scalar(&self, name: &Name) -> bool
        ensures { result ≡ is_scalar (definition_named self.now name.now) }
    {
        matches!(
            self.definition_named(name),
            Some(
                TypeDef::Int { .. }
                    | TypeDef::Ref(_)
                    | TypeDef::Iref(_)
                    | TypeDef::FuncRef(_)
                    | TypeDef::StackRef
                    | TypeDef::ThreadRef
            )
        )
    }

    /// Whether the name is that of a type that is neither void nor a hybrid.
    pub fn is_sized(&self, name: &Name) -> bool
        ensures { result ≡ is_sized (definition_named self.now name.now) }
    {
        !matches!(
            self.definition_named(name),
            None | Some(TypeDef::Hybrid { .. } | TypeDef::Void | TypeDef::Sig { .. })
        )
    }

    /// Whether the name is that of a type that is no hybrid.
    pub fn is_no_hybrid(&self, name: &Name) -> bool
        ensures { result ≡ is_no_hybrid (definition_named self.now name.now) }
    {
        !matches!(
            self.definition_named(name),
            None | Some(TypeDef::Hybrid { .. } | TypeDef::Sig { .. })
        )
    }

    /// Whether the name is that of a type that variables may have.
    pub fn is_value_type(&self, name: &Name) -> bool
        ensures { result ≡ is_value_type (definition_named self.now name.now) (leaves_named self.now name.now) }
    {
        self.is_sized(name) && self.leaf_count(name) <= MOST_LEAVES_OF_A_VARIABLE
    }

    /// Whether the name is that of a reference to objects, places or functions.
    pub fn is_castable(&self, name: &Name) -> bool
        ensures { result ≡ is_castable (definition_named self.now name.now) }
    {
        matches!(
            self.definition_named(name),
            Some(TypeDef::Ref(_) | TypeDef::Iref(_) | TypeDef::FuncRef(_))
        )
    }

    /// Whether both names are those of references to objects, both of references to places, or both of references to functions.
    pub fn are_cast(&self, from: &Name, to: &Name) -> bool
        ensures { result ≡ are_cast (definition_named self.now from.now) (definition_named self.now to.now) }
    {
        match (self.definition_named(from), self.definition_named(to)) {
            (Some(TypeDef::Ref(_)), Some(TypeDef::Ref(_))) => true,
            (Some(TypeDef::Iref(_)), Some(TypeDef::Iref(_))) => true,
            (Some(TypeDef::FuncRef(_)), Some(TypeDef::FuncRef(_))) => true,
            _ => false,
        }
    }

    /// Whether the name is that of a hybrid.
    pub fn is_hybrid(&self, name: &Name) -> bool
        ensures { result ≡ is_hybrid (definition_named self.now name.now) }
    {
        matches!(self.definition_named(name), Some(TypeDef::Hybrid { .. }))
    }

    /// Whether the name is that of a struct.
    pub fn is_struct(&self, name: &Name) -> bool
        ensures { result ≡ is_struct (definition_named self.now name.now) }
    {
        matches!(self.definition_named(name), Some(TypeDef::Struct { .. }))
    }

    /// A field of the struct that a name stands for.
    pub fn field(&self, name: &Name, n: Number) -> Option<Field>
        ensures of_type { option_map (λ f. f.of_type) result ≡ field_at (fields_of (definition_named self.now name.now)) n }
        ensures number { IfSome result (λ f. f.number ≡ n.magnitude) }
    {
        match self.definition_named(name) {
            Some(TypeDef::Struct { fields }) => member(fields.as_slice(), n),
            _ => None,
        }
    }

    /// Whether the name is that of a struct or a hybrid.
    pub fn has_fields(&self, name: &Name) -> bool
        ensures { result ≡ is_some (fixed_fields_of (definition_named self.now name.now)) }
    {
        matches!(
            self.definition_named(name),
            Some(TypeDef::Struct { .. } | TypeDef::Hybrid { .. })
        )
    }

    /// A field of the struct, or a fixed field of the hybrid, that a name stands for.
    pub fn fixed_field(&self, name: &Name, n: Number) -> Option<Field>
        ensures of_type { option_map (λ f. f.of_type) result ≡ field_at (fixed_fields_of (definition_named self.now name.now)) n }
        ensures number { IfSome result (λ f. f.number ≡ n.magnitude) }
    {
        match self.definition_named(name) {
            Some(TypeDef::Struct { fields }) => member(fields.as_slice(), n),
            Some(TypeDef::Hybrid { fixed, .. }) => member(fixed.as_slice(), n),
            _ => None,
        }
    }

    /// The type of the elements of the array that a name stands for.
    pub fn element(&self, name: &Name) -> Option<u32>
        ensures { result ≡ element_of (definition_named self.now name.now) }
    {
        match self.definition_named(name) {
            Some(TypeDef::Array { element, .. }) => Some(*element),
            _ => None,
        }
    }

    /// The type of the elements that the hybrid has any number of that a name stands for.
    pub fn repeated(&self, name: &Name) -> Option<u32>
        ensures { result ≡ repeated_of (definition_named self.now name.now) }
    {
        match self.definition_named(name) {
            Some(TypeDef::Hybrid { element, .. }) => Some(*element),
            _ => None,
        }
    }

    /// The width of the int that a name stands for, and none where it stands for no int.
    pub fn width(&self, name: &Name) -> Option<u128>
        ensures { result ≡ width_of (definition_named self.now name.now) }
    {
        match self.definition_named(name) {
            Some(TypeDef::Int { width }) => Some(*width),
            _ => None,
        }
    }

    /// Whether there is a class, and its types are ints of 64 bits.
    pub fn is_class_of_int64(&self, class: Option<u32>) -> bool
        ensures { result ≡ is_int64 (definition_in self.now.types class) }
    {
        match class {
            Some(class) => match self.types.definition(class) {
                Some(TypeDef::Int { width }) => *width == 64,
                _ => false,
            },
            None => false,
        }
    }

    /// Whether the name is that of an int that indexes and counts of elements may have.
    pub fn is_index_type(&self, name: &Name) -> bool
        ensures { result ≡ is_index_type (definition_named self.now name.now) }
    {
        match self.definition_named(name) {
            Some(TypeDef::Int { width }) => *width <= MOST_BITS_OF_AN_INDEX,
            _ => false,
        }
    }
}
