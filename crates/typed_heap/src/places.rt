// Places that are found from others, casts, and cells that may be accessed. None of these takes memory.
ghost use Rattle.std.specs.Prelude.{◌≡◌, ℕ, ◌<◌, Some, None, length, slice_get, IfSome, IsSome, IsSomeAnd, ℤ, pos, ◌+ℤ◌};
ghost use Rattle.type_definitions.specs.Same.{IsGraph};
ghost use Rattle.check_tables.specs.TypeTests.{fixed_fields_of};
ghost use Rattle.typed_heap.specs.Places.{Field, Element, Shift, VarPart, move, find_place, cast, cell_of};
ghost use Rattle.typed_heap.specs.Offsets.{offset_of};
ghost use Rattle.mu_values.specs.declared.scalars.Scalar.TheVariants.{Place};

use crate::faults::PlaceFault;
use crate::fitting::{fits, fits_at};
use crate::heap::Heap;
use crate::moving::{leaves_before, moved};
use mu_types::{Classes, TypeDef};
use mu_values::{CellId, Scalar};

impl Heap {
    /// The place of a field, by its number, of the struct or of the fixed part of the hybrid that a place is of. `Null`: the place is
    /// NULL. `OutOfRange`: the field's type is not found there. It takes time for the fields before it and the field's leaves.
    pub fn field(
        &self,
        classes: &Classes,
        place: Scalar,
        t: u32,
        index: usize,
    ) -> Result<Scalar, PlaceFault>
        requires graph { IsGraph classes.now.definitions }
        requires t { t < length classes.now.definitions }
        requires there { IsSome (find_place classes.now.definitions self.now.objects (move classes.now.definitions (Field t index)) place) }
        ensures { find_place classes.now.definitions self.now.objects (move classes.now.definitions (Field t index)) place ≡ Some result }
    {
        let Scalar::Place { object, at } = place else {
            return Err(PlaceFault::Null);
        };
        let fields = fixed_fields(classes.definition(t));
        let before = leaves_before(classes, &fields[..index]);
        self.land(classes, object, moved(at, 1, before), fields[index])
    }

    /// The place of an element, by its number, of the array that a place is of. `Null`: the place is NULL, whatever the number.
    /// `OutOfRange`: there is no element of that number, or it is not found there. It takes time for the element's leaves.
    pub fn element(
        &self,
        classes: &Classes,
        place: Scalar,
        t: u32,
        index: i128,
    ) -> Result<Scalar, PlaceFault>
        requires graph { IsGraph classes.now.definitions }
        requires t { t < length classes.now.definitions }
        requires there { IsSome (find_place classes.now.definitions self.now.objects (move classes.now.definitions (Element t index)) place) }
        ensures { find_place classes.now.definitions self.now.objects (move classes.now.definitions (Element t index)) place ≡ Some result }
    {
        let Scalar::Place { object, at } = place else {
            return Err(PlaceFault::Null);
        };
        let TypeDef::Array { element, length } = classes.definition(t) else {
            return Err(PlaceFault::OutOfRange);
        };
        if index < 0 || index as u128 >= *length {
            return Err(PlaceFault::OutOfRange);
        }
        let leaves = classes.leaves(*element).len();
        self.land(classes, object, moved(at, index, leaves), *element)
    }

    /// The place that is so many values of a type behind a place of that type, or before it. `Null`: the place is NULL. `OutOfRange`:
    /// the type is not found there. It takes time for the type's leaves, however far it is.
    pub fn shift(
        &self,
        classes: &Classes,
        place: Scalar,
        t: u32,
        by: i128,
    ) -> Result<Scalar, PlaceFault>
        requires graph { IsGraph classes.now.definitions }
        requires t { t < length classes.now.definitions }
        requires there { IsSome (find_place classes.now.definitions self.now.objects (move classes.now.definitions (Shift t by)) place) }
        ensures { find_place classes.now.definitions self.now.objects (move classes.now.definitions (Shift t by)) place ≡ Some result }
    {
        let Scalar::Place { object, at } = place else {
            return Err(PlaceFault::Null);
        };
        let leaves = classes.leaves(t).len();
        self.land(classes, object, moved(at, by, leaves), t)
    }

    /// The place of the first element behind the fixed fields of the hybrid that a place is of. `Null`: the place is NULL.
    /// `OutOfRange`: no element is found there, and it is not the object's end. It takes time for the element's leaves.
    pub fn var_part(&self, classes: &Classes, place: Scalar, t: u32) -> Result<Scalar, PlaceFault>
        requires graph { IsGraph classes.now.definitions }
        requires t { t < length classes.now.definitions }
        requires there { IsSome (find_place classes.now.definitions self.now.objects (move classes.now.definitions (VarPart t)) place) }
        ensures { find_place classes.now.definitions self.now.objects (move classes.now.definitions (VarPart t)) place ≡ Some result }
    {
        let Scalar::Place { object, at } = place else {
            return Err(PlaceFault::Null);
        };
        let TypeDef::Hybrid { element, .. } = classes.definition(t) else {
            return Err(PlaceFault::OutOfRange);
        };
        let leaves = classes.leaves(t).len();
        self.land(classes, object, moved(at, 1, leaves), *element)
    }

    /// The place at an offset of an object, if there is such an offset and the wanted type is found there or it is the object's end.
    fn land(
        &self,
        classes: &Classes,
        object: u32,
        offset: Option<u32>,
        wanted: u32,
    ) -> Result<Scalar, PlaceFault>
        requires graph { IsGraph classes.now.definitions }
        requires wanted { wanted < length classes.now.definitions }
        requires object { object < length self.now.objects }
        ensures { (at : ℕ) (z : ℤ) → offset_of (pos at +ℤ z) ≡ offset → find_place classes.now.definitions self.now.objects (Some (record { by = Some z; wanted = wanted })) (Place object at) ≡ Some result }
    {
        let (leaves, rhythm) = self.objects.leaves(object);
        match offset {
            Some(at) if fits_at(classes, wanted, leaves, rhythm, at) => Ok(Scalar::Place {
                object,
                at,
            }),
            _ => Err(PlaceFault::OutOfRange),
        }
    }

    /// The same reference to an object or the same place, where it fits the target, which is a type of references to objects or of
    /// places; NULL always does. `BadCast`: it does not fit. It takes time for the leaves of what the target refers to; for a hybrid it
    /// takes more, for as many leaves as the object's own type has.
    pub fn cast(&self, classes: &Classes, value: Scalar, target: u32) -> Result<Scalar, PlaceFault>
        requires graph { IsGraph classes.now.definitions }
        requires target { target < length classes.now.definitions }
        requires there { IsSome (cast classes.now.definitions self.now.objects (slice_get classes.now.definitions target) value) }
        ensures { cast classes.now.definitions self.now.objects (slice_get classes.now.definitions target) value ≡ Some result }
    {
        let fits = match (value, classes.definition(target)) {
            (Scalar::Object(object), TypeDef::Ref(t)) => {
                let (leaves, rhythm) = self.objects.leaves(object);
                fits(classes, *t, leaves, rhythm)
            }
            (Scalar::Place { object, at }, TypeDef::Iref(t)) => {
                let (leaves, rhythm) = self.objects.leaves(object);
                fits_at(classes, *t, leaves, rhythm, at)
            }
            _ => true,
        };
        if fits {
            Ok(value)
        } else {
            Err(PlaceFault::BadCast)
        }
    }

    /// The cell at a place. `Null`: the place is NULL. `OutOfRange`: it is the object's end. `DeadCell`: the cells of the object are
    /// dead. It takes constant time.
    pub fn cell_of(&self, place: Scalar) -> Result<CellId, PlaceFault>
        requires { IsSome (cell_of self.now.objects place) }
        ensures { cell_of self.now.objects place ≡ Some result }
    {
        let Scalar::Place { object, at } = place else {
            return Err(PlaceFault::Null);
        };
        if at >= self.objects.size(object) {
            return Err(PlaceFault::OutOfRange);
        }
        if self.objects.is_dead(object) {
            return Err(PlaceFault::DeadCell);
        }
        Ok(CellId { object, at })
    }
}

/// The fields of a struct, or the fixed ones of a hybrid; none of another type.
fn fixed_fields(definition: &TypeDef) -> &[u32]
    ensures { IfSome (fixed_fields_of (Some definition.now)) (λ fields. fields ≡ result.now) }
{
    match definition {
        TypeDef::Struct { fields } => fields.as_slice(),
        TypeDef::Hybrid { fixed, .. } => fixed.as_slice(),
        _ => &[],
    }
}
