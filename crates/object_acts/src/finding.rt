// Places that are found, references that are cast, and the case that a fault is.
ghost use Rattle.std.specs.Prelude.{◌≡◌, ◌<◌, IsSome, Some, length, slice_get};
ghost use Rattle.checked_code.specs.Checking.{bundle_tables};
ghost use Rattle.typed_heap.specs.Places.{move, find_place};
ghost use Rattle.mu_model.specs.Objects.{cast_any};
ghost use Rattle.mu_model.specs.Outcomes.{case_of_fault};
ghost use Rattle.typed_heap.specs.Fits.{signature_classes};
ghost use Rattle.mu_model.specs.Types.{class_definition};
ghost use Rattle.step_forms.specs.Asked.{way_of};
ghost use Rattle.step_forms.specs.Classes.{class_of_way};
ghost use Rattle.object_acts.specs.Making.{graph_of};

use check_tables::Tables;
use checked_code::Checked;
use mu_model::Case;
use mu_types::TypeDef;
use mu_values::Scalar;
use step_forms::Way;
use typed_heap::{Heap, PlaceFault};

/// The case that a fault of a place is.
pub fn case_of(fault: PlaceFault) -> Case
    ensures { result ≡ case_of_fault fault }
{
    match fault {
        PlaceFault::Null => Case::NullAccess,
        PlaceFault::OutOfRange => Case::OutOfRange,
        PlaceFault::BadCast => Case::BadCast,
        PlaceFault::DeadCell => Case::DeadCell,
    }
}

/// What is found on the way from a place, or the fault of that place.
pub fn found(heap: &Heap, code: &Checked, way: Way, scalar: Scalar) -> Result<Scalar, PlaceFault>
    requires class { class_of_way way < length (graph_of code.now) }
    requires there { IsSome (find_place (graph_of code.now) heap.now.objects (move (graph_of code.now) (way_of way)) scalar) }
    ensures { find_place (graph_of code.now) heap.now.objects (move (graph_of code.now) (way_of way)) scalar ≡ Some result }
{
    let classes = code.classes();
    match way {
        Way::Field { class, field } => heap.field(classes, scalar, class, field),
        Way::Element { class, index } => heap.element(classes, scalar, class, index),
        Way::Shift { class, by } => heap.shift(classes, scalar, class, by),
        Way::VarPart { class } => heap.var_part(classes, scalar, class),
    }
}

/// The class of a function's signature.
#[tactic(auto, using(crate::proofs::Signatures::signature_known, crate::proofs::Signatures::signature_unknown))]
fn signature_of(tables: &Tables, function: u32) -> u32
    requires { function < length tables.now.functions }
    ensures { slice_get (signature_classes tables.now) function ≡ Some result }
{
    let number = tables.functions.as_slice()[function as usize];
    match tables.signatures.as_slice().get(number as usize) {
        Some(signature) => signature.class,
        None => 0,
    }
}

/// A reference as one of the class, where it is one; else the fault.
pub fn cast(heap: &Heap, code: &Checked, class: u32, scalar: Scalar) -> Result<Scalar, PlaceFault>
    requires class { class < length (graph_of code.now) }
    requires there { IsSome (cast_any (bundle_tables code.now) heap.now.objects (class_definition (bundle_tables code.now) class) scalar) }
    ensures { cast_any (bundle_tables code.now) heap.now.objects (class_definition (bundle_tables code.now) class) scalar ≡ Some result }
{
    let classes = code.classes();
    match (scalar, classes.definition(class)) {
        (Scalar::Func(function), TypeDef::FuncRef(signature)) => {
            if signature_of(code.tables(), function) == classes.class(*signature) {
                Ok(scalar)
            } else {
                Err(PlaceFault::BadCast)
            }
        }
        _ => heap.cast(classes, scalar, class),
    }
}
