// Which sources that are no lists fit a type, and the scalars that they are.
ghost use Rattle.std.specs.Prelude.{◌≡◌, ℕ, ◌<◌, ◌≤◌, ◌∷◌, [], Some, length, slice_get, slice_index_or, IfSome, IsTrue};
ghost use Rattle.name_scopes.specs.Names.{found};
ghost use Rattle.type_definitions.specs.Same.{IsGraph};
ghost use Rattle.type_definitions.specs.Class.{class_of};
ghost use Rattle.type_definitions.specs.declared.definition.TypeDef.TheVariants as types;
ghost use Rattle.mu_values.specs.declared.scalars.Scalar.TheVariants.{Object, Place};
ghost use Rattle.mu_values.specs.Constants.{width_of, is_reference};
ghost use Rattle.typed_heap.specs.Fits.{signature_classes};
ghost use Rattle.hail_load.specs.Code.{code_of};
ghost use Rattle.hail_load.specs.Known.{IsKnown};
ghost use Rattle.hail_load.specs.Rooms.{AreRoomy};
ghost use Rattle.hail_load.specs.Parts.{target_spot};
ghost use Rattle.hail_load.specs.Fitting.{is_class, is_iref, refers, object_fits, place_in_fits, where_fits, number_scalars, named_scalars, object_scalars, place_scalars, next_indexes, scalars_of};
ghost use Rattle.hail_load.specs.Answering.{Makes, AreThere, behind, called, store_of};

use crate::fault::{LoadFault, LoadKind};
use crate::gathered::Gathered;
use crate::parts::Made;
use crate::targets::reference_spot;
use crate::tree::{Piece, Root};
use bundle_names::Sort;
use check_tables::Tables;
use checked_code::Checked;
use ir_lex::{Name, Numeral};
use mu_types::{Classes, TypeDef};
use mu_values::{
    ConstKind, Literal, LiteralKind, Made as Constants, Scalar, judge_const, make_const,
};
use name_scopes::Scope;
use std::alloc::Global;
use text_forms::Listing;
use typed_heap::Heap;

/// What a source is judged by: the code of the bundle, the objects that there are, and those of the script by name.
#[derive(Clone, Copy)]
pub(crate) struct Scene<'code, 'now> {
    pub(crate) code: &'code Checked,
    pub(crate) heap: &'now Heap,
    pub(crate) made: &'now Scope<Made>,
}

/// Whether an object fits what the type with this definition refers to.
#[tactic(auto, using(crate::proofs::Casting::casts))]
fn object_fits(classes: &Classes, heap: &Heap, t: u32, object: u32) -> bool
    requires graph { IsGraph classes.now.definitions }
    requires t { t < length classes.now.definitions }
    ensures { (of : ℕ) → slice_get classes.now.definitions t ≡ Some (types.Ref of) → result ≡ object_fits classes.now.definitions of (slice_get heap.now.objects object) }
{
    match classes.definition(t) {
        TypeDef::Ref(_) => object < heap.objects()
            && heap.cast(classes, Scalar::Object(object), t).is_ok(),
        _ => false,
    }
}

/// Whether a place fits what the type with this definition refers to.
#[tactic(auto, using(crate::proofs::Casting::casts))]
fn place_fits(classes: &Classes, heap: &Heap, t: u32, object: u32, at: u32) -> bool
    requires graph { IsGraph classes.now.definitions }
    requires t { t < length classes.now.definitions }
    ensures { (of : ℕ) → slice_get classes.now.definitions t ≡ Some (types.Iref of) → result ≡ place_in_fits classes.now.definitions of (slice_get heap.now.objects object) at }
{
    match classes.definition(t) {
        TypeDef::Iref(_) => object < heap.objects()
            && heap.cast(classes, Scalar::Place { object, at }, t).is_ok(),
        _ => false,
    }
}

/// The class of the signature of a function.
#[tactic(auto, using(std::proofs::lemmas::Option::slice_get_past))]
fn function_class(tables: &Tables, function: u32) -> Option<u32>
    ensures { result ≡ slice_get (signature_classes tables.now) function }
{
    match tables.functions.as_slice().get(function as usize) {
        None => None,
        Some(s) => match tables.signatures.as_slice().get(*s as usize) {
            Some(signature) => Some(signature.class),
            None => Some(0),
        },
    }
}

/// Whether it is that class.
fn is_class(wanted: u32, class: Option<u32>) -> bool
    ensures { result ≡ is_class wanted class }
{
    match class {
        Some(class) => class == wanted,
        None => false,
    }
}

/// Whether an object, a place or a function fits what a type refers to. It takes time for the leaves of that.
fn refers(scene: Scene, t: u32, scalar: Scalar) -> bool
    requires { t < length (code_of scene.code.now).graph }
    ensures { result ≡ refers (code_of scene.entry.code.now) scene.entry.heap.now.objects (slice_get (code_of scene.entry.code.now).graph t) scalar }
{
    let classes = scene.code.classes();
    match (classes.definition(t), scalar) {
        (TypeDef::Ref(_), Scalar::Object(object)) => object_fits(classes, scene.heap, t, object),
        (TypeDef::Iref(_), Scalar::Place { object, at }) => {
            place_fits(classes, scene.heap, t, object, at)
        }
        (TypeDef::FuncRef(s), Scalar::Func(function)) => is_class(
            classes.class(*s),
            function_class(scene.code.tables(), function),
        ),
        _ => false,
    }
}

/// A number as a constant is written.
fn literal(numeral: &Numeral) -> Literal
    ensures place { result.place ≡ numeral.now.place }
    ensures kind { result.kind ≡ LiteralKind.Number numeral.now.number.negative numeral.now.number.magnitude }
{
    Literal {
        place: numeral.place,
        kind: LiteralKind::Number {
            negative: numeral.number.negative,
            magnitude: numeral.number.magnitude,
        },
    }
}

/// What a fault of a constant is called.
fn kind_of(kind: ConstKind) -> LoadKind
    ensures { result ≡ called kind }
{
    match kind {
        ConstKind::OutOfWidth => LoadKind::OutOfRange,
        _ => LoadKind::WrongType,
    }
}

/// Adds a number.
fn number(
    alloc: Global,
    classes: &Classes,
    t: u32,
    numeral: &Numeral,
    scalars: &mut Gathered,
) -> Result<(), LoadFault>
    requires graph { IsGraph classes.now.definitions }
    requires t { t < length classes.now.definitions }
    requires width { IfSome (width_of (slice_get classes.now.definitions t)) (λ w. (1 ≤ w) × (w ≤ 128)) }
    ensures { Makes (behind scalars.old (number_scalars (width_of (slice_get classes.now.definitions t)) numeral.now)) scalars.new result }
{
    let literal = literal(numeral);
    match judge_const(classes, t, &literal, &Listing::new(alloc)) {
        Err(fault) => Err(LoadFault::At {
            kind: kind_of(fault.kind),
            place: fault.place,
        }),
        Ok(()) => {
            let value = make_const(alloc, classes, t, &literal, &Constants::new(alloc))?;
            scalars.push_each(value.as_slice())?;
            Ok(())
        }
    }
}

/// Whether a type has NULL.
fn is_reference(definition: &TypeDef) -> bool
    ensures { result ≡ is_reference (Some definition.now) }
{
    matches!(
        definition,
        TypeDef::Ref(_)
            | TypeDef::Iref(_)
            | TypeDef::FuncRef(_)
            | TypeDef::StackRef
            | TypeDef::ThreadRef
    )
}

/// Whether a type is one of places.
fn is_iref(definition: &TypeDef) -> bool
    ensures { result ≡ is_iref (Some definition.now) }
{
    matches!(definition, TypeDef::Iref(_))
}

/// Whether a constant is of a type.
fn constant_fits(code: &Checked, t: u32, constant: u32) -> bool
    requires { t < length (code_of code.now).graph }
    ensures fits { result ≡ is_class (class_of (code_of code.now).graph t) (slice_get (code_of code.now).constants constant) }
    ensures there { IsTrue result → constant < length (code_of code.now).constants }
{
    (constant as usize) < code.constants()
        && code.constant_type(constant) == code.classes().class(t)
}

/// Adds the value of a constant, in constant time.
#[tactic(auto, using(std::proofs::lemmas::Option::get_or_from_slice_get))]
fn constant<'code>(
    code: &'code Checked,
    t: u32,
    place: usize,
    constant: u32,
    scalars: &mut Gathered<'code>,
) -> Result<(), LoadFault>
    requires { t < length (code_of code.now).graph }
    ensures { Makes (behind scalars.old (where_fits place (is_class (class_of (code_of code.now).graph t) (slice_get (code_of code.now).constants constant)) (slice_index_or (code_of code.now).values constant []))) scalars.new result }
{
    if !constant_fits(code, t, constant) {
        return Err(LoadFault::At {
            kind: LoadKind::WrongType,
            place,
        });
    }
    scalars.push_constant(code.constant(constant).as_slice())?;
    Ok(())
}

/// Adds a scalar, where it fits.
fn add(scalars: &mut Gathered, place: usize, fits: bool, scalar: Scalar) -> Result<(), LoadFault>
    ensures { Makes (behind scalars.old (where_fits place fits (scalar ∷ []))) scalars.new result }
{
    if !fits {
        return Err(LoadFault::At {
            kind: LoadKind::WrongType,
            place,
        });
    }
    scalars.push(scalar)?;
    Ok(())
}

/// Adds what a global name stands for.
fn named<'code>(
    scene: Scene<'code, '_>,
    t: u32,
    name: &Name,
    scalars: &mut Gathered<'code>,
) -> Result<(), LoadFault>
    requires { t < length (code_of scene.code.now).graph }
    ensures { Makes (behind scalars.old (named_scalars (code_of scene.entry.code.now) scene.entry.heap.now.objects t name.now.place (found (code_of scene.entry.code.now).names name.now.text))) scalars.new result }
{
    let place = name.place;
    match scene.code.tables().globals.names.find(name.text.as_slice()) {
        Some(Sort::Constant(n)) => constant(scene.code, t, place, *n, scalars),
        Some(Sort::GlobalCell(object)) => {
            let scalar = Scalar::Place {
                object: *object,
                at: 0,
            };
            add(scalars, place, refers(scene, t, scalar), scalar)
        }
        Some(Sort::Function(n)) => {
            let scalar = Scalar::Func(*n);
            add(scalars, place, refers(scene, t, scalar), scalar)
        }
        _ => Err(LoadFault::At {
            kind: LoadKind::WrongType,
            place,
        }),
    }
}

/// Adds the reference to an object of the script.
fn object(scene: Scene, t: u32, name: &Name, scalars: &mut Gathered) -> Result<(), LoadFault>
    requires { t < length (code_of scene.code.now).graph }
    ensures { Makes (behind scalars.old (object_scalars (code_of scene.entry.code.now) scene.entry.heap.now.objects t name.now.place (found scene.entry.made.now name.now.text))) scalars.new result }
{
    match scene.made.find(name.text.as_slice()) {
        None => Err(LoadFault::At {
            kind: LoadKind::WrongType,
            place: name.place,
        }),
        Some(made) => {
            let scalar = Scalar::Object(made.object);
            add(scalars, name.place, refers(scene, t, scalar), scalar)
        }
    }
}

/// Adds the place that a target behind `&` names, with the pieces behind it.
fn place(
    scene: Scene,
    t: u32,
    place: usize,
    root: &Root,
    more: &[Piece],
    scalars: &mut Gathered,
) -> Result<(), LoadFault>
    requires known { IsKnown (code_of scene.code.now) }
    requires made { AreThere (code_of scene.code.now).graph scene.made.now }
    requires roomy { AreRoomy (code_of scene.code.now) scene.heap.now.objects scene.made.now }
    requires t { t < length (code_of scene.code.now).graph }
    ensures { Makes (behind scalars.old (place_scalars (code_of scene.entry.code.now) scene.entry.heap.now.objects t place (target_spot (code_of scene.entry.code.now) scene.entry.made.now root.now (next_indexes more.now)))) scalars.new result }
{
    if !is_iref(scene.code.classes().definition(t)) {
        return Err(LoadFault::At {
            kind: LoadKind::WrongType,
            place,
        });
    }
    let spot = reference_spot(scene.code, scene.heap, scene.made, root, more)?;
    let scalar = Scalar::Place {
        object: spot.object,
        at: spot.at,
    };
    add(scalars, place, refers(scene, t, scalar), scalar)
}

/// Adds the scalars of a source that is no list, by the type that it is for, with the pieces behind it.
pub(crate) fn scalars_of<'code>(
    alloc: Global,
    scene: Scene<'code, '_>,
    t: u32,
    piece: &Piece,
    more: &[Piece],
    scalars: &mut Gathered<'code>,
) -> Result<(), LoadFault>
    requires known { IsKnown (code_of scene.code.now) }
    requires made { AreThere (code_of scene.code.now).graph scene.made.now }
    requires roomy { AreRoomy (code_of scene.code.now) scene.heap.now.objects scene.made.now }
    requires t { t < length (code_of scene.code.now).graph }
    ensures { Makes (behind scalars.old (scalars_of (code_of scene.entry.code.now) (store_of scene.entry.heap.now scene.entry.made.now) t piece.now more.now)) scalars.new result }
{
    match piece {
        Piece::Number(numeral) => number(alloc, scene.code.classes(), t, numeral, scalars),
        Piece::Null { place } => add(
            scalars,
            *place,
            is_reference(scene.code.classes().definition(t)),
            Scalar::Null,
        ),
        Piece::Global(name) => named(scene, t, name, scalars),
        Piece::Object(name) => object(scene, t, name, scalars),
        Piece::Reference { place: at, root } => { place(scene, t, *at, root, more, scalars) }
        Piece::Index(_) => Ok(()),
        Piece::List { place, .. } => Err(LoadFault::At {
            kind: LoadKind::WrongType,
            place: *place,
        }),
    }
}
