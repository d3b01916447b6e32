// Which sources fit a part, lists among them, and the scalars that they are.
ghost use Rattle.std.specs.Prelude.{◌≡◌, ◌∷◌, [], Some, Err, OnOk};
ghost use Rattle.std.specs.List.{All};
ghost use Rattle.demands.specs.declared.fault.Fault.TheVariants.{At};
ghost use Rattle.type_definitions.specs.Leaves.{times};
ghost use Rattle.hail_load.specs.declared.parts.Part.TheVariants.{Value};
ghost use Rattle.hail_load.specs.Code.{code_of};
ghost use Rattle.hail_load.specs.Known.{IsKnown};
ghost use Rattle.hail_load.specs.Rooms.{AreRoomy};
ghost use Rattle.hail_load.specs.Parts.{value_parts, hybrid_parts, parts_of};
ghost use Rattle.hail_load.specs.Judging.{piece_place, wanted_by, part_scalars, judged};
ghost use Rattle.hail_load.specs.Answering.{Makes, GoesOn, behind, before, IsThere, AreThere, store_of};

use crate::fault::{LoadFault, LoadKind};
use crate::fitting::{Scene, scalars_of};
use crate::gathered::Gathered;
use crate::parts::Part;
use crate::pending::Pending;
use crate::tree::Piece;
use mu_types::{Classes, TypeDef};
use std::alloc::Global;

/// Where a source begins.
fn piece_place(piece: &Piece) -> usize
    ensures { result ≡ piece_place piece.now }
{
    match piece {
        Piece::Number(numeral) => numeral.place,
        Piece::Global(name) | Piece::Object(name) => name.place,
        Piece::Index(index) => index.place,
        Piece::Null { place } | Piece::Reference { place, .. } | Piece::List { place, .. } =>
            *place,
    }
}

/// A source does not fit.
fn wrong_type(place: usize) -> Result<(), LoadFault>
    ensures { result ≡ Err (At LoadKind.WrongType place) }
{
    Err(LoadFault::At {
        kind: LoadKind::WrongType,
        place,
    })
}

/// Puts so many values of a type before the other parts, where as many are wanted.
fn push_elements(
    t: u32,
    many: u128,
    place: usize,
    wanted: usize,
    parts: &mut Pending,
) -> Result<(), LoadFault>
    ensures { Makes (before parts.old (wanted_by place wanted (Some (times many (Value t ∷ []))))) parts.new result }
{
    if many != wanted as u128 {
        return wrong_type(place);
    }
    parts.push(Part::Value(t), many)?;
    Ok(())
}

/// Puts the parts of a value before the other parts, where as many are wanted.
fn push_value(
    definition: &TypeDef,
    place: usize,
    wanted: usize,
    parts: &mut Pending,
) -> Result<(), LoadFault>
    ensures { Makes (before parts.old (wanted_by place wanted (value_parts (Some definition.now)))) parts.new result }
{
    match definition {
        TypeDef::Struct { fields } if fields.len() == wanted => {
            parts.push_fields(fields.as_slice())?;
            Ok(())
        }
        TypeDef::Array { element, length } => push_elements(
            *element, *length, place, wanted, parts,
        ),
        _ => wrong_type(place),
    }
}

/// Puts the parts of a hybrid before the other parts, where as many are wanted.
fn push_hybrid(
    definition: &TypeDef,
    many: u128,
    place: usize,
    wanted: usize,
    parts: &mut Pending,
) -> Result<(), LoadFault>
    ensures { Makes (before parts.old (wanted_by place wanted (hybrid_parts (Some definition.now) many))) parts.new result }
{
    match definition {
        TypeDef::Hybrid { fixed, element } if wanted > 0 && fixed.len() == wanted - 1 => {
            parts.push(
                Part::Elements {
                    of_type: *element,
                    many,
                },
                1,
            )?;
            parts.push_fields(fixed.as_slice())?;
            Ok(())
        }
        _ => wrong_type(place),
    }
}

/// Puts the parts of a part before the other parts, where as many are wanted. It takes time for the fields of a struct, and none for
/// elements.
fn push_parts(
    classes: &Classes,
    part: Part,
    place: usize,
    wanted: usize,
    parts: &mut Pending,
) -> Result<(), LoadFault>
    requires { IsThere classes.now.definitions part }
    ensures { Makes (before parts.old (wanted_by place wanted (parts_of classes.now.definitions part))) parts.new result }
{
    match part {
        Part::Value(t) => push_value(classes.definition(t), place, wanted, parts),
        Part::Hybrid { of_type, many } => push_hybrid(
            classes.definition(of_type),
            many,
            place,
            wanted,
            parts,
        ),
        Part::Elements { of_type, many } => push_elements(of_type, many, place, wanted, parts),
    }
}

/// Adds the scalars of a source that is no list, for a part.
fn part_scalars<'code>(
    alloc: Global,
    scene: Scene<'code, '_>,
    part: Part,
    piece: &Piece,
    more: &[Piece],
    scalars: &mut Gathered<'code>,
) -> Result<(), LoadFault>
    requires known { IsKnown (code_of scene.code.now) }
    requires made { AreThere (code_of scene.code.now).graph scene.made.now }
    requires roomy { AreRoomy (code_of scene.code.now) scene.heap.now.objects scene.made.now }
    requires part { IsThere (code_of scene.code.now).graph part }
    ensures { Makes (behind scalars.old (part_scalars (code_of scene.entry.code.now) (store_of scene.entry.heap.now scene.entry.made.now) part piece.now more.now)) scalars.new result }
{
    match part {
        Part::Value(t) => scalars_of(alloc, scene, t, piece, more, scalars),
        _ => wrong_type(piece_place(piece)),
    }
}

/// One piece, for the first of some parts.
fn judge_piece<'code>(
    alloc: Global,
    scene: Scene<'code, '_>,
    piece: &Piece,
    more: &[Piece],
    parts: &mut Pending,
    scalars: &mut Gathered<'code>,
) -> Result<(), LoadFault>
    requires known { IsKnown (code_of scene.code.now) }
    requires made { AreThere (code_of scene.code.now).graph scene.made.now }
    requires roomy { AreRoomy (code_of scene.code.now) scene.heap.now.objects scene.made.now }
    requires parts { All (IsThere (code_of scene.code.now).graph) parts.old }
    ensures told { GoesOn (behind scalars.old (judged (code_of scene.entry.code.now) (store_of scene.entry.heap.now scene.entry.made.now) parts.old (piece.now ∷ more.now))) (behind scalars.new (judged (code_of scene.entry.code.now) (store_of scene.entry.heap.now scene.entry.made.now) parts.new more.now)) result }
    ensures parts { OnOk result (All (IsThere (code_of scene.entry.code.now).graph) parts.new) }
{
    if let Piece::Index(_) = piece {
        return Ok(());
    }
    let Some(part) = parts.next()? else {
        return wrong_type(piece_place(piece));
    };
    if let Piece::List { place, length } = piece {
        push_parts(scene.code.classes(), part, *place, *length, parts)
    } else {
        part_scalars(alloc, scene, part, piece, more, scalars)
    }
}

/// Adds the scalars of a source for a part. It takes memory for the scalars and for the lists in one another.
pub(crate) fn judge<'code>(
    alloc: Global,
    scene: Scene<'code, '_>,
    part: Part,
    source: &[Piece],
    scalars: &mut Gathered<'code>,
) -> Result<(), LoadFault>
    requires known { IsKnown (code_of scene.code.now) }
    requires made { AreThere (code_of scene.code.now).graph scene.made.now }
    requires roomy { AreRoomy (code_of scene.code.now) scene.heap.now.objects scene.made.now }
    requires part { IsThere (code_of scene.code.now).graph part }
    ensures { Makes (behind scalars.old (judged (code_of scene.entry.code.now) (store_of scene.entry.heap.now scene.entry.made.now) (part ∷ []) source.now)) scalars.new result }
{
    let mut parts = Pending::new(alloc);
    parts.push(part, 1)?;
    let mut left = source;
    'each: while let [piece, more @ ..] = left {
        judge_piece(alloc, scene, piece, more, &mut parts, scalars)?;
        left = more;
    }
    Ok(())
}
