// The parts that indexes lead to.
ghost use Rattle.std.specs.Prelude.{◌≡◌, ◌+◌, ◌*◌, ◌^◌, ◌<◌, ◌∷◌, [], Err, Some, length, map, slice_get, sum_by, IfOk};
ghost use Rattle.demands.specs.declared.fault.Fault.TheVariants.{At};
ghost use Rattle.std.specs.List.{All};
ghost use Rattle.type_definitions.specs.Leaves.{times};
ghost use Rattle.type_definitions.specs.Definition.{arguments};
ghost use Rattle.type_definitions.specs.Same.{IsGraph};
ghost use Rattle.typed_heap.specs.Objects.{leaf_classes};
ghost use Rattle.hail_load.specs.declared.parts.Part.TheVariants.{Value};
ghost use Rattle.hail_load.specs.Parts.{size_of, parts_of, value_parts, hybrid_parts, part_with, index_into, indexed};
ghost use Rattle.hail_load.specs.Fitting.{next_indexes};
ghost use Rattle.hail_load.specs.Rooms.{AreSized, FitsANumber};
ghost use Rattle.hail_load.specs.Answering.{Tells, IsThere};
ghost use Rattle.hail_load.specs.PartsSoFar.{field_spot};

use crate::fault::{LoadFault, LoadKind};
use crate::parts::{Part, Spot};
use crate::tree::{Index, Piece};
use mu_types::{Classes, TypeDef};

/// There is no such part.
fn out_of_range(index: &Index) -> Result<Spot, LoadFault>
    ensures { result ≡ Err (At LoadKind.OutOfRange index.now.number.place) }
{
    Err(LoadFault::At {
        kind: LoadKind::OutOfRange,
        place: index.number.place,
    })
}

/// There are no parts.
fn wrong_type(index: &Index) -> Result<Spot, LoadFault>
    ensures { result ≡ Err (At LoadKind.WrongType index.now.place) }
{
    Err(LoadFault::At {
        kind: LoadKind::WrongType,
        place: index.place,
    })
}

/// How many leaves fields have together.
#[tactic(auto, using(crate::proofs::Rooms::field_within))]
fn leaves_before(classes: &Classes, fields: &[u32]) -> u32
    requires fields { All (λ t. t < length classes.now.definitions) fields.now }
    requires few { sum_by (size_of classes.now.definitions) (map Value fields.now) < 2 ^ 32 }
    ensures { result ≡ sum_by (size_of classes.now.definitions) (map Value fields.now) }
{
    let mut sum: u32 = 0;
    for t in fields {
        sum += classes.leaves(*t).len() as u32;
    }
    sum
}

/// A part that begins so many leaves further on.
fn further(spot: Spot, by: u32, part: Part) -> Spot
    requires { spot.at + by < 2 ^ 32 }
    ensures { result ≡ record { object = spot.object; at = spot.at + by; part = part } }
{
    Spot {
        object: spot.object,
        at: spot.at + by,
        part,
    }
}

/// A field that is there.
fn field(classes: &Classes, spot: Spot, fields: &[u32], n: usize) -> Spot
    requires fields { All (λ t. t < length classes.now.definitions) fields.now }
    requires there { n < length fields.now }
    requires room { spot.at + sum_by (size_of classes.now.definitions) (map Value fields.now) < 2 ^ 32 }
    ensures is { result ≡ field_spot classes.now.definitions spot fields.now n }
    ensures part { IsThere classes.now.definitions result.part }
{
    let before = leaves_before(classes, &fields[..n]);
    further(spot, before, Part::Value(fields[n]))
}

/// A field of a struct.
#[tactic(auto, using(crate::proofs::Indexing::fields))]
fn struct_part(
    classes: &Classes,
    spot: Spot,
    fields: &[u32],
    index: &Index,
) -> Result<Spot, LoadFault>
    requires fields { All (λ t. t < length classes.now.definitions) fields.now }
    requires room { spot.at + sum_by (size_of classes.now.definitions) (map Value fields.now) < 2 ^ 32 }
    ensures told { Tells (part_with classes.now.definitions spot (map Value fields.now) index.now (slice_get (map Value fields.now) index.now.number.number.magnitude)) result }
    ensures part { IfOk result (λ s. IsThere classes.now.definitions s.part) }
{
    if index.number.number.magnitude < fields.len() as u128 {
        let n = index.number.number.magnitude as usize;
        Ok(field(classes, spot, fields, n))
    } else {
        out_of_range(index)
    }
}

/// One of so many values of a type.
#[tactic(auto, using(crate::proofs::Indexing::elements))]
fn element(
    classes: &Classes,
    spot: Spot,
    t: u32,
    many: u128,
    index: &Index,
) -> Result<Spot, LoadFault>
    requires t { t < length classes.now.definitions }
    requires room { spot.at + many * length (leaf_classes classes.now.definitions t) < 2 ^ 32 }
    ensures told { Tells (part_with classes.now.definitions spot (times many (Value t ∷ [])) index.now (slice_get (times many (Value t ∷ [])) index.now.number.number.magnitude)) result }
    ensures part { IfOk result (λ s. IsThere classes.now.definitions s.part) }
{
    let n = index.number.number.magnitude;
    if n < many {
        let before = n * classes.leaves(t).len() as u128;
        Ok(further(spot, before as u32, Part::Value(t)))
    } else {
        out_of_range(index)
    }
}

/// A fixed field of a hybrid, or all its elements.
#[tactic(auto, using(crate::proofs::Indexing::hybrids))]
fn hybrid_part(
    classes: &Classes,
    spot: Spot,
    definition: &TypeDef,
    many: u128,
    index: &Index,
) -> Result<Spot, LoadFault>
    requires parts { All (λ y. y < length classes.now.definitions) (arguments definition.now) }
    requires room { FitsANumber classes.now.definitions spot.at definition.now }
    ensures told { Tells (index_into classes.now.definitions spot index.now (hybrid_parts (Some definition.now) many)) result }
    ensures part { IfOk result (λ s. IsThere classes.now.definitions s.part) }
{
    let TypeDef::Hybrid { fixed, element } = definition else {
        return wrong_type(index);
    };
    let fixed = fixed.as_slice();
    let n = index.number.number.magnitude;
    if n < fixed.len() as u128 {
        Ok(field(classes, spot, fixed, n as usize))
    } else if n == fixed.len() as u128 {
        let before = leaves_before(classes, fixed);
        Ok(further(
            spot,
            before,
            Part::Elements {
                of_type: *element,
                many,
            },
        ))
    } else {
        out_of_range(index)
    }
}

/// A part of a value.
fn value_part(
    classes: &Classes,
    spot: Spot,
    definition: &TypeDef,
    index: &Index,
) -> Result<Spot, LoadFault>
    requires parts { All (λ y. y < length classes.now.definitions) (arguments definition.now) }
    requires room { FitsANumber classes.now.definitions spot.at definition.now }
    ensures told { Tells (index_into classes.now.definitions spot index.now (value_parts (Some definition.now))) result }
    ensures part { IfOk result (λ s. IsThere classes.now.definitions s.part) }
{
    match definition {
        TypeDef::Struct { fields } => struct_part(classes, spot, fields.as_slice(), index),
        TypeDef::Array { element: t, length } => element(classes, spot, *t, *length, index),
        _ => wrong_type(index),
    }
}

/// The part that an index leads to, which has no more leaves behind it than there were. It takes time for the fields before it.
#[tactic(auto, using(type_definitions::specs::Lemmas::Depth::args_within))]
fn follow(classes: &Classes, spot: Spot, index: &Index) -> Result<Spot, LoadFault>
    requires graph { IsGraph classes.now.definitions }
    requires sizes { AreSized classes.now.definitions }
    requires part { IsThere classes.now.definitions spot.part }
    requires room { spot.at + size_of classes.now.definitions spot.part < 2 ^ 32 }
    ensures told { Tells (index_into classes.now.definitions spot index.now (parts_of classes.now.definitions spot.part)) result }
    ensures part { IfOk result (λ s. IsThere classes.now.definitions s.part) }
    ensures room { IfOk result (λ s. s.at + size_of classes.now.definitions s.part < 2 ^ 32) }
{
    match spot.part {
        Part::Value(t) => value_part(classes, spot, classes.definition(t), index),
        Part::Hybrid { of_type, many } => hybrid_part(
            classes,
            spot,
            classes.definition(of_type),
            many,
            index,
        ),
        Part::Elements { of_type, many } => element(classes, spot, of_type, many, index),
    }
}

/// The part that some indexes lead to, one after the other.
pub(crate) fn indexed(classes: &Classes, from: Spot, indexes: &[Index]) -> Result<Spot, LoadFault>
    requires graph { IsGraph classes.now.definitions }
    requires sizes { AreSized classes.now.definitions }
    requires part { IsThere classes.now.definitions from.part }
    requires room { from.at + size_of classes.now.definitions from.part < 2 ^ 32 }
    ensures told { Tells (indexed classes.now.definitions from indexes.now) result }
    ensures part { IfOk result (λ s. IsThere classes.now.definitions s.part) }
{
    let mut spot = from;
    let mut left = indexes;
    'each: while let [index, more @ ..] = left {
        spot = follow(classes, spot, index)?;
        left = more;
    }
    Ok(spot)
}

/// The part that the indexes at the head of some pieces lead to.
pub(crate) fn indexed_by(classes: &Classes, from: Spot, pieces: &[Piece]) -> Result<Spot, LoadFault>
    requires graph { IsGraph classes.now.definitions }
    requires sizes { AreSized classes.now.definitions }
    requires part { IsThere classes.now.definitions from.part }
    requires room { from.at + size_of classes.now.definitions from.part < 2 ^ 32 }
    ensures told { Tells (indexed classes.now.definitions from (next_indexes pieces.now)) result }
    ensures part { IfOk result (λ s. IsThere classes.now.definitions s.part) }
{
    let mut spot = from;
    let mut left = pieces;
    'each: while let [Piece::Index(index), more @ ..] = left {
        spot = follow(classes, spot, index)?;
        left = more;
    }
    Ok(spot)
}
