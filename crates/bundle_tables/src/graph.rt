// The graph of the types and signatures of a bundle: types stand there first, then signatures, each in text order.
ghost use Rattle.std.specs.Prelude.{◌≡◌, ℕ, ◌+◌, ◌-◌, ◌^◌, ◌<◌, ◌≤◌, [], ◌∷◌, ◌++◌, length, map, IfOk, OnOk};
ghost use Rattle.std.specs.List.{All};
ghost use Rattle.type_definitions.specs.declared.definition.TypeDef.TheVariants.{Sig};
ghost use Rattle.type_definitions.specs.Definition.{arguments};
ghost use Rattle.type_definitions.specs.Same.{IsGraph};
ghost use Rattle.bundle_names.specs.Globals.{globals_of};
ghost use Rattle.checked_code.specs.Graph.{size_of, type_ids, type_definition, types_of, signatures_of, graph_of, places_of_names, argument_places, type_places, signature_places, places_of};
ghost use Rattle.bundle_tables.specs.Inner.{AllBelow};

use crate::numbers::{signature_id, type_id};
use bundle_names::Globals;
use ir_lex::{Name, Number};
use ir_tree::{Funcsig, Item, TypeForm, Typedef};
use mu_types::TypeDef;
use std::alloc::{AllocError, Global};
use text_forms::Listing;
use type_classes::TypeGraph;

/// The most items that a graph is built of.
const MOST_ITEMS: usize = 500000000;

/// A place. Past 2^32 - 1 the answer is out of memory.
fn add_place(places: &mut Listing<u32>, place: usize) -> Result<(), AllocError>
    ensures { OnOk result (places.new ≡ places.old ++ place ∷ []) }
{
    match u32::try_from(place) {
        Ok(place) => places.push(place),
        Err(_) => Err(AllocError),
    }
}

fn add_places_of_names(places: &mut Listing<u32>, names: &[Name]) -> Result<(), AllocError>
    ensures { OnOk result (places.new ≡ places.old ++ places_of_names names.now) }
{
    let mut left = names;
    'each: while let [first, more @ ..] = left {
        add_place(places, first.place)?;
        left = more;
    }
    Ok(())
}

/// The places of names.
pub fn places_of_names(alloc: Global, names: &[Name]) -> Result<Listing<u32>, AllocError>
    ensures { IfOk result (λ places. places ≡ places_of_names names.now) }
{
    let mut places = Listing::new(alloc);
    add_places_of_names(&mut places, names)?;
    Ok(places)
}

fn add_argument_places(places: &mut Listing<u32>, form: &TypeForm) -> Result<(), AllocError>
    ensures { OnOk result (places.new ≡ places.old ++ argument_places form.now) }
{
    match form {
        TypeForm::Int { width } => add_place(places, width.place),
        TypeForm::Struct { fields } => add_places_of_names(places, fields.as_slice()),
        TypeForm::Array { element, length } => {
            add_place(places, element.place)?;
            add_place(places, length.place)
        }
        TypeForm::Hybrid { fixed, element } => {
            add_places_of_names(places, fixed.as_slice())?;
            add_place(places, element.place)
        }
        TypeForm::Ref { of_type } => add_place(places, of_type.place),
        TypeForm::Iref { of_type } => add_place(places, of_type.place),
        TypeForm::Funcref { signature } => add_place(places, signature.place),
        TypeForm::Void | TypeForm::Stackref | TypeForm::Threadref => Ok(()),
    }
}

fn type_places(alloc: Global, item: &Typedef) -> Result<Listing<u32>, AllocError>
    ensures { IfOk result (λ places. places ≡ item.now.name.place ∷ argument_places item.now.form) }
{
    let mut places = Listing::new(alloc);
    add_place(&mut places, item.name.place)?;
    add_argument_places(&mut places, &item.form)?;
    Ok(places)
}

fn signature_places(alloc: Global, item: &Funcsig) -> Result<Listing<u32>, AllocError>
    ensures { IfOk result (λ places. places ≡ item.now.name.place ∷ places_of_names item.now.takes ++ places_of_names item.now.gives) }
{
    let mut places = Listing::new(alloc);
    add_place(&mut places, item.name.place)?;
    add_places_of_names(&mut places, item.takes.as_slice())?;
    add_places_of_names(&mut places, item.gives.as_slice())?;
    Ok(places)
}

fn type_ids(alloc: Global, globals: &Globals, names: &[Name]) -> Result<Listing<u32>, AllocError>
    ensures same { IfOk result (λ numbers. numbers ≡ type_ids globals.now names.now) }
    ensures below { IfOk result (λ numbers. All (λ n. n < globals.now.counts.written + globals.now.counts.signatures) numbers) }
{
    let mut numbers = Listing::new(alloc);
    let mut left = names;
    'each: while let [first, more @ ..] = left {
        numbers.push(type_id(globals, first)?)?;
        left = more;
    }
    Ok(numbers)
}

fn size(number: Number) -> u128
    ensures { result ≡ size_of number }
{
    if number.negative { 0 } else { number.magnitude }
}

fn type_definition(alloc: Global, globals: &Globals, form: &TypeForm) -> Result<TypeDef, AllocError>
    ensures same { IfOk result (λ definition. definition ≡ type_definition globals.now form.now) }
    ensures below { IfOk result (λ definition. All (λ n. n < globals.now.counts.written + globals.now.counts.signatures) (arguments definition)) }
{
    Ok(match form {
        TypeForm::Int { width } => TypeDef::Int {
            width: size(width.number),
        },
        TypeForm::Struct { fields } => TypeDef::Struct {
            fields: type_ids(alloc, globals, fields.as_slice())?,
        },
        TypeForm::Array { element, length } => TypeDef::Array {
            element: type_id(globals, element)?,
            length: size(length.number),
        },
        TypeForm::Hybrid { fixed, element } => TypeDef::Hybrid {
            fixed: type_ids(alloc, globals, fixed.as_slice())?,
            element: type_id(globals, element)?,
        },
        TypeForm::Void => TypeDef::Void,
        TypeForm::Ref { of_type } => TypeDef::Ref(type_id(globals, of_type)?),
        TypeForm::Iref { of_type } => TypeDef::Iref(type_id(globals, of_type)?),
        TypeForm::Funcref { signature } => TypeDef::FuncRef(signature_id(globals, signature)?),
        TypeForm::Stackref => TypeDef::StackRef,
        TypeForm::Threadref => TypeDef::ThreadRef,
    })
}

fn add(graph: &mut TypeGraph, definition: TypeDef, places: Listing<u32>) -> Result<(), AllocError>
    requires { length graph.old.definitions + 1 < 2 ^ 32 - 1 }
    ensures definitions { OnOk result (graph.new.definitions ≡ graph.old.definitions ++ definition ∷ []) }
    ensures places { OnOk result (graph.new.places ≡ graph.old.places ++ places ∷ []) }
    ensures below { OnOk result ((many : ℕ) → AllBelow many graph.old.definitions → All (λ n. n < many) (arguments definition) → AllBelow many graph.new.definitions) }
    ensures count { OnOk result (length graph.new.definitions ≡ length graph.old.definitions + 1) }
{
    graph.add(definition, places)?;
    Ok(())
}

fn add_type(
    alloc: Global,
    globals: &Globals,
    graph: &mut TypeGraph,
    item: &Typedef,
) -> Result<(), AllocError>
    requires { length graph.old.definitions + 1 < 2 ^ 32 - 1 }
    ensures definitions { OnOk result (graph.new.definitions ≡ graph.old.definitions ++ type_definition globals.now item.now.form ∷ []) }
    ensures places { OnOk result (graph.new.places ≡ graph.old.places ++ (item.now.name.place ∷ argument_places item.now.form) ∷ []) }
    ensures below { OnOk result (AllBelow (globals.now.counts.written + globals.now.counts.signatures) graph.old.definitions → AllBelow (globals.now.counts.written + globals.now.counts.signatures) graph.new.definitions) }
    ensures count { OnOk result (length graph.new.definitions ≡ length graph.old.definitions + 1) }
{
    let definition = type_definition(alloc, globals, &item.form)?;
    add(graph, definition, type_places(alloc, item)?)
}

fn add_types(
    alloc: Global,
    globals: &Globals,
    graph: &mut TypeGraph,
    items: &[Item],
) -> Result<(), AllocError>
    requires { length graph.old.definitions + length items.now < 2 ^ 32 - 1 }
    ensures definitions { OnOk result (graph.new.definitions ≡ graph.old.definitions ++ types_of globals.now items.now) }
    ensures places { OnOk result (graph.new.places ≡ graph.old.places ++ type_places items.now) }
    ensures below { OnOk result (AllBelow (globals.now.counts.written + globals.now.counts.signatures) graph.old.definitions → AllBelow (globals.now.counts.written + globals.now.counts.signatures) graph.new.definitions) }
    ensures count { OnOk result (length graph.new.definitions ≤ length graph.old.definitions + length items.now) }
{
    let mut left = items;
    'each: while let [first, more @ ..] = left {
        if let Item::Typedef(item) = first {
            add_type(alloc, globals, graph, item)?;
        }
        left = more;
    }
    Ok(())
}

fn signature_definition(
    alloc: Global,
    globals: &Globals,
    item: &Funcsig,
) -> Result<TypeDef, AllocError>
    ensures same { IfOk result (λ definition. definition ≡ Sig (type_ids globals.now item.now.takes) (type_ids globals.now item.now.gives)) }
    ensures below { IfOk result (λ definition. All (λ n. n < globals.now.counts.written + globals.now.counts.signatures) (arguments definition)) }
{
    Ok(TypeDef::Sig {
        takes: type_ids(alloc, globals, item.takes.as_slice())?,
        gives: type_ids(alloc, globals, item.gives.as_slice())?,
    })
}

fn add_signatures(
    alloc: Global,
    globals: &Globals,
    graph: &mut TypeGraph,
    items: &[Item],
) -> Result<(), AllocError>
    requires { length graph.old.definitions + length items.now < 2 ^ 32 - 1 }
    ensures definitions { OnOk result (graph.new.definitions ≡ graph.old.definitions ++ signatures_of globals.now items.now) }
    ensures places { OnOk result (graph.new.places ≡ graph.old.places ++ signature_places items.now) }
    ensures below { OnOk result (AllBelow (globals.now.counts.written + globals.now.counts.signatures) graph.old.definitions → AllBelow (globals.now.counts.written + globals.now.counts.signatures) graph.new.definitions) }
    ensures count { OnOk result (length graph.new.definitions ≤ length graph.old.definitions + length items.now) }
{
    let mut left = items;
    'each: while let [first, more @ ..] = left {
        if let Item::Funcsig(item) = first {
            let definition = signature_definition(alloc, globals, item)?;
            add(graph, definition, signature_places(alloc, item)?)?;
        }
        left = more;
    }
    Ok(())
}

/// The graph of the types and signatures of a bundle. Past 5 * 10^8 items the answer is out of memory.
pub fn graph(alloc: Global, globals: &Globals, items: &[Item]) -> Result<TypeGraph, AllocError>
    requires { globals.now ≡ globals_of items.now }
    ensures definitions { IfOk result (λ graph. graph.definitions ≡ graph_of globals.now items.now) }
    ensures places { IfOk result (λ graph. graph.places ≡ places_of items.now) }
    ensures closed { IfOk result (λ graph. IsGraph graph.definitions) }
    ensures few { IfOk result (λ graph. length graph.definitions ≤ 1000000000) }
{
    if items.len() > MOST_ITEMS {
        return Err(AllocError);
    }
    let mut graph = TypeGraph::new(alloc);
    add_types(alloc, globals, &mut graph, items)?;
    add_signatures(alloc, globals, &mut graph, items)?;
    Ok(graph)
}
