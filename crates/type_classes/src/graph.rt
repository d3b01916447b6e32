// The definitions as they are written.
ghost use Rattle.std.specs.Prelude.{◌≡◌, ◌+◌, ◌-◌, ◌^◌, ◌<◌, [], ◌∷◌, ◌++◌, length, IfOk, OnOk, OnErr};

use std::alloc::{AllocError, Global};
use std::marker::Model;
use text_forms::Listing;
use type_definitions::TypeDef;

/// Written types and signatures, numbered from 0 in the order in which they are added, each with its places.
/// Contracts see the definitions and the lists of places. It keeps its allocator, so only `new` asks for one.
#[derive(Drop)]
pub struct TypeGraph {
    definitions: Vec<TypeDef>,
    places: Vec<Listing<u32>>,
}

impl Model for TypeGraph {
    ghost use Rattle.std.specs.Prelude.{◌≡◌, length};
    ghost use Rattle.mu_types.specs.Graph.{Written};

    ghost Value = { Written };

    ghost view = { λ g. record { definitions = g.definitions.items; places = g.places.items } };

    ghost invariant = { λ g. length g.places.items ≡ length g.definitions.items };
}

impl TypeGraph {
    /// A graph without definitions. It takes no memory yet.
    pub fn new(alloc: Global) -> Self
        ensures definitions { result.definitions ≡ [] }
        ensures places { result.places ≡ [] }
    {
        TypeGraph {
            definitions: Vec::new(alloc),
            places: Vec::new(alloc),
        }
    }

    /// Adds a definition and gives its id, which is the number of definitions before it. The first of the places is that of the
    /// name, the others are those of the arguments in the order of the text: a width; the fields of a struct; the element of an
    /// array, then its length; the fixed fields of a hybrid, then its element; the target of a reference; the parameters of a
    /// signature, then its results. A place that is not given counts as 0. An argument may be the id of a definition that is
    /// added later. Where no memory is found the graph is left as it was, and the definition is let go. It costs as much as a push
    /// to a list.
    pub fn add(&mut self, definition: TypeDef, places: Listing<u32>) -> Result<u32, AllocError>
        requires { length self.old.definitions + 1 < 2 ^ 32 - 1 }
        ensures id { IfOk result (λ id. id ≡ length self.old.definitions) }
        ensures definitions { OnOk result (self.new.definitions ≡ self.old.definitions ++ definition ∷ []) }
        ensures places { OnOk result (self.new.places ≡ self.old.places ++ places ∷ []) }
        ensures refused { OnErr result (self.new ≡ self.old) }
    {
        let id = self.definitions.len() as u32;
        self.definitions.reserve(1)?;
        self.places.push(places)?;
        self.definitions.push(definition)?;
        Ok(id)
    }

    /// The definitions, and the places of each.
    pub(crate) fn into_parts(self) -> (Vec<TypeDef>, Vec<Listing<u32>>)
        ensures definitions { result.0.items ≡ self.definitions }
        ensures places { result.1.items ≡ self.places }
        ensures even { length self.places ≡ length self.definitions }
    {
        let TypeGraph {
            definitions,
            places,
        } = self;
        (definitions, places)
    }
}
