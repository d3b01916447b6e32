// The graph with all that is asked of it.
ghost use Rattle.std.specs.Prelude.{◌≡◌, ℕ, ◌+◌, ◌-◌, ◌*◌, ◌^◌, ◌<◌, ◌≤◌, Some, None, length, map, slice_get, slice_index, IfOk, IfErr};
ghost use Rattle.type_definitions.specs.Same.{same, IsGraph};
ghost use Rattle.type_definitions.specs.Class.{class_of};
ghost use Rattle.type_definitions.specs.Leaves.{leaves};
ghost use Rattle.mu_types.specs.Implied.{complete, definition_of, IsThere};
ghost use Rattle.mu_types.specs.Rows.{lists};
ghost use Rattle.mu_types.specs.Held.{IsLawful};

use super::implied::{Implied, Whole};
use std::marker::Model;
use type_definitions::TypeDef;

/// The types and signatures of a graph, the implied ones among them, and which of them are the same.
/// Contracts see the definitions by id and how many of them, which come first, are written. It holds a number for each definition
/// and the leaves of each class once, at most 4,096 a class.
#[derive(Drop)]
pub struct Classes {
    written: usize,
    all: Vec<TypeDef>,
    first: Vec<u32>,
    class: Vec<usize>,
    rows: Vec<Vec<u32>>,
}

impl Model for Classes {
    ghost use Rattle.mu_types.specs.Graph.{Table};
    ghost use Rattle.mu_types.specs.Rows.{lists};
    ghost use Rattle.mu_types.specs.Held.{IsLawful};

    ghost Value = { Table };

    ghost view = { λ c. record { definitions = c.all.items; written = c.written } };

    ghost invariant = { λ c. IsLawful c.written c.all.items c.first.items c.class.items (lists c.rows.items) };
}

impl Classes {
    /// The finished graph of these parts. `class` has by id the least id that is the same type or signature, and `rows` by the id of
    /// a class the classes of its leaves, from left to right. The parts are taken as they are, in constant time and without memory.
    pub fn held(written: usize, whole: Whole, class: Vec<usize>, rows: Vec<Vec<u32>>) -> Self
        requires { IsLawful written whole.all.items whole.first.items class.items (lists rows.items) }
        ensures definitions { result.definitions ≡ whole.all.items }
        ensures written { result.written ≡ written }
    {
        let Whole { all, first } = whole;
        Classes {
            written,
            all,
            first,
            class,
            rows,
        }
    }

    /// Whether the two are the same type or signature. Two numbers are compared; it takes no memory.
    #[tactic(auto, using(crate::proofs::Held::same_told))]
    pub fn same(&self, a: u32, b: u32) -> bool
        requires a { a < length self.now.definitions }
        requires b { b < length self.now.definitions }
        ensures { result ≡ same self.now.definitions a b }
    {
        self.class[a as usize] == self.class[b as usize]
    }

    /// The least id that is the same type or signature. It is looked up; this takes no memory.
    #[tactic(auto, using(type_definitions::specs::Lemmas::Classes::class_is))]
    pub fn class(&self, t: u32) -> u32
        requires { t < length self.now.definitions }
        ensures { result ≡ class_of self.now.definitions t }
    {
        self.class[t as usize] as u32
    }

    /// The classes of the leaves, from left to right; of a hybrid those of its fixed fields. The list is held ready; this takes
    /// constant time and no memory.
    pub fn leaves(&self, t: u32) -> &[u32]
        requires { t < length self.now.definitions }
        ensures { result.now ≡ map (class_of self.now.definitions) (leaves self.now.definitions t) }
    {
        self.rows[self.class[t as usize]].as_slice()
    }

    /// The definition with that id, in constant time.
    pub fn definition(&self, t: u32) -> &TypeDef
        requires { t < length self.now.definitions }
        ensures { slice_get self.now.definitions t ≡ Some result.now }
    {
        &self.all[t as usize]
    }

    /// The id of an implied type: one of those that `classes` added. It is looked up, in constant time and without memory.
    pub fn implied(&self, wanted: Implied) -> u32
        requires { IsThere self.now.definitions self.now.written wanted }
        ensures { slice_get self.now.definitions result ≡ Some (definition_of wanted) }
    {
        match wanted {
            Implied::Void => self.written as u32,
            Implied::Int1 => (self.written + 1) as u32,
            Implied::Int32 => (self.written + 2) as u32,
            Implied::StackRef => (self.written + 3) as u32,
            Implied::ThreadRef => (self.written + 4) as u32,
            Implied::RefTo(t) | Implied::FuncRefTo(t) => id_at(&self.first, t),
            Implied::IrefTo(t) => id_at(&self.first, t) + 1,
        }
    }
}

fn id_at(list: &[u32], t: u32) -> u32
    ensures { result ≡ slice_index list.now t }
{
    let t = t as usize;
    if t < list.len() { list[t] } else { 0 }
}
