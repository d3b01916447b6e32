// Types by number.
ghost use Rattle.std.specs.Prelude.{◌≡◌, length, option_copied};
ghost use Rattle.type_definitions.specs.Same.{IsGraph};
ghost use Rattle.check_tables.specs.Held.{IsHeld};
ghost use Rattle.mu_types.specs.Implied.{IsThere, definition_of};
ghost use Rattle.check_tables.specs.Types.{class_like, definition_at, class_at, leaves_at, ref_at, iref_at, funcref_at, int1, int32, stackref, threadref, ref_void};

use mu_types::{Classes, Implied, TypeDef};
use std::marker::Model;

/// The types and signatures of a bundle by number, and which of them are the same. Contracts see the graph of the definitions, the
/// implied ones among them, and how many of them are written. No call takes memory, and each takes constant time.
#[derive(Drop)]
pub struct TypeTable {
    classes: Classes,
    written: u32,
}

impl Model for TypeTable {
    ghost use Rattle.std.specs.Prelude.{◌≡◌, ◌≤◌, length};
    ghost use Rattle.mu_types.specs.Graph.{Table};
    ghost use Rattle.type_definitions.specs.Same.{IsGraph};
    ghost use Rattle.check_tables.specs.Held.{IsHeld};

    ghost Value = { Table };

    ghost view = { λ t. t.classes };

    ghost invariant = { λ t. IsHeld t.classes t.written };
}

impl TypeTable {
    /// The table of a graph, where so many of its definitions are written.
    pub fn new(classes: Classes, written: u32) -> TypeTable
        requires { IsHeld classes written }
        ensures { result ≡ classes }
    {
        TypeTable { classes, written }
    }

    /// The graph itself.
    pub fn classes(&self) -> &Classes
        ensures same { result.now ≡ self.now }
        ensures graph { IsGraph result.now.definitions }
    {
        &self.classes
    }

    /// How many types and signatures are written.
    pub fn written(&self) -> u32
        ensures { result ≡ self.now.written }
    {
        self.written
    }

    /// What is written under a number, where something is.
    pub fn definition(&self, t: u32) -> Option<&TypeDef>
        ensures { option_copied result ≡ definition_at self.now t }
    {
        if t < self.written {
            Some(self.classes.definition(t))
        } else {
            None
        }
    }

    /// The class of what is written under a number, where something is.
    pub fn class(&self, t: u32) -> Option<u32>
        ensures { result ≡ class_at self.now t }
    {
        if t < self.written {
            Some(self.classes.class(t))
        } else {
            None
        }
    }

    /// How many leaves the type has that is written under a number; of a hybrid the fixed ones count.
    pub fn leaf_count(&self, t: u32) -> usize
        ensures { result ≡ length (leaves_at self.now t) }
    {
        if t < self.written {
            self.classes.leaves(t).len()
        } else {
            0
        }
    }

    fn class_of_implied(&self, wanted: Implied) -> u32
        requires { IsThere self.now.definitions self.now.written wanted }
        ensures { result ≡ class_like self.now.definitions (definition_of wanted) }
    {
        self.classes.class(self.classes.implied(wanted))
    }

    /// The class of the references to objects of a type that is written.
    pub fn ref_to(&self, t: u32) -> Option<u32>
        ensures { result ≡ ref_at self.now t }
    {
        match self.definition(t) {
            None | Some(TypeDef::Sig { .. }) => None,
            Some(_) => Some(self.class_of_implied(Implied::RefTo(t))),
        }
    }

    /// The class of the references to places of a type that is written.
    pub fn iref_to(&self, t: u32) -> Option<u32>
        ensures { result ≡ iref_at self.now t }
    {
        match self.definition(t) {
            None | Some(TypeDef::Sig { .. }) => None,
            Some(_) => Some(self.class_of_implied(Implied::IrefTo(t))),
        }
    }

    /// The class of the references to functions of a signature that is written.
    pub fn funcref_to(&self, s: u32) -> Option<u32>
        ensures { result ≡ funcref_at self.now s }
    {
        match self.definition(s) {
            Some(TypeDef::Sig { .. }) => Some(self.class_of_implied(Implied::FuncRefTo(s))),
            _ => None,
        }
    }

    /// The class of the integers of one bit.
    pub fn int1(&self) -> u32
        ensures { result ≡ int1 self.now }
    {
        self.class_of_implied(Implied::Int1)
    }

    /// The class of the integers of 32 bits.
    pub fn int32(&self) -> u32
        ensures { result ≡ int32 self.now }
    {
        self.class_of_implied(Implied::Int32)
    }

    /// The class of the references to stacks.
    pub fn stackref(&self) -> u32
        ensures { result ≡ stackref self.now }
    {
        self.class_of_implied(Implied::StackRef)
    }

    /// The class of the references to threads.
    pub fn threadref(&self) -> u32
        ensures { result ≡ threadref self.now }
    {
        self.class_of_implied(Implied::ThreadRef)
    }

    /// The class of the references to objects of type void.
    pub fn ref_void(&self) -> u32
        ensures { result ≡ ref_void self.now }
    {
        self.class_of_implied(Implied::RefTo(self.written))
    }
}
