// What names stand for.
ghost use Rattle.std.specs.Prelude.{◌≡◌, length, option_copied, slice_get};
ghost use Rattle.check_tables.specs.Lookups.{type_named, definition_named, class_named, leaves_named, ref_named, iref_named, noted_class, signature_named, funcref_of, takes_of, gives_of, class_of_global, noted_signature, signature_in};

use crate::tables::{Signature, Tables};
use bundle_names::Sort;
use ir_lex::Name;
use mu_types::TypeDef;

impl Tables {
    /// The number of the type that a name stands for.
    pub fn type_named(&self, name: &Name) -> Option<u32>
        ensures { result ≡ type_named self.now name.now }
    {
        match self.globals.names.find(name.text.as_slice()) {
            Some(Sort::Written(n)) => Some(*n),
            _ => None,
        }
    }

    /// The definition of the type that a name stands for.
    pub fn definition_named(&self, name: &Name) -> Option<&TypeDef>
        ensures { option_copied result ≡ definition_named self.now name.now }
    {
        match self.type_named(name) {
            Some(t) => self.types.definition(t),
            None => None,
        }
    }

    /// The class of the type that a name stands for.
    pub fn class_named(&self, name: &Name) -> Option<u32>
        ensures { result ≡ class_named self.now name.now }
    {
        match self.type_named(name) {
            Some(t) => self.types.class(t),
            None => None,
        }
    }

    /// The same, and 0 where there is no such type.
    pub fn noted_class(&self, name: &Name) -> u32
        ensures { result ≡ noted_class self.now name.now }
    {
        match self.class_named(name) {
            Some(class) => class,
            None => 0,
        }
    }

    /// How many leaves the type has that a name stands for.
    pub fn leaf_count(&self, name: &Name) -> usize
        ensures { result ≡ length (leaves_named self.now name.now) }
    {
        match self.type_named(name) {
            Some(t) => self.types.leaf_count(t),
            None => 0,
        }
    }

    /// The class of the references to objects of the type that a name stands for.
    pub fn ref_named(&self, name: &Name) -> Option<u32>
        ensures { result ≡ ref_named self.now name.now }
    {
        match self.type_named(name) {
            Some(t) => self.types.ref_to(t),
            None => None,
        }
    }

    /// The class of the references to places of the type that a name stands for.
    pub fn iref_named(&self, name: &Name) -> Option<u32>
        ensures { result ≡ iref_named self.now name.now }
    {
        match self.type_named(name) {
            Some(t) => self.types.iref_to(t),
            None => None,
        }
    }

    /// The signature that a name stands for.
    pub fn signature_named(&self, name: &Name) -> Option<&Signature>
        ensures { option_copied result ≡ signature_named self.now name.now }
    {
        match self.globals.names.find(name.text.as_slice()) {
            Some(Sort::Signature(n)) => self.signatures.as_slice().get(*n as usize),
            _ => None,
        }
    }

    /// The class of the references to functions of the signature that a name stands for.
    pub fn funcref_named(&self, name: &Name) -> Option<u32>
        ensures { result ≡ funcref_of (signature_named self.now name.now) }
    {
        match self.signature_named(name) {
            Some(signature) => Some(signature.funcref),
            None => None,
        }
    }

    /// The class of the signature that a name stands for, and 0 where there is none.
    pub fn noted_signature(&self, name: &Name) -> u32
        ensures { result ≡ noted_signature (signature_named self.now name.now) }
    {
        match self.signature_named(name) {
            Some(signature) => signature.class,
            None => 0,
        }
    }

    /// What the signature takes that a name stands for.
    pub fn takes_named(&self, name: &Name) -> Option<&[u32]>
        ensures { option_copied result ≡ takes_of (signature_named self.now name.now) }
    {
        match self.signature_named(name) {
            Some(signature) => Some(signature.takes.as_slice()),
            None => None,
        }
    }

    /// What the signature gives that a name stands for.
    pub fn gives_named(&self, name: &Name) -> Option<&[u32]>
        ensures { option_copied result ≡ gives_of (signature_named self.now name.now) }
    {
        match self.signature_named(name) {
            Some(signature) => Some(signature.gives.as_slice()),
            None => None,
        }
    }

    /// The class of the references to functions of the signature of a function.
    fn funcref_of_function(&self, n: u32) -> Option<u32>
        ensures { result ≡ funcref_of (signature_in self.now (slice_get self.now.functions n)) }
    {
        match self.functions.as_slice().get(n as usize) {
            Some(s) => match self.signatures.as_slice().get(*s as usize) {
                Some(signature) => Some(signature.funcref),
                None => None,
            },
            None => None,
        }
    }

    /// The class of the constant, the global or the function that a name stands for, as an operand.
    pub fn class_of_global(&self, name: &Name) -> Option<u32>
        ensures { result ≡ class_of_global self.now name.now }
    {
        match self.globals.names.find(name.text.as_slice()) {
            Some(Sort::Constant(n)) => self.constants.as_slice().get(*n as usize).copied(),
            Some(Sort::GlobalCell(n)) => self.global_cells.as_slice().get(*n as usize).copied(),
            Some(Sort::Function(n)) => self.funcref_of_function(*n),
            _ => None,
        }
    }
}
