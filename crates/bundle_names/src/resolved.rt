// Bundles whose names are judged.
ghost use Rattle.std.specs.Prelude.{◌≡◌, None};

use crate::globals::Globals;
use ir_tree::{Bundle, Item};
use std::marker::Model;

/// A bundle that meets all demands on its names, with what its global names stand for. Contracts see the bundle.
#[derive(Drop)]
pub struct Resolved {
    bundle: Bundle,
    globals: Globals,
}

impl Model for Resolved {
    ghost use Rattle.std.specs.Prelude.{List, ◌≡◌, None};
    ghost use Rattle.ir_tree.specs.declared.items.Item.{Item};
    ghost use Rattle.demands.specs.Demands.{first_unmet};
    ghost use Rattle.bundle_names.specs.Globals.{globals_of};
    ghost use Rattle.bundle_names.specs.Naming.{name_demands};

    ghost Value = { List Item };

    ghost view = { λ r. r.bundle };

    ghost invariant = { λ r. (first_unmet (name_demands r.bundle) ≡ None) × (r.globals ≡ globals_of r.bundle) };
}

impl Resolved {
    ghost use Rattle.demands.specs.Demands.{first_unmet};
    ghost use Rattle.bundle_names.specs.Globals.{globals_of};
    ghost use Rattle.bundle_names.specs.Naming.{name_demands};

    pub(crate) fn new(bundle: Bundle, globals: Globals) -> Resolved
        requires met { first_unmet (name_demands bundle) ≡ None }
        requires same { globals ≡ globals_of bundle }
        ensures { result ≡ bundle }
    {
        Resolved { bundle, globals }
    }

    /// The items of the bundle, which meet all demands on their names.
    pub fn items(&self) -> &[Item]
        ensures same { result.now ≡ self.now }
        ensures met { first_unmet (name_demands self.now) ≡ None }
    {
        self.bundle.as_slice()
    }

    /// What the global names stand for. Each is found in the time of one hash.
    pub fn globals(&self) -> &Globals
        ensures { result.now ≡ globals_of self.now }
    {
        &self.globals
    }

    /// The bundle, and what its global names stand for.
    pub fn into_parts(self) -> (Bundle, Globals)
        ensures bundle { result.0 ≡ self }
        ensures globals { result.1 ≡ globals_of self }
        ensures met { first_unmet (name_demands self) ≡ None }
    {
        (self.bundle, self.globals)
    }
}
