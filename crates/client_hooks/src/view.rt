//! What a client is asked.
ghost use Rattle.std.specs.Prelude.{◌≡◌, ◌<◌, ◌^◌, ◌++◌, ◌∷◌, [], length, map, slice_get, Some, IfOk, IfSome, OnOk};
ghost use Rattle.std.specs.List.{All};
ghost use Rattle.type_definitions.specs.Same.{IsGraph};
ghost use Rattle.mu_values.specs.Constants.{width_of};
ghost use Rattle.check_tables.specs.Types.{stackref};
ghost use Rattle.typed_heap.specs.Heap.{AreNarrow};
ghost use Rattle.typed_heap.specs.Objects.{zero_of, zeros, leaf_classes};
ghost use Rattle.mu_model.specs.Types.{zero_value};
ghost use Rattle.mu_model.specs.Answers.{blank};

use check_tables::Tables;
use mu_base::Types;
use mu_types::{Classes, TypeDef};
use mu_values::{Passed, Scalar, Slots, Value};
use std::alloc::{AllocError, Global};
use std::marker::Model;
use std::snapshot::Snapshot;

/// A trap, as the client sees it. The frames stand on the stack that is handed over with it, the top one where the thread stands.
/// Contracts see the tables of the bundle, the thread, the watchpoint, and the classes that are asked.
#[derive(Drop)]
pub struct TrapView {
    thread: u32,
    watchpoint: Option<u32>,
    // For the types that are asked.
    blanks: Passed,
    stack_class: u32,
    tables: Snapshot<Tables>,
}

impl Model for TrapView {
    ghost use Rattle.std.specs.Prelude.{◌≡◌};
    ghost use Rattle.check_tables.specs.Types.{stackref};
    ghost use Rattle.mu_model.specs.Answers.{blank};
    ghost use Rattle.client_hooks.specs.Traps.{Trap};

    ghost Value = { Trap };

    ghost view = { λ v. record { tables = v.tables.value; thread = v.thread; watchpoint = v.watchpoint; asked = v.blanks.types } };

    ghost invariant = { λ v. (v.blanks ≡ blank v.tables.value v.blanks.types) × (v.stack_class ≡ stackref v.tables.value.types) };
}

/// What a new cell of a leaf begins with: zero or NULL.
fn zero(definition: &TypeDef) -> Scalar
    requires { IfSome (width_of (Some definition.now)) (λ width. width < 2 ^ 32) }
    ensures { result ≡ zero_of (width_of (Some definition.now)) }
{
    match definition {
        TypeDef::Int { width } => Scalar::Int {
            width: *width as u32,
            bits: 0,
        },
        _ => Scalar::Null,
    }
}

/// Zero or NULL for each leaf.
fn zeros(alloc: Global, classes: &Classes, leaves: &[u32]) -> Result<Vec<Scalar>, AllocError>
    requires narrow { AreNarrow classes.now.definitions }
    requires leaves { All (λ c. c < length classes.now.definitions) leaves.now }
    ensures { IfOk result (λ scalars. scalars.items ≡ zeros classes.now.definitions leaves.now) }
{
    let mut scalars = Vec::with_capacity(alloc, leaves.len())?;
    for class in leaves {
        scalars.push(zero(classes.definition(*class)))?;
    }
    Ok(scalars)
}

/// Zero and NULL of some types.
fn blank_values(alloc: Global, tables: &Tables, asked: &[u32]) -> Result<Slots, AllocError>
    requires narrow { AreNarrow tables.now.types.definitions }
    requires there { All (λ c. c < length tables.now.types.definitions) asked.now }
    ensures { IfOk result (λ values. values.values ≡ map (zero_value tables.now) asked.now) }
{
    let classes = tables.types.classes();
    let mut values = Slots::new(alloc);
    for class in asked {
        let value = zeros(alloc, classes, classes.leaves(*class))?;
        values.push_slice(value.as_slice())?;
    }
    Ok(values)
}

impl TrapView {
    /// A view of a trap in a run of the bundle with these tables, where values of these classes are asked. It takes memory for zero and
    /// NULL of these types.
    pub fn new(
        alloc: Global,
        tables: &Tables,
        thread: u32,
        watchpoint: Option<u32>,
        asked: Types,
    ) -> Result<TrapView, AllocError>
        requires narrow { AreNarrow tables.now.types.definitions }
        requires there { All (λ c. c < length tables.now.types.definitions) asked.members }
        ensures { IfOk result (λ v. v ≡ record { tables = tables.now; thread = thread; watchpoint = watchpoint; asked = asked.members }) }
    {
        let values = blank_values(alloc, tables, asked.as_slice())?;
        Ok(TrapView {
            thread,
            watchpoint,
            blanks: Passed::new(asked, values),
            stack_class: tables.types.stackref(),
            tables: Snapshot::of(tables),
        })
    }

    /// The thread that stands at the trap.
    pub fn thread(&self) -> u32
        ensures { result ≡ self.now.thread }
    {
        self.thread
    }

    /// The watchpoint at which it stands, if it is one.
    pub fn watchpoint(&self) -> Option<u32>
        ensures { result ≡ self.now.watchpoint }
    {
        self.watchpoint
    }

    /// The classes of the types of the values that are asked.
    pub fn asked(&self) -> &Types
        ensures { result.now.members ≡ self.now.asked }
    {
        self.blanks.types()
    }

    /// Zero and NULL of the types that are asked.
    pub fn blank(&self) -> &Passed
        ensures { result.now ≡ blank self.now.tables self.now.asked }
    {
        &self.blanks
    }

    /// The class of the references to stacks.
    pub fn stackref(&self) -> u32
        ensures { result ≡ stackref self.now.tables.types }
    {
        self.stack_class
    }
}
