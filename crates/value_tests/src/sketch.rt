// Graphs that are drawn definition by definition, and what is known of a finished one.
ghost use Rattle.std.specs.Prelude.{◌≡◌, ◌<◌, ◌≤◌, ◌++◌, length, cond};
ghost use Rattle.std.specs.List.{All};
ghost use Rattle.type_definitions.specs.Definition.{arguments};
ghost use Rattle.mu_types.specs.Implied.{is_signature};

use mu_types::{Classes, TypeDef, TypeFault};
use std::alloc::{AllocError, Global};
use std::marker::Model;
use text_forms::Listing;
use type_classes::{TypeGraph, classes};

/// A graph has no more definitions than these.
const MOST_DEFINITIONS: usize = 1_000_000;

/// A graph; how many definitions it has, and how many with the implied ones; and a number above each argument.
#[derive(Drop)]
pub struct Sketch {
    graph: TypeGraph,
    count: usize,
    whole: usize,
    top: usize,
}

impl Model for Sketch {
    ghost use Rattle.mu_types.specs.Graph.{Written};
    ghost use Rattle.value_tests.specs.Sketches.{IsDrawn};

    ghost Value = { Written };

    ghost view = { λ s. s.graph };

    ghost invariant = { λ s. IsDrawn s.graph.definitions s.count s.whole s.top };
}

impl Sketch {
    /// A graph without definitions.
    pub fn new(alloc: Global) -> Self {
        Sketch {
            graph: TypeGraph::new(alloc),
            count: 0,
            whole: 7,
            top: 0,
        }
    }

    /// Adds a definition where there is room for one more.
    pub fn add(&mut self, definition: TypeDef, places: Listing<u32>) -> Result<(), AllocError> {
        if self.count >= MOST_DEFINITIONS {
            return Ok(());
        }
        let top = above_arguments(&definition, self.top);
        let references = references_to(&definition);
        self.graph.add(definition, places)?;
        self.count += 1;
        self.whole += 1 + references;
        self.top = top;
        Ok(())
    }

    /// The classes of the graph, or its first fault. None where an argument is no id of it, or where it is too large to be judged.
    #[tactic(auto, using(crate::proofs::Sketches::drawn_graph))]
    pub fn judged(self, alloc: Global) -> Option<Result<Known, TypeFault>> {
        let Sketch {
            graph,
            count,
            whole,
            top,
        } = self;
        if top > count || count > 100_000 {
            return None;
        }
        match classes(alloc, graph) {
            Ok(classes) => Some(Ok(Known {
                classes,
                count: whole,
            })),
            Err(fault) => Some(Err(fault)),
        }
    }
}

/// Types by their classes, and how many definitions there are.
#[derive(Drop)]
pub struct Known {
    classes: Classes,
    count: usize,
}

impl Model for Known {
    ghost use Rattle.std.specs.Prelude.{◌≡◌, length};
    ghost use Rattle.mu_types.specs.Graph.{Table};

    ghost Value = { Table };

    ghost view = { λ k. k.classes };

    ghost invariant = { λ k. length k.classes.definitions ≡ k.count };
}

impl Known {
    /// The types.
    pub fn classes(&self) -> &Classes
        ensures { result.now ≡ self.now }
    {
        &self.classes
    }

    /// How many definitions there are, the implied ones among them.
    pub fn count(&self) -> usize
        ensures { result ≡ length self.now.definitions }
    {
        self.count
    }
}

// How many implied types refer to a definition.
fn references_to(definition: &TypeDef) -> usize
    ensures { result ≡ cond (is_signature definition.now) 1 2 }
{
    match definition {
        TypeDef::Sig { .. } => 1,
        _ => 2,
    }
}

// A number above each argument, which is that one or a greater one.
fn above_arguments(definition: &TypeDef, least: usize) -> usize
    ensures least { least ≤ result }
    ensures above { All (λ y. y < result) (arguments definition.now) }
{
    match definition {
        TypeDef::Struct { fields } => above(fields.as_slice(), least),
        TypeDef::Array { element, .. } => above(&[*element], least),
        TypeDef::Hybrid { fixed, element } => above_both(fixed.as_slice(), &[*element], least),
        TypeDef::Ref(t) | TypeDef::Iref(t) | TypeDef::FuncRef(t) => above(&[*t], least),
        TypeDef::Sig { takes, gives } => above_both(takes.as_slice(), gives.as_slice(), least),
        _ => least,
    }
}

#[tactic(auto, using(crate::proofs::Sketches::both_below))]
fn above_both(first: &[u32], second: &[u32], least: usize) -> usize
    ensures least { least ≤ result }
    ensures above { All (λ y. y < result) (first.now ++ second.now) }
{
    above(second, above(first, least))
}

fn greater(a: usize, b: usize) -> usize
    ensures a { a ≤ result }
    ensures b { b ≤ result }
{
    if a < b { b } else { a }
}

fn above(list: &[u32], least: usize) -> usize
    ensures least { least ≤ result }
    ensures above { All (λ y. y < result) list.now }
{
    let mut top = least;
    for k in 0..list.len() {
        top = greater(top, list[k] as usize + 1);
    }
    top
}
