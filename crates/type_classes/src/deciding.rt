// Judges a graph, and says what is the same in it.
ghost use Rattle.std.specs.Prelude.{◌≡◌, ℕ, ◌+◌, ◌-◌, ◌*◌, ◌^◌, ◌<◌, ◌≤◌, length, vec_len, IfOk};
ghost use Rattle.demands.specs.Demands.{Meets};
ghost use Rattle.type_definitions.specs.Partition.{IsLeast};
ghost use Rattle.type_definitions.specs.Same.{IsGraph};
ghost use Rattle.mu_types.specs.Implied.{complete};
ghost use Rattle.mu_types.specs.References.{Referred, IsHeaded};
ghost use Rattle.mu_types.specs.TypeDemands.{passes, written_demands};

use super::completing::complete_graph;
use super::counting::{counts_of, first_too_many};
use super::endless::first_endless;
use super::graph::TypeGraph;
use super::judging::first_wrong_argument;
use super::listing::listings_of;
use super::naming::classes_by;
use super::ranking::arrange;
use super::refine::refine;
use mu_types::{Classes, TypeFault, Whole};
use std::alloc::{AllocError, Global};
use text_forms::Listing;
use type_definitions::TypeDef;

// whether the types are accepted; if so, the ranks that were found on the way
fn judge(
    alloc: Global,
    all: &[TypeDef],
    places: &[Listing<u32>],
    many: usize,
) -> Result<Vec<usize>, TypeFault>
    requires many { many ≤ length all.now }
    requires graph { IsGraph all.now }
    ensures { Meets (passes all.now places.now many) result }
{
    if let Some(fault) = first_wrong_argument(all, places, many) {
        return Err(fault);
    }
    let rank = arrange(alloc, all)?;
    if let Some(fault) = first_endless(alloc, all, &rank, places, many)? {
        return Err(fault);
    }
    let counts = counts_of(alloc, all, &rank)?;
    if let Some(fault) = first_too_many(all, places, many, &counts) {
        return Err(fault);
    }
    Ok(rank)
}

fn find_classes(alloc: Global, all: &[TypeDef]) -> Result<Vec<usize>, AllocError>
    requires { IsGraph all.now }
    ensures len { IfOk result (λ v. vec_len v ≡ length all.now) }
    ensures classes { IfOk result (λ v. IsLeast all.now v.items) }
{
    let block = refine(alloc, all)?;
    let class = classes_by(alloc, all, &block, all.len())?;
    Ok(class)
}

fn hold(alloc: Global, whole: Whole, written: usize, rank: &[usize]) -> Result<Classes, AllocError>
    requires few { length whole.all.items < 2 ^ 32 }
    requires graph { IsGraph whole.all.items }
    requires referred { Referred whole.all.items whole.first.items (written + 1) }
    requires headed { IsHeaded whole.all.items written }
    ensures definitions { IfOk result (λ c. c.definitions ≡ whole.all.items) }
    ensures written { IfOk result (λ c. c.written ≡ written) }
{
    let class = find_classes(alloc, &whole.all)?;
    let rows = listings_of(alloc, &whole.all, &class, rank)?;
    Ok(Classes::held(written, whole, class, rows))
}

/// Adds the implied types to a graph and says which of its types are the same and what their leaves are, or refuses it with its
/// first fault: arguments before types that contain themselves, those before types with too many leaves, and in each pass the
/// earlier definition first. Want of memory may come at any time. The graph is taken in each case.
///
/// For n definitions with m arguments in all it takes some m log n steps, and as many for the leaves as there are: at most 4,096 a
/// class. A graph with a cycle of parts is refused in some m steps.
pub fn classes(alloc: Global, graph: TypeGraph) -> Result<Classes, TypeFault>
    requires graph { IsGraph graph.definitions }
    requires few { 3 * length graph.definitions + 7 < 2 ^ 32 - 1 }
    ensures met { Meets (written_demands graph) result }
    ensures definitions { IfOk result (λ c. c.definitions ≡ complete graph.definitions) }
    ensures written { IfOk result (λ c. c.written ≡ length graph.definitions) }
{
    let (definitions, places) = graph.into_parts();
    let written = definitions.len();
    let whole = complete_graph(alloc, definitions)?;
    let rank = judge(alloc, &whole.all, &places, written)?;
    let classes = hold(alloc, whole, written, &rank)?;
    Ok(classes)
}
