// The types of a bundle are judged.
ghost use Rattle.std.specs.Prelude.{◌≡◌, ◌+◌, IfOk};
ghost use Rattle.demands.specs.Demands.{Judges};
ghost use Rattle.bundle_names.specs.Globals.{globals_of};
ghost use Rattle.checked_code.specs.Graph.{table_of, type_demands};
ghost use Rattle.bundle_tables.specs.Inner.{fault_of};

use crate::graph::graph;
use bundle_names::Globals;
use check_tables::{CheckFault, CheckKind, TypeTable, fault_at};
use ir_tree::Item;
use mu_types::TypeFault;
use std::alloc::{AllocError, Global};
use type_classes::classes;

/// The fault of a graph as that of a bundle.
fn fault_of(fault: TypeFault) -> CheckFault
    ensures { result ≡ fault_of fault }
{
    match fault {
        TypeFault::Memory => CheckFault::Memory,
        TypeFault::At { kind, place } => fault_at(CheckKind::Types(kind), place),
    }
}

/// How many types and signatures there are. Past 2^32 - 1 the answer is out of memory.
fn written(globals: &Globals) -> Result<u32, AllocError>
    ensures { IfOk result (λ n. n ≡ globals.now.counts.written + globals.now.counts.signatures) }
{
    let counts = &globals.counts;
    counts
        .written
        .checked_add(counts.signatures)
        .ok_or(AllocError)
}

/// The types of a bundle.
pub fn type_table(alloc: Global, globals: &Globals, items: &[Item]) -> Result<TypeTable, CheckFault>
    requires { globals.now ≡ globals_of items.now }
    ensures { Judges (type_demands globals.now items.now) (table_of globals.now items.now) result }
{
    let written = written(globals)?;
    let graph = graph(alloc, globals, items)?;
    match classes(alloc, graph) {
        Ok(classes) => Ok(TypeTable::new(classes, written)),
        Err(fault) => Err(fault_of(fault)),
    }
}
