// Graphs whose answers are known, run as they are built.
use crate::samples::{Dice, Verdict, complete, drawn, flag_at, graph_of, pair, plain_verdict};
use crate::sketch::{Known, Sketch};
use mu_types::{Implied, TypeDef, TypeFault, TypeKind};
use std::alloc::{AllocError, Global};
use std::test::Fail;
use std::time::Instant;
use text_forms::Listing;

fn ids(alloc: Global, members: &[u32]) -> Result<Listing<u32>, AllocError> {
    let mut ids = Listing::new(alloc);
    for member in members {
        ids.push(*member)?;
    }
    Ok(ids)
}

// the fault of a graph of one definition, whose name stands at 9 and whose arguments stand at 18 and 24
fn fault_of(alloc: Global, definition: TypeDef) -> Result<Option<TypeFault>, AllocError> {
    let mut graph = Sketch::new(alloc);
    graph.add(definition, ids(alloc, &[9, 18, 24])?)?;
    match graph.judged(alloc) {
        Some(Err(fault)) => Ok(Some(fault)),
        _ => Ok(None),
    }
}

fn fault(kind: TypeKind, place: usize) -> Option<TypeFault> {
    Some(TypeFault::At { kind, place })
}

#[test]
fn names_first_faults(rt: HostRuntime) -> Result<(), Fail> {
    let alloc = rt.alloc();
    let itself = fault_of(
        alloc,
        TypeDef::Struct {
            fields: ids(alloc, &[0])?,
        },
    )?;
    assert!(rt; itself == fault(TypeKind::EndlessType, 9));
    let array = fault_of(
        alloc,
        TypeDef::Array {
            element: 0,
            length: 1,
        },
    )?;
    assert!(rt; array == fault(TypeKind::EndlessType, 9));
    let long = fault_of(
        alloc,
        TypeDef::Array {
            element: 0,
            length: 4097,
        },
    )?;
    assert!(rt; long == fault(TypeKind::WrongArgument, 24));
    let octal = fault_of(alloc, TypeDef::Int { width: 10 })?;
    assert!(rt; octal == fault(TypeKind::WrongArgument, 18));
    let good = fault_of(alloc, TypeDef::Int { width: 128 })?;
    assert!(rt; good == None);
    Ok(())
}

#[test]
fn takes_two_lists_for_one(rt: HostRuntime) -> Result<(), Fail> {
    let alloc = rt.alloc();
    let mut graph = Sketch::new(alloc);
    let none = ids(alloc, &[])?;
    graph.add(TypeDef::Int { width: 64 }, none)?;
    graph.add(
        TypeDef::Struct {
            fields: ids(alloc, &[0, 2])?,
        },
        ids(alloc, &[])?,
    )?;
    graph.add(TypeDef::Ref(1), ids(alloc, &[])?)?;
    graph.add(
        TypeDef::Struct {
            fields: ids(alloc, &[0, 4])?,
        },
        ids(alloc, &[])?,
    )?;
    graph.add(TypeDef::Ref(3), ids(alloc, &[])?)?;
    let Some(Ok(known)) = graph.judged(alloc) else {
        assert!(rt; false);
        return Ok(());
    };
    assert_eq!(rt; known.count(), 22);
    let types = known.classes();
    assert!(rt; types.same(1, 3) && types.same(2, 4) && !types.same(1, 2));
    assert_eq!(rt; types.class(4), 2);
    assert_eq!(rt; types.leaves(3), [0, 2].as_slice());
    assert!(rt; matches!(types.definition(4), TypeDef::Ref(3)));
    assert!(rt; matches!(types.definition(21), TypeDef::Iref(5)));
    assert_eq!(rt; types.implied(Implied::Int1), 6);
    Ok(())
}

fn push(graph: &mut Sketch, definition: TypeDef, alloc: Global) -> Result<(), AllocError> {
    graph.add(definition, Listing::new(alloc))
}

// a chain of references
fn chain(alloc: Global, many: u32) -> Result<Sketch, AllocError> {
    let mut graph = Sketch::new(alloc);
    push(&mut graph, TypeDef::Int { width: 8 }, alloc)?;
    for x in 1..many {
        push(&mut graph, TypeDef::Ref(x - 1), alloc)?;
    }
    Ok(graph)
}

// two chains that differ at their ends
fn two_chains(alloc: Global, many: u32) -> Result<Sketch, AllocError> {
    let mut graph = Sketch::new(alloc);
    push(&mut graph, TypeDef::Int { width: 8 }, alloc)?;
    push(&mut graph, TypeDef::Int { width: 16 }, alloc)?;
    for x in 2..many {
        push(&mut graph, TypeDef::Ref(x - 2), alloc)?;
    }
    Ok(graph)
}

// lists of integers under many names
fn lists(alloc: Global, many: u32) -> Result<Sketch, AllocError> {
    let mut graph = Sketch::new(alloc);
    push(&mut graph, TypeDef::Int { width: 64 }, alloc)?;
    for x in 0..many / 2 {
        let own = x % 1_000_000 * 2 + 1;
        push(
            &mut graph,
            TypeDef::Struct {
                fields: ids(alloc, &[0, own + 1])?,
            },
            alloc,
        )?;
        push(&mut graph, TypeDef::Ref(own), alloc)?;
    }
    Ok(graph)
}

// structs of 256 references to such structs
fn wide(alloc: Global, many: u32) -> Result<Sketch, AllocError> {
    let mut graph = Sketch::new(alloc);
    let structs = many % 1_000_000 / 2 + 1;
    for x in 0..structs {
        let mut fields = Listing::new(alloc);
        for i in 0..256u32 {
            let to = (x as u64 * 7919 + i as u64 * i as u64 * 31) % structs as u64;
            fields.push(to as u32 * 2 + 1)?;
        }
        push(&mut graph, TypeDef::Struct { fields }, alloc)?;
        push(&mut graph, TypeDef::Ref(x * 2), alloc)?;
    }
    Ok(graph)
}

// arrays within arrays, as deep as there are types
fn deep(alloc: Global, many: u32) -> Result<Sketch, AllocError> {
    let mut graph = Sketch::new(alloc);
    push(&mut graph, TypeDef::Int { width: 8 }, alloc)?;
    for x in 1..many {
        push(
            &mut graph,
            TypeDef::Array {
                element: x - 1,
                length: 1,
            },
            alloc,
        )?;
    }
    Ok(graph)
}

// structs of 256 references to such structs, one of which differs: in the end all differ
fn wide_apart(alloc: Global, many: u32) -> Result<Sketch, AllocError> {
    let mut graph = Sketch::new(alloc);
    let structs = many % 1_000_000 / 2;
    for x in 0..structs {
        let mut fields = Listing::new(alloc);
        for i in 0..256u32 {
            let to = (x as u64 * 7919 + i as u64 * i as u64 * 31) % (structs as u64 + 1);
            let odd = x == 0 && i == 0;
            fields.push(if odd { structs * 2 } else { to as u32 * 2 + 1 })?;
        }
        push(&mut graph, TypeDef::Struct { fields }, alloc)?;
        push(&mut graph, TypeDef::Ref(x * 2), alloc)?;
    }
    push(&mut graph, TypeDef::Int { width: 8 }, alloc)?;
    push(&mut graph, TypeDef::Ref(structs * 2), alloc)?;
    Ok(graph)
}

// structs in a ring, each of which contains the next: one long cycle of parts
fn ring(alloc: Global, many: u32) -> Result<Sketch, AllocError> {
    let mut graph = Sketch::new(alloc);
    for x in 0..many {
        let next = if x < many - 1 { x + 1 } else { 0 };
        push(
            &mut graph,
            TypeDef::Struct {
                fields: ids(alloc, &[next])?,
            },
            alloc,
        )?;
    }
    Ok(graph)
}

// arrays of 4,096 of that element, or each of the one before
fn arrays(alloc: Global, many: u32, nested: bool) -> Result<Sketch, AllocError> {
    let mut graph = Sketch::new(alloc);
    push(&mut graph, TypeDef::Int { width: 8 }, alloc)?;
    for x in 1..many {
        push(
            &mut graph,
            TypeDef::Array {
                element: if nested { x - 1 } else { 0 },
                length: 4096,
            },
            alloc,
        )?;
    }
    Ok(graph)
}

// arrays of 4,096 elements that all differ
fn arrays_apart(alloc: Global, many: u32) -> Result<Sketch, AllocError> {
    let mut graph = Sketch::new(alloc);
    let half = many / 2;
    push(&mut graph, TypeDef::Int { width: 8 }, alloc)?;
    for x in 1..half {
        push(&mut graph, TypeDef::Ref(x - 1), alloc)?;
    }
    for x in 0..half {
        push(
            &mut graph,
            TypeDef::Array {
                element: x,
                length: 4096,
            },
            alloc,
        )?;
    }
    Ok(graph)
}

fn great(alloc: Global, kind: u32, many: u32) -> Result<Sketch, AllocError> {
    match kind {
        0 => chain(alloc, many),
        1 => two_chains(alloc, many),
        2 => lists(alloc, many),
        3 => wide(alloc, many),
        4 => wide_apart(alloc, many),
        5 => deep(alloc, many),
        6 => arrays(alloc, many, false),
        7 => arrays_apart(alloc, many),
        8 => ring(alloc, many),
        _ => arrays(alloc, many, true),
    }
}

#[test]
fn measures_great_graphs(rt: HostRuntime) -> Result<(), Fail> {
    let alloc = rt.alloc();
    for kind in 0..10u32 {
        let graph = great(alloc, kind, 16384)?;
        let start = Instant::now(&rt)?;
        let known = graph.judged(alloc);
        let end = start.elapsed(&rt)?.as_millis();
        println!(rt; "graph {kind}: {end} ms")?;
        let is_met = match known {
            Some(Ok(_)) => kind < 8,
            Some(Err(TypeFault::At { kind: found, .. })) => kind == 8
                && found == TypeKind::EndlessType
                || kind == 9 && found == TypeKind::TooManyLeaves,
            _ => false,
        };
        assert!(rt; is_met);
    }
    Ok(())
}

// whether the leaves of a type are the classes of those
fn has_leaves(known: &Known, t: usize, leaves: &[u32]) -> bool {
    if t >= known.count() || t > 65535 {
        return false;
    }
    let types = known.classes();
    let classes = types.leaves(t as u32);
    if classes.len() != leaves.len() {
        return false;
    }
    for i in 0..leaves.len() {
        if i >= classes.len() || leaves[i] as usize >= known.count() {
            return false;
        }
        if classes[i] != types.class(leaves[i]) {
            return false;
        }
    }
    true
}

// whether two are told to be the same, and the first to be the class of the second, exactly where they are alike and none before it is
fn has_classes(known: &Known, alike: &[bool]) -> bool {
    let many = known.count();
    if many > 65535 {
        return false;
    }
    let types = known.classes();
    for b in 0..many {
        let mut met = false;
        for a in 0..many {
            let same = flag_at(alike, pair(many, a, b));
            if types.same(a as u32, b as u32) != same {
                return false;
            }
            if (types.class(b as u32) as usize == a) != (same && !met) {
                return false;
            }
            met = met || same;
        }
    }
    true
}

/// A class is written as a number below this.
const MOST_CLASSES: usize = 65536;

// whether the last of so many definitions is the iref of the void that stands behind the written ones
fn ends_at_void(known: &Known, many: usize, written: usize) -> bool {
    if many == 0 || many > known.count() || many > MOST_CLASSES {
        return false;
    }
    let last = known.classes().definition((many - 1) as u32);
    matches!(last, TypeDef::Iref(t) if *t as usize == written)
}

fn is_as_said(known: &Known, written: usize, alike: &[bool], leaves: &[Vec<u32>]) -> bool {
    let many = leaves.len();
    if known.count() != many || !ends_at_void(known, many, written) || !has_classes(known, alike) {
        return false;
    }
    for t in 0..leaves.len() {
        if !has_leaves(known, t, &leaves[t]) {
            return false;
        }
    }
    true
}

// whether two written definitions are the same
fn has_twins(alike: &[bool], many: usize, written: usize) -> bool {
    for b in 0..written {
        for a in 0..b {
            if flag_at(alike, pair(many, a, b)) {
                return true;
            }
        }
    }
    false
}

// how many graphs were accepted, and refused for each cause; how many have two written definitions that are the same; how many
// answers were not as they are said to be
#[derive(Drop)]
struct Tally {
    accepted: u32,
    twins: u32,
    endless: u32,
    wrong: u32,
    many: u32,
    amiss: u32,
}

fn count_one(count: &mut u32) {
    *count = count.wrapping_add(1);
}

fn compare(alloc: Global, dice: &mut Dice, tally: &mut Tally) -> Result<(), AllocError> {
    let mut shapes = drawn(alloc, dice)?;
    let written = shapes.len();
    let graph = graph_of(alloc, &shapes)?;
    complete(alloc, &mut shapes)?;
    let known = graph.judged(alloc);
    match plain_verdict(alloc, &shapes, written)? {
        Verdict::Refused { kind, place } => {
            match kind {
                TypeKind::EndlessType => count_one(&mut tally.endless),
                TypeKind::WrongArgument => count_one(&mut tally.wrong),
                _ => count_one(&mut tally.many),
            }
            let is_met = match known {
                Some(Err(found)) => found == (TypeFault::At { kind, place }),
                _ => false,
            };
            if !is_met {
                count_one(&mut tally.amiss);
            }
        }
        Verdict::Accepted { alike, leaves } => {
            count_one(&mut tally.accepted);
            if has_twins(&alike, shapes.len(), written) {
                count_one(&mut tally.twins);
            }
            let is_met = match known {
                Some(Ok(known)) => is_as_said(&known, written, &alike, &leaves),
                _ => false,
            };
            if !is_met {
                count_one(&mut tally.amiss);
            }
        }
    }
    Ok(())
}

#[test]
fn agrees_with_a_plain_reading(rt: HostRuntime) -> Result<(), Fail> {
    let alloc = rt.alloc();
    let mut dice = Dice::new(2026);
    let mut tally = Tally {
        accepted: 0,
        twins: 0,
        endless: 0,
        wrong: 0,
        many: 0,
        amiss: 0,
    };
    for _ in 0..600 {
        compare(alloc, &mut dice, &mut tally)?;
    }
    assert_eq!(rt; tally.amiss, 0);
    assert!(rt; tally.accepted >= 100 && tally.twins >= 50);
    assert!(rt; tally.endless >= 20 && tally.wrong >= 20 && tally.many >= 5);
    Ok(())
}
