// Small graphs drawn from a seed, and what a plain reading of the rules says of them: faults pass by pass, types alike by depth in
// rounds over all pairs, leaves by depth. It shares no code with what it is compared with.
use crate::sketch::Sketch;
use mu_types::{TypeDef, TypeKind};
use std::alloc::{AllocError, Global};
use text_forms::Listing;

/// Numbers drawn from a seed.
#[derive(Drop)]
pub struct Dice {
    state: u64,
}

impl Dice {
    pub fn new(seed: u64) -> Self {
        Dice { state: seed }
    }

    /// A number below that one, 0 where that is 0.
    pub fn roll(&mut self, below: u32) -> u32 {
        self.state = self
            .state
            .wrapping_mul(6364136223846793005)
            .wrapping_add(1442695040888963407);
        let drawn = (self.state / 4294967296) as u32;
        if below == 0 { 0 } else { drawn % below }
    }
}

/// The constructors.
#[derive(Clone, Copy, PartialEq, Eq, Drop)]
pub enum Kind {
    Int,
    Struct,
    Array,
    Hybrid,
    Void,
    Ref,
    Iref,
    FuncRef,
    StackRef,
    ThreadRef,
    Sig,
}

/// A definition: its constructor, its number, and its arguments, of which the first so many are fixed fields or parameters.
#[derive(Drop)]
pub struct Shape {
    pub kind: Kind,
    pub number: u128,
    pub arguments: Vec<u32>,
    pub front: usize,
}

/// What is said of a graph.
#[derive(Drop)]
pub enum Verdict {
    Refused {
        kind: TypeKind,
        place: usize,
    },
    Accepted {
        alike: Vec<bool>,
        leaves: Vec<Vec<u32>>,
    },
}

fn number_at(list: &[u32], i: usize) -> u32 {
    if i < list.len() { list[i] } else { 0 }
}

pub fn flag_at(list: &[bool], i: usize) -> bool {
    i < list.len() && list[i]
}

fn set_flag(list: &mut [bool], i: usize, value: bool) {
    if i < list.len() {
        list[i] = value;
    }
}

/// Where the pair stands in a table of pairs.
pub fn pair(many: usize, a: usize, b: usize) -> usize {
    a.wrapping_mul(many).wrapping_add(b)
}

fn drawn_kind(dice: &mut Dice) -> Kind {
    match dice.roll(17) {
        0 => Kind::Int,
        1..=5 => Kind::Struct,
        6 | 7 => Kind::Array,
        8 => Kind::Hybrid,
        9 => Kind::Void,
        10..=12 => Kind::Ref,
        13 => Kind::Iref,
        14 => Kind::FuncRef,
        15 => match dice.roll(2) {
            0 => Kind::StackRef,
            _ => Kind::ThreadRef,
        },
        _ => Kind::Sig,
    }
}

fn drawn_number(dice: &mut Dice, kind: Kind) -> u128 {
    match kind {
        Kind::Int => match dice.roll(12) {
            0 => 12,
            1 => 0,
            2 | 3 => 1,
            4..=6 => 8,
            _ => 64,
        },
        Kind::Array => match dice.roll(12) {
            0 => 0,
            1 => 4097,
            2..=4 => 4096,
            5..=8 => 2,
            _ => 1,
        },
        _ => 0,
    }
}

fn drawn_arity(dice: &mut Dice, kind: Kind) -> u32 {
    match kind {
        Kind::Struct | Kind::Sig => dice.roll(4),
        Kind::Hybrid => dice.roll(3).wrapping_add(1),
        Kind::Array | Kind::Ref | Kind::Iref | Kind::FuncRef => 1,
        _ => 0,
    }
}

/// A definition over so many. Where `down` is set, parts lead to earlier definitions, so that no type contains itself.
fn drawn_shape(
    alloc: Global,
    dice: &mut Dice,
    many: u32,
    own: u32,
    down: bool,
) -> Result<Shape, AllocError> {
    let kind = match drawn_kind(dice) {
        Kind::Struct | Kind::Array | Kind::Hybrid if down && own == 0 => Kind::Int,
        kind => kind,
    };
    let number = drawn_number(dice, kind);
    let arity = drawn_arity(dice, kind);
    let is_whole = matches!(kind, Kind::Struct | Kind::Array | Kind::Hybrid);
    let mut arguments: Vec<u32> = Vec::new(alloc);
    for _ in 0..arity {
        let argument = dice.roll(if down && is_whole { own } else { many });
        arguments.push(argument)?;
    }
    let arity = arguments.len();
    let front = match kind {
        Kind::Sig => dice.roll(4) as usize,
        Kind::Hybrid => arity.wrapping_sub(1),
        _ => arity,
    };
    let front = if front < arity { front } else { arity };
    Ok(Shape {
        kind,
        number,
        arguments,
        front,
    })
}

/// The written definitions of a graph.
pub fn drawn(alloc: Global, dice: &mut Dice) -> Result<Vec<Shape>, AllocError> {
    let many = dice.roll(8).wrapping_add(1);
    let down = dice.roll(3) != 0;
    let mut shapes: Vec<Shape> = Vec::new(alloc);
    for own in 0..many {
        shapes.push(drawn_shape(alloc, dice, many, own, down)?)?;
    }
    Ok(shapes)
}

/// The place of the name of a definition; those of its arguments follow.
fn place_of_name(t: usize) -> usize {
    t.wrapping_mul(100).wrapping_add(7)
}

fn members(
    alloc: Global,
    list: &[u32],
    from: usize,
    to: usize,
) -> Result<Listing<u32>, AllocError> {
    let mut all = Listing::new(alloc);
    for i in from..to {
        all.push(number_at(list, i))?;
    }
    Ok(all)
}

fn definition(alloc: Global, shape: &Shape) -> Result<TypeDef, AllocError> {
    let list = &shape.arguments;
    let arity = list.len();
    let only = number_at(list, 0);
    let made = match shape.kind {
        Kind::Int => TypeDef::Int {
            width: shape.number,
        },
        Kind::Struct => TypeDef::Struct {
            fields: members(alloc, list, 0, arity)?,
        },
        Kind::Array => TypeDef::Array {
            element: only,
            length: shape.number,
        },
        Kind::Hybrid => TypeDef::Hybrid {
            fixed: members(alloc, list, 0, shape.front)?,
            element: number_at(list, shape.front),
        },
        Kind::Void => TypeDef::Void,
        Kind::Ref => TypeDef::Ref(only),
        Kind::Iref => TypeDef::Iref(only),
        Kind::FuncRef => TypeDef::FuncRef(only),
        Kind::StackRef => TypeDef::StackRef,
        Kind::ThreadRef => TypeDef::ThreadRef,
        Kind::Sig => TypeDef::Sig {
            takes: members(alloc, list, 0, shape.front)?,
            gives: members(alloc, list, shape.front, arity)?,
        },
    };
    Ok(made)
}

/// The graph of those definitions.
pub fn graph_of(alloc: Global, shapes: &[Shape]) -> Result<Sketch, AllocError> {
    let mut graph = Sketch::new(alloc);
    for t in 0..shapes.len() {
        let mut places = Listing::new(alloc);
        for k in 0..10usize {
            places.push((place_of_name(t).wrapping_add(k) % 65536) as u32)?;
        }
        graph.add(definition(alloc, &shapes[t])?, places)?;
    }
    Ok(graph)
}

fn plain_shape(alloc: Global, kind: Kind, number: u128) -> Shape {
    Shape {
        kind,
        number,
        arguments: Vec::new(alloc),
        front: 0,
    }
}

fn reference(alloc: Global, kind: Kind, to: usize) -> Result<Shape, AllocError> {
    let mut arguments: Vec<u32> = Vec::new(alloc);
    arguments.push((to % 65536) as u32)?;
    Ok(Shape {
        kind,
        number: 0,
        arguments,
        front: 1,
    })
}

/// Adds the implied types.
pub fn complete(alloc: Global, shapes: &mut Vec<Shape>) -> Result<(), AllocError> {
    let written = shapes.len();
    shapes.push(plain_shape(alloc, Kind::Void, 0))?;
    shapes.push(plain_shape(alloc, Kind::Int, 1))?;
    shapes.push(plain_shape(alloc, Kind::Int, 32))?;
    shapes.push(plain_shape(alloc, Kind::StackRef, 0))?;
    shapes.push(plain_shape(alloc, Kind::ThreadRef, 0))?;
    for t in 0..shapes.len() {
        if t > written {
            break;
        }
        if t < shapes.len() && shapes[t].kind == Kind::Sig {
            shapes.push(reference(alloc, Kind::FuncRef, t)?)?;
        } else {
            shapes.push(reference(alloc, Kind::Ref, t)?)?;
            shapes.push(reference(alloc, Kind::Iref, t)?)?;
        }
    }
    Ok(())
}

fn is_part(shapes: &[Shape], t: u32) -> bool {
    let t = t as usize;
    t < shapes.len() && shapes[t].kind != Kind::Void && shapes[t].kind != Kind::Hybrid
}

// the number of the first argument that is not allowed, counted from 1
fn wrong_argument(shapes: &[Shape], shape: &Shape) -> Option<usize> {
    match shape.kind {
        Kind::Int => match shape.number {
            1 | 8 | 16 | 32 | 64 => None,
            _ => Some(1),
        },
        Kind::Struct | Kind::Array | Kind::Hybrid => {
            let mut k: usize = 0;
            for argument in &shape.arguments {
                k = k.wrapping_add(1);
                if !is_part(shapes, *argument) {
                    return Some(k);
                }
            }
            if shape.kind == Kind::Array && (shape.number < 1 || 4096 < shape.number) {
                return Some(k.wrapping_add(1));
            }
            None
        }
        _ => None,
    }
}

fn has_parts(shape: &Shape) -> bool {
    matches!(shape.kind, Kind::Struct | Kind::Array | Kind::Hybrid)
}

// for each pair whether a walk of parts leads from the first to the second
fn reached(alloc: Global, shapes: &[Shape]) -> Result<Vec<bool>, AllocError> {
    let many = shapes.len();
    let mut reached: Vec<bool> = Vec::new(alloc);
    for a in 0..many {
        for b in 0..many {
            let leads = has_parts(&shapes[a])
                && shapes[a].arguments.iter().any(|p| *p as usize == b);
            reached.push(leads)?;
        }
    }
    for middle in 0..many {
        for a in 0..many {
            for b in 0..many {
                let through = flag_at(&reached, pair(many, a, middle))
                    && flag_at(&reached, pair(many, middle, b));
                if through {
                    set_flag(&mut reached, pair(many, a, b), true);
                }
            }
        }
    }
    Ok(reached)
}

fn row_at(rows: &[Vec<u32>], t: u32) -> &[u32] {
    let t = t as usize;
    if t < rows.len() {
        rows[t].as_slice()
    } else {
        &[]
    }
}

fn append(out: &mut Vec<u32>, row: &[u32]) -> Result<(), AllocError> {
    for leaf in row {
        if out.len() < 5000 {
            out.push(*leaf)?;
        }
    }
    Ok(())
}

// the leaves of a definition by those of its parts, some 5,000 at most
fn leaves_by(
    alloc: Global,
    shape: &Shape,
    own: usize,
    rows: &[Vec<u32>],
) -> Result<Vec<u32>, AllocError> {
    let mut out: Vec<u32> = Vec::new(alloc);
    match shape.kind {
        Kind::Struct | Kind::Hybrid => {
            for k in 0..shape.front {
                append(&mut out, row_at(rows, number_at(&shape.arguments, k)))?;
            }
        }
        Kind::Array => {
            for _ in 0..shape.number {
                append(&mut out, row_at(rows, number_at(&shape.arguments, 0)))?;
            }
        }
        Kind::Void | Kind::Sig => {}
        _ => out.push((own % 65536) as u32)?,
    }
    Ok(out)
}

// the leaves of each type, in as many rounds as there are types
fn leaves_of(alloc: Global, shapes: &[Shape]) -> Result<Vec<Vec<u32>>, AllocError> {
    let mut rows: Vec<Vec<u32>> = Vec::new(alloc);
    for _ in 0..shapes.len() {
        let mut next: Vec<Vec<u32>> = Vec::new(alloc);
        for t in 0..shapes.len() {
            next.push(leaves_by(alloc, &shapes[t], t, &rows)?)?;
        }
        rows = next;
    }
    Ok(rows)
}

fn agree(shapes: &[Shape], alike: &[bool], a: &Shape, b: &Shape) -> bool {
    if a.kind != b.kind || a.number != b.number || a.arguments.len() != b.arguments.len() {
        return false;
    }
    if a.kind == Kind::Sig && a.front != b.front {
        return false;
    }
    for k in 0..a.arguments.len() {
        let x = number_at(&a.arguments, k) as usize;
        let y = number_at(&b.arguments, k) as usize;
        if !flag_at(alike, pair(shapes.len(), x, y)) {
            return false;
        }
    }
    true
}

// for each pair whether the two are alike to the depth that is the number of types
fn alike_of(alloc: Global, shapes: &[Shape]) -> Result<Vec<bool>, AllocError> {
    let mut alike: Vec<bool> = Vec::new(alloc);
    for _ in 0..shapes.len() {
        for _ in 0..shapes.len() {
            alike.push(true)?;
        }
    }
    for _ in 0..shapes.len() {
        let mut next: Vec<bool> = Vec::new(alloc);
        for a in shapes {
            for b in shapes {
                next.push(agree(shapes, &alike, a, b))?;
            }
        }
        alike = next;
    }
    Ok(alike)
}

/// What is said of the whole graph, of whose definitions the first so many are written.
pub fn plain_verdict(
    alloc: Global,
    shapes: &[Shape],
    written: usize,
) -> Result<Verdict, AllocError> {
    for t in 0..written {
        if t < shapes.len()
            && let Some(k) = wrong_argument(shapes, &shapes[t])
        {
            return Ok(Verdict::Refused {
                kind: TypeKind::WrongArgument,
                place: place_of_name(t).wrapping_add(k),
            });
        }
    }
    let reached = reached(alloc, shapes)?;
    for t in 0..written {
        if flag_at(&reached, pair(shapes.len(), t, t)) {
            return Ok(Verdict::Refused {
                kind: TypeKind::EndlessType,
                place: place_of_name(t),
            });
        }
    }
    let leaves = leaves_of(alloc, shapes)?;
    for t in 0..written {
        if t < leaves.len() && leaves[t].len() > 4096 {
            return Ok(Verdict::Refused {
                kind: TypeKind::TooManyLeaves,
                place: place_of_name(t),
            });
        }
    }
    let alike = alike_of(alloc, shapes)?;
    Ok(Verdict::Accepted { alike, leaves })
}
