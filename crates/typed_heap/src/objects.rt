// The objects of a heap. Their cells stand in rows, object by object, so that an object takes little more than its cells do.
ghost use Rattle.std.specs.Prelude.{◌≡◌, ◌+◌, ◌-◌, ◌^◌, ◌<◌, ◌≤◌, false, [], ◌∷◌, ◌++◌, Some, length, map, take, slice_get, slice_set, OnOk, OnErr, IsSomeAnd, IfSome, vec_len, vec_capacity};
ghost use Rattle.std.specs.List.{All};
ghost use Rattle.type_definitions.specs.Leaves.{times};
ghost use Rattle.mu_values.specs.Constants.{width_of};
ghost use Rattle.typed_heap.specs.Objects.{object_of, killed, replaced, with_filled};
ghost use Rattle.typed_heap.specs.Heap.{AreNarrow};
ghost use Rattle.typed_heap.specs.Repeating.{Repeats};
ghost use Rattle.typed_heap.specs.Rows.{initial_of, begin, end, first_by, firsts, IsCut, IsKnown, AreOwn};

use mu_types::{Classes, TypeDef};
use mu_values::Scalar;
use std::alloc::{AllocError, Global};
use std::marker::Model;

/// What a cell begins with. A cell that was given nothing keeps no scalar.
#[derive(Clone, Copy, Debug, PartialEq, Eq)]
pub(crate) enum Initial {
    Null,
    /// The integer 0 of that many bits.
    Zero(u32),
    /// One of the scalars that were given, by its number, which no other cell has.
    Given(usize),
}

/// Where the cells of an object end, how their leaves repeat, and whether they are dead. They begin where those of the object before it
/// end.
#[derive(Clone, Copy, Debug, PartialEq, Eq)]
pub(crate) struct Extent {
    pub(crate) end: usize,
    pub(crate) fixed: usize,
    pub(crate) run: usize,
    pub(crate) dead: bool,
}

/// How leaves repeat: behind the first `fixed`, each is the same as the one that stands `run` before it.
#[derive(Clone, Copy, Debug, PartialEq, Eq)]
pub(crate) struct Rhythm {
    pub(crate) fixed: usize,
    pub(crate) run: usize,
}

/// Objects by number. Contracts see them, and `spare`, the number of initial scalars that can be given without a refusal.
#[derive(Drop)]
pub(crate) struct Objects {
    leaves: Vec<u32>,
    initials: Vec<Initial>,
    extents: Vec<Extent>,
    given: Vec<Scalar>,
}

impl Model for Objects {
    ghost use Rattle.std.specs.Prelude.{◌-◌, map, length, vec_len, vec_capacity};
    ghost use Rattle.typed_heap.specs.Repeating.{Repeats};
    ghost use Rattle.typed_heap.specs.Rows.{RoomyObjects, initial_of, objects_in, IsRowed};

    ghost Value = { RoomyObjects };

    ghost view = { λ o. record { objects = objects_in 0 o.extents.items o.leaves.items (map (initial_of o.given.items) o.initials.items); spare = vec_capacity o.given - vec_len o.given } };

    ghost invariant = { λ o. IsRowed o.leaves.items o.initials.items o.extents.items (vec_len o.given) };
}

impl Objects {
    /// No objects. It takes no memory yet.
    pub fn new(alloc: Global) -> Objects
        ensures { result.objects ≡ [] }
    {
        Objects {
            leaves: Vec::new(alloc),
            initials: Vec::new(alloc),
            extents: Vec::new(alloc),
            given: Vec::new(alloc),
        }
    }

    /// How many objects there are.
    pub fn len(&self) -> u32
        ensures { result ≡ length self.now.objects }
    {
        self.extents.len() as u32
    }

    /// The classes of the leaves of an object, fewer than 2^32, and how they repeat, in constant time.
    pub fn leaves(&self, n: u32) -> (&[u32], Rhythm)
        requires { n < length self.now.objects }
        ensures leaves { IsSomeAnd (slice_get self.now.objects n) (λ o. o.leaves ≡ result.0.now) }
        ensures initials { IsSomeAnd (slice_get self.now.objects n) (λ o. length o.initial ≡ length result.0.now) }
        ensures few { length result.0.now < 2 ^ 32 }
        ensures repeats { Repeats result.1.fixed result.1.run result.0.now }
    {
        let (begin, end) = bounds(&self.leaves, &self.extents, n as usize);
        let Extent { fixed, run, .. } = self.extents[n as usize];
        (&self.leaves[begin..end], Rhythm { fixed, run })
    }

    /// How many cells an object has, in constant time.
    pub fn size(&self, n: u32) -> u32
        requires { n < length self.now.objects }
        ensures leaves { IsSomeAnd (slice_get self.now.objects n) (λ o. length o.leaves ≡ result) }
        ensures initials { IsSomeAnd (slice_get self.now.objects n) (λ o. length o.initial ≡ result) }
    {
        self.leaves(n).0.len() as u32
    }

    /// Whether the cells of an object are dead.
    pub fn is_dead(&self, n: u32) -> bool
        requires { n < length self.now.objects }
        ensures { IsSomeAnd (slice_get self.now.objects n) (λ o. o.dead ≡ result) }
    {
        self.extents[n as usize].dead
    }

    /// What a cell begins with, in constant time.
    pub fn initial(&self, n: u32, at: u32) -> Scalar
        requires { IsSomeAnd (slice_get self.now.objects n) (λ o. at < length o.leaves) }
        ensures { IsSomeAnd (slice_get self.now.objects n) (λ o. slice_get o.initial at ≡ Some result) }
    {
        let (begin, _) = bounds(&self.leaves, &self.extents, n as usize);
        shown(&self.given, self.initials[begin + at as usize])
    }

    /// Adds an object with these leaves, the second list that many times over. Where no memory is found all objects are as before.
    /// It takes time and memory for the leaves.
    pub fn push(
        &mut self,
        classes: &Classes,
        fixed: &[u32],
        run: &[u32],
        count: usize,
    ) -> Result<(), AllocError>
        requires narrow { AreNarrow classes.now.definitions }
        requires leaves { All (λ c. c < length classes.now.definitions) (fixed.now ++ times count run.now) }
        requires small { length (fixed.now ++ times count run.now) < 2 ^ 32 }
        requires few { length self.old.objects + 1 < 2 ^ 32 }
        ensures ok { OnOk result (self.new.objects ≡ self.old.objects ++ object_of classes.now.definitions (fixed.now ++ times count run.now) ∷ []) }
        ensures err { OnErr result (self.new.objects ≡ self.old.objects) }
        ensures spare { self.new.spare ≡ self.old.spare }
    {
        let begin = self.leaves.len();
        match append_object(
            &mut self.leaves,
            &mut self.initials,
            &mut self.extents,
            classes,
            Added { fixed, run, count },
        ) {
            Ok(()) => Ok(()),
            Err(refused) => {
                self.leaves.truncate(begin);
                self.initials.truncate(begin);
                Err(refused)
            }
        }
    }

    /// Takes the newest object away, in constant time.
    pub fn pop(&mut self)
        requires { 0 < length self.old.objects }
        ensures objects { self.new.objects ≡ take (length self.old.objects - 1) self.old.objects }
        ensures spare { self.new.spare ≡ self.old.spare }
    {
        let begin = begin_of(&self.extents, self.extents.len() - 1);
        self.extents.pop();
        self.leaves.truncate(begin);
        self.initials.truncate(begin);
    }

    /// The cells of an object are dead from now on.
    pub fn kill(&mut self, n: u32)
        requires { n < length self.old.objects }
        ensures objects { IfSome (slice_get self.old.objects n) (λ o. self.new.objects ≡ slice_set self.old.objects n (killed o)) }
        ensures spare { self.new.spare ≡ self.old.spare }
    {
        self.extents[n as usize].dead = true;
    }

    /// Makes room for that many further initial scalars. A refusal leaves the objects as they were.
    pub fn reserve(&mut self, more: usize) -> Result<(), AllocError>
        ensures objects { self.new.objects ≡ self.old.objects }
        ensures room { OnOk result (more ≤ self.new.spare) }
        ensures spare { self.old.spare ≤ self.new.spare }
    {
        self.given.reserve(more)
    }

    /// Gives cells of an object their initial scalars, from an offset on, into room that is there. It takes constant time for each. A cell
    /// that is given one again takes no more memory.
    pub fn give_all(&mut self, n: u32, at: u32, scalars: &[Scalar])
        requires there { IsSomeAnd (slice_get self.old.objects n) (λ o. at + length scalars.now ≤ length o.leaves) }
        requires room { length scalars.now ≤ self.old.spare }
        ensures objects { self.new.objects ≡ with_filled self.old.objects n at scalars.now (slice_get self.old.objects n) }
        ensures spare { self.old.spare ≤ self.new.spare + length scalars.now }
    {
        let (begin, _) = bounds(&self.leaves, &self.extents, n as usize);
        let from = begin + at as usize;
        give_cells(&mut self.initials, &mut self.given, from, scalars);
    }
}

/// Where the cells of an object begin and end.
fn bounds(leaves: &[u32], extents: &[Extent], n: usize) -> (usize, usize)
    requires rows { IsCut 0 extents.now (length leaves.now) }
    requires n { n < length extents.now }
    ensures begin { result.0 ≡ begin 0 extents.now n }
    ensures end { result.1 ≡ end extents.now n }
    ensures order { result.0 ≤ result.1 }
    ensures within { result.1 ≤ length leaves.now }
    ensures few { result.1 - result.0 < 2 ^ 32 }
{
    (begin_of(extents, n), extents[n].end)
}

fn begin_of(extents: &[Extent], n: usize) -> usize
    requires { n ≤ length extents.now }
    ensures { result ≡ begin 0 extents.now n }
{
    if n == 0 { 0 } else { extents[n - 1].end }
}

/// The scalar that a cell begins with.
fn shown(given: &[Scalar], initial: Initial) -> Scalar
    requires { IsKnown (length given.now) initial }
    ensures { result ≡ initial_of given.now initial }
{
    match initial {
        Initial::Null => Scalar::Null,
        Initial::Zero(width) => Scalar::Int { width, bits: 0 },
        Initial::Given(number) => given[number],
    }
}

/// Gives cells their initial scalars, from one on, into room that is there.
fn give_cells(initials: &mut [Initial], given: &mut Vec<Scalar>, from: usize, scalars: &[Scalar])
    requires cells { from + length scalars.now ≤ length initials.old }
    requires own { AreOwn initials.old (length given.old.items) }
    requires room { length scalars.now ≤ vec_capacity given.old - vec_len given.old }
    ensures cells { length initials.new ≡ length initials.old }
    ensures own { AreOwn initials.new (length given.new.items) }
    ensures begins { map (initial_of given.new.items) initials.new ≡ replaced (map (initial_of given.old.items) initials.old) from scalars.now }
    ensures room { vec_capacity given.old - vec_len given.old ≤ vec_capacity given.new - vec_len given.new + length scalars.now }
{
    for i in 0..scalars.len() {
        give_cell(initials, given, from + i, &scalars[i..i + 1]);
    }
}

/// Gives a cell its initial scalar, which is the only one of a list, into room that is there. A list is copied as a whole, where a scalar
/// that is passed by value is taken apart.
fn give_cell(initials: &mut [Initial], given: &mut Vec<Scalar>, cell: usize, scalars: &[Scalar])
    requires one { length scalars.now ≡ 1 }
    requires cell { cell < length initials.old }
    requires own { AreOwn initials.old (length given.old.items) }
    requires room { 0 < vec_capacity given.old - vec_len given.old }
    ensures cells { length initials.new ≡ length initials.old }
    ensures own { AreOwn initials.new (length given.new.items) }
    ensures begins { map (initial_of given.new.items) initials.new ≡ replaced (map (initial_of given.old.items) initials.old) cell scalars.now }
    ensures room { vec_capacity given.old - vec_len given.old ≤ vec_capacity given.new - vec_len given.new + 1 }
{
    match initials[cell] {
        // No other cell has this number.
        Initial::Given(number) => given[number..number + 1].copy_from_slice(scalars),
        Initial::Null | Initial::Zero(_) => give_first(initials, given, cell, scalars[0]),
    }
}

/// Gives a cell a scalar with a number of its own, into room that is there.
fn give_first(initials: &mut [Initial], given: &mut Vec<Scalar>, cell: usize, scalar: Scalar)
    requires cell { cell < length initials.old }
    requires own { AreOwn initials.old (length given.old.items) }
    requires room { 0 < vec_capacity given.old - vec_len given.old }
    ensures cells { length initials.new ≡ length initials.old }
    ensures own { AreOwn initials.new (length given.new.items) }
    ensures begins { map (initial_of given.new.items) initials.new ≡ slice_set (map (initial_of given.old.items) initials.old) cell scalar }
    ensures room { vec_capacity given.old - vec_len given.old ≤ vec_capacity given.new - vec_len given.new + 1 }
{
    let number = given.len();
    given.push(scalar).unwrap();
    initials[cell] = Initial::Given(number);
}

/// What a new cell of a leaf begins with.
fn first(definition: &TypeDef) -> Initial
    requires { IfSome (width_of (Some definition.now)) (λ width. width < 2 ^ 32) }
    ensures { result ≡ first_by (width_of (Some definition.now)) }
{
    match definition {
        TypeDef::Int { width } => Initial::Zero(*width as u32),
        _ => Initial::Null,
    }
}

/// Adds a list that many times over. Where no memory is found, what was there is still first.
fn append_times(leaves: &mut Vec<u32>, run: &[u32], count: usize) -> Result<(), AllocError>
    ensures ok { OnOk result (leaves.new.items ≡ leaves.old.items ++ times count run.now) }
    ensures kept { take (length leaves.old.items) leaves.new.items ≡ leaves.old.items }
{
    for i in 0..count {
        leaves.extend_from_slice(run)?;
    }
    Ok(())
}

/// Adds what new cells begin with. Where no memory is found, what was there is still first.
fn append_firsts(
    initials: &mut Vec<Initial>,
    classes: &Classes,
    leaves: &[u32],
) -> Result<(), AllocError>
    requires narrow { AreNarrow classes.now.definitions }
    requires leaves { All (λ c. c < length classes.now.definitions) leaves.now }
    ensures ok { OnOk result (initials.new.items ≡ initials.old.items ++ firsts classes.now.definitions leaves.now) }
    ensures kept { take (length initials.old.items) initials.new.items ≡ initials.old.items }
{
    for class in leaves {
        initials.push(first(classes.definition(*class)))?;
    }
    Ok(())
}

/// The leaves of an object that is added: some, and then others so many times over.
#[derive(Clone, Copy)]
struct Added<'a> {
    /// The classes of the first leaves.
    fixed: &'a [u32],
    /// The classes of the leaves that repeat behind them.
    run: &'a [u32],
    /// How many times these stand there.
    count: usize,
}

/// Adds an object to the rows. Where no memory is found, what was there is still first, and there is no object more.
fn append_object(
    leaves: &mut Vec<u32>,
    initials: &mut Vec<Initial>,
    extents: &mut Vec<Extent>,
    classes: &Classes,
    added: Added<'_>,
) -> Result<(), AllocError>
    requires narrow { AreNarrow classes.now.definitions }
    requires leaves { All (λ c. c < length classes.now.definitions) (added.fixed.now ++ times added.count added.run.now) }
    ensures leaves { OnOk result (leaves.new.items ≡ leaves.old.items ++ (added.entry.fixed.now ++ times added.entry.count added.entry.run.now)) }
    ensures initials { OnOk result (initials.new.items ≡ initials.old.items ++ firsts classes.now.definitions (added.entry.fixed.now ++ times added.entry.count added.entry.run.now)) }
    ensures extents { OnOk result (extents.new.items ≡ extents.old.items ++ record { end = length leaves.old.items + length (added.entry.fixed.now ++ times added.entry.count added.entry.run.now); fixed = length added.entry.fixed.now; run = length added.entry.run.now; dead = false } ∷ []) }
    ensures leaves_kept { take (length leaves.old.items) leaves.new.items ≡ leaves.old.items }
    ensures initials_kept { take (length initials.old.items) initials.new.items ≡ initials.old.items }
    ensures extents_kept { OnErr result (extents.new.items ≡ extents.old.items) }
{
    let begin = leaves.len();
    leaves.extend_from_slice(added.fixed)?;
    append_times(leaves, added.run, added.count)?;
    append_firsts(initials, classes, &leaves[begin..])?;
    extents.push(Extent {
        end: leaves.len(),
        fixed: added.fixed.len(),
        run: added.run.len(),
        dead: false,
    })?;
    Ok(())
}
