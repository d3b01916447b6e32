// Lists of values.
ghost use Rattle.std.specs.Prelude.{◌≡◌, ◌+◌, ◌<◌, ◌≤◌, [], ◌∷◌, ◌++◌, Some, length, slice_get, slice_range, OnOk, OnErr, ◌⊎◌};
ghost use Rattle.mu_values.specs.Rooms.{scalars_in, HasRoomFor};
ghost use Rattle.mu_values.specs.Slots.{cut, IsCut, begin};

use crate::scalars::{Scalar, Value};
use mu_base::Types;
use std::alloc::{AllocError, Global};
use std::marker::Model;

/// A list of values, whose scalars stand in one row. Contracts see the values, and two numbers that tell how much `push` takes
/// without a refusal: `spare` further values with `spare_scalars` scalars in all. It keeps its allocator, so only `new` asks for one.
#[derive(Drop)]
pub struct Slots {
    scalars: Vec<Scalar>,
    ends: Vec<usize>,
}

impl Model for Slots {
    ghost use Rattle.std.specs.Prelude.{◌-◌, length, vec_len, vec_capacity};
    ghost use Rattle.mu_values.specs.Slots.{cut, IsCut, RoomyValues};

    ghost Value = { RoomyValues };

    ghost view = { λ s. record { values = cut 0 s.ends.items s.scalars.items; spare = vec_capacity s.ends - vec_len s.ends; spare_scalars = vec_capacity s.scalars - vec_len s.scalars } };

    ghost invariant = { λ s. IsCut 0 s.ends.items (length s.scalars.items) };
}

impl Slots {
    /// No values. It takes no memory yet.
    pub fn new(alloc: Global) -> Slots
        ensures { result.values ≡ [] }
    {
        Slots {
            scalars: Vec::new(alloc),
            ends: Vec::new(alloc),
        }
    }

    /// How many values there are.
    pub fn len(&self) -> usize
        ensures { result ≡ length self.now.values }
    {
        self.ends.len()
    }

    /// The value with that number, counted from 0. It is looked up in constant time.
    pub fn at(&self, n: usize) -> &[Scalar]
        requires { n < length self.now.values }
        ensures { slice_get self.now.values n ≡ Some result.now }
    {
        let (begin, end) = bounds(&self.scalars, &self.ends, n);
        &self.scalars[begin..end]
    }

    /// How many scalars all values have.
    fn scalar_count(&self) -> usize
        ensures { result ≡ scalars_in self.now.values }
    {
        self.scalars.len()
    }

    /// Makes room for that many further values with so many scalars in all. A refusal leaves the values as they were.
    pub fn reserve(&mut self, more: usize, scalars: usize) -> Result<(), AllocError>
        ensures values { self.new.values ≡ self.old.values }
        ensures spare { OnOk result (more ≤ self.new.spare) }
        ensures scalars { OnOk result (scalars ≤ self.new.spare_scalars) }
    {
        self.ends.reserve(more)?;
        self.scalars.reserve(scalars)
    }

    /// Adds a value at the end. It is refused only where there is no room for one more value or for its scalars, and leaves the
    /// values as they were. It takes time for the scalars of the value.
    pub fn push(&mut self, member: Value) -> Result<(), AllocError>
        ensures ok { OnOk result (self.new.values ≡ self.old.values ++ member.members ∷ []) }
        ensures err { OnErr result (self.new.values ≡ self.old.values) }
        ensures refused { OnErr result ((self.old.spare ≡ 0) ⊎ (self.old.spare_scalars < length member.members)) }
        ensures spare { self.old.spare ≤ self.new.spare + 1 }
        ensures scalars { self.old.spare_scalars ≤ self.new.spare_scalars + length member.members }
    {
        self.push_slice(member.as_slice())
    }

    /// Adds a value of one scalar at the end. It is refused only where there is no room for one more value or for a scalar, and
    /// leaves the values as they were.
    #[inline(always)]
    pub fn push_scalar(&mut self, scalar: Scalar) -> Result<(), AllocError>
        ensures ok { OnOk result (self.new.values ≡ self.old.values ++ (scalar ∷ []) ∷ []) }
        ensures err { OnErr result (self.new.values ≡ self.old.values) }
        ensures refused { OnErr result ((self.old.spare ≡ 0) ⊎ (self.old.spare_scalars ≡ 0)) }
        ensures spare { self.old.spare ≤ self.new.spare + 1 }
        ensures scalars { self.old.spare_scalars ≤ self.new.spare_scalars + 1 }
    {
        self.scalars.reserve(1)?;
        let end = self.scalars.len() + 1;
        self.ends.push(end)?;
        self.scalars.push(scalar)?;
        Ok(())
    }

    /// Adds a value at the end that is given by its scalars. It is refused only where there is no room for one more value or for its
    /// scalars, and leaves the values as they were. It takes time for the scalars of the value.
    #[inline]
    pub fn push_slice(&mut self, member: &[Scalar]) -> Result<(), AllocError>
        ensures ok { OnOk result (self.new.values ≡ self.old.values ++ member.now ∷ []) }
        ensures err { OnErr result (self.new.values ≡ self.old.values) }
        ensures refused { OnErr result ((self.old.spare ≡ 0) ⊎ (self.old.spare_scalars < length member.now)) }
        ensures spare { self.old.spare ≤ self.new.spare + 1 }
        ensures scalars { self.old.spare_scalars ≤ self.new.spare_scalars + length member.now }
    {
        match member {
            [only] => self.push_scalar(*only),
            _ => self.push_scalars(member),
        }
    }

    /// Adds a value of none or many scalars, out of the way of those that have one.
    #[cold]
    #[inline(never)]
    fn push_scalars(&mut self, member: &[Scalar]) -> Result<(), AllocError>
        ensures ok { OnOk result (self.new.values ≡ self.old.values ++ member.now ∷ []) }
        ensures err { OnErr result (self.new.values ≡ self.old.values) }
        ensures refused { OnErr result ((self.old.spare ≡ 0) ⊎ (self.old.spare_scalars < length member.now)) }
        ensures spare { self.old.spare ≤ self.new.spare + 1 }
        ensures scalars { self.old.spare_scalars ≤ self.new.spare_scalars + length member.now }
    {
        self.scalars.reserve(member.len())?;
        let end = self.scalars.len() + member.len();
        self.ends.push(end)?;
        self.scalars.extend_from_slice(member)?;
        Ok(())
    }

    /// Makes room for the values of another list. A refusal leaves the values as they were.
    pub fn reserve_for(&mut self, more: &Slots) -> Result<(), AllocError>
        ensures values { self.new.values ≡ self.old.values }
        ensures room { OnOk result (HasRoomFor self.new more.now.values) }
    {
        self.reserve(more.len(), more.scalar_count())
    }

    /// Adds the values of another list, for which there is room, behind its own.
    pub fn append_reserved(&mut self, more: &Slots)
        requires { HasRoomFor self.old more.now.values }
        ensures { self.new.values ≡ self.old.values ++ more.now.values }
    {
        for n in 0..more.len() {
            match self.push_slice(more.at(n)) {
                Ok(()) => {}
                Err(_) => unreachable!(),
            }
        }
    }

    /// Adds the values of another list behind its own. A refusal leaves the values as they were.
    pub fn append(&mut self, more: &Slots) -> Result<(), AllocError>
        ensures ok { OnOk result (self.new.values ≡ self.old.values ++ more.now.values) }
        ensures err { OnErr result (self.new.values ≡ self.old.values) }
    {
        self.reserve_for(more)?;
        self.append_reserved(more);
        Ok(())
    }

    /// Takes all values out. The room stays, so that as many values with as many scalars may come again without a refusal.
    pub fn clear(&mut self)
        ensures values { self.new.values ≡ [] }
        ensures spare { self.old.spare ≤ self.new.spare }
        ensures scalars { self.old.spare_scalars ≤ self.new.spare_scalars }
    {
        self.scalars.clear();
        self.ends.clear();
    }
}

/// Where value n begins.
fn begin_of(ends: &[usize], n: usize) -> usize
    requires { n < length ends.now }
    ensures { result ≡ begin 0 ends.now n }
{
    if n == 0 { 0 } else { ends[n - 1] }
}

/// Where value n begins and ends.
fn bounds(scalars: &[Scalar], ends: &[usize], n: usize) -> (usize, usize)
    requires row { IsCut 0 ends.now (length scalars.now) }
    requires n { n < length ends.now }
    ensures order { result.0 ≤ result.1 }
    ensures within { result.1 ≤ length scalars.now }
    ensures value { slice_get (cut 0 ends.now scalars.now) n ≡ Some (slice_range scalars.now result.0 result.1) }
{
    (begin_of(ends, n), ends[n])
}

/// Values with their types, one type for each value. Contracts see the classes of the types, and the values.
#[derive(Drop)]
pub struct Passed {
    types: Types,
    values: Slots,
}

impl Model for Passed {
    ghost use Rattle.std.specs.Prelude.{◌≡◌, length};
    ghost use Rattle.mu_values.specs.Slots.{TypedValues};

    ghost Value = { TypedValues };

    ghost view = { λ p. record { types = p.types.members; values = p.values.values } };

    ghost invariant = { λ p. length p.types.members ≡ length p.values.values };
}

impl Passed {
    /// Values with their types.
    pub fn new(types: Types, values: Slots) -> Passed
        requires { length types.members ≡ length values.values }
        ensures types { result.types ≡ types.members }
        ensures values { result.values ≡ values.values }
    {
        Passed { types, values }
    }

    /// The classes of the types.
    pub fn types(&self) -> &Types
        ensures is { result.now.members ≡ self.now.types }
        ensures even { length self.now.types ≡ length self.now.values }
    {
        &self.types
    }

    /// The values.
    pub fn values(&self) -> &Slots
        ensures is { result.now.values ≡ self.now.values }
        ensures even { length self.now.types ≡ length self.now.values }
    {
        &self.values
    }

    /// The types and the values.
    pub fn into_parts(self) -> (Types, Slots)
        ensures types { result.0.members ≡ self.types }
        ensures values { result.1.values ≡ self.values }
        ensures even { length self.types ≡ length self.values }
    {
        (self.types, self.values)
    }

    /// Takes all values and their types out. The room stays.
    pub fn clear(&mut self)
        ensures types { self.new.types ≡ [] }
        ensures values { self.new.values ≡ [] }
    {
        self.types.clear();
        self.values.clear();
    }
}
