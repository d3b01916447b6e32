// Making the values of constants.
ghost use Rattle.std.specs.Prelude.{◌≡◌, ◌≢◌, ℕ, ◌<◌, ◌≤◌, ◌^◌, [], ◌∷◌, ◌++◌, Some, None, length, slice_get, IfOk, IfSome, OnOk, OnErr};
ghost use Rattle.std.specs.List.{flat_map};
ghost use Rattle.mu_values.specs.Constants.{width_of, number_bits, number_value, constant_value, scalars_of, value_at};

use crate::constants::int_width;
use crate::integers::{low_bits, negated};
use crate::literals::{Literal, LiteralKind};
use crate::scalars::{Scalar, Value};
use mu_base::Items;
use mu_types::Classes;
use std::alloc::{AllocError, Global};
use std::collections::BTreeMap;

/// The values of constants that are made, by number.
#[derive(Drop)]
pub struct Made {
    values: BTreeMap<u32, Value>,
}

impl Made {
    /// No values. It takes no memory yet.
    pub fn new(alloc: Global) -> Made
        ensures { (n : ℕ) → value_at result n ≡ [] }
    {
        Made {
            values: BTreeMap::new(alloc),
        }
    }

    /// Gives constant `n` its value. Where no memory is found all values are as before. It takes a logarithm of their number.
    pub fn add(&mut self, n: u32, value: Value) -> Result<(), AllocError>
        ensures added { OnOk result (value_at self.new n ≡ value.members) }
        ensures others { OnOk result ((k : ℕ) → k ≢ n → value_at self.new k ≡ value_at self.old k) }
        ensures err { OnErr result ((k : ℕ) → value_at self.new k ≡ value_at self.old k) }
    {
        match self.values.insert(n, value) {
            Ok(_) => Ok(()),
            Err(_) => Err(AllocError),
        }
    }

    /// The value of constant `n`; it is empty where none is made.
    pub fn value(&self, n: u32) -> &[Scalar]
        ensures { result.now ≡ value_at self.now n }
    {
        match self.values.get(&n) {
            Some(value) => value.as_slice(),
            None => &[],
        }
    }

    /// Takes the value of constant `n` out, where it is made. It takes a logarithm of their number, and no memory.
    pub fn take(&mut self, n: u32) -> Option<Value>
        ensures value { scalars_of result ≡ value_at self.old n }
        ensures gone { value_at self.new n ≡ [] }
        ensures others { (k : ℕ) → k ≢ n → value_at self.new k ≡ value_at self.old k }
    {
        self.values.remove(&n)
    }
}

fn one(alloc: Global, scalar: Scalar) -> Result<Value, AllocError>
    ensures { IfOk result (λ v. v.members ≡ scalar ∷ []) }
{
    // Most constants are one scalar: room for more would spread a bundle's constants over four times the memory.
    let mut scalars = Vec::with_capacity(alloc, 1)?;
    scalars.push(scalar)?;
    Ok(Items::from_vec(scalars))
}

#[tactic(auto, using(crate::specs::Lemmas::Signed::bits_neg_low))]
fn bits_of_number(width: u32, negative: bool, magnitude: u128) -> u128
    requires { (1 ≤ width) × (width ≤ 128) }
    ensures { result ≡ number_bits width negative magnitude }
{
    let low = low_bits(width, magnitude);
    if negative { negated(width, low) } else { low }
}

fn number(
    alloc: Global,
    width: Option<u128>,
    negative: bool,
    magnitude: u128,
) -> Result<Value, AllocError>
    requires width { IfSome width (λ w. (1 ≤ w) × (w ≤ 128)) }
    ensures { IfOk result (λ v. v.members ≡ number_value width negative magnitude) }
{
    match width {
        None => Ok(Items::new(alloc)),
        Some(width) => {
            let width = width as u32;
            let bits = bits_of_number(width, negative, magnitude);
            one(alloc, Scalar::Int { width, bits })
        }
    }
}

fn append_value(made: &Made, n: u32, out: &mut Vec<Scalar>) -> Result<(), AllocError>
    ensures { OnOk result (out.new.items ≡ out.old.items ++ value_at made.now n) }
{
    out.extend_from_slice(made.value(n))?;
    Ok(())
}

fn append_each(made: &Made, constants: &[u32], out: &mut Vec<Scalar>) -> Result<(), AllocError>
    ensures { OnOk result (out.new.items ≡ out.old.items ++ flat_map (value_at made.now) constants.now) }
{
    for n in constants {
        append_value(made, *n, out)?;
    }
    Ok(())
}

// The values of some constants one after another. Room for that many scalars is made first, so that a list which has as many is not
// moved as it grows.
fn joined(alloc: Global, made: &Made, constants: &[u32], many: usize) -> Result<Value, AllocError>
    ensures { IfOk result (λ v. v.members ≡ flat_map (value_at made.now) constants.now) }
{
    let mut scalars = Vec::new(alloc);
    scalars.reserve(many)?;
    append_each(made, constants, &mut scalars)?;
    Ok(Items::from_vec(scalars))
}

/// The value of a literal as a constant of its type: of a number the integer of that width, of NULL itself, of a list the scalars
/// of its members, which have to be made before (one that is not made has no scalars). Whether it is one, `judge_const` says: of a
/// number that does not fit only the low bits are kept. An int has 1 to 128 bits, as in every graph that is accepted. It takes
/// memory and time for the scalars that it has.
pub fn make_const(
    alloc: Global,
    classes: &Classes,
    t: u32,
    literal: &Literal,
    made: &Made,
) -> Result<Value, AllocError>
    requires t { t < length classes.now.definitions }
    requires width { IfSome (width_of (slice_get classes.now.definitions t)) (λ w. (1 ≤ w) × (w ≤ 128)) }
    ensures { IfOk result (λ v. v.members ≡ constant_value classes.now.definitions (value_at made.now) t literal.now) }
{
    match &literal.kind {
        LiteralKind::Number {
            negative,
            magnitude,
        } => number(
            alloc,
            int_width(classes.definition(t)),
            *negative,
            *magnitude,
        ),
        LiteralKind::Null => one(alloc, Scalar::Null),
        LiteralKind::Members { constants, .. } => {
            joined(alloc, made, constants.as_slice(), classes.leaves(t).len())
        }
    }
}
