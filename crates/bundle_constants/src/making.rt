// The values of constants are made, those of members before those of what they are members of.
ghost use Rattle.std.specs.Prelude.{◌≡◌, ℕ, ◌<◌, ◌≤◌, true, false, length, map, set, slice_get, vec_len, IfOk, OnOk};
ghost use Rattle.std.specs.List.{All, Contains, list_all};
ghost use Rattle.mu_values.specs.Constants.{value_at};
ghost use Rattle.checked_code.specs.ConstantMembers.{is_made, is_ready, is_ready_at, value_by, value_of, Lawful};
ghost use Rattle.bundle_constants.specs.Making.{IsMaking, AreLeft};

use checked_code::Constant;
use mu_types::Classes;
use mu_values::{LiteralKind, Made, Value, make_const};
use std::alloc::{AllocError, Global};

/// The values that are made, and for each constant whether its value is one of them.
#[derive(Drop)]
pub(crate) struct Making {
    pub made: Made,
    pub done: Vec<bool>,
}

fn is_done(done: &[bool], n: u32) -> bool
    ensures { result ≡ is_made done.now n }
{
    let n = n as usize;
    n < done.len() && done[n]
}

fn are_done(done: &[bool], numbers: &[u32]) -> bool
    ensures { result ≡ list_all (is_made done.now) numbers.now }
{
    numbers.iter().all(|n| is_done(done, *n))
}

fn is_literal_ready(done: &[bool], kind: &LiteralKind) -> bool
    ensures { result ≡ is_ready done.now kind.now }
{
    match kind {
        LiteralKind::Members { constants, .. } => are_done(done, constants.as_slice()),
        _ => true,
    }
}

/// Whether all members of constant `n` are made.
fn is_constant_ready(constants: &[Constant], done: &[bool], n: u32) -> bool
    requires { n < length constants.now }
    ensures { result ≡ is_ready_at done.now (slice_get constants.now n) }
{
    is_literal_ready(done, &constants[n as usize].literal.kind)
}

fn value(
    alloc: Global,
    classes: &Classes,
    constants: &[Constant],
    n: u32,
    made: &Made,
) -> Result<Value, AllocError>
    requires lawful { Lawful classes.now.definitions constants.now }
    requires n { n < length constants.now }
    ensures { IfOk result (λ v. v.members ≡ value_by classes.now.definitions (value_at made.now) (slice_get constants.now n)) }
{
    let constant = &constants[n as usize];
    make_const(alloc, classes, constant.of_type, &constant.literal, made)
}

/// Makes the value of constant `n`, whose members are all made.
fn make(
    alloc: Global,
    classes: &Classes,
    constants: &[Constant],
    n: u32,
    making: &mut Making,
) -> Result<(), AllocError>
    requires lawful { Lawful classes.now.definitions constants.now }
    requires n { n < length constants.now }
    requires making { IsMaking classes.now.definitions constants.now making.old }
    requires ready { is_ready_at making.old.done.items (slice_get constants.now n) ≡ true }
    ensures making { OnOk result (IsMaking classes.now.definitions constants.now making.new) }
    ensures done { OnOk result (making.new.done.items ≡ set making.old.done.items n true) }
{
    let value = value(alloc, classes, constants, n, &making.made)?;
    making.made.add(n, value)?;
    making.done[n as usize] = true;
    Ok(())
}

/// One pass over the constants that are left, from the last on: it makes those whose members are all made, and gives back the others
/// in the opposite order.
fn pass(
    alloc: Global,
    classes: &Classes,
    constants: &[Constant],
    left: Vec<u32>,
    making: &mut Making,
) -> Result<Vec<u32>, AllocError>
    requires lawful { Lawful classes.now.definitions constants.now }
    requires making { IsMaking classes.now.definitions constants.now making.old }
    requires left { AreLeft (length constants.now) making.old.done.items left.items }
    ensures making { OnOk result (IsMaking classes.now.definitions constants.now making.new) }
    ensures left { IfOk result (λ kept. AreLeft (length constants.now) making.new.done.items kept.items) }
    ensures fewer { IfOk result (λ kept. 0 < vec_len left → vec_len kept < vec_len left) }
{
    let mut left = left;
    let mut kept = Vec::new(alloc);
    'each: while let Some(n) = left.pop() {
        if is_constant_ready(constants, &making.done, n) {
            make(alloc, classes, constants, n, making)?;
        } else {
            kept.push(n)?;
        }
    }
    Ok(kept)
}

/// The numbers below `many`.
fn numbers(alloc: Global, many: u32) -> Result<Vec<u32>, AllocError>
    ensures within { IfOk result (λ v. All (λ n. n < many) v.items) }
    ensures all { IfOk result (λ v. (n : ℕ) → n < many → Contains v.items n) }
{
    let mut all = Vec::new(alloc);
    for n in 0..many {
        all.push(n)?;
    }
    Ok(all)
}

fn none_done(alloc: Global, many: u32) -> Result<Vec<bool>, AllocError>
    ensures many { IfOk result (λ v. vec_len v ≡ many) }
    ensures none { IfOk result (λ v. (n : ℕ) → is_made v.items n ≡ false) }
{
    let mut done = Vec::new(alloc);
    for n in 0..many {
        done.push(false)?;
    }
    Ok(done)
}

/// The values of all constants. It takes as many passes over those that are not made yet as members stand in turns before and behind
/// what they are members of: at most two where each stands before, or each behind.
pub(crate) fn make_all(
    alloc: Global,
    classes: &Classes,
    constants: &[Constant],
    many: u32,
) -> Result<Made, AllocError>
    requires lawful { Lawful classes.now.definitions constants.now }
    requires many { many ≡ length constants.now }
    ensures { IfOk result (λ made. (n : ℕ) → n < many → value_at made n ≡ value_of classes.now.definitions constants.now n) }
{
    let mut left = numbers(alloc, many)?;
    let mut making = Making {
        made: Made::new(alloc),
        done: none_done(alloc, many)?,
    };
    'pass: while !left.is_empty() {
        left = pass(alloc, classes, constants, left, &mut making)?;
    }
    Ok(making.made)
}
