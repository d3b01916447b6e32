// Moving types from block to block.

ghost use Rattle.std.specs.Prelude.{◌≡◌, ℕ, ◌<◌, length, map, slice_index, slice_set, IfOk, OnOk};
ghost use Rattle.std.specs.List.{All, Contains};
ghost use Rattle.type_classes.specs.Blocks.{Listed, HaveMoved, OthersStay};
ghost use Rattle.mu_types.specs.Rows.{lists};

use super::rows::{at, push_to, put};
use std::alloc::AllocError;

fn goals_of(
    block: &[usize],
    touched: &[usize],
    target: &[usize],
    goals: &mut Vec<usize>,
) -> Result<(), AllocError>
    ensures { OnOk result (goals.new.items ≡ map (λ x. slice_index target.now (slice_index block.now x)) touched.now) }
{
    goals.clear();
    for x in touched {
        goals.push(at(target, at(block, *x)))?;
    }
    Ok(())
}

// where the type is in that block already, it need not be listed again
#[tactic(auto, using(crate::proofs::BlockLemmas::set_same))]
fn move_one(
    block: &mut [usize],
    members: &mut [Vec<usize>],
    x: usize,
    to: usize,
) -> Result<(), AllocError>
    requires x { x < length block.old }
    requires to { to < length members.old }
    ensures rows { length members.new ≡ length members.old }
    ensures moved { block.new ≡ slice_set block.old x to }
    ensures listed { OnOk result (Listed block.old (lists members.old) → Listed block.new (lists members.new)) }
{
    if at(block, x) != to {
        put(block, x, to);
        push_to(members, to, x)?;
    }
    Ok(())
}

/// Moves each of those touched to the target of its block. `goals` is room for the work.
pub fn move_all(
    block: &mut [usize],
    members: &mut [Vec<usize>],
    touched: &[usize],
    target: &[usize],
    goals: &mut Vec<usize>,
) -> Result<(), AllocError>
    requires range { (k : ℕ) → k < length touched.now → slice_index touched.now k < length block.old }
    requires target { (b : ℕ) → slice_index target.now b < length members.old }
    ensures rows { length members.new ≡ length members.old }
    ensures moved { OnOk result (HaveMoved block.old touched.now target.now (length touched.now) block.new) }
    ensures rest { OnOk result (OthersStay block.old touched.now (length touched.now) block.new) }
    ensures listed { OnOk result (Listed block.old (lists members.old) → Listed block.new (lists members.new)) }
{
    goals_of(block, touched, target, goals)?;
    for i in 0..touched.len() {
        let x = touched[i];
        let to = at(goals, i);
        move_one(block, members, x, to)?;
    }
    Ok(())
}
