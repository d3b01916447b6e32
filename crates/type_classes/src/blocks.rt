// The first blocks: types of one constructor, one number and equally many arguments are together.
ghost use Rattle.std.specs.Prelude.{◌≡◌, ℕ, ◌+◌, ◌*◌, ◌^◌, ◌%◌, ◌<◌, ◌≤◌, [], Some, length, map, cond, nat_lt, slice_get, slice_index, slice_index_or, vec_len, IfOk, OnOk};
ghost use Rattle.type_definitions.specs.Definition.{constructor, number, arguments};
ghost use Rattle.type_definitions.specs.Partition.{Keeps, arg};
ghost use Rattle.type_definitions.specs.Same.{IsGraph};
ghost use Rattle.type_classes.specs.Blocks.{Listed};
ghost use Rattle.type_classes.specs.Listings.{IsIdentity};
ghost use Rattle.mu_types.specs.Rows.{lists};
ghost use Rattle.type_classes.specs.Keys.{key_of, IsKeyed};
ghost use Rattle.std.specs.BTreeMap.{get};
ghost use Rattle.std.specs.Ordering.{nat_cmp};

use super::arguments::{arity, code, size};
use super::rows::{at, push_to};
use std::alloc::{AllocError, Global};
use std::collections::BTreeMap;
use type_definitions::TypeDef;

// one number for the three; great numbers may share one, which only costs time
fn key(definition: &TypeDef) -> u64
    ensures { result ≡ key_of definition.now }
{
    let size = (size(definition) % 16777216) as u64;
    let arity = arity(definition) as u64 % 4294967296;
    (size * 4294967296 + arity) * 16 + code(definition) as u64
}

fn keyed_block(blocks: &mut BTreeMap<u64, usize>, key: u64) -> Result<usize, AllocError>
    ensures found { IfOk result (λ b. get nat_cmp blocks.new key ≡ Some b) }
    ensures others { OnOk result ((q v : ℕ) → get nat_cmp blocks.old q ≡ Some v → get nat_cmp blocks.new q ≡ Some v) }
{
    if let Some(b) = blocks.get(&key) {
        return Ok(*b);
    }
    let b = blocks.len();
    blocks.insert(key, b)?;
    Ok(b)
}

fn keyed_blocks(alloc: Global, definitions: &[TypeDef]) -> Result<Vec<usize>, AllocError>
    ensures len { IfOk result (λ v. vec_len v ≡ length definitions.now) }
    ensures keyed { IfOk result (λ v. IsKeyed definitions.now v.items) }
{
    let mut blocks: BTreeMap<u64, usize> = BTreeMap::new(alloc);
    let mut all: Vec<usize> = Vec::new(alloc);
    for x in 0..definitions.len() {
        let b = keyed_block(&mut blocks, key(&definitions[x]))?;
        all.push(b)?;
    }
    Ok(all)
}

/// Blocks below the number of types, that keep the same types together.
pub fn first_blocks(alloc: Global, definitions: &[TypeDef]) -> Result<Vec<usize>, AllocError>
    requires { IsGraph definitions.now }
    ensures len { IfOk result (λ v. vec_len v ≡ length definitions.now) }
    ensures low { IfOk result (λ v. (x : ℕ) → x < length definitions.now → slice_index v.items x < length definitions.now) }
    ensures keeps { IfOk result (λ v. Keeps definitions.now v.items) }
{
    let raw = keyed_blocks(alloc, definitions)?;
    let n = definitions.len();
    let mut all: Vec<usize> = Vec::new(alloc);
    for x in 0..n {
        let b = at(&raw, x);
        all.push(if b < n { b } else { 0 })?;
    }
    Ok(all)
}

/// The members of each block.
pub fn list_members(alloc: Global, block: &[usize]) -> Result<Vec<Vec<usize>>, AllocError>
    requires { (x : ℕ) → x < length block.now → slice_index block.now x < length block.now }
    ensures len { IfOk result (λ v. vec_len v ≡ length block.now) }
    ensures listed { IfOk result (λ v. Listed block.now (lists v.items)) }
{
    let mut members = empty_rows(alloc, block.len())?;
    put_members(block, &mut members)?;
    Ok(members)
}

#[tactic(auto, using(crate::proofs::RowLemmas::pushed_there, crate::proofs::RowLemmas::pushed_kept))]
fn put_members(block: &[usize], members: &mut [Vec<usize>]) -> Result<(), AllocError>
    requires low { (x : ℕ) → x < length block.now → slice_index block.now x < length block.now }
    requires len { length members.old ≡ length block.now }
    ensures len { length members.new ≡ length block.now }
    ensures listed { OnOk result (Listed block.now (lists members.new)) }
{
    for x in 0..block.len() {
        push_to(members, block[x], x)?;
    }
    Ok(())
}

/// So many empty rows.
pub fn empty_rows(alloc: Global, many: usize) -> Result<Vec<Vec<usize>>, AllocError>
    ensures len { IfOk result (λ v. vec_len v ≡ many) }
    ensures empty { IfOk result (λ v. (x : ℕ) → slice_index_or (lists v.items) x [] ≡ []) }
{
    let mut rows: Vec<Vec<usize>> = Vec::new(alloc);
    for i in 0..many {
        rows.push(Vec::new(alloc))?;
    }
    Ok(rows)
}

/// The numbers from 0 on.
pub fn identity(alloc: Global, many: usize) -> Result<Vec<usize>, AllocError>
    ensures len { IfOk result (λ v. vec_len v ≡ many) }
    ensures each { IfOk result (λ v. IsIdentity v.items many) }
{
    let mut all: Vec<usize> = Vec::new(alloc);
    for i in 0..many {
        all.push(i)?;
    }
    Ok(all)
}

/// The greatest number of arguments.
pub fn widest(definitions: &[TypeDef]) -> usize
    ensures { (x k y : ℕ) → arg definitions.now x k ≡ Some y → k < result }
{
    let mut width = 0;
    for x in 0..definitions.len() {
        let arity = arity(&definitions[x]);
        if width < arity {
            width = arity;
        }
    }
    width
}
