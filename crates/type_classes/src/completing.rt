// The implied types are added.
ghost use Rattle.std.specs.Prelude.{◌≡◌, ℕ, ◌+◌, ◌-◌, ◌*◌, ◌^◌, ◌<◌, ◌≤◌, ◌++◌, ◌∷◌, [], Some, length, slice_index_or, vec_len, OnOk, IfOk};
ghost use Rattle.type_definitions.specs.declared.definition.TypeDef.{TypeDef};
ghost use Rattle.mu_types.specs.Implied.{is_signature, references, complete};
ghost use Rattle.mu_types.specs.References.{Referred};

use mu_types::Whole;
use std::alloc::{AllocError, Global};
use type_definitions::TypeDef;

fn is_sig(definition: &TypeDef) -> bool
    ensures { result ≡ is_signature definition.now }
{
    matches!(definition, TypeDef::Sig { .. })
}

fn refer(all: &mut Vec<TypeDef>, t: u32) -> Result<(), AllocError>
    requires { t < length all.old.items }
    ensures added { OnOk result ((d : TypeDef) → all.new.items ≡ all.old.items ++ references t (slice_index_or all.old.items t d)) }
    ensures few { OnOk result (length all.new.items ≤ length all.old.items + 2) }
    ensures grows { OnOk result (length all.old.items ≤ length all.new.items) }
{
    if is_sig(&all[t as usize]) {
        all.push(TypeDef::FuncRef(t))?;
    } else {
        all.push(TypeDef::Ref(t))?;
        all.push(TypeDef::Iref(t))?;
    }
    Ok(())
}

fn add_alone(all: &mut Vec<TypeDef>) -> Result<(), AllocError>
    ensures { OnOk result (all.new.items ≡ all.old.items ++ TypeDef.Void ∷ [] ++ TypeDef.Int 1 ∷ TypeDef.Int 32 ∷ TypeDef.StackRef ∷ TypeDef.ThreadRef ∷ []) }
{
    all.push(TypeDef::Void)?;
    all.push(TypeDef::Int { width: 1 })?;
    all.push(TypeDef::Int { width: 32 })?;
    all.push(TypeDef::StackRef)?;
    all.push(TypeDef::ThreadRef)?;
    Ok(())
}

/// Adds the implied types.
pub fn complete_graph(alloc: Global, written: Vec<TypeDef>) -> Result<Whole, AllocError>
    requires { 3 * length written.items + 7 < 2 ^ 32 - 1 }
    ensures all { IfOk result (λ w. w.all.items ≡ complete written.items) }
    ensures first { IfOk result (λ w. Referred w.all.items w.first.items (length written.items + 1)) }
    ensures few { IfOk result (λ w. length w.all.items ≤ 3 * length written.items + 7) }
{
    let n = written.len() as u32;
    let mut all = written;
    add_alone(&mut all)?;
    let mut first: Vec<u32> = Vec::new(alloc);
    for t in 0..n + 1 {
        first.push(all.len() as u32)?;
        refer(&mut all, t)?;
    }
    Ok(Whole { all, first })
}
