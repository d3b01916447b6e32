// Names in the bodies of functions.
ghost use Rattle.std.specs.Prelude.{◌≡◌, [], IfOk, OnOk, option_to_list};
ghost use Rattle.demands.specs.Demands.{Meets, IsMemory};
ghost use Rattle.bundle_names.specs.Definitions.{with_list, parameter_names, with_head};
ghost use Rattle.bundle_names.specs.BodyUses.{with_blocks, with_results, with_variables, names_of, op_use, inst_uses, parameter_uses, block_uses};

use crate::accesses::use_in_access;
use crate::common::use_in_common;
use crate::computations::use_in_computation;
use crate::control::use_in_control;
use crate::fault::NameFault;
use crate::function_names::FunctionNames;
use crate::globals::Sort;
use crate::objects::{use_in_addressing, use_in_allocation};
use crate::stacks::{use_in_switch, use_in_trapping};
use crate::uses::use_type;
use ir_lex::Name;
use ir_tree::{Block, BlockHead, Inst, Op, Parameter};
use name_scopes::Scope;
use std::alloc::Global;

// ---- the names that a body defines

fn add_list(alloc: Global, scope: &mut Scope<()>, names: &[Name]) -> Result<(), NameFault>
    ensures ok { OnOk result (scope.new ≡ with_list scope.old names.now) }
    ensures err { IsMemory result }
{
    let mut left = names;
    'each: while let [first, more @ ..] = left {
        scope.define(alloc, first.text.as_slice(), ())?;
        left = more;
    }
    Ok(())
}

fn add_optional(alloc: Global, scope: &mut Scope<()>, name: &Option<Name>) -> Result<(), NameFault>
    ensures ok { OnOk result (scope.new ≡ with_list scope.old (option_to_list name.now)) }
    ensures err { IsMemory result }
{
    if let Some(name) = name {
        scope.define(alloc, name.text.as_slice(), ())?;
    }
    Ok(())
}

fn add_parameters(
    alloc: Global,
    scope: &mut Scope<()>,
    parameters: &[Parameter],
) -> Result<(), NameFault>
    ensures ok { OnOk result (scope.new ≡ with_list scope.old (parameter_names parameters.now)) }
    ensures err { IsMemory result }
{
    let mut left = parameters;
    'each: while let [first, more @ ..] = left {
        scope.define(alloc, first.name.text.as_slice(), ())?;
        left = more;
    }
    Ok(())
}

fn add_head(alloc: Global, scope: &mut Scope<()>, head: &BlockHead) -> Result<(), NameFault>
    ensures ok { OnOk result (scope.new ≡ with_head scope.old head.now) }
    ensures err { IsMemory result }
{
    add_parameters(alloc, scope, head.parameters.as_slice())?;
    add_optional(alloc, scope, &head.handler)
}

fn add_results(alloc: Global, scope: &mut Scope<()>, insts: &[Inst]) -> Result<(), NameFault>
    ensures ok { OnOk result (scope.new ≡ with_results scope.old insts.now) }
    ensures err { IsMemory result }
{
    let mut left = insts;
    'each: while let [first, more @ ..] = left {
        add_list(alloc, scope, first.results.as_slice())?;
        left = more;
    }
    Ok(())
}

fn block_names(alloc: Global, blocks: &[Block]) -> Result<Scope<()>, NameFault>
    ensures ok { IfOk result (λ scope. scope ≡ with_blocks [] blocks.now) }
    ensures err { IsMemory result }
{
    let mut scope = Scope::new(alloc);
    let mut left = blocks;
    'each: while let [first, more @ ..] = left {
        scope.define(alloc, first.head.name.text.as_slice(), ())?;
        left = more;
    }
    Ok(scope)
}

fn variable_names(alloc: Global, blocks: &[Block]) -> Result<Scope<()>, NameFault>
    ensures ok { IfOk result (λ scope. scope ≡ with_variables [] blocks.now) }
    ensures err { IsMemory result }
{
    let mut scope = Scope::new(alloc);
    let mut left = blocks;
    'each: while let [first, more @ ..] = left {
        add_head(alloc, &mut scope, &first.head)?;
        add_results(alloc, &mut scope, first.insts.as_slice())?;
        left = more;
    }
    Ok(scope)
}

/// The names that the instructions of a function may use.
fn function_names(alloc: Global, blocks: &[Block]) -> Result<FunctionNames, NameFault>
    ensures ok { IfOk result (λ names. names ≡ names_of blocks.now) }
    ensures err { IsMemory result }
{
    let blocks_named = block_names(alloc, blocks)?;
    let variables = variable_names(alloc, blocks)?;
    Ok(FunctionNames {
        blocks: blocks_named,
        variables,
    })
}

// ---- the names that it uses

fn use_in_op(globals: &Scope<Sort>, function: &FunctionNames, op: &Op) -> Result<(), NameFault>
    ensures { Meets (op_use globals.now function.now op.now) result }
{
    match op {
        Op::Computation(computation) => use_in_computation(globals, function, computation),
        Op::ControlFlow(control) => use_in_control(globals, function, control),
        Op::Allocation(allocation) => use_in_allocation(globals, function, allocation),
        Op::Addressing(addressing) => use_in_addressing(globals, function, addressing),
        Op::Access(access) => use_in_access(globals, function, access),
        Op::Trapping(trapping) => use_in_trapping(globals, function, trapping),
        Op::StackSwitch(switch) => use_in_switch(globals, function, switch),
        Op::Common(common) => use_in_common(globals, function, common),
    }
}

fn use_in_insts(
    globals: &Scope<Sort>,
    function: &FunctionNames,
    insts: &[Inst],
) -> Result<(), NameFault>
    ensures { Meets (inst_uses globals.now function.now insts.now) result }
{
    let mut left = insts;
    'each: while let [first, more @ ..] = left {
        use_in_op(globals, function, &first.op)?;
        left = more;
    }
    Ok(())
}

fn use_in_parameters(globals: &Scope<Sort>, parameters: &[Parameter]) -> Result<(), NameFault>
    ensures { Meets (parameter_uses globals.now parameters.now) result }
{
    let mut left = parameters;
    'each: while let [first, more @ ..] = left {
        use_type(globals, &first.of_type)?;
        left = more;
    }
    Ok(())
}

fn use_in_each_block(
    globals: &Scope<Sort>,
    function: &FunctionNames,
    blocks: &[Block],
) -> Result<(), NameFault>
    ensures { Meets (block_uses globals.now function.now blocks.now) result }
{
    let mut left = blocks;
    'each: while let [first, more @ ..] = left {
        use_in_parameters(globals, first.head.parameters.as_slice())?;
        use_in_insts(globals, function, first.insts.as_slice())?;
        left = more;
    }
    Ok(())
}

/// The names in the blocks of a function.
pub fn use_in_blocks(
    alloc: Global,
    globals: &Scope<Sort>,
    blocks: &[Block],
) -> Result<(), NameFault>
    ensures { Meets (block_uses globals.now (names_of blocks.now) blocks.now) result }
{
    let function = function_names(alloc, blocks)?;
    use_in_each_block(globals, &function, blocks)
}
