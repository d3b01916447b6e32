// Definitions in a function: each name is defined once in its block, and each block once.
ghost use Rattle.std.specs.Prelude.{◌≡◌, [], OnOk, IfOk, option_to_list};
ghost use Rattle.std.specs.Option.{option_map_or};
ghost use Rattle.demands.specs.Demands.{none, Judges, Meets};
ghost use Rattle.name_scopes.specs.Names.{added};
ghost use Rattle.bundle_names.specs.Definitions.{fresh, with_name, list_demands, with_list, parameter_names, head_demands, with_head, inst_demands, insts_demands, block_demands, blocks_demands};

use crate::fault::{NameFault, NameKind, fault_at};
use ir_lex::Name;
use ir_tree::{Block, BlockHead, Inst, Parameter};
use name_scopes::Scope;
use std::alloc::Global;

/// Defines the name, which has to be new.
pub fn define<T: Drop>(
    alloc: Global,
    scope: &mut Scope<T>,
    name: &Name,
    value: T,
) -> Result<(), NameFault>
    ensures met { Meets (fresh scope.old name.now) result }
    ensures ok { OnOk result (scope.new ≡ added scope.old name.now.text value) }
{
    if scope.define(alloc, name.text.as_slice(), value)? {
        Ok(())
    } else {
        Err(fault_at(NameKind::Duplicate, name))
    }
}

fn define_list(alloc: Global, scope: &mut Scope<()>, names: &[Name]) -> Result<(), NameFault>
    ensures met { Meets (list_demands scope.old names.now) result }
    ensures ok { OnOk result (scope.new ≡ with_list scope.old names.now) }
{
    let mut left = names;
    'each: while let [first, more @ ..] = left {
        define(alloc, scope, first, ())?;
        left = more;
    }
    Ok(())
}

fn define_optional(
    alloc: Global,
    scope: &mut Scope<()>,
    name: &Option<Name>,
) -> Result<(), NameFault>
    ensures met { Meets (option_map_or (fresh scope.old) name.now none) result }
    ensures ok { OnOk result (scope.new ≡ with_list scope.old (option_to_list name.now)) }
{
    match name {
        None => Ok(()),
        Some(name) => define(alloc, scope, name, ()),
    }
}

fn define_parameters(
    alloc: Global,
    scope: &mut Scope<()>,
    parameters: &[Parameter],
) -> Result<(), NameFault>
    ensures met { Meets (list_demands scope.old (parameter_names parameters.now)) result }
    ensures ok { OnOk result (scope.new ≡ with_list scope.old (parameter_names parameters.now)) }
{
    let mut left = parameters;
    'each: while let [first, more @ ..] = left {
        define(alloc, scope, &first.name, ())?;
        left = more;
    }
    Ok(())
}

fn define_head(alloc: Global, head: &BlockHead) -> Result<Scope<()>, NameFault>
    ensures { Judges (head_demands head.now) (with_head [] head.now) result }
{
    let mut scope = Scope::new(alloc);
    define_parameters(alloc, &mut scope, head.parameters.as_slice())?;
    define_optional(alloc, &mut scope, &head.handler)?;
    Ok(scope)
}

fn define_inst(alloc: Global, scope: &mut Scope<()>, inst: &Inst) -> Result<(), NameFault>
    ensures met { Meets (inst_demands scope.old inst.now) result }
    ensures ok { OnOk result (scope.new ≡ with_list (with_list scope.old inst.now.results) (option_to_list inst.now.label)) }
{
    define_list(alloc, scope, inst.results.as_slice())?;
    define_optional(alloc, scope, &inst.label)
}

/// The parameters, the handler, the results and the labels of a block.
fn define_block(alloc: Global, block: &Block) -> Result<(), NameFault>
    ensures { Meets (block_demands block.now) result }
{
    let mut scope = define_head(alloc, &block.head)?;
    let mut left = block.insts.as_slice();
    'each: while let [first, more @ ..] = left {
        define_inst(alloc, &mut scope, first)?;
        left = more;
    }
    Ok(())
}

/// The blocks of a function, and the names in each.
pub fn define_blocks(alloc: Global, blocks: &[Block]) -> Result<(), NameFault>
    ensures { Meets (blocks_demands [] blocks.now) result }
{
    let mut scope = Scope::new(alloc);
    let mut left = blocks;
    'each: while let [first, more @ ..] = left {
        define(alloc, &mut scope, &first.head.name, ())?;
        define_block(alloc, first)?;
        left = more;
    }
    Ok(())
}
