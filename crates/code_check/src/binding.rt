// Variables that are added to those of the block so far.
ghost use Rattle.std.specs.Prelude.{◌≡◌, length, OnOk, OnErr};
ghost use Rattle.demands.specs.Demands.{IsMemory};
ghost use Rattle.checked_code.specs.Operands.{noted_list};
ghost use Rattle.code_check.specs.Gifts.{listed};
ghost use Rattle.checked_code.specs.Instructions.{bound, bound_results};

use crate::gifts::Gift;
use check_tables::{CheckFault, Tables};
use checked_code::{Locals, Variable};
use ir_lex::Name;
use std::alloc::Global;

/// Adds a variable of this class. Where no memory is found the variables are as they were.
pub fn bind(alloc: Global, locals: &mut Locals, name: &Name, class: u32) -> Result<(), CheckFault>
    ensures ok { OnOk result (locals.new ≡ bound locals.old name.now class) }
    ensures stays { OnErr result (locals.new ≡ locals.old) }
    ensures err { IsMemory result }
{
    let Ok(number) = u32::try_from(locals.classes.len()) else {
        return Err(CheckFault::Memory);
    };
    locals.classes.push(class)?;
    let variable = Variable { number, class };
    match locals.names.define(alloc, name.text.as_slice(), variable) {
        Ok(_) => Ok(()),
        Err(_) => {
            locals.classes.pop();
            Err(CheckFault::Memory)
        }
    }
}

/// Adds results of these classes.
fn bind_listed(
    alloc: Global,
    locals: &mut Locals,
    names: &[Name],
    classes: &[u32],
) -> Result<(), CheckFault>
    requires { length names.now ≡ length classes.now }
    ensures ok { OnOk result (locals.new ≡ bound_results locals.old names.now classes.now) }
    ensures err { IsMemory result }
{
    let mut left = names;
    let mut given = classes;
    'each: while let ([first, more @ ..], [class, others @ ..]) = (left, given) {
        bind(alloc, locals, first, *class)?;
        left = more;
        given = others;
    }
    Ok(())
}

/// Adds results of the types with these names.
fn bind_named(
    alloc: Global,
    tables: &Tables,
    locals: &mut Locals,
    names: &[Name],
    types: &[Name],
) -> Result<(), CheckFault>
    requires { length names.now ≡ length types.now }
    ensures ok { OnOk result (locals.new ≡ bound_results locals.old names.now (noted_list tables.now types.now)) }
    ensures err { IsMemory result }
{
    let mut left = names;
    let mut given = types;
    'each: while let ([first, more @ ..], [of_type, others @ ..]) = (left, given) {
        bind(alloc, locals, first, tables.noted_class(of_type))?;
        left = more;
        given = others;
    }
    Ok(())
}

/// Adds the results of an instruction.
pub fn bind_results(
    alloc: Global,
    tables: &Tables,
    locals: &mut Locals,
    names: &[Name],
    gift: Gift<'_>,
) -> Result<(), CheckFault>
    requires { length names.now ≡ length (listed tables.now gift) }
    ensures ok { OnOk result (locals.new ≡ bound_results locals.old names.now (listed tables.now gift.entry)) }
    ensures err { IsMemory result }
{
    match gift {
        Gift::Nothing => Ok(()),
        Gift::One(class) => bind_listed(alloc, locals, names, &[class]),
        Gift::Two(first, second) => bind_listed(alloc, locals, names, &[first, second]),
        Gift::Listed(classes) => bind_listed(alloc, locals, names, classes),
        Gift::Named(types) => bind_named(alloc, tables, locals, names, types),
    }
}
