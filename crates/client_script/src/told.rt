//! What the global names of a script stand for.
ghost use Rattle.std.specs.Prelude.{◌≡◌, IfOk, IsSome, Some};
ghost use Rattle.check_tables.specs.Lookups.{global_class};
ghost use Rattle.checked_code.specs.Checking.{bundle_tables};
ghost use Rattle.mu_model.specs.Operands.{global_value};
ghost use Rattle.client_script.specs.Told.{told, pushed_told};

use crate::mentions::{Mention, Shared};
use crate::tree::{Argument, Pushed};
use bundle_names::Sort;
use ir_lex::Name;
use std::alloc::{AllocError, Global};

/// The value of a constant, a global or a function.
fn mention(alloc: Global, code: &Shared, sort: Option<Sort>) -> Result<Mention, AllocError>
    requires { IsSome (global_class (bundle_tables code.now) sort) }
    ensures { IfOk result (λ value. global_value code.now sort ≡ Some value) }
{
    match sort {
        Some(Sort::Constant(n)) => code.constant(alloc, n),
        Some(Sort::GlobalCell(n)) => Ok(Mention::global_cell(n)),
        Some(Sort::Function(n)) => Ok(Mention::function(n)),
        _ => Ok(Mention::nothing()),
    }
}

/// What a global name stands for.
#[tactic(auto, unfolding(checked_code::specs::Entries::tables_of))]
pub fn told(alloc: Global, code: &Shared, name: &Name) -> Result<Argument, AllocError>
    ensures { IfOk result (λ argument. argument ≡ told code.now name.now) }
{
    let tables = code.tables();
    let sort = tables.globals.names.find(name.text.as_slice()).copied();
    match tables.class_of_global(name) {
        None => Ok(Argument::Told {
            class: 0,
            value: Mention::nothing(),
        }),
        Some(class) => {
            let value = mention(alloc, code, sort)?;
            Ok(Argument::Told { class, value })
        }
    }
}

/// The function that a global name stands for, with the class of its type; None where it stands for none.
#[tactic(auto, unfolding(checked_code::specs::Entries::tables_of))]
pub fn pushed(code: &Shared, name: &Name) -> Option<Pushed>
    ensures { result ≡ pushed_told code.now name.now }
{
    let tables = code.tables();
    let class = tables.class_of_global(name)?;
    match tables.globals.names.find(name.text.as_slice()).copied() {
        Some(Sort::Function(function)) => Some(Pushed { class, function }),
        _ => None,
    }
}
